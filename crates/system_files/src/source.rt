// What is written.
ghost use Rattle.std.specs.Prelude.{ℕ, List, OnOk};
ghost use Rattle.std.specs.Io.KnownBytes.{Appends};

use std::io;
use std::io::Write;

/// Bytes that are written to where they are wanted.
pub trait Source {
    ghost bytes_of: { Self → List ℕ };

    /// Writes all of them.
    fn write_to<W: Write>(self, out: &mut W) -> io::Result<()>
        ensures { OnOk result (Appends (W.contents out.old) (W.contents out.new) (bytes_of self)) };
}

impl<'a> Source for &'a [u8] {
    ghost bytes_of = { λ bytes. bytes.now };

    fn write_to<W: Write>(self, out: &mut W) -> io::Result<()> {
        out.write_all(self)
    }
}
