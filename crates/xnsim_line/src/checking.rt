// An image is checked.

ghost use Rattle.std.specs.Prelude.{◌≡◌, OnOk};
ghost use Rattle.std.specs.Io.KnownBytes.{Appends};
ghost use Rattle.xnsim_line.specs.Checking.{report_line};

use std::io;
use std::io::Write;

/// Says how many blocks of a sound image are reached, and how many are free.
pub fn print_report<W: Write>(out: &mut W, reached: usize, free: usize) -> io::Result<()>
    ensures { OnOk result (Appends (W.contents out.old) (W.contents out.new) (report_line reached free)) }
{
    writeln!(out, "reached {reached} free {free}")
}
