// Reading a file into memory that nothing was written to.

ghost use Rattle.std.specs.Prelude.{◌≡◌, ◌≤◌, OnOk, take, vec_len};
ghost use Rattle.xnsim.specs.Reads.{Reads};

use std::alloc::AllocError;
use std::io;
use std::io::Read;

/// How many bytes are asked of the system at once.
const PIECE: usize = 128 * 1024;

/// How many bytes are cleared at once before they are read into. The GNU C library clears 2,048 and more by `rep stosb`, which takes longer where
/// each page is touched for the first time.
const CLEARED: usize = 1024;

/// Puts zeros behind these bytes, up to a length.
fn clear_to(bytes: &mut Vec<u8>, length: usize) -> Result<(), AllocError>
    requires { vec_len bytes.old ≤ length }
    ensures length { OnOk result (vec_len bytes.new ≡ length) }
    ensures front { OnOk result (take (vec_len bytes.old) bytes.new.items ≡ bytes.old.items) }
{
    for end in bytes.len() / CLEARED..length / CLEARED {
        bytes.resize(length.min((end + 1) * CLEARED), 0)?;
    }
    bytes.resize(length, 0)?;
    Ok(())
}

/// Reads so many bytes of a file behind these.
fn read_piece<F: Read>(file: &mut F, bytes: &mut Vec<u8>, length: usize) -> io::Result<()>
    ensures { OnOk result (Reads (F.remaining file.old) (F.remaining file.new) bytes.old.items bytes.new.items) }
{
    let start = bytes.len();
    clear_to(bytes, start.saturating_add(length))?;
    file.read_exact(&mut bytes[start..])
}

/// The same piece by piece.
pub fn read_pieces<F: Read>(file: &mut F, bytes: &mut Vec<u8>, length: usize) -> io::Result<()>
    ensures { OnOk result (Reads (F.remaining file.old) (F.remaining file.new) bytes.old.items bytes.new.items) }
{
    for start in (0..length).step_by(PIECE) {
        read_piece(file, bytes, PIECE.min(length.saturating_sub(start)))?;
    }
    Ok(())
}
