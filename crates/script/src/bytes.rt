// Bytes are printed.

ghost use Rattle.std.specs.Prelude.{◌≡◌, ◌<◌, ◌≤◌, length, take, OnOk};
ghost use Rattle.std.specs.List.{flat_map};
ghost use Rattle.std.specs.Io.KnownBytes.{Appends};
ghost use Rattle.script.specs.Bytes.{bytes_text, hex_digit, hex_pair, used_length};

use arrayvec::ArrayVec;
use std::io;
use std::io::Write;
use store_types::BLOCK_LEN;

/// The lower-case digit of base 16.
fn hex_digit(value: u8) -> u8
    requires { value < 16 }
    ensures { result ≡ hex_digit value }
{
    if value < 10 {
        b'0' + value
    } else {
        b'a' - 10 + value
    }
}

/// How many bytes there are up to the last one that is not zero.
fn used_length(bytes: &[u8; BLOCK_LEN]) -> usize
    ensures length { result ≡ used_length bytes.now }
    ensures within { result ≤ 512 }
{
    let mut used = 0;
    for place in 0..512 {
        if bytes[place] != 0 {
            used = place + 1;
        }
    }
    used
}

/// The pairs of digits of bytes.
fn hex_pairs(bytes: &[u8]) -> ArrayVec<u8, 1024>
    requires { length bytes.now ≤ 512 }
    ensures { result.items ≡ flat_map hex_pair bytes.now }
{
    let mut digits = ArrayVec::<u8, 1024>::new();
    for byte in bytes {
        digits.push(hex_digit(byte / 16));
        digits.push(hex_digit(byte % 16));
    }
    digits
}

/// Prints a block's bytes without the zeros at their end, in pairs of digits, or `-` for none. It is not inlined, so that no other reply clears the room
/// of the digits for it.
#[inline(never)]
pub fn print_bytes<W: Write>(out: &mut W, bytes: &[u8; BLOCK_LEN]) -> io::Result<()>
    ensures { OnOk result (Appends (W.contents out.old) (W.contents out.new) (bytes_text bytes.now)) }
{
    let used = used_length(bytes);
    if used == 0 {
        return out.write_all(b"-");
    }
    out.write_all(hex_pairs(&bytes[..used]).as_slice())
}
