// Bytes that arrive in pieces.

ghost use Rattle.std.specs.Prelude.{◌≤◌, IfOk, length};

use host_trees::Host;
use std::io;
use std::io::{ErrorKind, Read};

/// What bytes are read from, one behind the other.
pub trait Incoming<H: Host> {
    /// Reads the next bytes, and answers how many they are: none at the end.
    fn read_some(&mut self, host: &H, bytes: &mut [u8]) -> io::Result<usize>
        ensures { IfOk result (λ count. count ≤ length bytes.new) };
}

/// A stream.
pub struct Stream<'i, I: Read> {
    pub input: &'i mut I,
}

impl<'i, I: Read> Drop for Stream<'i, I> {
    fn drop(self) {
        let Stream { input: _ } = self;
    }
}

impl<H: Host, I: Read> Incoming<H> for Stream<'_, I> {
    fn read_some(&mut self, _host: &H, bytes: &mut [u8]) -> io::Result<usize> {
        self.input.read(bytes)
    }
}

/// An open file of the system.
pub struct OpenFile<H: Host> {
    pub file: H::File,
}

impl<H: Host> Drop for OpenFile<H> {
    fn drop(self) {
        let OpenFile { file: _ } = self;
    }
}

impl<H: Host> Incoming<H> for OpenFile<H> {
    fn read_some(&mut self, host: &H, bytes: &mut [u8]) -> io::Result<usize> {
        host.read(&mut self.file, bytes)
    }
}

/// Reads the next bytes, as many as there is room for, or up to the end. Answers how many they are.
pub fn read_piece<H: Host, I: Incoming<H>>(
    host: &H,
    incoming: &mut I,
    piece: &mut [u8],
) -> io::Result<usize>
    ensures { IfOk result (λ count. count ≤ length piece.new) }
{
    let mut filled = 0usize;
    for _some in 0..u64::MAX {
        let Some(room) = piece.get_mut(filled..) else {
            break;
        };
        if room.is_empty() {
            break;
        }
        match incoming.read_some(host, room) {
            Ok(0) => break,
            Ok(count) => filled = filled.saturating_add(count),
            Err(error) if error.kind() == ErrorKind::Interrupted => {}
            Err(error) => return Err(error),
        }
    }
    Ok(filled.min(piece.len()))
}
