// Bytes of a volume that are written to a file of the system.

use host_trees::{Filler, Host, Progress, Sink};
use std::alloc::Global;
use std::io;
use std::io::ErrorKind;
use tree_lines::{Reason, View};

/// A file of a volume that is written out.
pub struct Outgoing<'v, V: View, H: Host> {
    pub view: &'v V,
    pub host: &'v H,
    pub alloc: Global,
    pub number: u32,
    pub size: u64,
    /// Room for a piece.
    pub piece: &'v mut [u8],
    pub progress: &'v mut Progress,
    /// Why the volume could not be read, where that is so.
    pub fault: Option<Reason>,
}

impl<'v, V: View, H: Host> Drop for Outgoing<'v, V, H> {
    fn drop(self) {
        let Outgoing {
            view: _,
            host: _,
            alloc: _,
            number: _,
            size: _,
            piece: _,
            progress: _,
            fault: _,
        } = self;
    }
}

impl<'v, V: View, H: Host> Outgoing<'v, V, H> {
    /// Keeps why the volume could not be read, and ends the writing.
    fn stop(&mut self, reason: Reason) -> io::Error {
        self.fault = Some(reason);
        ErrorKind::Other.into()
    }

    /// Writes the bytes from one on, at most so many, and answers how many there were.
    fn put_piece<K: Sink>(&mut self, sink: &mut K, at: u64, most: u64) -> io::Result<u64> {
        let most = most.min(self.piece.len() as u64) as usize;
        let Some(room) = self.piece.get_mut(..most) else {
            return Ok(0);
        };
        let count = match self.view.read(self.number, at, room) {
            Ok(count) => count,
            Err(reason) => return Err(self.stop(reason)),
        };
        match self.piece.get(..count) {
            Some(bytes) => sink.put(bytes)?,
            None => return Ok(0),
        }
        self.progress.add_bytes(self.host, self.alloc, count);
        Ok(count as u64)
    }

    /// Writes what stands from a byte on, with the hole before it, and answers where that ends.
    fn put_stretch<K: Sink>(&mut self, sink: &mut K, at: u64) -> io::Result<u64> {
        let most = self.piece.len() as u64;
        let stretch = match self.view.stretch(self.number, at, most) {
            Ok(stretch) => stretch,
            Err(reason) => return Err(self.stop(reason)),
        };
        let (first, length) = match stretch {
            Some(stretch) => (stretch.at.max(at).min(self.size), stretch.length),
            None => (self.size, 0),
        };
        if first > at {
            sink.skip(first - at)?;
        }
        if length == 0 {
            return Ok(first);
        }
        let count = self.put_piece(sink, first, length)?;
        Ok(first.saturating_add(count))
    }
}

impl<'v, V: View, H: Host> Filler for Outgoing<'v, V, H> {
    fn fill<K: Sink>(&mut self, sink: &mut K) -> io::Result<()> {
        let mut at = 0;
        for _ in 0..u64::MAX {
            if at >= self.size {
                break;
            }
            let next = self.put_stretch(sink, at)?;
            if next <= at {
                break;
            }
            at = next;
        }
        if at < self.size {
            sink.skip(self.size - at)?;
        }
        Ok(())
    }
}
