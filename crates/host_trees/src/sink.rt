// What the bytes of a file are written to.

use std::fs::File;
use std::io;
use std::io::{Seek, SeekFrom, Write};

/// So many zeros are written at once where nothing may be left out.
const ZEROS: usize = 4_096;

static ZERO_BYTES: [u8; ZEROS] = [0; ZEROS];

/// What bytes are written to, one behind the other.
pub trait Sink {
    /// Writes these bytes.
    fn put(&mut self, bytes: &[u8]) -> io::Result<()>;

    /// So many zeros stand here: they may be left out.
    fn skip(&mut self, count: u64) -> io::Result<()>;
}

/// What writes the bytes of a file.
pub trait Filler {
    /// Writes all of them.
    fn fill<K: Sink>(&mut self, sink: &mut K) -> io::Result<()>;
}

/// A stream, into which zeros are written as they are.
pub struct PlainSink<'w, W: Write> {
    pub out: &'w mut W,
}

impl<'w, W: Write> Drop for PlainSink<'w, W> {
    fn drop(self) {
        let PlainSink { out: _ } = self;
    }
}

impl<W: Write> Sink for PlainSink<'_, W> {
    fn put(&mut self, bytes: &[u8]) -> io::Result<()> {
        self.out.write_all(bytes)
    }

    fn skip(&mut self, count: u64) -> io::Result<()> {
        for _ in 0..count / ZEROS as u64 {
            self.out.write_all(&ZERO_BYTES)?;
        }
        let left = (count % ZEROS as u64) as usize;
        self.out.write_all(&ZERO_BYTES[..left])?;
        Ok(())
    }
}

/// A regular file, in which zeros that are left out are holes.
#[derive(Drop)]
pub struct SparseSink<'f> {
    file: &'f mut File,
    /// How many bytes it has so far, with those that were left out.
    length: u64,
}

impl<'f> SparseSink<'f> {
    /// A file that is empty.
    pub fn new(file: &'f mut File) -> SparseSink<'f> {
        SparseSink { file, length: 0 }
    }

    /// Has the file end behind what was written and left out.
    pub fn finish(self) -> io::Result<()> {
        let SparseSink { file, length } = self;
        file.set_len(length)
    }
}

impl Sink for SparseSink<'_> {
    fn put(&mut self, bytes: &[u8]) -> io::Result<()> {
        self.file.write_all(bytes)?;
        self.length = self.length.saturating_add(bytes.len() as u64);
        Ok(())
    }

    fn skip(&mut self, count: u64) -> io::Result<()> {
        self.length = self.length.saturating_add(count);
        self.file.seek(SeekFrom::Start(self.length))?;
        Ok(())
    }
}
