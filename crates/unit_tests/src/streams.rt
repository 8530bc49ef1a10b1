// Standard streams that fail. All else that the line does is shown by transcripts.

use crate::disks::same;
use std::alloc::Global;
use std::io;
use std::io::{ErrorKind, Read, Write};
use system_files::{Access, Source};
use xnsim_line::{Files, line};

/// No files.
#[derive(Drop)]
struct NoFiles;

impl Files for NoFiles {
    ghost use Rattle.std.specs.Prelude.{None};

    ghost held = { λ _. None };

    fn read_start(&mut self, _alloc: Global, _name: &str, _limit: usize) -> Option<Vec<u8>> {
        None
    }

    fn read_disk(
        &mut self,
        _alloc: Global,
        _name: &str,
        _limit: usize,
        _access: Access,
    ) -> Option<Vec<u8>> {
        None
    }

    fn is_one_file(&mut self, one: &str, other: &str) -> bool {
        one == other
    }

    fn write_from<S: Source + Drop>(&mut self, _name: &str, _source: S) -> bool {
        false
    }
}

/// What a stream fails at.
#[derive(Clone, Copy)]
enum Fails {
    Nothing,
    Reads,
    /// Each write and each flush.
    Writes,
    Flushes,
}

/// A stream of a text. What is written to it is let go.
#[derive(Drop)]
struct Stream {
    text: &'static [u8],
    fails: Fails,
}

impl Read for Stream {
    fn read(&mut self, buffer: &mut [u8]) -> io::Result<usize> {
        match self.fails {
            Fails::Reads => Err(io::Error::from(ErrorKind::BrokenPipe)),
            _ => self.text.read(buffer),
        }
    }
}

impl Write for Stream {
    fn write(&mut self, buffer: &[u8]) -> io::Result<usize> {
        match self.fails {
            Fails::Writes => Err(io::Error::from(ErrorKind::BrokenPipe)),
            _ => Ok(buffer.len()),
        }
    }

    fn flush(&mut self) -> io::Result<()> {
        match self.fails {
            Fails::Writes | Fails::Flushes => Err(io::Error::from(ErrorKind::BrokenPipe)),
            _ => Ok(()),
        }
    }
}

#[test]
fn has_status_1_where_a_stream_fails(rt: HostRuntime) {
    for (read, written, told) in [
        (Fails::Reads, Fails::Nothing, "cannot read -\n"),
        (Fails::Nothing, Fails::Writes, ""),
        (Fails::Nothing, Fails::Flushes, ""),
    ] {
        let mut input = Stream {
            text: b"floor 0\n",
            fails: read,
        };
        let mut out = Stream {
            text: b"",
            fails: written,
        };
        let mut err = Vec::new(rt.alloc());
        let status = line(
            &rt,
            rt.alloc(),
            &[],
            &mut NoFiles,
            &mut input,
            &mut out,
            &mut err,
        );
        same(&rt, "status", status, 1);
        same(&rt, "what is told", err.as_slice(), told.as_bytes());
    }
}
