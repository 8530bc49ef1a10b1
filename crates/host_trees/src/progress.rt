// What is told of files that are under way, on a terminal alone.

use crate::host::Host;
use std::alloc::{AllocError, Global};

/// Nothing is told before so many milliseconds.
const PATIENCE: u64 = 1_000;

/// What is told is told anew after so many.
const BETWEEN: u64 = 100;

const MEGABYTE: u64 = 1_048_576;

/// A line on the terminal that tells how many files are done, and how many bytes, once that takes a while.
#[derive(Debug, Drop)]
pub struct Progress {
    begun: u64,
    /// When it was told last; nothing before it is told first.
    told: Option<u64>,
    files: u64,
    bytes: u64,
}

/// What is told of so many files and bytes.
fn line_of(alloc: Global, files: u64, bytes: u64) -> Result<String, AllocError> {
    let megabytes = bytes / MEGABYTE;
    format!(in alloc; "\r{files} files, {megabytes} MB")
}

impl Progress {
    /// Nothing is done yet.
    pub fn begin<H: Host>(host: &H) -> Progress {
        Progress {
            begun: host.milliseconds(),
            told: None,
            files: 0,
            bytes: 0,
        }
    }

    /// Whether it is time to tell something.
    fn is_due(&self, now: u64) -> bool {
        match self.told {
            Some(told) => now.saturating_sub(told) >= BETWEEN,
            None => now.saturating_sub(self.begun) >= PATIENCE,
        }
    }

    /// Tells how much is done, where it is time to.
    fn tell<H: Host>(&mut self, host: &H, alloc: Global) {
        let now = host.milliseconds();
        if self.is_due(now)
            && let Ok(line) = line_of(alloc, self.files, self.bytes)
        {
            self.told = Some(now);
            host.tell_terminal(line.as_str());
        }
    }

    /// One more file is done.
    pub fn add_file<H: Host>(&mut self, host: &H, alloc: Global) {
        self.files = self.files.saturating_add(1);
        self.tell(host, alloc);
    }

    /// So many more bytes are done.
    pub fn add_bytes<H: Host>(&mut self, host: &H, alloc: Global, count: usize) {
        self.bytes = self.bytes.saturating_add(count as u64);
        self.tell(host, alloc);
    }

    /// Takes the line away.
    pub fn end<H: Host>(self, host: &H) {
        if self.told.is_some() {
            host.tell_terminal("\r\x1b[K");
        }
    }
}
