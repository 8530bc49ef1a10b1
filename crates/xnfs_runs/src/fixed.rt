// The time and the random bytes that the program is told.

use std::io;
use std::random::RandomSource;
use std::time::{Clock, Duration};

/// 2026-11-29 12:00:00 UTC, in seconds since 1970.
const NOW: u64 = 1_795_953_600;

/// Each random byte.
const BYTE: u8 = 0x55;

/// A clock that stands, whose random bytes are one and the same.
#[derive(Clone, Copy, Debug)]
pub struct Fixed;

impl Clock for Fixed {
    fn monotonic(&self) -> io::Result<Duration> {
        Ok(Duration::from_secs(NOW))
    }

    fn since_1970(&self) -> io::Result<Duration> {
        Ok(Duration::from_secs(NOW))
    }
}

impl RandomSource for Fixed {
    fn fill_bytes(&self, buf: &mut [u8]) -> io::Result<()> {
        for byte in buf.iter_mut() {
            *byte = BYTE;
        }
        Ok(())
    }
}
