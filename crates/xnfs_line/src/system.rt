// What a line asks of the system beside files and streams.

use crate::fault::LineFault;
use std::random::RandomSource;
use std::time::Clock;

/// How many bytes the key of a volume's hash of names has.
const KEY_LEN: usize = 16;

/// Whether who reads what is printed and writes the lines of a shell sits at a terminal.
#[derive(Clone, Copy, Debug, PartialEq, Eq)]
pub enum Terminal {
    /// A shell writes a prompt before each line.
    Prompted,
    Silent,
}

/// The time in nanoseconds since 1970.
pub fn time_of(clock: &impl Clock) -> Result<i64, LineFault> {
    match clock.since_1970() {
        Ok(time) => Ok(i64::try_from(time.as_nanos()).unwrap_or(i64::MAX)),
        Err(error) => Err(LineFault::System(error)),
    }
}

/// A random key of a volume's hash of names.
pub fn random_key(source: &impl RandomSource) -> Result<[u8; KEY_LEN], LineFault> {
    let mut key = [0; KEY_LEN];
    match source.fill_bytes(&mut key) {
        Ok(()) => Ok(key),
        Err(error) => Err(LineFault::System(error)),
    }
}
