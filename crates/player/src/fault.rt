// Why a transcript isn't as written.

use std::alloc::{AllocError, AllocFailed};
use thiserror::Error;

/// The first line that isn't as written, from 1, with what stands there and what came. Where nothing was to come, the line
/// is the one behind.
#[derive(Debug, Drop, Error)]
#[error("line {line}: expected \"{expected}\", came \"{came}\"")]
pub struct Difference {
    pub line: usize,
    pub expected: String,
    pub came: String,
}

/// Why a transcript was not played to its end.
#[derive(Debug, Drop, Error)]
pub enum PlayFault {
    #[error("no memory")]
    NoMemory,
    /// The line, from 1, is no command that the player knows, or the files that it names are not there, or it belongs to no
    /// command.
    #[error("line {line}: no command")]
    NoCommand { line: usize },
    #[error("{0}")]
    Differs(Difference),
}

impl From<AllocError> for PlayFault {
    fn from(_error: AllocError) -> PlayFault {
        PlayFault::NoMemory
    }
}

impl<T: Drop> From<AllocFailed<T>> for PlayFault {
    fn from(_error: AllocFailed<T>) -> PlayFault {
        PlayFault::NoMemory
    }
}
