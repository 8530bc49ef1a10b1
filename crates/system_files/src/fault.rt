// Why a file is not written.

use std::alloc::{AllocError, AllocFailed};
use std::io;
use std::io::ErrorKind;
use thiserror::Error;

/// Why a file was not written. Its text reads well behind the file's name.
#[derive(Debug, Drop, Error)]
pub enum WriteFault {
    /// Some handle has the lock of the file that was to be replaced.
    #[error("is in use")]
    InUse,
    /// The name is that of a link, and links were refused.
    #[error("is a link")]
    Link,
    /// The name is that of a folder.
    #[error("is a folder")]
    Folder,
    /// The name is empty.
    #[error("is no name of a file")]
    Name,
    /// The system answered this error.
    #[error("{0}")]
    System(io::Error),
    /// There was no memory.
    #[error("no memory")]
    NoMemory,
}

impl From<io::Error> for WriteFault {
    fn from(error: io::Error) -> WriteFault {
        match error.kind() {
            ErrorKind::OutOfMemory => WriteFault::NoMemory,
            _ => WriteFault::System(error),
        }
    }
}

impl From<AllocError> for WriteFault {
    fn from(_error: AllocError) -> WriteFault {
        WriteFault::NoMemory
    }
}

impl<T: Drop> From<AllocFailed<T>> for WriteFault {
    fn from(_error: AllocFailed<T>) -> WriteFault {
        WriteFault::NoMemory
    }
}
