// What is told where a line can't be done.

use std::alloc::{AllocError, AllocFailed};
use std::io;
use thiserror::Error;
use tree_disks::DiskFault;
use tree_lines::Fault;

/// Why a line can't be done. Its text is what is told, behind the names of the program and of the disk.
#[derive(Debug, Drop, Error)]
pub enum LineFault {
    /// Something of the word.
    #[error("{0}")]
    Word(#[from] Fault),
    /// The disk is not made or opened.
    #[error("{0}")]
    Disk(#[from] DiskFault),
    /// A word that names a file of the system has no bytes.
    #[error("the word {0} is empty")]
    Empty(&'static str),
    /// There is no file system of this number.
    #[error("there is no file system {0}: they are 0 to 31")]
    NoFileSystem(u8),
    /// Such a volume is looked at, and not changed.
    #[error("a volume of the first library file system: get its files and put them in a new one")]
    FirstVolume,
    /// No further block was to be written, as a test asked.
    #[error("stopped before another block was written")]
    Stopped,
    /// The system tells neither the time nor random bytes.
    #[error("the system: {0}")]
    System(io::Error),
}

impl From<AllocError> for LineFault {
    fn from(_error: AllocError) -> LineFault {
        LineFault::Word(Fault::NoMemory)
    }
}

impl<T: Drop> From<AllocFailed<T>> for LineFault {
    fn from(_error: AllocFailed<T>) -> LineFault {
        LineFault::Word(Fault::NoMemory)
    }
}

impl From<io::Error> for LineFault {
    fn from(error: io::Error) -> LineFault {
        LineFault::Word(Fault::Stream(error))
    }
}
