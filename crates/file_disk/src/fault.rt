// Why a file is not a disk.

use std::alloc::AllocError;
use std::io;
use system_files::OpenFault;
use thiserror::Error;

/// Why a file was not opened as a disk, or not made.
#[derive(Debug, Drop, Error)]
pub enum FileFault {
    /// Something has the name of the file that was to be made.
    #[error("the file is there already")]
    AlreadyThere,
    /// Nothing has the name of the file that was to be opened.
    #[error("there is no such file")]
    NotThere,
    /// Another handle, of this process or of another one, has the file's lock.
    #[error("the file is in use")]
    InUse,
    /// A device, a pipe or the like has the name. Of a folder the system answers an error of its own.
    #[error("this is no regular file")]
    NotAFile,
    /// The file is not 32 to 1,048,576 blocks of 512 bytes long. It has so many bytes.
    #[error("a file of {0} bytes is no disk: a disk has 32 to 1048576 blocks of 512 bytes")]
    BadLength(u64),
    /// The system answered this error.
    #[error("{0}")]
    System(io::Error),
    /// There was no memory.
    #[error("no memory")]
    NoMemory,
}

impl From<io::Error> for FileFault {
    fn from(error: io::Error) -> FileFault {
        FileFault::System(error)
    }
}

impl From<AllocError> for FileFault {
    fn from(_error: AllocError) -> FileFault {
        FileFault::NoMemory
    }
}

impl From<OpenFault> for FileFault {
    fn from(fault: OpenFault) -> FileFault {
        match fault {
            OpenFault::NotThere => FileFault::NotThere,
            OpenFault::InUse => FileFault::InUse,
            OpenFault::NotAFile => FileFault::NotAFile,
            OpenFault::System(error) => FileFault::System(error),
        }
    }
}
