// Why a disk can't be made or opened.

use crash_check::ImageFault;
use file_disk::FileFault;
use std::alloc::{AllocError, AllocFailed};
use store_types::Refusal;
use templates::FormatFault;
use thiserror::Error;
use tree_lines::{Reason, reason_of};
use treefs_model::Fault;

/// Why a disk can't be made or opened. Its text is what is told, behind the names of the program and of the disk.
#[derive(Debug, Drop, Error)]
pub enum DiskFault {
    /// The file is no disk, or can't be had.
    #[error("{0}")]
    File(#[from] FileFault),
    /// No fresh disk is made.
    #[error("no disk is made: {0}")]
    Format(FormatFault),
    /// The disk can't be mounted.
    #[error("no sound disk: {0}")]
    Image(ImageFault),
    /// The disk has volumes, but not that of the file system that is asked for.
    #[error("file system {fs} has no volume there: {others}")]
    NoVolume { fs: u8, others: String },
    /// The volume of a fresh disk is not made.
    #[error("no volume is made: {0}")]
    Volume(Reason),
    /// The disk in memory of a fresh disk refused a flush.
    #[error("no volume is made: {0}")]
    Flush(Refusal),
    #[error("no memory")]
    NoMemory,
}

impl From<AllocError> for DiskFault {
    fn from(_error: AllocError) -> DiskFault {
        DiskFault::NoMemory
    }
}

impl<T: Drop> From<AllocFailed<T>> for DiskFault {
    fn from(_error: AllocFailed<T>) -> DiskFault {
        DiskFault::NoMemory
    }
}

impl From<ImageFault> for DiskFault {
    fn from(fault: ImageFault) -> DiskFault {
        match fault {
            ImageFault::NoMemory => DiskFault::NoMemory,
            _ => DiskFault::Image(fault),
        }
    }
}

impl From<FormatFault> for DiskFault {
    fn from(fault: FormatFault) -> DiskFault {
        match fault {
            FormatFault::NoMemory => DiskFault::NoMemory,
            _ => DiskFault::Format(fault),
        }
    }
}

impl From<Fault> for DiskFault {
    fn from(fault: Fault) -> DiskFault {
        match fault {
            Fault::Kernel(Refusal::NoMemory) => DiskFault::NoMemory,
            _ => DiskFault::Volume(reason_of(fault, 0)),
        }
    }
}
