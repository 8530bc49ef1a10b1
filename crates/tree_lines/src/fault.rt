// What is told where a line can't be done.

ghost use Rattle.std.specs.Prelude.{◌≡◌};
ghost use Rattle.tree_lines.specs.Faults.{TellsReason};
ghost use Rattle.tree_lines.specs.declared.fault.Fault.TheVariants.{NoMemory};

use crate::reason::Reason;
use crate::showing::shown;
use file_disk::FileFault;
use std::alloc::{AllocError, AllocFailed, Global};
use std::io;
use store_types::Refusal;
use system_files::WriteFault;
use thiserror::Error;

/// Why a line can't be done, or not whole. Its text is what is told, behind the names of the program and of the disk.
#[derive(Debug, Drop, Error)]
pub enum Fault {
    /// At a path of the volume, or of the system, as it is shown.
    #[error("{path}: {reason}")]
    At { path: String, reason: Reason },
    /// What the system answered at a path of its own.
    #[error("{path}: {error}")]
    System { path: String, error: io::Error },
    /// Why a file of the system was not written.
    #[error("{path}: {fault}")]
    Target { path: String, fault: WriteFault },
    /// The file is no disk, or can't be had.
    #[error("{0}")]
    File(#[from] FileFault),
    /// Something at the volume as a whole.
    #[error("{0}")]
    Volume(Reason),
    /// A word of the line that can't be read where it stands.
    #[error("{word}: {wanted}")]
    Word { word: String, wanted: &'static str },
    /// The disk failed, or there was no memory for what was to be written.
    #[error("not on the disk: {0}")]
    Flush(Refusal),
    /// Why the disk failed, as the system told it.
    #[error("not on the disk: {0}")]
    Disk(io::Error),
    /// What a check has found.
    #[error("the volume is damaged: {0} faults")]
    Faults(u64),
    /// More was told than is kept.
    #[error("{0} more faults")]
    More(u64),
    #[error("no memory")]
    NoMemory,
    #[error("a standard stream failed: {0}")]
    Stream(#[from] io::Error),
}

impl From<AllocError> for Fault {
    ghost from_gives = { λ error fault. fault ≡ NoMemory };

    fn from(_error: AllocError) -> Fault {
        Fault::NoMemory
    }
}

impl<T: Drop> From<AllocFailed<T>> for Fault {
    ghost from_gives = { λ error fault. fault ≡ NoMemory };

    fn from(_error: AllocFailed<T>) -> Fault {
        Fault::NoMemory
    }
}

/// The fault of a reason at a path, whatever its bytes are.
pub fn at_bytes(alloc: Global, path: &[u8], reason: Reason) -> Fault
    ensures { TellsReason result reason }
{
    match (shown(alloc, path), reason) {
        (_, Reason::NoMemory) => Fault::NoMemory,
        (Ok(path), reason) => Fault::At { path, reason },
        (Err(_), _) => Fault::NoMemory,
    }
}

/// The fault of a reason at a path.
pub fn at(alloc: Global, path: &str, reason: Reason) -> Fault
    ensures { TellsReason result reason }
{
    at_bytes(alloc, path.as_bytes(), reason)
}

/// The fault of a word of a line that is not what is wanted there.
pub fn at_word(alloc: Global, word: &str, wanted: &'static str) -> Fault {
    match shown(alloc, word.as_bytes()) {
        Ok(word) => Fault::Word { word, wanted },
        Err(_) => Fault::NoMemory,
    }
}

/// The fault of an error of the system at a path of its own.
pub fn system(alloc: Global, path: &[u8], error: io::Error) -> Fault {
    match shown(alloc, path) {
        Ok(path) => Fault::System { path, error },
        Err(_) => Fault::NoMemory,
    }
}

/// The fault of a file of the system that was not written.
pub fn not_written(alloc: Global, path: &[u8], fault: WriteFault) -> Fault {
    match (shown(alloc, path), fault) {
        (_, WriteFault::NoMemory) => Fault::NoMemory,
        (Ok(path), fault) => Fault::Target { path, fault },
        (Err(_), _) => Fault::NoMemory,
    }
}
