// Why a call of a volume did not do what it was asked.

ghost use Rattle.ffs_lookup.specs.declared.fault.FfsFault.TheVariants.{Kernel};
ghost use Rattle.store_types.specs.declared.refusal.Refusal.TheVariants.{NoMemory};
ghost use Rattle.std.specs.Prelude.{◌≡◌};
ghost use Rattle.ffs_lookup.specs.Faults.{fault_number};

use std::alloc::AllocError;
use store_types::Refusal;
use thiserror::Error;

/// Why a call of a volume was refused. After any other than `Kernel` the store is as it was, but for `Volume::make`.
#[derive(Clone, Copy, Debug, PartialEq, Eq, Error)]
pub enum FfsFault {
    /// No inode in use has this number, or the directory has no such name, or there is no volume.
    #[error("NoEntry")]
    NoEntry,
    /// The directory has the name already, or there is a volume already.
    #[error("Exists")]
    Exists,
    /// The inode is no directory.
    #[error("NotDir")]
    NotDir,
    /// The inode is a directory.
    #[error("IsDir")]
    IsDir,
    /// The directory has entries.
    #[error("DirNotEmpty")]
    DirNotEmpty,
    /// These bytes are no name.
    #[error("BadName")]
    BadName,
    /// More than a file, a directory or a count of links may have.
    #[error("TooLarge")]
    TooLarge,
    /// No inode is free.
    #[error("NoInode")]
    NoInode,
    /// The store refused a call, or there was no memory. What was done before stands.
    #[error("Kernel {0}")]
    Kernel(Refusal),
    /// More entries name this inode than it has links, and no lower one; or, of `make`, a root block points to blocks of inodes but not to
    /// the first one, where the top directory's inode 1 stands.
    #[error("Unsound {0}")]
    Unsound(u16),
    /// Something of the file system is pending.
    #[error("Pending")]
    Pending,
}

impl FfsFault {
    /// Its number, 1 to 11.
    pub fn number(&self) -> u8
        ensures { result ≡ fault_number self.now }
    {
        match self {
            FfsFault::NoEntry => 1,
            FfsFault::Exists => 2,
            FfsFault::NotDir => 3,
            FfsFault::IsDir => 4,
            FfsFault::DirNotEmpty => 5,
            FfsFault::BadName => 6,
            FfsFault::TooLarge => 7,
            FfsFault::NoInode => 8,
            FfsFault::Kernel(_) => 9,
            FfsFault::Unsound(_) => 10,
            FfsFault::Pending => 11,
        }
    }
}

impl From<Refusal> for FfsFault {
    ghost from_gives = { λ refusal fault. fault ≡ Kernel refusal };

    fn from(refusal: Refusal) -> FfsFault {
        FfsFault::Kernel(refusal)
    }
}

impl From<AllocError> for FfsFault {
    ghost from_gives = { λ _ fault. fault ≡ Kernel NoMemory };

    fn from(_: AllocError) -> FfsFault {
        FfsFault::Kernel(Refusal::NoMemory)
    }
}
