// Why something can't be done at a path.

ghost use Rattle.std.specs.Prelude.{◌≡◌};
ghost use Rattle.tree_lines.specs.declared.reason.Reason.TheVariants.{NoMemory};
ghost use Rattle.tree_lines.specs.Reasons.{naming_reason_of, path_reason_of, reason_of, refusal_reason_of};

use std::alloc::{AllocError, AllocFailed};
use store_types::Refusal;
use thiserror::Error;
use treefs_model::Fault as TreeFault;

/// Why something can't be done at a path. Its text reads well behind the path.
#[derive(Clone, Copy, Debug, PartialEq, Eq, Error)]
pub enum Reason {
    #[error("no such file or folder")]
    Missing,
    #[error("is there already")]
    There,
    #[error("is no folder")]
    NoFolder,
    #[error("is a folder")]
    Folder,
    #[error("the folder is not empty")]
    NotEmpty,
    #[error("no name: a name has 1 to 255 bytes, without a slash or a zero, and is not . or ..")]
    BadName,
    #[error("is no symbolic link")]
    NoLink,
    #[error("leads through more than 40 symbolic links")]
    Loop,
    #[error("leads through a symbolic link whose target has more than 4096 bytes")]
    LongTarget,
    #[error("a folder can't stand below itself")]
    Cycle,
    #[error("too large: a file has at most 134251159552 bytes")]
    FileTooLarge,
    #[error("the folder has no place for this name")]
    NoPlace,
    #[error("no number is left for a file: the volume has as many as it can have")]
    NoNumber,
    #[error("no space: {free} blocks free")]
    NoSpace { free: u32 },
    #[error("more is to be written at once than the disk takes")]
    Full,
    #[error("the store refused: {0}")]
    Refused(Refusal),
    #[error("no memory")]
    NoMemory,
    #[error("inode {0} has more names than links")]
    Unsound(u16),
    #[error("something is pending")]
    Pending,
    #[error("is a folder with two names, and is met the second time")]
    TwoNames,
    #[error("is the top folder")]
    Top,
    #[error("has no name of its own")]
    NoOwnName,
    #[error("is the same file")]
    Same,
    #[error("another path of the line was moved to this name")]
    Moved,
    #[error("{0} files or folders have no name: a repair would free them")]
    Unnamed(u64),
    #[error("is no text")]
    NotText,
    #[error("is neither a file nor a folder nor a symbolic link")]
    Special,
    #[error("standard input has the lines of the shell")]
    Lines,
    #[error("only a file has a place on standard output")]
    OnlyFiles,
    #[error("the path is empty")]
    Empty,
}

impl From<AllocError> for Reason {
    ghost from_gives = { λ _ reason. reason ≡ NoMemory };

    fn from(_error: AllocError) -> Reason {
        Reason::NoMemory
    }
}

impl<T: Drop> From<AllocFailed<T>> for Reason {
    ghost from_gives = { λ _ reason. reason ≡ NoMemory };

    fn from(_error: AllocFailed<T>) -> Reason {
        Reason::NoMemory
    }
}

/// What a refusal of the store is at a path; so many blocks are free.
pub fn refusal_reason_of(refusal: Refusal, free: u32) -> Reason
    ensures { result ≡ refusal_reason_of refusal free }
{
    match refusal {
        Refusal::NoMemory => Reason::NoMemory,
        Refusal::NoSpace => Reason::NoSpace { free },
        _ => Reason::Refused(refusal),
    }
}

/// What the fault of a call on bytes or attributes of a volume of trees is at a path; so many blocks are free.
pub fn reason_of(fault: TreeFault, free: u32) -> Reason
    ensures { result ≡ reason_of fault free }
{
    match fault {
        TreeFault::NoEntry => Reason::Missing,
        TreeFault::Exists => Reason::There,
        TreeFault::NotDir => Reason::NoFolder,
        TreeFault::IsDir => Reason::Folder,
        TreeFault::NotEmpty => Reason::NotEmpty,
        TreeFault::BadName => Reason::BadName,
        TreeFault::NotLink => Reason::NoLink,
        TreeFault::TooLarge => Reason::FileTooLarge,
        TreeFault::NoInode => Reason::NoNumber,
        TreeFault::NoSpace => Reason::NoSpace { free },
        TreeFault::Cycle => Reason::Cycle,
        TreeFault::Full => Reason::Full,
        TreeFault::Kernel(refusal) => refusal_reason_of(refusal, free),
    }
}

/// What the fault of a call that makes a name is at a path: what is too large is the folder.
pub fn naming_reason_of(fault: TreeFault, free: u32) -> Reason
    ensures { result ≡ naming_reason_of fault free }
{
    match fault {
        TreeFault::TooLarge => Reason::NoPlace,
        _ => reason_of(fault, free),
    }
}

/// What the fault of a path is: what goes round are symbolic links, and what is too large is the target of one.
pub fn path_reason_of(fault: TreeFault) -> Reason
    ensures { result ≡ path_reason_of fault }
{
    match fault {
        TreeFault::Cycle => Reason::Loop,
        TreeFault::TooLarge => Reason::LongTarget,
        _ => reason_of(fault, 0),
    }
}
