// Why a volume of the first library file system can't be opened or looked at.

use tree_lines::{Reason, refusal_reason_of};
use xnfs_session::FfsFault;

/// What the fault of a look is at a path. A name that no name can be is one that is not there.
pub fn reason_of(fault: FfsFault) -> Reason {
    match fault {
        FfsFault::NoEntry | FfsFault::BadName => Reason::Missing,
        FfsFault::Exists => Reason::There,
        FfsFault::NotDir => Reason::NoFolder,
        FfsFault::IsDir => Reason::Folder,
        FfsFault::DirNotEmpty => Reason::NotEmpty,
        FfsFault::TooLarge => Reason::FileTooLarge,
        FfsFault::NoInode => Reason::NoNumber,
        FfsFault::Unsound(inode) => Reason::Unsound(inode),
        FfsFault::Pending => Reason::Pending,
        FfsFault::Kernel(refusal) => refusal_reason_of(refusal, 0),
    }
}

/// What a look answers, with its fault as a reason.
pub fn seen<A: Drop>(answer: Result<A, FfsFault>) -> Result<A, Reason> {
    match answer {
        Ok(answer) => Ok(answer),
        Err(fault) => Err(reason_of(fault)),
    }
}
