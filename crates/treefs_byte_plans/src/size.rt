// The size of a file or a symbolic link is set.

use crate::kept::Kept;
use treefs_edits::Times;

/// The size of a file or a symbolic link is set, by one edit.
#[derive(Clone, Copy)]
pub struct SizePlan {
    /// The inode's block.
    pub block: u32,
    /// The size from then on, where it changes.
    pub size: Option<u64>,
    /// The times of the inode from then on.
    pub times: Times,
    /// The byte of the block from which on all are 0 from then on, where the size falls and bytes are there.
    pub blank_from: Option<u16>,
    /// What is kept then, where the size falls: all else is trimmed.
    pub trimmed_then: Option<Kept>,
}
