// Pieces of writes: bytes that stand together, in the inode or in a leaf.

use crate::run_plan::RunPlan;
use treefs_edits::Times;

/// Bytes of a content that stand in the inode are written, by one edit.
#[derive(Clone, Copy)]
pub struct ContentPlan<'a> {
    /// The inode's block.
    pub block: u32,
    /// The byte of the block from which on they stand.
    pub offset: u16,
    /// The bytes.
    pub bytes: &'a [u8],
    /// The size from then on, where it rises.
    pub size: Option<u64>,
    /// The times of the inode from then on.
    pub times: Times,
}

/// Bytes of a leaf that is there are written; and where the size rises, that and the times of the inode, behind the leaf.
#[derive(Clone, Copy)]
pub struct LeafPlan<'a> {
    /// The leaf's block.
    pub leaf: u32,
    /// The byte of the block from which on they stand.
    pub offset: u16,
    /// The bytes.
    pub bytes: &'a [u8],
    /// The inode's block.
    pub inode: u32,
    /// The size from then on, where it rises. Else the inode is touched once the bytes are written.
    pub size: Option<u64>,
    /// The times of the inode from then on.
    pub times: Times,
}

/// What the next piece of a write takes.
#[derive(Clone, Copy)]
pub enum WriteStep<'a> {
    /// There are no bytes.
    Nothing,
    /// Bytes in the inode.
    Content(ContentPlan<'a>),
    /// Bytes in a leaf that is there.
    Leaf(LeafPlan<'a>),
    /// A run of leaves that are missing.
    Run(RunPlan),
}
