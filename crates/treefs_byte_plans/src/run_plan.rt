// A run of missing leaves is written.

use treefs_edits::Times;

/// A run of leaves that are missing is written: leaves whose pointers stand side by side in one block.
#[derive(Clone, Copy)]
pub struct RunPlan {
    /// The inode's block.
    pub inode: u32,
    /// Its byte 0.
    pub first: u8,
    /// The type of nodes.
    pub node_type: u8,
    /// The last block that stands on the path to the first leaf.
    pub owner: u32,
    /// How many pointers of that path are missing, the one to the leaf included.
    pub missing: usize,
    /// The first leaf.
    pub leaf: u32,
    /// How many leaves.
    pub count: u32,
    /// The byte of the content from which on bytes are written.
    pub at: u64,
    /// How many bytes.
    pub taken: usize,
    /// The size from then on, where it rises. Else the inode is touched once the bytes are written.
    pub size: Option<u64>,
    /// The times of the inode from then on.
    pub times: Times,
    /// Whether the inode waits for the block with the pointers: the size stays, and stands in the middle of the last leaf.
    pub waits: bool,
}
