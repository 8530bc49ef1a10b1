// An inode waits for other blocks.

use arrayvec::ArrayVec;

/// An inode waits for what is pending in some blocks, by an edit for each that changes nothing.
#[derive(Drop)]
pub struct WaitsPlan {
    /// The inode's block.
    pub inode: u32,
    /// Its byte 0.
    pub first: u8,
    /// The blocks, in the order of the edits.
    pub others: ArrayVec<u32, 5>,
}
