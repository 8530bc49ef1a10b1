// Pointers of a node are dropped.

use arrayvec::ArrayVec;

/// All pointers of a node from a place on are dropped, behind all of the inode.
#[derive(Drop)]
pub struct DropPlan {
    /// The node's block.
    pub block: u32,
    /// The place of the first of them.
    pub place: u8,
    /// The blocks to which they lead.
    pub blocks: ArrayVec<u32, 127>,
    /// The inode's block.
    pub inode: u32,
}
