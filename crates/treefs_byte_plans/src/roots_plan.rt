// Pointers in an inode are dropped.

use arrayvec::ArrayVec;

/// A pointer of an inode that leads to a block.
#[derive(Clone, Copy, Default)]
pub struct Pointer {
    /// The byte of the inode's block at which it begins.
    pub offset: u16,
    /// The block to which it leads.
    pub block: u32,
}

/// Pointers in an inode are dropped, by one edit.
#[derive(Drop)]
pub struct RootsPlan {
    /// The inode's block.
    pub inode: u32,
    /// Those to trees.
    pub trees: ArrayVec<Pointer, 4>,
    /// Those to leaves, rising.
    pub leaves: ArrayVec<Pointer, 16>,
}
