// Inodes are freed whose pointers stand in one block.

use arrayvec::ArrayVec;
use store_types::BLOCK_LEN;

/// An inode that is to be freed.
#[derive(Clone, Copy, Default)]
pub struct Freed {
    /// Its number.
    pub number: u32,
    /// The byte of the block at which the pointer to it begins.
    pub offset: u16,
    /// Its block.
    pub block: u32,
}

/// Inodes are freed whose pointers stand in one block, by one edit.
#[derive(Drop)]
pub struct ReapPlan {
    /// The block with the pointers.
    pub holder: u32,
    /// The inodes, rising.
    pub freed: ArrayVec<Freed, 127>,
    /// The bytes of the block from then on.
    pub bytes: [u8; BLOCK_LEN],
}
