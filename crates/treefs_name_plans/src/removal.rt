// What the end of a directory's name takes.

use crate::name_end::NameEnd;
use arrayvec::ArrayVec;

/// The end of an empty directory's name.
#[derive(Drop)]
pub struct RemovalPlan {
    /// The record and the inode.
    pub end: NameEnd,
    /// Byte 0 of the record's block.
    pub first: u8,
    /// The blocks of the directory's buckets in which something is pending, in the order of the buckets.
    pub pending: ArrayVec<u32, 61>,
}
