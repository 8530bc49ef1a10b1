// The types of the blocks of a volume.

/// The types of the blocks of a volume, as its disk numbers them.
#[derive(Clone, Copy, Debug)]
pub struct BlockTypes {
    /// That of nodes.
    pub node: u8,
    /// That of inodes.
    pub inode: u8,
}
