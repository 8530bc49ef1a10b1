// What a trim keeps of an inode.

/// An inode that is to be trimmed, and what is kept of its content.
#[derive(Clone, Copy)]
pub struct Kept {
    /// The inode's block.
    pub inode: u32,
    /// How many leaves are kept.
    pub keep: u32,
    /// How many bytes are kept; `None` where nothing is left, and so no byte has to become 0.
    pub size: Option<u64>,
}
