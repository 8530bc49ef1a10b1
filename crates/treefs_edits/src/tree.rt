// Where a volume stands in its store.

use edit_list::Fs;

/// Where a volume stands in its store.
#[derive(Clone, Copy)]
pub struct Tree {
    /// Its file system.
    pub fs: Fs,
    /// The block of inode 0.
    pub top: u32,
    /// The type of nodes.
    pub node_type: u8,
    /// The type of inodes.
    pub inode_type: u8,
}
