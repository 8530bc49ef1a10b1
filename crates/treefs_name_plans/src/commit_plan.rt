// What it takes that a new inode gets its first name, or the place of another one.

use crate::naming::Naming;

/// What it takes that a new inode gets its first name, or the place of another one.
#[derive(Clone, Copy)]
pub struct CommitPlan {
    /// The number that it gets.
    pub number: u32,
    /// The inode block of its directory.
    pub directory: u32,
    /// The type of nodes.
    pub node_type: u8,
    /// The type of inodes.
    pub inode_type: u8,
    /// The last block that stands on the table's path to it.
    pub owner: u32,
    /// How many pointers of that path are missing, the one to it included.
    pub missing: usize,
    /// How its name comes to lead to it.
    pub naming: Naming,
}
