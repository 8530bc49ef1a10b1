// What a name's move takes.

use crate::link_change::LinkChange;
use crate::naming::Naming;
use treefs_edits::Times;

/// What a name's move takes.
#[derive(Clone, Copy)]
pub struct RenamePlan {
    /// The number of the inode.
    pub number: u32,
    /// Its block.
    pub inode: u32,
    /// Whether it is a directory.
    pub is_directory: bool,
    /// The block of the old name's record.
    pub block: u32,
    /// The byte at which that begins once a bucket is rewritten.
    pub offset: u16,
    /// How the new name comes to lead to the inode.
    pub naming: Naming,
    /// How the one name is taken for the other.
    pub moving: Moving,
}

/// How an old name is taken for a new one.
#[derive(Clone, Copy)]
pub enum Moving {
    /// By one edit, since both records stand in one block. These are the inode's times then, which no edit writes.
    Together(Times),
    /// The inode has a link more in between.
    Apart(LinksBetween),
}

/// An inode gets a link more, and one fewer.
#[derive(Clone, Copy)]
pub struct LinksBetween {
    /// The block behind which it gets one more.
    pub behind: u32,
    /// What becomes of it first.
    pub more: LinkChange,
    /// What becomes of it then.
    pub less: LinkChange,
}
