// What one more name of an inode takes.

use crate::addition::Addition;
use crate::link_change::LinkChange;

/// What one more name of an inode takes: a link more, and a record.
#[derive(Clone, Copy)]
pub struct LinkPlan {
    /// The number of the inode.
    pub number: u32,
    /// The block that has the pointer to the inode.
    pub holder: u32,
    /// What becomes of the inode.
    pub more: LinkChange,
    /// The inode block of the directory.
    pub directory: u32,
    /// Where the record goes.
    pub addition: Addition,
}
