// A name that is to end.

use treefs_lookup::{Found, Slot};

/// A name that is to end.
#[derive(Clone, Copy)]
pub struct Ended {
    /// The inode block of its directory.
    pub directory: u32,
    /// Its record.
    pub slot: Slot,
    /// Its inode.
    pub inode: Found,
}
