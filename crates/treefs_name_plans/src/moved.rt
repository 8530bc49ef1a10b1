// A name that is to move.

use crate::ended::Ended;

/// A name that is to move.
#[derive(Clone, Copy)]
pub struct Moved {
    /// The old name.
    pub old: Ended,
    /// The inode block of the directory of the new one.
    pub directory: u32,
}
