// How a name comes to lead to an inode.

use crate::addition::Addition;
use crate::name_end::NameEnd;

/// How a name comes to lead to an inode.
#[derive(Clone, Copy)]
pub enum Naming {
    /// A record is made.
    Added(Addition),
    /// The record of the same name, which leads to another inode, gets the number of this one; for the other inode a name ends.
    Replaced(NameEnd),
}
