// What an installation makes.

use edit_list::EditId;

/// A template that was installed: the number of its type, its block, and two entries, that by which the block began and that by which
/// block 0 names it.
#[derive(Clone, Copy, Debug, PartialEq, Eq)]
pub struct Installed {
    pub ty: u32,
    pub block: u32,
    pub edits: (EditId, EditId),
}
