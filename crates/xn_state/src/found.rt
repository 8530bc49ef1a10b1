// What a mount finds in an image.

use edit_list::Fs;

/// A block that is reached from block 0, with its type. `owner` is the block that names it, and `fs` the file system
/// whose root slot reaches it. Block 0 has no owner, and it and the templates' blocks belong to nobody.
#[derive(Clone, Copy, Debug, PartialEq, Eq)]
pub struct Found {
    pub block: u32,
    pub ty: u32,
    pub owner: Option<u32>,
    pub fs: Option<Fs>,
}
