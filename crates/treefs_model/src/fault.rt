// Why a call of a file system of trees is refused.

use store_types::Refusal;

/// Why a call is refused.
#[derive(Clone, Copy, Debug, PartialEq, Eq)]
pub enum Fault {
    /// No such inode, or no such name; or the directory has no link any more.
    NoEntry,
    /// The name is there.
    Exists,
    /// Not a directory.
    NotDir,
    /// A directory.
    IsDir,
    /// A directory with names in it.
    NotEmpty,
    /// Not 1 to 255 bytes, or a byte 0 or a slash, or one dot or two.
    BadName,
    /// Not a symbolic link.
    NotLink,
    /// Past the greatest size; or all places of a name are taken; or 2^32 - 1 links.
    TooLarge,
    /// No free inode number.
    NoInode,
    /// No free block.
    NoSpace,
    /// A directory would stand below itself.
    Cycle,
    /// Something is pending that has to be written first: write, and call again.
    Full,
    /// The kernel refused.
    Kernel(Refusal),
}
