// What a caller says of a new inode.

/// What a caller says of a new inode.
#[derive(Clone, Copy, Debug)]
pub struct Attributes {
    /// Its 12 permission bits.
    pub permissions: u16,
    /// Its user.
    pub uid: u32,
    /// Its group.
    pub gid: u32,
    /// What tells it from an earlier inode of its number.
    pub generation: u32,
}
