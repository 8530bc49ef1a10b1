// The times of an inode.

/// The times of an inode, in nanoseconds since 1970.
#[derive(Clone, Copy, PartialEq, Eq)]
pub struct Times {
    /// When its content changed.
    pub mtime: i64,
    /// When it changed itself.
    pub ctime: i64,
}
