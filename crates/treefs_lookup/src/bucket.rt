// A bucket of a directory.

ghost use Rattle.std.specs.Prelude.{◌+◌, ◌≤◌, length};

/// A bucket of a directory.
#[derive(Clone, Copy)]
pub struct Bucket<'a> {
    /// Its number.
    pub number: u32,
    /// The block that it stands in, bucket 0 in that of the inode; 0 where it is not there.
    pub block: u32,
    /// The byte of the block at which it begins.
    pub start: usize,
    /// Its bytes; none where it is not there, or may not be read.
    pub bytes: &'a [u8],
    ghost within: { start + length bytes.now ≤ 512 },
}
