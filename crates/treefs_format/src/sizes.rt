// Which bytes and leaves a size keeps.

ghost use Rattle.std.specs.Prelude.{◌≡◌, ◌≤◌, ◌<◌};
ghost use Rattle.treefs_format.specs.Leaves.{greatest_size, leaves_kept};

use crate::inodes::{CONTENT, CONTENT_LEN};
use store_types::BLOCK_LEN;

/// How many bytes a leaf has.
pub const LEAF_LEN: u64 = BLOCK_LEN as u64;

/// The greatest size of a file, in bytes.
pub const GREATEST_SIZE: u64 = 134_251_159_552;

/// Where a byte of a content stands.
#[derive(Clone, Copy, PartialEq, Eq)]
pub enum Place {
    /// At this byte of the inode block.
    InInode(u16),
    /// In this leaf, at this of its bytes.
    InLeaf(u32, u16),
}

impl Place {
    ghost use Rattle.treefs_format.specs.Places.{place_of};

    /// Where this byte of the content stands.
    pub fn of_byte(byte: u64) -> Place
        requires { byte < greatest_size }
        ensures { result ≡ place_of byte }
    {
        if byte < CONTENT_LEN as u64 {
            Place::InInode((CONTENT as u64 + byte) as u16)
        } else {
            Place::InLeaf((byte / LEAF_LEN) as u32, (byte % LEAF_LEN) as u16)
        }
    }
}

/// How many leaves a size keeps: all below this number. A size of at most 384 keeps none.
pub fn leaves_kept(size: u64) -> u32
    requires { size ≤ greatest_size }
    ensures { result ≡ leaves_kept size }
{
    if size <= CONTENT_LEN as u64 {
        0
    } else {
        size.div_ceil(LEAF_LEN) as u32
    }
}
