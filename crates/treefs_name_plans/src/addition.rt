// Where a record goes that is made in a directory.

/// A bucket that is made, with the nodes that its path lacks.
use store_types::BLOCK_LEN;

#[derive(Clone, Copy)]
pub struct NewBucket {
    /// The last block that stands on its path.
    pub owner: u32,
    /// The leaf that it is.
    pub leaf: u32,
    /// How many blocks of its path are missing, itself included.
    pub missing: usize,
    /// The type of nodes.
    pub node_type: u8,
}

/// A bucket that is rewritten without its dead records, before a record is made behind the live ones.
#[derive(Clone, Copy)]
pub struct OldBucket {
    /// Its block.
    pub block: u32,
    /// Whether it stands in an inode block, from byte 128 on; else it is a whole block.
    pub in_inode: bool,
    /// The bytes of the block.
    pub bytes: [u8; BLOCK_LEN],
    /// The byte of the block at which the new record begins.
    pub offset: u16,
}

/// Where a new record goes.
#[derive(Clone, Copy)]
pub enum Addition {
    /// To this byte of a block: behind the records of a bucket, or into a dead record of its name.
    Behind(u32, u16),
    /// Behind the live records of a bucket, once that is rewritten.
    Rewritten(OldBucket),
    /// To the beginning of a bucket that is made.
    Made(NewBucket),
}
