// The numbers of a disk and of its store.

/// How many bytes a block has.
pub const BLOCK_LEN: usize = 512;

/// The least number of blocks of a disk.
pub const MIN_BLOCKS: u32 = 32;

/// The greatest number of blocks of a disk.
pub const MAX_BLOCKS: u32 = 1_048_576;

/// The greatest number of blocks of a disk that is formatted in memory, or run as a world.
pub const MAX_FORMAT_BLOCKS: u32 = 32_768;

/// The type of data: blocks of it own nothing, and may use all their bytes.
pub const DATA_TYPE: u32 = 2;

/// How many entries may be pending in one block.
pub const MAX_PENDING_IN_BLOCK: usize = 64;

/// How many entries may be pending in one file system.
pub const MAX_PENDING: u32 = 4_096;
