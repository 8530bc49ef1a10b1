// The calls of a volume as values.

pub mod bytes;
pub mod changes;
pub mod lives;
pub mod new_inodes;
