//! What stands in the newest bytes of a file system of trees over a store: its blocks, inodes, names and bytes, and where more of them may go.
//! May touch: nothing.
#![tactic(auto)]

mod blocks;
mod bucket;
mod buckets;
mod bytes;
mod inodes;
mod leaves;
mod names;
mod numbers;
mod paths;
mod places;
mod sought;
mod trimmed;

pub use blocks::{pointer_at, read_block};
pub use bucket::Bucket;
pub use buckets::read_bucket;
pub use bytes::{part_left, read, read_bytes, read_link};
pub use inodes::{
    Found, find_block, find_directory, find_file, find_inode, find_link, inode_block,
};
pub use leaves::{Leaf, next_leaf};
pub use names::{Slot, find_entry, find_name, read_key};
pub use numbers::find_number;
pub use paths::{
    Reach, find_holder, find_leaf, leaf_block, leaves_beside, path_blocks, pointer_offset, walk,
};
pub use places::{NameLook, NamePlace, look_for_name};
pub use sought::{Sought, next_bucket};
pub use trimmed::{is_blank_past, is_trimmed, stands_past};
