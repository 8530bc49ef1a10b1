//! What stands in the newest bytes of a library file system over a store: its files as a value, and where its inodes, its entries, and the room for more of
//! them are.
//! May touch: nothing.
#![tactic(auto)]

mod counts;
mod fault;
pub mod law;
mod library;
mod places;
mod repairs;

pub use counts::{NameCounts, find_over_named, look_up_volume};
pub use fault::FfsFault;
pub use library::is_library;
pub use places::{
    DIRECTORY, Found, Free, INODE_BLOCKS, ROOT, Room, Slot, find_directory, find_entry, find_file,
    find_free, find_inode, find_pointer, find_room, inode_block, is_empty, read_block, root_block,
};
pub use repairs::{Repair, Repairs, look_up_repairs};
