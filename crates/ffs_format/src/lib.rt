//! The library file system's blocks: inodes, entries of directories, pointers and names, and the templates by which the kernel
//! knows them.
//! May touch: memory.
#![tactic(auto)]

pub mod entries;
pub mod inodes;
pub mod law;
pub mod library;
pub mod names;
pub mod pointers;

pub use entries::{ENTRIES, entry_bytes, entry_inode, entry_name};
pub use inodes::{INODES, Inode, home};
pub use library::{is_library_template, templates};
pub use names::is_name;
pub use pointers::{pointer, pointer_bytes};
