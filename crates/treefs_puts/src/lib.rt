//! Writes files and symbolic links of a file system of trees piece by piece, before they have a name.
//! May touch: memory.
#![tactic(auto)]

mod begun;
mod writing;

pub use writing::write_begun;
