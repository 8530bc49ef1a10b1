//! A library file system over a store: files and directories by name, whose names stay good in every image that a crash may
//! leave.
//! May touch: memory.
#![tactic(auto)]

mod data;
pub mod law;
mod put;
mod reclaim;
mod setup;
mod steps;
mod volume;

pub use edit_list::{EditId, Fs};
pub use ffs_lookup::{FfsFault, Repair, Repairs};
pub use volume::Volume;
