//! Where paths lead in a file system of trees over a store, over symbolic links too.
//! May touch: memory.
#![tactic(auto)]

mod components;
mod finding;
mod names;
mod steps;
mod way;

pub use components::{Parts, split_path};
pub use finding::find_path;
