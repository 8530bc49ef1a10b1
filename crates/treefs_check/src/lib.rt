//! Tells of a file system of trees over a store what no crash leaves, and what a mount would mend.
//! May touch: memory.
#![tactic(auto)]

mod checking;
mod finding;
mod inodes;
mod names;

pub use checking::check;
pub use finding::Finding;
