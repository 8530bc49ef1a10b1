//! Two file systems beside each other on one store, each with its volume. What is known of both stays over the calls of each, over
//! drains, over what the device does, and over crashes. The store is a kernel, one that threads share, or a world.
//! May touch: memory, threads.
#![tactic(auto)]

mod disks;
mod files;
mod guarded;
mod kernels;
mod library;
mod shared_files;

pub use disks::Disk;
pub use files::{Action, Answer, Files};
pub use guarded::{Guarded, Other};
pub use kernels::fresh_kernel;
pub use shared_files::{Open, SharedFiles, share};
