//! Stores on a disk that write all that is pending in waves, as a library asks for it that keeps files.
//! May touch: memory.
#![tactic(auto)]

mod flushing;
pub mod law;

pub use flushing::FlushStore;
