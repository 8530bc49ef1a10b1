//! Volumes of the first library file system, as the words of `xnfs` on volumes of trees look at them.
//!
//! Of these functions it is proved that they are safe and end.
//! May touch: memory.
#![tactic(auto)]

mod looks;
mod reasons;
mod volume;

pub use volume::FirstVolume;
