//! Disks in files that have a volume of trees: made with an empty one, found and opened.
//!
//! Of these functions it is proved that they are safe and end.
//! May touch: memory, threads, files.
#![tactic(auto)]

mod fault;
mod finding;
mod formatting;
mod opening;

pub use fault::DiskFault;
pub use finding::{VolumeKind, find_volume};
pub use formatting::format;
pub use opening::{open, open_for_tests};
