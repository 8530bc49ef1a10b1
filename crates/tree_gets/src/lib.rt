//! Files and folders of any volume that are brought out to the system.
//!
//! Of these functions it is proved that they are safe and end.
//! May touch: memory, files, streams, clock.
#![tactic(auto)]

mod filling;
mod getting;
mod leaving;
mod naming;
mod tree_out;

pub use getting::{Getting, get};
