//! Runs checked programs on blocks, and tells which chunks of a block a run read.
//!
//! The verifier's promise holds for each run, so nothing is tested while a program runs: neither a budget nor a range.
//! May touch: nothing.
#![tactic(auto)]

mod blocks;
mod known;
pub mod law;
mod opening;
pub mod pair;
pub mod reads;
pub mod run;
pub mod slot_rows;
mod slots;
mod step;

pub use pair::Pair;
pub use reads::ReadSet;
pub use run::{constant_size, owns, owns_tracked, size};
pub use slot_rows::SlotRows;
