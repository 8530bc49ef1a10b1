//! A number for each of 32 file systems, in atomic words that one publisher raises and many readers read with no lock.
//! May touch: memory.
#![tactic(auto)]

mod floor;
mod rule;

pub use floor::{Floor, Naming, Publisher, Reader};

#[cfg(test)]
mod tests;
