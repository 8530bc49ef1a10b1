//! Pseudo-random numbers, the same in each run, for programs that go through many cases and compare them with another
//! implementation.
//! May touch: nothing.
#![tactic(auto)]

mod numbers;

pub use numbers::Numbers;
