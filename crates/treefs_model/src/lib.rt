//! What a file system of trees keeps: its files as a value, what each call makes of them, and what its edits keep in every cut of the
//! lives of its store.
//! May touch: nothing.
#![tactic(auto)]

pub mod fault;
pub mod law;

pub use fault::Fault;
