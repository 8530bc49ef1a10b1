//! Files and folders of the system that are brought into a volume of trees.
//!
//! It is proved what the word `put` does to a volume, source by source: which calls bring in a file, a symbolic link, a folder with all below it and what
//! standard input has, in which order, at which place and with which bytes; and which faults end the line. What the system tells and gives is in no contract.
//! May touch: memory, files, streams, clock.
#![tactic(auto)]

mod arriving;
mod linking;
mod pieces;
mod putting;
mod sparse;
mod tree_in;

pub use putting::{Putting, put};
