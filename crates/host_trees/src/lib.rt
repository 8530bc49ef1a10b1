//! The files of the system as a tree: what stands at a path with its attributes, bytes that are read in pieces, files that are replaced as a whole, folders and
//! links, behind a trait, so that a test can stand in for the system; and what is told of many that are under way.
//!
//! It is proved which name stands at the end of a path, and whether two files are one; of the other functions that they are safe and end. That the system's own
//! calls are what `real` takes them for is to be read, and not proved.
//! May touch: memory, files, clock.
#![tactic(auto)]

mod attributes;
mod host;
mod linking;
mod naming;
mod progress;
mod real;
mod sink;
mod writing;

pub use attributes::{Attributes, Kind, Settings};
pub use host::{Host, Names, PIECE};
pub use naming::{joined, own_name};
pub use progress::Progress;
pub use real::RealHost;
pub use sink::{Filler, PlainSink, Sink};
