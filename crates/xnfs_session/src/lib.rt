//! A volume of the first library file system, open over a store that is flushed; and lanes for tests, which stop after so many writes.
//!
//! It is proved of each session that the rules of its volume hold, whatever its calls answer: so names are good in every image that a
//! crash may leave; and that each of its calls does what the same call of a volume does (`ffs_lib`).
//! May touch: memory.
#![tactic(auto)]

mod session;
mod stopping;

pub use ffs_format::inodes::MOST_INODES;
pub use ffs_lib::{FfsFault, Fs, Repair, Repairs};
pub use flush_store::FlushStore;
pub use session::{Entry, Facts, Kind, MOST_BYTES, Node, Owner, Session, Usage, has_volume};
pub use stopping::{Stop, TestLane};
