//! How a file of the system is replaced, and how one is opened with its lock. There is one way to write a file: a regular file, or one that is not there
//! yet, is replaced whole. Its bytes are first written and synced beside it, and then the new file takes its name. So a stop at any moment, or a fault,
//! leaves the file as it was or as it is to be, and a file that anybody has locked is left alone.
//!
//! What is done and in which order is proved of the functions in `taking` and `replacing`, over the trait `System`. That the system's own calls are what
//! `real` takes them for is to be read, and not proved.
//! May touch: memory, files.
#![tactic(auto)]

mod fault;
mod locking;
mod naming;
mod real;
mod replacing;
mod source;
mod system;
mod taking;
mod writing;

pub use fault::WriteFault;
pub use locking::{Access, OpenFault, is_same, lead_to_one_file, open_locked};
pub use real::write_file;
pub use source::Source;
pub use system::{Found, System};
pub use taking::Links;
pub use writing::write_by;
