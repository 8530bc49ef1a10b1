//! Command lines of `xnfs`, and the lines of its shell: what they ask for, and what is told of those that can't be read.
//! May touch: memory.
#![tactic(auto)]

mod forms;
mod preparing;
mod reader;
mod request;
mod sizes;
mod splitting;
mod unknown;
mod word;

pub use preparing::prepared;
pub use request::{Request, read, read_shell};
pub use sizes::{blocks_of, size_of};
pub use splitting::split;
pub use unknown::{Unknown, commands_told, unknown_command, unknown_shell_command};
pub use word::{FoundKind, ListForm, Word};
