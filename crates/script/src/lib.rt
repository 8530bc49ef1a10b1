//! Scripts for a block store: each event is a line of words, a script is read whole before any of it runs, and each reply is
//! printed as a line.
//! May touch: memory, streams.
#![tactic(auto)]

mod bytes;
mod change;
mod edit;
mod fault;
mod hex;
mod line;
mod number;
mod print;
mod script;
mod told;
mod words;

pub use bytes::print_bytes;
pub use edit::parse_edit;
pub use fault::ScriptFault;
pub use hex::parse_block;
pub use line::ScriptLine;
pub use number::{parse_number, parse_numbers, parse_u32};
pub use print::print_reply;
pub use script::parse;
