// The words of a metadata program, how they stand in bytes, and which lists of words are programs.
// May touch: memory.
#![tactic(auto)]

pub mod bytes;
pub mod fault;
pub mod law;
pub mod op;
pub mod opening;
mod operands;
pub mod structure;
pub mod word;

pub use crate::bytes::{WORD_LEN, decode, decode_into, encode};
pub use crate::fault::CodeFault;
pub use crate::op::Op;
pub use crate::structure::{MAX_WORDS, well_formed};
pub use crate::word::{Register, Shift, Turns, Word};
