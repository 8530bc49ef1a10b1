// Programs as text: a line for each word.
// May touch: memory.
#![tactic(auto)]

mod assembler;
mod fault;
pub mod law;
mod line;
mod name;
mod number;
mod operands;
mod printer;

pub use crate::assembler::assemble;
pub use crate::fault::{AsmFault, AsmKind};
pub use crate::printer::print;
