//! Lines of `xnfs`: what each word does to the files of a disk, what is told of it, and the status of the program.
//!
//! What a word, a shell and a line do to a volume of trees is proved. Of the other functions it is proved that they are safe and end; what they print is tested.
//! May touch: memory, threads, files, streams, clock, random bytes.
#![tactic(auto)]

mod changing;
mod fault;
mod lines;
mod looking;
mod shell;
mod status;
mod system;
mod telling;
mod words;

pub use lines::line;
pub use system::Terminal;
