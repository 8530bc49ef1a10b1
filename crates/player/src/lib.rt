//! Plays transcripts of the simulator's command line, over files in memory, and says whether each command did what stands
//! behind it.
//!
//! A transcript reads as a session in a shell. Behind each command, which begins with `$ `, stand the lines that it prints:
//!
//! ```text
//! # A block is started, and then read.
//! $ xnsim format disk 32
//! blocks 32 templates 0
//! $ cat > script <<EOF
//! init 0 2 414243
//! read 0 1
//! EOF
//! $ xnsim run disk script
//! block 1 edit 1
//! 414243
//! $ xxd -p -s 512 -l 4 disk
//! 00000000
//! $ xnsim run none script
//! 2> cannot read none
//! status 1
//! ```
//!
//! * A line on standard error stands behind `2> `. `status N` tells a status other than 0.
//! * Empty lines, and lines that begin with `#`, are passed over. They end what is printed by the command above them.
//! * The words of a command are parted by one space. A word with a space in it, or the empty word, stands in `'`.
//! * Lines for a command stand behind it, up to the word behind its `<<`.
//!
//! | Command | Does |
//! |---|---|
//! | `xnsim WORD..` | what the simulator does with these words; `< NAME` or `<<EOF` gives standard input |
//! | `cat > NAME <<EOF` | writes the lines to a file |
//! | `printf TEXT > NAME` | writes a text without a newline of its own; `\n` is a newline, and `\x41` the byte 41 |
//! | `xxd -r - NAME <<EOF` | writes bytes into a file: each line is an offset in base 16, `: `, and pairs of digits |
//! | `xxd -p -s OFFSET -l LENGTH NAME` | prints bytes of a file, 30 on a line |
//! | `truncate -s LENGTH NAME` | cuts a file off, or lengthens it by zeros |
//! | `wc -c NAME` | prints the length of a file, and its name |
//! | `cp NAME NAME` | copies a file |
//! | `cmp NAME NAME` | prints nothing where two files hold the same |
//! | `chmod -r NAME`, `chmod -w NAME` | forbids to read a file, or to write it; `chmod -w .` forbids new files |
//! May touch: memory, threads.
#![tactic(auto)]

mod bytes;
mod compare;
mod fault;
mod memory;
mod shell;
mod step;
mod transcript;
mod words;

pub use fault::{Difference, PlayFault};
pub use transcript::play;
