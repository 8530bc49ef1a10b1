//! The simulator's command line: its words, as they are read, and what it does. It formats and checks images, runs scripts of commands
//! on them, assembles templates, and verifies programs; and tells faults. Files and standard streams are the caller's.
//! May touch: memory, threads, files, streams.
#![tactic(auto)]

ghost use Rattle.std.specs.Prelude.{◌≡◌, ◌≤◌, map, string_bytes};
ghost use Rattle.xnsim_line.specs.Done.{IsLineDone};
ghost use Rattle.xnsim_line.specs.Lines.{IsNoLine};

mod assembling;
mod checking;
mod commands;
mod fault;
mod files;
mod formatting;
mod invocation;
mod program;
mod program_fault;
mod replay;
mod stopping;
mod telling;

use commands::run;
pub use fault::Fault;
pub use files::Files;
pub use invocation::{Invocation, LineFault};
pub use program_fault::ProgramFault;
use std::alloc::Global;
use std::io::{Read, Write};
use std::thread::Threads;
use telling::{end, flush_status};

/// Does what the words behind the program's name ask for, and answers the program's status: 0 where all was done, 2 where the
/// words are no line of the program, and 1 after any other fault, also one of `out` or `err`. All that is printed on `out` is
/// flushed before anything is printed on `err`, and at the end.
pub fn line<F: Files, R: Read, W: Write, E: Write>(
    rt: &(impl Threads + Sync),
    alloc: Global,
    words: &[String],
    files: &mut F,
    input: &mut R,
    out: &mut W,
    err: &mut E,
) -> u8
    ensures done { result ≡ 0 → IsLineDone (R.remaining input.old) (F.held files.old) (F.held files.new) (map string_bytes words.now) (W.contents out.old)
        (W.contents out.new) }
    ensures usage { result ≡ 2 → IsNoLine (map string_bytes words.now) }
    ensures status { result ≤ 2 }
{
    match run(rt, alloc, words, files, input, out) {
        Ok(()) => flush_status(out),
        Err(fault) => end(&fault, out, err),
    }
}
