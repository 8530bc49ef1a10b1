// What is told on standard error, and of lines that can't be read.

use crate::status::{DONE, FAILED, USAGE};
use std::alloc::{AllocError, Global};
use std::fmt::Display;
use std::io::Write;
use tree_lines::shown;
use xnfs_words::{Unknown, commands_told};

/// Tells what is behind the names of the program and of the disk. What was printed stands before it.
pub fn tell(out: &mut impl Write, err: &mut impl Write, image: &str, told: &impl Display) -> u8 {
    let _ = out.flush();
    let _ = writeln!(err, "xnfs: {image}: {told}");
    let _ = err.flush();
    FAILED
}

/// What is told of a command that there isn't: the one that may be meant, or all that there are.
pub fn told_unknown(alloc: Global, unknown: Unknown, is_shell: bool) -> Result<String, AllocError> {
    let word = shown(alloc, unknown.word.as_bytes())?;
    match unknown.meant {
        Some(meant) => format!(in alloc; "no command '{word}': is '{meant}' meant?"),
        None => {
            let commands = commands_told(alloc, is_shell)?;
            format!(in alloc; "no command '{word}': the commands are {commands}")
        }
    }
}

/// Tells that a line has no such command.
pub fn tell_unknown(alloc: Global, err: &mut impl Write, unknown: Unknown) -> u8 {
    let image = unknown.image;
    if let Ok(told) = told_unknown(alloc, unknown, false) {
        let _ = writeln!(err, "xnfs: {image}: {told}");
        let _ = err.flush();
    }
    USAGE
}

/// Prints what is told of a line that can't be read, or the help that it asks for.
pub fn tell_usage(out: &mut impl Write, err: &mut impl Write, error: &clap::Error) -> u8 {
    if error.use_stderr() {
        let _ = write!(err, "{error}");
        let _ = err.flush();
        USAGE
    } else {
        match write!(out, "{error}") {
            Ok(()) => DONE,
            Err(_) => FAILED,
        }
    }
}
