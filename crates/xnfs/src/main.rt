// Files in a disk image: made, listed, brought in and out, each line on the disk when it ends.
// May touch: memory, threads, files, streams, clock, random bytes.
#![tactic(auto)]

use std::env::{Env, FillError};
use std::fs::File;
use std::io::{BufReader, BufWriter, ErrorKind, IsTerminal, Write};
use std::os::fd::AsRawFd;
use std::process::ExitCode;
use std::thread::Threads;
use std::{env, io, str};
use xnfs_line::{Terminal, line};

/// The standard streams have the numbers 0, 1 and 2.
const STREAMS: i32 = 3;

/// A word of a command line has fewer bytes than this.
const LONGEST_WORD: usize = 131_072;

/// The status where the words can't be read.
const USAGE: u8 = 2;

/// Opens the top folder of the system in place of each standard stream that is closed, so that no file which is opened later gets its number. Who reads
/// such a stream or writes to it is answered a fault.
fn hold_streams(rt: &HostRuntime) -> io::Result<Vec<File>> {
    let mut held = Vec::new(rt.alloc());
    for _ in 0..STREAMS {
        let file = File::open(rt, "/")?;
        if file.as_raw_fd() >= STREAMS {
            break;
        }
        held.push(file)?;
    }
    Ok(held)
}

/// Which word of the command line is no text.
fn word_without_text(rt: &HostRuntime) -> io::Result<usize> {
    let mut word = vec![in rt.alloc(); 0; LONGEST_WORD]?;
    for at in 1..usize::MAX {
        match rt.arg(at, &mut word) {
            Ok(length) if str::from_utf8(&word[..length]).is_ok() => {}
            Ok(_) | Err(FillError::TooLong) => return Ok(at),
            Err(FillError::NotPresent) => break,
        }
    }
    Ok(0)
}

/// Whether lines are written at a terminal, and answers read there.
fn terminal_of(rt: &HostRuntime) -> Terminal {
    if rt.stdin().is_terminal() && rt.stdout().is_terminal() {
        Terminal::Prompted
    } else {
        Terminal::Silent
    }
}

/// Does what the command line asks for, and answers the program's status. Threads are started by the second handle alone.
fn run(rt: &HostRuntime, threads: &(impl Threads + Sync)) -> io::Result<u8> {
    let alloc = rt.alloc();
    let words: Vec<String> = match env::args(rt) {
        Ok(words) => words.skip(1).collect(alloc)?,
        Err(error) if error.kind() == ErrorKind::InvalidData => {
            let at = word_without_text(rt)?;
            eprintln!(rt; "xnfs: word {at} is no text")?;
            return Ok(USAGE);
        }
        Err(error) => return Err(error),
    };
    let mut out = BufWriter::new(alloc, rt.stdout())?;
    let mut err = BufWriter::new(alloc, rt.stderr())?;
    let input = BufReader::new(alloc, rt.stdin())?;
    let status = line(
        rt,
        (rt, terminal_of(rt)),
        threads,
        alloc,
        words.as_slice(),
        input,
        &mut out,
        &mut err,
    );
    if status == 0 {
        out.flush()?;
    }
    Ok(status)
}

/// Does what the command line asks for while the numbers of the standard streams are held.
fn run_held(rt: &HostRuntime, threads: &(impl Threads + Sync)) -> io::Result<u8> {
    let _held = hold_streams(rt)?;
    run(rt, threads)
}

fn main(rt: HostRuntime) -> ExitCode {
    match run_held(&rt, &rt) {
        Ok(status) => ExitCode::from(status),
        Err(error) => {
            let _ = eprintln!(rt; "xnfs: {error}");
            ExitCode::from(1)
        }
    }
}
