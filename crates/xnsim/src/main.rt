// A simulator of the block store: it formats and checks images, runs scripts of commands on them, assembles templates, and
// verifies programs.
// May touch: memory, threads, files, streams.
#![tactic(auto)]

mod files;
mod reading;

use files::SystemFiles;
use std::alloc::Global;
use std::fs::File;
use std::io::{BufWriter, ErrorKind};
use std::process::ExitCode;
use std::thread::Threads;
use std::{env, io};
use xnsim_line::line;

/// How many bytes of memory are taken and given back at the start, before anything else.
const KEPT: usize = 31 * 1024 * 1024;

/// Takes memory and gives it back. The C library returns freed memory to the system wherever it is longer than all that was freed before,
/// and from then on keeps memory up to that length for later calls: so what a mount has read is not asked of the system a second time.
fn keep_freed_memory(alloc: Global) {
    let _ = Vec::<u8>::with_capacity(alloc, KEPT);
}

/// Does what the command line asks for, and answers the program's status. The standard streams are buffered. Threads are started by
/// the second handle alone.
fn run(rt: &HostRuntime, threads: &(impl Threads + Sync)) -> io::Result<u8> {
    let alloc = rt.alloc();
    keep_freed_memory(alloc);
    let words: Vec<String> = env::args(rt)?.skip(1).collect(alloc)?;
    let mut out = BufWriter::new(alloc, rt.stdout())?;
    let mut err = BufWriter::new(alloc, rt.stderr())?;
    let mut files = SystemFiles::new(rt);
    Ok(line(
        threads,
        alloc,
        words.as_slice(),
        &mut files,
        &mut rt.stdin(),
        &mut out,
        &mut err,
    ))
}

/// Three open folders. They have the numbers of the standard streams that are closed, so that no file which is opened later has one; such a stream fails,
/// as a folder is neither read nor written.
fn hold_streams(rt: &HostRuntime) -> io::Result<[File; 3]> {
    Ok([
        File::open(rt, "/")?,
        File::open(rt, "/")?,
        File::open(rt, "/")?,
    ])
}

/// The program's status after a fault before its line was read, which is told.
fn tell_early(rt: &HostRuntime, error: &io::Error) -> u8 {
    if error.kind() == ErrorKind::InvalidData {
        let _ = eprintln!(rt; "a word of the line is not UTF-8");
        return 2;
    }
    let _ = eprintln!(rt; "no memory");
    1
}

fn main(rt: HostRuntime) -> ExitCode {
    let Ok(_held) = hold_streams(&rt) else {
        let _ = eprintln!(rt; "cannot read /");
        return ExitCode::from(1);
    };
    match run(&rt, &rt) {
        Ok(status) => ExitCode::from(status),
        Err(error) => ExitCode::from(tell_early(&rt, &error)),
    }
}
