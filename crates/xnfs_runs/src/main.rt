// Plays transcripts of `xnfs` on files of the system, and compares what is printed with what stands in them, byte for byte. Its arguments name the transcripts.
// The program is told a time and random bytes that are always the same, so that what it prints is the same on every machine.
// Prints how many lines were as written, or each answer that was another one.
// May touch: memory, threads, files, streams, clock.
#![tactic(auto)]

mod fixed;
mod playing;
mod steps;
mod system;

use playing::play_transcripts;
use std::process::ExitCode;
use std::thread::Threads;
use std::{env, io};

/// Plays what the arguments name, and answers whether all answers were as written. Threads are started by the second handle alone.
fn play(rt: &HostRuntime, threads: &(impl Threads + Sync)) -> io::Result<bool> {
    let alloc = rt.alloc();
    let names: Vec<String> = env::args(rt)?.skip(1).collect(alloc)?;
    play_transcripts(rt, threads, alloc, &names)
}

fn main(rt: HostRuntime) -> io::Result<ExitCode> {
    let is_well = play(&rt, &rt)?;
    Ok(ExitCode::from(if is_well { 0 } else { 1 }))
}
