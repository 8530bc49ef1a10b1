// Times what its words name, one after another: runs of metadata programs, calls of a kernel, checks of an image, edits that threads share.
// What was done goes to standard output, and how long it took, in nanoseconds, to standard error.
// May touch: memory, threads, streams, clock.
#![tactic(auto)]

mod calls;
mod checks;
mod programs;
mod sharing;

use anyhow::{Result, bail};
use calls::{time_calls, time_large_calls};
use checks::time_checks;
use programs::time_programs;
use sharing::time_shared;
use std::alloc::Global;
use std::env;
use std::sync::Wait;
use std::thread::Threads;
use std::time::Clock;

/// Times what a word names. Threads are started by the second handle alone.
fn time<R: Threads + Wait + Clock + Print + Eprint + Sync>(
    rt: &HostRuntime,
    threads: &R,
    alloc: Global,
    word: &str,
) -> Result<()> {
    match word {
        "programs" => time_programs(threads, alloc, rt.stdin()),
        "kernel" => Ok(time_calls(threads, alloc)?),
        "large" => Ok(time_large_calls(threads, alloc)?),
        "check" => Ok(time_checks(threads, alloc)?),
        "shared" => Ok(time_shared(threads, alloc, *rt)?),
        _ => bail!("the words are programs, kernel, large, check and shared"),
    }
}

/// Without a word the calls of a kernel are timed.
fn main(rt: HostRuntime) -> Result<()> {
    let alloc = rt.alloc();
    let words: Vec<String> = env::args(&rt)?.skip(1).collect(alloc)?;
    if words.is_empty() {
        return time(&rt, &rt, alloc, "kernel");
    }
    for word in words.iter() {
        time(&rt, &rt, alloc, word.as_str())?;
    }
    Ok(())
}
