// Times edits of a kernel that threads share, each of which is waited for until it is told durable: with 1, 2 and 4 flushers, over lanes
// whose writes take 0, 20 and 200 microseconds.

mod clients;
mod flushers;
mod lanes;
mod scene;

use clients::EDITS;
use lanes::waiting_lanes;
use scene::play;
use std::alloc::Global;
use std::io;
use std::sync::Wait;
use std::thread::Threads;
use std::time::{Clock, Instant};

/// Makes the edits, and prints how long it took.
fn time_edits<R: Threads + Wait + Clock + Print + Eprint + Sync>(
    rt: &R,
    alloc: Global,
    clock: HostRuntime,
    flushers: usize,
    micros: u64,
) -> io::Result<()> {
    let lanes = waiting_lanes(alloc, clock, micros)?;
    let start = Instant::now(rt)?;
    let done = play(rt, alloc, lanes, flushers)?;
    let time = start.elapsed(rt)?.as_nanos();
    let edits = EDITS.saturating_mul(4);
    println!(rt; "flushers {flushers} microseconds {micros} edits {edits} durable {done}")?;
    eprintln!(rt; "{flushers} {micros} {edits} {time}")
}

/// Times them over each kind of lane with each count of flushers. The lanes wait by this clock.
pub fn time_shared<R: Threads + Wait + Clock + Print + Eprint + Sync>(
    rt: &R,
    alloc: Global,
    clock: HostRuntime,
) -> io::Result<()> {
    for micros in [0, 20, 200] {
        for flushers in [1, 2, 4] {
            time_edits(rt, alloc, clock, flushers, micros)?;
        }
    }
    Ok(())
}
