// Makes pseudo-random calls of a kernel for eight file systems on a disk of 64 blocks, and compares each answer with what scans of a plain
// record say. Types are installed while it runs. The device holds writes until they are synced, and some writes and syncs fail; it
// crashes again and again, keeps some of what it held, and is mounted, and each block is then what the record says: a type that block 0
// doesn't name on the disk is gone. Then it makes calls on a disk of five groups of places, which come and go. Prints how many calls of each
// kind were made and accepted, and how many answers were compared. The same calls are made in each run. With an argument it makes so many
// calls on the second disk alone, of which some may find no memory, for `tools/outside memory`.
// May touch: memory, threads, streams.
#![tactic(auto)]

mod answers;
mod crashes;
mod disks;
mod edits;
mod flights;
mod held;
mod reached;
mod record;
mod run;
mod scans;
mod seasons;
mod shapes;
mod tally;
mod types;
mod writes;

use disk::MemLane;
use disks::fresh_kernel;
use record::BLOCKS;
use run::Run;
use seasons::make_seasons;
use std::alloc::{AllocError, Global};
use std::thread::Threads;
use std::{env, io};
use tally::{KINDS, REPORT, SEASONS_REPORT, Tally};
use xn_kernel::Kernel;

/// How many calls are made, beside the finishes before drains.
const CALLS: u32 = 500_000;

/// How many calls are made on the disk whose groups come and go.
const SEASONS_CALLS: u32 = 12_000;

/// How many of the calls are made before the first crash may come.
const BEFORE_CRASHES: u32 = 100_000;

/// Of how many calls one is followed by a crash, from then on.
const CRASHES: u16 = 256;

/// The same while a write of block 0 is open.
const ROOT_CRASHES: u16 = 64;

/// A kernel over a fresh disk.
fn fresh_disk(
    rt: &(impl Threads + Sync),
    alloc: Global,
    run: &mut Run,
) -> Result<Kernel<MemLane>, AllocError> {
    let kernel = fresh_kernel(rt, alloc, BLOCKS)?;
    run.start(alloc, &kernel)?;
    Ok(kernel)
}

/// Whether the device crashes after this call.
fn may_crash(run: &mut Run, call: u32) -> bool {
    if call < BEFORE_CRASHES {
        return false;
    }
    let of = if run.record.held(0).given.is_some() {
        ROOT_CRASHES
    } else {
        CRASHES
    };
    run.numbers.below(of) == 0
}

/// Makes the calls. A disk on which no further type has a place is formatted anew after a crash.
fn make_calls(rt: &(impl Threads + Sync), alloc: Global, run: &mut Run) -> Result<(), AllocError> {
    let mut kernel = fresh_disk(rt, alloc, run)?;
    for call in 0..CALLS {
        run.step(alloc, &mut kernel)?;
        if may_crash(run, call) {
            kernel = match run.crash(rt, alloc, kernel)? {
                Some(kernel) => kernel,
                None => return Ok(()),
            };
            if run.record.next_type().is_none() {
                kernel = fresh_disk(rt, alloc, run)?;
            }
        }
    }
    Ok(())
}

/// Prints the counts of calls.
fn print_calls(rt: &impl Print, tally: &Tally) -> io::Result<()> {
    for ((kind, made), accepted) in KINDS.iter().zip(&tally.made).zip(&tally.accepted) {
        let refused = made.saturating_sub(*accepted);
        println!(rt; "{kind} {made} accepted {accepted} refused {refused}")?;
    }
    Ok(())
}

/// Prints the counts.
fn print_tally(rt: &impl Print, tally: &Tally) -> io::Result<()> {
    print_calls(rt, tally)?;
    for &(text, met) in &REPORT {
        print!(rt; "{text}{}", tally.of(met))?;
    }
    println!(rt; " wrong, hash {:#x}", tally.hash)
}

/// Prints what was met on the disk whose groups come and go.
fn print_seasons(rt: &impl Print, tally: &Tally) -> io::Result<()> {
    for &(text, met) in &SEASONS_REPORT {
        print!(rt; "{text}{}", tally.of(met))?;
    }
    println!(rt; " wrong, hash {:#x}", tally.hash)
}

/// Makes so many calls on that disk.
fn seasons_met(
    rt: &(impl Threads + Sync),
    alloc: Global,
    calls: u32,
    may_lack: bool,
) -> Result<Tally, AllocError> {
    let mut run = Run::new(alloc, seasons::BLOCKS)?;
    run.tally.may_lack = may_lack;
    make_seasons(rt, alloc, &mut run, calls)?;
    Ok(run.tally)
}

/// How many calls an argument asks for, which are made on the disk whose groups come and go alone, and may find no memory.
fn calls_asked(rt: &HostRuntime) -> io::Result<Option<u32>> {
    match env::args(rt)?.nth(1) {
        Some(calls) => Ok(Some(calls.parse::<u32>().unwrap_or(0))),
        None => Ok(None),
    }
}

fn main(rt: HostRuntime) -> io::Result<()> {
    let alloc = rt.alloc();
    if let Some(calls) = calls_asked(&rt)? {
        return print_seasons(&rt, &seasons_met(&rt, alloc, calls, true)?);
    }
    let mut run = Run::new(alloc, BLOCKS)?;
    make_calls(&rt, alloc, &mut run)?;
    print_tally(&rt, &run.tally)?;
    print_seasons(&rt, &seasons_met(&rt, alloc, SEASONS_CALLS, false)?)
}
