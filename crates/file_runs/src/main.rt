// Runs the library file system on disks in memory, beside a plain model, with device faults and crashes. These are run: its calls with the writes that
// they take, over a world, a kernel, and a kernel that threads share; two threads at once; its sizes, its faults, crashes after each write of a rename,
// of a replacement and of four files' lives, what is reclaimed after crashes, and random calls of two file systems beside each other, also on disks where
// their types were just installed.
// May touch: memory, threads, streams.
#![tactic(auto)]

mod crashes;
mod faults;
mod limits;
mod out;
mod pair;
mod plain;
mod random;
mod rows;
mod scan;
mod writes;

use crashes::{tell_lives, tell_moves, tell_reclaims};
use faults::tell_faults;
use ffs_lib::Fs;
use limits::{tell_directory, tell_file};
use out::Out;
use pair::Pair;
use random::{tell_random, tell_starts};
use rows::{tell_alone, tell_shared};
use std::alloc::{AllocError, Global};
use std::io;
use std::sync::Wait;
use std::thread::Threads;
use writes::tell_writes;

/// What is run.
#[derive(Clone, Copy)]
enum Part {
    Alone,
    Shared,
    File,
    Writes,
    Faults,
    Moves,
    Reclaims,
    Lives,
    Directory,
    Random,
    Starts,
}

/// All parts.
static PARTS: [Part; 11] = [
    Part::Alone,
    Part::Shared,
    Part::File,
    Part::Writes,
    Part::Faults,
    Part::Moves,
    Part::Reclaims,
    Part::Lives,
    Part::Directory,
    Part::Random,
    Part::Starts,
];

/// Runs a part.
fn run<R: Threads + Wait + Sync>(
    rt: &R,
    alloc: Global,
    part: Part,
    systems: [Fs; 2],
    out: &mut Out,
) -> Result<(), AllocError> {
    let blocks = match part {
        Part::Alone => return tell_alone(rt, alloc, systems, out),
        Part::Shared => return tell_shared(rt, alloc, systems, out),
        Part::Moves => return tell_moves(rt, alloc, systems, out),
        Part::Reclaims => return tell_reclaims(rt, alloc, systems, out),
        Part::Lives => return tell_lives(rt, alloc, systems, out),
        Part::Starts => return tell_starts(rt, alloc, systems, out),
        Part::File => 256,
        Part::Writes => 320,
        Part::Faults => 32,
        Part::Directory | Part::Random => 48,
    };
    let mut pair = Pair::format(rt, alloc, blocks, systems)?;
    match part {
        Part::File => tell_file(&mut pair, systems[0], out),
        Part::Writes => tell_writes(rt, &mut pair, systems[0], out),
        Part::Faults => tell_faults(&mut pair, systems[0], out),
        Part::Directory => tell_directory(rt, &mut pair, systems[0], out),
        _ => return tell_random(rt, alloc, pair, systems, out),
    }
    Ok(())
}

fn main(rt: HostRuntime) -> io::Result<()> {
    let (Some(first), Some(second)) = (Fs::new(0), Fs::new(1)) else {
        return Ok(());
    };
    for part in &PARTS {
        let mut out = Out::new(rt.alloc());
        run(&rt, rt.alloc(), *part, [first, second], &mut out)?;
        print!(rt; "{}", out.text)?;
    }
    Ok(())
}
