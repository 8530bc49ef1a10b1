// Lanes of which each read, each write and each sync fails in turn, under mounts, drains and flushes, and under threads that share a kernel. Each
// run goes on behind the fault, and has to end with what a run without one ends with.

use crate::failing::alone::{How, Scene, end_alike};
use crate::failing::at_once::{Writer, run_alone, run_at_once};
use crate::failing::lanes::Failure;
use crate::failing::tally::tally_of;
use std::alloc::{AllocError, Global};
use std::io;
use std::sync::Wait;
use std::thread::Threads;
use templates::format_image;

mod alone;
mod at_once;
mod calls;
mod lanes;
mod tally;

/// How many of each lane's reads, writes and syncs fail in turn under threads, which may ask a lane for fewer.
const TURNS: u64 = 3;

/// A fresh disk of 32 blocks whose free blocks hold no zeros, so that each first write of a block changes it.
fn used_image(alloc: Global) -> io::Result<Vec<u8>> {
    let Ok(mut image) = format_image(alloc, 32, &[]) else {
        return Err(AllocError.into());
    };
    for (at, byte) in image.iter_mut().enumerate() {
        if at >= 512 {
            *byte = 0x5a;
        }
    }
    Ok(image)
}

/// Lets lanes fail where what is pending is written in one way, and prints what that comes to.
fn print_turns<R: Threads + Print + Sync>(
    rt: &R,
    alloc: Global,
    scene: Scene,
    word: &str,
) -> io::Result<()> {
    let Some(tally) = tally_of(rt, alloc, scene) else {
        return println!(rt; "{word}: a run without a fault went wrong");
    };
    let (reads, writes, syncs) = (tally.reads, tally.writes, tally.syncs);
    println!(rt; "{word}: failing reads {reads}, writes {writes}, syncs {syncs}")?;
    let (mounts, stops, tickets) = (tally.mounts, tally.stops, tally.tickets);
    println!(rt; "{word}: refused mounts {mounts}, stops {stops}, tickets {tickets}")?;
    println!(rt; "{word}: wrong {}", tally.wrong)
}

/// Lets the lanes of blocks 0 to 4 fail under threads, one at one thing in each run, and prints what that comes to. The mount reads and syncs
/// each lane before.
fn print_flushes<R: Threads + Wait + Print + Sync>(
    rt: &R,
    alloc: Global,
    image: &[u8],
    writer: Writer,
    word: &str,
) -> io::Result<()> {
    let Some(right) = run_alone(rt, alloc, image) else {
        return println!(rt; "{word}: a run without a fault went wrong");
    };
    let (mut runs, mut first, mut wrong) = (0u32, 0u32, 0u32);
    for block in 0..5 {
        for turn in 1..TURNS + 1 {
            for failure in [
                Failure::Read(turn.saturating_add(1)),
                Failure::Write(turn, false),
                Failure::Write(turn, true),
                Failure::Sync(turn.saturating_add(1)),
            ] {
                runs = runs.saturating_add(1);
                match run_at_once(rt, alloc, image, block, failure, writer) {
                    Some((kernel, faults)) if end_alike(&kernel, &right) => {
                        if turn == 1 && faults == 1 {
                            first = first.saturating_add(1);
                        }
                    }
                    _ => wrong = wrong.saturating_add(1),
                }
            }
        }
    }
    println!(rt; "{word}: runs {runs}, faults of a first turn {first}, wrong {wrong}")
}

/// Lets lanes fail in one thread and in many, and prints what that comes to.
pub fn print_failing<R: Threads + Wait + Print + Sync>(rt: &R, alloc: Global) -> io::Result<()> {
    let image = used_image(alloc)?;
    for (word, how) in [("drains", How::Drain), ("flushes", How::Flush)] {
        let scene = Scene {
            image: image.as_slice(),
            how,
        };
        print_turns(rt, alloc, scene, word)?;
    }
    for (word, writer) in [("flushers", Writer::Flushers), ("hub", Writer::Hub)] {
        print_flushes(rt, alloc, &image, writer, word)?;
    }
    Ok(())
}
