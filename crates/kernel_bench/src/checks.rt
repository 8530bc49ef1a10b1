// Times checks of a disk of 32,768 blocks, all of which are reached.

mod images;

use crash_check::check;
use images::wide_image;
use std::alloc::Global;
use std::io;
use std::thread::Threads;
use std::time::{Clock, Instant};

/// How often the image is checked.
const ROUNDS: usize = 20;

/// How many bytes of memory are taken and given back before the image is made.
const KEPT: usize = 31 * 1024 * 1024;

/// Takes memory and gives it back, as `xnsim` does where it starts: the C library then keeps what a check frees for the next one, and no check
/// asks the system for its memory.
fn keep_freed_memory(alloc: Global) {
    let _ = Vec::<u8>::with_capacity(alloc, KEPT);
}

/// Checks the image, prints what was found, and how long each check took.
pub fn time_checks<R: Threads + Clock + Print + Eprint + Sync>(
    rt: &R,
    alloc: Global,
) -> io::Result<()> {
    keep_freed_memory(alloc);
    let image = wide_image(alloc)?;
    for _ in 0..ROUNDS {
        let start = Instant::now(rt)?;
        let answer = check(rt, alloc, &image);
        let time = start.elapsed(rt)?.as_nanos();
        eprintln!(rt; "{time}")?;
        match answer {
            Ok(report) => {
                let (reached, free) = (report.reached.len(), report.free.len());
                println!(rt; "reached {reached} free {free}")?;
            }
            Err(fault) => println!(rt; "{fault}")?,
        }
    }
    Ok(())
}
