// Times the calls of a kernel on disks of 32, of 32,768 and of 2^20 blocks.

mod blocks;
mod disks;
mod work;
mod writes;

use blocks::{full_inodes, rooted_data};
use disk::MemLane;
use disks::fresh_kernel;
use std::alloc::Global;
use std::io;
use std::thread::Threads;
use std::time::{Clock, Instant};
use work::Work;
use xn_kernel::{Fs, Kernel};

/// How often the calls of a kind are made.
const COUNT: u32 = 20_000;

/// Makes calls, and prints how long they took.
fn time<R: Threads + Clock + Print + Eprint + Sync>(
    rt: &R,
    alloc: Global,
    kernel: &mut Kernel<MemLane>,
    fs: Fs,
    place: &str,
    work: Work,
) -> io::Result<()> {
    let start = Instant::now(rt)?;
    let done = work.run(alloc, kernel, fs, COUNT)?;
    let time = start.elapsed(rt)?.as_nanos();
    let name = work.name();
    println!(rt; "{place} {name} {done}")?;
    eprintln!(rt; "{place} {name} {COUNT} {time}")
}

/// Times the calls that any disk has.
fn time_all<R: Threads + Clock + Print + Eprint + Sync>(
    rt: &R,
    alloc: Global,
    kernel: &mut Kernel<MemLane>,
    fs: Fs,
    place: &str,
) -> io::Result<()> {
    let Some(block) = rooted_data(kernel, fs) else {
        return println!(rt; "{place}: no block");
    };
    let works = [
        Work::Floor,
        Work::Pending,
        Work::Init,
        Work::Cycle(block),
        Work::PickedCycle(block),
        Work::Drain(block),
    ];
    for work in works {
        time(rt, alloc, kernel, fs, place, work)?;
    }
    Ok(())
}

/// Times edits of a full block of inodes.
fn time_inodes<R: Threads + Clock + Print + Eprint + Sync>(
    rt: &R,
    alloc: Global,
    kernel: &mut Kernel<MemLane>,
    fs: Fs,
    place: &str,
) -> io::Result<()> {
    let Some(block) = full_inodes(alloc, kernel, fs)? else {
        return println!(rt; "{place}: no block");
    };
    for work in [Work::Cycle(block), Work::Drain(block)] {
        time(rt, alloc, kernel, fs, place, work)?;
    }
    Ok(())
}

/// Times calls on a fresh disk of so many blocks.
fn time_disk<R: Threads + Clock + Print + Eprint + Sync>(
    rt: &R,
    alloc: Global,
    blocks: u32,
    place: &str,
    inodes: bool,
) -> io::Result<()> {
    let Some(fs) = Fs::new(0) else {
        return Ok(());
    };
    let mut kernel = fresh_kernel(rt, alloc, blocks)?;
    if inodes {
        time_inodes(rt, alloc, &mut kernel, fs, place)
    } else {
        time_all(rt, alloc, &mut kernel, fs, place)
    }
}

/// Times calls on a small and a large disk, and edits of a full block of inodes on the large one.
pub fn time_calls<R: Threads + Clock + Print + Eprint + Sync>(
    rt: &R,
    alloc: Global,
) -> io::Result<()> {
    time_disk(rt, alloc, 32, "32", false)?;
    time_disk(rt, alloc, 32_768, "32768", false)?;
    time_disk(rt, alloc, 32_768, "inodes", true)
}

/// Times calls on the largest disk.
pub fn time_large_calls<R: Threads + Clock + Print + Eprint + Sync>(
    rt: &R,
    alloc: Global,
) -> io::Result<()> {
    time_disk(rt, alloc, 1_048_576, "1048576", false)
}
