// Fresh disks of 32 blocks, and file systems. What can't be had ends the test.

use crash_check::{ImageFault, mount};
use disk::{Lane, Lanes, MemLane, PlanLane};
use std::alloc::Global;
use std::fmt::Debug;
use std::process::Abort;
use std::thread::Threads;
use templates::format_image;
use xn_kernel::{Fs, Kernel};

// These functions have no contracts, so that the proofs of the tests stay short.

/// Ends the test where something is not so, and says what.
pub fn is(rt: &impl Abort, what: &str, holds: bool) {
    assert!(rt; holds, "{what}");
}

/// Ends the test where what came is not what is wanted, and tells both.
pub fn same<T: PartialEq + Debug + Drop>(rt: &impl Abort, what: &str, came: T, wanted: T) {
    assert!(rt; came == wanted, "{what}: {came:?}, and not {wanted:?}");
}

/// A file system.
pub fn fs(rt: &impl Abort, number: u8) -> Fs {
    Fs::new(number).expect(rt, "a file system")
}

/// The lanes of a fresh disk of 32 blocks.
pub fn fresh_lanes(rt: &impl Abort, alloc: Global) -> Lanes<MemLane> {
    if let Ok(image) = format_image(alloc, 32, &[])
        && image.len() == 16_384
        && let Ok(lanes) = disk::fresh_lanes(alloc, &image)
    {
        return lanes;
    }
    panic!(rt; "no lanes")
}

/// The lane of a block, taken out of so many.
pub fn take<L: Lane>(rt: &impl Abort, lanes: &mut Lanes<L>, blocks: u32, block: u32) -> L {
    if lanes.blocks() == blocks as usize
        && block < blocks
        && let Some(lane) = lanes.take(block)
    {
        return lane;
    }
    panic!(rt; "no lane")
}

/// Puts a lane back.
pub fn give<L: Lane + Drop>(rt: &impl Abort, lanes: &mut Lanes<L>, lane: L) {
    is(rt, "a place", lanes.give(lane).is_ok());
}

/// No lanes yet.
pub fn no_lanes<L: Lane>(rt: &impl Abort, alloc: Global) -> Lanes<L> {
    Lanes::new(alloc, 32).expect(rt, "memory")
}

/// Lanes of such a disk, of which one fails at a read, where the mount's is the first, and at a write, with whether the new
/// bytes stay.
pub fn failing_lanes(
    rt: &impl Abort,
    alloc: Global,
    failing: u32,
    read: Option<u64>,
    write: Option<(u64, bool)>,
) -> Lanes<PlanLane> {
    let mut lanes = fresh_lanes(rt, alloc);
    let mut planned = no_lanes(rt, alloc);
    for block in 0..32 {
        let lane = take(rt, &mut lanes, 32, block);
        let lane = if block == failing {
            PlanLane::new(lane, read, write)
        } else {
            PlanLane::new(lane, None, None)
        };
        give(rt, &mut planned, lane);
    }
    planned
}

/// The kernel over these lanes.
pub fn mounted<L: Lane + Drop, R: Threads + Abort + Sync>(
    rt: &R,
    alloc: Global,
    lanes: Lanes<L>,
    id: u64,
) -> Kernel<L> {
    match mount(rt, alloc, lanes, id) {
        Ok(kernel) => kernel,
        Err((fault, _)) => panic!(rt; "no mount: {fault}"),
    }
}

/// The lanes that a mount gives back with a fault.
pub fn faulty<L: Lane + Drop, R: Threads + Abort + Sync>(
    rt: &R,
    alloc: Global,
    lanes: Lanes<L>,
    wanted: ImageFault,
) -> Lanes<L> {
    match mount(rt, alloc, lanes, 1) {
        Ok(_) => panic!(rt; "a mount"),
        Err((fault, lanes)) => {
            same(rt, "the fault of a mount", fault, wanted);
            lanes
        }
    }
}

/// Whether every lane is at home.
pub fn are_home<L: Lane>(lanes: &Lanes<L>) -> bool {
    if lanes.blocks() != 32 {
        return false;
    }
    for block in 0..32 {
        if lanes.lane(block).is_none() {
            return false;
        }
    }
    true
}
