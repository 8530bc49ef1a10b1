// Each read, each write and each sync of each lane fails in turn, and the run goes on.

use crate::failing::alone::{Scene, end_alike, played};
use crate::failing::lanes::{BLOCKS, CountingLane, Failure};
use std::alloc::Global;
use std::thread::Threads;
use xn_kernel::Kernel;

/// What runs come to: how many had a lane that fails at a read, a write, a sync; how many mounts were refused, drains or flushes stopped, and
/// tickets given out by these; how many runs were wrong.
#[derive(Clone, Copy)]
pub struct Tally {
    pub reads: u32,
    pub writes: u32,
    pub syncs: u32,
    pub mounts: u32,
    pub stops: u32,
    pub tickets: u32,
    pub wrong: u32,
}

impl Tally {
    /// Before the first run.
    pub fn new() -> Tally {
        Tally {
            reads: 0,
            writes: 0,
            syncs: 0,
            mounts: 0,
            stops: 0,
            tickets: 0,
            wrong: 0,
        }
    }
}

/// Runs with a lane that fails, and looks whether that ends as it should, and so many faults are told.
fn count_run(
    rt: &(impl Threads + Sync),
    alloc: Global,
    scene: Scene,
    right: &Kernel<CountingLane>,
    block: u32,
    failure: Failure,
    faults: u32,
    tally: &mut Tally,
) {
    let before = tally.mounts.saturating_add(tally.stops);
    let is_alike = match played(rt, alloc, scene, block, Some(failure), tally) {
        Some(kernel) => end_alike(&kernel, right),
        None => false,
    };
    let told = tally
        .mounts
        .saturating_add(tally.stops)
        .saturating_sub(before);
    if !is_alike || told != faults {
        tally.wrong = tally.wrong.saturating_add(1);
    }
}

/// Lets each lane fail at each thing that it is asked in a run, one in each run. Each time one fault is told, but none where a write leaves the
/// new bytes. `None`: a run without a fault went otherwise.
pub fn tally_of(rt: &(impl Threads + Sync), alloc: Global, scene: Scene) -> Option<Tally> {
    let mut tally = Tally::new();
    let right = played(rt, alloc, scene, 0, None, &mut tally)?;
    if tally.mounts > 0 || tally.stops > 0 {
        return None;
    }
    for block in 0..BLOCKS {
        let lane = right.lane(block)?;
        for turn in 1..lane.reads.saturating_add(1) {
            tally.reads = tally.reads.saturating_add(1);
            let failure = Failure::Read(turn);
            count_run(rt, alloc, scene, &right, block, failure, 1, &mut tally);
        }
        for turn in 1..lane.writes.saturating_add(1) {
            for (stays, faults) in [(false, 1), (true, 0)] {
                tally.writes = tally.writes.saturating_add(1);
                let failure = Failure::Write(turn, stays);
                count_run(rt, alloc, scene, &right, block, failure, faults, &mut tally);
            }
        }
        for turn in 1..lane.syncs.saturating_add(1) {
            tally.syncs = tally.syncs.saturating_add(1);
            let failure = Failure::Sync(turn);
            count_run(rt, alloc, scene, &right, block, failure, 1, &mut tally);
        }
    }
    Some(tally)
}
