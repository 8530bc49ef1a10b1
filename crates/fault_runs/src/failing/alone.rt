// A kernel that one thread uses over lanes of which one fails: mounts, drains and flushes that stop, and go on.

use crate::failing::calls::{STEPS, Step, edit_of, template_of};
use crate::failing::lanes::{BLOCKS, CountingLane, Failure, counting_lanes};
use crate::failing::tally::Tally;
use crash_check::{ImageFault, mount};
use disk::{Lane, Lanes};
use std::alloc::Global;
use std::thread::Threads;
use store_types::BLOCK_LEN;
use xn_kernel::{DrainStop, FlushStop, Fs, Kernel, Refusal, Store, Ticket};

/// How all that is pending is written.
#[derive(Clone, Copy)]
pub enum How {
    Drain,
    Flush,
}

/// A disk, and how what is pending on it is written.
#[derive(Clone, Copy)]
pub struct Scene<'a> {
    pub image: &'a [u8],
    pub how: How,
}

/// A kernel over lanes of which that of a block may fail. A mount that this refuses is made again, over the lanes that came back: it would
/// be refused if one of them were missing. `None` here and below: it went otherwise.
pub fn mounted(
    rt: &(impl Threads + Sync),
    alloc: Global,
    image: &[u8],
    block: u32,
    failure: Option<Failure>,
    tally: &mut Tally,
) -> Option<Kernel<CountingLane>> {
    mounted_over(
        rt,
        alloc,
        counting_lanes(alloc, image, block, failure)?,
        tally,
    )
}

/// A kernel over these lanes.
fn mounted_over<L: Lane + Drop>(
    rt: &(impl Threads + Sync),
    alloc: Global,
    lanes: Lanes<L>,
    tally: &mut Tally,
) -> Option<Kernel<L>> {
    match mount(rt, alloc, lanes, 1) {
        Ok(kernel) => Some(kernel),
        Err((ImageFault::Device, lanes)) => {
            tally.mounts = tally.mounts.saturating_add(1);
            mount(rt, alloc, lanes, 1).ok()
        }
        Err(_) => None,
    }
}

/// Ends a write that was given out, behind a sync where it needs one; whether that makes its entries durable.
fn is_ended<L: Lane + Drop>(kernel: &mut Kernel<L>, mut ticket: Ticket<L>) -> bool {
    if ticket.is_unsynced() {
        let _synced = ticket.sync();
    }
    match kernel.finish(ticket) {
        Ok(landed) => landed.durable > 0,
        Err((ticket, _refusal)) => {
            let _lane = ticket.into_lane();
            false
        }
    }
}

/// Writes all that is pending; the writes that were given out where that stopped, and why.
fn stopped<L: Lane + Drop>(
    kernel: &mut Kernel<L>,
    alloc: Global,
    how: How,
) -> Option<(Option<Ticket<L>>, Vec<Ticket<L>>, Refusal)> {
    match how {
        How::Drain => match kernel.drain() {
            Ok(_writes) => None,
            Err(stop) => {
                let DrainStop {
                    writes: _,
                    ticket,
                    refusal,
                } = stop;
                Some((ticket, Vec::new(alloc), refusal))
            }
        },
        How::Flush => match kernel.flush(alloc) {
            Ok(_waves) => None,
            Err(stop) => {
                let FlushStop {
                    waves: _,
                    tickets,
                    refusal,
                } = stop;
                Some((None, tickets, refusal))
            }
        },
    }
}

/// Writes all that is pending, and goes on once where a lane failed, behind the writes that were given out; whether all is written.
pub fn settle<L: Lane + Drop>(
    kernel: &mut Kernel<L>,
    alloc: Global,
    how: How,
    tally: &mut Tally,
) -> bool {
    for _ in 0..2 {
        let Some((one, mut others, refusal)) = stopped(kernel, alloc, how) else {
            return true;
        };
        tally.stops = tally.stops.saturating_add(1);
        let mut are_ended = refusal == Refusal::Device;
        if let Some(ticket) = one {
            tally.tickets = tally.tickets.saturating_add(1);
            are_ended = is_ended(kernel, ticket) && are_ended;
        }
        while let Some(ticket) = others.pop() {
            tally.tickets = tally.tickets.saturating_add(1);
            are_ended = is_ended(kernel, ticket) && are_ended;
        }
        others.destroy_empty();
        if !are_ended {
            return false;
        }
    }
    false
}

/// Takes a step of a file system; whether it was done.
fn take<L: Lane + Drop>(
    kernel: &mut Kernel<L>,
    alloc: Global,
    how: How,
    tally: &mut Tally,
    fs: Fs,
    step: Step,
) -> bool {
    match step {
        Step::Install(ty) => kernel.install(&template_of(ty)).is_ok(),
        Step::Init(ty, byte) => kernel.init(fs, ty, &[byte; BLOCK_LEN]).is_ok(),
        Step::Edit(block, first, add, drop) => match edit_of(alloc, first, add, drop) {
            Ok(edit) => kernel.propose(fs, block, &edit).is_ok(),
            Err(_) => false,
        },
        Step::MakeRoot(block) => kernel.make_root(fs, block).is_ok(),
        Step::DropRoot => kernel.drop_root(fs).is_ok(),
        Step::Settle => settle(kernel, alloc, how, tally),
    }
}

/// The kernel behind all steps.
pub fn played(
    rt: &(impl Threads + Sync),
    alloc: Global,
    scene: Scene,
    block: u32,
    failure: Option<Failure>,
    tally: &mut Tally,
) -> Option<Kernel<CountingLane>> {
    let Scene { image, how } = scene;
    let mut kernel = mounted(rt, alloc, image, block, failure, tally)?;
    if are_taken(&mut kernel, alloc, how, tally) {
        Some(kernel)
    } else {
        None
    }
}

/// Takes all steps; whether each was done.
fn are_taken<L: Lane + Drop>(
    kernel: &mut Kernel<L>,
    alloc: Global,
    how: How,
    tally: &mut Tally,
) -> bool {
    for &(number, step) in &STEPS {
        let Some(fs) = Fs::new(number) else {
            return false;
        };
        if !take(kernel, alloc, how, tally, fs, step) {
            return false;
        }
    }
    true
}

/// Whether two kernels end with the same: the bytes of each block, the floors of the first two file systems, and how many blocks are free.
pub fn end_alike(one: &Kernel<CountingLane>, two: &Kernel<CountingLane>) -> bool {
    for block in 0..BLOCKS {
        match (one.lane(block), two.lane(block)) {
            (Some(one), Some(two)) if one.lane.bytes() == two.lane.bytes() => {}
            _ => return false,
        }
    }
    have_same_floors(one, two)
}

/// Whether the floors of the first two file systems are the same, and how many blocks are free.
fn have_same_floors<L: Lane>(one: &Kernel<L>, two: &Kernel<L>) -> bool {
    for number in 0..2 {
        match Fs::new(number) {
            Some(fs) if one.floor(fs) == two.floor(fs) => {}
            _ => return false,
        }
    }
    one.state().free() == two.state().free()
}
