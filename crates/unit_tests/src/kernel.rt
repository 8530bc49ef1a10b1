// A kernel over lanes that fail, and its calls that no script has.

use crate::disks::{failing_lanes, fresh_lanes, fs, is, mounted};
use disk::{Lane, Lanes, MemLane, PlanLane};
use std::alloc::Global;
use std::process::Abort;
use std::thread::Threads;
use store_types::BLOCK_LEN;
use xn_kernel::{DrainStop, EditId, Fs, Kernel, Landed, Refusal, Store, Ticket};

// These functions have no contracts, so that the proofs of the tests stay short.

/// The kernel over these lanes, in which file system 0 has started block 1 and made it its root.
fn rooted<R: Threads + Abort + Sync>(
    rt: &R,
    alloc: Global,
    lanes: Lanes<PlanLane>,
) -> Kernel<PlanLane> {
    let mut kernel = mounted(rt, alloc, lanes, 1);
    let owner = fs(rt, 0);
    let started = kernel.init(owner, 2, &[0x41; BLOCK_LEN]);
    is(rt, "a first block", started == Ok((1, EditId(1))));
    is(rt, "a root", kernel.make_root(owner, 1) == Ok(EditId(2)));
    kernel
}

/// How a drain ended: how many writes it finished, and, where it stopped, why, and the ticket that it gave out.
type Drained<L> = (u32, Option<Refusal>, Option<Ticket<L>>);

fn drained<L: Lane>(kernel: &mut Kernel<L>) -> Drained<L> {
    match kernel.drain() {
        Ok(writes) => (writes, None, None),
        Err(
            DrainStop {
                writes,
                ticket,
                refusal,
            },
        ) => (writes, Some(refusal), ticket),
    }
}

/// The same, of which a ticket is given up.
pub fn drain<L: Lane + Drop>(kernel: &mut Kernel<L>) -> (u32, Option<Refusal>, bool) {
    let (writes, refusal, ticket) = drained(kernel);
    match ticket {
        None => (writes, refusal, false),
        Some(ticket) => {
            let _lane = ticket.into_lane();
            (writes, refusal, true)
        }
    }
}

/// What a finished write did; a ticket that comes back is given up.
fn finish(kernel: &mut Kernel<PlanLane>, ticket: Ticket<PlanLane>) -> Option<Landed> {
    match kernel.finish(ticket) {
        Ok(landed) => Some(landed),
        Err((ticket, _refusal)) => {
            let _lane = ticket.into_lane();
            None
        }
    }
}

/// Why a write doesn't begin, if so; a ticket is given up.
fn begin(kernel: &mut Kernel<PlanLane>, block: u32) -> Option<Refusal> {
    match kernel.begin(block) {
        Ok(ticket) => {
            let _lane = ticket.into_lane();
            None
        }
        Err(refusal) => Some(refusal),
    }
}

/// How two drains end.
fn two_drains(kernel: Kernel<PlanLane>) -> [(u32, Option<Refusal>, bool); 2] {
    let mut kernel = kernel;
    let first = drain(&mut kernel);
    [first, drain(&mut kernel)]
}

#[test]
fn a_drain_stops_where_a_write_fails(rt: HostRuntime) {
    let failed = [(0, Some(Refusal::Device), false), (2, None, false)];
    let done = [(2, None, false), (0, None, false)];
    for (stays, wanted) in [(false, failed), (true, done)] {
        let lanes = failing_lanes(&rt, rt.alloc(), 1, None, Some((1, stays)));
        let ends = two_drains(rooted(&rt, rt.alloc(), lanes));
        is(
            &rt,
            if stays {
                "drains of bytes that stay"
            } else {
                "drains"
            },
            ends == wanted,
        );
    }
}

/// What is told of a drain that can't read a block back: how many writes it finished, why it stopped, and at which block; why a write of block 0
/// doesn't begin then; what the finish of the drain's ticket does, and the floor of a file system after it.
type Unread = (
    u32,
    Option<Refusal>,
    u32,
    Option<Refusal>,
    Option<Landed>,
    u64,
);

fn read_back(kernel: Kernel<PlanLane>, owner: Fs) -> Option<Unread> {
    let mut kernel = kernel;
    let (writes, stopped, ticket) = drained(&mut kernel);
    let ticket = ticket?;
    let block = ticket.block();
    let begun = begin(&mut kernel, 0);
    let finished = finish(&mut kernel, ticket);
    Some((writes, stopped, block, begun, finished, kernel.floor(owner)))
}

#[test]
fn a_drain_gives_out_the_ticket_of_a_block_that_is_not_read_back(rt: HostRuntime) {
    let lanes = failing_lanes(&rt, rt.alloc(), 0, Some(2), None);
    let told = read_back(rooted(&rt, rt.alloc(), lanes), fs(&rt, 0));
    let landed = Landed {
        durable: 1,
        freed: 0,
    };
    let refusals = (Some(Refusal::Device), Some(Refusal::InFlight));
    let wanted = Some((1, refusals.0, 0, refusals.1, Some(landed), 3));
    is(&rt, "a ticket", told == wanted);
}

/// Why a finish is refused; the ticket as it comes back, or how many entries the finish made durable.
fn refused(
    kernel: &mut Kernel<MemLane>,
    ticket: Ticket<MemLane>,
) -> Result<(Ticket<MemLane>, Refusal), u32> {
    match kernel.finish(ticket) {
        Ok(landed) => Err(landed.durable),
        Err(back) => Ok(back),
    }
}

/// Why the finishes of a write of block 1 are refused: before a sync, after one that fails, and after a write behind a good one. The count
/// is of the entries that a good sync and a finish make durable then.
fn refused_finishes(kernel: &mut Kernel<MemLane>, owner: Fs) -> Result<([Refusal; 3], u32), u32> {
    let _started = kernel.init(owner, 2, &[0x41; BLOCK_LEN]);
    let Ok(mut ticket) = kernel.begin(1) else {
        return Err(0);
    };
    let _landed = ticket.land();
    let (mut ticket, landed) = refused(kernel, ticket)?;
    ticket.fail_next_sync();
    let _failed = ticket.sync();
    let (mut ticket, failed) = refused(kernel, ticket)?;
    let _synced = ticket.sync();
    let _landed = ticket.land();
    let (mut ticket, again) = refused(kernel, ticket)?;
    let _synced = ticket.sync();
    match refused(kernel, ticket) {
        Err(durable) => Ok(([landed, failed, again], durable)),
        Ok((ticket, _refusal)) => {
            let _lane = ticket.into_lane();
            Err(0)
        }
    }
}

#[test]
fn a_finish_asks_for_a_sync(rt: HostRuntime) {
    let lanes = fresh_lanes(&rt, rt.alloc());
    let mut kernel = mounted(&rt, rt.alloc(), lanes, 1);
    let told = refused_finishes(&mut kernel, fs(&rt, 0));
    is(
        &rt,
        "three refusals",
        told == Ok(([Refusal::NotSynced; 3], 1)),
    );
}

/// The type and the root that a file system is told of block 1, whether block 0 and block 1 are tainted, and how many are free.
fn told(kernel: &Kernel<PlanLane>, fs: Fs) -> (Option<u32>, Option<u32>, [bool; 2], u32) {
    let kind = kernel.kind(fs, 1).ok();
    let tainted = [kernel.state().tainted(0), kernel.state().tainted(1)];
    (kind, kernel.root(fs), tainted, kernel.state().free())
}

#[test]
fn a_kernel_tells_what_it_has(rt: HostRuntime) {
    let lanes = failing_lanes(&rt, rt.alloc(), 0, None, None);
    let kernel = rooted(&rt, rt.alloc(), lanes);
    let to_owner = told(&kernel, fs(&rt, 0));
    is(
        &rt,
        "the owner",
        to_owner == (Some(2), Some(1), [true, false], 30),
    );
    let to_other = told(&kernel, fs(&rt, 1));
    is(&rt, "another", to_other == (None, None, [true, false], 30));
}
