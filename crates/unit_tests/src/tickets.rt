// Tickets that come back: from kernels that didn't begin them, and where a written block isn't read back.

use crate::disks::{fresh_lanes, fs, is, mounted, same};
use crate::kernel::drain;
use disk::MemLane;
use std::alloc::{AllocError, Global};
use std::process::Abort;
use std::thread::Threads;
use store_types::BLOCK_LEN;
use xn_kernel::{Edit, Fs, Kernel, Landed, Patch, Refusal, Store, Ticket};

/// What the finish of a write with one entry does.
const ONE_DURABLE: Landed = Landed {
    durable: 1,
    freed: 0,
};

/// The edit of a block's first byte.
fn first_byte(alloc: Global, byte: u8) -> Result<Edit, AllocError> {
    let bytes = Vec::from_array(alloc, [byte])?;
    let patch = Patch { offset: 0, bytes };
    Ok(Edit {
        patches: Vec::from_array(alloc, [patch])?,
        adds: Vec::new(alloc),
        drops: Vec::new(alloc),
        after: None,
    })
}

/// A kernel with this number over a disk of its own, on which block 1 begins with this byte. An edit of it to 67 is pending.
fn edited<R: Threads + Abort + Sync>(rt: &R, alloc: Global, id: u64, byte: u8) -> Kernel<MemLane> {
    let lanes = fresh_lanes(rt, alloc);
    let mut kernel = mounted(rt, alloc, lanes, id);
    let owner = fs(rt, 0);
    let edit = first_byte(alloc, 67).expect(rt, "memory");
    is(
        rt,
        "a block",
        kernel.init(owner, 2, &[byte; BLOCK_LEN]).is_ok(),
    );
    is(rt, "a root", kernel.make_root(owner, 1).is_ok());
    is(rt, "a drain", drain(&mut kernel).1.is_none());
    is(rt, "an edit", kernel.propose(owner, 1, &edit).is_ok());
    kernel
}

/// Finishes a write that is to be refused: why it is, and the ticket as it comes back.
fn refused(
    kernel: &mut Kernel<MemLane>,
    ticket: Ticket<MemLane>,
) -> Option<(Ticket<MemLane>, Refusal)> {
    kernel.finish(ticket).err()
}

/// What a finish does behind a write and its sync; `None` where it is refused.
fn finished(kernel: &mut Kernel<MemLane>, mut ticket: Ticket<MemLane>) -> Option<Landed> {
    let _landed = ticket.land();
    let _synced = ticket.sync();
    match kernel.finish(ticket) {
        Ok(landed) => Some(landed),
        Err((ticket, _refusal)) => {
            let _lane = ticket.into_lane();
            None
        }
    }
}

/// Why another kernel refuses a ticket of block 1, and what the ticket does then in its own.
fn strayed(
    kernel: &mut Kernel<MemLane>,
    other: &mut Kernel<MemLane>,
) -> Option<(Refusal, Option<Landed>)> {
    let (ticket, refusal) = refused(other, kernel.begin(1).ok()?)?;
    Some((refusal, finished(kernel, ticket)))
}

/// The same, where the other kernel has begun a write of its own block 1.
fn strayed_to_begun(
    kernel: &mut Kernel<MemLane>,
    other: &mut Kernel<MemLane>,
) -> Option<(Refusal, Option<Landed>)> {
    let own = other.begin(1).ok()?;
    let told = strayed(kernel, other);
    let _lane = own.into_lane();
    told
}

#[test]
fn a_ticket_of_another_kernel_comes_back(rt: HostRuntime) {
    for (id, byte, is_begun) in [(2, 65, true), (1, 65, false), (1, 66, true)] {
        let mut kernel = edited(&rt, rt.alloc(), 1, 65);
        let mut other = edited(&rt, rt.alloc(), id, byte);
        let told = if is_begun {
            strayed_to_begun(&mut kernel, &mut other)
        } else {
            strayed(&mut kernel, &mut other)
        };
        let is_back = told == Some((Refusal::NotMine, Some(ONE_DURABLE)));
        same(&rt, "a ticket", (id, byte, is_back), (id, byte, true));
    }
}

/// Why a write isn't finished that can't be read back, whether its lane stays away then, and what its next finish does.
fn read_at_last(kernel: &mut Kernel<MemLane>) -> Option<(Refusal, bool, Option<Landed>)> {
    let mut ticket = kernel.begin(1).ok()?;
    let _landed = ticket.land();
    let _synced = ticket.sync();
    ticket.fail_next_read();
    let (ticket, refusal) = refused(kernel, ticket)?;
    let is_away = kernel.lane(1).is_none();
    Some((refusal, is_away, finished(kernel, ticket)))
}

#[test]
fn a_block_that_is_not_read_back_stays_in_flight(rt: HostRuntime) {
    let mut kernel = edited(&rt, rt.alloc(), 1, 65);
    let told = read_at_last(&mut kernel);
    is(
        &rt,
        "a block",
        told == Some((Refusal::Device, true, Some(ONE_DURABLE))),
    );
}
