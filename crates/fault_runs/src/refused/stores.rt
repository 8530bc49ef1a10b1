// Calls of a kernel, alone and shared, that take no memory. What they need is made before them.

ghost use Rattle.std.specs.Prelude.{◌≡◌};

use crate::refused::clients::fresh_kernel;
use crate::refused::tally::count;
use crash_check::mount;
use disk::{Lane, Lanes, MemLane, fresh_lanes};
use durable_floor::{Floor, Naming, Reader};
use shared::Hub;
use std::alloc::Global;
use std::thread::Threads;
use store_types::BLOCK_LEN;
use xn_kernel::{DrainStop, Fs, Kernel, Landed, Refusal, Store, Ticket};

/// A kernel in which file system 0 has a durable block, 1, in its root slot and a fresh one, 2, and file system 1 has two fresh ones, 3
/// and 4. It was mounted before the fresh blocks were started, so each other call of it is its first: none has memory of an earlier one.
/// Beside it are lanes of which none was taken out yet.
#[derive(Drop)]
pub struct Blocks {
    pub kernel: Kernel<MemLane>,
    pub lanes: Lanes<MemLane>,
    pub first: Fs,
    pub second: Fs,
}

impl Blocks {
    /// Makes it. `None`: there was no memory.
    pub fn new(rt: &(impl Threads + Sync), alloc: Global) -> Option<Blocks> {
        let (first, second) = (Fs::new(0)?, Fs::new(1)?);
        let mut kernel = fresh_kernel(rt, alloc)?;
        if !is_rooted(&mut kernel, first) {
            return None;
        }
        let mut kernel = mount(rt, alloc, kernel.into_lanes(), 2).ok()?;
        if !are_fresh(&mut kernel, first, second) {
            return None;
        }
        let lanes = fresh_lanes(alloc, &[5; 1024]).ok()?;
        Some(Blocks {
            kernel,
            lanes,
            first,
            second,
        })
    }

    /// How many of 5 looks find what they should.
    pub fn looks(&self) -> u32 {
        kernel_looks(&self.kernel, self.first, self.second)
    }

    /// How many of 5 changes do what they should.
    pub fn changes(self) -> u32 {
        let Blocks {
            mut kernel,
            lanes,
            first,
            ..
        } = self;
        let [is_forgotten, is_written, is_drained] = kernel_changes(&mut kernel, first);
        let is_home = is_given_back(kernel.into_lanes(), 32, 3);
        let is_given = is_given_back(lanes, 2, 1);
        count(&[is_forgotten, is_written, is_drained, is_home, is_given])
    }
}

/// How many of 5 looks at such a kernel find what they should.
fn kernel_looks<L: Lane>(kernel: &Kernel<L>, first: Fs, second: Fs) -> u32 {
    count(&[
        kernel.read(first, 1) == Ok(&[1; BLOCK_LEN]) && kernel.root(first) == Some(1),
        kernel.kind(first, 1) == Ok(2) && !kernel.state().tainted(1),
        kernel.template(1).is_some() && kernel.template(3).is_none(),
        kernel.pending(second) == 2 && kernel.floor(second) == 2,
        kernel.state().free() == 27 && kernel.state().pick() == Some(2) && kernel.lane(1).is_some(),
    ])
}

/// Whether its block 2 is forgotten, its block 3 written, and all then drained.
fn kernel_changes<L: Lane + Drop>(kernel: &mut Kernel<L>, fs: Fs) -> [bool; 3] {
    let is_forgotten = kernel.forget(fs, 2).is_ok();
    let is_written = match kernel.begin(3) {
        Ok(mut ticket) => {
            let _done = ticket.land().is_ok() && ticket.sync().is_ok();
            is_finished(kernel.finish(ticket))
        }
        Err(_) => false,
    };
    [is_forgotten, is_written, is_drained(kernel.drain(), 1)]
}

/// Starts block 1, makes it the root and durable; whether all was done.
fn is_rooted<L: Lane + Drop>(kernel: &mut Kernel<L>, fs: Fs) -> bool {
    kernel.init(fs, 2, &[1; BLOCK_LEN]).is_ok()
        && kernel.make_root(fs, 1).is_ok()
        && is_drained(kernel.drain(), 2)
}

/// Starts blocks 2, 3 and 4; whether all was done.
fn are_fresh<L: Lane>(kernel: &mut Kernel<L>, first: Fs, second: Fs) -> bool {
    kernel.init(first, 2, &[2; BLOCK_LEN]).is_ok()
        && kernel.init(second, 2, &[3; BLOCK_LEN]).is_ok()
        && kernel.init(second, 2, &[4; BLOCK_LEN]).is_ok()
}

/// Whether there are so many lanes, and that of a block is taken out and put back. Its block ends with a byte that is no 0.
fn is_given_back(lanes: Lanes<MemLane>, blocks: usize, block: u32) -> bool {
    let mut lanes = lanes;
    if lanes.blocks() != blocks || block as usize >= blocks {
        return false;
    }
    match lanes.take(block) {
        Some(lane) => lane.bytes()[511] > 0 && lanes.give(lane).is_ok(),
        None => false,
    }
}

/// How many of 5 looks at such a kernel in a hub find what they should.
pub fn hub_looks<L: Lane, K: Naming>(hub: &Hub<L, K>, first: Fs, second: Fs) -> u32 {
    count(&[
        hub.read(first, 1) == Ok(&[1; BLOCK_LEN]) && hub.root(first) == Some(1),
        hub.kind(first, 1) == Ok(2) && !hub.kernel().state().tainted(1),
        hub.template(1).is_some() && hub.template(3).is_none(),
        hub.pending(second) == 2 && hub.floor(second) == 2,
        hub.kernel().state().free() == 27
            && hub.kernel().state().pick() == Some(2)
            && hub.kernel().lane(1).is_some(),
    ])
}

/// How many of 5 changes of it do what they should. The word of file system 1 is raised to its floor, which a reader meets and then reads
/// with no lock.
pub fn hub_changes<L: Lane + Drop, K: Naming>(
    hub: &mut Hub<L, K>,
    floor: &Floor,
    reader: &mut Reader,
    first: Fs,
    second: Fs,
) -> u32
    requires floor { floor.now ≡ K.floor }
    requires reader { reader.old.floor ≡ K.floor }
{
    let is_forgotten = hub.forget(first, 2).is_ok();
    let is_written = match hub.begin(3) {
        Ok(mut ticket) => {
            let _done = ticket.land().is_ok() && ticket.sync().is_ok();
            is_finished(hub.finish(ticket))
        }
        Err(_) => false,
    };
    let is_met = hub.meet(second, reader) == 3;
    let is_drained = is_drained(hub.drain(), 1);
    let is_read = floor.read(reader, 1) == 4;
    count(&[is_forgotten, is_written, is_met, is_drained, is_read])
}

/// Whether a finish made one entry durable. A ticket that comes back is given up.
fn is_finished<L: Lane + Drop>(answer: Result<Landed, (Ticket<L>, Refusal)>) -> bool {
    match answer {
        Ok(landed) => landed.durable == 1,
        Err((ticket, _refusal)) => {
            let _lane = ticket.into_lane();
            false
        }
    }
}

/// Whether a drain wrote all that was pending, in so many writes. A ticket that it gave out is given up.
fn is_drained<L: Lane + Drop>(answer: Result<u32, DrainStop<L>>, right: u32) -> bool {
    match answer {
        Ok(writes) => writes == right,
        Err(
            DrainStop {
                writes: _,
                ticket,
                refusal: _,
            },
        ) => {
            if let Some(ticket) = ticket {
                let _lane = ticket.into_lane();
            }
            false
        }
    }
}
