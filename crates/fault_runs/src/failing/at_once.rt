// Four workers at once, beside two flushers or before a flush under the lock, over lanes of which one fails.

ghost use Rattle.std.specs.Prelude.{◌≡◌, All};
ghost use Rattle.durable_floor.specs.Rules.{zero_floor};

use crate::failing::alone::{How, mounted, settle};
use crate::failing::calls::edit_of;
use crate::failing::lanes::{CountingLane, Failure};
use crate::failing::tally::Tally;
use crate::sharing::{Open, hub_of};
use disk::Lane;
use durable_floor::{Floor, Naming, Publisher, Reader};
use shared::{FlushEnd, Flusher, Shared};
use std::alloc::Global;
use std::marker::Brand;
use std::sync::Wait;
use std::thread::{Threads, join, map_indices};
use store_types::BLOCK_LEN;
use xn_kernel::{FlushStop, Fs, Kernel, Refusal, Store, Ticket};

/// How many edits each worker makes.
const EDITS: u32 = 12;

/// Who writes what the workers leave pending.
#[derive(Clone, Copy)]
pub enum Writer {
    /// Two flushers, while the workers are at work.
    Flushers,
    /// A flush of the hub, once they are done.
    Hub,
}

/// A kernel that threads share.
type SharedKernel<L, K> = Shared<L, Open, K>;

/// A kernel in which each of four file systems has a root, blocks 1 to 4. `None` here and below: it went otherwise.
fn started(
    rt: &(impl Threads + Sync),
    alloc: Global,
    image: &[u8],
    block: u32,
    failure: Option<Failure>,
) -> Option<Kernel<CountingLane>> {
    let mut kernel = mounted(rt, alloc, image, block, failure, &mut Tally::new())?;
    if are_rooted(&mut kernel) {
        Some(kernel)
    } else {
        None
    }
}

/// Gives each of four file systems a root; whether all have one.
fn are_rooted<L: Lane>(kernel: &mut Kernel<L>) -> bool {
    for number in 0..4 {
        let Some(fs) = Fs::new(number) else {
            return false;
        };
        let Ok((block, _)) = kernel.init(fs, 2, &[number; BLOCK_LEN]) else {
            return false;
        };
        if kernel.make_root(fs, block).is_err() {
            return false;
        }
    }
    true
}

/// A worker's edits, through the lock; whether all were accepted.
fn work<L: Lane + Drop, K: Naming, R: Wait>(
    rt: &R,
    alloc: Global,
    shared: &SharedKernel<L, K>,
    number: u8,
) -> bool {
    let Some(fs) = Fs::new(number) else {
        return false;
    };
    let block = u32::from(number) + 1;
    for count in 0..EDITS {
        let Ok(edit) = edit_of(alloc, count, None, None) else {
            return false;
        };
        let edited = shared.with(rt, |hub| hub.propose(fs, block, &edit));
        if edited.is_err() {
            return false;
        }
    }
    true
}

/// Four workers at once, after which the flushers may end; whether all edits were accepted.
fn four_workers<L: Lane + Drop + Send + Sync, K: Naming + Send + Sync, R: Threads + Wait + Sync>(
    rt: &R,
    alloc: Global,
    shared: &SharedKernel<L, K>,
) -> bool {
    let worked = map_indices(
        rt,
        alloc,
        4,
        &|number: usize| match u8::try_from(number) {
            Ok(number) => work(rt, alloc, shared, number),
            Err(_) => false,
        },
    );
    shared.stop();
    match worked {
        Ok(worked) => worked.as_slice() == [true; 4].as_slice(),
        Err(_) => false,
    }
}

/// Ends a write that was given out, behind a sync where it needs one; whether that makes its entries durable.
fn is_ended<L: Lane + Drop, K: Naming, R: Wait>(
    rt: &R,
    shared: &SharedKernel<L, K>,
    mut ticket: Ticket<L>,
) -> bool {
    if ticket.is_unsynced() {
        let _synced = ticket.sync();
    }
    let mut held = Some(ticket);
    let finished = shared.with(rt, |hub| Some(hub.finish(held.take()?)));
    if let Some(ticket) = held {
        let _lane = ticket.into_lane();
    }
    match finished {
        Some(Ok(landed)) => landed.durable > 0,
        Some(Err((ticket, _refusal))) => {
            let _lane = ticket.into_lane();
            false
        }
        None => false,
    }
}

/// Writes what is pending as a flusher, or by a flush of the hub, and goes on behind a device fault; how many there were.
fn flush<L: Lane + Drop, K: Naming, R: Wait>(
    rt: &R,
    alloc: Global,
    shared: &SharedKernel<L, K>,
    writer: Writer,
) -> Option<u32> {
    for faults in 0..3 {
        let (one, mut others, refusal) = match writer {
            Writer::Flushers => {
                let FlushEnd {
                    writes: _,
                    fault,
                    ticket,
                } = Flusher::new(shared).run(rt);
                (ticket, Vec::new(alloc), fault)
            }
            Writer::Hub => match shared.with(rt, |hub| hub.flush(alloc)) {
                Ok(_waves) => return Some(faults),
                Err(stop) => {
                    let FlushStop {
                        waves: _,
                        tickets,
                        refusal,
                    } = stop;
                    (None, tickets, Some(refusal))
                }
            },
        };
        let mut are_ended = true;
        if let Some(ticket) = one {
            are_ended = is_ended(rt, shared, ticket);
        }
        while let Some(ticket) = others.pop() {
            are_ended = is_ended(rt, shared, ticket) && are_ended;
        }
        others.destroy_empty();
        match refusal {
            None if are_ended => return Some(faults),
            Some(Refusal::Device) if are_ended => {}
            _ => return None,
        }
    }
    None
}

/// Workers, and who writes beside them or behind them; how many faults these met.
fn written<L: Lane + Drop + Send + Sync, K: Naming + Send + Sync, R: Threads + Wait + Sync>(
    rt: &R,
    alloc: Global,
    shared: &SharedKernel<L, K>,
    writer: Writer,
) -> Option<u32> {
    if let Writer::Hub = writer {
        return if four_workers(rt, alloc, shared) {
            flush(rt, alloc, shared, writer)
        } else {
            None
        };
    }
    let (are_done, (one, two)) = join(
        rt,
        || four_workers(rt, alloc, shared),
        || {
            join(
                rt,
                || flush(rt, alloc, shared, writer),
                || flush(rt, alloc, shared, writer),
            )
        },
    );
    if are_done {
        Some(one?.saturating_add(two?))
    } else {
        None
    }
}

/// Whether the words of the four file systems are past all entries.
fn are_past_all(floor: &Floor, mut reader: Reader) -> bool
    requires { reader.floor ≡ floor.now }
{
    let words = [
        floor.read(&mut reader, 0),
        floor.read(&mut reader, 1),
        floor.read(&mut reader, 2),
        floor.read(&mut reader, 3),
    ];
    words == [u64::from(4 * (2 + EDITS) + 1); 4]
}

/// The kernel behind workers and who writes, and how many faults were met. Each file system's word is past all its entries then: each made two
/// and its edits.
fn scene<L: Lane + Drop + Send + Sync, K: Naming + Send + Sync, R: Threads + Wait + Sync>(
    rt: &R,
    alloc: Global,
    floor: Floor,
    publisher: Publisher,
    mut readers: Vec<Reader>,
    kernel: Kernel<L>,
    writer: Writer,
) -> Option<(Kernel<L>, u32)>
    requires floor { floor ≡ K.floor }
    requires publisher { publisher ≡ record { floor = floor; seen = zero_floor } }
    requires readers { All (λ reader. reader.floor ≡ K.floor) readers.items }
{
    let (hub, floor) = hub_of(alloc, kernel, floor, publisher)?;
    let shared: SharedKernel<L, K> = Shared::new(hub, floor, Open);
    let reader = readers.pop()?;
    let faults = written(rt, alloc, &shared, writer)?;
    if !are_past_all(shared.floor(), reader) {
        return None;
    }
    Some((shared.into_held().into_kernel(), faults))
}

/// Workers and who writes over lanes of which that of a block fails, from the mount on.
pub fn run_at_once<R: Threads + Wait + Sync>(
    rt: &R,
    alloc: Global,
    image: &[u8],
    block: u32,
    failure: Failure,
    writer: Writer,
) -> Option<(Kernel<CountingLane>, u32)> {
    let kernel = started(rt, alloc, image, block, Some(failure))?;
    let (floor, publisher, readers) = Floor::new(alloc, 1).ok()?;
    scene::<_, Brand, _>(rt, alloc, floor, publisher, readers, kernel, writer)
}

/// The same calls in one thread over lanes of which none fails, with a drain behind them.
pub fn run_alone(
    rt: &(impl Threads + Sync),
    alloc: Global,
    image: &[u8],
) -> Option<Kernel<CountingLane>> {
    let mut kernel = started(rt, alloc, image, 0, None)?;
    if are_made(&mut kernel, alloc) {
        Some(kernel)
    } else {
        None
    }
}

/// Makes the workers' edits, and writes all that is pending; whether that was done.
fn are_made<L: Lane + Drop>(kernel: &mut Kernel<L>, alloc: Global) -> bool {
    for number in 0..4u8 {
        let Some(fs) = Fs::new(number) else {
            return false;
        };
        for count in 0..EDITS {
            let Ok(edit) = edit_of(alloc, count, None, None) else {
                return false;
            };
            if kernel.propose(fs, u32::from(number) + 1, &edit).is_err() {
                return false;
            }
        }
    }
    settle(kernel, alloc, How::Drain, &mut Tally::new())
}
