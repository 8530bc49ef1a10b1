// How a kernel comes to be shared, how its file systems start and are told, how a flusher ends, and how a write is finished by hand.

ghost use Rattle.std.specs.Prelude.{◌≡◌};
ghost use Rattle.durable_floor.specs.Rules.{zero_floor};

use crate::blocks::same;
use crate::lanes::{SceneGate, SceneLane};
use crash_check::mount;
use disk::Lanes;
use durable_floor::{Floor, Naming, Publisher, Reader};
use shared::{FlushEnd, Flusher, Hub, Shared};
use std::alloc::{AllocError, Global};
use std::process::Abort;
use std::sync::{Arc, Wait};
use std::thread::{Threads, map_indices};
use store_types::BLOCK_LEN;
use xn_kernel::{EditId, Fs, Kernel, Landed, Refusal, Store, Ticket};

/// The kernel of a scene.
pub type Kernels<K> = Shared<SceneLane, SceneGate, K>;

/// The kernel of a disk.
pub fn mounted<R: Threads + Abort + Sync>(
    rt: &R,
    alloc: Global,
    lanes: Lanes<SceneLane>,
) -> Kernel<SceneLane> {
    match mount(rt, alloc, lanes, 1) {
        Ok(kernel) => kernel,
        Err((fault, _)) => panic!(rt; "no mount: {fault}"),
    }
}

/// A kernel that threads may share, with a floor that nobody has raised.
pub fn share<K: Naming>(
    alloc: Global,
    kernel: Kernel<SceneLane>,
    floor: Floor,
    publisher: Publisher,
    gate: SceneGate,
) -> Result<Kernels<K>, AllocError>
    requires floor { floor ≡ K.floor }
    requires publisher { publisher ≡ record { floor = floor; seen = zero_floor } }
{
    let floor = Arc::new(alloc, floor)?;
    let hub = Hub::new(kernel, publisher, Arc::try_clone(&floor)?);
    Ok(Shared::new(hub, floor, gate))
}

/// A block of a file system, begun and rooted: what both calls answer.
pub fn begin<K: Naming, R: Wait>(
    rt: &R,
    shared: &Kernels<K>,
    fs: Fs,
    block: u32,
    bytes: &[u8; BLOCK_LEN],
) -> (Result<(u32, EditId), Refusal>, Result<EditId, Refusal>) {
    shared.with(rt, |hub| (hub.init(fs, 2, bytes), hub.make_root(fs, block)))
}

/// A block of each of so many file systems, rooted: the blocks and the entries from 1 on.
pub fn start<K: Naming, R: Wait + Abort>(rt: &R, shared: &Kernels<K>, systems: u8) {
    for number in 0..systems {
        let fs = Fs::new(number).expect(rt, "a file system");
        let block = u32::from(number) + 1;
        let entry = 2 * u64::from(number) + 1;
        let begun = begin(rt, shared, fs, block, &[0; BLOCK_LEN]);
        let wanted = (Ok((block, EditId(entry))), Ok(EditId(entry + 1)));
        same(rt, "a block and a root", begun, wanted);
    }
}

/// How many entries of a file system are pending, and whether its block has these bytes.
pub fn found<K: Naming, R: Wait>(
    rt: &R,
    shared: &Kernels<K>,
    fs: Fs,
    block: u32,
    bytes: &[u8; BLOCK_LEN],
) -> (u32, bool) {
    shared.with(
        rt,
        |hub| (hub.pending(fs), hub.read(fs, block) == Ok(bytes)),
    )
}

/// Each of these file systems is told this floor, nothing of it is pending, and its block has these bytes.
pub fn all_told<K: Naming, R: Wait + Abort>(
    rt: &R,
    shared: &Kernels<K>,
    reader: &mut Reader,
    systems: u8,
    floor: u64,
    bytes: &[u8; BLOCK_LEN],
)
    requires { reader.old.floor ≡ K.floor }
{
    for number in 0..systems {
        let fs = Fs::new(number).expect(rt, "a file system");
        let met = shared.meet(rt, fs, reader);
        let (pending, is_right) = found(rt, shared, fs, u32::from(number) + 1, bytes);
        let left = (number, met, pending, is_right);
        same(rt, "a file system", left, (number, floor, 0, true));
    }
}

/// Flushes until it is stopped or meets a fault: how many writes were made, the fault, and whether a ticket was left, which is given up.
pub fn flush<K: Naming, R: Wait>(rt: &R, shared: &Kernels<K>) -> (u32, Option<Refusal>, bool) {
    let FlushEnd {
        writes,
        fault,
        ticket,
    } = Flusher::new(shared).run(rt);
    match ticket {
        Some(ticket) => {
            let _lane = ticket.into_lane();
            (writes, fault, true)
        }
        None => (writes, fault, false),
    }
}

/// Flushes, which makes so many writes and meets this fault, or none, and leaves no ticket.
pub fn flushes<K: Naming, R: Wait + Abort>(
    rt: &R,
    shared: &Kernels<K>,
    writes: u32,
    fault: Option<Refusal>,
) {
    same(rt, "a flush", flush(rt, shared), (writes, fault, false));
}

/// How many writes a flusher made that met no fault.
fn flush_well<K: Naming, R: Wait>(rt: &R, shared: &Kernels<K>) -> Option<u32> {
    match flush(rt, shared) {
        (writes, None, false) => Some(writes),
        _ => None,
    }
}

/// How many writes so many flushers make at once, none of which meets a fault.
pub fn flush_at_once<K: Naming + Send + Sync, R: Threads + Wait + Abort + Sync>(
    rt: &R,
    alloc: Global,
    shared: &Kernels<K>,
    flushers: usize,
) -> u32 {
    let ends = map_indices(rt, alloc, flushers, &|_| flush_well(rt, shared));
    let mut all = 0u32;
    for writes in &ends.expect(rt, "memory") {
        all = all.saturating_add(writes.expect(rt, "a flusher"));
    }
    all
}

/// Takes the lock, and finishes a write: what that made durable, or the ticket and why it was refused.
pub fn finish<K: Naming, R: Wait>(
    rt: &R,
    shared: &Kernels<K>,
    ticket: Ticket<SceneLane>,
) -> (Option<Landed>, Option<(Ticket<SceneLane>, Refusal)>) {
    let mut held = Some(ticket);
    let finished = shared.with(rt, |hub| Some(hub.finish(held.take()?)));
    if let Some(ticket) = held {
        let _lane = ticket.into_lane();
    }
    match finished {
        Some(Ok(landed)) => (Some(landed), None),
        Some(Err(back)) => (None, Some(back)),
        None => (None, None),
    }
}

/// Syncs a write and finishes it; `None` where either is refused, and the write is then given up.
pub fn sync_and_finish<K: Naming, R: Wait>(
    rt: &R,
    shared: &Kernels<K>,
    mut ticket: Ticket<SceneLane>,
) -> Option<Landed> {
    let _synced = ticket.sync();
    let (landed, back) = finish(rt, shared, ticket);
    if let Some((ticket, _)) = back {
        let _lane = ticket.into_lane();
    }
    landed
}
