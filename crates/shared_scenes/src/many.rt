// Eight file systems and four flushers, over lanes that fail now and then.

ghost use Rattle.std.specs.Prelude.{◌≡◌};

use crate::blocks::{edit_of, is};
use crate::lanes::Trouble;
use crate::scene::{Scene, play};
use crate::sharing::{Kernels, all_told, start, sync_and_finish};
use durable_floor::{Naming, Reader};
use shared::{FlushEnd, Flusher};
use std::alloc::Global;
use std::process::Abort;
use std::sync::Wait;
use std::thread;
use std::thread::{Threads, join, map_indices};
use store_types::BLOCK_LEN;
use xn_kernel::{Edit, Fs, Refusal, Store};

/// How many file systems have a worker.
const SYSTEMS: u8 = 8;

/// How many edits each file system proposes.
const EDITS: u32 = 2500;

/// The place of a number in a block, of four bytes.
fn place(number: u32) -> u16 {
    (number % 128 * 4) as u16
}

/// Proposes an edit until there is room for it; whether that was so in time.
fn propose<K: Naming, R: Wait>(
    rt: &R,
    shared: &Kernels<K>,
    fs: Fs,
    block: u32,
    edit: &Edit,
) -> bool {
    for _ in 0..10_000_000 {
        match shared.with(rt, |hub| hub.propose(fs, block, edit)) {
            Ok(_) => return true,
            Err(Refusal::TooManyPending) => thread::yield_now(),
            Err(_) => return false,
        }
    }
    false
}

/// All edits of a file system's block; whether each was accepted.
fn work<K: Naming, R: Wait + Abort>(
    rt: &R,
    alloc: Global,
    shared: &Kernels<K>,
    number: usize,
) -> bool {
    let number = number.min(31) as u8;
    let fs = Fs::new(number).expect(rt, "a file system");
    let block = u32::from(number) + 1;
    let mut is_good = true;
    for count in 0..EDITS {
        let edit = edit_of(alloc, place(count), &count.to_le_bytes()).expect(rt, "memory");
        is_good = is_good && propose(rt, shared, fs, block, &edit);
    }
    is_good
}

/// All workers at once, after which the flushers may end; whether each edit was accepted.
fn work_at_once<K: Naming + Send + Sync, R: Threads + Wait + Abort + Sync>(
    rt: &R,
    alloc: Global,
    shared: &Kernels<K>,
) -> bool {
    let worked = map_indices(
        rt,
        alloc,
        usize::from(SYSTEMS),
        &|at| work(rt, alloc, shared, at),
    );
    shared.stop();
    let mut is_good = true;
    for is_done in &worked.expect(rt, "memory") {
        is_good = is_good && *is_done;
    }
    is_good
}

/// Flushes on after each device fault: how many writes and how many syncs failed, and none where a flusher ended otherwise.
fn flush<K: Naming, R: Wait>(rt: &R, shared: &Kernels<K>) -> Option<(u32, u32)> {
    let (mut failed_writes, mut failed_syncs) = (0u32, 0u32);
    for _ in 0..100_000 {
        let FlushEnd {
            writes: _,
            fault,
            ticket,
        } = Flusher::new(shared).run(rt);
        let is_device = fault == Some(Refusal::Device);
        match ticket {
            Some(ticket) => {
                let landed = sync_and_finish(rt, shared, ticket);
                if !is_device || landed.is_none() {
                    return None;
                }
                failed_syncs = failed_syncs.saturating_add(1);
            }
            None if is_device => failed_writes = failed_writes.saturating_add(1),
            None if fault.is_none() => return Some((failed_writes, failed_syncs)),
            None => return None,
        }
    }
    None
}

/// Four flushers at once: how many writes and how many syncs failed.
fn flush_at_once<K: Naming + Send + Sync, R: Threads + Wait + Abort + Sync>(
    rt: &R,
    alloc: Global,
    shared: &Kernels<K>,
) -> (u32, u32) {
    let ends = map_indices(rt, alloc, 4, &|_| flush(rt, shared));
    let (mut all_writes, mut all_syncs) = (0u32, 0u32);
    for end in &ends.expect(rt, "memory") {
        let (writes, syncs) = end.expect(rt, "a flusher");
        all_writes = all_writes.saturating_add(writes);
        all_syncs = all_syncs.saturating_add(syncs);
    }
    (all_writes, all_syncs)
}

/// Each place has the last number that was proposed for it.
fn last_numbers() -> [u8; BLOCK_LEN] {
    let mut bytes = [0; BLOCK_LEN];
    for number in 0..EDITS {
        let at = usize::from(place(number));
        for (i, byte) in number.to_le_bytes().iter().enumerate() {
            if let Some(to) = bytes.get_mut(at.wrapping_add(i)) {
                *to = *byte;
            }
        }
    }
    bytes
}

/// Eight workers and four flushers at once, and the bytes that are left of each block.
pub fn run_many<K: Naming + Send + Sync, R: Threads + Wait + Abort + Sync>(
    rt: &R,
    alloc: Global,
    shared: &Kernels<K>,
    reader: &mut Reader,
) -> [u8; BLOCK_LEN]
    requires { reader.old.floor ≡ K.floor }
{
    start(rt, shared, SYSTEMS);
    let (is_worked, (writes, syncs)) = join(
        rt,
        || work_at_once(rt, alloc, shared),
        || flush_at_once(rt, alloc, shared),
    );
    is(rt, "all edits", is_worked);
    is(rt, "writes that fail", writes > 0);
    is(rt, "syncs that fail", syncs > 0);
    all_told(rt, shared, reader, SYSTEMS, 20_017, &last_numbers());
    last_numbers()
}

#[test]
fn many_edits_over_failing_lanes(rt: HostRuntime) {
    play(&rt, rt.alloc(), rt, Scene::Many, Trouble::NowAndThen)
}
