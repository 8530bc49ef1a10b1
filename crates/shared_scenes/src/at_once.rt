// Four workers and two flushers at once.

ghost use Rattle.std.specs.Prelude.{◌≡◌, ◌≢◌, All, IfOk};
ghost use Rattle.xn_state.specs.declared.call.Call.TheVariants.{Drain};

use crate::blocks::{edit_of, is, same};
use crate::lanes::Trouble;
use crate::scene::{Scene, play};
use crate::sharing::{Kernels, all_told, flush_at_once, start};
use durable_floor::{Naming, Reader};
use shared::worker;
use std::alloc::{AllocError, Global};
use std::process::Abort;
use std::sync::Wait;
use std::thread::{Threads, join, map_indices};
use store_types::BLOCK_LEN;
use xn_kernel::{Answer, Call, EditId, Fs};

/// How many file systems have a worker.
const SYSTEMS: u8 = 4;

/// How many edits each worker proposes.
const EDITS: u8 = 40;

/// A worker's edits of a block: byte `j` becomes `j + 1`.
fn edits(alloc: Global, block: u32) -> Result<Vec<Call>, AllocError>
    ensures { IfOk result (λ calls. All (λ call. call ≢ Drain) calls.items) }
{
    let mut calls = Vec::new(alloc);
    for byte in 0..EDITS {
        let edit = edit_of(alloc, u16::from(byte), &[byte + 1])?;
        calls.push(Call::Propose { block, edit })?;
    }
    Ok(calls)
}

/// The entries of a worker's answers; none where a call was refused or an entry isn't above the one before.
fn entries_of(alloc: Global, answers: &[Answer]) -> Result<Vec<u64>, AllocError> {
    let mut entries = Vec::new(alloc);
    let mut last = 0;
    for answer in answers {
        match answer {
            Answer::Propose(Ok(EditId(entry))) if *entry > last => last = *entry,
            _ => return Ok(Vec::new(alloc)),
        }
        entries.push(last)?;
    }
    Ok(entries)
}

/// One worker, for a file system and its block.
fn work<K: Naming, R: Wait + Abort>(
    rt: &R,
    alloc: Global,
    shared: &Kernels<K>,
    number: usize,
) -> Vec<u64> {
    let number = number.min(31) as u8;
    let fs = Fs::new(number).expect(rt, "a file system");
    let calls = edits(alloc, u32::from(number) + 1).expect(rt, "memory");
    let answers = worker(shared, rt, alloc, fs, &calls).expect(rt, "memory");
    entries_of(alloc, &answers).expect(rt, "memory")
}

/// Marks these numbers; whether each is one from 9 to 168 that was not marked.
fn mark(marked: &mut [bool; 169], entries: &[u64]) -> bool {
    let mut are_new = true;
    for entry in entries {
        match marked.get_mut(*entry as usize) {
            Some(place) if *entry > 8 && !*place => *place = true,
            _ => are_new = false,
        }
    }
    are_new
}

/// All workers at once, after which the flushers may end: whether their entries are those from 9 to 168.
fn are_nine_on<K: Naming + Send + Sync, R: Threads + Wait + Abort + Sync>(
    rt: &R,
    alloc: Global,
    shared: &Kernels<K>,
) -> bool {
    let worked = map_indices(
        rt,
        alloc,
        usize::from(SYSTEMS),
        &|at| work(rt, alloc, shared, at),
    );
    shared.stop();
    let mut marked = [false; 169];
    let mut are_right = true;
    for entries in &worked.expect(rt, "memory") {
        are_right = mark(&mut marked, entries) && entries.len() == 40 && are_right;
    }
    are_right
}

/// Bytes 0 to 39 are 1 to 40, and all others 0.
fn edited() -> [u8; BLOCK_LEN] {
    let mut bytes = [0; BLOCK_LEN];
    for byte in 0..EDITS {
        bytes[usize::from(byte)] = byte + 1;
    }
    bytes
}

/// Four workers, each on its own file system, and two flushers; what a reader that has not met sees before the first write is finished and
/// at the end; and the bytes that are left of each block.
pub fn run_at_once<K: Naming + Send + Sync, R: Threads + Wait + Abort + Sync>(
    rt: &R,
    alloc: Global,
    shared: &Kernels<K>,
    stranger: &mut Reader,
    reader: &mut Reader,
) -> [u8; BLOCK_LEN]
    requires stranger { stranger.old.floor ≡ K.floor }
    requires reader { reader.old.floor ≡ K.floor }
{
    start(rt, shared, SYSTEMS);
    same(rt, "no floor", shared.floor().read(stranger, 0), 0);
    let (writes, nine_on) = join(
        rt,
        || flush_at_once(rt, alloc, shared, 2),
        || are_nine_on(rt, alloc, shared),
    );
    assert!(rt; 5 <= writes && writes <= 168, "{writes} writes");
    is(rt, "the entries from 9 to 168", nine_on);
    same(rt, "a floor", shared.floor().read(stranger, 0), 169);
    all_told(rt, shared, reader, SYSTEMS, 169, &edited());
    edited()
}

#[test]
fn workers_and_flushers_at_once(rt: HostRuntime) {
    play(&rt, rt.alloc(), rt, Scene::AtOnce, Trouble::Nothing)
}
