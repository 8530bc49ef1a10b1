// A flusher is held in the middle of a write or of its sync, and an edit of its block is answered meanwhile.

use crate::blocks::{edit_of, is, letters, same};
use crate::lanes::{Hold, Trouble};
use crate::scene::{Scene, play};
use crate::sharing::{Kernels, flush_at_once};
use durable_floor::Naming;
use std::alloc::Global;
use std::process::Abort;
use std::sync::Wait;
use std::thread::{Threads, join};
use xn_kernel::{Edit, EditId, Fs, Store};

/// Once a write of each of so many blocks is held at once, edits the blocks in turn, and lets the writes go on where each edit was
/// given its entry. Whether each was.
fn edit_while_held<K: Naming, R: Wait>(
    rt: &R,
    shared: &Kernels<K>,
    hold: &Hold,
    fs: Fs,
    edit: &Edit,
    blocks: u32,
) -> bool {
    let mut is_edited = hold.wait_until_held(blocks);
    for number in 0..blocks {
        if is_edited {
            let edited = shared.with(rt, |hub| hub.propose(fs, number + 1, edit));
            is_edited = edited == Ok(EditId(u64::from(blocks) + u64::from(number) + 1));
        }
    }
    if is_edited {
        hold.answer();
    }
    shared.stop();
    is_edited
}

/// So many flushers, with a block for each, and one who edits the blocks that they write.
pub fn edits_beside<K: Naming + Send + Sync, R: Threads + Wait + Abort + Sync>(
    rt: &R,
    alloc: Global,
    shared: &Kernels<K>,
    hold: &Hold,
    fs: Fs,
    flushers: u32,
) {
    let edit = edit_of(alloc, 0, &[0x5a]).expect(rt, "memory");
    for number in 0..flushers {
        let begun = shared.with(rt, |hub| hub.init(fs, 2, &letters()));
        let wanted = (number.wrapping_add(1), EditId(u64::from(number) + 1));
        same(rt, "a block", begun, Ok(wanted));
    }
    let (writes, is_edited) = join(
        rt,
        || flush_at_once(rt, alloc, shared, flushers as usize),
        || edit_while_held(rt, shared, hold, fs, &edit, flushers),
    );
    is(rt, "edits while writes are held", is_edited);
    is(rt, "holds that are answered in time", hold.was_in_time());
    same(
        rt,
        "two writes of each block",
        writes,
        flushers.saturating_mul(2),
    );
}

#[test]
fn no_lock_is_held_at_the_gate(rt: HostRuntime) {
    play(&rt, rt.alloc(), rt, Scene::Held(1), Trouble::HeldGate)
}

#[test]
fn no_lock_is_held_in_a_write(rt: HostRuntime) {
    play(&rt, rt.alloc(), rt, Scene::Held(1), Trouble::HeldWrites)
}

#[test]
fn no_lock_is_held_in_two_syncs_at_once(rt: HostRuntime) {
    play(&rt, rt.alloc(), rt, Scene::Held(2), Trouble::HeldSyncs)
}
