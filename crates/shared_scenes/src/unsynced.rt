// A sync that fails ends a flusher with its ticket, and the write is then ended by hand.

use crate::alone::starts;
use crate::blocks::is;
use crate::lanes::{SceneLane, Trouble};
use crate::scene::{Scene, play};
use crate::sharing::{Kernels, finish, flushes, sync_and_finish};
use durable_floor::Naming;
use shared::{FlushEnd, Flusher};
use std::process::Abort;
use std::sync::Wait;
use xn_kernel::{Fs, Landed, Refusal, Store, Ticket};

/// The ticket of block 1, unsynced, with which a failed sync ends a flusher before it finished a write.
fn ticket_of<K: Naming, R: Wait>(rt: &R, shared: &Kernels<K>) -> Option<Ticket<SceneLane>> {
    let FlushEnd {
        writes,
        fault,
        ticket,
    } = Flusher::new(shared).run(rt);
    let ticket = ticket?;
    if writes == 0
        && fault == Some(Refusal::Device)
        && ticket.is_unsynced()
        && ticket.block() == 1
    {
        return Some(ticket);
    }
    let _lane = ticket.into_lane();
    None
}

/// Whether the lane of block 1 is at home.
fn is_home<K: Naming, R: Wait>(rt: &R, shared: &Kernels<K>) -> bool {
    shared.with(rt, |hub| hub.kernel().lane(1).is_some())
}

/// Finishes a write of block 1 that is refused until it is synced, and is then finished: why it is refused, what is finished, and whether the
/// block's lane is at home before both and after them.
fn finish_twice<K: Naming, R: Wait>(
    rt: &R,
    shared: &Kernels<K>,
) -> Option<(Refusal, Landed, [bool; 2])> {
    let ticket = ticket_of(rt, shared)?;
    let is_home_first = is_home(rt, shared);
    let (_landed, back) = finish(rt, shared, ticket);
    let (ticket, refusal) = back?;
    let landed = sync_and_finish(rt, shared, ticket)?;
    Some((refusal, landed, [is_home_first, is_home(rt, shared)]))
}

/// A start whose write of block 1 is not synced at once.
pub fn ends_by_hand<K: Naming, R: Wait + Abort>(rt: &R, shared: &Kernels<K>, fs: Fs) {
    starts(rt, shared, fs);
    shared.stop();
    let landed = Landed {
        durable: 1,
        freed: 0,
    };
    let finished = finish_twice(rt, shared);
    let wanted = Some((Refusal::NotSynced, landed, [false, true]));
    is(rt, "a write that is ended by hand", finished == wanted);
    flushes(rt, shared, 1, None);
}

#[test]
fn a_failed_sync_ends_a_flusher(rt: HostRuntime) {
    play(&rt, rt.alloc(), rt, Scene::Unsynced, Trouble::FirstSync)
}
