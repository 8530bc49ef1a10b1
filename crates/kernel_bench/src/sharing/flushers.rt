// Flushers at once, over a kernel that threads share.

use crate::sharing::lanes::WaitingLane;
use durable_floor::Naming;
use shared::{FlushEnd, Flusher, Gate, Shared};
use std::alloc::Global;
use std::sync::Wait;
use std::thread::{Threads, map_indices};

/// A gate that lets all pass.
#[derive(Drop)]
pub struct Open;

impl Gate for Open {
    fn begun(&self, _block: u32) {}

    fn landed(&self, _block: u32) {}
}

/// A kernel that threads share.
pub type Kernels<K> = Shared<WaitingLane, Open, K>;

/// Flushes until it is stopped; whether it ended well.
fn flush<K: Naming, R: Wait>(rt: &R, shared: &Kernels<K>) -> bool {
    let FlushEnd {
        writes: _,
        fault,
        ticket,
    } = Flusher::new(shared).run(rt);
    match ticket {
        Some(ticket) => {
            let _lane = ticket.into_lane();
            false
        }
        None => fault.is_none(),
    }
}

/// Lets so many flushers run until they are stopped; whether all ended well.
pub fn flush_at_once<K: Naming + Send + Sync, R: Threads + Wait + Sync>(
    rt: &R,
    alloc: Global,
    shared: &Kernels<K>,
    flushers: usize,
) -> bool {
    let mut are_good = true;
    match map_indices(rt, alloc, flushers, &|_| flush(rt, shared)) {
        Ok(ends) => for is_good in &ends {
            are_good = are_good && *is_good;
        },
        Err(_) => are_good = false,
    }
    are_good
}
