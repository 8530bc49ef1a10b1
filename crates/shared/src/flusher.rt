// The threads that write blocks.

ghost use Rattle.std.specs.Prelude.{◌≡◌, Some, None, false, IfNone, IfSome, IfOk, IfErr, IsTrue};
ghost use Rattle.shared.specs.Flushers.{CouldNotSync, FlusherEnds, TurnEnds, TurnFails, HasBegun, NothingToWrite, Finishes, FinishRefuses, writes_after};

use crate::hub::Hub;
use crate::lock::{Gate, Held, Locked};
use crate::sharing::Shared;
use disk::{DeviceFault, Lane};
use durable_floor::Naming;
use std::sync::Wait;
use std::thread;
use xn_kernel::{Landed, Refusal, Ticket};

/// How a flusher ended.
pub struct FlushEnd<L: Lane> {
    /// How many of its finishes made entries durable; from 2^32 - 1 on it counts no further.
    pub writes: u32,
    /// Why it ended, if not by the stop flag.
    pub fault: Option<Refusal>,
    /// The write that could not be synced or finished: its block is still in flight.
    pub ticket: Option<Ticket<L>>,
}

/// One who writes the blocks of a kernel that threads share.
#[derive(Drop)]
pub struct Flusher<'a, H: Held, G: Gate> {
    shared: &'a Locked<H, G>,
}

impl<'a, L: Lane, G: Gate, K: Naming> Flusher<'a, Hub<L, K>, G> {
    /// A flusher of this kernel.
    pub fn new(shared: &'a Shared<L, G, K>) -> Flusher<'a, Hub<L, K>, G> {
        Flusher { shared }
    }

    /// Writes block after block and syncs each, with no lock held, and finishes each under the lock. It ends
    /// - once the stop flag is set and no block may be written;
    /// - with `Device` after a write that the device failed, which is synced and finished too;
    /// - with `Device` and the ticket where a sync fails, be the write itself well done or not: the ticket is still unsynced,
    ///   and its block stays in flight, so that it may be synced again and finished;
    /// - with the refusal and the ticket after a finish that is refused, of a write that is synced.
    pub fn run<R: Wait>(&self, rt: &R) -> FlushEnd<L>
        ensures ends { FlusherEnds L.bytes_of L.crash_leaves L.faults_of L.write_gives L.sync_gives L.read_gives result.writes result.fault result.ticket }
        ensures none { IfNone result.fault (result.ticket ≡ None) }
        ensures unsynced { IfSome result.ticket (λ ticket. IsTrue ticket.unsynced →
            (result.fault ≡ Some Refusal.Device) × CouldNotSync L.sync_gives ticket.lane) }
    {
        let mut writes = 0u32;
        for _ in rt.forever() {
            // The flag is read before the look: what was pending when it was set is written.
            let stopped = self.shared.is_stopped();
            let Some(ticket) = self.begin(rt) else {
                if stopped {
                    return flush_end(writes, None, None);
                }
                thread::yield_now();
                continue;
            };
            match self.turn(rt, ticket) {
                Err((ticket, refusal)) => return flush_end(writes, Some(refusal), Some(ticket)),
                Ok((written, durable)) => {
                    writes = counted(writes, durable);
                    if written.is_err() {
                        return flush_end(writes, Some(Refusal::Device), None);
                    }
                }
            }
        }
        unreachable!()
    }

    /// Takes the lock, and begins the write of a block where one may be written.
    fn begin<R: Wait>(&self, rt: &R) -> Option<Ticket<L>>
        ensures none { IfNone result (NothingToWrite L.bytes_of L.crash_leaves) }
        ensures begun { IfSome result (HasBegun L.bytes_of L.crash_leaves) }
    {
        let mut hub = self.shared.held.lock(rt);
        hub.is_sound();
        let block = hub.kernel().state().pick()?;
        let Ok(ticket) = hub.begin(block) else {
            unreachable!()
        };
        Some(ticket)
    }

    /// Writes and syncs a block with no lock held, and finishes it under the lock. Answers what the write answered, and how many entries
    /// are durable; or gives the ticket back, where the sync failed (`Device`) or the finish was refused.
    fn turn<R: Wait>(
        &self,
        rt: &R,
        mut ticket: Ticket<L>,
    ) -> Result<(Result<(), DeviceFault>, u32), (Ticket<L>, Refusal)>
        requires { HasBegun L.bytes_of L.crash_leaves ticket }
        ensures ok { IfOk result (λ done. TurnEnds L.bytes_of L.crash_leaves L.faults_of L.write_gives L.sync_gives L.read_gives done.0 done.1) }
        ensures err { IfErr result (λ back. TurnFails L.bytes_of L.crash_leaves L.faults_of L.write_gives L.sync_gives L.read_gives back.1 back.0) }
    {
        let block = ticket.block();
        self.shared.gate.begun(block);
        let written = ticket.land();
        self.shared.gate.landed(block);
        if ticket.sync().is_err() {
            return Err((ticket, Refusal::Device));
        }
        match self.finish(rt, ticket) {
            Ok(landed) => Ok((written, landed.durable)),
            Err(back) => Err(back),
        }
    }

    /// Takes the lock, and finishes a write that is synced.
    fn finish<R: Wait>(&self, rt: &R, ticket: Ticket<L>) -> Result<Landed, (Ticket<L>, Refusal)>
        requires { ticket.unsynced ≡ false }
        ensures ok { IfOk result (λ landed. Finishes L.bytes_of L.crash_leaves L.read_gives ticket landed.durable) }
        ensures err { IfErr result (λ back. FinishRefuses L.bytes_of L.crash_leaves L.faults_of L.read_gives ticket back.1 back.0) }
    {
        let mut hub = self.shared.held.lock(rt);
        hub.is_sound();
        hub.finish(ticket)
    }
}

/// A count of writes after one that made so many entries durable.
fn counted(writes: u32, durable: u32) -> u32
    ensures { result ≡ writes_after writes durable }
{
    if durable > 0 {
        writes.saturating_add(1)
    } else {
        writes
    }
}

/// The end of a flusher.
fn flush_end<L: Lane>(writes: u32, fault: Option<Refusal>, ticket: Option<Ticket<L>>) -> FlushEnd<L>
    ensures { (result.writes ≡ writes) × (result.fault ≡ fault) × (result.ticket ≡ ticket) }
{
    FlushEnd {
        writes,
        fault,
        ticket,
    }
}
