// The steps of a write.

ghost use Rattle.std.specs.Prelude.{◌≡◌, ◌<◌, ◌≤◌, length};
ghost use Rattle.xn_model.specs.Worlds as model;
ghost use Rattle.xn_state.specs.Events.{reply_of};
ghost use Rattle.world.specs.Works.{done_reply, work_event};
ghost use Rattle.world.specs.Worlds.{world_with};

use crate::running::Running;
use crate::ticket::{DroppableTicket, Work};
use std::alloc::Allocator;
use xn_state::Reply;

impl<A: Allocator> Running<A> {
    /// A write of a block begins, and its ticket is kept. It is not inlined, so that no other event clears the room of a ticket for it.
    #[inline(never)]
    pub(crate) fn begin(&mut self, block: u32, reply: &mut Reply)
        ensures { model.Step (world_with self.old) (model.Begin block) (reply_of reply.new) (world_with self.new) }
    {
        match self.kernel.begin(block) {
            Err(refusal) => *reply = Reply::Refused(refusal),
            Ok(ticket) => {
                let entries = ticket.count();
                self.tickets.put(block, DroppableTicket::new(ticket));
                *reply = Reply::Begun { entries };
            }
        }
    }

    /// This work is done with the block of a begun write.
    #[inline(always)]
    pub(crate) fn work(&mut self, block: u32, work: Work, reply: &mut Reply)
        ensures { model.Step (world_with self.old) (work_event work block) (reply_of reply.new) (world_with self.new) }
    {
        match self.tickets.work(block, work) {
            None => *reply = Reply::NoTicket,
            Some(Ok(())) => *reply = done_reply(work),
            Some(Err(_fault)) => *reply = Reply::Fault,
        }
    }

    /// A block is read back, and its write ends. A write that isn't synced goes on. It is not inlined either.
    #[inline(never)]
    pub(crate) fn finish(&mut self, block: u32, reply: &mut Reply)
        ensures { model.Step (world_with self.old) (model.Finish block) (reply_of reply.new) (world_with self.new) }
    {
        let Some(ticket) = self.tickets.take(block) else {
            *reply = Reply::NoTicket;
            return;
        };
        match self.kernel.finish(ticket.into_ticket()) {
            Ok(landed) => *reply = Reply::Finished(landed),
            Err((ticket, refusal)) => {
                self.tickets.put(block, DroppableTicket::new(ticket));
                *reply = Reply::Refused(refusal);
            }
        }
    }
}

/// What is told of work that was done well.
#[inline(always)]
fn done_reply(work: Work) -> Reply
    ensures { reply_of result ≡ done_reply work }
{
    match work {
        Work::Land | Work::Fail { .. } => Reply::Landed,
        Work::Sync | Work::FailSync => Reply::Synced,
    }
}
