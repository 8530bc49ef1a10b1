// A ticket that may be dropped.

ghost use Rattle.std.specs.Prelude.{◌≡◌};
ghost use Rattle.world.specs.Works.{Works};

use disk::{DeviceFault, MemLane};
use std::alloc::Allocator;
use std::marker::Model;
use xn_kernel::Ticket;

/// What is done with the block of a write that is under way.
#[derive(Clone, Copy)]
pub enum Work {
    /// It is written.
    Land,
    /// Its write fails, and it holds the new bytes or the old ones.
    Fail { new_bytes_stay: bool },
    /// It is synced.
    Sync,
    /// Its sync fails.
    FailSync,
}

/// The ticket of a write that is under way. Where it is dropped, the write is given up.
pub struct DroppableTicket<A: Allocator> {
    ticket: Ticket<MemLane<A>>,
}

impl<A: Allocator> Model for DroppableTicket<A> {
    ghost use Rattle.disk.specs.Mem.{MemoryLane};
    ghost use Rattle.xn_kernel.specs.Kernels.{TicketValue};

    ghost Value = { TicketValue MemoryLane };

    ghost view = { λ a. a.ticket };
}

impl<A: Allocator> Drop for DroppableTicket<A> {
    fn drop(self) {
        let DroppableTicket { ticket } = self;
        let _lane = ticket.into_lane();
    }
}

impl<A: Allocator> DroppableTicket<A> {
    pub fn new(ticket: Ticket<MemLane<A>>) -> DroppableTicket<A>
        ensures { result ≡ ticket }
    {
        DroppableTicket { ticket }
    }

    pub fn into_ticket(self) -> Ticket<MemLane<A>>
        ensures { result ≡ self }
    {
        let DroppableTicket { ticket } = self;
        ticket
    }

    /// Takes the lane and gives the write up.
    pub fn into_lane(self) -> MemLane<A>
        ensures lane { result ≡ self.lane }
        ensures number { result.number ≡ self.block }
    {
        self.into_ticket().into_lane()
    }

    /// The ticket, for looking.
    pub fn ticket(&self) -> &Ticket<MemLane<A>>
        ensures { result.now ≡ self.now }
    {
        &self.ticket
    }

    /// Does this work with the block.
    pub fn work(&mut self, work: Work) -> Result<(), DeviceFault>
        ensures { Works work self.old result self.new }
    {
        match work {
            Work::Land => self.ticket.land(),
            Work::Fail { new_bytes_stay } => {
                self.ticket.fail_next_write(new_bytes_stay);
                self.ticket.land()
            }
            Work::Sync => self.ticket.sync(),
            Work::FailSync => {
                self.ticket.fail_next_sync();
                self.ticket.sync()
            }
        }
    }
}
