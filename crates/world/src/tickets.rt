// The tickets of the writes that are under way, by block.

ghost use Rattle.std.specs.Prelude.{◌≡◌, ◌++◌, ◌+◌, ◌-◌, ◌<◌, ◌≤◌, length, replicate, [], Some, None, IfOk, IfSome, IfNone, slice_set, vec_capacity};
ghost use Rattle.std.specs.Option.{option_copied};
ghost use Rattle.world.specs.Disks.{ticket_at};
ghost use Rattle.world.specs.Works.{IsWorked};

use crate::ticket::{DroppableTicket, Work};
use disk::DeviceFault;
use std::alloc::{AllocError, Allocator, Global};
use std::marker::Model;

/// A place for the ticket of each block. The memory for all of them is taken at once, but a place is written only once a block
/// from there on gets a ticket: no mount goes through that memory.
pub struct Tickets<A: Allocator> {
    blocks: usize,
    /// The first places; all behind them are empty.
    front: Vec<Option<DroppableTicket<A>>>,
}

impl<A: Allocator> Model for Tickets<A> {
    ghost use Rattle.std.specs.Prelude.{◌≤◌, length, vec_capacity};
    ghost use Rattle.world.specs.Disks.{all_places};
    ghost use Rattle.world.specs.Worlds.{Tickets as Places};

    ghost Value = { Places };

    ghost view = { λ a. all_places a.blocks a.front.items };

    ghost invariant = { λ a. (length a.front.items ≤ a.blocks) × (a.blocks ≤ vec_capacity a.front) };
}

/// Written by hand, so that a function that drops one calls this: a derived drop is proved anew in each such function.
impl<A: Allocator> Drop for Tickets<A> {
    fn drop(self) {
        let Tickets {
            blocks: _,
            front: _,
        } = self;
    }
}

impl<A: Allocator> Tickets<A> {
    /// An empty place for each block.
    pub fn new(alloc: Global, blocks: usize) -> Result<Tickets<A>, AllocError>
        ensures { IfOk result (λ tickets. tickets ≡ replicate blocks None) }
    {
        let front = Vec::with_capacity(alloc, blocks)?;
        Ok(Tickets { blocks, front })
    }

    /// No place.
    pub fn none(alloc: Global) -> Tickets<A>
        ensures { result ≡ [] }
    {
        Tickets {
            blocks: 0,
            front: Vec::new(alloc),
        }
    }

    /// How many places there are.
    pub fn len(&self) -> usize
        ensures { result ≡ length self.now }
    {
        self.blocks
    }

    /// The ticket of a block, for looking.
    pub fn get(&self, block: u32) -> Option<&DroppableTicket<A>>
        ensures { option_copied result ≡ ticket_at self.now block }
    {
        match self.front.get(block as usize) {
            Some(Some(ticket)) => Some(ticket),
            Some(None) => None,
            None => None,
        }
    }

    /// Puts a ticket into the place of a block.
    pub fn put(&mut self, block: u32, ticket: DroppableTicket<A>)
        requires { block < length self.old }
        ensures { self.new ≡ slice_set self.old block (Some ticket) }
    {
        make_places(&mut self.front, block as usize + 1);
        self.front[block as usize] = Some(ticket);
    }

    /// Takes the ticket of a block, whose place is then empty.
    pub fn take(&mut self, block: u32) -> Option<DroppableTicket<A>>
        ensures ticket { result ≡ ticket_at self.old block }
        ensures rest { self.new ≡ slice_set self.old block None }
    {
        if block as usize >= self.front.len() {
            return None;
        }
        self.front[block as usize].take()
    }

    /// Does this work with a block, if there is a ticket for it.
    pub fn work(&mut self, block: u32, work: Work) -> Option<Result<(), DeviceFault>>
        ensures { IsWorked work self.old block result self.new }
    {
        if block as usize >= self.front.len() {
            return None;
        }
        match &mut self.front[block as usize] {
            None => None,
            Some(ticket) => Some(ticket.work(work)),
        }
    }
}

/// Makes so many places, or leaves them where there are as many.
fn make_places<A: Allocator>(front: &mut Vec<Option<DroppableTicket<A>>>, count: usize)
    requires { count ≤ vec_capacity front.old }
    ensures made { front.new.items ≡ front.old.items ++ replicate (count - length front.old.items) None }
    ensures capacity { vec_capacity front.new ≡ vec_capacity front.old }
{
    for _place in front.len()..count {
        front.push_reserved(None);
    }
}
