// A world that is up: a disk with its kernel, as a store.

ghost use Rattle.std.specs.Prelude.{◌≡◌, ◌≢◌, ◌<◌, ◌-◌, length, IfOk, OnOk, false};
ghost use Rattle.std.specs.Io.KnownBytes.{Appends};
ghost use Rattle.xn_model.specs.Images.{block_of, joined};
ghost use Rattle.xn_model.specs.Calls.{free_of};
ghost use Rattle.xn_model.specs.Worlds as model;
ghost use Rattle.xn_model.specs.Rules.{Holds};
ghost use Rattle.xn_state.specs.Events.{event_of, reply_of, IsNoCrash};
ghost use Rattle.world.specs.Worlds.{world_with, value_of, IsWorld};

use crate::ticket::Work;
use crate::tickets::Tickets;
use crate::unmounted::{UnmountedDisk, crash_lanes, take_lanes_back, write_lanes};
use disk::MemLane;
use std::alloc::{AllocError, Allocator, Global};
use std::io;
use std::io::Write;
use std::marker::Model;
use store_types::BLOCK_LEN;
use xn_kernel::Kernel;
use xn_state::{Event, Reply};

mod calls;
mod steps;
mod store;

/// A world that is up: a disk in memory with its kernel, and the tickets of the writes that are under way. It is a store, whose calls are those of
/// clients, and a disk, whose events go on beside them.
pub struct Running<A: Allocator = Global> {
    pub(crate) alloc: Global,
    kernel: Kernel<MemLane<A>>,
    tickets: Tickets<A>,
}

impl<A: Allocator> Model for Running<A> {
    ghost use Rattle.world.specs.Worlds.{WorldValue, value_of, IsWorld};

    ghost Value = { WorldValue };

    ghost view = { λ a. value_of a.kernel a.tickets };

    ghost invariant = { λ a. IsWorld a.kernel a.tickets };
}

/// Written by hand, so that a function that drops one calls this: a derived drop is proved anew in each such function.
impl<A: Allocator> Drop for Running<A> {
    fn drop(self) {
        let Running {
            alloc: _,
            kernel: _,
            tickets: _,
        } = self;
    }
}

impl<A: Allocator> Running<A> {
    /// The disk of this kernel, with a place for each ticket.
    pub(crate) fn new(alloc: Global, kernel: Kernel<MemLane<A>>, tickets: Tickets<A>) -> Running<A>
        requires { IsWorld kernel tickets }
        ensures { result ≡ value_of kernel tickets }
    {
        Running {
            alloc,
            kernel,
            tickets,
        }
    }

    /// The kernel, to be asked: what would change it passes the tickets by.
    pub fn kernel(&self) -> &Kernel<MemLane<A>>
        ensures { result.now.state ≡ self.now.state }
    {
        &self.kernel
    }

    /// One event, any but a crash.
    pub fn step(&mut self, event: &Event) -> Reply
        requires { IsNoCrash event.now }
        ensures step { model.Step (world_with self.old) (event_of event.now) (reply_of result) (world_with self.new) }
        ensures rules { Holds (world_with self.new) }
    {
        let mut reply = Reply::Down;
        self.step_into(event, &mut reply);
        self.rules();
        reply
    }

    /// One event, any but a crash, whose reply is left in `reply`.
    #[inline(always)]
    pub(crate) fn step_into(&mut self, event: &Event, reply: &mut Reply)
        requires { IsNoCrash event.now }
        ensures step { model.Step (world_with self.old) (event_of event.now) (reply_of reply.new) (world_with self.new) }
        ensures rules { Holds (world_with self.old) }
    {
        self.rules();
        match event {
            Event::Call(fs, call) => self.call(*fs, call, reply),
            Event::Install(template) => self.install(template, reply),
            Event::Begin(block) => self.begin(*block, reply),
            Event::Land(block) => self.work(*block, Work::Land, reply),
            Event::Fail(block, stay) => self.work(
                *block,
                Work::Fail {
                    new_bytes_stay: *stay,
                },
                reply,
            ),
            Event::Sync(block) => self.work(*block, Work::Sync, reply),
            Event::FailSync(block) => self.work(*block, Work::FailSync, reply),
            Event::Finish(block) => self.finish(*block, reply),
            Event::Crash(_kept) => unreachable!(),
        }
    }

    /// How many blocks have a life, and how many are free.
    pub(crate) fn counts(&self) -> Reply
        ensures { reply_of result ≡ model.Mounted (length self.now.state.lives - free_of self.now.state) (free_of self.now.state) }
    {
        let free = self.kernel.state().free();
        Reply::Mounted {
            reached: self.blocks() as u32 - free,
            free,
        }
    }

    /// Drops the kernel, and lets the disk crash: the open writes of these blocks are kept, and no others. Every lane is at home
    /// then, with no open write; the writes that were under way are given up.
    pub(crate) fn unmount(self, kept: &[u32]) -> UnmountedDisk<A>
        ensures { result ≡ model.left (world_with self) kept.now }
    {
        let Running {
            alloc: _,
            kernel,
            mut tickets,
        } = self;
        let mut lanes = kernel.into_lanes();
        take_lanes_back(&mut lanes, &mut tickets);
        crash_lanes(&mut lanes, kept);
        UnmountedDisk::new(lanes, tickets)
    }

    /// The bytes that the disk holds now, block after block.
    pub fn image(&self) -> Result<Vec<u8>, AllocError>
        ensures { IfOk result (λ image. image.items ≡ joined self.now.image) }
    {
        self.image_into(Vec::new(self.alloc))
    }

    /// The same, in the memory of these bytes where that is enough.
    pub(crate) fn image_into(&self, room: Vec<u8>) -> Result<Vec<u8>, AllocError>
        ensures { IfOk result (λ image. image.items ≡ joined self.now.image) }
    {
        let blocks = self.blocks();
        let mut image = room;
        image.clear();
        image.reserve_exact(BLOCK_LEN.saturating_mul(blocks))?;
        for block in 0..blocks {
            image.extend_from_slice(self.block_bytes(block))?;
        }
        Ok(image)
    }

    /// Writes the bytes that the disk holds, block after block. The disk is given up for them, and what the kernel knew first.
    pub(crate) fn write_to<W: Write>(self, out: &mut W) -> io::Result<()>
        ensures { OnOk result (Appends (W.contents out.old) (W.contents out.new) (joined self.image)) }
    {
        let Running {
            alloc,
            kernel,
            mut tickets,
        } = self;
        let mut lanes = kernel.into_lanes();
        take_lanes_back(&mut lanes, &mut tickets);
        write_lanes(alloc, lanes, out)
    }

    /// The rules hold of every world. This does nothing.
    pub fn rules(&self)
        ensures { Holds (world_with self.now) }
    {
        let _kernel = &self.kernel;
    }

    /// It is up. This does nothing.
    pub(crate) fn is_up(&self)
        ensures { self.now.down ≡ false }
    {
        let _kernel = &self.kernel;
    }

    /// How many blocks the disk has.
    fn blocks(&self) -> usize
        ensures { result ≡ length self.now.image }
    {
        self.tickets.len()
    }

    /// The bytes of block 0 on the disk: its catalogue tells which templates a mount would find there.
    pub fn root_bytes(&self) -> &[u8; BLOCK_LEN]
        ensures { result.now ≡ block_of self.now.image 0 }
    {
        self.rules();
        self.block_bytes(0)
    }

    /// The bytes of one block, whose lane is at home or with a ticket.
    fn block_bytes(&self, block: usize) -> &[u8; BLOCK_LEN]
        requires { block < length self.now.image }
        ensures { result.now ≡ block_of self.now.image block }
    {
        match self.kernel.lane(block as u32) {
            Some(lane) => lane.bytes(),
            None => match self.tickets.get(block as u32) {
                Some(ticket) => ticket.ticket().lane().bytes(),
                None => unreachable!(),
            },
        }
    }
}
