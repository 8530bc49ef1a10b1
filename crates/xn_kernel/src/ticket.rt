// A write that was begun.

ghost use Rattle.std.specs.Prelude.{◌≡◌, ◌⊎◌, ℕ, List, OnOk, OnErr, true, false};
ghost use Rattle.disk.specs.Lanes.{CountsOne, LeavesNoMore, LeavesOnly, LeavesAlso};
ghost use Rattle.xn_kernel.specs.Kernels.{TicketValue};

use disk::{DeviceFault, Lane, MemLane};
use std::alloc::Allocator;
use std::marker::Model;
use store_types::BLOCK_LEN;

/// A write that was begun: the block's lane, and the bytes that the block's safe entries leave.
///
/// A ticket has to be spent: by `Kernel::finish`, or by `into_lane`, which gives the write up.
pub struct Ticket<L: Lane> {
    pub(crate) kernel: u64,
    pub(crate) block: u32,
    pub(crate) count: u32,
    pub(crate) bytes: [u8; BLOCK_LEN],
    pub(crate) lane: L,
    pub(crate) unsynced: bool,
}

impl<L: Lane> Model for Ticket<L> {
    ghost use Rattle.std.specs.Prelude.{◌≡◌, false};
    ghost use Rattle.disk.specs.Lanes.{LeavesOnly};
    ghost use Rattle.xn_kernel.specs.Kernels.{TicketValue};

    ghost Value = { TicketValue L };

    ghost view = { λ a. record { kernel = a.kernel; block = a.block; count = a.count; bytes = a.bytes; lane = a.lane; unsynced = a.unsynced } };

    ghost invariant = { λ a. (L.number_of a.lane ≡ a.block) × (a.unsynced ≡ false → LeavesOnly (L.bytes_of a.lane) (L.crash_leaves a.lane)) };
}

impl<L: Lane> Ticket<L> {
    /// The block that is written.
    pub fn block(&self) -> u32
        ensures { result ≡ self.now.block }
    {
        self.block
    }

    /// How many entries the write carries.
    pub fn count(&self) -> u32
        ensures { result ≡ self.now.count }
    {
        self.count
    }

    /// The block's lane, for looking.
    pub fn lane(&self) -> &L
        ensures { result.now ≡ self.now.lane }
    {
        &self.lane
    }

    /// Takes the lane and gives the write up. The kernel still has the block in flight.
    pub fn into_lane(self) -> L
        ensures lane { result ≡ self.lane }
        ensures number { L.number_of result ≡ self.block }
    {
        let Ticket {
            kernel: _,
            block: _,
            count: _,
            bytes: _,
            lane,
            unsynced: _,
        } = self;
        lane
    }

    /// Whether it was written, well or not, since its last good sync.
    pub fn is_unsynced(&self) -> bool
        ensures { result ≡ self.now.unsynced }
    {
        self.unsynced
    }

    /// Writes the block once, with no lock. It may be called again. After `Ok` a read gives the
    /// ticket's bytes, after `Err` those or the ones before. A crash may leave what it might leave before, or
    /// the ticket's bytes.
    #[inline(always)]
    pub fn land(&mut self) -> Result<(), DeviceFault>
        ensures ticket { self.new ≡ record self.old { lane = self.new.lane; unsynced = true } }
        ensures number { L.number_of self.new.lane ≡ L.number_of self.old.lane }

        ensures landed { OnOk result (L.bytes_of self.new.lane ≡ self.old.bytes) }
        ensures old_or_new { OnErr result ((L.bytes_of self.new.lane ≡ L.bytes_of self.old.lane) ⊎ (L.bytes_of self.new.lane ≡ self.old.bytes)) }

        ensures crash { LeavesNoMore (LeavesAlso (L.crash_leaves self.old.lane) self.old.bytes) (L.crash_leaves self.new.lane) }

        ensures faults_ok { OnOk result (L.faults_of self.new.lane ≡ L.faults_of self.old.lane) }
        ensures faults_err { OnErr result (CountsOne (L.faults_of self.old.lane) (L.faults_of self.new.lane)) }
        ensures gives { L.write_gives self.old.lane self.old.bytes result self.new.lane }
    {
        self.unsynced = true;
        self.lane.write(&self.bytes)
    }

    /// Settles the block, with no lock. It may be called again. After `Ok` a crash leaves in it what a read gives.
    #[inline(always)]
    pub fn sync(&mut self) -> Result<(), DeviceFault>
        ensures ok { OnOk result (self.new ≡ record self.old { lane = self.new.lane; unsynced = false }) }
        ensures err { OnErr result (self.new ≡ record self.old { lane = self.new.lane }) }
        ensures number { L.number_of self.new.lane ≡ L.number_of self.old.lane }

        ensures bytes { L.bytes_of self.new.lane ≡ L.bytes_of self.old.lane }
        ensures settled { OnOk result (LeavesOnly (L.bytes_of self.new.lane) (L.crash_leaves self.new.lane)) }
        ensures crash { OnErr result (LeavesNoMore (L.crash_leaves self.old.lane) (L.crash_leaves self.new.lane)) }

        ensures faults_ok { OnOk result (L.faults_of self.new.lane ≡ L.faults_of self.old.lane) }
        ensures faults_err { OnErr result (CountsOne (L.faults_of self.old.lane) (L.faults_of self.new.lane)) }
        ensures gives { L.sync_gives self.old.lane result self.new.lane }
    {
        self.lane.sync()?;
        self.unsynced = false;
        Ok(())
    }
}

impl<A: Allocator> Ticket<MemLane<A>> {
    ghost use Rattle.std.specs.Prelude.{Some, true};

    /// Lets the next write of the block fail, and that one alone. The block then holds the new bytes or keeps the old ones, as
    /// asked here.
    pub fn fail_next_write(&mut self, new_bytes_stay: bool)
        ensures { self.new ≡ record self.old { lane = record self.old.lane { write_fault = Some new_bytes_stay } } }
    {
        self.lane.fail_write(new_bytes_stay);
    }

    /// Lets the next read of the block fail, and that one alone.
    pub fn fail_next_read(&mut self)
        ensures { self.new ≡ record self.old { lane = record self.old.lane { read_fault = true } } }
    {
        self.lane.fail_read();
    }

    /// Lets the next sync of the block fail, and that one alone.
    pub fn fail_next_sync(&mut self)
        ensures { self.new ≡ record self.old { lane = record self.old.lane { sync_fault = true } } }
    {
        self.lane.fail_sync();
    }
}
