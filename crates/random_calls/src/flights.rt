// The calls that write blocks.

use crate::held::Held;
use crate::run::Run;
use crate::tally::{Kind, Met};
use crate::writes::{Write, drain};
use disk::MemLane;
use std::alloc::{AllocError, Global};
use store_types::BLOCK_LEN;
use xn_kernel::{Kernel, Refusal};

/// A device's answer as a number.
fn code(is_well: bool) -> u64 {
    if is_well { 1 } else { 0 }
}

impl Run {
    /// A block other than block 0 whose write may begin, from one on; where there is none, that one.
    fn ready_from(&self, start: u32) -> u32 {
        for step in 0..self.record.blocks {
            let block = self.record.behind(start, step);
            if block != 0 && self.record.next_begin(block).is_ok() {
                return block;
            }
        }
        start
    }

    /// Begins a write: of this block, or of one that is ready. Block 0 is mostly passed over, so that types stay pending.
    pub fn begin(&mut self, kernel: &mut Kernel<MemLane>, block: u32) -> Result<(), AllocError> {
        let block = match self.numbers.below(16) {
            0..=1 => self.record.pick().unwrap_or(block),
            2..=8 => self.ready_from(block),
            _ => block,
        };
        let wanted = match self.record.next_begin(block) {
            Ok(count) => Ok((count, 0)),
            Err(refusal) => Err(refusal),
        };
        let bytes = self.record.bytes_after(block, wanted.unwrap_or((0, 0)).0);
        match Write::begin(kernel, block, bytes) {
            Ok((write, count)) => {
                self.tally.take(Kind::Begin, Ok((count, 0)), wanted);
                self.record.begin(block, count);
                self.writes.push(write)?;
            }
            Err(refusal) => self.tally.take(Kind::Begin, Err(refusal), wanted),
        }
        Ok(())
    }

    /// Compares a write that is under way with what the rules say of it.
    fn look(&mut self, write: &Write) {
        let held = self.record.held(write.block());
        self.tally.check(*write.newest() == held.newest);
        self.tally.check(write.is_right());
        self.tally.check(write.is_unsynced == held.given.is_some());
    }

    /// Carries a write out; one of four fails, and half of those leave the old bytes.
    fn land(&mut self, write: &mut Write) {
        let fails = self.numbers.below(4) == 0;
        let stays = self.numbers.below(2) == 0;
        let is_well = write.land(fails, stays);
        self.tally.ask(code(is_well), code(!fails));
        let block = write.block();
        let mut held = self.record.held(block);
        held.write(&write.bytes, !fails || stays);
        self.record.hold(block, held);
        self.look(write);
    }

    /// Settles the block of a write; one of eight syncs fails.
    fn sync(&mut self, write: &mut Write) {
        let fails = self.numbers.below(8) == 0;
        let is_well = write.sync(fails);
        self.tally.ask(code(is_well), code(!fails));
        self.tally
            .add(if is_well { Met::Synced } else { Met::Unsynced }, 1);
        let block = write.block();
        let mut held = self.record.held(block);
        if !fails {
            held.sync();
        }
        self.record.hold(block, held);
        self.look(write);
    }

    /// What the rules say of the end of a write, and its part in the record.
    fn settle(&mut self, write: &Write) -> Result<(u32, u64), Refusal> {
        let block = write.block();
        let held = self.record.held(block);
        if held.given.is_some() {
            return Err(Refusal::NotSynced);
        }
        let begun = match self.record.life(block) {
            Some(life) => life.begun.unwrap_or(0),
            None => 0,
        };
        let count = if held.newest == write.bytes { begun } else { 0 };
        let freed = self.record.settle(block, count);
        self.tally.add(Met::Durable, count);
        self.tally.add(Met::Freed, freed);
        Ok((count, u64::from(freed)))
    }

    /// Finishes a write. Where that is refused, the write is as it was, and the block is in flight still.
    fn finish(&mut self, kernel: &mut Kernel<MemLane>, write: Write) -> Result<(), AllocError> {
        let wanted = self.settle(&write);
        match write.finish(kernel) {
            Ok(landed) => {
                let answer = Ok((landed.durable, u64::from(landed.freed)));
                self.tally.take(Kind::Finish, answer, wanted);
                Ok(())
            }
            Err((write, refusal)) => {
                self.tally.take(Kind::Finish, Err(refusal), wanted);
                self.look(&write);
                self.refuse_begin(kernel, write.block());
                self.writes.push(write)?;
                Ok(())
            }
        }
    }

    /// Asks for a second write of a block that is in flight.
    fn refuse_begin(&mut self, kernel: &mut Kernel<MemLane>, block: u32) {
        match Write::begin(kernel, block, [0; BLOCK_LEN]) {
            Ok(_) => self.tally.check(false),
            Err(refusal) => self.tally.check(refusal == Refusal::InFlight),
        }
    }

    /// The next step of one of the writes that are under way, if there is one, or all steps that are left.
    pub fn go_on(&mut self, kernel: &mut Kernel<MemLane>) -> Result<(), AllocError> {
        let at = usize::from(self.numbers.below(6));
        let count = self.writes.len();
        if count == 0 {
            return Ok(());
        }
        let mut write = self.writes.swap_remove(at % count);
        match self.numbers.below(8) {
            0..=1 => self.land(&mut write),
            2 => self.sync(&mut write),
            3 => return self.finish(kernel, write),
            _ => {
                self.land(&mut write);
                self.sync(&mut write);
                return self.finish(kernel, write);
            }
        }
        self.writes.push(write)?;
        Ok(())
    }

    /// Drains, mostly once all writes have gone on.
    pub fn drain(&mut self, kernel: &mut Kernel<MemLane>) -> Result<(), AllocError> {
        if self.numbers.below(4) > 0 {
            for _ in 0..self.writes.len().saturating_mul(4) {
                self.go_on(kernel)?;
            }
        }
        let answer = match drain(kernel) {
            Ok(writes) => Ok((writes, 0)),
            Err(refusal) => Err(refusal),
        };
        let wanted = match self.record.drain() {
            Ok(writes) => Ok((writes, 0)),
            Err(refusal) => Err(refusal),
        };
        self.tally.take(Kind::Drain, answer, wanted);
        Ok(())
    }

    /// Compares what the device holds in a block with what the rules say.
    pub fn look_at(&mut self, kernel: &Kernel<MemLane>, block: u32) {
        if let Some(lane) = kernel.lane(block) {
            let newest = self.record.held(block).newest;
            self.tally.check(*lane.bytes() == newest);
        }
    }

    /// Begins with what the lanes of a kernel over a fresh disk hold.
    pub fn start(&mut self, alloc: Global, kernel: &Kernel<MemLane>) -> Result<(), AllocError> {
        for block in 0..self.record.blocks {
            if let Some(lane) = kernel.lane(block) {
                self.record.hold(block, Held::rest(*lane.bytes()));
                self.record.start_with(block, lane.bytes());
            }
        }
        self.tally.add(Met::Disks, 1);
        let is_sound = self.record.mount(alloc)?;
        self.tally.check(is_sound);
        Ok(())
    }
}
