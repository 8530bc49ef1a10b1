// A lane whose failures are planned.

ghost use Rattle.std.specs.Prelude.{◌≡◌, ℕ, Option};
ghost use Rattle.disk.specs.Mem.{memory_leaves};
ghost use Rattle.disk.specs.Plans.{later_read, later_write, planned_read, planned_sync, planned_write, told_read, told_write};

use crate::lane::{DeviceFault, Lane};
use crate::mem::MemLane;
use std::marker::Model;
use store_types::BLOCK_LEN;

/// A block in memory that fails at one read and at one write, which are named when it is made. Each fails once.
#[derive(Drop)]
pub struct PlanLane {
    lane: MemLane,
    fail_read: Option<u64>,
    fail_write: Option<(u64, bool)>,
}

impl Model for PlanLane {
    ghost use Rattle.disk.specs.Plans.{PlannedLane};

    ghost Value = { PlannedLane };

    ghost view = { λ a. record { lane = a.lane; fail_read = a.fail_read; fail_write = a.fail_write } };
}

impl PlanLane {
    /// A lane that fails at this read and at this write, both counted from 1 on; at none where the number is missing, or
    /// 0. After the failing write the block holds the new bytes, where `true` stands beside its number, or keeps the old ones.
    pub fn new(lane: MemLane, fail_read: Option<u64>, fail_write: Option<(u64, bool)>) -> PlanLane
        ensures { result ≡ record { lane = lane; fail_read = fail_read; fail_write = fail_write } }
    {
        PlanLane {
            lane,
            fail_read,
            fail_write,
        }
    }

    /// The bytes of the block.
    pub fn bytes(&self) -> &[u8; BLOCK_LEN]
        ensures { result.now ≡ self.now.lane.bytes }
    {
        self.lane.bytes()
    }

    /// Tells the lane of a read that is to fail now, and counts it.
    fn plan_read(&mut self)
        ensures { self.new ≡ record {
          lane = told_read self.old.fail_read self.old.lane;
          fail_read = later_read self.old.fail_read;
          fail_write = self.old.fail_write;
        } }
    {
        match self.fail_read {
            Some(1) => {
                self.lane.fail_read();
                self.fail_read = None;
            }
            Some(turn) => self.fail_read = Some(turn.saturating_sub(1)),
            None => {}
        }
    }

    /// Tells the lane of a write that is to fail now, and counts it.
    fn plan_write(&mut self)
        ensures { self.new ≡ record {
          lane = told_write self.old.fail_write self.old.lane;
          fail_read = self.old.fail_read;
          fail_write = later_write self.old.fail_write;
        } }
    {
        match self.fail_write {
            Some((1, new_bytes_stay)) => {
                self.lane.fail_write(new_bytes_stay);
                self.fail_write = None;
            }
            Some((turn, new_bytes_stay)) => {
                self.fail_write = Some((turn.saturating_sub(1), new_bytes_stay));
            }
            None => {}
        }
    }
}

impl Lane for PlanLane {
    ghost number_of = { λ lane. lane.lane.number };

    ghost bytes_of = { λ lane. lane.lane.bytes };

    ghost faults_of = { λ lane. lane.lane.faults };

    ghost read_gives = { planned_read };

    ghost write_gives = { planned_write };

    ghost crash_leaves = { λ lane. memory_leaves lane.lane };

    ghost sync_gives = { planned_sync };

    fn number(&self) -> u32 {
        self.lane.number()
    }

    fn faults(&self) -> u64 {
        self.lane.faults()
    }

    /// Fails where it was told to when it was made.
    fn read(&mut self, into: &mut [u8; BLOCK_LEN]) -> Result<(), DeviceFault> {
        self.plan_read();
        self.lane.read(into)
    }

    /// Fails where it was told to when it was made, with the bytes that it was told to leave.
    fn write(&mut self, from: &[u8; BLOCK_LEN]) -> Result<(), DeviceFault> {
        self.plan_write();
        self.lane.write(from)
    }

    /// Fails where the lane in memory does.
    fn sync(&mut self) -> Result<(), DeviceFault> {
        self.lane.sync()
    }
}
