// Lanes for tests: they write no more after some writes, as where the program is killed then, and may be left without syncs.

use disk::{DeviceFault, Lane, Lanes};
use std::alloc::{AllocError, Global};
use std::marker::Model;
use std::sync::Arc;
use std::sync::atomic::{AtomicBool, AtomicU64, Ordering};
use store_types::BLOCK_LEN;

/// How many writes the lanes of a disk may still make, and whether one more was asked for.
struct Writes {
    left: AtomicU64,
    is_over: AtomicBool,
}

impl Drop for Writes {
    fn drop(self) {
        let Writes {
            left: _,
            is_over: _,
        } = self;
    }
}

/// What tells whether lanes were stopped, and lets them share how many writes are left.
pub struct Stop {
    writes: Arc<Writes, Global>,
}

impl Drop for Stop {
    fn drop(self) {
        let Stop { writes: _ } = self;
    }
}

impl Stop {
    /// After so many writes.
    pub fn after(alloc: Global, writes: u64) -> Result<Stop, AllocError> {
        let writes = Writes {
            left: AtomicU64::new(writes),
            is_over: AtomicBool::new(false),
        };
        match Arc::new(alloc, writes) {
            Ok(writes) => Ok(Stop { writes }),
            Err(_) => Err(AllocError),
        }
    }

    /// Whether a write was asked for when none was left.
    pub fn is_over(&self) -> bool {
        self.writes.is_over.load(Ordering::SeqCst)
    }

    /// The same, for another lane.
    fn again(&self) -> Result<Stop, AllocError> {
        let writes = Arc::try_clone(&self.writes)?;
        Ok(Stop { writes })
    }

    /// Takes one of the writes that are left.
    fn take(&self) -> bool {
        let left = self.writes.left.load(Ordering::SeqCst);
        if left == 0 {
            self.writes.is_over.store(true, Ordering::SeqCst);
            return false;
        }
        self.writes
            .left
            .store(left.saturating_sub(1), Ordering::SeqCst);
        true
    }

    /// The lanes of a disk, which are all at home, each stopped with the others. Without `is_synced` none makes a sync.
    pub fn lanes<L: Lane + Drop>(
        &self,
        alloc: Global,
        lanes: Lanes<L>,
        is_synced: bool,
    ) -> Result<Lanes<TestLane<L>>, AllocError> {
        let mut lanes = lanes;
        let blocks = lanes.blocks();
        let mut stopping = Lanes::new(alloc, blocks as u32)?;
        for block in 0..blocks as u32 {
            if let Some(lane) = lanes.take(block) {
                let stop = self.again()?;
                let _ = stopping.give(TestLane {
                    lane,
                    faults: 0,
                    is_synced,
                    stop,
                });
            }
        }
        Ok(stopping)
    }
}

/// A lane for tests. It fails where it is to write and no write is left. One that makes no sync answers `Ok` to each: of such a disk a crash is the
/// end of the program alone, after which the system still has what was written.
pub struct TestLane<L: Lane> {
    lane: L,
    faults: u64,
    is_synced: bool,
    stop: Stop,
}

impl<L: Lane> Model for TestLane<L> {
    ghost use Rattle.xnfs_session.specs.Stopping.{TestLaneValue};

    ghost Value = { TestLaneValue L };

    ghost view = { λ a. record { lane = a.lane; faults = a.faults; is_synced = a.is_synced } };
}

impl<L: Lane + Drop> Drop for TestLane<L> {
    fn drop(self) {
        let TestLane {
            lane: _,
            faults: _,
            is_synced: _,
            stop: _,
        } = self;
    }
}

impl<L: Lane> TestLane<L> {
    ghost use Rattle.std.specs.Prelude.{◌≡◌, OnOk, OnErr, Result};
    ghost use Rattle.disk.specs.Lanes.{CountsOne};

    /// Counts the fault of an answer.
    fn counted(&mut self, answer: Result<(), DeviceFault>) -> Result<(), DeviceFault>
        ensures same { result ≡ answer }
        ensures lane { self.new.lane ≡ self.old.lane }
        ensures is_synced { self.new.is_synced ≡ self.old.is_synced }
        ensures ok { OnOk result (self.new.faults ≡ self.old.faults) }
        ensures err { OnErr result (CountsOne self.old.faults self.new.faults) }
    {
        if answer.is_err() {
            self.faults = self.faults.wrapping_add(1);
        }
        answer
    }
}

impl<L: Lane> Lane for TestLane<L> {
    ghost use Rattle.xnfs_session.specs.Stopping.{leaves_where};

    ghost number_of = { λ a. L.number_of a.lane };

    ghost bytes_of = { λ a. L.bytes_of a.lane };

    ghost faults_of = { λ a. a.faults };

    ghost crash_leaves = { λ a. leaves_where a.is_synced (L.crash_leaves a.lane) (L.bytes_of a.lane) };

    ghost read_gives = { λ _ _ _. Unit };

    ghost write_gives = { λ _ _ _ _. Unit };

    ghost sync_gives = { λ _ _ _. Unit };

    fn number(&self) -> u32 {
        self.lane.number()
    }

    fn faults(&self) -> u64 {
        self.faults
    }

    fn read(&mut self, into: &mut [u8; BLOCK_LEN]) -> Result<(), DeviceFault> {
        let answer = self.lane.read(into);
        self.counted(answer)
    }

    /// Fails where no write is left, and the block keeps its bytes.
    fn write(&mut self, from: &[u8; BLOCK_LEN]) -> Result<(), DeviceFault> {
        if !self.stop.take() {
            return self.counted(Err(DeviceFault));
        }
        let answer = self.lane.write(from);
        self.counted(answer)
    }

    /// Makes none where the disk isn't to be synced.
    fn sync(&mut self) -> Result<(), DeviceFault> {
        if !self.is_synced {
            return Ok(());
        }
        let answer = self.lane.sync();
        self.counted(answer)
    }
}
