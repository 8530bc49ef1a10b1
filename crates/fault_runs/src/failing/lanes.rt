// Lanes in memory that count what they are asked. One of them fails once: at a read, at a write, or at a sync.

ghost use Rattle.disk.specs.Mem.{memory_leaves};

use disk::{DeviceFault, Lane, Lanes, MemLane, fresh_lanes};
use std::alloc::Global;
use store_types::BLOCK_LEN;

/// How many blocks a disk has.
pub const BLOCKS: u32 = 32;

/// What a lane fails at, counted from 1. After the write the block holds the new bytes, where `true` stands beside it.
#[derive(Clone, Copy)]
pub enum Failure {
    Read(u64),
    Write(u64, bool),
    Sync(u64),
}

/// A lane in memory that counts how often it is asked for each, and that fails at one of these.
#[derive(Drop)]
pub struct CountingLane {
    pub lane: MemLane,
    pub reads: u64,
    pub writes: u64,
    pub syncs: u64,
    failure: Option<Failure>,
}

impl Lane for CountingLane {
    ghost use Rattle.std.specs.Prelude.{⊤};

    ghost number_of = { λ counting. counting.lane.number };

    ghost bytes_of = { λ counting. counting.lane.bytes };

    ghost faults_of = { λ counting. counting.lane.faults };

    ghost read_gives = { λ old answer new. ⊤ };

    ghost write_gives = { λ old bytes answer new. ⊤ };

    ghost crash_leaves = { λ counting left. memory_leaves counting.lane left };

    ghost sync_gives = { λ old answer new. ⊤ };

    fn number(&self) -> u32 {
        self.lane.number()
    }

    fn faults(&self) -> u64 {
        self.lane.faults()
    }

    fn read(&mut self, into: &mut [u8; BLOCK_LEN]) -> Result<(), DeviceFault> {
        self.reads = self.reads.wrapping_add(1);
        match self.failure {
            Some(Failure::Read(turn)) if turn == self.reads => self.lane.fail_read(),
            _ => {}
        }
        self.lane.read(into)
    }

    fn write(&mut self, from: &[u8; BLOCK_LEN]) -> Result<(), DeviceFault> {
        self.writes = self.writes.wrapping_add(1);
        match self.failure {
            Some(Failure::Write(turn, stays)) if turn == self.writes => self.lane.fail_write(stays),
            _ => {}
        }
        self.lane.write(from)
    }

    fn sync(&mut self) -> Result<(), DeviceFault> {
        self.syncs = self.syncs.wrapping_add(1);
        match self.failure {
            Some(Failure::Sync(turn)) if turn == self.syncs => self.lane.fail_sync(),
            _ => {}
        }
        self.lane.sync()
    }
}

/// The lanes of a disk that is as an image, of which that of a block may fail. `None`: there was no memory.
pub fn counting_lanes(
    alloc: Global,
    image: &[u8],
    block: u32,
    failure: Option<Failure>,
) -> Option<Lanes<CountingLane>> {
    if image.len() != BLOCK_LEN * BLOCKS as usize {
        return None;
    }
    let mut plain = fresh_lanes(alloc, image).ok()?;
    let mut lanes = Lanes::new(alloc, BLOCKS).ok()?;
    for number in 0..BLOCKS {
        if plain.blocks() <= number as usize {
            return None;
        }
        let lane = CountingLane {
            lane: plain.take(number)?,
            reads: 0,
            writes: 0,
            syncs: 0,
            failure: if number == block { failure } else { None },
        };
        lanes.give(lane).ok()?;
    }
    Some(lanes)
}
