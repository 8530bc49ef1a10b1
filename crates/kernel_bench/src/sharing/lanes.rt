// Lanes in memory whose writes take time.

ghost use Rattle.disk.specs.Mem.{memory_leaves};

use disk::{DeviceFault, Lane, Lanes, MemLane, fresh_lanes};
use std::alloc::{AllocError, Global};
use std::thread;
use std::time::Duration;
use store_types::BLOCK_LEN;
use templates::format_image;

/// A lane in memory whose writes take so many microseconds.
pub struct WaitingLane {
    lane: MemLane,
    clock: HostRuntime,
    micros: u64,
}

impl Drop for WaitingLane {
    fn drop(self) {
        let WaitingLane {
            lane: _,
            clock: _,
            micros: _,
        } = self;
    }
}

impl Lane for WaitingLane {
    ghost use Rattle.std.specs.Prelude.{⊤};

    ghost number_of = { λ waiting. waiting.lane.number };

    ghost bytes_of = { λ waiting. waiting.lane.bytes };

    ghost faults_of = { λ waiting. waiting.lane.faults };

    ghost read_gives = { λ old answer new. ⊤ };

    ghost write_gives = { λ old bytes answer new. ⊤ };

    ghost crash_leaves = { λ waiting left. memory_leaves waiting.lane left };

    ghost sync_gives = { λ old answer new. ⊤ };

    fn number(&self) -> u32 {
        self.lane.number()
    }

    fn faults(&self) -> u64 {
        self.lane.faults()
    }

    fn read(&mut self, into: &mut [u8; BLOCK_LEN]) -> Result<(), DeviceFault> {
        self.lane.read(into)
    }

    fn write(&mut self, from: &[u8; BLOCK_LEN]) -> Result<(), DeviceFault> {
        if self.micros > 0 {
            thread::sleep(&self.clock, Duration::from_micros(self.micros));
        }
        self.lane.write(from)
    }

    fn sync(&mut self) -> Result<(), DeviceFault> {
        self.lane.sync()
    }
}

/// The lanes of a fresh disk of 32 blocks, whose writes take time.
pub fn waiting_lanes(
    alloc: Global,
    clock: HostRuntime,
    micros: u64,
) -> Result<Lanes<WaitingLane>, AllocError> {
    let Ok(image) = format_image(alloc, 32, &[]) else {
        return Err(AllocError);
    };
    if image.len() != 16_384 {
        return Err(AllocError);
    }
    let mut lanes = fresh_lanes(alloc, &image)?;
    let mut all = Lanes::new(alloc, 32)?;
    for block in 0..32u32 {
        if (block as usize) < lanes.blocks()
            && let Some(lane) = lanes.take(block)
        {
            let _ = all.give(WaitingLane {
                lane,
                clock,
                micros,
            });
        }
    }
    Ok(all)
}
