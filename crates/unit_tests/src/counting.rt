// Lanes that count the writes, syncs and reads of a whole disk.

ghost use Rattle.std.specs.Prelude.{⊤};
ghost use Rattle.disk.specs.Mem.{memory_leaves};

use crate::disks::{fresh_lanes, fs, give, mounted, no_lanes, same, take};
use disk::{DeviceFault, Lane, Lanes, MemLane};
use std::alloc::Global;
use std::process::Abort;
use std::sync::Arc;
use std::sync::atomic::{AtomicU64, Ordering};
use store_types::BLOCK_LEN;
use xn_kernel::{EditId, FlushStop, Kernel, Store};

/// A lane in memory. All lanes of a disk have one count of writes, syncs and reads, and each keeps at which of them its own came last.
struct CountingLane {
    lane: MemLane,
    count: Arc<AtomicU64, Global>,
    written_at: Option<u64>,
    synced_at: Option<u64>,
    read_at: Option<u64>,
}

impl Drop for CountingLane {
    fn drop(self) {
        let CountingLane {
            lane: _,
            count: _,
            written_at: _,
            synced_at: _,
            read_at: _,
        } = self;
    }
}

impl Lane for CountingLane {
    ghost number_of = { λ lane. lane.lane.number };

    ghost bytes_of = { λ lane. lane.lane.bytes };

    ghost faults_of = { λ lane. lane.lane.faults };

    ghost read_gives = { λ old answer new. ⊤ };

    ghost write_gives = { λ old bytes answer new. ⊤ };

    ghost crash_leaves = { λ lane. memory_leaves lane.lane };

    ghost sync_gives = { λ old answer new. ⊤ };

    fn number(&self) -> u32 {
        self.lane.number()
    }

    fn faults(&self) -> u64 {
        self.lane.faults()
    }

    fn read(&mut self, into: &mut [u8; BLOCK_LEN]) -> Result<(), DeviceFault> {
        self.read_at = Some(self.count.fetch_add(1, Ordering::SeqCst));
        self.lane.read(into)
    }

    fn write(&mut self, from: &[u8; BLOCK_LEN]) -> Result<(), DeviceFault> {
        self.written_at = Some(self.count.fetch_add(1, Ordering::SeqCst));
        self.lane.write(from)
    }

    fn sync(&mut self) -> Result<(), DeviceFault> {
        self.synced_at = Some(self.count.fetch_add(1, Ordering::SeqCst));
        self.lane.sync()
    }
}

/// Such lanes of a fresh disk of 32 blocks.
fn counting_lanes(rt: &impl Abort, alloc: Global) -> Lanes<CountingLane> {
    let count = Arc::new(alloc, AtomicU64::new(0)).expect(rt, "memory");
    let mut lanes = fresh_lanes(rt, alloc);
    let mut counting = no_lanes(rt, alloc);
    for block in 0..32 {
        let lane = CountingLane {
            lane: take(rt, &mut lanes, 32, block),
            count: Arc::try_clone(&count).expect(rt, "a count"),
            written_at: None,
            synced_at: None,
            read_at: None,
        };
        give(rt, &mut counting, lane);
    }
    counting
}

#[test]
fn a_mount_syncs_and_reads_each_lane_by_rising_number(rt: HostRuntime) {
    let lanes = counting_lanes(&rt, rt.alloc());
    let kernel = mounted(&rt, rt.alloc(), lanes, 1);
    for block in 0..32u32 {
        let lane = kernel.lane(block).expect(&rt, "a lane");
        let turn = 2 * u64::from(block);
        let came = (block, lane.synced_at, lane.read_at);
        same(
            &rt,
            "a sync and a read",
            came,
            (block, Some(turn), Some(turn + 1)),
        );
    }
    let lane = kernel.lane(0).expect(&rt, "a lane");
    same(
        &rt,
        "the count of both",
        lane.count.load(Ordering::SeqCst),
        64,
    );
}

/// How many waves a flush took; `None` where it stopped, and its tickets are given up.
fn flushed(kernel: &mut Kernel<CountingLane>, alloc: Global) -> Option<u32> {
    match kernel.flush(alloc) {
        Ok(waves) => Some(waves),
        Err(stop) => {
            let FlushStop {
                waves: _,
                mut tickets,
                refusal: _,
            } = stop;
            while let Some(ticket) = tickets.pop() {
                let _lane = ticket.into_lane();
            }
            tickets.destroy_empty();
            None
        }
    }
}

#[test]
fn a_wave_is_written_before_its_first_sync(rt: HostRuntime) {
    let lanes = counting_lanes(&rt, rt.alloc());
    let mut kernel = mounted(&rt, rt.alloc(), lanes, 1);
    let owner = fs(&rt, 0);
    for block in 1..4u32 {
        let begun = kernel.init(owner, 2, &[0x41; BLOCK_LEN]);
        same(&rt, "a block", begun, Ok((block, EditId(u64::from(block)))));
    }
    same(&rt, "waves", flushed(&mut kernel, rt.alloc()), Some(1));
    // Behind the mount's 64 syncs and reads come three writes, and then three syncs, each with its read.
    for block in 1..4u32 {
        let lane = kernel.lane(block).expect(&rt, "a lane");
        let number = u64::from(block);
        let came = (block, lane.written_at, lane.synced_at);
        same(
            &rt,
            "a write and a sync",
            came,
            (block, Some(63 + number), Some(73 - 2 * number)),
        );
    }
}
