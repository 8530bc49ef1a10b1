// Lanes in memory that fail, or hold what they are asked until that is answered, and a gate that holds.

ghost use Rattle.disk.specs.Mem.{memory_leaves};

use disk::{DeviceFault, Lane, Lanes, MemLane, fresh_lanes};
use shared::Gate;
use std::alloc::{AllocError, Global};
use std::process::Abort;
use std::sync::Arc;
use std::sync::atomic::{AtomicBool, AtomicU32, Ordering};
use std::thread;
use std::time::Duration;
use store_types::BLOCK_LEN;
use templates::format_image;

/// Holds each thread that comes for at most 10,000 turns of a millisecond, until it is answered.
#[derive(Drop)]
pub struct Hold {
    clock: HostRuntime,
    inside: AtomicU32,
    answered: AtomicBool,
    ran_out: AtomicBool,
}

impl Hold {
    /// A hold of no thread.
    pub fn new(clock: HostRuntime) -> Hold {
        Hold {
            clock,
            inside: AtomicU32::new(0),
            answered: AtomicBool::new(false),
            ran_out: AtomicBool::new(false),
        }
    }

    /// Holds the thread that calls it.
    pub fn hold(&self) {
        self.inside.fetch_add(1, Ordering::SeqCst);
        for _ in 0..10_000 {
            if self.answered.load(Ordering::SeqCst) {
                break;
            }
            thread::sleep(&self.clock, Duration::from_millis(1));
        }
        if !self.answered.load(Ordering::SeqCst) {
            self.ran_out.store(true, Ordering::SeqCst);
        }
        self.inside.fetch_sub(1, Ordering::SeqCst);
    }

    /// Waits until so many threads are held at once; whether they are.
    pub fn wait_until_held(&self, threads: u32) -> bool {
        for _ in 0..10_000 {
            if self.inside.load(Ordering::SeqCst) >= threads {
                return true;
            }
            thread::sleep(&self.clock, Duration::from_millis(1));
        }
        false
    }

    /// Lets the held threads go on.
    pub fn answer(&self) {
        self.answered.store(true, Ordering::SeqCst);
    }

    /// Whether each hold was answered before its turns ran out.
    pub fn was_in_time(&self) -> bool {
        !self.ran_out.load(Ordering::SeqCst)
    }
}

/// What a lane does beside what it is asked.
#[derive(Clone, Copy)]
pub enum Trouble {
    Nothing,
    /// The first write of block 1 fails, and leaves the old bytes.
    FirstWrite,
    /// The sync after the first write of block 1 fails.
    FirstSync,
    /// Every 20th write fails, in turns with the old and the new bytes, and every 30th sync.
    NowAndThen,
    /// Each write is held.
    HeldWrites,
    /// Each sync of what was written is held.
    HeldSyncs,
    /// Each begun write is held at the gate.
    HeldGate,
}

/// A gate that holds a write that was begun, or lets all pass.
pub struct SceneGate {
    pub hold: Arc<Hold, Global>,
    pub trouble: Trouble,
}

impl Drop for SceneGate {
    fn drop(self) {
        let SceneGate {
            hold: _,
            trouble: _,
        } = self;
    }
}

impl Gate for SceneGate {
    fn begun(&self, _block: u32) {
        if matches!(self.trouble, Trouble::HeldGate) {
            self.hold.hold();
        }
    }

    fn landed(&self, _block: u32) {}
}

/// A lane in memory with its trouble.
pub struct SceneLane {
    lane: MemLane,
    hold: Arc<Hold, Global>,
    trouble: Trouble,
    writes: u32,
    syncs: u32,
    is_unsynced: bool,
}

impl Drop for SceneLane {
    fn drop(self) {
        let SceneLane {
            lane: _,
            hold: _,
            trouble: _,
            writes: _,
            syncs: _,
            is_unsynced: _,
        } = self;
    }
}

impl Lane for SceneLane {
    ghost use Rattle.std.specs.Prelude.{⊤};

    ghost number_of = { λ scene. scene.lane.number };

    ghost bytes_of = { λ scene. scene.lane.bytes };

    ghost faults_of = { λ scene. scene.lane.faults };

    ghost read_gives = { λ old answer new. ⊤ };

    ghost write_gives = { λ old bytes answer new. ⊤ };

    ghost crash_leaves = { λ scene left. memory_leaves scene.lane left };

    ghost sync_gives = { λ old answer new. ⊤ };

    fn number(&self) -> u32 {
        self.lane.number()
    }

    fn faults(&self) -> u64 {
        self.lane.faults()
    }

    fn read(&mut self, into: &mut [u8; BLOCK_LEN]) -> Result<(), DeviceFault> {
        self.lane.read(into)
    }

    fn write(&mut self, from: &[u8; BLOCK_LEN]) -> Result<(), DeviceFault> {
        self.writes = self.writes.wrapping_add(1);
        self.is_unsynced = true;
        let is_first = self.writes == 1 && self.lane.number() == 1;
        match self.trouble {
            Trouble::FirstWrite if is_first => self.lane.fail_write(false),
            Trouble::FirstSync if is_first => self.lane.fail_sync(),
            Trouble::NowAndThen if self.writes % 20 == 0 => {
                self.lane.fail_write(self.writes % 40 == 0)
            }
            Trouble::HeldWrites => self.hold.hold(),
            _ => {}
        }
        self.lane.write(from)
    }

    fn sync(&mut self) -> Result<(), DeviceFault> {
        self.syncs = self.syncs.wrapping_add(1);
        match self.trouble {
            Trouble::NowAndThen if self.syncs % 30 == 0 => self.lane.fail_sync(),
            Trouble::HeldSyncs if self.is_unsynced => self.hold.hold(),
            _ => {}
        }
        self.is_unsynced = false;
        self.lane.sync()
    }
}

/// The lanes of a bare disk of 32 blocks.
fn bare_lanes(rt: &impl Abort, alloc: Global) -> Lanes<MemLane> {
    if let Ok(image) = format_image(alloc, 32, &[])
        && image.len() == 16_384
        && let Ok(lanes) = fresh_lanes(alloc, &image)
    {
        return lanes;
    }
    panic!(rt; "no lanes")
}

/// The same, each with this trouble. Where one is missing the disk is not mounted.
pub fn scene_lanes(
    rt: &impl Abort,
    alloc: Global,
    hold: &Arc<Hold, Global>,
    trouble: Trouble,
) -> Lanes<SceneLane> {
    let mut lanes = bare_lanes(rt, alloc);
    let mut all = Lanes::new(alloc, 32).expect(rt, "memory");
    for block in 0..32u32 {
        if (block as usize) < lanes.blocks()
            && let Some(lane) = lanes.take(block)
        {
            let _ = all.give(SceneLane {
                lane,
                hold: Arc::try_clone(hold).expect(rt, "a count"),
                trouble,
                writes: 0,
                syncs: 0,
                is_unsynced: false,
            });
        }
    }
    all
}

/// The bytes of all lanes of a disk, one after another.
pub fn image_of(alloc: Global, mut lanes: Lanes<SceneLane>) -> Result<Vec<u8>, AllocError> {
    let mut image = Vec::new(alloc);
    for block in 0..32u32 {
        if (block as usize) < lanes.blocks()
            && let Some(mut lane) = lanes.take(block)
        {
            let mut bytes = [0; BLOCK_LEN];
            let _ = lane.read(&mut bytes);
            image.extend_from_slice(&bytes)?;
        }
    }
    Ok(image)
}
