// Each scene has a fresh disk of 32 blocks, whose kernel threads share, a floor, and two who read that.

ghost use Rattle.std.specs.Prelude.{◌≡◌, IfSome};
ghost use Rattle.durable_floor.specs.Rules.{zero_floor};

use crate::alone::{fails, forgets, is_told, stops};
use crate::at_once::run_at_once;
use crate::blocks::is_on_disk;
use crate::held::edits_beside;
use crate::lanes::{Hold, SceneGate, Trouble, scene_lanes};
use crate::many::run_many;
use crate::sharing::{Kernels, mounted, share};
use crate::unsynced::ends_by_hand;
use durable_floor::{Floor, Naming, Publisher, Reader};
use std::alloc::Global;
use std::marker::Brand;
use std::process::Abort;
use std::sync::{Arc, Wait};
use std::thread::Threads;
use store_types::BLOCK_LEN;
use xn_kernel::Fs;

/// What threads do with a kernel.
#[derive(Clone, Copy)]
pub enum Scene {
    /// One flushes, and is told so.
    Flush,
    /// One stops.
    Stop,
    /// One forgets a block.
    Forget,
    /// One meets a write that fails.
    Fault,
    /// One meets a sync that fails.
    Unsynced,
    /// Four work, and two flush.
    AtOnce,
    /// So many flush, and one edits what they write.
    Held(u32),
    /// Eight work, and four flush.
    Many,
}

impl Scene {
    /// How many read the floor.
    fn readers(self) -> usize {
        match self {
            Scene::Flush | Scene::AtOnce => 2,
            Scene::Forget | Scene::Many => 1,
            Scene::Stop | Scene::Fault | Scene::Unsynced | Scene::Held(_) => 0,
        }
    }
}

/// Plays a scene with a kernel, and with those who read its floor.
fn play_with<K: Naming + Send + Sync, R: Threads + Wait + Abort + Sync>(
    rt: &R,
    alloc: Global,
    scene: Scene,
    hold: &Hold,
    shared: Kernels<K>,
    reader: Option<Reader>,
    stranger: Option<Reader>,
)
    requires reader { IfSome reader (λ r. r.floor ≡ K.floor) }
    requires stranger { IfSome stranger (λ r. r.floor ≡ K.floor) }
{
    let fs = Fs::new(0).expect(rt, "a file system");
    let mut systems = 0;
    let mut left = [0; BLOCK_LEN];
    match scene {
        Scene::Flush => {
            let mut reader = reader.expect(rt, "a reader");
            let mut stranger = stranger.expect(rt, "a stranger");
            is_told(rt, alloc, &shared, fs, &mut stranger, &mut reader)
        }
        Scene::Stop => stops(rt, &shared),
        Scene::Forget => forgets(rt, &shared, fs, &mut reader.expect(rt, "a reader")),
        Scene::Fault => fails(rt, &shared, fs),
        Scene::Unsynced => ends_by_hand(rt, &shared, fs),
        Scene::AtOnce => {
            let mut reader = reader.expect(rt, "a reader");
            let mut stranger = stranger.expect(rt, "a stranger");
            left = run_at_once(rt, alloc, &shared, &mut stranger, &mut reader);
            systems = 4;
        }
        Scene::Held(flushers) => edits_beside(rt, alloc, &shared, hold, fs, flushers),
        Scene::Many => {
            left = run_many(rt, alloc, &shared, &mut reader.expect(rt, "a reader"));
            systems = 8;
        }
    }
    let lanes = shared.into_held().into_kernel().into_lanes();
    if systems > 0 {
        is_on_disk(rt, alloc, lanes, systems, &left);
    }
}

/// Plays a scene over a floor that nobody has raised.
fn play_over<K: Naming + Send + Sync, R: Threads + Wait + Abort + Sync>(
    rt: &R,
    alloc: Global,
    scene: Scene,
    hold: &Arc<Hold, Global>,
    trouble: Trouble,
    floor: Floor,
    publisher: Publisher,
    reader: Option<Reader>,
    stranger: Option<Reader>,
)
    requires floor { floor ≡ K.floor }
    requires publisher { publisher ≡ record { floor = floor; seen = zero_floor } }
    requires reader { IfSome reader (λ r. r.floor ≡ floor) }
    requires stranger { IfSome stranger (λ r. r.floor ≡ floor) }
{
    let lanes = scene_lanes(rt, alloc, hold, trouble);
    let gate = SceneGate {
        hold: Arc::try_clone(hold).expect(rt, "a count"),
        trouble,
    };
    let kernel = mounted(rt, alloc, lanes);
    let shared = share::<K>(alloc, kernel, floor, publisher, gate).expect(rt, "memory");
    play_with(rt, alloc, scene, hold, shared, reader, stranger)
}

/// Plays a scene.
pub fn play<R: Threads + Wait + Abort + Sync>(
    rt: &R,
    alloc: Global,
    clock: HostRuntime,
    scene: Scene,
    trouble: Trouble,
) {
    let hold = Arc::new(alloc, Hold::new(clock)).expect(rt, "memory");
    let (floor, publisher, mut readers) = Floor::new(alloc, scene.readers()).expect(rt, "memory");
    let reader = readers.pop();
    let stranger = readers.pop();
    play_over::<Brand, R>(
        rt, alloc, scene, &hold, trouble, floor, publisher, reader, stranger,
    )
}
