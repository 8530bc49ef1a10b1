// A value under a lock, with what threads use beside it and with no lock.

ghost use Rattle.std.specs.Prelude.{◌≡◌};
ghost use Rattle.std.specs.Arc.{arc_value};
ghost use Rattle.std.specs.Fn.{FnOnceTakesAtMut, FnOnceReturnsAtMut};

use durable_floor::Floor;
use std::alloc::Global;
use std::sync::atomic::{AtomicBool, Ordering};
use std::sync::{Arc, Mutex, Wait};

/// What is told of each write, with no lock held: each begun one is landed once, whatever the device answers.
pub trait Gate {
    /// The write of a block was begun, and is not landed.
    fn begun(&self, block: u32);

    /// The write of a block was landed, well or not. It is neither synced nor finished: the device may hold it still, and a
    /// crash may lose it.
    fn landed(&self, block: u32);
}

/// A type whose values are known to be sound whenever they are found under a lock.
pub trait Held {
    ghost use Rattle.durable_floor.specs.Floors.{TableId};

    /// What is known of a value.
    ghost sound: { Self → Type 0 };

    /// Which floor its words are of.
    ghost floor: { TableId };

    /// What is known of it.
    fn is_sound(&self)
        ensures { sound self.now };
}

/// A value under a lock, with its floor, a gate and a stop flag, which need no lock.
#[derive(Drop)]
pub struct Locked<H: Held, G: Gate> {
    pub(crate) held: Mutex<H>,
    floor: Arc<Floor, Global>,
    pub(crate) gate: G,
    stopped: AtomicBool,
    ghost floor_is: { arc_value floor ≡ H.floor },
}

impl<H: Held, G: Gate> Locked<H, G> {
    /// Puts a value under a lock. The floor is that of its words.
    pub fn new(held: H, floor: Arc<Floor, Global>, gate: G) -> Locked<H, G>
        requires { arc_value floor ≡ H.floor }
    {
        Locked {
            held: Mutex::new(held),
            floor,
            gate,
            stopped: AtomicBool::new(false),
        }
    }

    /// The floor, to be read with no lock.
    pub fn floor(&self) -> &Floor
        ensures { result.now ≡ H.floor }
    {
        &self.floor
    }

    /// Does something with the value, under the lock, and answers what that answered: the value is found sound.
    pub fn with<R: Wait, T, F: FnOnce(&mut H) -> T>(&self, rt: &R, f: F) -> T
        requires { (h : H) → H.sound h → FnOnceTakesAtMut F.FnOnce f h }
        ensures { (h : H) × (h' : H) × H.sound h × FnOnceReturnsAtMut F.FnOnce f h result h' }
    {
        let mut guard = self.held.lock(rt);
        guard.is_sound();
        f(&mut guard)
    }

    /// Sets the stop flag: from then on a flusher ends where no block may be written.
    pub fn stop(&self) {
        self.stopped.store(true, Ordering::SeqCst);
    }

    /// Whether the stop flag is set.
    pub fn is_stopped(&self) -> bool {
        self.stopped.load(Ordering::SeqCst)
    }

    /// The value, which no other thread shares any more.
    pub fn into_held(self) -> H
    where
        G: Drop,
    {
        let Locked {
            held,
            floor: _,
            gate: _,
            stopped: _,
        } = self;
        held.into_inner()
    }
}
