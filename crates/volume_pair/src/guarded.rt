// A store on which one file system makes calls beside another one.

ghost use Rattle.std.specs.Prelude.{◌≡◌, ◌≢◌, ◌<◌, ℕ, Option, Some, None, IfSome, IsSomeAnd};
ghost use Rattle.xn_state.specs.States.{own_types};
ghost use Rattle.volume_pair.specs.Kept.{HasLibrary, IsDevice, IsKept, Lasts, Recovers};
ghost use Rattle.volume_pair.specs.LibraryTypes.{IsRemounted};
ghost use Rattle.ffs_model.specs.Library.{library_layout};
ghost use Rattle.ffs_model.specs.Volumes.{VolumeKeeps, no_edits};

use crate::disks::Disk;
use crate::library::with_library;
use ffs_format::law::templates_are_the_librarys;
use ffs_lib::{EditId, Fs, Volume};
use std::alloc::Global;
use std::marker::Model;
use std::thread::Threads;
use store_types::{BLOCK_LEN, Refusal};
use world::{Event, Reply, Running, World};
use xn_state::{Edit, State, Store};

/// A file system that makes no calls meanwhile, with its volume where that is open.
#[derive(Drop)]
pub struct Other {
    pub fs: Fs,
    pub volume: Option<Volume>,
}

/// A store with the library's types, and what is known of a file system beside the one that makes calls.
pub struct Guarded<S: Disk> {
    store: S,
    other: Option<Other>,
}

impl<S: Disk> Model for Guarded<S> {
    ghost use Rattle.std.specs.Prelude.{IfSome};
    ghost use Rattle.volume_pair.specs.Kept.{HasLibrary, IsKept};

    ghost Value = { S };

    ghost view = { λ a. a.store };

    ghost invariant = { λ a. HasLibrary (S.types_of a.store) (S.state_of a.store) ×
        IfSome a.other (λ other. IsKept (S.types_of a.store) (S.state_of a.store) other.fs.number other.volume) };
}

impl<S: Disk + Drop> Drop for Guarded<S> {
    fn drop(self) {
        let Guarded { store: _, other: _ } = self;
    }
}

impl<S: Disk> Guarded<S> {
    /// The store, with this file system beside the one that makes calls.
    pub fn new(store: S, other: Option<Other>) -> Guarded<S>
        requires has { HasLibrary (S.types_of store) (S.state_of store) }
        requires other { IfSome other (λ other. IsKept (S.types_of store) (S.state_of store) other.fs.number other.volume) }
        ensures { result ≡ store }
    {
        Guarded { store, other }
    }

    /// The store, and the other file system.
    pub fn into_parts(self) -> (S, Option<Other>)
        ensures store { result.0 ≡ self }
        ensures has { HasLibrary (S.types_of self) (S.state_of self) }
        ensures other { IfSome result.1 (λ other. IsKept (S.types_of self) (S.state_of self) other.fs.number other.volume) }
    {
        let Guarded { store, other } = self;
        (store, other)
    }

    /// It has the library's types.
    pub fn has_library(&self)
        ensures { HasLibrary (S.types_of self.now) (S.state_of self.now) }
    {
        let _other = &self.other;
    }

    /// Puts a file system in the other one's place, which may make calls from now on.
    pub fn exchange(&mut self, other: Other) -> Option<Other>
        requires { IsKept (S.types_of self.old) (S.state_of self.old) other.fs.number other.volume }
        ensures store { self.new ≡ self.old }
        ensures other { IfSome result (λ other. IsKept (S.types_of self.new) (S.state_of self.new) other.fs.number other.volume) }
    {
        self.other.replace(other)
    }
}

/// The other file system, where it isn't the one that makes a call; else nothing is known of it from then on.
fn beside(other: Option<Other>, fs: Fs) -> Option<Other>
    ensures { IfSome result (λ o. (other ≡ Some o) × (o.fs.number ≢ fs.number)) }
{
    match other {
        Some(other) if other.fs != fs => Some(other),
        _ => None,
    }
}

/// A file system whose volume is not open.
fn closed(other: Option<Other>) -> Option<Other>
    ensures { IfSome result (λ o. (o.volume ≡ None) × IsSomeAnd other (λ before. before.fs ≡ o.fs)) }
{
    let other = other?;
    Some(Other {
        fs: other.fs,
        volume: None,
    })
}

/// A world after a crash that keeps these blocks, with the counts of its mount. It has those of the library's types that are on the disk.
fn crashed(
    rt: &(impl Threads + Sync),
    running: Running,
    kept: Vec<u32>,
) -> Option<(Running, u32, u32)>
    requires library { HasLibrary (own_types running.state) running.state }
    ensures remounted { IfSome result (λ r. IsRemounted r.0) }
    ensures keeps { IfSome result (λ r. (fs : ℕ) (array : ℕ → Option ℕ) → fs < 32 →
        VolumeKeeps (own_types running.state) library_layout fs array running.state →
        VolumeKeeps (own_types r.0.state) library_layout fs no_edits r.0.state) }
{
    templates_are_the_librarys();
    let mut world = World::up(running);
    world.rules();
    let reply = world.step(rt, &Event::Crash(kept));
    let Ok(running) = world.into_running() else {
        return None;
    };
    match reply {
        Reply::Mounted { reached, free } => Some((running, reached, free)),
        _ => None,
    }
}

impl<S: Disk> Store for Guarded<S> {
    ghost types_of = { S.types_of };

    ghost state_of = { S.state_of };

    ghost with_state = { S.with_state };

    fn init(&mut self, fs: Fs, ty: u32, bytes: &[u8; BLOCK_LEN]) -> Result<(u32, EditId), Refusal> {
        self.store.init(fs, ty, bytes)
    }

    fn propose(&mut self, fs: Fs, block: u32, edit: &Edit) -> Result<EditId, Refusal> {
        self.other = beside(self.other.take(), fs);
        self.store.propose(fs, block, edit)
    }

    fn make_root(&mut self, fs: Fs, block: u32) -> Result<EditId, Refusal> {
        self.other = beside(self.other.take(), fs);
        self.store.make_root(fs, block)
    }

    fn forget(&mut self, fs: Fs, block: u32) -> Result<(), Refusal> {
        self.store.forget(fs, block)
    }

    fn state(&self) -> &State {
        self.store.state()
    }
}

impl<S: Disk> Disk for Guarded<S> {
    fn drain(&mut self, fs: Fs) -> Option<u32> {
        self.store.drain(fs)
    }

    fn free(&self) -> u32 {
        self.store.free()
    }
}

impl Guarded<Running> {
    /// One event that is of the device, or an installation.
    pub fn step(&mut self, event: &Event) -> Reply
        requires { IsDevice event.now }
        ensures { Lasts (own_types self.old.state) self.old.state (own_types self.new.state) self.new.state }
    {
        self.store.rules();
        self.store.step(event)
    }

    /// All that isn't on the disk is lost, and the disk is mounted anew; no volume is open then. Each of these blocks has the last
    /// bytes that were given to a write since its last good sync, where there are such, and every other one its settled bytes.
    /// The library's types that block 0 hasn't on the disk then are installed anew.
    /// Answers beside the store how many blocks the mount reached, and how many are free; `None` where it found no memory, or
    /// where a type could not be installed.
    pub fn crash(
        self,
        rt: &(impl Threads + Sync),
        alloc: Global,
        kept: Vec<u32>,
    ) -> Option<(Guarded<Running>, u32, u32)>
        ensures { IfSome result (λ r. Recovers (own_types self.state) self.state (own_types r.0.state) r.0.state) }
    {
        let (running, other) = self.into_parts();
        let (running, reached, free) = crashed(rt, running, kept)?;
        let store = with_library(alloc, running)?;
        let other = closed(other);
        Some((Guarded { store, other }, reached, free))
    }

    /// The least block that may be written.
    pub fn pick(&self) -> Option<u32> {
        self.store.kernel().state().pick()
    }
}
