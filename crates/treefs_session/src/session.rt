// A store with the open volume of a file system.

ghost use Rattle.std.specs.Prelude.{◌≡◌, Err, IfErr, IfOk, Ok};
ghost use Rattle.xn_model.specs.Lives.{StoreState};
ghost use Rattle.treefs.specs.Making.{MkfsDoes};
ghost use Rattle.treefs.specs.Opening.{opened};
ghost use Rattle.treefs_mounts.specs.Opening.{MendsVolume};
ghost use Rattle.treefs_session.specs.Opening.{Closes, IsNotClosed, IsNotOpened, IsOpened, with_clock};

use crate::calls::lives::Upkeep;
use crate::tries::repeat;
use edit_list::Fs;
use flush_store::FlushStore;
use std::alloc::Global;
use treefs::{BlockTypes, Volume};
use treefs_model::Fault;

mod freeing;
mod pieces;
mod puts;

/// A store with the open volume of a file system.
pub struct Session<S: FlushStore> {
    store: S,
    volume: Volume,
}

impl<S: FlushStore + Drop> Drop for Session<S> {
    fn drop(self) {
        let Session {
            store: _,
            volume: _,
        } = self;
    }
}

/// A session that could not be closed, and why.
pub struct Unclosed<S: FlushStore> {
    pub session: Session<S>,
    pub fault: Fault,
}

impl<S: FlushStore + Drop> Drop for Unclosed<S> {
    fn drop(self) {
        let Unclosed {
            session: _,
            fault: _,
        } = self;
    }
}

impl<S: FlushStore + Drop> Session<S> {
    /// Opens the volume of a file system of a store. What is pending there is written first: the fault is `Kernel` where that stops. Then the volume is opened as
    /// `treefs_mounts::open` does it, with its faults: one that was not closed is mended.
    pub fn open(
        alloc: Global,
        store: S,
        fs: Fs,
        types: BlockTypes,
        time: i64,
    ) -> Result<Session<S>, Fault>
        ensures types { IfOk result (λ session. S.types_of session.store ≡ S.types_of store) }
        ensures ok { IfOk result (λ session. IsOpened (S.types_of store) (S.state_of store) (S.state_of session.store) fs types time session.volume) }
        ensures err { IfErr result (λ fault. IsNotOpened (S.types_of store) (S.state_of store) fs types time fault) }
    {
        let mut store = store;
        if let Err(refusal) = store.flush(alloc) {
            return Err(Fault::Kernel(refusal));
        }
        match treefs_mounts::open(alloc, &mut store, fs, types, time) {
            Ok(volume) => Ok(Session { store, volume }),
            Err(fault) => Err(fault),
        }
    }

    /// Opens the volume of a file system of a store to look at it: nothing is written, mended or edited, and what a crash left shows. The fault is `NoEntry` where
    /// the file system has no root of the type of inodes with the mark of a volume and an inode 1.
    pub fn open_to_look(
        alloc: Global,
        store: S,
        fs: Fs,
        types: BlockTypes,
        time: i64,
    ) -> Result<Session<S>, Fault>
        ensures store { IfOk result (λ session. session.store ≡ store) }
        ensures ok { IfOk result (λ session. opened (S.state_of store) fs types time ≡ Ok session.volume) }
        ensures err { IfErr result (λ fault. opened (S.state_of store) fs types time ≡ Err fault) }
    {
        match Volume::open_to_look(alloc, &store, fs, types, time) {
            Ok(volume) => Ok(Session { store, volume }),
            Err(fault) => Err(fault),
        }
    }

    /// Makes the volume of a file system that has none, as `mkfs` of a volume does it, with its faults.
    pub fn format(
        alloc: Global,
        store: S,
        fs: Fs,
        types: BlockTypes,
        key: &[u8; 16],
        time: i64,
    ) -> Result<Session<S>, Fault>
        ensures types { IfOk result (λ session. S.types_of session.store ≡ S.types_of store) }
        ensures ok { IfOk result (λ session.
            MkfsDoes (S.types_of store) (S.state_of store) (S.state_of session.store) fs types key.now time (Ok session.volume)) }
        ensures err { IfErr result (λ fault. (left : StoreState) × MkfsDoes (S.types_of store) (S.state_of store) left fs types key.now time (Err fault)) }
    {
        let mut store = store;
        match Volume::mkfs(alloc, &mut store, fs, types, key, time) {
            Ok(volume) => Ok(Session { store, volume }),
            Err(fault) => Err(fault),
        }
    }

    /// Closes the volume, and answers the store: what no name leads to is freed, held or not, all is written, and the volume says that it is closed. The faults are
    /// those of `treefs_mounts::close`, and of `make` of a session.
    pub fn close(self, alloc: Global) -> Result<S, Unclosed<S>>
        ensures ok { IfOk result (λ store. (S.types_of store ≡ S.types_of self.store)
            × Closes (S.types_of self.store) (S.state_of self.store) (S.state_of store) self.volume) }
        ensures err { IfErr result (λ unclosed. (S.types_of unclosed.session.store ≡ S.types_of self.store)
            × IsNotClosed (S.types_of self.store) (S.state_of self.store) (S.state_of unclosed.session.store) self.volume unclosed.session.volume
            unclosed.fault) }
    {
        let Session {
            mut store,
            mut volume,
        } = self;
        match repeat(alloc, &mut store, &mut volume, &Upkeep::Close) {
            Ok(()) => Ok(store),
            Err(fault) => Err(Unclosed {
                session: Session { store, volume },
                fault,
            }),
        }
    }

    /// The store again; the volume counts as open there, and what is pending stays so.
    pub fn into_store(self) -> S
        ensures { result ≡ self.store }
    {
        let Session { store, volume: _ } = self;
        store
    }
}

impl<S: FlushStore> Session<S> {
    /// The store, for looking.
    pub fn store(&self) -> &S
        ensures { result.now ≡ self.now.store }
    {
        &self.store
    }

    /// The volume, for looking.
    pub fn volume(&self) -> &Volume
        ensures { result.now ≡ self.now.volume }
    {
        &self.volume
    }

    /// Mends the volume as `treefs_mounts::mend` does it, also where it was closed, and writes that. It is for a session that was just opened: an inode that was
    /// begun, and one that has lost its last name, are freed, held or not.
    pub fn mend(&mut self, alloc: Global) -> Result<(), Fault>
        ensures types { S.types_of self.new.store ≡ S.types_of self.old.store }
        ensures does { MendsVolume (S.types_of self.old.store) (S.state_of self.old.store) (S.state_of self.new.store) self.old.volume self.new.volume
            result }
    {
        treefs_mounts::mend(alloc, &mut self.store, &mut self.volume)
    }

    /// Sets the time of the calls from now on, in nanoseconds since 1970.
    pub fn set_clock(&mut self, time: i64)
        ensures store { self.new.store ≡ self.old.store }
        ensures volume { self.new.volume ≡ with_clock self.old.volume time }
    {
        self.volume.memory.clock = time;
    }
}
