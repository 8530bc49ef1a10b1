// An open volume of trees, and what its lines know of it.

ghost use Rattle.std.specs.Prelude.{◌≡◌, ◌∷◌, Bool, IfErr, IfOk, List, MatchBool, OnOk, Result, [], length};
ghost use Rattle.flush_store.specs.Written.{AllWritten};
ghost use Rattle.treefs_model.specs.declared.fault.Fault.{Fault as Why};
ghost use Rattle.treefs_session.specs.Opening.{Closes, IsNotClosed, IsNotOpened, IsOpened, MendsVolume};
ghost use Rattle.treefs_session.specs.Freeing.{GivesUp, MakesFreely, Syncs};
ghost use Rattle.treefs_session.specs.Pieces.{WritesAll};
ghost use Rattle.treefs_session.specs.Puts.{PutDoes};
ghost use Rattle.tree_lines.specs.Answers.{Answers, IsTold};

use crate::fault::{Fault, at_bytes};
use crate::paths::TOP;
use crate::reason::{naming_reason_of, reason_of};
use crate::told::Told;
use edit_list::Fs;
use file_disk::SystemFault;
use flush_store::FlushStore;
use std::alloc::Global;
use store_types::Refusal;
use treefs_model::Fault as TreeFault;
use treefs_session::law::closes_and_syncs_write;
use treefs_session::{BlockTypes, Call, Put, Session, Target};

/// An open volume of trees, and what its lines know of it.
pub struct Opened<S: FlushStore> {
    /// The session, for looking; what changes it goes through the methods here.
    pub session: Session<S>,
    /// What the line that is under way has left out.
    pub told: Told,
    /// The folder from which relative paths begin. It is not freed while it is held here.
    pub folder: u32,
    /// What tells why the disk fails, of one in a file.
    system: Option<SystemFault>,
    /// Whether the store refused a call, after which nothing more is done: what was pending may be half of a call, which the next opening mends.
    is_broken: bool,
}

impl<S: FlushStore + Drop> Drop for Opened<S> {
    fn drop(self) {
        let Opened {
            session: _,
            told: _,
            folder: _,
            system: _,
            is_broken: _,
        } = self;
    }
}

/// The fault of a store that refused. Where the system has told why the disk fails that is told.
fn refused(system: &Option<SystemFault>, refusal: Refusal) -> Fault {
    let told = match system {
        Some(system) => system.first(),
        None => None,
    };
    match (refusal, told) {
        (Refusal::Device, Some(error)) => Fault::Disk(error),
        (Refusal::NoMemory, _) => Fault::NoMemory,
        _ => Fault::Flush(refusal),
    }
}

/// The fault of a call on a volume as a whole.
fn volume_fault(system: &Option<SystemFault>, fault: TreeFault) -> Fault {
    match fault {
        TreeFault::Kernel(refusal) => refused(system, refusal),
        fault => Fault::Volume(reason_of(fault, 0)),
    }
}

impl<S: FlushStore + Drop> Opened<S> {
    /// Opens the volume of trees of a file system of a store, told with the types of its blocks and the time, as `open` of a session does it. Where the disk
    /// is one in a file its faults are told by the system's reason.
    pub fn open(
        alloc: Global,
        store: S,
        opening: (Fs, BlockTypes, i64),
        system: Option<SystemFault>,
    ) -> Result<Opened<S>, Fault>
        ensures types { IfOk result (λ opened. S.types_of opened.session.store ≡ S.types_of store) }
        ensures ok { IfOk result (λ opened.
            IsOpened (S.types_of store) (S.state_of store) (S.state_of opened.session.store) opening.0 opening.1 opening.2
            opened.session.volume) }
        ensures fresh { IfOk result (λ opened. (opened.folder ≡ 1) × (length opened.told.faults.items ≡ 0)) }
        ensures err { IfErr result (λ told. (why : Why) × IsNotOpened (S.types_of store) (S.state_of store) opening.0 opening.1 opening.2 why) }
    {
        let (fs, types, time) = opening;
        match Session::open(alloc, store, fs, types, time) {
            Ok(session) => Ok(Opened {
                session,
                told: Told::nothing(alloc),
                folder: TOP,
                system,
                is_broken: false,
            }),
            Err(fault) => Err(volume_fault(&system, fault)),
        }
    }

    /// Mends the volume, which was just opened, also where it had been closed, as `mend` of a session does it.
    pub fn mend(&mut self, alloc: Global) -> Result<(), Fault>
        ensures types { S.types_of self.new.session.store ≡ S.types_of self.old.session.store }
        ensures folder { self.new.folder ≡ self.old.folder }
        ensures told { self.new.told ≡ self.old.told }
        ensures does { Answers (MendsVolume (S.types_of self.old.session.store)
            (S.state_of self.old.session.store) (S.state_of self.new.session.store) self.old.session.volume self.new.session.volume) result }
    {
        match self.session.mend(alloc) {
            Ok(()) => Ok(()),
            Err(fault) => {
                self.is_broken = matches!(fault, TreeFault::Kernel(_));
                Err(volume_fault(&self.system, fault))
            }
        }
    }

    /// What tells inodes that a line makes from earlier ones of their numbers: the last bits of its time.
    pub fn generation(&self) -> u32 {
        let time = self.session.volume().memory.clock.to_le_bytes();
        u32::from_le_bytes([time[0], time[1], time[2], time[3]])
    }

    /// Whether nothing more can be done.
    pub fn is_broken(&self) -> bool
        ensures { result ≡ self.now.is_broken }
    {
        self.is_broken
    }

    /// The fault of a call at a path.
    fn fault_at(&mut self, alloc: Global, path: &[u8], fault: TreeFault, is_naming: bool) -> Fault
        ensures session { self.new.session ≡ self.old.session }
        ensures folder { self.new.folder ≡ self.old.folder }
        ensures told { self.new.told ≡ self.old.told }
    {
        let free = self.session.store().state().free();
        match fault {
            TreeFault::Kernel(refusal) => {
                self.is_broken = true;
                refused(&self.system, refusal)
            }
            fault if is_naming => at_bytes(alloc, path, naming_reason_of(fault, free)),
            fault => at_bytes(alloc, path, reason_of(fault, free)),
        }
    }

    /// What a call answered, or its fault at a path.
    fn answered<A: Drop>(
        &mut self,
        alloc: Global,
        path: &[u8],
        answer: Result<A, TreeFault>,
        is_naming: bool,
    ) -> Result<A, Fault>
        ensures session { self.new.session ≡ self.old.session }
        ensures folder { self.new.folder ≡ self.old.folder }
        ensures told { self.new.told ≡ self.old.told }
        ensures answer { IsTold answer result }
    {
        match answer {
            Ok(answer) => Ok(answer),
            Err(fault) => Err(self.fault_at(alloc, path, fault, is_naming)),
        }
    }

    /// Makes a call on bytes or attributes, as `make` of a session does. Its fault is told at a path.
    pub fn make<C: Call>(
        &mut self,
        alloc: Global,
        path: &[u8],
        call: &C,
    ) -> Result<C::Answer, Fault>
    where
        C::Answer: Drop,
        ensures types { S.types_of self.new.session.store ≡ S.types_of self.old.session.store }
        ensures folder { self.new.folder ≡ self.old.folder }
        ensures told { self.new.told ≡ self.old.told }
        ensures does { Answers (MakesFreely (C.does call.now (S.types_of self.old.session.store)) (S.types_of self.old.session.store) (self.old.folder ∷ [])
            (S.state_of self.old.session.store) (S.state_of self.new.session.store) self.old.session.volume self.new.session.volume) result }
    {
        let held = [self.folder];
        let answer = self.session.make(alloc, &held, call);
        self.answered(alloc, path, answer, false)
    }

    /// Makes a call that makes names, as `make` does: what is too large then is the folder.
    pub fn make_name<C: Call>(
        &mut self,
        alloc: Global,
        path: &[u8],
        call: &C,
    ) -> Result<C::Answer, Fault>
    where
        C::Answer: Drop,
        ensures types { S.types_of self.new.session.store ≡ S.types_of self.old.session.store }
        ensures folder { self.new.folder ≡ self.old.folder }
        ensures told { self.new.told ≡ self.old.told }
        ensures does { Answers (MakesFreely (C.does call.now (S.types_of self.old.session.store)) (S.types_of self.old.session.store) (self.old.folder ∷ [])
            (S.state_of self.old.session.store) (S.state_of self.new.session.store) self.old.session.volume self.new.session.volume) result }
    {
        let held = [self.folder];
        let answer = self.session.make(alloc, &held, call);
        self.answered(alloc, path, answer, true)
    }

    /// Puts a whole file or symbolic link, as `put` of a session does, and answers its number. Its fault is told at a path.
    pub fn put(&mut self, alloc: Global, path: &[u8], put: &Put) -> Result<u32, Fault>
        ensures types { S.types_of self.new.session.store ≡ S.types_of self.old.session.store }
        ensures folder { self.new.folder ≡ self.old.folder }
        ensures told { self.new.told ≡ self.old.told }
        ensures does { Answers (PutDoes (S.types_of self.old.session.store) (self.old.folder ∷ []) put.now
            (S.state_of self.old.session.store) (S.state_of self.new.session.store) self.old.session.volume self.new.session.volume) result }
    {
        let held = [self.folder];
        let answer = self.session.put(alloc, &held, put);
        self.answered(alloc, path, answer, true)
    }

    /// Writes bytes, all of them or up to a fault, as `write_all` of a session does. Its fault is told at a path.
    pub fn write_all(
        &mut self,
        alloc: Global,
        path: &[u8],
        target: Target,
        bytes: &[u8],
    ) -> Result<(), Fault>
        ensures types { S.types_of self.new.session.store ≡ S.types_of self.old.session.store }
        ensures folder { self.new.folder ≡ self.old.folder }
        ensures told { self.new.told ≡ self.old.told }
        ensures does { Answers (WritesAll (S.types_of self.old.session.store) (self.old.folder ∷ []) target bytes.now
            (S.state_of self.old.session.store) (S.state_of self.new.session.store) self.old.session.volume self.new.session.volume) result }
    {
        let held = [self.folder];
        let answer = self.session.write_all(alloc, &held, target, bytes);
        self.answered(alloc, path, answer, false)
    }

    /// Gives up an inode that was begun and got no name, by its block. What can't be given up now is freed by the next opening, and is not told.
    pub fn give_up(&mut self, alloc: Global, block: u32)
        ensures types { S.types_of self.new.session.store ≡ S.types_of self.old.session.store }
        ensures folder { self.new.folder ≡ self.old.folder }
        ensures told { self.new.told ≡ self.old.told }
        ensures does { MatchBool self.old.is_broken (self.new.session ≡ self.old.session) ((given : Result Bool Why)
            × GivesUp (S.types_of self.old.session.store) block (S.state_of self.old.session.store) (S.state_of self.new.session.store)
            self.old.session.volume self.new.session.volume given) }
    {
        if self.is_broken {
            return;
        }
        let _given_up = self.session.give_up(alloc, block);
    }

    /// Writes all that is pending, and frees what no name leads to, but for the folder that is held.
    pub fn sync(&mut self, alloc: Global) -> Result<(), Fault>
        ensures types { S.types_of self.new.session.store ≡ S.types_of self.old.session.store }
        ensures folder { self.new.folder ≡ self.old.folder }
        ensures told { self.new.told ≡ self.old.told }
        ensures does { Answers (Syncs (S.types_of self.old.session.store) (self.old.folder ∷ [])
            (S.state_of self.old.session.store) (S.state_of self.new.session.store) self.old.session.volume self.new.session.volume) result }
        ensures written { OnOk result (AllWritten (S.state_of self.new.session.store).lives) }
    {
        closes_and_syncs_write();
        let held = [self.folder];
        match self.session.sync(alloc, &held) {
            Ok(()) => Ok(()),
            Err(fault) => Err(self.fault_at(alloc, b"sync", fault, false)),
        }
    }

    /// Closes the volume: what no name leads to is freed, and all is written. Answers the store, of which nothing is pending any more.
    pub fn close(self, alloc: Global) -> Result<S, Fault>
        ensures ok { IfOk result (λ store. (S.types_of store ≡ S.types_of self.session.store)
            × Closes (S.types_of self.session.store) (S.state_of self.session.store) (S.state_of store) self.session.volume) }
        ensures written { IfOk result (λ store. AllWritten (S.state_of store).lives) }
    {
        closes_and_syncs_write();
        let Opened {
            session,
            told: _,
            folder: _,
            system,
            is_broken: _,
        } = self;
        match session.close(alloc) {
            Ok(store) => Ok(store),
            Err(unclosed) => Err(volume_fault(&system, unclosed.fault)),
        }
    }
}
