// What no name leads to is freed, and all is written: so a call that found no space is made once more.

ghost use Rattle.std.specs.Prelude.{◌≡◌, IfOk};
ghost use Rattle.treefs_session.specs.Freeing.{FreesAndTries, GivesUp, GivesUpAgain, MakesFreely, ReapsAndWrites, Syncs, lacks_space, unheld};

use crate::call::Call;
use crate::calls::lives::{GiveUp, Upkeep};
use crate::session::Session;
use crate::tries::repeat;
use flush_store::FlushStore;
use std::alloc::{AllocError, Global};
use treefs::Volume;
use treefs_edits::lacks_memory;
use treefs_model::Fault;

/// Whether a call found no free block, or no free number.
fn lacks_space(fault: Fault) -> bool
    ensures { result ≡ lacks_space fault }
{
    match fault {
        Fault::NoSpace | Fault::NoInode => true,
        _ => false,
    }
}

/// The inodes without links of a volume that aren't held.
fn unheld(alloc: Global, volume: &Volume, held: &[u32]) -> Result<Vec<u32>, AllocError>
    ensures { IfOk result (λ numbers. numbers.items ≡ unheld held.now volume.now.memory.orphans) }
{
    let orphans = volume.memory.orphans.iter().copied();
    orphans
        .filter(|number| !held.contains(number))
        .collect(alloc)
}

impl<S: FlushStore> Session<S> {
    /// Frees inodes without links, and writes all.
    fn reap_and_write(&mut self, alloc: Global, numbers: &[u32]) -> Result<(), Fault>
        ensures types { S.types_of self.new.store ≡ S.types_of self.old.store }
        ensures does { ReapsAndWrites (S.types_of self.old.store) numbers.now (S.state_of self.old.store) (S.state_of self.new.store) self.old.volume
            self.new.volume result }
    {
        let (store, volume) = (&mut self.store, &mut self.volume);
        if let Err(fault) = repeat(alloc, store, volume, &Upkeep::Reap { numbers }) {
            return Err(fault);
        }
        repeat(alloc, store, volume, &Upkeep::Flush)
    }

    /// Frees the inodes that no name leads to, but for held ones, and writes all that is pending, with the times that no edit has written yet. The faults are
    /// those of `reap`, of `write_times` and of the store's flush.
    pub fn sync(&mut self, alloc: Global, held: &[u32]) -> Result<(), Fault>
        ensures types { S.types_of self.new.store ≡ S.types_of self.old.store }
        ensures does { Syncs (S.types_of self.old.store) held.now (S.state_of self.old.store) (S.state_of self.new.store) self.old.volume self.new.volume
            result }
    {
        match unheld(alloc, &self.volume, held) {
            Ok(numbers) => self.reap_and_write(alloc, &numbers),
            Err(error) => Err(lacks_memory(error)),
        }
    }

    /// Frees and writes what can be, and makes a call.
    fn free_and_make<C: Call>(
        &mut self,
        alloc: Global,
        held: &[u32],
        call: &C,
    ) -> Result<C::Answer, Fault>
        ensures types { S.types_of self.new.store ≡ S.types_of self.old.store }
        ensures does { FreesAndTries (C.does call.now (S.types_of self.old.store)) (S.types_of self.old.store) held.now (S.state_of self.old.store)
            (S.state_of self.new.store) self.old.volume self.new.volume result }
    {
        match self.sync(alloc, held) {
            Ok(()) => repeat(alloc, &mut self.store, &mut self.volume, call),
            Err(fault) => Err(fault),
        }
    }

    /// Makes a call. Where it is full, a wave of what is pending is written, and it is made again; `Full` comes where nothing was pending any more, or the call
    /// was made 1,048,576 times. Where it finds no space, inodes that no name leads to are freed, but for held ones, all is written, and it is made once more.
    /// The other faults are the call's, and those of `sync`.
    pub fn make<C: Call>(
        &mut self,
        alloc: Global,
        held: &[u32],
        call: &C,
    ) -> Result<C::Answer, Fault>
        ensures types { S.types_of self.new.store ≡ S.types_of self.old.store }
        ensures does { MakesFreely (C.does call.now (S.types_of self.old.store)) (S.types_of self.old.store) held.now (S.state_of self.old.store)
            (S.state_of self.new.store) self.old.volume self.new.volume result }
    {
        match repeat(alloc, &mut self.store, &mut self.volume, call) {
            Ok(answer) => Ok(answer),
            Err(fault) => {
                if lacks_space(fault) {
                    self.free_and_make(alloc, held, call)
                } else {
                    Err(fault)
                }
            }
        }
    }

    /// Writes all, and gives up an inode once more.
    fn write_and_give_up(&mut self, alloc: Global, block: u32) -> Result<bool, Fault>
        ensures types { S.types_of self.new.store ≡ S.types_of self.old.store }
        ensures does { GivesUpAgain (S.types_of self.old.store) block (S.state_of self.old.store) (S.state_of self.new.store) self.old.volume
            self.new.volume result }
    {
        let (store, volume) = (&mut self.store, &mut self.volume);
        match repeat(alloc, store, volume, &Upkeep::Flush) {
            Ok(()) => repeat(alloc, store, volume, &GiveUp { block }),
            Err(fault) => Err(fault),
        }
    }

    /// Gives up an inode that was begun, and to which nothing points; where its block isn't free then, all is written, and it is given up once more. Answers
    /// whether its block is free.
    pub fn give_up(&mut self, alloc: Global, block: u32) -> Result<bool, Fault>
        ensures types { S.types_of self.new.store ≡ S.types_of self.old.store }
        ensures does { GivesUp (S.types_of self.old.store) block (S.state_of self.old.store) (S.state_of self.new.store) self.old.volume self.new.volume
            result }
    {
        match repeat(alloc, &mut self.store, &mut self.volume, &GiveUp { block }) {
            Ok(true) => Ok(true),
            Ok(false) => self.write_and_give_up(alloc, block),
            Err(fault) => Err(fault),
        }
    }
}
