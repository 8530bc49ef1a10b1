// One of the names of a directory that has two of them.

ghost use Rattle.std.specs.Prelude.{◌≡◌, ◌&&◌, ◌==◌, not, Ok, Err, IfOk, OnErr, None};
ghost use Rattle.ffs_model.specs.Library.{IsLibrary};
ghost use Rattle.ffs_lookup.specs.Places.{IsSlot};
ghost use Rattle.ffs_lookup.specs.declared.fault.FfsFault.{FfsFault};
ghost use Rattle.ffs_lookup.specs.declared.places.Slot.{Slot};
ghost use Rattle.ffs_lib.specs.Orders.{Orders, removed_edits};
ghost use Rattle.ffs_lib.specs.Stages.{KeptOrEmptied, Unnames};
ghost use Rattle.ffs_lib.specs.Steps.{newest_block};
ghost use Rattle.ffs_lib.specs.Unnaming.{may_unname, unname_in};

use super::Volume;
use ffs_lookup::{FfsFault, Slot, find_directory};
use std::alloc::Global;
use xn_state::Store;

/// Whether the first of two entries of a directory is one name more of what the second names.
fn is_name_more(directory: u16, entry: Slot, kept: Slot) -> bool
    ensures { result ≡ may_unname directory entry kept }
{
    entry.inode == kept.inode
        && entry.inode != directory
        && !(entry.block == kept.block && entry.place == kept.place)
}

impl Volume {
    ghost use Rattle.ffs_lib.specs.Volumes.{IsVolume};

    /// Looks up the entry of a directory that another entry names too.
    fn look_up_again<S: Store>(
        &self,
        store: &S,
        directory: u16,
        name: &[u8],
        other: &[u8],
    ) -> Result<Slot, FfsFault>
        ensures slot { IfOk result (λ slot. IsSlot (S.state_of store.now) self.now.fs.number slot) }
        ensures exact { IsLibrary (S.types_of store.now) →
            result ≡ unname_in (newest_block (S.state_of store.now)) self.now.fs.number directory name.now other.now }
    {
        let slot = self.named(store, directory, name)?;
        let kept = self.named(store, directory, other)?;
        let _ = find_directory(store, self.fs, slot.inode)?;
        if is_name_more(directory, slot, kept) {
            Ok(slot)
        } else {
            Err(FfsFault::Exists)
        }
    }

    /// Takes one of a directory's names where another entry of the same directory names it too, as a `rename` that was cut short leaves it. Before any edit
    /// it answers, in this order, `NoEntry` or `NotDir` of the directory, `BadName` or `NoEntry` of the name and then of the other one, `NotDir` where the
    /// name is a file's, `Exists` where the two don't name one directory by two entries. Any refusal of the store is `Kernel`; what was done before it stands.
    pub fn unname<S: Store>(
        &self,
        alloc: Global,
        store: &mut S,
        directory: u16,
        name: &[u8],
        other: &[u8],
    ) -> Result<(), FfsFault>
        requires { IsVolume (S.types_of store.old) (S.state_of store.old) self.now }
        ensures types { S.types_of store.new ≡ S.types_of store.old }
        ensures refused { (fault : FfsFault) →
            Err fault ≡ unname_in (newest_block (S.state_of store.old)) self.now.fs.number directory name.now other.now →
            (result ≡ Err fault) × (S.state_of store.new ≡ S.state_of store.old) }
        ensures inodes { let old = newest_block (S.state_of store.old) in let new = newest_block (S.state_of store.new) in let fs = self.now.fs.number in
            (slot : Slot) → Ok slot ≡ unname_in old fs directory name.now other.now →
            Unnames old new fs directory slot.inode × OnErr result (KeptOrEmptied old new fs slot.inode) }
        ensures order { let old = newest_block (S.state_of store.old) in let fs = self.now.fs.number in
            (slot : Slot) → Ok slot ≡ unname_in old fs directory name.now other.now → Orders (S.types_of store.old) fs
            (removed_edits old fs slot None (S.state_of store.old).next) (S.state_of store.old) (S.state_of store.new) result }
        ensures keeps { IsVolume (S.types_of store.old) (S.state_of store.new) self.now }
    {
        let slot = self.look_up_again(store, directory, name, other)?;
        self.remove(alloc, store, slot, None)
    }
}
