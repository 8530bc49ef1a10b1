// The entry of one file that comes to name another.

ghost use Rattle.std.specs.Prelude.{◌≡◌, ◌≢◌, ◌&&◌, ◌==◌, not, ℕ, Option, None, Some, Ok, IfOk, MatchResult, OnErr};
ghost use Rattle.ffs_model.specs.Library.{IsLibrary, inode_links, library_layout};
ghost use Rattle.ffs_model.specs.Standing.{StayNamed};
ghost use Rattle.ffs_lookup.specs.Newest.{first_named, mapped, named_in};
ghost use Rattle.ffs_lookup.specs.Places.{IsDirectory, IsSlot};
ghost use Rattle.ffs_lookup.specs.declared.places.Slot.{Slot};
ghost use Rattle.ffs_lib.specs.Orders.{InOrder, Numbered, Orders, removed_edits, replaced_parts, turned_edits};
ghost use Rattle.ffs_lib.specs.Replacing.{NamesStand, Replaced, ReplacedInodes, Turned, directories_in, files_in, pair_of, replace_in};
ghost use Rattle.ffs_lookup.specs.Files.{replaced};
ghost use Rattle.ffs_lookup.specs.FileValues.{files_of};
ghost use Rattle.ffs_lib.specs.Stages.{Does, KeptOrEmptied, replaced_stages};
ghost use Rattle.ffs_lib.specs.Steps.{Ends, MayLose, MayName, Stage, Wants, newest_block};
ghost use Rattle.xn_model.specs.Lives.{Lives};
ghost use Rattle.xn_model.specs.Types.{Types};

use super::{Volume, are_directories, are_names};
use crate::put::{add_link, put, take_link};
use edit_list::{EditId, Fs};
use ffs_format::Inode;
use ffs_format::entries::ENTRY_LEN;
use ffs_lookup::{FfsFault, Found, Slot, find_entry, find_file, find_inode};
use std::alloc::Global;
use xn_state::Store;

/// Whether two entries stand at one place.
fn is_same_place(entry: Slot, other: Slot) -> bool
    ensures { result ≡ (entry.block == other.block) && (entry.place == other.place) }
{
    entry.block == other.block && entry.place == other.place
}

/// Whether an inode can have no link more for an entry that names another one.
fn is_full_for(inode: &Inode, moved: u16, replaced: u16) -> bool
    ensures { result ≡ not (moved == replaced) && (inode_links inode.now == 65535) }
{
    moved != replaced && inode.links() == u16::MAX
}

/// Both directories, where both names are names.
fn look_up_directories<S: Store>(
    store: &S,
    fs: Fs,
    directory: u16,
    name: &[u8],
    other: u16,
    other_name: &[u8],
) -> Result<(Found, Found), FfsFault>
    ensures first { IfOk result (λ found. IsDirectory (S.state_of store.now) fs.number directory found.0) }
    ensures second { IfOk result (λ found. IsDirectory (S.state_of store.now) fs.number other found.1) }
    ensures exact { IsLibrary (S.types_of store.now) → mapped (λ found. (found.0.inode, found.1.inode)) result
        ≡ directories_in (newest_block (S.state_of store.now)) fs.number directory name.now other other_name.now }
{
    let from = find_inode(store, fs, directory)?;
    let to = find_inode(store, fs, other)?;
    if !are_directories(&from.inode, &to.inode) {
        return Err(FfsFault::NotDir);
    }
    if !are_names(name, other_name) {
        return Err(FfsFault::BadName);
    }
    Ok((from, to))
}

/// Looks whether both entries name files, and the first of these may be named by the second entry.
fn look_up_files<S: Store>(store: &S, fs: Fs, from: Slot, to: Slot) -> Result<(), FfsFault>
    ensures { IsLibrary (S.types_of store.now) → mapped (λ _. (from, to)) result ≡ files_in (newest_block (S.state_of store.now)) fs.number from to }
{
    let moved = find_file(store, fs, from.inode)?;
    let _ = find_file(store, fs, to.inode)?;
    if is_full_for(&moved.inode, from.inode, to.inode) {
        return Err(FfsFault::TooLarge);
    }
    Ok(())
}

/// Looks up the entry that is moved, and the one that is replaced.
fn look_up_replace<S: Store>(
    store: &S,
    fs: Fs,
    directory: u16,
    name: &[u8],
    other: u16,
    other_name: &[u8],
) -> Result<(Slot, Slot), FfsFault>
    ensures first { IfOk result (λ slots. IsSlot (S.state_of store.now) fs.number slots.0) }
    ensures second { IfOk result (λ slots. IsSlot (S.state_of store.now) fs.number slots.1) }
    ensures exact { IsLibrary (S.types_of store.now) →
        result ≡ replace_in (newest_block (S.state_of store.now)) fs.number directory name.now other other_name.now }
{
    let (home, target) = look_up_directories(store, fs, directory, name, other, other_name)?;
    let from = find_entry(store, fs, &home, directory, name)?.ok_or(FfsFault::NoEntry)?;
    let to = find_entry(store, fs, &target, other, other_name)?.ok_or(FfsFault::NoEntry)?;
    look_up_files(store, fs, from, to)?;
    Ok((from, to))
}

impl Volume {
    ghost use Rattle.ffs_lib.specs.Volumes.{IsVolume};

    /// Gives a file the name of another one, in the same directory or in another, and takes its old name; the other file loses that name, and is given
    /// up with its last one. In every cut that has the second entry's block as it was at the call, or later, this entry names one of the two files; in
    /// every one that has both entries' blocks so, one of them names the moved file. Before any edit it answers, in this order, `NoEntry` or `NotDir` of
    /// either directory, `BadName` of either name, `NoEntry` of the first name, then of the second, `IsDir` of either entry, `TooLarge` where the first file
    /// has 65,535 links and the second entry names another one. Onto itself it does nothing; where both entries name one file it is `unlink` of the first.
    /// Any refusal of the store is `Kernel`; what was done before it stands, so both names may be left, or the other file without a name.
    pub fn replace<S: Store>(
        &self,
        alloc: Global,
        store: &mut S,
        directory: u16,
        name: &[u8],
        other: u16,
        other_name: &[u8],
    ) -> Result<(), FfsFault>
        requires { IsVolume (S.types_of store.old) (S.state_of store.old) self.now }
        ensures types { S.types_of store.new ≡ S.types_of store.old }
        ensures answers { let files = files_of (newest_block (S.state_of store.old)) self.now.fs.number in
            Does (S.types_of store.old) self.now.fs.number (replaced files directory name.now other other_name.now)
            (replaced_stages files directory name.now other other_name.now) (S.state_of store.old) (S.state_of store.new) result }
        ensures inodes { (from to : Slot) →
            Ok (from, to) ≡ replace_in (newest_block (S.state_of store.old)) self.now.fs.number directory name.now other other_name.now →
            Replaced (S.state_of store.old) (S.state_of store.new) self.now.fs.number directory from other to result }
        ensures keeps { IsVolume (S.types_of store.old) (S.state_of store.new) self.now }
        ensures stands { (from to : Slot) →
            Ok (from, to) ≡ replace_in (newest_block (S.state_of store.old)) self.now.fs.number directory name.now other other_name.now →
            from.inode ≢ to.inode → NamesStand (S.state_of store.old) (S.state_of store.new) from to }
        ensures order { (from to : Slot) →
            Ok (from, to) ≡ replace_in (newest_block (S.state_of store.old)) self.now.fs.number directory name.now other other_name.now →
            from.inode ≢ to.inode → InOrder (S.types_of store.old) self.now.fs.number (replaced_parts self.now.fs.number from to (S.state_of store.old).next)
            (S.state_of store.old) (S.state_of store.new) result }
        ensures one_file { let old = newest_block (S.state_of store.old) in let fs = self.now.fs.number in
            (from to : Slot) → Ok (from, to) ≡ replace_in old fs directory name.now other other_name.now → from ≢ to → from.inode ≡ to.inode →
            Orders (S.types_of store.old) fs (removed_edits old fs from None (S.state_of store.old).next) (S.state_of store.old) (S.state_of store.new) result }
    {
        let (from, to) = look_up_replace(store, self.fs, directory, name, other, other_name)?;
        if is_same_place(from, to) {
            return Ok(());
        }
        if from.inode == to.inode {
            return self.remove(alloc, store, from, None);
        }
        self.name_over(alloc, store, directory, name, other, other_name, from, to)
    }

    /// Lets the second entry name the inode of the first, and clears the first; the inode that the second one named loses a link.
    fn name_over<S: Store>(
        &self,
        alloc: Global,
        store: &mut S,
        directory: u16,
        name: &[u8],
        other: u16,
        other_name: &[u8],
        from: Slot,
        to: Slot,
    ) -> Result<(), FfsFault>
        requires volume { IsVolume (S.types_of store.old) (S.state_of store.old) self.now }
        requires found { Ok (from, to) ≡ replace_in (newest_block (S.state_of store.old)) self.now.fs.number directory name.now other other_name.now }
        requires first { IsSlot (S.state_of store.old) self.now.fs.number from }
        requires second { IsSlot (S.state_of store.old) self.now.fs.number to }
        requires apart { from.inode ≢ to.inode }
        ensures types { S.types_of store.new ≡ S.types_of store.old }
        ensures leaves { let files = files_of (newest_block (S.state_of store.old)) self.now.fs.number in
            IsVolume (S.types_of store.old) (S.state_of store.new) self.now × NamesStand (S.state_of store.old) (S.state_of store.new) from to
            × Does (S.types_of store.old) self.now.fs.number (replaced files directory name.now other other_name.now)
            (replaced_stages files directory name.now other other_name.now) (S.state_of store.old) (S.state_of store.new) result
            × (ReplacedInodes (newest_block (S.state_of store.old)) (newest_block (S.state_of store.new)) self.now.fs.number directory from other to
            × OnErr result (KeptOrEmptied (newest_block (S.state_of store.old)) (newest_block (S.state_of store.new)) self.now.fs.number to.inode))
            × InOrder (S.types_of store.old) self.now.fs.number (replaced_parts self.now.fs.number from to (S.state_of store.old).next)
            (S.state_of store.old) (S.state_of store.new) result }
    {
        let linked = add_link(alloc, store, self.fs, from.inode)?;
        let turned = self.turn(alloc, store, other, other_name, from.inode, linked)?;
        let entry = self.named(store, directory, name)?;
        self.remove(alloc, store, entry, Some(turned))?;
        let _ = take_link(alloc, store, self.fs, to.inode, turned)?;
        Ok(())
    }

    /// Lets the entry that has a name name another inode, after the edit that allows it.
    fn turn<S: Store>(
        &self,
        alloc: Global,
        store: &mut S,
        directory: u16,
        name: &[u8],
        inode: u16,
        after: EditId,
    ) -> Result<EditId, FfsFault>
        ensures types { S.types_of store.new ≡ S.types_of store.old }
        ensures ends { (T : Types) (array : ℕ → Option ℕ) (slot : Slot) → S.types_of store.old ≡ T → Stage T self.now.fs.number array (S.state_of store.old) →
            Ok slot ≡ named_in (newest_block (S.state_of store.old)) self.now.fs.number directory name.now → slot.inode ≢ inode →
            MayName (S.state_of store.old) self.now.fs.number inode after → Ends T self.now.fs.number array (S.state_of store.new) result
            (λ e. Turned (newest_block (S.state_of store.old)) (newest_block (S.state_of store.new)) self.now.fs.number slot inode
            × MayLose (S.state_of store.new) self.now.fs.number slot.inode e)
            (λ fault. (S.state_of store.new ≡ S.state_of store.old) × Wants T (S.state_of store.old) self.now.fs.number slot.block fault) }
        ensures order { (T : Types) (array : ℕ → Option ℕ) (slot : Slot) → S.types_of store.old ≡ T → Stage T self.now.fs.number array (S.state_of store.old) →
            Ok slot ≡ named_in (newest_block (S.state_of store.old)) self.now.fs.number directory name.now →
            Orders T self.now.fs.number (turned_edits slot inode after) (S.state_of store.old) (S.state_of store.new) result
            × IfOk result (Numbered (S.state_of store.old) (S.state_of store.new)) }
        ensures pairs { (T : Types) (array : ℕ → Option ℕ) (first : Lives) (from slot : Slot) → S.types_of store.old ≡ T →
            Stage T self.now.fs.number array (S.state_of store.old) →
            Ok slot ≡ named_in (newest_block (S.state_of store.old)) self.now.fs.number directory name.now →
            from.inode ≡ inode → StayNamed library_layout first (S.state_of store.old).lives (pair_of from slot) None →
            MatchResult result (λ e. StayNamed library_layout first (S.state_of store.new).lives (pair_of from slot) (Some e))
            (λ _. StayNamed library_layout first (S.state_of store.new).lives (pair_of from slot) None) }
    {
        let slot = self.named(store, directory, name)?;
        let number = inode.to_le_bytes();
        let at = ENTRY_LEN * slot.place;
        put(
            alloc,
            store,
            self.fs,
            slot.block,
            at,
            &number,
            &[],
            &[],
            Some(after),
        )
    }
}
