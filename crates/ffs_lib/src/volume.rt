// A volume: the files and directories of a file system.

ghost use Rattle.std.specs.Prelude.{◌≡◌, ◌≢◌, ◌<◌, ◌+◌, ◌++◌, ◌==◌, ◌&&◌, not, true, false, ◌⊎◌, ℕ, List, Option, length, map, None, Some};
ghost use Rattle.std.specs.Prelude.{[], Ok, Err, IfOk, OnOk, OnErr, IfSome, IsOk, IsTrue, MatchResult};
ghost use Rattle.std.specs.List.{range_with_len};
ghost use Rattle.ffs_format.specs.Entries.{is_name};
ghost use Rattle.ffs_model.specs.Cuts.{latest};
ghost use Rattle.ffs_model.specs.Library.{library_layout, inode_mode, IsLibrary, inode_links};
ghost use Rattle.xn_model.specs.Lists.{put};
ghost use Rattle.ffs_lookup.specs.Newest.{IsLowest, create_in, directory_in, has_empty_pointer, has_inode, has_room, is_at};
ghost use Rattle.ffs_lookup.specs.Newest.{file_end, mapped, root_in, write_in, named_in, names_at, rename_in};
ghost use Rattle.ffs_lookup.specs.Newest.{rmdir_in, unlink_in, inode_in};
ghost use Rattle.ffs_lookup.specs.Counts.{if_idle, open_in};
ghost use Rattle.ffs_lookup.specs.Repairs.{repair_at};
ghost use Rattle.ffs_lib.specs.Reclaiming.{LeftByRepair, needs, reclaimed, reclaimed_stages};
ghost use Rattle.ffs_lib.specs.RepairOrder.{reclaimed_parts};
ghost use Rattle.ffs_lookup.specs.declared.places.Found.{Found};
ghost use Rattle.ffs_lookup.specs.declared.places.Slot.{Slot};
ghost use Rattle.ffs_model.specs.Volumes.{VolumeKeeps, no_edits};
ghost use Rattle.ffs_lookup.specs.Places.{IsDirectory, IsFree, IsSlot};
ghost use Rattle.ffs_lib.specs.Making.{newly_made};
ghost use Rattle.ffs_lib.specs.NewOrder.{AddsBlock, CreatesInOrder, MakesInOrder, NamesNew, new_in};
ghost use Rattle.ffs_lib.specs.Orders.{InOrder, NamesInOrder, Orders, moved_parts, removed_edits};
ghost use Rattle.ffs_lib.specs.Outcomes.{HasFreePointer};
ghost use Rattle.ffs_lib.specs.Replacing.{AreDirect, pair_of};
ghost use Rattle.ffs_model.specs.Standing.{StayNamed};
ghost use Rattle.xn_model.specs.Lives.{Lives, StoreState};
ghost use Rattle.ffs_lib.specs.WriteOrder.{ShowsWhole, WritesInOrder, WritesSomeInOrder, after_in, first_past, reached, written_by};
ghost use Rattle.ffs_lib.specs.declared.data.Last.{Last};
ghost use Rattle.ffs_lib.specs.Written.{DoesSome, Overwrites, WritesSomeTo, WritesTo, some_by, written_stages};
ghost use Rattle.ffs_lookup.specs.FileValues.{files_of};
ghost use Rattle.ffs_lookup.specs.Files.{Files, created, listed, new_directory, new_file, read, read_over, removed, renamed, unlinked, written};
ghost use Rattle.ffs_lib.specs.Stages.{Does, KeptOrEmptied, Makes, OnlyMade, Unnames, created_stages, make_stages, removed_stages, renamed_stages};
ghost use Rattle.ffs_lib.specs.Steps.{Creates, Ends, Leaves, MayLose, NamesAgain, Stage, StopsGrowing, StopsNaming, StopsNew, StopsUnnaming, TakesFree};
ghost use Rattle.ffs_lib.specs.Steps.{Unnamed, newest_block};
ghost use Rattle.xn_model.specs.Types.{Types};
ghost use Rattle.store_types.specs.declared.refusal.Refusal.{Refusal};
ghost use Rattle.xn_model.specs.Calls.{was_given};
ghost use Rattle.ffs_lib.specs.Results.{MadeEntry, MovedInodes};

mod replace;
mod unname;

use crate::data::{MOST_BYTES, look_up_end, none_taken, raise_size, read_part, write_parts};
use crate::put::{add_link, attach, empty_inode, enter, put, put_inode, take_link};
use crate::reclaim::repair_inode;
use crate::setup::{look_up_root, make_first};
use crate::steps::{INODE_BLOCK, is_word};
use edit_list::{EditId, Fs};
use ffs_format::entries::ENTRY_LEN;
use ffs_format::inodes::{DIRECT_POINTERS, INODES, MOST_INODES};
use ffs_format::{ENTRIES, Inode, entry_inode, entry_name, is_name, pointer_bytes};
use ffs_lookup::{
    DIRECTORY, FfsFault, Free, Repairs, Slot, find_directory, find_entry, find_file, find_free,
    find_inode, find_pointer, find_room, is_empty, look_up_repairs, look_up_volume, read_block,
    root_block,
};
use std::alloc::{AllocError, Global};
use store_types::BLOCK_LEN;
use xn_state::Store;

/// The mode of a file's inode.
const FILE: u16 = 1;

/// A volume of a store: which file system it is, and by which edits it added inode blocks that no inode stands behind yet.
#[derive(Drop)]
pub struct Volume {
    fs: Fs,
    added: [Option<EditId>; 16],
}

/// A volume has a place for the number of each inode block.
fn has_places(added: &[Option<EditId>; 16])
    ensures { length added.now ≡ 16 }
{
    let _ = added;
}

/// Adds the names of a directory's block and their inodes, by place.
fn add_names(
    alloc: Global,
    block: &[u8; BLOCK_LEN],
    names: &mut Vec<(Vec<u8>, u16)>,
) -> Result<(), AllocError>
    ensures { OnOk result (map (λ name. (name.0.items, name.1)) names.new.items
        ≡ map (λ name. (name.0.items, name.1)) names.old.items ++ names_at block.now (range_with_len 0 16)) }
{
    for place in 0..ENTRIES {
        let inode = entry_inode(block, place);
        if inode == 0 {
            continue;
        }
        let name = entry_name(block, place).to_vec(alloc)?;
        names.push((name, inode))?;
    }
    Ok(())
}

/// A free inode, if there is one; else there is room for another block of inodes.
fn look_up_free<S: Store>(store: &S, fs: Fs) -> Result<Option<Free>, FfsFault>
    ensures free { IfOk result (λ found. IfSome found (λ free. IsFree (S.state_of store.now) fs.number free)) }
    ensures lowest { IfOk result (IsLowest (latest (S.state_of store.now).lives) fs.number) }
    ensures pointer { IfOk result (λ found. found ≡ None → (root : ℕ) → Ok root ≡ root_in (latest (S.state_of store.now).lives) fs.number →
        has_empty_pointer (latest (S.state_of store.now).lives) root ≡ true) }
    ensures exact { IsLibrary (S.types_of store.now) → (root : ℕ) → Ok root ≡ root_in (latest (S.state_of store.now).lives) fs.number → MatchResult result
        (λ _. has_inode (latest (S.state_of store.now).lives) root ≡ true)
        (λ fault. (fault ≡ FfsFault.NoInode) × (has_inode (latest (S.state_of store.now).lives) root ≡ false)) }
{
    let free = find_free(store, fs)?;
    if free.is_none() {
        let _ = find_pointer(store, fs)?;
    }
    Ok(free)
}

/// Looks up what a new name in a directory needs, and answers a free inode, if there is one.
fn look_up_new<S: Store>(
    store: &S,
    fs: Fs,
    directory: u16,
    name: &[u8],
) -> Result<Option<Free>, FfsFault>
    ensures free { IfOk result (λ found. IfSome found (λ free. IsFree (S.state_of store.now) fs.number free)) }
    ensures lowest { IfOk result (IsLowest (latest (S.state_of store.now).lives) fs.number) }
    ensures pointer { IfOk result (λ found. found ≡ None → (root : ℕ) → Ok root ≡ root_in (latest (S.state_of store.now).lives) fs.number →
        has_empty_pointer (latest (S.state_of store.now).lives) root ≡ true) }
    ensures room { OnOk result (IsLibrary (S.types_of store.now) → (inode : List ℕ)
        × (Ok inode ≡ directory_in (latest (S.state_of store.now).lives) fs.number directory)
        × (has_room (latest (S.state_of store.now).lives) inode ≡ true)) }
    ensures name { OnOk result (IsTrue (is_name name.now)) }
    ensures exact { IsLibrary (S.types_of store.now) → MatchResult result
        (λ _. IsOk (create_in (latest (S.state_of store.now).lives) fs.number directory name.now))
        (λ fault. Err fault ≡ create_in (latest (S.state_of store.now).lives) fs.number directory name.now) }
{
    let found = find_directory(store, fs, directory)?;
    if !is_name(name) {
        return Err(FfsFault::BadName);
    }
    if find_entry(store, fs, &found, directory, name)?.is_some() {
        return Err(FfsFault::Exists);
    }
    let free = look_up_free(store, fs)?;
    let _ = find_room(store, fs, &found, directory)?;
    Ok(free)
}

/// Whether both inodes are directories.
fn are_directories(inode: &Inode, other: &Inode) -> bool
    ensures { result ≡ (inode_mode inode.now == 2) && (inode_mode other.now == 2) }
{
    inode.mode() == DIRECTORY && other.mode() == DIRECTORY
}

/// Whether both are names.
fn are_names(name: &[u8], other: &[u8]) -> bool
    ensures { result ≡ is_name name.now && is_name other.now }
{
    is_name(name) && is_name(other)
}

/// Whether an inode is a directory that would go from one to another.
fn moves_directory(inode: &Inode, from: u16, to: u16) -> bool
    ensures { result ≡ (inode_mode inode.now == 2) && not (from == to) }
{
    inode.mode() == DIRECTORY && from != to
}

impl Volume {
    ghost use Rattle.ffs_lib.specs.Volumes.{IsVolume, MayOpen, edits_of};

    /// Makes the volume of a file system that has none, or has one half made: a root block, and a first block of inodes with
    /// inode 1, the top directory. Before any edit it answers `Pending`, `Kernel(RootTaken)` where the root slot names a block of another
    /// type, `Exists` where there is a volume, and `Unsound(1)` where the root block points to other blocks of inodes and not to the
    /// first. Any refusal of the store is `Kernel`; what was done before it stands, and another `make` finishes it.
    pub fn make<S: Store>(alloc: Global, store: &mut S, fs: Fs) -> Result<Volume, FfsFault>
        requires { MayOpen (S.types_of store.old) (S.state_of store.old) fs.number }
        ensures types { S.types_of store.new ≡ S.types_of store.old }
        ensures ok { IfOk result (λ volume. IsVolume (S.types_of store.old) (S.state_of store.new) volume) }
        ensures fs { IfOk result (λ volume. volume.fs ≡ fs) }
        ensures added { IfOk result (λ volume. edits_of volume.added ≡ no_edits) }
        ensures answers { let files = files_of (newest_block (S.state_of store.old)) fs.number in
            Does (S.types_of store.old) fs.number (newly_made (S.state_of store.old) fs.number files) (make_stages files)
            (S.state_of store.old) (S.state_of store.new) (mapped (λ volume. tt) result) }
        ensures order { IsOk (newly_made (S.state_of store.old) fs.number (files_of (newest_block (S.state_of store.old)) fs.number)) →
            MakesInOrder (S.types_of store.old) fs.number (S.state_of store.old) (S.state_of store.new) result }
        ensures err { IsOk (newly_made (S.state_of store.old) fs.number (files_of (newest_block (S.state_of store.old)) fs.number)) →
            OnErr result (VolumeKeeps (S.types_of store.old) library_layout fs.number no_edits (S.state_of store.new)) }
    {
        let begun = look_up_root(store, fs)?;
        let _ = make_first(alloc, store, fs, begun)?;
        Ok(Volume {
            fs,
            added: [None; 16],
        })
    }

    /// The volume of a file system that has one, as after a mount, also of an image that another program wrote. It looks at all names:
    /// it answers `Pending` where something of the file system is pending, then `NoEntry` where there is no volume, then `Unsound` of
    /// the least inode that more entries name than it has links.
    pub fn open<S: Store>(store: &S, fs: Fs) -> Result<Volume, FfsFault>
        requires { MayOpen (S.types_of store.now) (S.state_of store.now) fs.number }
        ensures ok { IfOk result (λ volume. IsVolume (S.types_of store.now) (S.state_of store.now) volume) }
        ensures fs { IfOk result (λ volume. volume.fs ≡ fs) }
        ensures added { IfOk result (λ volume. edits_of volume.added ≡ no_edits) }
        ensures exact { mapped (λ volume. tt) result ≡ open_in (S.state_of store.now) fs.number }
    {
        look_up_volume(store, fs)?;
        Ok(Volume {
            fs,
            added: [None; 16],
        })
    }

    /// Makes an empty file in a directory, and answers its inode, the lowest free one of 1 to 128. Before any edit it answers, in this
    /// order, `NoEntry` or `NotDir` of the directory, `BadName`, `Exists`, `NoInode` where all are in use, `TooLarge` where the
    /// directory has no room. Any refusal of the store is `Kernel`; what was done before it stands.
    pub fn create<S: Store>(
        &mut self,
        alloc: Global,
        store: &mut S,
        directory: u16,
        name: &[u8],
    ) -> Result<u16, FfsFault>
        requires { IsVolume (S.types_of store.old) (S.state_of store.old) self.old }
        ensures types { S.types_of store.new ≡ S.types_of store.old }
        ensures fs { self.new.fs ≡ self.old.fs }
        ensures answers { let files = files_of (newest_block (S.state_of store.old)) self.old.fs.number in
            Does (S.types_of store.old) self.old.fs.number (created new_file files directory name.now) (created_stages new_file files directory name.now)
            (S.state_of store.old) (S.state_of store.new) result }
        ensures inodes { let old = newest_block (S.state_of store.old) in let new = newest_block (S.state_of store.new) in let fs = self.old.fs.number in
            (next : ℕ × Files) → created new_file (files_of old fs) directory name.now ≡ Ok next →
            Makes old new fs directory FILE next.0 × OnErr result (OnlyMade old new fs next.0) }
        ensures order { (n : ℕ) → Ok n ≡ new_in (newest_block (S.state_of store.old)) self.old.fs.number directory name.now →
            CreatesInOrder (S.types_of store.old) self.old.fs.number directory name.now FILE n (edits_of self.old.added) (S.state_of store.old)
            (edits_of self.new.added) (S.state_of store.new) result }
        ensures added { (fault : FfsFault) → Err fault ≡ create_in (newest_block (S.state_of store.old)) self.old.fs.number directory name.now →
            edits_of self.new.added ≡ edits_of self.old.added }
        ensures keeps { IsVolume (S.types_of store.old) (S.state_of store.new) self.new }
    {
        self.make_entry(alloc, store, directory, name, FILE)
    }

    /// Makes an empty directory in a directory, and answers its inode, with the faults of `create`.
    pub fn mkdir<S: Store>(
        &mut self,
        alloc: Global,
        store: &mut S,
        directory: u16,
        name: &[u8],
    ) -> Result<u16, FfsFault>
        requires { IsVolume (S.types_of store.old) (S.state_of store.old) self.old }
        ensures types { S.types_of store.new ≡ S.types_of store.old }
        ensures fs { self.new.fs ≡ self.old.fs }
        ensures answers { let files = files_of (newest_block (S.state_of store.old)) self.old.fs.number in
            Does (S.types_of store.old) self.old.fs.number (created new_directory files directory name.now)
            (created_stages new_directory files directory name.now) (S.state_of store.old) (S.state_of store.new) result }
        ensures inodes { let old = newest_block (S.state_of store.old) in let new = newest_block (S.state_of store.new) in let fs = self.old.fs.number in
            (next : ℕ × Files) → created new_directory (files_of old fs) directory name.now ≡ Ok next →
            Makes old new fs directory DIRECTORY next.0 × OnErr result (OnlyMade old new fs next.0) }
        ensures order { (n : ℕ) → Ok n ≡ new_in (newest_block (S.state_of store.old)) self.old.fs.number directory name.now →
            CreatesInOrder (S.types_of store.old) self.old.fs.number directory name.now DIRECTORY n (edits_of self.old.added) (S.state_of store.old)
            (edits_of self.new.added) (S.state_of store.new) result }
        ensures added { (fault : FfsFault) → Err fault ≡ create_in (newest_block (S.state_of store.old)) self.old.fs.number directory name.now →
            edits_of self.new.added ≡ edits_of self.old.added }
        ensures keeps { IsVolume (S.types_of store.old) (S.state_of store.new) self.new }
    {
        self.make_entry(alloc, store, directory, name, DIRECTORY)
    }

    /// Makes an inode of a mode, and names it.
    fn make_entry<S: Store>(
        &mut self,
        alloc: Global,
        store: &mut S,
        directory: u16,
        name: &[u8],
        mode: u16,
    ) -> Result<u16, FfsFault>
        requires volume { IsVolume (S.types_of store.old) (S.state_of store.old) self.old }
        requires used { mode ≢ 0 }
        ensures types { S.types_of store.new ≡ S.types_of store.old }
        ensures fs { self.new.fs ≡ self.old.fs }
        ensures answers { Creates (S.types_of store.old) self.old.fs.number directory name.now mode (S.state_of store.old) (S.state_of store.new) result }
        ensures order { (n : ℕ) → Ok n ≡ new_in (newest_block (S.state_of store.old)) self.old.fs.number directory name.now →
            CreatesInOrder (S.types_of store.old) self.old.fs.number directory name.now mode n (edits_of self.old.added) (S.state_of store.old)
            (edits_of self.new.added) (S.state_of store.new) result }
        ensures added { (fault : FfsFault) → Err fault ≡ create_in (newest_block (S.state_of store.old)) self.old.fs.number directory name.now →
            edits_of self.new.added ≡ edits_of self.old.added }
        ensures keeps { IsVolume (S.types_of store.old) (S.state_of store.new) self.new }
    {
        let found = look_up_new(store, self.fs, directory, name)?;
        let free = self.take_free(alloc, store, found)?;
        self.name_inode(alloc, store, directory, name, mode, free)
    }

    /// The free inode that was found, or the first one of a new inode block.
    fn take_free<S: Store>(
        &mut self,
        alloc: Global,
        store: &mut S,
        found: Option<Free>,
    ) -> Result<Free, FfsFault>
        requires volume { IsVolume (S.types_of store.old) (S.state_of store.old) self.old }
        requires free { IfSome found (λ free. IsFree (S.state_of store.old) self.old.fs.number free) }
        requires room { found ≡ None → HasFreePointer (newest_block (S.state_of store.old)) self.old.fs.number }
        requires lowest { IsLowest (newest_block (S.state_of store.old)) self.old.fs.number found }
        ensures types { S.types_of store.new ≡ S.types_of store.old }
        ensures fs { self.new.fs ≡ self.old.fs }
        ensures leaves { Leaves (S.types_of store.old) self.new (S.state_of store.new) result
            (TakesFree (S.state_of store.old) (S.state_of store.new) self.old.fs.number)
            (StopsGrowing (S.types_of store.old) self.old.fs.number (S.state_of store.old) (S.state_of store.new)) }
        ensures order { AddsBlock (S.types_of store.old) self.old.fs.number (edits_of self.old.added) (S.state_of store.old)
            (edits_of self.new.added) (S.state_of store.new) result }
    {
        match found {
            Some(free) => Ok(free),
            None => self.add_inodes(alloc, store),
        }
    }

    /// Takes a free inode into use, and names it.
    fn name_inode<S: Store>(
        &mut self,
        alloc: Global,
        store: &mut S,
        directory: u16,
        name: &[u8],
        mode: u16,
        free: Free,
    ) -> Result<u16, FfsFault>
        requires volume { IsVolume (S.types_of store.old) (S.state_of store.old) self.old }
        requires free { IsFree (S.state_of store.old) self.old.fs.number free }
        requires name { IsTrue (is_name name.now) }
        requires used { mode ≢ 0 }
        ensures types { S.types_of store.new ≡ S.types_of store.old }
        ensures fs { self.new.fs ≡ self.old.fs }
        ensures leaves { (inode : List ℕ) → Ok inode ≡ directory_in (newest_block (S.state_of store.old)) self.old.fs.number directory →
            has_room (newest_block (S.state_of store.old)) inode ≡ true → Leaves (S.types_of store.old) self.new (S.state_of store.new) result
            (λ n. MadeEntry (newest_block (S.state_of store.old)) (newest_block (S.state_of store.new)) self.old.fs.number directory name.now mode n
            × (n ≡ free.number))
            (StopsNew (S.types_of store.old) self.old.fs.number (S.state_of store.old) (S.state_of store.new) directory name.now mode free.number) }
        ensures order { (inode : List ℕ) → Ok inode ≡ directory_in (newest_block (S.state_of store.old)) self.old.fs.number directory →
            has_room (newest_block (S.state_of store.old)) inode ≡ true →
            NamesNew (S.types_of store.old) self.old.fs.number directory name.now mode free.number (edits_of self.old.added) (S.state_of store.old)
            (edits_of self.new.added) (S.state_of store.new) result }
    {
        has_places(&self.added);
        let index = usize::from(free.number - 1) / INODES;
        let inode = empty_inode(mode);
        let after = self.added[index];
        let made = put_inode(
            alloc,
            store,
            self.fs,
            free.block,
            free.place,
            &inode,
            &[],
            &[],
            after,
        )?;
        let _ = enter(alloc, store, self.fs, directory, free.number, name, made)?;
        self.added[index] = None;
        Ok(free.number)
    }

    /// Makes an inode block, and answers its first inode.
    fn add_inodes<S: Store>(&mut self, alloc: Global, store: &mut S) -> Result<Free, FfsFault>
        requires volume { IsVolume (S.types_of store.old) (S.state_of store.old) self.old }
        requires room { HasFreePointer (newest_block (S.state_of store.old)) self.old.fs.number }
        requires full { IsLowest (newest_block (S.state_of store.old)) self.old.fs.number None }
        ensures types { S.types_of store.new ≡ S.types_of store.old }
        ensures fs { self.new.fs ≡ self.old.fs }
        ensures leaves { Leaves (S.types_of store.old) self.new (S.state_of store.new) result
            (TakesFree (S.state_of store.old) (S.state_of store.new) self.old.fs.number)
            (StopsGrowing (S.types_of store.old) self.old.fs.number (S.state_of store.old) (S.state_of store.new)) }
        ensures order { AddsBlock (S.types_of store.old) self.old.fs.number (edits_of self.old.added) (S.state_of store.old)
            (edits_of self.new.added) (S.state_of store.new) result }
    {
        has_places(&self.added);
        let (block, _) = store.init(self.fs, INODE_BLOCK, &[0; BLOCK_LEN])?;
        let index = find_pointer(store, self.fs)?;
        let root = root_block(store, self.fs)?;
        is_word(block);
        let pointer = pointer_bytes(block);
        let entry = attach(
            alloc,
            store,
            self.fs,
            root,
            4 * index,
            &pointer,
            (block, INODE_BLOCK),
            None,
        )?;
        self.added[index] = Some(entry);
        Ok(Free {
            number: (INODES * index + 1) as u16,
            block,
            place: 0,
        })
    }

    /// Writes bytes into a file at an offset. Where that is past its end, the bytes between are zeros. Before any edit it answers, in this
    /// order, `NoEntry` or `IsDir` of the inode, `TooLarge` where the data would end past 71,680 bytes. Any refusal of the store is
    /// `Kernel`; what was done before it stands, and the size is as before.
    pub fn write<S: Store>(
        &self,
        alloc: Global,
        store: &mut S,
        inode: u16,
        offset: u32,
        bytes: &[u8],
    ) -> Result<(), FfsFault>
        requires { IsVolume (S.types_of store.old) (S.state_of store.old) self.now }
        ensures types { S.types_of store.new ≡ S.types_of store.old }
        ensures answers { let files = files_of (newest_block (S.state_of store.old)) self.now.fs.number in
            Does (S.types_of store.old) self.now.fs.number (written files inode offset bytes.now)
            (written_stages files (after_in (S.types_of store.old) self.now.fs.number inode offset bytes.now (S.state_of store.old)) inode offset bytes.now)
            (S.state_of store.old) (S.state_of store.new) result }
        ensures inodes { let old = newest_block (S.state_of store.old) in let new = newest_block (S.state_of store.new) in let fs = self.now.fs.number in
            (file : List ℕ) → Ok file ≡ write_in old fs inode (offset + length bytes.now) →
            let done = written_by (S.types_of store.old) fs inode file offset bytes.now (S.state_of store.old) (S.state_of store.new) in
            Overwrites old new fs inode file offset bytes.now done
            × WritesTo (S.types_of store.old) fs (files_of old fs) (after_in (S.types_of store.old) fs inode offset bytes.now (S.state_of store.old))
            inode file offset bytes.now done (S.state_of store.new) result }
        ensures order { let old = newest_block (S.state_of store.old) in let fs = self.now.fs.number in
            (file : List ℕ) → Ok file ≡ write_in old fs inode (offset + length bytes.now) →
            WritesInOrder (S.types_of store.old) fs inode file offset bytes.now (S.state_of store.old) (S.state_of store.new) result }
        ensures cuts { let old = newest_block (S.state_of store.old) in let fs = self.now.fs.number in
            (file : List ℕ) (there : StoreState × Last) → Ok file ≡ write_in old fs inode (offset + length bytes.now) →
            file_end file < offset + length bytes.now →
            reached (S.types_of store.old) fs inode file offset bytes.now (first_past (file_end file) offset) (S.state_of store.old) ≡ Ok there →
            OnOk result (ShowsWhole there.0 (S.state_of store.new)) }
        ensures none { length bytes.now ≡ 0 → S.state_of store.new ≡ S.state_of store.old }
        ensures keeps { IsVolume (S.types_of store.old) (S.state_of store.new) self.now }
    {
        let start = offset as usize;
        let end = look_up_end(store, self.fs, inode, start, bytes.len())?;
        if bytes.is_empty() {
            return Ok(());
        }
        let progress = write_parts(alloc, store, self.fs, inode, end, start, bytes);
        match progress.fault {
            Some(fault) => Err(fault),
            None => {
                let size = (start + bytes.len()) as u32;
                raise_size(alloc, store, self.fs, inode, size, progress.last.size)
            }
        }
    }

    /// Writes the first of some bytes into a file at an offset, as many as the store takes now, and answers how many. It ends before a block
    /// that the store refuses, and then raises the size to there. It answers 0 where the store has too many pending entries for the first
    /// block, or for the size: once they are durable the call can be made again. Other faults are those of `write`.
    pub fn write_some<S: Store>(
        &self,
        alloc: Global,
        store: &mut S,
        inode: u16,
        offset: u32,
        bytes: &[u8],
    ) -> Result<usize, FfsFault>
        requires { IsVolume (S.types_of store.old) (S.state_of store.old) self.now }
        ensures types { S.types_of store.new ≡ S.types_of store.old }
        ensures answers { let files = files_of (newest_block (S.state_of store.old)) self.now.fs.number in
            DoesSome (S.types_of store.old) self.now.fs.number files
            (after_in (S.types_of store.old) self.now.fs.number inode offset bytes.now (S.state_of store.old))
            inode offset bytes.now (written files inode offset bytes.now) (S.state_of store.old) (S.state_of store.new) result }
        ensures inodes { let old = newest_block (S.state_of store.old) in let new = newest_block (S.state_of store.new) in let fs = self.now.fs.number in
            (file : List ℕ) → Ok file ≡ write_in old fs inode (offset + length bytes.now) →
            let done = some_by (S.types_of store.old) fs inode file offset bytes.now (S.state_of store.old) (S.state_of store.new) result in
            Overwrites old new fs inode file offset bytes.now done
            × WritesSomeTo (S.types_of store.old) fs (files_of old fs) (after_in (S.types_of store.old) fs inode offset bytes.now (S.state_of store.old))
            inode offset bytes.now done (S.state_of store.new) result }
        ensures order { let old = newest_block (S.state_of store.old) in let fs = self.now.fs.number in
            (file : List ℕ) → Ok file ≡ write_in old fs inode (offset + length bytes.now) →
            WritesSomeInOrder (S.types_of store.old) fs inode file offset bytes.now (S.state_of store.old) (S.state_of store.new) result }
        ensures cuts { let old = newest_block (S.state_of store.old) in let fs = self.now.fs.number in
            (file : List ℕ) (there : StoreState × Last) → Ok file ≡ write_in old fs inode (offset + length bytes.now) →
            reached (S.types_of store.old) fs inode file offset bytes.now (first_past (file_end file) offset) (S.state_of store.old) ≡ Ok there →
            IfOk result (λ count. count ≢ 0 → file_end file < offset + count → ShowsWhole there.0 (S.state_of store.new)) }
        ensures none { length bytes.now ≡ 0 → S.state_of store.new ≡ S.state_of store.old }
        ensures keeps { IsVolume (S.types_of store.old) (S.state_of store.new) self.now }
    {
        let start = offset as usize;
        let end = look_up_end(store, self.fs, inode, start, bytes.len())?;
        if bytes.is_empty() {
            return Ok(0);
        }
        let progress = write_parts(alloc, store, self.fs, inode, end, start, bytes);
        let taken = (end.min(start) + progress.done).saturating_sub(start);
        if taken == 0 {
            return none_taken(progress.fault);
        }
        let size = (start + taken) as u32;
        match raise_size(alloc, store, self.fs, inode, size, progress.last.size) {
            Ok(()) => Ok(taken),
            Err(fault) => none_taken(Some(fault)),
        }
    }

    /// Reads a file from an offset on, up to its size, and answers how many bytes there were. Holes are zeros. Faults are `NoEntry`
    /// and `IsDir` of the inode.
    pub fn read<S: Store>(
        &self,
        store: &S,
        inode: u16,
        offset: u32,
        bytes: &mut [u8],
    ) -> Result<usize, FfsFault>
        ensures value { IsLibrary (S.types_of store.now) →
            result ≡ mapped length (read (files_of (newest_block (S.state_of store.now)) self.now.fs.number) inode offset (length bytes.old)) }
        ensures bytes { IsLibrary (S.types_of store.now) →
            bytes.new ≡ read_over bytes.old (read (files_of (newest_block (S.state_of store.now)) self.now.fs.number) inode offset (length bytes.old)) }
    {
        let file = find_file(store, self.fs, inode)?;
        let end = (file.inode.size() as usize).min(MOST_BYTES);
        let start = offset as usize;
        let count = bytes.len().min(end.saturating_sub(start));
        let mut done = 0;
        while done < count {
            let at = start + done;
            let length = (BLOCK_LEN - at % BLOCK_LEN).min(count - done);
            read_part(
                store,
                self.fs,
                inode,
                &file,
                at,
                &mut bytes[done..done + length],
            )?;
            done += length;
        }
        Ok(count)
    }

    /// The entry of a directory that has a name.
    fn named<S: Store>(&self, store: &S, directory: u16, name: &[u8]) -> Result<Slot, FfsFault>
        ensures slot { IfOk result (λ slot. IsSlot (S.state_of store.now) self.now.fs.number slot) }
        ensures directory { OnOk result ((found : Found) × IsDirectory (S.state_of store.now) self.now.fs.number directory found
            × (IsLibrary (S.types_of store.now) → Ok found.inode ≡ directory_in (latest (S.state_of store.now).lives) self.now.fs.number directory)) }
        ensures exact { IsLibrary (S.types_of store.now) → result ≡ named_in (latest (S.state_of store.now).lives) self.now.fs.number directory name.now }
    {
        let found = find_directory(store, self.fs, directory)?;
        if !is_name(name) {
            return Err(FfsFault::BadName);
        }
        find_entry(store, self.fs, &found, directory, name)?.ok_or(FfsFault::NoEntry)
    }

    /// Looks up the entry of a file.
    fn look_up_file<S: Store>(
        &self,
        store: &S,
        directory: u16,
        name: &[u8],
    ) -> Result<Slot, FfsFault>
        ensures slot { IfOk result (λ slot. IsSlot (S.state_of store.now) self.now.fs.number slot) }
        ensures exact { IsLibrary (S.types_of store.now) → result ≡ unlink_in (newest_block (S.state_of store.now)) self.now.fs.number directory name.now }
    {
        let slot = self.named(store, directory, name)?;
        let _ = find_file(store, self.fs, slot.inode)?;
        Ok(slot)
    }

    /// Looks up the entry of an empty directory.
    fn look_up_empty<S: Store>(
        &self,
        store: &S,
        directory: u16,
        name: &[u8],
    ) -> Result<Slot, FfsFault>
        ensures slot { IfOk result (λ slot. IsSlot (S.state_of store.now) self.now.fs.number slot) }
        ensures exact { IsLibrary (S.types_of store.now) → result ≡ rmdir_in (newest_block (S.state_of store.now)) self.now.fs.number directory name.now }
    {
        let slot = self.named(store, directory, name)?;
        let found = find_directory(store, self.fs, slot.inode)?;
        if !is_empty(store, self.fs, &found)? {
            return Err(FfsFault::DirNotEmpty);
        }
        Ok(slot)
    }

    /// Takes a file's name from a directory, and gives the file up with its last name. Before any edit it answers, in this order,
    /// `NoEntry` or `NotDir` of the directory, `BadName`, `NoEntry` of the name, `IsDir`. Any refusal of the store is `Kernel`; what was
    /// done before it stands, so a file may be left without a name.
    pub fn unlink<S: Store>(
        &self,
        alloc: Global,
        store: &mut S,
        directory: u16,
        name: &[u8],
    ) -> Result<(), FfsFault>
        requires { IsVolume (S.types_of store.old) (S.state_of store.old) self.now }
        ensures types { S.types_of store.new ≡ S.types_of store.old }
        ensures answers { let files = files_of (newest_block (S.state_of store.old)) self.now.fs.number in
            Does (S.types_of store.old) self.now.fs.number (unlinked files directory name.now) (removed_stages files directory name.now)
            (S.state_of store.old) (S.state_of store.new) result }
        ensures inodes { let old = newest_block (S.state_of store.old) in let new = newest_block (S.state_of store.new) in let fs = self.now.fs.number in
            (slot : Slot) → Ok slot ≡ unlink_in old fs directory name.now →
            Unnames old new fs directory slot.inode × OnErr result (KeptOrEmptied old new fs slot.inode) }
        ensures order { let old = newest_block (S.state_of store.old) in let fs = self.now.fs.number in
            (slot : Slot) → Ok slot ≡ unlink_in old fs directory name.now → Orders (S.types_of store.old) fs
            (removed_edits old fs slot None (S.state_of store.old).next) (S.state_of store.old) (S.state_of store.new) result }
        ensures keeps { IsVolume (S.types_of store.old) (S.state_of store.new) self.now }
    {
        let slot = self.look_up_file(store, directory, name)?;
        self.remove(alloc, store, slot, None)
    }

    /// Takes an empty directory's name from a directory, and gives it up, with the faults of `unlink`, but `NotDir` where the name is a
    /// file's, and then `DirNotEmpty`.
    pub fn rmdir<S: Store>(
        &self,
        alloc: Global,
        store: &mut S,
        directory: u16,
        name: &[u8],
    ) -> Result<(), FfsFault>
        requires { IsVolume (S.types_of store.old) (S.state_of store.old) self.now }
        ensures types { S.types_of store.new ≡ S.types_of store.old }
        ensures answers { let files = files_of (newest_block (S.state_of store.old)) self.now.fs.number in
            Does (S.types_of store.old) self.now.fs.number (removed files directory name.now) (removed_stages files directory name.now)
            (S.state_of store.old) (S.state_of store.new) result }
        ensures inodes { let old = newest_block (S.state_of store.old) in let new = newest_block (S.state_of store.new) in let fs = self.now.fs.number in
            (slot : Slot) → Ok slot ≡ rmdir_in old fs directory name.now →
            Unnames old new fs directory slot.inode × OnErr result (KeptOrEmptied old new fs slot.inode) }
        ensures order { let old = newest_block (S.state_of store.old) in let fs = self.now.fs.number in
            (slot : Slot) → Ok slot ≡ rmdir_in old fs directory name.now → Orders (S.types_of store.old) fs
            (removed_edits old fs slot None (S.state_of store.old).next) (S.state_of store.old) (S.state_of store.new) result }
        ensures keeps { IsVolume (S.types_of store.old) (S.state_of store.new) self.now }
    {
        let slot = self.look_up_empty(store, directory, name)?;
        self.remove(alloc, store, slot, None)
    }

    /// Does with each inode what it needs, the lowest first, and answers that: what is to be given up is freed, with its blocks, and what
    /// has more links than names has as many. No file with a name changes its bytes. Before any edit it answers `Pending` where something
    /// of the file system is pending. Any refusal of the store is `Kernel`; what was done before it stands.
    pub fn reclaim<S: Store>(&self, alloc: Global, store: &mut S) -> Result<Repairs, FfsFault>
        requires { IsVolume (S.types_of store.old) (S.state_of store.old) self.now }
        ensures types { S.types_of store.new ≡ S.types_of store.old }
        ensures answers { let files = files_of (newest_block (S.state_of store.old)) self.now.fs.number in
            Does (S.types_of store.old) self.now.fs.number (if_idle (S.state_of store.old) self.now.fs.number (reclaimed files)) (reclaimed_stages files)
            (S.state_of store.old) (S.state_of store.new) (mapped (λ repairs. repair_at repairs.each) result) }
        ensures inodes { let old = newest_block (S.state_of store.old) in let new = newest_block (S.state_of store.new) in let fs = self.now.fs.number in
            (n : ℕ) → LeftByRepair old new fs n (needs (files_of old fs) n) }
        ensures order { InOrder (S.types_of store.old) self.now.fs.number
            (reclaimed_parts (files_of (newest_block (S.state_of store.old)) self.now.fs.number) self.now.fs.number)
            (S.state_of store.old) (S.state_of store.new) result }
        ensures keeps { IsVolume (S.types_of store.old) (S.state_of store.new) self.now }
    {
        let repairs = look_up_repairs(store, self.fs)?;
        for at in 0..MOST_INODES {
            let number = at + 1;
            repair_inode(alloc, store, self.fs, number, repairs.of(number))?;
        }
        Ok(repairs)
    }

    /// Clears an entry, and takes a link from the inode that it names.
    fn remove<S: Store>(
        &self,
        alloc: Global,
        store: &mut S,
        slot: Slot,
        after: Option<EditId>,
    ) -> Result<(), FfsFault>
        requires { IsSlot (S.state_of store.old) self.now.fs.number slot }
        ensures types { S.types_of store.new ≡ S.types_of store.old }
        ensures ends { (T : Types) (array : ℕ → Option ℕ) → S.types_of store.old ≡ T → Stage T self.now.fs.number array (S.state_of store.old) →
            IsTrue (was_given (S.state_of store.old) after) →
            Ends T self.now.fs.number array (S.state_of store.new) result
            (λ _. Unnamed (newest_block (S.state_of store.old)) (newest_block (S.state_of store.new)) self.now.fs.number slot)
            (StopsUnnaming T self.now.fs.number (S.state_of store.old) (S.state_of store.new) slot) }
        ensures order { (T : Types) (array : ℕ → Option ℕ) → S.types_of store.old ≡ T → Stage T self.now.fs.number array (S.state_of store.old) →
            IsTrue (was_given (S.state_of store.old) after) →
            Orders T self.now.fs.number (removed_edits (newest_block (S.state_of store.old)) self.now.fs.number slot after (S.state_of store.old).next)
            (S.state_of store.old) (S.state_of store.new) result }
        ensures waits { (T : Types) (array : ℕ → Option ℕ) (n e : ℕ) → S.types_of store.old ≡ T → Stage T self.now.fs.number array (S.state_of store.old) →
            IsTrue (was_given (S.state_of store.old) after) → n ≢ slot.inode → MayLose (S.state_of store.old) self.now.fs.number n e →
            OnOk result (MayLose (S.state_of store.new) self.now.fs.number n e) }
        ensures pairs { (T : Types) (array : ℕ → Option ℕ) (first : Lives) (to : Slot) (e : ℕ) → S.types_of store.old ≡ T →
            Stage T self.now.fs.number array (S.state_of store.old) → after ≡ Some e →
            AreDirect (newest_block (S.state_of store.old)) self.now.fs.number (pair_of slot to) → is_at to slot ≡ false →
            StayNamed library_layout first (S.state_of store.old).lives (pair_of slot to) after →
            StayNamed library_layout first (S.state_of store.new).lives (pair_of slot to) after }
    {
        let at = ENTRY_LEN * slot.place;
        let cleared = put(
            alloc,
            store,
            self.fs,
            slot.block,
            at,
            &[0; ENTRY_LEN],
            &[],
            &[],
            after,
        )?;
        let _ = take_link(alloc, store, self.fs, slot.inode, cleared)?;
        Ok(())
    }

    /// Looks up the entry that is to be moved, and what its new name needs.
    fn look_up_move<S: Store>(
        &self,
        store: &S,
        directory: u16,
        name: &[u8],
        other: u16,
        new_name: &[u8],
    ) -> Result<Slot, FfsFault>
        ensures slot { IfOk result (λ slot. IsSlot (S.state_of store.now) self.now.fs.number slot) }
        ensures name { OnOk result (IsTrue (is_name new_name.now)) }
        ensures exact { IsLibrary (S.types_of store.now) →
            result ≡ rename_in (latest (S.state_of store.now).lives) self.now.fs.number directory name.now other new_name.now }
    {
        let from = find_inode(store, self.fs, directory)?;
        let to = find_inode(store, self.fs, other)?;
        if !are_directories(&from.inode, &to.inode) {
            return Err(FfsFault::NotDir);
        }
        if !are_names(name, new_name) {
            return Err(FfsFault::BadName);
        }
        let slot = find_entry(store, self.fs, &from, directory, name)?.ok_or(FfsFault::NoEntry)?;
        if find_entry(store, self.fs, &to, other, new_name)?.is_some() {
            return Err(FfsFault::Exists);
        }
        let found = find_inode(store, self.fs, slot.inode)?;
        if moves_directory(&found.inode, directory, other) {
            return Err(FfsFault::IsDir);
        }
        if found.inode.links() == u16::MAX {
            return Err(FfsFault::TooLarge);
        }
        let _ = find_room(store, self.fs, &to, other)?;
        Ok(slot)
    }

    /// Gives a file another name, or a directory another in the directory where it is. Before any edit it answers, in this order,
    /// `NoEntry` or `NotDir` of either directory, `BadName` of either name, `NoEntry` of the old name, `Exists` of the new one, `IsDir` for a
    /// directory that would go elsewhere, `TooLarge` where the inode has 65,535 links or the other directory no room. Any refusal of the
    /// store is `Kernel`; what was done before it stands, so both names may be left.
    pub fn rename<S: Store>(
        &self,
        alloc: Global,
        store: &mut S,
        directory: u16,
        name: &[u8],
        other: u16,
        new_name: &[u8],
    ) -> Result<(), FfsFault>
        requires { IsVolume (S.types_of store.old) (S.state_of store.old) self.now }
        ensures types { S.types_of store.new ≡ S.types_of store.old }
        ensures answers { let files = files_of (newest_block (S.state_of store.old)) self.now.fs.number in
            Does (S.types_of store.old) self.now.fs.number (renamed files directory name.now other new_name.now)
            (renamed_stages files directory name.now other new_name.now) (S.state_of store.old) (S.state_of store.new) result }
        ensures inodes { let old = newest_block (S.state_of store.old) in let new = newest_block (S.state_of store.new) in let fs = self.now.fs.number in
            (slot : Slot) → Ok slot ≡ rename_in old fs directory name.now other new_name.now → MovedInodes old new fs directory other slot.inode }
        ensures order { let old = newest_block (S.state_of store.old) in let fs = self.now.fs.number in
            (slot : Slot) → Ok slot ≡ rename_in old fs directory name.now other new_name.now → InOrder (S.types_of store.old) fs
            (moved_parts fs slot other new_name.now (S.state_of store.old).next) (S.state_of store.old) (S.state_of store.new) result }
        ensures keeps { IsVolume (S.types_of store.old) (S.state_of store.new) self.now }
    {
        let slot = self.look_up_move(store, directory, name, other, new_name)?;
        let entered = self.name_again(alloc, store, slot.inode, other, new_name)?;
        let entry = self.named(store, directory, name)?;
        self.remove(alloc, store, entry, Some(entered))
    }

    /// Gives an inode a link more, and names it.
    fn name_again<S: Store>(
        &self,
        alloc: Global,
        store: &mut S,
        inode: u16,
        directory: u16,
        name: &[u8],
    ) -> Result<EditId, FfsFault>
        requires { IsTrue (is_name name.now) }
        ensures types { S.types_of store.new ≡ S.types_of store.old }
        ensures ends { (T : Types) (array : ℕ → Option ℕ) (own to : List ℕ) → S.types_of store.old ≡ T →
            Stage T self.now.fs.number array (S.state_of store.old) →
            Ok own ≡ inode_in (newest_block (S.state_of store.old)) self.now.fs.number inode → inode_links own ≢ 65535 →
            Ok to ≡ directory_in (newest_block (S.state_of store.old)) self.now.fs.number directory → has_room (newest_block (S.state_of store.old)) to ≡ true →
            Ends T self.now.fs.number array (S.state_of store.new) result
            (NamesAgain (S.state_of store.old) (S.state_of store.new) self.now.fs.number directory name.now inode)
            (StopsNaming T self.now.fs.number (S.state_of store.old) (S.state_of store.new) directory name.now inode) }
        ensures order { (T : Types) (array : ℕ → Option ℕ) (own to : List ℕ) → S.types_of store.old ≡ T →
            Stage T self.now.fs.number array (S.state_of store.old) →
            Ok own ≡ inode_in (newest_block (S.state_of store.old)) self.now.fs.number inode → inode_links own ≢ 65535 →
            Ok to ≡ directory_in (newest_block (S.state_of store.old)) self.now.fs.number directory → has_room (newest_block (S.state_of store.old)) to ≡ true →
            NamesInOrder T self.now.fs.number directory inode name.now (S.state_of store.old) (S.state_of store.new) result }
    {
        let added = add_link(alloc, store, self.fs, inode)?;
        enter(alloc, store, self.fs, directory, inode, name, added)
    }

    /// The names in a directory and their inodes, by block and place. Faults are `NoEntry` and `NotDir`, and then `Kernel(NoMemory)`.
    pub fn list<S: Store>(
        &self,
        alloc: Global,
        store: &S,
        directory: u16,
    ) -> Result<Vec<(Vec<u8>, u16)>, FfsFault>
        ensures value { IsLibrary (S.types_of store.now) → MatchResult result
            (λ names. Ok (map (λ name. (name.0.items, name.1)) names.items)
            ≡ listed (files_of (newest_block (S.state_of store.now)) self.now.fs.number) directory)
            (λ fault. ((fault ≡ FfsFault.Kernel Refusal.NoMemory)
            × IsOk (listed (files_of (newest_block (S.state_of store.now)) self.now.fs.number) directory))
            ⊎ (Err fault ≡ listed (files_of (newest_block (S.state_of store.now)) self.now.fs.number) directory)) }
    {
        let found = find_directory(store, self.fs, directory)?;
        let mut names = Vec::new(alloc);
        for i in 0..DIRECT_POINTERS {
            let block = found.inode.direct(i);
            if block == 0 {
                continue;
            }
            add_names(alloc, read_block(store, self.fs, block)?, &mut names)?;
        }
        Ok(names)
    }
}
