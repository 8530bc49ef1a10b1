// A store with its open volume.

ghost use Rattle.std.specs.Prelude.{◌≡◌, ◌≢◌, ◌<◌, ◌≤◌, ◌+◌, ◌⊎◌, ℕ, List, [], length, map, IfErr, IfOk, IsOk, IsTrue, MatchResult, None, Some, OnErr, OnOk, Ok, Err};
ghost use Rattle.ffs_model.specs.Cuts.{latest};
ghost use Rattle.ffs_model.specs.Library.{IsLibrary};
ghost use Rattle.ffs_model.specs.Volumes.{no_edits};
ghost use Rattle.ffs_lookup.specs.Newest.{create_in, file_end, inode_in, mapped, named_in, rename_in, write_in};
ghost use Rattle.ffs_lookup.specs.declared.places.Slot.{Slot};
ghost use Rattle.ffs_lookup.specs.Files.{Files, created, read, renamed, replaced, written};
ghost use Rattle.ffs_lookup.specs.FileValues.{files_of};
ghost use Rattle.ffs_lookup.specs.Counts.{if_idle};
ghost use Rattle.ffs_lookup.specs.Repairs.{repair_at};
ghost use Rattle.ffs_lib.specs.NewOrder.{CreatesInOrder, new_in};
ghost use Rattle.ffs_lib.specs.Orders.{InOrder, Orders, moved_parts, removed_edits, replaced_parts};
ghost use Rattle.ffs_lib.specs.Reclaiming.{LeftByRepair, needs, reclaimed, reclaimed_stages};
ghost use Rattle.ffs_lib.specs.RepairOrder.{reclaimed_parts};
ghost use Rattle.ffs_lib.specs.Replacing.{NamesStand, Replaced, replace_in};
ghost use Rattle.ffs_lib.specs.Results.{MovedInodes};
ghost use Rattle.ffs_lib.specs.Stages.{Does, KeptOrEmptied, Makes, OnlyMade, Unnames, created_stages, removed_stages, renamed_stages, replaced_stages};
ghost use Rattle.ffs_lib.specs.Steps.{newest_block};
ghost use Rattle.ffs_lib.specs.Unnaming.{unname_in};
ghost use Rattle.ffs_lib.specs.Volumes.{IsVolume, NothingPending, edits_of};
ghost use Rattle.ffs_lib.specs.Written.{DoesSome, Overwrites, WritesSomeTo, some_by};
ghost use Rattle.ffs_lib.specs.WriteOrder.{ShowsWhole, WritesSomeInOrder, after_in, first_past, reached};
ghost use Rattle.ffs_lib.specs.declared.data.Last.{Last};
ghost use Rattle.xn_model.specs.Lives.{StoreState};
ghost use Rattle.xn_model.specs.Calls.{free_of};
ghost use Rattle.store_types.specs.declared.refusal.Refusal.{Refusal};
ghost use Rattle.xn_model.specs.Rules.{IsIdle};
ghost use Rattle.xn_kernel.specs.FlushedStates.{KeepsNewest, StateRefuses, StateWaves};
ghost use Rattle.xnfs_session.specs.Kept.{KeepsVolumes};
ghost use Rattle.xnfs_session.specs.Opening.{MakesBy, OpensBy};
ghost use Rattle.templates.specs.Meaning.{numbers_of_pair};
ghost use Rattle.xnfs_session.specs.Sessions.{entry_blocks, inode_blocks, mode_of, name_blocks, new_of, owner_of, removal_in, removed_of, used_in};

mod raw;

use arrayvec::ArrayVec;
use ffs_format::inodes::MOST_INODES;
use ffs_format::is_name;
use ffs_lib::{FfsFault, Fs, Repairs, Volume};
use ffs_lookup::{
    DIRECTORY, Found, Room, Slot, find_directory, find_entry, find_free, find_inode, find_room,
    is_library, root_block,
};
use flush_store::FlushStore;
pub use raw::{Entry, Facts, has_volume};
use std::alloc::{AllocError, Global};
use std::marker::Model;
use store_types::BLOCK_LEN;
use udf_run::{Pair, owns};
use xn_kernel::{Refusal, Store};

/// How many bytes a file has at most.
pub const MOST_BYTES: u32 = 71_680;

/// What a name of a directory stands for.
#[derive(Clone, Copy, Debug, PartialEq, Eq)]
pub enum Kind {
    /// A file.
    File,
    /// A directory.
    Directory,
}

/// What stands at an inode.
#[derive(Clone, Copy, Debug, PartialEq, Eq)]
pub struct Node {
    pub number: u16,
    pub is_directory: bool,
    /// How many names it has, or may have after a call that was cut short.
    pub links: u16,
    /// In bytes; of a directory 512 for each of its blocks.
    pub size: u32,
}

/// A block, its type, and the blocks that it points to.
#[derive(Debug, Drop)]
pub struct Owner {
    pub block: u32,
    pub ty: u32,
    pub owned: Vec<u32>,
}

/// What is taken and what is left.
#[derive(Clone, Copy, Debug, PartialEq, Eq)]
pub struct Usage {
    pub free_blocks: u32,
    pub used_inodes: u16,
}

ghost use Rattle.xnfs_session.specs.Sessions.{node_from};

/// A store with the open volume of a file system.
pub struct Session<S: FlushStore> {
    store: S,
    fs: Fs,
    volume: Volume,
}

impl<S: FlushStore> Model for Session<S> {
    ghost use Rattle.std.specs.Prelude.{◌≡◌};
    ghost use Rattle.ffs_lib.specs.Volumes.{IsVolume};
    ghost use Rattle.xnfs_session.specs.Sessions.{SessionValue};

    ghost Value = { SessionValue S };

    ghost view = { λ a. record { store = a.store; fs = a.volume.fs.number; numbers = a.volume.added } };

    ghost invariant = { λ a. IsVolume (S.types_of a.store) (S.state_of a.store) a.volume × (a.volume.fs ≡ a.fs) };
}

impl<S: FlushStore + Drop> Drop for Session<S> {
    fn drop(self) {
        let Session {
            store: _,
            fs: _,
            volume: _,
        } = self;
    }
}

/// What was found of an inode.
fn node_of(number: u16, found: &Found) -> Node
    ensures { result ≡ node_from number found.now.inode }
{
    Node {
        number,
        is_directory: found.inode.mode() == DIRECTORY,
        links: found.inode.links(),
        size: found.inode.size(),
    }
}

/// The entry of a directory that has a name.
fn named<S: Store>(store: &S, fs: Fs, directory: u16, name: &[u8]) -> Result<Slot, FfsFault>
    ensures { IsLibrary (S.types_of store.now) → result ≡ named_in (latest (S.state_of store.now).lives) fs.number directory name.now }
{
    let found = find_directory(store, fs, directory)?;
    if !is_name(name) {
        return Err(FfsFault::BadName);
    }
    find_entry(store, fs, &found, directory, name)?.ok_or(FfsFault::NoEntry)
}

/// The blocks of some pairs.
fn blocks_of(alloc: Global, pairs: &[Pair]) -> Result<Vec<u32>, AllocError>
    ensures { IfOk result (λ blocks. blocks.items ≡ map (λ pair. pair.block) pairs.now) }
{
    pairs.iter().map(|pair| pair.block).collect(alloc)
}

/// What a block of an installed type points to, each block with its type.
fn pairs_of<S: Store>(store: &S, ty: u32, bytes: &[u8; BLOCK_LEN]) -> ArrayVec<Pair, 128>
    requires { IsTrue ((S.types_of store.now).installed ty) }
    ensures { map numbers_of_pair result.items ≡ (S.types_of store.now).owned ty bytes.now }
{
    let mut pairs = ArrayVec::new();
    let Some(template) = store.template(ty) else {
        unreachable!()
    };
    owns(template.owns(), bytes, &mut pairs);
    pairs
}

/// How many blocks an entry takes at the room that a directory has for it.
fn entry_blocks(room: &Room) -> u32
    ensures is { result ≡ entry_blocks (Some room.now) }
    ensures few { result ≤ 1 }
{
    match room {
        Room::Entry { .. } => 0,
        Room::Pointer(_) => 1,
    }
}

/// How many blocks the inode of a name takes, none where it is there.
fn inode_blocks<S: Store>(store: &S, fs: Fs, is_new: bool) -> Result<u32, FfsFault>
    ensures is { IsLibrary (S.types_of store.now) → result ≡ inode_blocks (latest (S.state_of store.now).lives) fs.number is_new }
    ensures few { IfOk result (λ blocks. blocks ≤ 1) }
{
    if is_new {
        let _root = root_block(store, fs)?;
        return match find_free(store, fs)? {
            Some(_) => Ok(0),
            None => Ok(1),
        };
    }
    Ok(0)
}

impl<S: FlushStore + Drop> Session<S> {
    /// Opens the volume of a file system of a store on which nothing is under way. What is pending is written first. `Kernel` where the store
    /// could not be flushed; `NoEntry` where there is no volume, also where the store lacks the library's types; `Unsound` of the least
    /// inode that more entries name than it has links. The bytes of the store's blocks stay as they are.
    pub fn open(alloc: Global, store: S, fs: Fs) -> Result<Session<S>, FfsFault>
        ensures fs { IfOk result (λ session. session.fs ≡ fs.number) }
        ensures numbers { IfOk result (λ session. edits_of session.numbers ≡ no_edits) }
        ensures types { IfOk result (λ session. S.types_of session.store ≡ S.types_of store) }
        ensures opens { OpensBy (S.types_of store) fs.number (S.state_of store) (mapped (λ session. S.state_of session.store) result) }
        ensures clean { IfOk result (λ session. NothingPending (S.state_of session.store).lives) }
    {
        let mut store = store;
        let _waves = store.flush(alloc)?;
        if !is_library(&store) {
            return Err(FfsFault::NoEntry);
        }
        let volume = Volume::open(&store, fs)?;
        Ok(Session { store, fs, volume })
    }

    /// Makes the volume of a file system that has none, with what `open` asks of the store; then the faults are those of `make` of a volume,
    /// `Exists` where there is one.
    pub fn make(alloc: Global, store: S, fs: Fs) -> Result<Session<S>, FfsFault>
        ensures fs { IfOk result (λ session. session.fs ≡ fs.number) }
        ensures numbers { IfOk result (λ session. edits_of session.numbers ≡ no_edits) }
        ensures types { IfOk result (λ session. S.types_of session.store ≡ S.types_of store) }
        ensures makes { MakesBy (S.types_of store) fs.number (S.state_of store) (mapped (λ session. S.state_of session.store) result) }
    {
        let mut store = store;
        let _waves = store.flush(alloc)?;
        if !is_library(&store) {
            return Err(FfsFault::NoEntry);
        }
        let volume = Volume::make(alloc, &mut store, fs)?;
        Ok(Session { store, fs, volume })
    }

    /// The store again.
    pub fn into_store(self) -> S
        ensures { result ≡ self.store }
    {
        let Session {
            store,
            fs: _,
            volume: _,
        } = self;
        store
    }

    /// The store, for looking: what would change it passes the volume by.
    pub fn store(&self) -> &S
        ensures { result.now ≡ self.now.store }
    {
        &self.store
    }

    /// Its volume, for looking.
    pub fn volume(&self) -> &Volume
        ensures is { IsVolume (S.types_of self.now.store) (S.state_of self.now.store) result.now }
        ensures fs { result.now.fs.number ≡ self.now.fs }
        ensures numbers { result.now.added ≡ self.now.numbers }
    {
        &self.volume
    }

    /// Its file system.
    pub fn fs(&self) -> Fs
        ensures { result.number ≡ self.now.fs }
    {
        self.fs
    }

    /// Writes all that is pending, and answers how many waves that took, as a flush of its store does; after one that stopped (`Device`) the
    /// session is of no more use.
    pub fn flush(&mut self, alloc: Global) -> Result<u32, Refusal>
        ensures types { S.types_of self.new.store ≡ S.types_of self.old.store }
        ensures fs { self.new.fs ≡ self.old.fs }
        ensures numbers { self.new.numbers ≡ self.old.numbers }
        ensures waves { IfOk result (λ waves. StateWaves waves (S.state_of self.old.store) (S.state_of self.new.store)) }
        ensures idle { OnOk result (IsIdle (S.state_of self.old.store).lives × IsIdle (S.state_of self.new.store).lives) }
        ensures done { OnOk result (NothingPending (S.state_of self.new.store).lives) }
        ensures err { IfErr result (λ refusal. StateRefuses (S.state_of self.old.store) refusal (S.state_of self.new.store)) }
        ensures newest { KeepsNewest (S.state_of self.old.store).lives (S.state_of self.new.store).lives }
        ensures keeps { KeepsVolumes (S.types_of self.old.store) (S.state_of self.old.store) (S.types_of self.new.store) (S.state_of self.new.store) }
    {
        let _few = self.fs.index();
        self.store.flush(alloc)
    }

    /// Writes what is pending in so many waves at most, and answers how many that took, fewer only where nothing is pending any more.
    pub fn flush_waves(&mut self, alloc: Global, most: u32) -> Result<u32, Refusal>
        ensures types { S.types_of self.new.store ≡ S.types_of self.old.store }
        ensures fs { self.new.fs ≡ self.old.fs }
        ensures numbers { self.new.numbers ≡ self.old.numbers }
        ensures waves { IfOk result (λ waves. StateWaves waves (S.state_of self.old.store) (S.state_of self.new.store)) }
        ensures idle { OnOk result (IsIdle (S.state_of self.old.store).lives × IsIdle (S.state_of self.new.store).lives) }
        ensures few { IfOk result (λ waves. waves ≤ most) }
        ensures done { IfOk result (λ waves. waves < most → NothingPending (S.state_of self.new.store).lives) }
        ensures err { IfErr result (λ refusal. StateRefuses (S.state_of self.old.store) refusal (S.state_of self.new.store)) }
        ensures newest { KeepsNewest (S.state_of self.old.store).lives (S.state_of self.new.store).lives }
        ensures keeps { KeepsVolumes (S.types_of self.old.store) (S.state_of self.old.store) (S.types_of self.new.store) (S.state_of self.new.store) }
    {
        let _few = self.fs.index();
        self.store.flush_waves(alloc, most)
    }

    /// What stands at an inode in use.
    pub fn node(&self, number: u16) -> Result<Node, FfsFault>
        ensures { result ≡ mapped (node_from number) (inode_in (latest (S.state_of self.now.store).lives) self.now.fs number) }
    {
        let found = find_inode(&self.store, self.fs, number)?;
        Ok(node_of(number, &found))
    }

    /// The inode that a name in a directory names.
    pub fn look_up(&self, directory: u16, name: &[u8]) -> Result<u16, FfsFault>
        ensures { result ≡ mapped (λ slot. slot.inode) (named_in (latest (S.state_of self.now.store).lives) self.now.fs directory name.now) }
    {
        let slot = named(&self.store, self.fs, directory, name)?;
        Ok(slot.inode)
    }

    /// Makes an empty file or an empty directory, and answers its inode.
    pub fn create(
        &mut self,
        alloc: Global,
        directory: u16,
        name: &[u8],
        kind: Kind,
    ) -> Result<u16, FfsFault>
        ensures types { S.types_of self.new.store ≡ S.types_of self.old.store }
        ensures fs { self.new.fs ≡ self.old.fs }
        ensures answers { let files = files_of (newest_block (S.state_of self.old.store)) self.old.fs in
            Does (S.types_of self.old.store) self.old.fs (created (new_of kind) files directory name.now)
            (created_stages (new_of kind) files directory name.now) (S.state_of self.old.store) (S.state_of self.new.store) result }
        ensures inodes { let old = newest_block (S.state_of self.old.store) in let new = newest_block (S.state_of self.new.store) in
            (next : ℕ × Files) → created (new_of kind) (files_of old self.old.fs) directory name.now ≡ Ok next →
            Makes old new self.old.fs directory (mode_of kind) next.0 × OnErr result (OnlyMade old new self.old.fs next.0) }
        ensures order { (n : ℕ) → Ok n ≡ new_in (newest_block (S.state_of self.old.store)) self.old.fs directory name.now →
            CreatesInOrder (S.types_of self.old.store) self.old.fs directory name.now (mode_of kind) n (edits_of self.old.numbers)
            (S.state_of self.old.store) (edits_of self.new.numbers) (S.state_of self.new.store) result }
        ensures numbers { (fault : FfsFault) → Err fault ≡ create_in (newest_block (S.state_of self.old.store)) self.old.fs directory name.now →
            edits_of self.new.numbers ≡ edits_of self.old.numbers }
    {
        match kind {
            Kind::File => self.volume.create(alloc, &mut self.store, directory, name),
            Kind::Directory => self.volume.mkdir(alloc, &mut self.store, directory, name),
        }
    }

    /// Writes the first of some bytes into a file from an offset on, as many as the store takes now, and answers how many. It answers 0 where too
    /// much is pending: once that is flushed the call can be made again.
    pub fn write_some(
        &mut self,
        alloc: Global,
        inode: u16,
        offset: u32,
        bytes: &[u8],
    ) -> Result<usize, FfsFault>
        ensures types { S.types_of self.new.store ≡ S.types_of self.old.store }
        ensures fs { self.new.fs ≡ self.old.fs }
        ensures numbers { self.new.numbers ≡ self.old.numbers }
        ensures answers { let files = files_of (newest_block (S.state_of self.old.store)) self.old.fs in
            DoesSome (S.types_of self.old.store) self.old.fs files
            (after_in (S.types_of self.old.store) self.old.fs inode offset bytes.now (S.state_of self.old.store))
            inode offset bytes.now (written files inode offset bytes.now) (S.state_of self.old.store) (S.state_of self.new.store) result }
        ensures inodes { let old = newest_block (S.state_of self.old.store) in let new = newest_block (S.state_of self.new.store) in let fs = self.old.fs in
            (file : List ℕ) → Ok file ≡ write_in old fs inode (offset + length bytes.now) →
            let done = some_by (S.types_of self.old.store) fs inode file offset bytes.now (S.state_of self.old.store) (S.state_of self.new.store) result in
            Overwrites old new fs inode file offset bytes.now done
            × WritesSomeTo (S.types_of self.old.store) fs (files_of old fs)
            (after_in (S.types_of self.old.store) fs inode offset bytes.now (S.state_of self.old.store))
            inode offset bytes.now done (S.state_of self.new.store) result }
        ensures order { let old = newest_block (S.state_of self.old.store) in let fs = self.old.fs in
            (file : List ℕ) → Ok file ≡ write_in old fs inode (offset + length bytes.now) → WritesSomeInOrder (S.types_of self.old.store) fs inode file
            offset bytes.now (S.state_of self.old.store) (S.state_of self.new.store) result }
        ensures cuts { let old = newest_block (S.state_of self.old.store) in let fs = self.old.fs in
            (file : List ℕ) (there : StoreState × Last) → Ok file ≡ write_in old fs inode (offset + length bytes.now) →
            reached (S.types_of self.old.store) fs inode file offset bytes.now (first_past (file_end file) offset) (S.state_of self.old.store) ≡ Ok there →
            IfOk result (λ count. count ≢ 0 → file_end file < offset + count → ShowsWhole there.0 (S.state_of self.new.store)) }
        ensures none { length bytes.now ≡ 0 → S.state_of self.new.store ≡ S.state_of self.old.store }
        ensures few { IfOk result (λ count. count ≤ length bytes.now) }
    {
        self.volume
            .write_some(alloc, &mut self.store, inode, offset, bytes)
    }

    /// Takes a file's name, and gives the file up with its last one; or gives an empty directory up.
    pub fn remove(
        &mut self,
        alloc: Global,
        directory: u16,
        name: &[u8],
        kind: Kind,
    ) -> Result<(), FfsFault>
        ensures types { S.types_of self.new.store ≡ S.types_of self.old.store }
        ensures fs { self.new.fs ≡ self.old.fs }
        ensures numbers { self.new.numbers ≡ self.old.numbers }
        ensures answers { let files = files_of (newest_block (S.state_of self.old.store)) self.old.fs in
            Does (S.types_of self.old.store) self.old.fs (removed_of kind files directory name.now) (removed_stages files directory name.now)
            (S.state_of self.old.store) (S.state_of self.new.store) result }
        ensures inodes { let old = newest_block (S.state_of self.old.store) in let new = newest_block (S.state_of self.new.store) in let fs = self.old.fs in
            (slot : Slot) → Ok slot ≡ removal_in kind old fs directory name.now →
            Unnames old new fs directory slot.inode × OnErr result (KeptOrEmptied old new fs slot.inode) }
        ensures order { let old = newest_block (S.state_of self.old.store) in let fs = self.old.fs in
            (slot : Slot) → Ok slot ≡ removal_in kind old fs directory name.now → Orders (S.types_of self.old.store) fs
            (removed_edits old fs slot None (S.state_of self.old.store).next) (S.state_of self.old.store) (S.state_of self.new.store) result }
    {
        match kind {
            Kind::File => self.volume.unlink(alloc, &mut self.store, directory, name),
            Kind::Directory => self.volume.rmdir(alloc, &mut self.store, directory, name),
        }
    }

    /// Takes one of a directory's names where another entry of the same directory names it too, as a `rename` that was cut short leaves it.
    pub fn unname(
        &mut self,
        alloc: Global,
        directory: u16,
        name: &[u8],
        other: &[u8],
    ) -> Result<(), FfsFault>
        ensures types { S.types_of self.new.store ≡ S.types_of self.old.store }
        ensures fs { self.new.fs ≡ self.old.fs }
        ensures numbers { self.new.numbers ≡ self.old.numbers }
        ensures refused { (fault : FfsFault) → Err fault ≡ unname_in (newest_block (S.state_of self.old.store)) self.old.fs directory name.now other.now →
            (result ≡ Err fault) × (S.state_of self.new.store ≡ S.state_of self.old.store) }
        ensures inodes { let old = newest_block (S.state_of self.old.store) in let new = newest_block (S.state_of self.new.store) in let fs = self.old.fs in
            (slot : Slot) → Ok slot ≡ unname_in old fs directory name.now other.now →
            Unnames old new fs directory slot.inode × OnErr result (KeptOrEmptied old new fs slot.inode) }
        ensures order { let old = newest_block (S.state_of self.old.store) in let fs = self.old.fs in
            (slot : Slot) → Ok slot ≡ unname_in old fs directory name.now other.now → Orders (S.types_of self.old.store) fs
            (removed_edits old fs slot None (S.state_of self.old.store).next) (S.state_of self.old.store) (S.state_of self.new.store) result }
    {
        self.volume
            .unname(alloc, &mut self.store, directory, name, other)
    }

    /// Gives a file or a directory another name.
    pub fn rename(
        &mut self,
        alloc: Global,
        directory: u16,
        name: &[u8],
        other: u16,
        new_name: &[u8],
    ) -> Result<(), FfsFault>
        ensures types { S.types_of self.new.store ≡ S.types_of self.old.store }
        ensures fs { self.new.fs ≡ self.old.fs }
        ensures numbers { self.new.numbers ≡ self.old.numbers }
        ensures answers { let files = files_of (newest_block (S.state_of self.old.store)) self.old.fs in
            Does (S.types_of self.old.store) self.old.fs (renamed files directory name.now other new_name.now)
            (renamed_stages files directory name.now other new_name.now) (S.state_of self.old.store) (S.state_of self.new.store) result }
        ensures inodes { let old = newest_block (S.state_of self.old.store) in let new = newest_block (S.state_of self.new.store) in
            (slot : Slot) → Ok slot ≡ rename_in old self.old.fs directory name.now other new_name.now →
            MovedInodes old new self.old.fs directory other slot.inode }
        ensures order { let old = newest_block (S.state_of self.old.store) in let fs = self.old.fs in
            (slot : Slot) → Ok slot ≡ rename_in old fs directory name.now other new_name.now → InOrder (S.types_of self.old.store) fs
            (moved_parts fs slot other new_name.now (S.state_of self.old.store).next) (S.state_of self.old.store) (S.state_of self.new.store) result }
    {
        self.volume
            .rename(alloc, &mut self.store, directory, name, other, new_name)
    }

    /// Gives a file the name of another file, which loses it and is given up with its last one.
    pub fn replace(
        &mut self,
        alloc: Global,
        directory: u16,
        name: &[u8],
        other: u16,
        other_name: &[u8],
    ) -> Result<(), FfsFault>
        ensures types { S.types_of self.new.store ≡ S.types_of self.old.store }
        ensures fs { self.new.fs ≡ self.old.fs }
        ensures numbers { self.new.numbers ≡ self.old.numbers }
        ensures answers { let files = files_of (newest_block (S.state_of self.old.store)) self.old.fs in
            Does (S.types_of self.old.store) self.old.fs (replaced files directory name.now other other_name.now)
            (replaced_stages files directory name.now other other_name.now) (S.state_of self.old.store) (S.state_of self.new.store) result }
        ensures inodes { (from to : Slot) →
            Ok (from, to) ≡ replace_in (newest_block (S.state_of self.old.store)) self.old.fs directory name.now other other_name.now →
            Replaced (S.state_of self.old.store) (S.state_of self.new.store) self.old.fs directory from other to result }
        ensures stands { (from to : Slot) →
            Ok (from, to) ≡ replace_in (newest_block (S.state_of self.old.store)) self.old.fs directory name.now other other_name.now →
            from.inode ≢ to.inode → NamesStand (S.state_of self.old.store) (S.state_of self.new.store) from to }
        ensures order { (from to : Slot) →
            Ok (from, to) ≡ replace_in (newest_block (S.state_of self.old.store)) self.old.fs directory name.now other other_name.now →
            from.inode ≢ to.inode → InOrder (S.types_of self.old.store) self.old.fs (replaced_parts self.old.fs from to (S.state_of self.old.store).next)
            (S.state_of self.old.store) (S.state_of self.new.store) result }
        ensures one_file { let old = newest_block (S.state_of self.old.store) in let fs = self.old.fs in
            (from to : Slot) → Ok (from, to) ≡ replace_in old fs directory name.now other other_name.now → from ≢ to → from.inode ≡ to.inode →
            Orders (S.types_of self.old.store) fs (removed_edits old fs from None (S.state_of self.old.store).next)
            (S.state_of self.old.store) (S.state_of self.new.store) result }
    {
        self.volume
            .replace(alloc, &mut self.store, directory, name, other, other_name)
    }

    /// Does with each inode what it needs, and answers that; `Pending` before what is pending is written.
    pub fn reclaim(&mut self, alloc: Global) -> Result<Repairs, FfsFault>
        ensures types { S.types_of self.new.store ≡ S.types_of self.old.store }
        ensures fs { self.new.fs ≡ self.old.fs }
        ensures numbers { self.new.numbers ≡ self.old.numbers }
        ensures answers { let files = files_of (newest_block (S.state_of self.old.store)) self.old.fs in
            Does (S.types_of self.old.store) self.old.fs (if_idle (S.state_of self.old.store) self.old.fs (reclaimed files)) (reclaimed_stages files)
            (S.state_of self.old.store) (S.state_of self.new.store) (mapped (λ repairs. repair_at repairs.each) result) }
        ensures inodes { let old = newest_block (S.state_of self.old.store) in let new = newest_block (S.state_of self.new.store) in let fs = self.old.fs in
            (n : ℕ) → LeftByRepair old new fs n (needs (files_of old fs) n) }
        ensures order { InOrder (S.types_of self.old.store) self.old.fs
            (reclaimed_parts (files_of (newest_block (S.state_of self.old.store)) self.old.fs) self.old.fs)
            (S.state_of self.old.store) (S.state_of self.new.store) result }
    {
        self.volume.reclaim(alloc, &mut self.store)
    }

    /// How many blocks a new name in a directory takes, with `is_new` also the inode that it names: one where the directory's blocks have no
    /// place left, and one where those of the inodes have none. Faults are `NoEntry` and `NotDir` of the directory, and those by which no
    /// name can be made.
    pub fn blocks_for_name(&self, directory: u16, is_new: bool) -> Result<u32, FfsFault>
        ensures { result ≡ name_blocks (latest (S.state_of self.now.store).lives) self.now.fs directory is_new }
    {
        let found = find_directory(&self.store, self.fs, directory)?;
        let room = find_room(&self.store, self.fs, &found, directory)?;
        let inode = inode_blocks(&self.store, self.fs, is_new)?;
        Ok(entry_blocks(&room) + inode)
    }

    /// A block of its file system: its type, and the blocks that its newest bytes point to. Faults are those by which the store refuses to read it,
    /// and `NoMemory`.
    pub fn owner(&self, alloc: Global, block: u32) -> Result<Owner, FfsFault>
        ensures { MatchResult result
            (λ owner. (owner.block ≡ block) × (Ok (owner.ty, owner.owned.items) ≡ owner_of (S.types_of self.now.store) (S.state_of self.now.store) self.now.fs block))
            (λ fault. ((fault ≡ FfsFault.Kernel Refusal.NoMemory) × IsOk (owner_of (S.types_of self.now.store) (S.state_of self.now.store) self.now.fs block))
            ⊎ ((refusal : Refusal) × (fault ≡ FfsFault.Kernel refusal)
            × (Err refusal ≡ owner_of (S.types_of self.now.store) (S.state_of self.now.store) self.now.fs block))) }
    {
        let ty = self.store.kind(self.fs, block)?;
        let bytes = self.store.read(self.fs, block)?;
        let pairs = pairs_of(&self.store, ty, bytes);
        let owned = blocks_of(alloc, pairs.as_slice())?;
        Ok(Owner { block, ty, owned })
    }

    /// What is taken and what is left.
    pub fn usage(&self) -> Usage
        ensures { result ≡ record {
          free_blocks = free_of (S.state_of self.now.store);
          used_inodes = used_in (latest (S.state_of self.now.store).lives) self.now.fs;
        } }
    {
        let mut used_inodes = 0u16;
        for index in 0..MOST_INODES {
            if find_inode(&self.store, self.fs, index + 1).is_ok() {
                used_inodes += 1;
            }
        }
        Usage {
            free_blocks: self.store.state().free(),
            used_inodes,
        }
    }
}
