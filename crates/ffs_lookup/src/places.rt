// Where inodes and entries stand.

ghost use Rattle.std.specs.Prelude.{◌≡◌, ◌≢◌, ℕ, ◌<◌, ◌≤◌, ◌*◌, ◌==◌, ◌&&◌, length, find, not, bytes_eq, is_some, true, false, IfOk, IfSome, IsOk, MatchResult};
ghost use Rattle.std.specs.Prelude.{Ok, Err, Some};
ghost use Rattle.std.specs.List.{list_any, range_with_len};
ghost use Rattle.ffs_format.specs.Entries.{name_in};
ghost use Rattle.ffs_format.specs.Fields.{direct_in};
ghost use Rattle.ffs_model.specs.Cuts.{Under, latest};
ghost use Rattle.ffs_model.specs.Names.{IsRoot, IsInodes};
ghost use Rattle.ffs_model.specs.Library.{library_layout, half_at, inode_at, inode_mode, pointer_word, IsLibrary};
ghost use Rattle.ffs_lookup.specs.Newest.{mapped, root_in, inode_block_in, inode_in, directory_in, file_in, slots_of, first_named, has_room, has_free_inode};
ghost use Rattle.ffs_lookup.specs.Newest.{has_empty_pointer, is_free_inode, room_in, IsLowest};
ghost use Rattle.ffs_lookup.specs.Places.{IsFound, IsDirectory, IsFile, IsFree, IsEmptyPointer, IsSlot, IsRoom};

use crate::fault::FfsFault;
use edit_list::Fs;
use ffs_format::inodes::{DIRECT_POINTERS, MOST_INODES};
use ffs_format::{ENTRIES, INODES, Inode, entry_inode, entry_name, home, pointer};
use store_types::BLOCK_LEN;
use xn_state::Store;

/// The type of a file system's root block.
pub const ROOT: u32 = 3;

/// How many inode blocks a root block points to.
pub const INODE_BLOCKS: usize = 16;

/// The mode of a directory's inode.
pub const DIRECTORY: u16 = 2;

/// An inode in use, and where it stands: its block and its place there.
#[derive(Drop)]
pub struct Found {
    pub block: u32,
    pub place: usize,
    pub inode: Inode,
}

/// An entry of a directory: its block, its place there, and the inode that it names.
#[derive(Clone, Copy)]
pub struct Slot {
    pub block: u32,
    pub place: usize,
    pub inode: u16,
}

/// A free inode: its number, its block and its place there.
#[derive(Clone, Copy)]
pub struct Free {
    pub number: u16,
    pub block: u32,
    pub place: usize,
}

/// Where a directory has room for an entry.
#[derive(Clone, Copy)]
pub enum Room {
    /// In one of its blocks, at a place.
    Entry { block: u32, place: usize },
    /// In a block that is to be its next one, at this one of its pointers.
    Pointer(usize),
}

/// A block of a disk has 512 bytes.
fn is_whole(block: &[u8; BLOCK_LEN])
    ensures { length block.now ≡ 512 }
{
    let _ = block;
}

/// The newest bytes of a block.
pub fn read_block<S: Store>(store: &S, fs: Fs, block: u32) -> Result<&[u8; BLOCK_LEN], FfsFault>
    ensures bytes { IfOk result (λ bytes. latest (S.state_of store.now).lives block ≡ bytes.now) }
    ensures whole { IfOk result (λ bytes. length bytes.now ≡ 512) }
    ensures reached { (ty : ℕ) → Under (S.types_of store.now) (latest (S.state_of store.now).lives) fs.number block ty → IsOk result }
{
    let bytes = store.read(fs, block)?;
    is_whole(bytes);
    Ok(bytes)
}

/// The root block.
pub fn root_block<S: Store>(store: &S, fs: Fs) -> Result<u32, FfsFault>
    ensures root { IfOk result (λ root. IsRoot (latest (S.state_of store.now).lives) fs.number root) }
    ensures exact { result ≡ root_in (latest (S.state_of store.now).lives) fs.number }
{
    let Some(root) = store.root(fs) else {
        return Err(FfsFault::NoEntry);
    };
    if store.kind(fs, root)? == ROOT {
        Ok(root)
    } else {
        Err(FfsFault::NoEntry)
    }
}

/// The inode block at an index, 0 to 15, of the root block.
pub fn inode_block<S: Store>(store: &S, fs: Fs, index: usize) -> Result<u32, FfsFault>
    requires { index < 16 }
    ensures inodes { IfOk result (λ block. IsInodes library_layout (latest (S.state_of store.now).lives) fs.number index block) }
    ensures exact { result ≡ inode_block_in (latest (S.state_of store.now).lives) fs.number index }
{
    let root = root_block(store, fs)?;
    let block = pointer(read_block(store, fs, root)?, index);
    if block == 0 {
        Err(FfsFault::NoEntry)
    } else {
        Ok(block)
    }
}

/// The inode of this number, if it is in use.
pub fn find_inode<S: Store>(store: &S, fs: Fs, number: u16) -> Result<Found, FfsFault>
    ensures found { IfOk result (λ found. IsFound (S.state_of store.now) fs.number number found) }
    ensures exact { IsLibrary (S.types_of store.now) → mapped (λ found. found.inode) result ≡ inode_in (latest (S.state_of store.now).lives) fs.number number }
{
    if number == 0 || number > MOST_INODES {
        return Err(FfsFault::NoEntry);
    }
    let (index, place) = home(number);
    let block = inode_block(store, fs, index)?;
    let inode = Inode::read(read_block(store, fs, block)?, place);
    if inode.mode() == 0 {
        return Err(FfsFault::NoEntry);
    }
    Ok(Found {
        block,
        place,
        inode,
    })
}

/// The directory of this number.
pub fn find_directory<S: Store>(store: &S, fs: Fs, number: u16) -> Result<Found, FfsFault>
    ensures found { IfOk result (λ found. IsDirectory (S.state_of store.now) fs.number number found) }
    ensures exact { IsLibrary (S.types_of store.now) → mapped (λ found. found.inode) result ≡
        directory_in (latest (S.state_of store.now).lives) fs.number number }
{
    let found = find_inode(store, fs, number)?;
    if found.inode.mode() == DIRECTORY {
        Ok(found)
    } else {
        Err(FfsFault::NotDir)
    }
}

/// The file of this number.
pub fn find_file<S: Store>(store: &S, fs: Fs, number: u16) -> Result<Found, FfsFault>
    ensures found { IfOk result (λ found. IsFile (S.state_of store.now) fs.number number found) }
    ensures exact { IsLibrary (S.types_of store.now) → mapped (λ found. found.inode) result ≡ file_in (latest (S.state_of store.now).lives) fs.number number }
{
    let found = find_inode(store, fs, number)?;
    if found.inode.mode() == DIRECTORY {
        Err(FfsFault::IsDir)
    } else {
        Ok(found)
    }
}

/// The place of the entry with this name in a directory's block.
fn entry_in(block: &[u8; BLOCK_LEN], name: &[u8]) -> Option<usize>
    ensures entry { IfSome result (λ place. (place < 16) × (half_at block.now (32 * place) ≢ 0)) }
    ensures exact { result ≡ find (λ place. not (half_at block.now (32 * place) == 0) &&
        bytes_eq (name_in block.now (32 * place)) name.now) (range_with_len 0 16) }
{
    (0..ENTRIES).find(|place| entry_inode(block, *place) != 0 && entry_name(block, *place) == name)
}

/// The first place without an entry in a directory's block.
fn gap_in(block: &[u8; BLOCK_LEN]) -> Option<usize>
    ensures gap { IfSome result (λ place. (place < 16) × (half_at block.now (32 * place) ≡ 0)) }
    ensures exact { result ≡ find (λ place. half_at block.now (32 * place) == 0) (range_with_len 0 16) }
{
    (0..ENTRIES).find(|place| entry_inode(block, *place) == 0)
}

/// The entry of a directory that has this name, if there is one.
pub fn find_entry<S: Store>(
    store: &S,
    fs: Fs,
    directory: &Found,
    number: u16,
    name: &[u8],
) -> Result<Option<Slot>, FfsFault>
    requires { IsDirectory (S.state_of store.now) fs.number number directory.now }
    ensures slot { IfOk result (λ entry. IfSome entry (λ slot. IsSlot (S.state_of store.now) fs.number slot)) }
    ensures exact { IsLibrary (S.types_of store.now) → result ≡ Ok (first_named (latest (S.state_of store.now).lives) directory.now.inode name.now) }
{
    for i in 0..DIRECT_POINTERS {
        let block = directory.inode.direct(i);
        if block == 0 {
            continue;
        }
        let bytes = read_block(store, fs, block)?;
        if let Some(place) = entry_in(bytes, name) {
            let inode = entry_inode(bytes, place);
            return Ok(Some(Slot {
                block,
                place,
                inode,
            }));
        }
    }
    Ok(None)
}

/// The first empty pointer of an inode to a block of its own.
fn empty_direct(inode: &Inode) -> Option<usize>
    ensures empty { IfSome result (λ index. (index < 12) × (direct_in inode.now index ≡ 0)) }
    ensures exact { result ≡ find (λ index. direct_in inode.now index == 0) (range_with_len 0 12) }
{
    (0..DIRECT_POINTERS).find(|index| inode.direct(*index) == 0)
}

/// Where a directory has room for an entry: at its first place without one, or at its first empty pointer.
pub fn find_room<S: Store>(
    store: &S,
    fs: Fs,
    directory: &Found,
    number: u16,
) -> Result<Room, FfsFault>
    requires { IsDirectory (S.state_of store.now) fs.number number directory.now }
    ensures room { IfOk result (λ room. IsRoom (S.state_of store.now) directory.now room) }
    ensures place { IfOk result (λ room. Some room ≡ room_in (latest (S.state_of store.now).lives) directory.now.inode) }
    ensures exact { IsLibrary (S.types_of store.now) → MatchResult result (λ _. has_room (latest (S.state_of store.now).lives) directory.now.inode ≡ true)
        (λ fault. (fault ≡ FfsFault.TooLarge) × (has_room (latest (S.state_of store.now).lives) directory.now.inode ≡ false)) }
{
    for i in 0..DIRECT_POINTERS {
        let block = directory.inode.direct(i);
        if block == 0 {
            continue;
        }
        if let Some(place) = gap_in(read_block(store, fs, block)?) {
            return Ok(Room::Entry { block, place });
        }
    }
    match empty_direct(&directory.inode) {
        Some(index) => Ok(Room::Pointer(index)),
        None => Err(FfsFault::TooLarge),
    }
}

/// Whether a directory's block has an entry.
fn has_entries(block: &[u8; BLOCK_LEN]) -> bool
    ensures { result ≡ list_any (λ place. not (half_at block.now (32 * place) == 0)) (range_with_len 0 16) }
{
    (0..ENTRIES).any(|place| entry_inode(block, place) != 0)
}

/// Whether a directory has no entry.
pub fn is_empty<S: Store>(store: &S, fs: Fs, directory: &Found) -> Result<bool, FfsFault>
    ensures { (number : ℕ) → IsLibrary (S.types_of store.now) → IsDirectory (S.state_of store.now) fs.number number directory.now →
        result ≡ Ok (length (slots_of (latest (S.state_of store.now).lives) directory.now.inode) == 0) }
{
    for i in 0..DIRECT_POINTERS {
        let block = directory.inode.direct(i);
        if block == 0 {
            continue;
        }
        let bytes = read_block(store, fs, block)?;
        if has_entries(bytes) {
            return Ok(false);
        }
    }
    Ok(true)
}

/// The first place of an inode block whose inode is free.
fn free_in(block: &[u8; BLOCK_LEN]) -> Option<usize>
    ensures free { IfSome result (λ place. (place < 8) × (is_free_inode (inode_at block.now place) ≡ true)) }
    ensures exact { result ≡ find (λ place. is_free_inode (inode_at block.now place)) (range_with_len 0 8) }
{
    (0..INODES).find(|place| Inode::read(block, *place).is_free())
}

/// The free inode of the lowest number in the inode blocks that there are.
pub fn find_free<S: Store>(store: &S, fs: Fs) -> Result<Option<Free>, FfsFault>
    ensures free { IfOk result (λ found. IfSome found (λ free. IsFree (S.state_of store.now) fs.number free)) }
    ensures lowest { IfOk result (λ found. IsLowest (latest (S.state_of store.now).lives) fs.number found) }
    ensures exact { IsLibrary (S.types_of store.now) → MatchResult result
        (λ found. (root : ℕ) → Ok root ≡ root_in (latest (S.state_of store.now).lives) fs.number →
        is_some found ≡ has_free_inode (latest (S.state_of store.now).lives) root)
        (λ fault. Err fault ≡ root_in (latest (S.state_of store.now).lives) fs.number) }
{
    let root = root_block(store, fs)?;
    for index in 0..INODE_BLOCKS {
        let block = pointer(read_block(store, fs, root)?, index);
        if block == 0 {
            continue;
        }
        if let Some(place) = free_in(read_block(store, fs, block)?) {
            let number = (INODES * index + place + 1) as u16;
            return Ok(Some(Free {
                number,
                block,
                place,
            }));
        }
    }
    Ok(None)
}

/// The first of the pointers in a root block's bytes that is empty.
fn empty_in(block: &[u8; BLOCK_LEN]) -> Option<usize>
    ensures empty { IfSome result (λ index. (index < 16) × (pointer_word block.now index ≡ 0)) }
    ensures exact { result ≡ find (λ index. pointer_word block.now index == 0) (range_with_len 0 16) }
{
    (0..INODE_BLOCKS).find(|index| pointer(block, *index) == 0)
}

/// The first empty pointer of the root block.
pub fn find_pointer<S: Store>(store: &S, fs: Fs) -> Result<usize, FfsFault>
    ensures empty { IfOk result (λ index. IsEmptyPointer (S.state_of store.now) fs.number index) }
    ensures first { IfOk result (λ index. (root : ℕ) → Ok root ≡ root_in (latest (S.state_of store.now).lives) fs.number →
        Some index ≡ find (λ i. pointer_word (latest (S.state_of store.now).lives root) i == 0) (range_with_len 0 16)) }
    ensures exact { (root : ℕ) → Ok root ≡ root_in (latest (S.state_of store.now).lives) fs.number → MatchResult result
        (λ _. has_empty_pointer (latest (S.state_of store.now).lives) root ≡ true)
        (λ fault. (fault ≡ FfsFault.NoInode) × (has_empty_pointer (latest (S.state_of store.now).lives) root ≡ false)) }
{
    let root = root_block(store, fs)?;
    match empty_in(read_block(store, fs, root)?) {
        Some(index) => Ok(index),
        None => Err(FfsFault::NoInode),
    }
}
