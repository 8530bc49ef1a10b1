// The one edit of a volume: bytes at a place of a block, with the blocks that it adds and drops, after another edit.

ghost use Rattle.std.specs.Prelude.{◌≡◌, ◌≢◌, ◌<◌, ◌+◌, ◌*◌, IfOk, IsTrue, OnOk, ℕ, List, [], ◌∷◌, Ok, Option, Some, length, replicate, true};
ghost use Rattle.ffs_lib.specs.Results.{new_inode};
ghost use Rattle.ffs_format.specs.Entries.{entry_of, is_name};
ghost use Rattle.ffs_format.specs.Fields.{direct_in, fields_of};
ghost use Rattle.ffs_lookup.specs.Newest.{directory_in, has_room, inode_in, room_in};
ghost use Rattle.ffs_model.specs.Library.{inode_links, zero_block};
ghost use Rattle.xn_model.specs.Types.{Types};
ghost use Rattle.ffs_model.specs.Cuts.{Under};
ghost use Rattle.ffs_lib.specs.Edits.{edit_at};
ghost use Rattle.ffs_lib.specs.Orders.{Acts, Attaches, Numbered, Orders, entered_action, grown_edit, linked_edits, taken_edits};
ghost use Rattle.xn_model.specs.Lists.{put};
ghost use Rattle.ffs_lib.specs.Replacing.{KeepsPairs};
ghost use Rattle.ffs_lib.specs.Steps.{AddsLink, Attached, Dropped, Ends, Enters, IsEntry, IsHome, MayLose, MayName, Proposed, Stage, StopsAtHome};
ghost use Rattle.ffs_lib.specs.Steps.{StopsEntering, StopsTaking, TakesLink, newest_block};

use crate::steps::{block_with, blocks_in, blocks_of, count_blocks, forgotten};
use edit_list::{Edit, EditId, Fs, Patch};
use ffs_format::entries::ENTRY_LEN;
use ffs_format::inodes::INODE_LEN;
use ffs_format::{Inode, entry_bytes};
use ffs_lookup::{FfsFault, Found, Room, find_directory, find_inode, find_room, read_block};
use std::alloc::{AllocError, Global};
use store_types::{BLOCK_LEN, DATA_TYPE};
use xn_state::Store;

/// An edit that writes bytes at a place.
fn edit_of(
    alloc: Global,
    offset: usize,
    bytes: &[u8],
    adds: &[(u32, u32)],
    drops: &[u32],
    after: Option<EditId>,
) -> Result<Edit, AllocError>
    requires { offset < 512 }
    ensures { IfOk result (λ edit. edit ≡ edit_at offset bytes.now adds.now drops.now after) }
{
    let patch = Patch {
        offset: offset as u16,
        bytes: bytes.to_vec(alloc)?,
    };
    Ok(Edit {
        patches: Vec::from_array(alloc, [patch])?,
        adds: adds.to_vec(alloc)?,
        drops: drops.to_vec(alloc)?,
        after,
    })
}

/// Proposes bytes at a place of a block.
pub fn put<S: Store>(
    alloc: Global,
    store: &mut S,
    fs: Fs,
    block: u32,
    offset: usize,
    bytes: &[u8],
    adds: &[(u32, u32)],
    drops: &[u32],
    after: Option<EditId>,
) -> Result<EditId, FfsFault>
    requires { offset < 512 }
    ensures types { S.types_of store.new ≡ S.types_of store.old }
    ensures put { (T : Types) → S.types_of store.old ≡ T →
        Proposed T fs.number block (edit_at offset bytes.now adds.now drops.now after) (S.state_of store.old) (S.state_of store.new) result }
{
    let edit = edit_of(alloc, offset, bytes, adds, drops, after)?;
    Ok(store.propose(fs, block, &edit)?)
}

/// Lets a block point to a new one, or forgets that.
pub fn attach<S: Store>(
    alloc: Global,
    store: &mut S,
    fs: Fs,
    block: u32,
    offset: usize,
    bytes: &[u8],
    added: (u32, u32),
    after: Option<EditId>,
) -> Result<EditId, FfsFault>
    requires { offset < 512 }
    ensures types { S.types_of store.new ≡ S.types_of store.old }
    ensures put { (T : Types) → S.types_of store.old ≡ T →
        Attached T fs.number added.0 block (edit_at offset bytes.now (added ∷ []) [] after) (S.state_of store.old) (S.state_of store.new) result }
{
    let attached = put(alloc, store, fs, block, offset, bytes, &[added], &[], after);
    forgotten(store, fs, added.0, attached)
}

/// Proposes the bytes of an inode.
pub fn put_inode<S: Store>(
    alloc: Global,
    store: &mut S,
    fs: Fs,
    block: u32,
    place: usize,
    inode: &Inode,
    adds: &[(u32, u32)],
    drops: &[u32],
    after: Option<EditId>,
) -> Result<EditId, FfsFault>
    requires { place < 8 }
    ensures types { S.types_of store.new ≡ S.types_of store.old }
    ensures whole { length inode.now ≡ 64 }
    ensures put { (T : Types) → S.types_of store.old ≡ T →
        Proposed T fs.number block (edit_at (64 * place) inode.now adds.now drops.now after) (S.state_of store.old) (S.state_of store.new) result }
{
    let bytes = inode.bytes();
    put(
        alloc,
        store,
        fs,
        block,
        INODE_LEN * place,
        bytes,
        adds,
        drops,
        after,
    )
}

/// Drops the blocks that a block of pointers points to, if there are any. Answers the edit that comes last.
pub fn drop_data<S: Store>(
    alloc: Global,
    store: &mut S,
    fs: Fs,
    block: u32,
    after: EditId,
) -> Result<EditId, FfsFault>
    ensures types { S.types_of store.new ≡ S.types_of store.old }
    ensures put { (T : Types) → S.types_of store.old ≡ T → (block ≢ 0 → Under T (newest_block (S.state_of store.old)) fs.number block 5) →
        Dropped T fs.number block after (S.state_of store.old) (S.state_of store.new) result }
{
    if block == 0 {
        return Ok(after);
    }
    let dropped = blocks_in(alloc, read_block(store, fs, block)?)?;
    if dropped.is_empty() {
        return Ok(after);
    }
    put(
        alloc,
        store,
        fs,
        block,
        0,
        &[0; BLOCK_LEN],
        &[],
        &dropped,
        Some(after),
    )
}

/// Takes a link from an inode, after the edit that lets it be taken, or gives it up with its last link.
pub fn take_link<S: Store>(
    alloc: Global,
    store: &mut S,
    fs: Fs,
    number: u16,
    after: EditId,
) -> Result<EditId, FfsFault>
    ensures types { S.types_of store.new ≡ S.types_of store.old }
    ensures ends { (T : Types) (array : ℕ → Option ℕ) → S.types_of store.old ≡ T → Stage T fs.number array (S.state_of store.old) →
        MayLose (S.state_of store.old) fs.number number after → Ends T fs.number array (S.state_of store.new) result
        (λ _. TakesLink (newest_block (S.state_of store.old)) (newest_block (S.state_of store.new)) fs.number number)
        (StopsTaking T fs.number (S.state_of store.old) (S.state_of store.new) number) }
    ensures order { (T : Types) (array : ℕ → Option ℕ) → S.types_of store.old ≡ T → Stage T fs.number array (S.state_of store.old) →
        MayLose (S.state_of store.old) fs.number number after → Orders T fs.number
        (taken_edits (newest_block (S.state_of store.old)) fs.number number after (S.state_of store.old).next)
        (S.state_of store.old) (S.state_of store.new) result }
    ensures waits { (T : Types) (array : ℕ → Option ℕ) (n e : ℕ) → S.types_of store.old ≡ T → Stage T fs.number array (S.state_of store.old) →
        MayLose (S.state_of store.old) fs.number number after → n ≢ number → MayLose (S.state_of store.old) fs.number n e →
        OnOk result (MayLose (S.state_of store.new) fs.number n e) }
    ensures pairs { (T : Types) (array : ℕ → Option ℕ) → S.types_of store.old ≡ T → Stage T fs.number array (S.state_of store.old) →
        MayLose (S.state_of store.old) fs.number number after → KeepsPairs fs.number (S.state_of store.old) (S.state_of store.new) }
{
    let Found {
        block,
        place,
        mut inode,
    } = find_inode(store, fs, number)?;
    let links = inode.links();
    if links > 1 {
        inode.set_links(links - 1);
        return put_inode(
            alloc,
            store,
            fs,
            block,
            place,
            &inode,
            &[],
            &[],
            Some(after),
        );
    }
    let dropped = drop_data(alloc, store, fs, inode.indirect(), after)?;
    let found = find_inode(store, fs, number)?;
    let drops = blocks_of(alloc, &found.inode)?;
    put_inode(
        alloc,
        store,
        fs,
        found.block,
        found.place,
        &Inode::free(),
        &[],
        &drops,
        Some(dropped),
    )
}

/// Gives a directory a new block with one entry.
fn grow<S: Store>(
    alloc: Global,
    store: &mut S,
    fs: Fs,
    number: u16,
    index: usize,
    entry: &[u8; 32],
    after: EditId,
) -> Result<EditId, FfsFault>
    requires { index < 12 }
    ensures types { S.types_of store.new ≡ S.types_of store.old }
    ensures ends { (T : Types) (array : ℕ → Option ℕ) (directory name : List ℕ) (n : ℕ) → S.types_of store.old ≡ T →
        Stage T fs.number array (S.state_of store.old) →
        MayName (S.state_of store.old) fs.number n after → Ok directory ≡ directory_in (newest_block (S.state_of store.old)) fs.number number →
        Some (Room.Pointer index) ≡ room_in (newest_block (S.state_of store.old)) directory → direct_in directory index ≡ 0 → IsEntry entry.now n name →
        Ends T fs.number array (S.state_of store.new) result
        (Enters (S.state_of store.old) (S.state_of store.new) fs.number number name n)
        (StopsEntering T fs.number (S.state_of store.old) (S.state_of store.new) number entry.now) }
    ensures order { (T : Types) (array : ℕ → Option ℕ) (directory name : List ℕ) (n home : ℕ) → S.types_of store.old ≡ T →
        Stage T fs.number array (S.state_of store.old) →
        MayName (S.state_of store.old) fs.number n after → Ok directory ≡ directory_in (newest_block (S.state_of store.old)) fs.number number →
        Some (Room.Pointer index) ≡ room_in (newest_block (S.state_of store.old)) directory → direct_in directory index ≡ 0 → IsEntry entry.now n name →
        IsHome (newest_block (S.state_of store.old)) fs.number number home →
        Acts T fs.number (Attaches 2 (put zero_block 0 entry.now) home (grown_edit number directory index after))
        (S.state_of store.old) (S.state_of store.new) result × IfOk result (λ e. (S.state_of store.new).next ≡ e + 1) }
{
    let (block, _) = store.init(fs, DATA_TYPE, &block_with(0, entry))?;
    let Found {
        block: home,
        place,
        mut inode,
    } = find_directory(store, fs, number)?;
    inode.set_direct(index, block);
    let size = BLOCK_LEN as u32 * count_blocks(&inode);
    inode.set_size(size);
    let at = INODE_LEN * place;
    attach(
        alloc,
        store,
        fs,
        home,
        at,
        inode.bytes(),
        (block, DATA_TYPE),
        Some(after),
    )
}

/// Gives a directory an entry, after the edit that lets the inode be named.
pub fn enter<S: Store>(
    alloc: Global,
    store: &mut S,
    fs: Fs,
    number: u16,
    inode: u16,
    name: &[u8],
    after: EditId,
) -> Result<EditId, FfsFault>
    requires { IsTrue (is_name name.now) }
    ensures types { S.types_of store.new ≡ S.types_of store.old }
    ensures ends { (T : Types) (array : ℕ → Option ℕ) (directory : List ℕ) → S.types_of store.old ≡ T → Stage T fs.number array (S.state_of store.old) →
        MayName (S.state_of store.old) fs.number inode after → Ok directory ≡ directory_in (newest_block (S.state_of store.old)) fs.number number →
        has_room (newest_block (S.state_of store.old)) directory ≡ true → Ends T fs.number array (S.state_of store.new) result
        (Enters (S.state_of store.old) (S.state_of store.new) fs.number number name.now inode)
        (StopsEntering T fs.number (S.state_of store.old) (S.state_of store.new) number (entry_of inode name.now)) }
    ensures order { (T : Types) (array : ℕ → Option ℕ) (directory : List ℕ) → S.types_of store.old ≡ T → Stage T fs.number array (S.state_of store.old) →
        MayName (S.state_of store.old) fs.number inode after → Ok directory ≡ directory_in (newest_block (S.state_of store.old)) fs.number number →
        has_room (newest_block (S.state_of store.old)) directory ≡ true →
        Acts T fs.number (entered_action (newest_block (S.state_of store.old)) fs.number number (entry_of inode name.now) after)
        (S.state_of store.old) (S.state_of store.new) result × IfOk result (λ e. (S.state_of store.new).next ≡ e + 1) }
{
    let entry = entry_bytes(inode, name);
    let directory = find_directory(store, fs, number)?;
    match find_room(store, fs, &directory, number)? {
        Room::Entry { block, place } => {
            put(
                alloc,
                store,
                fs,
                block,
                ENTRY_LEN * place,
                &entry,
                &[],
                &[],
                Some(after),
            )
        }
        Room::Pointer(index) => grow(alloc, store, fs, number, index, &entry, after),
    }
}

/// An inode with a mode, one link, and no block.
pub fn empty_inode(mode: u16) -> Inode
    ensures bytes { result ≡ new_inode mode }
    ensures fields { fields_of result ≡ record (fields_of (replicate 64 0)) { mode = mode; links = 1 } }
{
    let mut inode = Inode::free();
    inode.set_mode(mode);
    inode.set_links(1);
    inode
}

/// Gives an inode a link more.
pub fn add_link<S: Store>(
    alloc: Global,
    store: &mut S,
    fs: Fs,
    number: u16,
) -> Result<EditId, FfsFault>
    ensures types { S.types_of store.new ≡ S.types_of store.old }
    ensures ends { (T : Types) (array : ℕ → Option ℕ) (inode : List ℕ) → S.types_of store.old ≡ T → Stage T fs.number array (S.state_of store.old) →
        Ok inode ≡ inode_in (newest_block (S.state_of store.old)) fs.number number → inode_links inode ≢ 65535 →
        Ends T fs.number array (S.state_of store.new) result
        (λ e. MayName (S.state_of store.new) fs.number number e
        × AddsLink (newest_block (S.state_of store.old)) (newest_block (S.state_of store.new)) fs.number number)
        (StopsAtHome T fs.number (S.state_of store.old) (S.state_of store.new) number) }
    ensures order { (T : Types) (array : ℕ → Option ℕ) (inode : List ℕ) → S.types_of store.old ≡ T → Stage T fs.number array (S.state_of store.old) →
        Ok inode ≡ inode_in (newest_block (S.state_of store.old)) fs.number number → inode_links inode ≢ 65535 →
        Orders T fs.number (linked_edits (newest_block (S.state_of store.old)) fs.number number) (S.state_of store.old) (S.state_of store.new) result
        × IfOk result (Numbered (S.state_of store.old) (S.state_of store.new)) }
    ensures pairs { (T : Types) (array : ℕ → Option ℕ) → S.types_of store.old ≡ T → Stage T fs.number array (S.state_of store.old) →
        KeepsPairs fs.number (S.state_of store.old) (S.state_of store.new) }
{
    let Found {
        block,
        place,
        mut inode,
    } = find_inode(store, fs, number)?;
    let links = inode.links();
    if links == u16::MAX {
        return Err(FfsFault::TooLarge);
    }
    inode.set_links(links + 1);
    put_inode(alloc, store, fs, block, place, &inode, &[], &[], None)
}
