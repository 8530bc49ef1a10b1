// The bytes of files.

ghost use Rattle.std.specs.Prelude.{◌≡◌, ◌≢◌, ◌⊎◌, ℕ, ◌<◌, ◌≤◌, ◌+◌, ◌-◌, ◌*◌, ◌/◌, ◌%◌, List, [], length, map, replicate, Option, None, Some, Ok};
ghost use Rattle.std.specs.Prelude.{IfErr, IfOk, IsOk, IsTrue, OnOk, min, ◌^◌, ◌↔◌, if◌then◌else◌};
ghost use Rattle.std.specs.List.{range_with_len};
ghost use Rattle.xn_model.specs.Root.{word_at};
ghost use Rattle.xn_model.specs.Calls.{was_given};
ghost use Rattle.xn_model.specs.Types.{Types};
ghost use Rattle.xn_model.specs.Rules.{IsConsistent};
ghost use Rattle.xn_model.specs.Lives.{StoreState};
ghost use Rattle.ffs_model.specs.Cuts.{Under, latest};
ghost use Rattle.ffs_model.specs.Library.{IsLibrary, pointer_word};
ghost use Rattle.ffs_format.specs.Fields.{direct_in};
ghost use Rattle.ffs_lookup.specs.Newest.{byte_in, byte_of, file_block, file_end, file_in, mapped, most_bytes, write_in};
ghost use Rattle.ffs_lookup.specs.declared.fault.FfsFault.TheVariants.{Kernel};
ghost use Rattle.store_types.specs.declared.refusal.Refusal.TheVariants.{TooManyPending};
ghost use Rattle.ffs_lib.specs.Outcomes.{IsRaised};
ghost use Rattle.ffs_lib.specs.Results.{OnlyChanges};
ghost use Rattle.ffs_lib.specs.Steps.{Ends, Stage, StopsAtHome, newest_block};
ghost use Rattle.ffs_lib.specs.Orders.{Acts, act_of};
ghost use Rattle.ffs_lib.specs.WriteOrder.{ShowsWhole, data_action, data_parts, no_last, pointers_action, size_action, zeros_parts};
ghost use Rattle.ffs_lib.specs.declared.data.Last.{Last};
ghost use Rattle.ffs_lib.specs.Writes.{ActedBy, EndsPart, LastGiven, Parts, PointsTo, PutsBy, StopsAction, WaitsAfter, WaitsOn};
ghost use Rattle.ffs_lookup.specs.Places.{IsFile};

use crate::put::{attach, put, put_inode};
use crate::steps::{POINTER_BLOCK, POINTERS, block_with, is_word};
use edit_list::{EditId, Fs};
use ffs_format::inodes::{DIRECT_POINTERS, INODE_LEN};
use ffs_format::{pointer, pointer_bytes};
use ffs_lookup::{FfsFault, Found, find_file, read_block};
use std::alloc::Global;
use store_types::{BLOCK_LEN, DATA_TYPE, Refusal};
use xn_state::Store;

/// How many blocks a file has at most.
const FILE_BLOCKS: usize = DIRECT_POINTERS + POINTERS;

/// How many bytes a file has at most.
pub const MOST_BYTES: usize = BLOCK_LEN * FILE_BLOCKS;

/// The last edits of a write past the file's end: what the next one comes after, and what that of the size does. Each comes after the one
/// before it that is of another block than the inode's. That of the size is of the inode's block, so it comes after those of that block anyway.
#[derive(Clone, Copy)]
pub struct Last {
    pub edit: Option<EditId>,
    pub size: Option<EditId>,
}

/// How far a write came: how many bytes were done, zeros and data, its last edits, and the fault that ended it.
#[derive(Clone, Copy)]
pub struct Progress {
    pub done: usize,
    pub last: Last,
    pub fault: Option<FfsFault>,
}

/// What comes after an edit of another block than the inode's.
fn next_after(edit: EditId) -> Last
    ensures { result ≡ record { edit = Some edit; size = Some edit } }
{
    Last {
        edit: Some(edit),
        size: Some(edit),
    }
}

/// Gives a file a new block of data, to which its inode points.
fn add_direct<S: Store>(
    alloc: Global,
    store: &mut S,
    fs: Fs,
    number: u16,
    index: usize,
    at: usize,
    bytes: &[u8],
    after: Option<EditId>,
) -> Result<EditId, FfsFault>
    requires few { index < 12 }
    requires within { at + length bytes.now ≤ 512 }
    ensures types { S.types_of store.new ≡ S.types_of store.old }
    ensures ends { (T : Types) (array : ℕ → Option ℕ) (inode : List ℕ) → S.types_of store.old ≡ T → Stage T fs.number array (S.state_of store.old) →
        Ok inode ≡ file_in (newest_block (S.state_of store.old)) fs.number number → direct_in inode index ≡ 0 →
        IsTrue (was_given (S.state_of store.old) after) →
        Ends T fs.number array (S.state_of store.new) result
        (λ entry. (PutsBy (S.state_of store.old) (S.state_of store.new) fs.number number (512 * index + at) bytes.now entry
        × WaitsAfter fs.number number (S.state_of store.old) (S.state_of store.new) after (λ last. record { edit = last.edit; size = Some entry }))
        × ActedBy T fs.number (data_action (newest_block (S.state_of store.old)) fs.number number index at bytes.now after)
        (S.state_of store.old) (S.state_of store.new) entry)
        (StopsAction T fs.number (data_action (newest_block (S.state_of store.old)) fs.number number index at bytes.now after)
        (S.state_of store.old) (S.state_of store.new) number) }
{
    let (block, _) = store.init(fs, DATA_TYPE, &block_with(at, bytes))?;
    let Found {
        block: home,
        place,
        mut inode,
    } = find_file(store, fs, number)?;
    inode.set_direct(index, block);
    let here = INODE_LEN * place;
    attach(
        alloc,
        store,
        fs,
        home,
        here,
        inode.bytes(),
        (block, DATA_TYPE),
        after,
    )
}

/// Gives a file a block of pointers.
fn add_pointers<S: Store>(
    alloc: Global,
    store: &mut S,
    fs: Fs,
    number: u16,
    after: Option<EditId>,
) -> Result<u32, FfsFault>
    ensures types { S.types_of store.new ≡ S.types_of store.old }
    ensures ends { (T : Types) (array : ℕ → Option ℕ) (inode : List ℕ) (index : ℕ) → 12 ≤ index → S.types_of store.old ≡ T →
        Stage T fs.number array (S.state_of store.old) →
        Ok inode ≡ file_in (newest_block (S.state_of store.old)) fs.number number → word_at inode 56 ≡ 0 → IsTrue (was_given (S.state_of store.old) after) →
        Ends T fs.number array (S.state_of store.new) result
        (λ block. (PointsTo (S.state_of store.old) (S.state_of store.new) fs.number number inode block
        × WaitsAfter fs.number number (S.state_of store.old) (S.state_of store.new) after (λ last. last))
        × (act_of T fs.number (pointers_action (newest_block (S.state_of store.old)) fs.number number index after) (S.state_of store.old)
        ≡ Ok (S.state_of store.new)))
        (StopsAction T fs.number (pointers_action (newest_block (S.state_of store.old)) fs.number number index after)
        (S.state_of store.old) (S.state_of store.new) number) }
{
    let (block, _) = store.init(fs, POINTER_BLOCK, &[0; BLOCK_LEN])?;
    let Found {
        block: home,
        place,
        mut inode,
    } = find_file(store, fs, number)?;
    inode.set_indirect(block);
    let here = INODE_LEN * place;
    let _ = attach(
        alloc,
        store,
        fs,
        home,
        here,
        inode.bytes(),
        (block, POINTER_BLOCK),
        after,
    )?;
    Ok(block)
}

/// The block of pointers of a file, which gets one where it had none.
fn pointers_of<S: Store>(
    alloc: Global,
    store: &mut S,
    fs: Fs,
    number: u16,
    after: Option<EditId>,
) -> Result<u32, FfsFault>
    ensures types { S.types_of store.new ≡ S.types_of store.old }
    ensures ends { (T : Types) (array : ℕ → Option ℕ) (inode : List ℕ) (index : ℕ) → 12 ≤ index → S.types_of store.old ≡ T →
        Stage T fs.number array (S.state_of store.old) →
        Ok inode ≡ file_in (newest_block (S.state_of store.old)) fs.number number →
        (word_at inode 56 ≢ 0 → length (newest_block (S.state_of store.old) (word_at inode 56)) ≡ 512) → IsTrue (was_given (S.state_of store.old) after) →
        Ends T fs.number array (S.state_of store.new) result
        (λ block. (PointsTo (S.state_of store.old) (S.state_of store.new) fs.number number inode block
        × WaitsAfter fs.number number (S.state_of store.old) (S.state_of store.new) after (λ last. last))
        × (act_of T fs.number (pointers_action (newest_block (S.state_of store.old)) fs.number number index after) (S.state_of store.old)
        ≡ Ok (S.state_of store.new)))
        (StopsAction T fs.number (pointers_action (newest_block (S.state_of store.old)) fs.number number index after)
        (S.state_of store.old) (S.state_of store.new) number) }
{
    let indirect = find_file(store, fs, number)?.inode.indirect();
    if indirect != 0 {
        return Ok(indirect);
    }
    add_pointers(alloc, store, fs, number, after)
}

/// Gives a file a new block of data, to which its block of pointers points.
fn add_pointed<S: Store>(
    alloc: Global,
    store: &mut S,
    fs: Fs,
    pointers: u32,
    index: usize,
    at: usize,
    bytes: &[u8],
    after: Option<EditId>,
) -> Result<EditId, FfsFault>
    requires far { 12 ≤ index }
    requires few { index < 140 }
    requires within { at + length bytes.now ≤ 512 }
    ensures types { S.types_of store.new ≡ S.types_of store.old }
    ensures ends { (T : Types) (array : ℕ → Option ℕ) (n : ℕ) (inode : List ℕ) → S.types_of store.old ≡ T → Stage T fs.number array (S.state_of store.old) →
        Ok inode ≡ file_in (newest_block (S.state_of store.old)) fs.number n → word_at inode 56 ≡ pointers → pointers ≢ 0 →
        length (newest_block (S.state_of store.old) pointers) ≡ 512 → pointer_word (newest_block (S.state_of store.old) pointers) (index - 12) ≡ 0 →
        IsTrue (was_given (S.state_of store.old) after) →
        Ends T fs.number array (S.state_of store.new) result
        (λ entry. (PutsBy (S.state_of store.old) (S.state_of store.new) fs.number n (512 * index + at) bytes.now entry
        × WaitsAfter fs.number n (S.state_of store.old) (S.state_of store.new) after (λ last. record { edit = Some entry; size = Some entry }))
        × ActedBy T fs.number (data_action (newest_block (S.state_of store.old)) fs.number n index at bytes.now after)
        (S.state_of store.old) (S.state_of store.new) entry)
        (StopsAction T fs.number (data_action (newest_block (S.state_of store.old)) fs.number n index at bytes.now after)
        (S.state_of store.old) (S.state_of store.new) n) }
{
    let (block, _) = store.init(fs, DATA_TYPE, &block_with(at, bytes))?;
    let here = 4 * (index - DIRECT_POINTERS);
    is_word(block);
    attach(
        alloc,
        store,
        fs,
        pointers,
        here,
        &pointer_bytes(block),
        (block, DATA_TYPE),
        after,
    )
}

/// Gives a file a new block of data in a hole.
fn add_block<S: Store>(
    alloc: Global,
    store: &mut S,
    fs: Fs,
    number: u16,
    index: usize,
    at: usize,
    bytes: &[u8],
    last: Last,
) -> Result<Last, FfsFault>
    requires few { index < 140 }
    requires within { at + length bytes.now ≤ 512 }
    ensures types { S.types_of store.new ≡ S.types_of store.old }
    ensures ends { (T : Types) (array : ℕ → Option ℕ) (inode : List ℕ) → S.types_of store.old ≡ T → Stage T fs.number array (S.state_of store.old) →
        Ok inode ≡ file_in (newest_block (S.state_of store.old)) fs.number number → file_block (newest_block (S.state_of store.old)) inode index ≡ 0 →
        (12 ≤ index → word_at inode 56 ≢ 0 → length (newest_block (S.state_of store.old) (word_at inode 56)) ≡ 512) →
        LastGiven (S.state_of store.old) last →
        EndsPart T fs.number array (data_parts fs.number number index at bytes.now last.edit) (S.state_of store.old) (S.state_of store.new)
        number index at bytes.now last result }
{
    if index < DIRECT_POINTERS {
        let added = add_direct(alloc, store, fs, number, index, at, bytes, last.edit)?;
        return Ok(Last {
            edit: last.edit,
            size: Some(added),
        });
    }
    let pointers = pointers_of(alloc, store, fs, number, last.edit)?;
    let added = add_pointed(alloc, store, fs, pointers, index, at, bytes, last.edit)?;
    Ok(next_after(added))
}

/// Writes into one of the blocks of a file.
fn write_block<S: Store>(
    alloc: Global,
    store: &mut S,
    fs: Fs,
    number: u16,
    index: usize,
    at: usize,
    bytes: &[u8],
    last: Last,
) -> Result<Last, FfsFault>
    requires few { index < 140 }
    requires within { at + length bytes.now ≤ 512 }
    requires some { 0 < length bytes.now }
    ensures types { S.types_of store.new ≡ S.types_of store.old }
    ensures ends { (T : Types) (array : ℕ → Option ℕ) (inode : List ℕ) → S.types_of store.old ≡ T → Stage T fs.number array (S.state_of store.old) →
        Ok inode ≡ file_in (newest_block (S.state_of store.old)) fs.number number → LastGiven (S.state_of store.old) last →
        EndsPart T fs.number array (data_parts fs.number number index at bytes.now last.edit) (S.state_of store.old) (S.state_of store.new)
        number index at bytes.now last result }
{
    let file = find_file(store, fs, number)?;
    let block = file_block(store, fs, number, &file, index)?;
    if block == 0 {
        return add_block(alloc, store, fs, number, index, at, bytes, last);
    }
    let _ = read_block(store, fs, block)?;
    let edit = put(alloc, store, fs, block, at, bytes, &[], &[], last.edit)?;
    Ok(next_after(edit))
}

/// Whether these bytes are all 0.
fn are_zeros(bytes: &[u8]) -> bool
    requires { length bytes.now ≤ 512 }
    ensures { IsTrue result ↔ (bytes.now ≡ replicate (length bytes.now) 0) }
{
    bytes == &[0; BLOCK_LEN][..bytes.len()]
}

/// Writes zeros into one of the blocks of a file, where it is there and has other bytes.
fn clear_block<S: Store>(
    alloc: Global,
    store: &mut S,
    fs: Fs,
    number: u16,
    index: usize,
    at: usize,
    count: usize,
    last: Last,
) -> Result<Last, FfsFault>
    requires few { index < 140 }
    requires within { at + count ≤ 512 }
    requires some { 0 < count }
    ensures types { S.types_of store.new ≡ S.types_of store.old }
    ensures ends { (T : Types) (array : ℕ → Option ℕ) (inode : List ℕ) → S.types_of store.old ≡ T → Stage T fs.number array (S.state_of store.old) →
        Ok inode ≡ file_in (newest_block (S.state_of store.old)) fs.number number → LastGiven (S.state_of store.old) last →
        EndsPart T fs.number array (zeros_parts fs.number number index at count last.edit) (S.state_of store.old) (S.state_of store.new)
        number index at (replicate count 0) last result }
{
    let file = find_file(store, fs, number)?;
    let block = file_block(store, fs, number, &file, index)?;
    if block == 0 {
        return Ok(last);
    }
    let held = read_block(store, fs, block)?;
    if are_zeros(&held[at..at + count]) {
        return Ok(last);
    }
    let zeros = &[0; BLOCK_LEN][..count];
    let edit = put(alloc, store, fs, block, at, zeros, &[], &[], last.edit)?;
    Ok(next_after(edit))
}

/// What a part of a write comes to: so many bytes more, or its fault.
fn step(progress: Progress, count: usize, part: Result<Last, FfsFault>) -> Progress
    requires { progress.done + count < 2 ^ 64 }
    ensures ok { IfOk part (λ last. result ≡ record { done = progress.done + count; last = last; fault = progress.fault }) }
    ensures err { IfErr part (λ fault. result ≡ record { done = progress.done; last = progress.last; fault = Some fault }) }
{
    match part {
        Ok(last) => Progress {
            done: progress.done + count,
            last,
            ..progress
        },
        Err(fault) => Progress {
            fault: Some(fault),
            ..progress
        },
    }
}

/// The last edits of a write for a part past the file's end, and none for one before it.
fn last_if(last: Last, past: bool) -> Last
    ensures { result ≡ (if past then last else no_last) }
{
    if past {
        last
    } else {
        Last {
            edit: None,
            size: None,
        }
    }
}

/// What a part comes to: one before the file's end keeps the last edits of the write.
fn kept_if(last: Last, past: bool, written: Result<Last, FfsFault>) -> Result<Last, FfsFault>
    ensures { result ≡ mapped (λ next. if past then next else last) written }
{
    match written {
        Ok(next) if past => Ok(next),
        Ok(_) => Ok(last),
        Err(fault) => Err(fault),
    }
}

/// Writes the next part of some bytes at an offset into a file that ends here, or of the zeros before them, up to a block's end. A part before the
/// file's end comes after no edit, and none comes after it.
fn write_part<S: Store>(
    alloc: Global,
    store: &mut S,
    fs: Fs,
    number: u16,
    end: usize,
    offset: usize,
    bytes: &[u8],
    progress: Progress,
) -> Progress
    requires within { offset + length bytes.now ≤ most_bytes }
    requires some { min end offset + progress.done < offset + length bytes.now }
    requires none { progress.fault ≡ None }
    ensures types { S.types_of store.new ≡ S.types_of store.old }
    ensures falls { result.fault ≡ None → progress.done < result.done }
    ensures few { min end offset + result.done ≤ offset + length bytes.now }
    ensures parts { (T : Types) (array : ℕ → Option ℕ) (zeroth : StoreState) → S.types_of store.old ≡ T →
        IsOk (file_in (newest_block zeroth) fs.number number) →
        Parts T fs.number array zeroth (S.state_of store.old) number end offset bytes.now progress →
        Parts T fs.number array zeroth (S.state_of store.new) number end offset bytes.now result }
{
    let at = end.min(offset) + progress.done;
    let index = at / BLOCK_LEN;
    let within = at % BLOCK_LEN;
    if at < offset {
        let count = (offset - at).min(BLOCK_LEN - within);
        let cleared = clear_block(
            alloc,
            store,
            fs,
            number,
            index,
            within,
            count,
            progress.last,
        );
        return step(progress, count, cleared);
    }
    let from = at - offset;
    let count = (bytes.len() - from).min(BLOCK_LEN - within);
    let past = at + count > end;
    let last = last_if(progress.last, past);
    let part = &bytes[from..from + count];
    let written = write_block(alloc, store, fs, number, index, within, part, last);
    step(progress, count, kept_if(progress.last, past, written))
}

/// Raises the size of a file to this, where it is below, after an edit.
pub fn raise_size<S: Store>(
    alloc: Global,
    store: &mut S,
    fs: Fs,
    number: u16,
    size: u32,
    after: Option<EditId>,
) -> Result<(), FfsFault>
    ensures types { S.types_of store.new ≡ S.types_of store.old }
    ensures ends { (T : Types) (array : ℕ → Option ℕ) (inode : List ℕ) → S.types_of store.old ≡ T → Stage T fs.number array (S.state_of store.old) →
        Ok inode ≡ file_in (newest_block (S.state_of store.old)) fs.number number → IsTrue (was_given (S.state_of store.old) after) →
        Ends T fs.number array (S.state_of store.new) result
        (λ _. IsRaised (newest_block (S.state_of store.old)) (newest_block (S.state_of store.new)) fs.number number inode size
        × OnlyChanges (newest_block (S.state_of store.old)) (newest_block (S.state_of store.new)) fs.number number)
        (λ fault. (word_at inode 4 < size) × StopsAtHome T fs.number (S.state_of store.old) (S.state_of store.new) number fault) }
    ensures order { (T : Types) (array : ℕ → Option ℕ) (inode : List ℕ) → S.types_of store.old ≡ T → Stage T fs.number array (S.state_of store.old) →
        Ok inode ≡ file_in (newest_block (S.state_of store.old)) fs.number number →
        Acts T fs.number (size_action (newest_block (S.state_of store.old)) fs.number number size after) (S.state_of store.old) (S.state_of store.new) result }
    ensures cuts { (T : Types) (array : ℕ → Option ℕ) (inode : List ℕ) (last : Last) (zeroth : StoreState) → S.types_of store.old ≡ T →
        Stage T fs.number array (S.state_of store.old) → Ok inode ≡ file_in (newest_block (S.state_of store.old)) fs.number number →
        word_at inode 4 < size → last.size ≡ after → IsConsistent T zeroth → WaitsOn fs.number number zeroth (S.state_of store.old) no_last last →
        OnOk result (ShowsWhole zeroth (S.state_of store.new)) }
{
    let Found {
        block,
        place,
        mut inode,
    } = find_file(store, fs, number)?;
    if inode.size() < size {
        inode.set_size(size);
        let _ = put_inode(alloc, store, fs, block, place, &inode, &[], &[], after)?;
    }
    Ok(())
}

/// Looks up where a file ends into which so many bytes are to be written at an offset.
pub fn look_up_end<S: Store>(
    store: &S,
    fs: Fs,
    number: u16,
    offset: usize,
    count: usize,
) -> Result<usize, FfsFault>
    ensures within { OnOk result (offset + count ≤ most_bytes) }
    ensures few { IfOk result (λ end. end ≤ most_bytes) }
    ensures exact { IsLibrary (S.types_of store.now) → result
        ≡ mapped file_end (write_in (newest_block (S.state_of store.now)) fs.number number (offset + count)) }
{
    let file = find_file(store, fs, number)?;
    if offset > MOST_BYTES || count > MOST_BYTES - offset {
        return Err(FfsFault::TooLarge);
    }
    Ok((file.inode.size() as usize).min(MOST_BYTES))
}

/// Writes bytes at an offset into a file that ends here, and zeros before them from its end on, part after part, and leaves its size.
pub fn write_parts<S: Store>(
    alloc: Global,
    store: &mut S,
    fs: Fs,
    number: u16,
    end: usize,
    offset: usize,
    bytes: &[u8],
) -> Progress
    requires within { offset + length bytes.now ≤ most_bytes }
    ensures types { S.types_of store.new ≡ S.types_of store.old }
    ensures few { min end offset + result.done ≤ offset + length bytes.now }
    ensures whole { result.fault ≡ None → min end offset + result.done ≡ offset + length bytes.now }
    ensures parts { (T : Types) (array : ℕ → Option ℕ) → S.types_of store.old ≡ T → Stage T fs.number array (S.state_of store.old) →
        IsOk (file_in (newest_block (S.state_of store.old)) fs.number number) →
        Parts T fs.number array (S.state_of store.old) (S.state_of store.new) number end offset bytes.now result }
{
    let mut progress = Progress {
        done: 0,
        last: Last {
            edit: None,
            size: None,
        },
        fault: None,
    };
    while end.min(offset) + progress.done < offset + bytes.len() {
        progress = write_part(alloc, store, fs, number, end, offset, bytes, progress);
        if progress.fault.is_some() {
            return progress;
        }
    }
    progress
}

/// What is answered where no byte was taken: a fault, but 0 where too many edits are pending.
pub fn none_taken(fault: Option<FfsFault>) -> Result<usize, FfsFault>
    ensures none { OnOk result ((fault ≡ None) ⊎ (fault ≡ Some (Kernel TooManyPending))) }
    ensures count { IfOk result (λ count. count ≡ 0) }
    ensures err { IfErr result (λ other. (fault ≡ Some other) × (other ≢ Kernel TooManyPending)) }
{
    match fault {
        None | Some(FfsFault::Kernel(Refusal::TooManyPending)) => Ok(0),
        Some(other) => Err(other),
    }
}

/// The block of a file at an index, or 0 in a hole.
fn file_block<S: Store>(
    store: &S,
    fs: Fs,
    number: u16,
    file: &Found,
    index: usize,
) -> Result<u32, FfsFault>
    requires file { IsFile (S.state_of store.now) fs.number number file.now }
    requires few { index < 140 }
    ensures exact { IsLibrary (S.types_of store.now) → result ≡ Ok (file_block (latest (S.state_of store.now).lives) file.now.inode index) }
    ensures block { IfOk result (λ block. block ≡ file_block (latest (S.state_of store.now).lives) file.now.inode index) }
    ensures reached { IfOk result (λ block. IsLibrary (S.types_of store.now) → block ≢ 0 →
        Under (S.types_of store.now) (latest (S.state_of store.now).lives) fs.number block 2) }
    ensures long { OnOk result (12 ≤ index → word_at file.now.inode 56 ≢ 0 → length (latest (S.state_of store.now).lives (word_at file.now.inode 56)) ≡ 512) }
{
    if index < DIRECT_POINTERS {
        return Ok(file.inode.direct(index));
    }
    let indirect = file.inode.indirect();
    if indirect == 0 {
        return Ok(0);
    }
    Ok(pointer(read_block(store, fs, indirect)?, index - DIRECT_POINTERS))
}

/// Reads the bytes of a block from a place on, or zeros where there is no block.
fn copy_block<S: Store>(
    store: &S,
    fs: Fs,
    block: u32,
    at: usize,
    bytes: &mut [u8],
) -> Result<(), FfsFault>
    requires { at + length bytes.old ≤ 512 }
    ensures bytes { OnOk result (bytes.new ≡ map (byte_in (latest (S.state_of store.now).lives) block) (range_with_len at (length bytes.old))) }
    ensures reached { (block ≢ 0 → Under (S.types_of store.now) (latest (S.state_of store.now).lives) fs.number block 2) → IsOk result }
{
    if block == 0 {
        bytes.fill(0);
        return Ok(());
    }
    let data = read_block(store, fs, block)?;
    bytes.copy_from_slice(&data[at..at + bytes.len()]);
    Ok(())
}

/// Reads bytes of a file that stand in one of its blocks.
pub fn read_part<S: Store>(
    store: &S,
    fs: Fs,
    number: u16,
    file: &Found,
    at: usize,
    bytes: &mut [u8],
) -> Result<(), FfsFault>
    requires file { IsFile (S.state_of store.now) fs.number number file.now }
    requires few { at < most_bytes }
    requires within { at % 512 + length bytes.old ≤ 512 }
    ensures bytes { OnOk result (bytes.new ≡ map (byte_of (latest (S.state_of store.now).lives) file.now.inode) (range_with_len at (length bytes.old))) }
    ensures reached { IsLibrary (S.types_of store.now) → IsOk result }
{
    let block = file_block(store, fs, number, file, at / BLOCK_LEN)?;
    copy_block(store, fs, block, at % BLOCK_LEN, bytes)
}
