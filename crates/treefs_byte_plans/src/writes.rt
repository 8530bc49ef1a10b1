// How a piece of a write is planned.

ghost use Rattle.std.specs.Prelude.{◌≡◌, ◌/◌, ◌<◌, ◌∷◌, ◌++◌, [], length, IfOk, Some};
ghost use Rattle.treefs_byte_plans.specs.Fields.{bytes_patch};
ghost use Rattle.treefs_byte_plans.specs.Kept.{HasFewLeaves};
ghost use Rattle.treefs_byte_plans.specs.Writes.{IsTrimToWrite, IsWithin, content_acts, content_in_room, first_piece, leaf_acts, leaf_in_room};
ghost use Rattle.treefs_byte_plans.specs.Writes.{leaves_step, piece_step, planned_step, raises, run_step, write_planned, written_file};
ghost use Rattle.treefs_byte_plans.specs.Runs.{run_planned};
ghost use Rattle.treefs_format.specs.Leaves.{greatest_size};
ghost use Rattle.treefs_lookup.specs.Readable.{readable};
ghost use Rattle.treefs_model.specs.Reading.{leaf_block};

use crate::fields::{push_raise, push_size, risen, times_now};
use crate::keeping::find_untrimmed;
use crate::kept::Kept;
use crate::patches::patch_act;
use crate::piece::{ContentPlan, LeafPlan, WriteStep};
use crate::runs::plan_run;
use edit_list::Patch;
use std::alloc::{AllocError, Global};
use treefs_edits::{Act, ActsAlone, Memory, Tree, has_room, kinds};
use treefs_format::inodes::{CONTENT, CONTENT_LEN};
use treefs_format::sizes::{GREATEST_SIZE, LEAF_LEN};
use treefs_lookup::{Found, find_file, leaf_block, part_left};
use treefs_model::Fault;
use xn_state::Store;

impl ActsAlone for ContentPlan<'_> {
    ghost acts_of = { content_acts };

    fn push_alone(&self, alloc: Global, acts: &mut Vec<Act>) -> Result<(), AllocError> {
        let mut patches = Vec::new(alloc);
        push_bytes(alloc, &mut patches, self.offset, self.bytes)?;
        push_size(alloc, &mut patches, self.size, self.times)?;
        acts.push(patch_act(alloc, self.block, patches, None))?;
        Ok(())
    }
}

impl ActsAlone for LeafPlan<'_> {
    ghost acts_of = { leaf_acts };

    fn push_alone(&self, alloc: Global, acts: &mut Vec<Act>) -> Result<(), AllocError> {
        acts.push(kinds::write_bytes(alloc, self.leaf, self.offset, self.bytes, None)?)?;
        push_raise(alloc, acts, self.inode, self.size, self.times, self.leaf)
    }
}

/// Adds the patch of some bytes of a block.
fn push_bytes(
    alloc: Global,
    patches: &mut Vec<Patch>,
    offset: u16,
    bytes: &[u8],
) -> Result<(), AllocError>
    ensures { IfOk result (λ _. patches.new.items ≡ patches.old.items ++ bytes_patch offset bytes.now ∷ []) }
{
    patches.push(Patch {
        offset,
        bytes: bytes.to_vec(alloc)?,
    })?;
    Ok(())
}

/// What a piece in the inode takes, where there is room; else the fault is `Full`.
fn plan_content<'a, S: Store>(
    store: &S,
    tree: Tree,
    memory: &Memory,
    file: &Found,
    at: u64,
    bytes: &'a [u8],
) -> Result<WriteStep<'a>, Fault>
    requires low { at < 384 }
    ensures planned { planned_step result ≡ content_in_room (S.state_of store.now) tree.fs.number memory.now file.now at bytes.now }
    ensures within { IfOk result IsWithin }
{
    if !has_room(store, tree.fs, memory.touched.len(), 1, &[(file.block, 1)]) {
        return Err(Fault::Full);
    }
    Ok(WriteStep::Content(ContentPlan {
        block: file.block,
        offset: (CONTENT as u64 + at) as u16,
        bytes,
        size: risen(file.fields.size, at + bytes.len() as u64),
        times: times_now(memory),
    }))
}

/// What a piece in a leaf that is there takes, where there is room; else the fault is `Full`.
fn plan_leaf<'a, S: Store>(
    store: &S,
    tree: Tree,
    memory: &Memory,
    file: &Found,
    leaf: u32,
    at: u64,
    bytes: &'a [u8],
) -> Result<WriteStep<'a>, Fault>
    requires low { at < greatest_size }
    ensures planned { planned_step result ≡ leaf_in_room (S.state_of store.now) tree.fs.number memory.now file.now leaf at bytes.now }
    ensures within { IfOk result IsWithin }
{
    let parts = [(leaf, 1), (file.block, 1)];
    if !has_room(store, tree.fs, memory.touched.len(), 2, &parts) {
        return Err(Fault::Full);
    }
    Ok(WriteStep::Leaf(LeafPlan {
        leaf,
        offset: (at % LEAF_LEN) as u16,
        bytes,
        inode: file.block,
        size: risen(file.fields.size, at + bytes.len() as u64),
        times: times_now(memory),
    }))
}

/// What bytes take of which the first one's leaf is missing: a run of leaves.
fn plan_missing<'a, S: Store>(
    store: &S,
    tree: Tree,
    memory: &Memory,
    file: &Found,
    at: u64,
    bytes: &'a [u8],
) -> Result<WriteStep<'a>, Fault>
    requires low { at < greatest_size }
    ensures planned { planned_step result ≡ run_step (run_planned (S.state_of store.now) tree memory.now file.now at (length bytes.now)) }
    ensures within { IfOk result IsWithin }
{
    match plan_run(store, tree, memory, file, at, bytes.len()) {
        Ok(plan) => Ok(WriteStep::Run(plan)),
        Err(fault) => Err(fault),
    }
}

/// What bytes past those in the inode take: a piece in a leaf, or a run of leaves where the first one is missing.
fn plan_leaves<'a, S: Store>(
    store: &S,
    tree: Tree,
    memory: &Memory,
    file: &Found,
    at: u64,
    bytes: &'a [u8],
) -> Result<WriteStep<'a>, Fault>
    requires low { at < greatest_size }
    ensures planned { planned_step result ≡ leaves_step (S.state_of store.now) tree memory.now file.now
        (leaf_block (readable (S.state_of store.now) tree.fs.number) file.now.block (at / 512)) at bytes.now }
    ensures within { IfOk result IsWithin }
{
    let leaf = leaf_block(store, tree.fs, file.block, (at / LEAF_LEN) as u32);
    if leaf == 0 {
        return plan_missing(store, tree, memory, file, at, bytes);
    }
    plan_leaf(store, tree, memory, file, leaf, at, first_piece(at, bytes))
}

/// What the next piece of some bytes takes, from a byte of a file or a symbolic link on: those that stand together with the first of them, or as many as the
/// leaves take that are missing from there on. The fault is `Full` where there is no room. Where the size rises nothing may stand past it.
pub fn plan_piece<'a, S: Store>(
    store: &S,
    tree: Tree,
    memory: &Memory,
    file: &Found,
    at: u64,
    bytes: &'a [u8],
) -> Result<WriteStep<'a>, Fault>
    requires low { at < greatest_size }
    ensures planned { planned_step result ≡ piece_step (S.state_of store.now) tree memory.now file.now at bytes.now }
    ensures within { IfOk result IsWithin }
{
    if at < CONTENT_LEN as u64 {
        return plan_content(store, tree, memory, file, at, first_piece(at, bytes));
    }
    plan_leaves(store, tree, memory, file, at, bytes)
}

/// Of some bytes those that stand together with the first of them.
fn first_piece(at: u64, bytes: &[u8]) -> &[u8]
    ensures { result.now ≡ first_piece at bytes.now }
{
    let length = bytes.len().min(part_left(at) as usize);
    &bytes[..length]
}

/// Whether the size of a file rises with so many bytes from one on.
fn raises(at: u64, count: usize, file: &Found) -> bool
    ensures { result ≡ raises at count file.now }
{
    count as u64 > file.fields.size.saturating_sub(at)
}

/// The file or symbolic link in which bytes from one on may be written. The faults are `NoEntry`, `IsDir`, and `TooLarge` at or past the greatest size.
fn find_written<S: Store>(store: &S, tree: Tree, number: u32, at: u64) -> Result<Found, Fault>
    ensures { result ≡ written_file (readable (S.state_of store.now) tree.fs.number) tree.top number at }
{
    let file = find_file(store, tree.fs, tree.top, number)?;
    if at >= GREATEST_SIZE {
        return Err(Fault::TooLarge);
    }
    Ok(file)
}

/// What the next piece of a write of bytes takes, as `plan_piece` plans it, from a byte of the inode of a number on. The faults are `NoEntry`, `IsDir`,
/// `TooLarge` at or past the greatest size, and those of `plan_piece`.
pub fn plan_write<'a, S: Store>(
    store: &S,
    tree: Tree,
    memory: &Memory,
    number: u32,
    at: u64,
    bytes: &'a [u8],
) -> Result<WriteStep<'a>, Fault>
    ensures planned { planned_step result ≡ write_planned (S.state_of store.now) tree memory.now number at bytes.now }
    ensures within { IfOk result IsWithin }
{
    let file = find_written(store, tree, number, at)?;
    if bytes.is_empty() {
        return Ok(WriteStep::Nothing);
    }
    plan_piece(store, tree, memory, &file, at, bytes)
}

/// What is trimmed before so many bytes are written from a byte on: all past the size of the file or symbolic link, where the size rises and something
/// stands there.
pub fn trim_to_write<S: Store>(
    store: &S,
    tree: Tree,
    number: u32,
    at: u64,
    count: usize,
) -> Option<Kept>
    ensures kept { IsTrimToWrite (readable (S.state_of store.now) tree.fs.number) tree.top number at count result }
    ensures few { HasFewLeaves result }
{
    match find_written(store, tree, number, at) {
        Ok(file) if raises(at, count, &file) => find_untrimmed(store, tree.fs, &file),
        Ok(_) | Err(_) => None,
    }
}
