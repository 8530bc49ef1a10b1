// How a size is set.

ghost use Rattle.std.specs.Prelude.{◌≡◌, ◌∷◌, ◌++◌, [], IfOk};
ghost use Rattle.treefs_byte_plans.specs.Kept.{HasFewLeaves};
ghost use Rattle.treefs_byte_plans.specs.Sizes.{IsTrimToTruncate, blank_from, changed_size, has_bytes_behind, most_edits, size_act, size_in_room};
ghost use Rattle.treefs_byte_plans.specs.Sizes.{trimmed_then, truncate_planned, truncated_file, zero_parts};
ghost use Rattle.treefs_lookup.specs.Readable.{readable};

use crate::fields::{push_size, times_now};
use crate::keeping::{find_untrimmed, kept_up_to};
use crate::kept::Kept;
use crate::patches::patch_act;
use crate::size::SizePlan;
use edit_list::Patch;
use std::alloc::{AllocError, Global};
use treefs_edits::{Act, ActsAlone, Memory, Tree, has_room};
use treefs_format::inodes::{CONTENT, CONTENT_LEN};
use treefs_format::sizes::GREATEST_SIZE;
use treefs_lookup::{Found, find_file, is_blank_past};
use treefs_model::Fault;
use xn_state::Store;

impl ActsAlone for SizePlan {
    ghost acts_of = { λ p. size_act p ∷ [] };

    fn push_alone(&self, alloc: Global, acts: &mut Vec<Act>) -> Result<(), AllocError> {
        let mut patches = Vec::new(alloc);
        push_size(alloc, &mut patches, self.size, self.times)?;
        push_zeros(alloc, &mut patches, self.blank_from)?;
        acts.push(patch_act(alloc, self.block, patches, None))?;
        Ok(())
    }
}

/// Adds the patch of zeros from a byte of a block on to its end, if one is told.
pub(crate) fn push_zeros(
    alloc: Global,
    patches: &mut Vec<Patch>,
    from: Option<u16>,
) -> Result<(), AllocError>
    ensures { IfOk result (λ _. patches.new.items ≡ patches.old.items ++ zero_parts from) }
{
    if let Some(offset) = from {
        let count = 512usize.saturating_sub(usize::from(offset));
        patches.push(Patch {
            offset,
            bytes: vec![in alloc; 0; count]?,
        })?;
    }
    Ok(())
}

/// Whether bytes are there behind a size, in the inode.
pub(crate) fn has_bytes_behind<S: Store>(store: &S, tree: Tree, inode: u32, size: u64) -> bool
    ensures { result ≡ has_bytes_behind (readable (S.state_of store.now) tree.fs.number) inode size }
{
    size < CONTENT_LEN as u64 && !is_blank_past(store, tree.fs, inode, size)
}

/// From where on zeros are written behind a size that is set.
fn blank_from<S: Store>(store: &S, tree: Tree, file: &Found, size: u64) -> Option<u16>
    ensures { result ≡ blank_from (readable (S.state_of store.now) tree.fs.number) file.now size }
{
    if size < file.fields.size && has_bytes_behind(store, tree, file.block, size) {
        Some((CONTENT as u64 + size) as u16)
    } else {
        None
    }
}

/// The size that is set, where it changes.
fn changed_size(old: u64, new: u64) -> Option<u64>
    ensures { result ≡ changed_size old new }
{
    if new == old { None } else { Some(new) }
}

/// How many edits setting a size takes at most.
fn most_edits(file: &Found, size: u64) -> u32
    ensures { result ≡ most_edits file.now size }
{
    if size < file.fields.size { 12 } else { 1 }
}

/// What is kept once a size is set, where it falls.
fn trimmed_then(file: &Found, size: u64) -> Option<Kept>
    ensures kept { result ≡ trimmed_then file.now size }
    ensures few { HasFewLeaves result }
{
    if size < file.fields.size {
        Some(kept_up_to(file.block, size))
    } else {
        None
    }
}

/// What setting the size of a file takes, where there is room; else the fault is `Full`.
fn plan_size<S: Store>(
    store: &S,
    tree: Tree,
    memory: &Memory,
    size: u64,
    file: &Found,
) -> Result<SizePlan, Fault>
    ensures planned { result ≡ size_in_room (S.state_of store.now) tree.fs.number memory.now size file.now }
    ensures few { IfOk result (λ plan. HasFewLeaves plan.trimmed_then) }
{
    let edits = most_edits(file, size);
    let parts = [(file.block, edits)];
    if !has_room(store, tree.fs, memory.touched.len(), edits, &parts) {
        return Err(Fault::Full);
    }
    Ok(SizePlan {
        block: file.block,
        size: changed_size(file.fields.size, size),
        times: times_now(memory),
        blank_from: blank_from(store, tree, file, size),
        trimmed_then: trimmed_then(file, size),
    })
}

/// The file or symbolic link that may have a size. The faults are `NoEntry`, `IsDir`, and `TooLarge` above the greatest size.
fn find_truncated<S: Store>(store: &S, tree: Tree, number: u32, size: u64) -> Result<Found, Fault>
    ensures { result ≡ truncated_file (readable (S.state_of store.now) tree.fs.number) tree.top number size }
{
    let file = find_file(store, tree.fs, tree.top, number)?;
    if size > GREATEST_SIZE {
        return Err(Fault::TooLarge);
    }
    Ok(file)
}

/// What setting the size of a file or a symbolic link takes, past whose size nothing stands. The faults are `NoEntry`, `IsDir`, `TooLarge` above the greatest
/// size, and `Full` where there is no room.
pub fn plan_truncate<S: Store>(
    store: &S,
    tree: Tree,
    memory: &Memory,
    number: u32,
    size: u64,
) -> Result<SizePlan, Fault>
    ensures planned { result ≡ truncate_planned (S.state_of store.now) tree memory.now number size }
    ensures few { IfOk result (λ plan. HasFewLeaves plan.trimmed_then) }
{
    let file = find_truncated(store, tree, number, size)?;
    plan_size(store, tree, memory, size, &file)
}

/// What is trimmed before the size of a file or a symbolic link is set: all past its size, where something stands there.
pub fn trim_to_truncate<S: Store>(store: &S, tree: Tree, number: u32, size: u64) -> Option<Kept>
    ensures kept { IsTrimToTruncate (readable (S.state_of store.now) tree.fs.number) tree.top number size result }
    ensures few { HasFewLeaves result }
{
    match find_truncated(store, tree, number, size) {
        Ok(file) => find_untrimmed(store, tree.fs, &file),
        Err(_) => None,
    }
}
