// Inodes without links are trimmed to nothing, and then they are freed.

ghost use Rattle.std.specs.Prelude.{◌≡◌, ◌≢◌, ◌+◌, ◌<◌, ◌≤◌, ◌∷◌, ◌++◌, ◌==◌, [], Ok, IfOk, Some, length, map};
ghost use Rattle.xn_model.specs.BareDisks.{zeros};
ghost use Rattle.xn_model.specs.Calls.{read_of};
ghost use Rattle.xn_model.specs.Lists.{has_number, put};
ghost use Rattle.treefs_byte_plans.specs.Kept.{HasFewLeaves};
ghost use Rattle.treefs_edits.specs.Plans.{Does};
ghost use Rattle.treefs_format.specs.Paths.{leaf_count};
ghost use Rattle.treefs_lookup.specs.Readable.{readable};
ghost use Rattle.treefs.specs.Reaping.{Empties, EmptiesOne, IsFreeing, IsReapPlanned, Reaps, ReapsOne, bytes_or_zeros, cleared, first_beside, reap_act};
ghost use Rattle.treefs.specs.Reaping.{first_offset, freed_at, freed_memory, freed_patch, is_freed, kept_of_orphan, last_offset, least_hint};
ghost use Rattle.treefs.specs.Reaping.{left_orphans, left_touched, orphan_block, reap_plan, reaped_memory};

use crate::reap_plan::{Freed, ReapPlan};
use crate::trimming::trim_first;
use arrayvec::ArrayVec;
use edit_list::{Edit, Fs, Patch};
use std::alloc::{AllocError, Global};
use store_types::BLOCK_LEN;
use treefs_byte_plans::Kept;
use treefs_edits::fronts::{behind, front};
use treefs_edits::{Act, ActsAlone, Memory, Touched, Tree, carry_out, has_room};
use treefs_format::paths::{LEAVES, first_leaf, height};
use treefs_format::roots::inode_leaf;
use treefs_lookup::{find_holder, find_inode, leaves_beside, pointer_offset};
use treefs_model::Fault;
use xn_state::Store;

impl ActsAlone for ReapPlan {
    ghost acts_of = { λ p. reap_act p ∷ [] };

    fn push_alone(&self, alloc: Global, acts: &mut Vec<Act>) -> Result<(), AllocError> {
        let freed = self.freed.as_slice();
        let patch = freed_patch(alloc, freed, &self.bytes)?;
        acts.push(Act {
            block: self.holder,
            edit: Edit {
                patches: Vec::from_array(alloc, [patch])?,
                adds: Vec::new(alloc),
                drops: blocks_of(alloc, freed)?,
                after: None,
            },
            behind: None,
        })?;
        Ok(())
    }
}

/// The offset of the first of some pointers; 0 where there is none.
fn first_offset(freed: &[Freed]) -> u16
    ensures { result ≡ first_offset freed.now }
{
    match freed {
        [first, ..] => first.offset,
        [] => 0,
    }
}

/// The offset of the last of some pointers; 0 where there is none.
fn last_offset(freed: &[Freed]) -> u16
    ensures { result ≡ last_offset 0 freed.now }
{
    let mut last = 0;
    for inode in freed {
        last = inode.offset;
    }
    last
}

/// The patch that writes the bytes of a block from the first of some pointers to the last.
fn freed_patch(alloc: Global, freed: &[Freed], bytes: &[u8; BLOCK_LEN]) -> Result<Patch, AllocError>
    ensures { IfOk result (λ patch. patch ≡ freed_patch freed.now bytes.now) }
{
    let first = first_offset(freed);
    let end = usize::from(last_offset(freed)) + 4;
    let start = usize::from(first);
    Ok(Patch {
        offset: first,
        bytes: front(behind(bytes, start), end.saturating_sub(start)).to_vec(alloc)?,
    })
}

/// The blocks of some inodes.
fn blocks_of(alloc: Global, freed: &[Freed]) -> Result<Vec<u32>, AllocError>
    ensures { IfOk result (λ blocks. blocks.items ≡ map (λ f. f.block) freed.now) }
{
    freed.iter().map(|inode| inode.block).collect(alloc)
}

/// The block of an inode without links; 0 for a number of one that has some, or of none.
fn orphan_block<S: Store>(store: &S, tree: Tree, number: u32) -> u32
    ensures { result ≡ orphan_block (readable (S.state_of store.now) tree.fs.number) tree.top number }
{
    match find_inode(store, tree.fs, tree.top, number) {
        Ok(found) => {
            if found.fields.links == 0 {
                found.block
            } else {
                0
            }
        }
        Err(_) => 0,
    }
}

/// What is kept of an inode without links: nothing. Of block 0 nothing is trimmed.
fn kept_of_orphan(block: u32) -> Option<Kept>
    ensures kept { result ≡ kept_of_orphan block }
    ensures few { HasFewLeaves result }
{
    if block == 0 {
        return None;
    }
    Some(Kept {
        inode: block,
        keep: 0,
        size: None,
    })
}

/// Trims the inode of a number to nothing, if it has no links.
fn empty_one<S: Store>(
    alloc: Global,
    store: &mut S,
    tree: Tree,
    memory: &Memory,
    number: u32,
) -> Result<(), Fault>
    ensures types { S.types_of store.new ≡ S.types_of store.old }
    ensures does { EmptiesOne (S.types_of store.old) tree memory.now number (S.state_of store.old) (S.state_of store.new) result }
{
    let kept = kept_of_orphan(orphan_block(store, tree, number));
    trim_first(alloc, store, tree, memory, kept)
}

/// Trims those inodes of some numbers to nothing that have no links, in their order. The fault is `Full`, before one or in the middle of it; `Kernel` comes for
/// want of memory, or where the store refuses an edit.
pub fn empty_all<S: Store>(
    alloc: Global,
    store: &mut S,
    tree: Tree,
    memory: &Memory,
    numbers: &[u32],
) -> Result<(), Fault>
    ensures types { S.types_of store.new ≡ S.types_of store.old }
    ensures does { Empties (S.types_of store.old) tree memory.now numbers.now (S.state_of store.old) (S.state_of store.new) result }
{
    for number in numbers {
        if let Err(fault) = empty_one(alloc, store, tree, memory, *number) {
            return Err(fault);
        }
    }
    Ok(())
}

/// The first leaf whose pointer stands in the block with that to a leaf.
fn first_beside(leaf: u32) -> u32
    requires { leaf < leaf_count }
    ensures first { result ≡ first_beside leaf }
    ensures past { result ≤ leaf }
{
    if leaf < 16 {
        return 0;
    }
    let place = leaf - first_leaf(height(leaf));
    leaf - place % 127
}

/// Whether a number is among these.
fn has_number(numbers: &[u32], number: u32) -> bool
    ensures { result ≡ has_number numbers.now number }
{
    numbers.iter().any(|other| *other == number)
}

/// Sets a pointer of a block to 0.
fn clear_pointer(bytes: &mut [u8; BLOCK_LEN], offset: u16)
    requires { offset + 4 ≤ 512 }
    ensures { bytes.new ≡ put bytes.old offset (zeros 4) }
{
    let start = usize::from(offset);
    bytes[start..start + 4].copy_from_slice(&[0; 4]);
}

/// The newest bytes of a block; zeros of one that may not be read.
fn newest_bytes<S: Store>(store: &S, fs: Fs, block: u32) -> [u8; BLOCK_LEN]
    ensures { result ≡ bytes_or_zeros (read_of (S.state_of store.now) fs.number block) }
{
    match store.read(fs, block) {
        Ok(bytes) => *bytes,
        Err(_) => [0; BLOCK_LEN],
    }
}

/// Adds the inode that is a leaf of inode 0, where its number is among these and it has no links, and sets the pointer to it to 0.
fn free_at<S: Store>(
    store: &S,
    tree: Tree,
    numbers: &[u32],
    leaf: u32,
    freed: &mut ArrayVec<Freed, 127>,
    bytes: &mut [u8; BLOCK_LEN],
)
    requires there { leaf < leaf_count }
    requires room { length freed.old.items < 127 }
    ensures freed { freed.new.items ≡ freed.old.items ++ freed_at (readable (S.state_of store.now) tree.fs.number) tree.top numbers.now leaf }
    ensures bytes { bytes.new ≡ cleared bytes.old (freed_at (readable (S.state_of store.now) tree.fs.number) tree.top numbers.now leaf) }
    ensures few { length freed.new.items ≤ length freed.old.items + 1 }
{
    let number = leaf + 1;
    if !has_number(numbers, number) {
        return;
    }
    let block = orphan_block(store, tree, number);
    if block == 0 {
        return;
    }
    let offset = pointer_offset(leaf);
    freed.push(Freed {
        number,
        offset,
        block,
    });
    clear_pointer(bytes, offset);
}

/// How the inodes of some numbers are freed that have no links, and whose pointers stand in the block with that to a leaf of inode 0.
fn plan_freeing<S: Store>(store: &S, tree: Tree, numbers: &[u32], leaf: u32) -> ReapPlan
    requires { leaf < leaf_count }
    ensures { IsFreeing (S.state_of store.now) tree.fs.number tree.top numbers.now leaf result }
{
    let holder = find_holder(store, tree.fs, tree.top, leaf).block;
    let mut freed = ArrayVec::new();
    let mut bytes = newest_bytes(store, tree.fs, holder);
    for beside in first_beside(leaf)..leaf + leaves_beside(leaf) {
        free_at(store, tree, numbers, beside, &mut freed, &mut bytes);
    }
    ReapPlan {
        holder,
        freed,
        bytes,
    }
}

/// What it takes to free the inode of a number, and those of other numbers whose pointers stand beside the one to it; nothing where it has links, or is not
/// there. The fault is `Full` where there is no room.
fn plan_reap<S: Store>(
    store: &S,
    tree: Tree,
    memory: &Memory,
    numbers: &[u32],
    number: u32,
) -> Result<Option<ReapPlan>, Fault>
    ensures { IsReapPlanned (S.state_of store.now) tree memory.now numbers.now number result }
{
    if number == 0 || number > LEAVES || orphan_block(store, tree, number) == 0 {
        return Ok(None);
    }
    let leaf = inode_leaf(number);
    let holder = find_holder(store, tree.fs, tree.top, leaf).block;
    if !has_room(store, tree.fs, memory.touched.len(), 1, &[(holder, 1)]) {
        return Err(Fault::Full);
    }
    Ok(Some(plan_freeing(store, tree, numbers, leaf)))
}

/// Whether an inode is among those that were freed.
fn is_freed(freed: &[Freed], number: u32) -> bool
    ensures { result ≡ is_freed freed.now number }
{
    freed.iter().any(|inode| inode.number == number)
}

/// Leaves out the times of inodes that were freed.
fn forget_touches(touched: &mut Vec<Touched>, freed: &[Freed])
    ensures { touched.new.items ≡ left_touched touched.old.items freed.now }
{
    touched.retain(|touch| !is_freed(freed, touch.number));
}

/// Leaves out orphans that were freed.
fn forget_orphans(orphans: &mut Vec<u32>, freed: &[Freed])
    ensures { orphans.new.items ≡ left_orphans orphans.old.items freed.now }
{
    orphans.retain(|number| !is_freed(freed, *number));
}

/// From where on a free number is looked for: from the first that was freed on, or from a lesser one.
fn least_hint(hint: u32, freed: &[Freed]) -> u32
    ensures { result ≡ least_hint hint freed.now }
{
    match freed {
        [first, ..] => hint.min(first.number),
        [] => hint,
    }
}

/// Inodes were freed: they are neither touched nor orphans any more, and their numbers are looked for again.
fn forget_freed(memory: &mut Memory, freed: &[Freed])
    ensures { memory.new ≡ freed_memory memory.old freed.now }
{
    forget_touches(&mut memory.touched, freed);
    forget_orphans(&mut memory.orphans, freed);
    memory.hint = least_hint(memory.hint, freed);
}

/// Frees inodes, as it was planned.
fn free_planned<S: Store>(
    alloc: Global,
    store: &mut S,
    fs: Fs,
    memory: &mut Memory,
    plan: &ReapPlan,
) -> Result<(), Fault>
    ensures types { S.types_of store.new ≡ S.types_of store.old }
    ensures does { Does (S.types_of store.old) fs.number (reap_plan plan.now) (S.state_of store.old) (S.state_of store.new) result }
    ensures memory { memory.new ≡ reaped_memory memory.old (Ok (Some plan.now)) result }
{
    carry_out(alloc, store, fs, plan)?;
    forget_freed(memory, plan.freed.as_slice());
    Ok(())
}

/// Frees the inode of a number, and those of other numbers beside it.
fn free_beside<S: Store>(
    alloc: Global,
    store: &mut S,
    tree: Tree,
    memory: &mut Memory,
    numbers: &[u32],
    number: u32,
) -> Result<(), Fault>
    ensures types { S.types_of store.new ≡ S.types_of store.old }
    ensures does { ReapsOne (S.types_of store.old) tree numbers.now number (S.state_of store.old) (S.state_of store.new) memory.old memory.new result }
{
    match plan_reap(store, tree, memory, numbers, number) {
        Ok(Some(plan)) => free_planned(alloc, store, tree.fs, memory, &plan),
        Ok(None) => Ok(()),
        Err(fault) => Err(fault),
    }
}

/// Frees those inodes of some numbers that have no links, all those by one edit whose pointers stand in one block. The fault is `Full`, before one of these
/// edits; `Kernel` comes for want of memory, or where the store refuses an edit.
pub fn free_all<S: Store>(
    alloc: Global,
    store: &mut S,
    tree: Tree,
    memory: &mut Memory,
    numbers: &[u32],
) -> Result<(), Fault>
    ensures types { S.types_of store.new ≡ S.types_of store.old }
    ensures does { Reaps (S.types_of store.old) tree numbers.now numbers.now (S.state_of store.old) (S.state_of store.new) memory.old memory.new result }
{
    for number in numbers {
        if let Err(fault) = free_beside(alloc, store, tree, memory, numbers, *number) {
            return Err(fault);
        }
    }
    Ok(())
}
