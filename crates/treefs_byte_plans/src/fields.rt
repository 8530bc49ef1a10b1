// Fields of an inode whose content changes now.

ghost use Rattle.std.specs.Prelude.{◌≡◌, ◌∷◌, ◌++◌, [], IfOk, Some};
ghost use Rattle.treefs_byte_plans.specs.Fields.{risen, size_acts, size_changes, times_now};
ghost use Rattle.treefs_format.specs.Fields.{changes_patch};

use crate::patches::push_times;
use edit_list::Patch;
use std::alloc::{AllocError, Global};
use treefs_edits::{Act, Memory, Times, kinds};
use treefs_format::Change;

/// Adds the patch of an inode's times, and of its size where that changes.
pub(crate) fn push_size(
    alloc: Global,
    patches: &mut Vec<Patch>,
    size: Option<u64>,
    times: Times,
) -> Result<(), AllocError>
    ensures { IfOk result (λ _. patches.new.items ≡ patches.old.items ++ changes_patch (size_changes size times) ∷ []) }
{
    match size {
        Some(size) => {
            patches.push(size_patch(alloc, size, times)?)?;
            Ok(())
        }
        None => push_times(alloc, patches, times),
    }
}

/// The patch of an inode's size and times.
pub(crate) fn size_patch(alloc: Global, size: u64, times: Times) -> Result<Patch, AllocError>
    ensures { IfOk result (λ patch. patch ≡ changes_patch (size_changes (Some size) times)) }
{
    let changes = [
        Change::Size(size),
        Change::Mtime(times.mtime),
        Change::Ctime(times.ctime),
    ];
    Change::patch(alloc, &changes)
}

/// The size of an inode rises, and its times change, behind all of another block.
fn raise_size(
    alloc: Global,
    inode: u32,
    size: u64,
    times: Times,
    block: u32,
) -> Result<Act, AllocError>
    ensures { IfOk result (λ act. size_acts inode block (Some size) times ≡ act ∷ []) }
{
    let changes = [
        Change::Size(size),
        Change::Mtime(times.mtime),
        Change::Ctime(times.ctime),
    ];
    kinds::change_fields(alloc, inode, &changes, Some(block))
}

/// Adds the act by which the size rises, where it does, behind all of another block.
pub(crate) fn push_raise(
    alloc: Global,
    acts: &mut Vec<Act>,
    inode: u32,
    size: Option<u64>,
    times: Times,
    block: u32,
) -> Result<(), AllocError>
    ensures { IfOk result (λ _. acts.new.items ≡ acts.old.items ++ size_acts inode block size times) }
{
    if let Some(size) = size {
        acts.push(raise_size(alloc, inode, size, times, block)?)?;
    }
    Ok(())
}

/// The caller's time, twice.
pub(crate) fn times_now(memory: &Memory) -> Times
    ensures { result ≡ times_now memory.now }
{
    Times {
        mtime: memory.clock,
        ctime: memory.clock,
    }
}

/// The size that a write up to an end leaves, where that rises.
pub(crate) fn risen(size: u64, end: u64) -> Option<u64>
    ensures { result ≡ risen size end }
{
    if size < end { Some(end) } else { None }
}
