// The patches of an edit, which apply in order and may overlap.

ghost use Rattle.std.specs.Prelude.{◌≡◌, ◌≤◌, [], ◌∷◌, length, IfOk, IsTrue, sum_by};
ghost use Rattle.std.specs.List.{list_all};
ghost use Rattle.xn_model.specs.Calls.{is_patch};
ghost use Rattle.edit_list.specs.Limits.{are_within_limits};
ghost use Rattle.edit_list.specs.Undo.{undo_at, undo_of};

use crate::patch::Patch;
use crate::undo::Undo;
use std::alloc::{AllocError, Global};
use store_types::BLOCK_LEN;

/// Whether each of the patches has a byte, and none past byte 511 of the block.
pub fn are_patches(patches: &[Patch]) -> bool
    ensures { result ≡ list_all is_patch patches.now }
{
    patches.iter().all(|patch| patch.is_patch())
}

/// Whether these are 1 to 8 patches, none of them empty or past byte 511, together at most 512 bytes.
#[inline(always)]
pub fn are_within_limits(patches: &[Patch]) -> bool
    ensures { result ≡ are_within_limits patches.now }
{
    match patches {
        [patch] => patch.is_patch(),
        _ => are_some_within_limits(patches),
    }
}

/// The same, of any count of patches.
fn are_some_within_limits(patches: &[Patch]) -> bool
    ensures { result ≡ are_within_limits patches.now }
{
    !patches.is_empty()
        && patches.len() <= 8
        && are_patches(patches)
        && total_length(patches) <= BLOCK_LEN
}

/// How many bytes the patches have together.
pub fn total_length(patches: &[Patch]) -> usize
    requires few { length patches.now ≤ 8 }
    requires are_patches { IsTrue (list_all is_patch patches.now) }
    ensures { result ≡ sum_by (λ p. length p.bytes) patches.now }
{
    let mut total = 0;
    for patch in patches {
        total += patch.bytes.len();
    }
    total
}

/// What undoes a patch of at most 16 bytes of a block with these bytes.
#[inline(always)]
pub fn undo_of_short(alloc: Global, patch: &Patch, bytes: &[u8; BLOCK_LEN]) -> Undo
    requires is_patch { IsTrue (is_patch patch.now) }
    requires short { length patch.now.bytes ≤ 16 }
    ensures { result ≡ undo_at bytes.now patch.now ∷ [] }
{
    Undo::of_short(alloc, patch.offset, patch.overwritten(bytes))
}

/// What undoes any patches of a block with these bytes: for each of them, in their order, what the block has at its place.
pub fn undo_of_any(
    alloc: Global,
    patches: &[Patch],
    bytes: &[u8; BLOCK_LEN],
) -> Result<Undo, AllocError>
    requires few { length patches.now ≤ 8 }
    requires are_patches { IsTrue (list_all is_patch patches.now) }
    requires short { sum_by (λ p. length p.bytes) patches.now ≤ 512 }
    ensures { IfOk result (λ undo. undo ≡ undo_of bytes.now patches.now) }
{
    let mut undo = Undo::with_capacity(alloc, total_length(patches))?;
    for patch in patches {
        undo.push(patch.offset, patch.overwritten(bytes))?;
    }
    Ok(undo)
}
