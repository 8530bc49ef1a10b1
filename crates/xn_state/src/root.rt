// What undoes a change of a root slot, or of a pointer of the catalogue.

ghost use Rattle.std.specs.Prelude.{◌≡◌, ℕ, ◌+◌, ◌*◌, ◌<◌, IfOk, drop, take};
ghost use Rattle.xn_model.specs.Root.{with_pointer, with_slot};
ghost use Rattle.xn_model.specs.Calls.{patched};

use edit_list::{Fs, Undo};
use std::alloc::{AllocError, Global};
use store_types::BLOCK_LEN;
use templates::{pointer_start, slot_start};

/// The bytes of a file system's root slot.
fn slot_bytes(block: &[u8; BLOCK_LEN], fs: Fs) -> &[u8]
    ensures { result.now ≡ take 8 (drop (72 + 8 * fs.number) block.now) }
{
    let at = slot_start(fs.index());
    &block[at..at + 8]
}

/// What undoes a change of a file system's root slot.
pub fn slot_undo(alloc: Global, block: &[u8; BLOCK_LEN], fs: Fs) -> Result<Undo, AllocError>
    ensures { IfOk result (λ undo. (root : ℕ × ℕ) → patched (with_slot block.now fs.number root) undo ≡ block.now) }
{
    let at = slot_start(fs.index());
    let mut undo = Undo::none(alloc);
    undo.push(at as u16, slot_bytes(block, fs))?;
    Ok(undo)
}

/// The bytes of the pointer at a place of the catalogue, from 0 to 15.
fn pointer_bytes(block: &[u8; BLOCK_LEN], place: usize) -> &[u8]
    requires { place < 16 }
    ensures { result.now ≡ take 4 (drop (8 + 4 * place) block.now) }
{
    let at = pointer_start(place);
    &block[at..at + 4]
}

/// What undoes a change of the pointer at a place of the catalogue, from 0 to 15.
pub fn pointer_undo(
    alloc: Global,
    block: &[u8; BLOCK_LEN],
    place: usize,
) -> Result<Undo, AllocError>
    requires { place < 16 }
    ensures { IfOk result (λ undo. (pointer : ℕ) → patched (with_pointer block.now place pointer) undo ≡ block.now) }
{
    let at = pointer_start(place);
    let mut undo = Undo::none(alloc);
    undo.push(at as u16, pointer_bytes(block, place))?;
    Ok(undo)
}
