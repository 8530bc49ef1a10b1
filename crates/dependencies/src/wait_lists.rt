// Lists of the blocks that wait for a block.

ghost use Rattle.std.specs.Prelude.{◌≡◌, ◌<◌, ℕ, length, replicate, slice_index_or, slice_set, IfOk, IfSome, IfNone, None, Some, is_some};
ghost use Rattle.dependencies.specs.WaitLists.{at, Releases};

use reserved_row::ReservedRow;
use std::alloc::{AllocError, Global};
use std::marker::Model;

/// Which block each block waits for, seen as a row: at most one. The blocks that wait for one are a list, from the first on by
/// the next one of each.
#[derive(Drop)]
pub struct WaitLists {
    waits_for: ReservedRow<Option<u32>>,
    first: ReservedRow<Option<u32>>,
    next: ReservedRow<Option<u32>>,
}

impl Model for WaitLists {
    ghost use Rattle.std.specs.Prelude.{List, Option, ℕ};
    ghost use Rattle.dependencies.specs.WaitLists.{AreLists};

    ghost Value = { List (Option ℕ) };

    ghost view = { λ a. a.waits_for };

    ghost invariant = { λ a. AreLists a.waits_for a.first a.next };
}

impl WaitLists {
    /// So many blocks, of which none waits.
    pub fn new(alloc: Global, blocks: u32) -> Result<WaitLists, AllocError>
        ensures { IfOk result (λ lists. lists ≡ replicate blocks None) }
    {
        let count = blocks as usize;
        Ok(WaitLists {
            waits_for: ReservedRow::new(alloc, count, None)?,
            first: ReservedRow::new(alloc, count, None)?,
            next: ReservedRow::new(alloc, count, None)?,
        })
    }

    /// Whether a block waits for another.
    pub fn is_waiting(&self, block: u32) -> bool
        ensures { result ≡ is_some (at self.now block) }
    {
        self.waits_for.item(block as usize).is_some()
    }

    /// Puts a block that waits for none at the front of the list of another. It takes no memory.
    pub fn push(&mut self, other: u32, block: u32)
        requires other { other < length self.old }
        requires block { block < length self.old }
        requires free { at self.old block ≡ None }
        ensures { self.new ≡ slice_set self.old block (Some other) }
    {
        let first = self.first.item(other as usize);
        self.next.set(block as usize, first);
        self.first.set(other as usize, Some(block));
        self.waits_for.set(block as usize, Some(other));
    }

    /// Takes a block from the front of the list of another: it waits no longer. `None` comes where none waits for that one, and
    /// changes nothing.
    #[inline(always)]
    pub fn pop(&mut self, other: u32) -> Option<u32>
        ensures some { IfSome result (Releases self.old self.new other) }
        ensures same { IfNone result (self.new ≡ self.old) }
        ensures none { IfNone result ((b : ℕ) → at self.old b ≡ Some other → ⊥) }
    {
        let block = self.first.item(other as usize)?;
        release(
            &mut self.waits_for,
            &mut self.first,
            &self.next,
            other,
            block,
        );
        Some(block)
    }
}

/// Takes the block that waits for another one in front of all others out of the rows.
#[inline(never)]
fn release(
    waits_for: &mut ReservedRow<Option<u32>>,
    first: &mut ReservedRow<Option<u32>>,
    next: &ReservedRow<Option<u32>>,
    other: u32,
    block: u32,
)
    ensures waits { waits_for.new ≡ slice_set waits_for.old block None }
    ensures first { first.new ≡ slice_set first.old other (slice_index_or next.now block None) }
{
    first.set(other as usize, next.item(block as usize));
    waits_for.set(block as usize, None);
}
