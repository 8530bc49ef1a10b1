// The named blocks.

ghost use Rattle.std.specs.Prelude.{◌≡◌, ◌^◌, ◌<◌, ◌++◌, ◌∷◌, ◌||◌, ◌==◌, ℕ, [], false, length, get_or, Some, IfOk, IsTrue, OnOk, slice_get};
ghost use Rattle.image_model.specs.Walk.{has_block};
ghost use Rattle.crash_check.specs.Marks.{NamedList};

use std::alloc::{AllocError, Global};
use std::marker::Model;
use store_types::Place;

/// The blocks that are named, in the order of their names, each with its place. Beside them stands a mark for each block of the
/// disk, which says whether it is 0 or named; one behind the last mark is not.
#[derive(Drop)]
pub struct NamedBlocks {
    entries: Vec<(u32, Place)>,
    marks: Vec<bool>,
}

impl Model for NamedBlocks {
    ghost use Rattle.crash_check.specs.Marks.{AreMarked, NamedList};

    ghost Value = { NamedList };

    ghost view = { λ a. record { entries = a.entries.items } };

    ghost invariant = { λ a. AreMarked a.marks.items a.entries.items };
}

impl NamedBlocks {
    /// No block, with room for those of a disk.
    pub fn new(alloc: Global, count: usize) -> Result<NamedBlocks, AllocError>
        requires { 0 < count }
        ensures { IfOk result (λ named. named.entries ≡ []) }
    {
        let entries = Vec::with_capacity(alloc, count)?;
        let mut marks = vec![in alloc; false; count]?;
        marks[0] = true;
        Ok(NamedBlocks { entries, marks })
    }

    /// How many blocks are named.
    pub fn len(&self) -> usize
        ensures len { result ≡ length self.now.entries }
        ensures small { result < 2 ^ 63 }
    {
        self.entries.len()
    }

    /// The block at a place in the order, with its place.
    pub fn get(&self, at: usize) -> (u32, Place)
        requires { at < length self.now.entries }
        ensures { slice_get self.now.entries at ≡ Some result }
    {
        self.entries[at]
    }

    /// Whether a block is 0 or named.
    pub fn is_taken(&self, block: u32) -> bool
        ensures { result ≡ ((block == 0) || has_block self.now.entries block) }
    {
        match self.marks.get(block as usize) {
            Some(mark) => *mark,
            None => false,
        }
    }

    /// Puts a block behind the others.
    pub fn push(&mut self, block: u32, place: Place) -> Result<(), AllocError>
        ensures { OnOk result (self.new.entries ≡ self.old.entries ++ (block, place) ∷ []) }
    {
        reach(&mut self.marks, block as usize)?;
        self.entries.push((block, place))?;
        self.marks[block as usize] = true;
        Ok(())
    }

    /// The same, unless the lists have no room for one more. Answers whether they had.
    pub fn push_within(&mut self, block: u32, place: Place) -> bool
        ensures pushed { IsTrue result → self.new.entries ≡ self.old.entries ++ (block, place) ∷ [] }
        ensures full { result ≡ false → self.new.entries ≡ self.old.entries }
    {
        let at = block as usize;
        if self.marks.len() <= at || self.entries.len() == self.entries.capacity() {
            return false;
        }
        self.marks[at] = true;
        self.entries.push_reserved((block, place));
        true
    }
}

/// Puts marks that are not set behind the others, up to this place.
fn reach(marks: &mut Vec<bool>, place: usize) -> Result<(), AllocError>
    requires { place < 2 ^ 32 }
    ensures same { (b : ℕ) → get_or marks.new.items b false ≡ get_or marks.old.items b false }
    ensures long { OnOk result (place < length marks.new.items) }
{
    if marks.len() <= place {
        marks.resize(place + 1, false)?;
    }
    Ok(())
}
