// The free blocks of a disk.

ghost use Rattle.std.specs.Prelude.{◌≡◌, ◌<◌, Bool, true, false, length, replicate, count_by, position, unwrap_or, slice_get, slice_set, IfOk, IfSome, IfNone};
ghost use Rattle.free_map.specs.Members.{is_member};

use crate::BlockSet;
use std::alloc::{AllocError, Global};
use std::marker::Model;

/// The free blocks of a disk, seen as a row of truth values: is this block free?
#[derive(Drop)]
pub struct FreeMap {
    free: BlockSet,
}

impl Model for FreeMap {
    ghost use Rattle.std.specs.Prelude.{List, Bool};

    ghost Value = { List Bool };

    ghost view = { λ a. a.free };
}

impl FreeMap {
    /// All blocks of a disk are free.
    pub fn new(alloc: Global, blocks: u32) -> Result<FreeMap, AllocError>
        ensures { IfOk result (λ map. map ≡ replicate blocks true) }
    {
        Ok(FreeMap {
            free: BlockSet::full(alloc, blocks)?,
        })
    }

    /// How many blocks are free.
    pub fn count(&self) -> u32
        ensures { result ≡ count_by is_member self.now }
    {
        self.free.count()
    }

    /// Whether a block is free; one past the end is not.
    pub fn is_free(&self, block: u32) -> bool
        ensures { result ≡ unwrap_or (slice_get self.now block) false }
    {
        self.free.contains(block)
    }

    /// The lowest free block.
    pub fn lowest(&self) -> Option<u32>
        ensures { result ≡ position is_member self.now }
    {
        self.free.least()
    }

    /// Takes the lowest free block, if there is one.
    pub fn take_lowest(&mut self) -> Option<u32>
        ensures lowest { result ≡ position is_member self.old }
        ensures some { IfSome result (λ block. self.new ≡ slice_set self.old block false) }
        ensures none { IfNone result (self.new ≡ self.old) }
    {
        let block = self.free.least()?;
        self.free.remove(block);
        Some(block)
    }

    /// Takes a block, free or not. Past the end there is none.
    pub fn take(&mut self, block: u32)
        ensures { self.new ≡ slice_set self.old block false }
    {
        if block < self.free.bound() {
            self.free.remove(block);
        }
    }

    /// Frees a block. Past the end there is none.
    pub fn give(&mut self, block: u32)
        ensures { self.new ≡ slice_set self.old block true }
    {
        if block < self.free.bound() {
            self.free.insert(block);
        }
    }
}
