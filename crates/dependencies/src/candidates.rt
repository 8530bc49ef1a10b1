// The blocks of which a write may begin.

ghost use Rattle.std.specs.Prelude.{◌≡◌, ◌<◌, ◌≤◌, ◌⊎◌, true, false, cond, count_by, is_some, length, map, replicate, None, IfOk, IsTrue};
ghost use Rattle.free_map.specs.Members.{is_member};
ghost use Rattle.dependencies.specs.WaitLists.{at};
ghost use Rattle.dependencies.specs.Candidates.{AddsNone, AreCandidates, CandidatesValue, IsTrimmed, Parks, Wakes, with_candidate};
ghost use Rattle.dependencies.specs.Homes.{AreHomes};
ghost use Rattle.dependencies.specs.Pending.{is_dirty};

use crate::homes::Homes;
use crate::unmet::unmet_at;
use crate::wait_lists::WaitLists;
use block_cache::Cache;
use free_map::BlockSet;
use std::alloc::{AllocError, Global};
use std::marker::Model;

/// The blocks of which a write may begin, and perhaps more. A block whose first entry waits for another block is on the list of
/// that one, and is looked at again once a write of it has ended: so no call looks at each block that waits.
#[derive(Drop)]
pub struct Candidates {
    pub(crate) blocks: BlockSet,
    waits: WaitLists,
}

impl Model for Candidates {
    ghost use Rattle.std.specs.Prelude.{◌≡◌, length};
    ghost use Rattle.dependencies.specs.Candidates.{CandidatesValue};

    ghost Value = { CandidatesValue };

    ghost view = { λ a. record { blocks = a.blocks; waits = a.waits } };

    ghost invariant = { λ a. length a.waits ≡ length a.blocks };
}

impl Candidates {
    /// None of so many blocks is a candidate, and none waits.
    pub fn new(alloc: Global, blocks: u32) -> Result<Candidates, AllocError>
        ensures { IfOk result (λ candidates. candidates ≡ record { blocks = replicate blocks false; waits = replicate blocks None }) }
    {
        Ok(Candidates {
            blocks: BlockSet::new(alloc, blocks)?,
            waits: WaitLists::new(alloc, blocks)?,
        })
    }

    /// Makes a block a candidate, or takes it out.
    #[inline(always)]
    pub fn set(&mut self, block: u32, is_candidate: bool)
        ensures { self.new ≡ with_candidate self.old block is_candidate }
    {
        if block < self.blocks.bound() {
            if is_candidate {
                self.blocks.insert(block);
            } else {
                self.blocks.remove(block);
            }
        }
    }

    /// Makes a block a candidate where its first entry has come.
    #[inline(always)]
    pub fn note_entry(&mut self, block: u32, is_first: bool)
        ensures { self.new ≡ cond is_first (with_candidate self.old block true) self.old }
    {
        if is_first {
            self.set(block, true);
        }
    }

    /// Makes candidates of the blocks that wait for another one.
    #[inline(always)]
    pub fn wake(&mut self, other: u32)
        ensures { Wakes self.old self.new other }
    {
        while let Some(block) = self.waits.pop(other) {
            self.blocks.insert(block);
        }
    }

    /// Puts a candidate on the list of another block, unless it stands on one, or there is no such block.
    fn park(&mut self, block: u32, other: u32) -> bool
        requires { block < length self.old.blocks }
        ensures parks { IsTrue result → Parks self.old self.new block other }
        ensures stays { result ≡ false → self.new ≡ self.old }
        ensures refused { result ≡ false → (length self.old.blocks ≤ other) ⊎ IsTrue (is_some (at self.old.waits block)) }
    {
        if other >= self.blocks.bound() || self.waits.is_waiting(block) {
            return false;
        }
        self.waits.push(other, block);
        self.blocks.remove(block);
        true
    }

    /// Takes the least candidate out, if its first entry waits for another block.
    fn park_least(&mut self, cache: &Cache, dirty: &BlockSet, homes: &Homes) -> bool
        requires dirty { dirty.now ≡ map is_dirty cache.now }
        requires homes { AreHomes cache.now homes.now }
        requires candidates { AreCandidates cache.now self.old }
        ensures kept { AreCandidates cache.now self.new }
        ensures fewer { IsTrue result → count_by is_member self.new.blocks < count_by is_member self.old.blocks }
        ensures trimmed { result ≡ false → IsTrimmed cache.now self.new }
        ensures none_new { AddsNone self.old self.new }
    {
        let Some(block) = self.blocks.least() else {
            return false;
        };
        let Some(other) = unmet_at(cache, dirty, homes, block, 0) else {
            return false;
        };
        self.park(block, other)
    }

    /// Takes candidates out, from the least on, as long as their first entries wait for other blocks.
    fn park_all(&mut self, cache: &Cache, dirty: &BlockSet, homes: &Homes)
        requires dirty { dirty.now ≡ map is_dirty cache.now }
        requires homes { AreHomes cache.now homes.now }
        requires candidates { AreCandidates cache.now self.old }
        ensures kept { AreCandidates cache.now self.new }
        ensures trimmed { IsTrimmed cache.now self.new }
        ensures none_new { AddsNone self.old self.new }
    {
        while self.park_least(cache, dirty, homes) {}
    }

    /// The same, where there is a candidate at all.
    #[inline(always)]
    pub fn trim(&mut self, cache: &Cache, dirty: &BlockSet, homes: &Homes)
        requires dirty { dirty.now ≡ map is_dirty cache.now }
        requires homes { AreHomes cache.now homes.now }
        requires candidates { AreCandidates cache.now self.old }
        ensures kept { AreCandidates cache.now self.new }
        ensures trimmed { IsTrimmed cache.now self.new }
        ensures none_new { AddsNone self.old self.new }
    {
        if self.blocks.count() > 0 {
            self.park_all(cache, dirty, homes);
        }
    }
}
