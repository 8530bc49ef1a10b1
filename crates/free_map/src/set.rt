// A set of block numbers.

ghost use Rattle.std.specs.Prelude.{◌≡◌, ◌<◌, Bool, true, false, length, replicate, count_by, position, unwrap_or, slice_get, slice_set, IfOk};
ghost use Rattle.std.specs.Prelude.{IfSome, IfNone};
ghost use Rattle.free_map.specs.Members.{is_member, IsLeastFrom, HasNoneFrom};

use crate::words::Words;
use std::alloc::{AllocError, Global};
use std::marker::Model;

/// A set of block numbers below a bound, seen as a row of truth values. Over its words stands a row with a bit for each
/// word that has some member, so that no call walks the members.
#[derive(Drop)]
pub struct BlockSet {
    bound: u32,
    words: Words,
    filled: Words,
    count: u32,
}

impl Model for BlockSet {
    ghost use Rattle.std.specs.Prelude.{List, Bool};
    ghost use Rattle.free_map.specs.Members.{members_of, AreMembers};

    ghost Value = { List Bool };

    ghost view = { λ a. members_of a.bound a.words };

    ghost invariant = { λ a. AreMembers a.bound a.words a.filled a.count };
}

impl BlockSet {
    /// The empty set of numbers below a bound.
    pub fn new(alloc: Global, bound: u32) -> Result<BlockSet, AllocError>
        ensures { IfOk result (λ set. set ≡ replicate bound false) }
    {
        let words = bound as usize / 64 + 1;
        Ok(BlockSet {
            bound,
            words: Words::new(alloc, words)?,
            filled: Words::new(alloc, words / 64 + 1)?,
            count: 0,
        })
    }

    /// The set of all numbers below a bound.
    pub fn full(alloc: Global, bound: u32) -> Result<BlockSet, AllocError>
        ensures { IfOk result (λ set. set ≡ replicate bound true) }
    {
        let members = bound as usize;
        let words = members / 64 + 1;
        Ok(BlockSet {
            bound,
            words: Words::with_first(alloc, words, members)?,
            filled: Words::with_first(alloc, words / 64 + 1, members.div_ceil(64))?,
            count: bound,
        })
    }

    /// The bound that every member is below.
    pub fn bound(&self) -> u32
        ensures { result ≡ length self.now }
    {
        self.bound
    }

    /// How many members there are.
    pub fn count(&self) -> u32
        ensures { result ≡ count_by is_member self.now }
    {
        self.count
    }

    /// Whether a number is a member.
    pub fn contains(&self, block: u32) -> bool
        ensures { result ≡ unwrap_or (slice_get self.now block) false }
    {
        block < self.bound && self.words.has(block as usize)
    }

    /// The least member.
    pub fn least(&self) -> Option<u32>
        ensures { result ≡ position is_member self.now }
    {
        if self.count == 0 {
            return None;
        }
        let word = self.filled.lowest()?;
        Some(self.words.lowest_in(word) as u32)
    }

    /// The least member that is not below a number.
    pub fn least_from(&self, from: u32) -> Option<u32>
        ensures some { IfSome result (IsLeastFrom self.now from) }
        ensures none { IfNone result (HasNoneFrom self.now from) }
    {
        let at = from as usize;
        if let Some(block) = self.words.lowest_in_from(at) {
            return Some(block as u32);
        }
        let word = self.filled.lowest_from(at / 64 + 1)?;
        Some(self.words.lowest_in(word) as u32)
    }

    /// Makes a number a member.
    pub fn insert(&mut self, block: u32)
        requires { block < length self.old }
        ensures { self.new ≡ slice_set self.old block true }
    {
        let at = block as usize;
        if !self.words.has(at) {
            self.words.put(at, true);
            self.filled.put(at / 64, true);
            self.count += 1;
        }
    }

    /// Takes a number out.
    pub fn remove(&mut self, block: u32)
        requires { block < length self.old }
        ensures { self.new ≡ slice_set self.old block false }
    {
        let at = block as usize;
        if self.words.has(at) {
            self.words.put(at, false);
            let is_blank = self.words.is_blank(at / 64);
            self.filled.put(at / 64, !is_blank);
            self.count -= 1;
        }
    }
}
