// What is read off an index and the lives that it is of.

ghost use Rattle.std.specs.Prelude.{◌≡◌, ◌≤◌, count_by, is_none, position, sum_by};
ghost use Rattle.std.specs.Option.{option_copied};
ghost use Rattle.xn_model.specs.Lives.{Lives, entries_of, least_to, life_at, lowest_free, prefix_of};
ghost use Rattle.xn_model.specs.Calls.{is_ready, is_tainted, life_pending, pending_in};
ghost use Rattle.dependencies.specs.Index.{IsIndex};
ghost use Rattle.dependencies.specs.Typed.{FindsTypes};

use crate::floors::least_for;
use crate::index::Index;
use crate::oldest::home_for;
use crate::safe::is_safe_at;
use block_cache::{Cache, Fs, LiveBlock};

impl Index {
    /// The least free block.
    pub fn lowest_free(&self) -> Option<u32>
        ensures { (lives : Lives) → IsIndex lives self.now → result ≡ lowest_free lives }
    {
        self.free.lowest()
    }

    /// How many blocks are free.
    pub fn free(&self) -> u32
        ensures { (lives : Lives) → IsIndex lives self.now → result ≡ count_by is_none lives }
    {
        self.free.count()
    }

    /// How many pending entries count for a file system.
    pub fn pending_for(&self, fs: Fs) -> u32
        ensures { (lives : Lives) → IsIndex lives self.now → result ≡ sum_by (pending_in fs.number) lives }
    {
        self.pending[fs.index()]
    }

    /// The least of a number and the pending entries that count for a file system: mostly there are none.
    #[inline(always)]
    pub fn least_for(&self, cache: &Cache, fs: Fs, most: u64) -> u64
        requires { IsIndex cache.now self.now }
        ensures { result ≡ least_to most (entries_of fs.number cache.now) }
    {
        if self.pending[fs.index()] == 0 {
            return most;
        }
        self.least_pending(cache, fs, most)
    }

    /// The same, where some are pending.
    #[inline(never)]
    fn least_pending(&self, cache: &Cache, fs: Fs, most: u64) -> u64
        requires { IsIndex cache.now self.now }
        ensures { result ≡ least_to most (entries_of fs.number cache.now) }
    {
        let oldest = self.oldest[fs.index()];
        if let Some(_block) = home_for(cache, &self.homes, fs, oldest) {
            return oldest.min(most);
        }
        least_for(cache, &self.dirty, fs, most, self.pending[fs.index()])
    }

    /// How many pending entries of a block, of which this is the life, from the first on, are safe: they may go to the disk together. A free
    /// block, which has no life, has none.
    #[inline(always)]
    pub fn safe_prefix(&self, cache: &Cache, block: u32, life: Option<&LiveBlock<'_>>) -> u32
        requires index { IsIndex cache.now self.now }
        requires typed { FindsTypes cache.now }
        requires life { option_copied life ≡ life_at cache.now block }
        ensures count { result ≡ prefix_of cache.now (life_at cache.now block) }
        ensures within { result ≤ life_pending (life_at cache.now block) }
    {
        let Some(life) = life else {
            return 0;
        };
        let pending = life.facts().pending;
        for place in 0..pending {
            let claim = life.claim(place);
            if !is_safe_at(cache, &self.dirty, &self.homes, block, place, claim) {
                return place as u32;
            }
        }
        pending as u32
    }

    /// Whether some pending entry of a block is not safe.
    pub fn is_tainted(&self, cache: &Cache, block: u32) -> bool
        requires index { IsIndex cache.now self.now }
        requires typed { FindsTypes cache.now }
        ensures { result ≡ is_tainted cache.now (life_at cache.now block) }
    {
        match cache.live(block) {
            Some(life) => {
                (self.safe_prefix(cache, block, Some(&life)) as usize) < life.facts().pending
            }
            None => false,
        }
    }

    /// Whether no write of a block is under way, and some of its pending entries are safe.
    fn is_ready(&self, cache: &Cache, block: u32) -> bool
        requires index { IsIndex cache.now self.now }
        requires typed { FindsTypes cache.now }
        ensures { result ≡ is_ready cache.now (life_at cache.now block) }
    {
        let Some(life) = cache.live(block) else {
            return false;
        };
        let first = life.claim(0);
        life.facts().begun.is_none() && is_safe_at(cache, &self.dirty, &self.homes, block, 0, first)
    }

    /// The least block of which a write may begin. The walk is over the candidates, and ends with the first that is ready.
    pub fn pick(&self, cache: &Cache) -> Option<u32>
        requires index { IsIndex cache.now self.now }
        requires typed { FindsTypes cache.now }
        ensures { result ≡ position (is_ready cache.now) cache.now }
    {
        let blocks = cache.blocks();
        let mut from = 0;
        while from < blocks {
            let block = self.candidates.blocks.least_from(from)?;
            if self.is_ready(cache, block) {
                return Some(block);
            }
            from = block + 1;
        }
        None
    }
}
