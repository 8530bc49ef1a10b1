// What follows in an index where lives change.

ghost use Rattle.std.specs.Prelude.{◌≡◌, ◌<◌, ◌≤◌, ℕ, List, [], Some, None, IfSome, IsTrue, false, is_some, slice_get, slice_index, slice_set};
ghost use Rattle.std.specs.Option.{option_copied};
ghost use Rattle.xn_model.specs.Lives.{BlockState, Lives, accepted_at, begun_at, drops_of, freed, life_at, settled_at};
ghost use Rattle.xn_model.specs.Calls.{first_pending, life_pending, new_life};
ghost use Rattle.block_cache.specs.Systems.{system_of};
ghost use Rattle.dependencies.specs.Candidates.{IsTrimmed, is_candidate};
ghost use Rattle.dependencies.specs.Index.{IsIndex, MayFree};
ghost use Rattle.dependencies.specs.Oldest.{MovesOn};
ghost use Rattle.dependencies.specs.Pending.{pends};

use crate::counts::{TakenOut, count_entry, discount, mark, take_out, with_pending};
use crate::index::Index;
use crate::oldest::move_on;
use block_cache::{Cache, Fs, LiveBlock};

impl Index {
    /// Notes a life that starts on a free block, with its first entry of this number.
    pub fn note_start(&mut self, block: u32, number: u64, fs: Option<Fs>)
        requires { IfSome fs (λ f. slice_index self.old.pending f.number < 4096) }
        ensures { (lives : Lives) (ty : ℕ) (bytes : List ℕ) → IsIndex lives self.old → slice_get lives block ≡ Some None →
            ((b : ℕ) → pends number (life_at lives b) ≡ false) →
            IsIndex (slice_set lives block (Some (new_life number (system_of fs) ty bytes))) self.new }
    {
        self.free.take(block);
        mark(&mut self.dirty, block, true);
        self.candidates.set(block, true);
        self.homes.put(number, block);
        count_entry(&mut self.pending, &mut self.oldest, fs, number);
    }

    /// Notes one more entry of a block, of this number.
    #[inline(always)]
    pub fn note_entry(&mut self, block: u32, number: u64, fs: Option<Fs>)
        requires { IfSome fs (λ f. slice_index self.old.pending f.number < 4096) }
        ensures { (lives : Lives) (s : BlockState) → IsIndex lives self.old → IsTrue (is_some (life_at lives block)) →
            s.entry ≡ number → s.fs ≡ system_of fs →
            ((b : ℕ) → pends number (life_at lives b) ≡ false) → IsIndex (accepted_at lives block s) self.new }
    {
        let is_first = !self.dirty.contains(block);
        mark(&mut self.dirty, block, true);
        self.candidates.note_entry(block, is_first);
        self.homes.put(number, block);
        count_entry(&mut self.pending, &mut self.oldest, fs, number);
    }

    /// Follows a write of a block that has begun.
    #[inline(always)]
    pub fn note_begin(&mut self, cache: &Cache, block: u32)
        requires { (lives : Lives) × (count : ℕ) × (cache.now ≡ begun_at lives block count) × IsIndex lives self.old }
        ensures index { IsIndex cache.now self.new }
        ensures trimmed { IsTrimmed cache.now self.new.candidates }
        ensures begun { is_candidate self.new.candidates block ≡ false }
    {
        self.candidates.set(block, false);
        self.candidates.trim(cache, &self.dirty, &self.homes);
    }

    /// Takes out the first entries of a block, of which this is the life, which a write makes durable, and frees the blocks that they drop. A free
    /// block, which has no life, has none.
    #[inline(always)]
    pub fn take_out(
        &mut self,
        cache: &Cache,
        block: u32,
        life: Option<&LiveBlock<'_>>,
        count: usize,
    ) -> TakenOut
        requires index { IsIndex cache.now self.old }
        requires life { option_copied life ≡ life_at cache.now block }
        requires within { count ≤ life_pending (life_at cache.now block) }
        ensures drops { result.has_drops ≡ false → drops_of (first_pending count (life_at cache.now block)) ≡ [] }
        ensures index { MayFree cache.now block (drops_of (first_pending count (life_at cache.now block))) →
            IsIndex (freed (settled_at cache.now block count) (drops_of (first_pending count (life_at cache.now block)))) self.new }
    {
        let Some(life) = life else {
            return TakenOut {
                fs: None,
                has_drops: false,
            };
        };
        let taken = take_out(&mut self.pending, &mut self.free, life, count);
        let left = life.facts().pending - count;
        mark(&mut self.dirty, block, left > 0);
        self.candidates.wake(block);
        self.candidates.set(block, left > 0);
        taken
    }

    /// Looks on from where entries were taken out: at the least candidate, and at what is the oldest now.
    #[inline(always)]
    pub fn note_settle(&mut self, cache: &Cache, taken: TakenOut)
        requires { IsIndex cache.now self.old }
        ensures index { IsIndex cache.now self.new }
        ensures trimmed { IsTrimmed cache.now self.new.candidates }
        ensures moves { IfSome taken.fs (λ f. 0 < slice_index self.old.pending f.number →
            MovesOn cache.now self.old.homes f.number self.old.oldest self.new.oldest) }
    {
        self.candidates.trim(cache, &self.dirty, &self.homes);
        self.move_on(cache, taken.fs);
    }

    /// Takes out all entries of a block whose life ends, and frees it. Answers for which file system the last of them counted.
    pub fn note_end(&mut self, cache: &Cache, block: u32) -> Option<Fs>
        requires { IsIndex cache.now self.old }
        ensures { IsIndex (slice_set cache.now block None) self.new }
    {
        let count = cache.pending(block);
        let fs = discount(&mut self.pending, cache, block, count);
        self.free.give(block);
        mark(&mut self.dirty, block, false);
        self.candidates.wake(block);
        self.candidates.set(block, false);
        fs
    }

    /// Looks for what is the oldest entry of a file system now, where entries of it are pending.
    #[inline(always)]
    pub fn move_on(&mut self, cache: &Cache, fs: Option<Fs>)
        requires { IsIndex cache.now self.old }
        ensures index { IsIndex cache.now self.new }
        ensures moves { IfSome fs (λ f. 0 < slice_index self.old.pending f.number →
            MovesOn cache.now self.old.homes f.number self.old.oldest self.new.oldest) }
        ensures rest { self.new ≡ record self.old { oldest = self.new.oldest } }
    {
        if let Some(fs) = with_pending(&self.pending, fs) {
            move_on(&mut self.oldest, cache, &self.homes, fs);
        }
    }
}
