// The writes of blocks.

ghost use Rattle.std.specs.Prelude.{◌≡◌, ◌≢◌, ◌≤◌, ℕ, [], Ok, false, All, IfOk, OnErr, length, slice_get, unwrap_or};
ghost use Rattle.std.specs.Option.{option_copied};
ghost use Rattle.xn_model.specs.Lives.{begun_at, current, drops_of, freed, life_at, settled_at};
ghost use Rattle.xn_model.specs.Results.{result_map};
ghost use Rattle.xn_model.specs.Calls.{first_pending, life_bytes, life_pending, settled_count, settled_place};
ghost use Rattle.dependencies.specs.Index.{MayFree};

use crate::lives::Lives;
use block_cache::{Cache, LiveBlock};
use store_types::{BLOCK_LEN, Refusal};

impl Lives {
    /// Begins a write of a block that carries its first entries.
    #[inline(always)]
    pub fn begin(&mut self, block: u32, count: u32)
        requires some { 1 ≤ count }
        requires within { count ≤ life_pending (life_at self.old block) }
        ensures { self.new ≡ begun_at self.old block count }
    {
        self.cache.begin(block, count);
        self.index.note_begin(&self.cache, block);
    }

    /// Ends a write of a block by the bytes that are read back, or where there are none by its newest ones: the entries that these make
    /// durable are forgotten, and the blocks that they drop are free. Answers how many these are, and those.
    pub fn settle_unless(
        &mut self,
        block: u32,
        other: Option<&[u8; BLOCK_LEN]>,
    ) -> Result<(u32, u32), Refusal>
        requires drops { (count : ℕ) → settled_place (unwrap_or (option_copied other) (life_bytes (life_at self.old block))) (slice_get self.old block) ≡ Ok count →
            MayFree self.old block (drops_of (first_pending count (life_at self.old block))) }
        ensures count { result_map (λ done. done.0) result
            ≡ settled_place (unwrap_or (option_copied other.entry) (life_bytes (life_at self.old block))) (slice_get self.old block) }
        ensures freed { IfOk result (λ done. done.1 ≡ length (drops_of (first_pending done.0 (life_at self.old block)))) }
        ensures lives { IfOk result (λ done. self.new ≡ freed (settled_at self.old block done.0) (drops_of (first_pending done.0 (life_at self.old block)))) }
        ensures err { OnErr result (self.new ≡ self.old) }
    {
        let Some(life) = self.cache.live(block) else {
            return Err(Refusal::NotMine);
        };
        let count = settled_unless(&life, other)?;
        let taken = self
            .index
            .take_out(&self.cache, block, Some(&life), count as usize);
        let freed = end_write(&mut self.cache, block, count, taken.has_drops);
        self.index.note_settle(&self.cache, taken);
        Ok((count, freed))
    }
}

/// How many entries of a life the bytes that are read back make durable, or where there are none the newest ones.
#[inline(always)]
fn settled_unless(life: &LiveBlock<'_>, other: Option<&[u8; BLOCK_LEN]>) -> Result<u32, Refusal>
    ensures count { result ≡ settled_count life.now (unwrap_or (option_copied other.entry) (current life.now)) life.now.begun }
    ensures within { IfOk result (λ count. count ≤ length life.now.pending) }
    ensures few { IfOk result (λ count. count ≤ 64) }
{
    match other {
        Some(bytes) => settled(life, bytes),
        None => settled_as_newest(life),
    }
}

/// How many entries of a life the bytes that are read back make durable. Where no state of it is known to be on the disk, it may hold any.
fn settled(life: &LiveBlock<'_>, bytes: &[u8; BLOCK_LEN]) -> Result<u32, Refusal>
    ensures count { result ≡ settled_count life.now bytes.now life.now.begun }
    ensures within { IfOk result (λ count. count ≤ length life.now.pending) }
    ensures few { IfOk result (λ count. count ≤ 64) }
{
    let facts = life.facts();
    let Some(count) = facts.begun else {
        return Err(Refusal::NotMine);
    };
    if life.has_image(count, bytes) {
        return Ok(count);
    }
    if !facts.is_durable || life.has_image(0, bytes) {
        return Ok(0);
    }
    Err(Refusal::NotMine)
}

/// The same where the newest bytes are read back: they are compared only where a pending entry stands behind the ones of the write.
#[inline(always)]
fn settled_as_newest(life: &LiveBlock<'_>) -> Result<u32, Refusal>
    ensures count { result ≡ settled_count life.now (current life.now) life.now.begun }
    ensures within { IfOk result (λ count. count ≤ length life.now.pending) }
    ensures few { IfOk result (λ count. count ≤ 64) }
{
    let facts = life.facts();
    let Some(count) = facts.begun else {
        return Err(Refusal::NotMine);
    };
    if count as usize == facts.pending {
        return Ok(count);
    }
    settled_by_newest(life)
}

/// The same, by a comparison.
#[inline(never)]
fn settled_by_newest(life: &LiveBlock<'_>) -> Result<u32, Refusal>
    ensures count { result ≡ settled_count life.now (current life.now) life.now.begun }
    ensures within { IfOk result (λ count. count ≤ length life.now.pending) }
    ensures few { IfOk result (λ count. count ≤ 64) }
{
    settled(life, life.current())
}

/// Ends a write of a block that made its first entries durable, and the lives of the blocks that these drop, if there are any.
/// Answers how many these are.
#[inline(always)]
fn end_write(cache: &mut Cache, block: u32, count: u32, has_drops: bool) -> u32
    requires within { count ≤ life_pending (life_at cache.old block) }
    requires few { count ≤ 64 }
    requires apart { All (λ c. c ≢ block) (drops_of (first_pending count (life_at cache.old block))) }
    requires drops { has_drops ≡ false → drops_of (first_pending count (life_at cache.old block)) ≡ [] }
    ensures freed { result ≡ length (drops_of (first_pending count (life_at cache.old block))) }
    ensures lives { cache.new ≡ freed (settled_at cache.old block count) (drops_of (first_pending count (life_at cache.old block))) }
{
    if has_drops {
        return cache.settle_and_free(block, count);
    }
    cache.settle(block, count);
    0
}
