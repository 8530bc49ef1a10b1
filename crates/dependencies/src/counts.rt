// What is counted of the entries of a block, and whether there are any.

ghost use Rattle.std.specs.Prelude.{◌≡◌, ℕ, ◌+◌, ◌<◌, ◌≤◌, [], false, IfNone, IfSome, Some, count_by, length, slice_index, slice_set};
ghost use Rattle.std.specs.Option.{option_copied};
ghost use Rattle.xn_model.specs.Lives.{drops_of, is_for, life_at};
ghost use Rattle.xn_model.specs.Calls.{first_pending, life_pending};
ghost use Rattle.dependencies.specs.Pending.{claim_count};
ghost use Rattle.block_cache.specs.Systems.{system_of};
ghost use Rattle.dependencies.specs.Counts.{claim_drops, counted_for, given, noted_for};

use crate::oldest::note_number;
use block_cache::{Cache, Claim, Fs, LiveBlock};
use free_map::{BlockSet, FreeMap};

/// Takes the first entries of a block out of the counts. Answers for which file system the last of them counted, of which no
/// contract speaks: only what is looked at next depends on it.
pub fn discount(pending: &mut [u32; 32], cache: &Cache, block: u32, count: usize) -> Option<Fs>
    requires within { count ≤ life_pending (life_at cache.now block) }
    requires counted { (fs : ℕ) → fs < 32 → count_by (λ s. is_for fs s.fs) (first_pending count (life_at cache.now block)) ≤ slice_index pending.old fs }
    ensures { (fs : ℕ) → fs < 32 → slice_index pending.new fs + count_by (λ s. is_for fs s.fs) (first_pending count (life_at cache.now block))
        ≡ slice_index pending.old fs }
{
    let mut fs = None;
    for place in 0..count {
        fs = discount_one(pending, cache.claim(block, place));
    }
    fs
}

/// Takes an entry out of the counts. Answers for which file system it counted.
fn discount_one(pending: &mut [u32; 32], claim: Option<&Claim>) -> Option<Fs>
    requires { (fs : ℕ) → fs < 32 → claim_count fs (option_copied claim) ≤ slice_index pending.old fs }
    ensures { (fs : ℕ) → fs < 32 → slice_index pending.new fs + claim_count fs (option_copied claim.entry) ≡ slice_index pending.old fs }
{
    let fs = claim?.fs()?;
    pending[fs.index()] -= 1;
    Some(fs)
}

/// Counts a new entry of this number, where it is a file system's, and notes it.
pub fn count_entry(pending: &mut [u32; 32], oldest: &mut [u64; 32], fs: Option<Fs>, number: u64)
    requires { IfSome fs (λ f. slice_index pending.old f.number < 4096) }
    ensures pending { pending.new ≡ counted_for (system_of fs) pending.old }
    ensures oldest { oldest.new ≡ noted_for (system_of fs) number pending.old oldest.old }
{
    if let Some(fs) = fs {
        note_number(oldest, fs, number, pending[fs.index()]);
        pending[fs.index()] += 1;
    }
}

/// A file system, where entries of it are pending.
pub fn with_pending(pending: &[u32; 32], fs: Option<Fs>) -> Option<Fs>
    ensures some { IfSome result (λ f. (fs ≡ Some f) × (0 < slice_index pending.now f.number)) }
    ensures none { IfNone result (IfSome fs (λ f. slice_index pending.now f.number ≡ 0)) }
{
    let fs = fs?;
    if pending[fs.index()] > 0 {
        Some(fs)
    } else {
        None
    }
}

/// What was taken out of the counts: the file system for which the last entry counted, and whether some entry drops a block.
#[derive(Clone, Copy)]
pub struct TakenOut {
    pub fs: Option<Fs>,
    pub has_drops: bool,
}

/// Takes the first entries of a life out of the counts, and frees the blocks that they drop.
#[inline(always)]
pub fn take_out(
    pending: &mut [u32; 32],
    free: &mut FreeMap,
    life: &LiveBlock<'_>,
    count: usize,
) -> TakenOut
    requires within { count ≤ length life.now.pending }
    requires counted { (fs : ℕ) → fs < 32 → count_by (λ s. is_for fs s.fs) (first_pending count (Some life.now)) ≤ slice_index pending.old fs }
    ensures pending { (fs : ℕ) → fs < 32 → slice_index pending.new fs + count_by (λ s. is_for fs s.fs) (first_pending count (Some life.now))
        ≡ slice_index pending.old fs }
    ensures free { free.new ≡ given free.old (drops_of (first_pending count (Some life.now))) }
    ensures drops { result.has_drops ≡ false → drops_of (first_pending count (Some life.now)) ≡ [] }
{
    let mut taken = TakenOut {
        fs: None,
        has_drops: false,
    };
    for place in 0..count {
        let claim = life.claim(place);
        taken.fs = discount_one(pending, claim);
        let has_drops = give_each(free, claim);
        taken.has_drops |= has_drops;
    }
    taken
}

/// Frees the blocks that an entry drops. Answers whether there are any.
fn give_each(free: &mut FreeMap, claim: Option<&Claim>) -> bool
    ensures free { free.new ≡ given free.old (claim_drops (option_copied claim.entry)) }
    ensures drops { result ≡ false → claim_drops (option_copied claim.entry) ≡ [] }
{
    let Some(claim) = claim else {
        return false;
    };
    if claim.drops().is_empty() {
        return false;
    }
    give_blocks(free, claim.drops());
    true
}

/// Frees some blocks.
fn give_blocks(free: &mut FreeMap, blocks: &[u32])
    ensures { free.new ≡ given free.old blocks.now }
{
    for block in blocks {
        free.give(*block);
    }
}

/// Notes whether something is pending for a block. Past the end there is none.
#[inline(always)]
pub fn mark(dirty: &mut BlockSet, block: u32, is_dirty: bool)
    ensures { dirty.new ≡ slice_set dirty.old block is_dirty }
{
    if block < dirty.bound() {
        if is_dirty {
            dirty.insert(block);
        } else {
            dirty.remove(block);
        }
    }
}
