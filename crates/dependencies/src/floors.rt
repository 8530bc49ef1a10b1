// The least pending entry of a file system.

ghost use Rattle.std.specs.Prelude.{◌≡◌, ◌≤◌, map, option_map, slice_get, sum_by};
ghost use Rattle.std.specs.Option.{option_copied};
ghost use Rattle.xn_model.specs.Lives.{entries_at, entries_of, least_to, life_at};
ghost use Rattle.xn_model.specs.Calls.{pending_in};
ghost use Rattle.dependencies.specs.Pending.{claim_count, claim_entries, is_dirty};

use block_cache::{Cache, Claim, Fs};
use free_map::BlockSet;

/// The least of a number and the pending entries that count for a file system. The walk is over the blocks for which something
/// is pending, and as there are `count` of these entries, it ends with the last of them.
pub fn least_for(cache: &Cache, dirty: &BlockSet, fs: Fs, most: u64, count: u32) -> u64
    requires all { count ≡ sum_by (pending_in fs.number) cache.now }
    requires dirty { dirty.now ≡ map is_dirty cache.now }
    ensures { result ≡ least_to most (entries_of fs.number cache.now) }
{
    let blocks = cache.blocks();
    let mut least = most;
    let mut left = count;
    let mut from = 0;
    while from < blocks {
        if left == 0 {
            break;
        }
        let Some(block) = dirty.least_from(from) else {
            break;
        };
        least = least_in(cache, block, fs, least);
        left -= count_in(cache, block, fs);
        from = block + 1;
    }
    least
}

/// The least of a number and the pending entries of a block that count for a file system.
fn least_in(cache: &Cache, block: u32, fs: Fs, most: u64) -> u64
    ensures { result ≡ least_to most (entries_at fs.number (life_at cache.now block)) }
{
    let mut least = most;
    for place in 0..cache.pending(block) {
        least = least_with(cache.claim(block, place), fs, least);
    }
    least
}

/// The least of a number and an entry, if that counts for a file system.
fn least_with(claim: Option<&Claim>, fs: Fs, most: u64) -> u64
    ensures { result ≡ least_to most (claim_entries fs.number (option_copied claim.entry)) }
{
    match claim {
        Some(claim) => {
            if claim.is_for(fs) {
                claim.entry().number().min(most)
            } else {
                most
            }
        }
        None => most,
    }
}

/// How many pending entries of a block count for a file system.
fn count_in(cache: &Cache, block: u32, fs: Fs) -> u32
    ensures { result ≡ pending_in fs.number (life_at cache.now block) }
{
    let mut count = 0;
    for place in 0..cache.pending(block) {
        count += count_one(cache.claim(block, place), fs);
    }
    count
}

/// 1 for an entry that counts for a file system.
fn count_one(claim: Option<&Claim>, fs: Fs) -> u32
    ensures count { result ≡ claim_count fs.number (option_copied claim.entry) }
    ensures few { result ≤ 1 }
{
    match claim {
        Some(claim) => u32::from(claim.is_for(fs)),
        None => 0,
    }
}
