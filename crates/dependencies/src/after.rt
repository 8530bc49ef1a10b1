// In which block an entry is pending.

ghost use Rattle.std.specs.Prelude.{◌≡◌, map, option_map, slice_get};
ghost use Rattle.xn_model.specs.Lives.{alive_and, has_entry, life_at};
ghost use Rattle.xn_model.specs.Calls.{first_pending};
ghost use Rattle.block_cache.specs.Claims.{claim_of};
ghost use Rattle.block_cache.specs.Views.{pending_at};
ghost use Rattle.dependencies.specs.Numbers.{is_number};
ghost use Rattle.dependencies.specs.Awaits.{home};
ghost use Rattle.dependencies.specs.Homes.{AreHomes};
ghost use Rattle.dependencies.specs.Pending.{is_dirty};

use crate::homes::Homes;
use block_cache::Cache;
use free_map::BlockSet;

/// Whether the pending entry at a place of a block has this number.
fn is_number_at(cache: &Cache, block: u32, place: usize, number: u64) -> bool
    ensures { result ≡ is_number number (option_map claim_of (slice_get (pending_at (life_at cache.now block)) place)) }
{
    match cache.claim(block, place) {
        Some(claim) => claim.entry().number() == number,
        None => false,
    }
}

/// Whether one of the first pending entries of a block has this number.
pub fn has_number(cache: &Cache, block: u32, count: usize, number: u64) -> bool
    ensures { result ≡ has_entry (first_pending count (life_at cache.now block)) number }
{
    for place in 0..count {
        if is_number_at(cache, block, place, number) {
            return true;
        }
    }
    false
}

/// Whether the entry of this number is pending in a block.
pub fn is_pending_in(cache: &Cache, block: u32, number: u64) -> bool
    ensures { result ≡ alive_and (λ l. has_entry l.pending number) (life_at cache.now block) }
{
    has_number(cache, block, cache.pending(block), number)
}

/// The block in which the entry of this number is pending, by a walk over the blocks for which something is.
fn pending_somewhere(cache: &Cache, dirty: &BlockSet, number: u64) -> Option<u32>
    requires { dirty.now ≡ map is_dirty cache.now }
    ensures { result ≡ home cache.now number }
{
    let blocks = cache.blocks();
    let mut from = 0;
    while from < blocks {
        let block = dirty.least_from(from)?;
        if is_pending_in(cache, block, number) {
            return Some(block);
        }
        from = block + 1;
    }
    None
}

/// The block in which the entry of this number is pending. An entry whose block is not known, as it is old, takes a walk.
pub fn pending_block(cache: &Cache, dirty: &BlockSet, homes: &Homes, number: u64) -> Option<u32>
    requires dirty { dirty.now ≡ map is_dirty cache.now }
    requires homes { AreHomes cache.now homes.now }
    ensures { result ≡ home cache.now number }
{
    let Some(block) = homes.home(number) else {
        return pending_somewhere(cache, dirty, number);
    };
    if is_pending_in(cache, block, number) {
        Some(block)
    } else {
        None
    }
}
