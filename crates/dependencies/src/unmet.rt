// What keeps an entry from the disk.

ghost use Rattle.std.specs.Prelude.{◌≡◌, map};
ghost use Rattle.std.specs.List.{list_all};
ghost use Rattle.xn_model.specs.Root.{has_type};
ghost use Rattle.xn_model.specs.Lives.{has_durable, is_all_durable, life_at, root_on_disk};
ghost use Rattle.xn_model.specs.Calls.{first_pending};
ghost use Rattle.dependencies.specs.Awaits.{first_unmet, home_in, lacking, unmet_at, unsettled, unwritten};
ghost use Rattle.dependencies.specs.Homes.{AreHomes};
ghost use Rattle.dependencies.specs.Pending.{is_dirty};

use crate::after::{has_number, pending_block};
use crate::homes::Homes;
use block_cache::{Cache, Claim, EditId};
use free_map::BlockSet;

/// Whether some state of a block is known to be on the disk.
fn has_durable(cache: &Cache, block: u32) -> bool
    ensures { result ≡ has_durable cache.now block }
{
    match cache.facts(block) {
        Some(facts) => facts.is_durable,
        None => false,
    }
}

/// Whether the newest state of a block is known to be on the disk.
fn is_all_durable(cache: &Cache, block: u32) -> bool
    ensures { result ≡ is_all_durable cache.now block }
{
    match cache.facts(block) {
        Some(facts) => facts.is_all_durable(),
        None => false,
    }
}

/// The first of these blocks that has no state on the disk.
fn unwritten(cache: &Cache, adds: &[(u32, u32)]) -> Option<u32>
    ensures { result ≡ unwritten cache.now adds.now }
{
    match adds.iter().find(|add| !has_durable(cache, add.0)) {
        Some(add) => Some(add.0),
        None => None,
    }
}

/// The first of these blocks whose newest state is not on the disk.
fn unsettled(cache: &Cache, drops: &[u32]) -> Option<u32>
    ensures { result ≡ unsettled cache.now drops.now }
{
    drops
        .iter()
        .copied()
        .find(|block| !is_all_durable(cache, *block))
}

/// The block in which the entry is pending that another one comes after, which stands behind the first ones of a block, if it is not
/// among these.
fn home_in(
    cache: &Cache,
    dirty: &BlockSet,
    homes: &Homes,
    block: u32,
    earlier: usize,
    after: Option<EditId>,
) -> Option<u32>
    requires dirty { dirty.now ≡ map is_dirty cache.now }
    requires homes { AreHomes cache.now homes.now }
    ensures { result ≡ home_in cache.now (first_pending earlier (life_at cache.now block)) after }
{
    match after {
        None => None,
        Some(other) => {
            if has_number(cache, block, earlier, other.number()) {
                None
            } else {
                pending_block(cache, dirty, homes, other.number())
            }
        }
    }
}

/// Whether block 0 has the type of each of these blocks on the disk.
fn are_types_there(cache: &Cache, adds: &[(u32, u32)]) -> bool
    ensures { result ≡ list_all (λ add. has_type (root_on_disk cache.now) add.1) adds.now }
{
    adds.iter().all(|add| cache.has_type_on_disk(add.1))
}

/// Block 0, if it lacks the type of one of these blocks on the disk. An entry of block 0 behind others needs no look: the bytes before it name
/// the types.
fn lacking(cache: &Cache, block: u32, earlier: usize, adds: &[(u32, u32)]) -> Option<u32>
    ensures { result ≡ lacking cache.now block earlier adds.now }
{
    if (block == 0 && earlier > 0) || are_types_there(cache, adds) {
        None
    } else {
        Some(0)
    }
}

/// The block that keeps an entry of a block from the disk, which stands behind the first ones there: the first one that it adds without a
/// state on the disk (never point to a structure before it has been initialised), or else the first one that it drops whose newest state is
/// not there (never reuse a resource before all pointers to it are gone), or else the one in which the entry is pending that it comes after,
/// if that doesn't go with it, or else block 0, which lacks the type of an added one there. `None` where it may be written. These are the
/// rules of soft updates, kept for each entry.
#[inline(never)]
pub fn first_unmet(
    cache: &Cache,
    dirty: &BlockSet,
    homes: &Homes,
    block: u32,
    earlier: usize,
    claim: &Claim,
) -> Option<u32>
    requires dirty { dirty.now ≡ map is_dirty cache.now }
    requires homes { AreHomes cache.now homes.now }
    ensures { result ≡ first_unmet cache.now block earlier claim.now }
{
    if let Some(added) = unwritten(cache, claim.adds()) {
        return Some(added);
    }
    if let Some(dropped) = unsettled(cache, claim.drops()) {
        return Some(dropped);
    }
    if let Some(home) = home_in(cache, dirty, homes, block, earlier, claim.after()) {
        return Some(home);
    }
    lacking(cache, block, earlier, claim.adds())
}

/// The same of the pending entry at a place of a block. There may be none.
pub fn unmet_at(
    cache: &Cache,
    dirty: &BlockSet,
    homes: &Homes,
    block: u32,
    place: usize,
) -> Option<u32>
    requires dirty { dirty.now ≡ map is_dirty cache.now }
    requires homes { AreHomes cache.now homes.now }
    ensures { result ≡ unmet_at cache.now block place }
{
    let claim = cache.claim(block, place)?;
    first_unmet(cache, dirty, homes, block, place, claim)
}
