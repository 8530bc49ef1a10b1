// Whether an entry may go to the disk.

ghost use Rattle.std.specs.Prelude.{◌≡◌, is_none, map};
ghost use Rattle.std.specs.Option.{option_copied};
ghost use Rattle.xn_model.specs.Lives.{life_at};
ghost use Rattle.dependencies.specs.Awaits.{first_unmet};
ghost use Rattle.dependencies.specs.Homes.{AreHomes};
ghost use Rattle.dependencies.specs.Pending.{is_dirty};
ghost use Rattle.dependencies.specs.Safety.{claim_at, is_safe_at};
ghost use Rattle.dependencies.specs.Typed.{FindsTypes};

use crate::homes::Homes;
use crate::unmet::first_unmet;
use block_cache::{Cache, Claim};
use free_map::BlockSet;

/// Whether an entry of a block may be written, behind the first ones of that block: mostly it claims nothing.
#[tactic(auto, using(crate::proofs::Types::nothing_met))]
#[inline(always)]
fn is_claim_safe(
    cache: &Cache,
    dirty: &BlockSet,
    homes: &Homes,
    block: u32,
    earlier: usize,
    claim: &Claim,
) -> bool
    requires dirty { dirty.now ≡ map is_dirty cache.now }
    requires homes { AreHomes cache.now homes.now }
    ensures { result ≡ is_none (first_unmet cache.now block earlier claim.now) }
{
    claim.claims_nothing() || first_unmet(cache, dirty, homes, block, earlier, claim).is_none()
}

/// Whether the pending entry at a place of a block, of which this is known, may be written, once those before it are. There may be none.
#[inline(always)]
pub fn is_safe_at(
    cache: &Cache,
    dirty: &BlockSet,
    homes: &Homes,
    block: u32,
    place: usize,
    claim: Option<&Claim>,
) -> bool
    requires dirty { dirty.now ≡ map is_dirty cache.now }
    requires homes { AreHomes cache.now homes.now }
    requires typed { FindsTypes cache.now }
    requires claim { option_copied claim ≡ claim_at (life_at cache.now block) place }
    ensures { result ≡ is_safe_at cache.now (life_at cache.now block) place }
{
    match claim {
        Some(claim) => is_claim_safe(cache, dirty, homes, block, place, claim),
        None => false,
    }
}
