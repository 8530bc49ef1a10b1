// Whether a block's new bytes own what an edit claims.

ghost use Rattle.std.specs.Prelude.{◌≡◌, ◌&&◌, ◌||◌, not};
ghost use Rattle.xn_model.specs.Lists.{has_number, has_pair};
ghost use Rattle.claims.specs.Owners.{are_allowed, is_claimed, is_owned_pair};

use crate::distinct::has_number;
use crate::pairs::{has_pair, is_inside};
use block_cache::Cache;

/// Whether a pair is a block that another owns, with its type.
fn is_owned_pair(cache: &Cache, owner: u32, pair: (u32, u32)) -> bool
    ensures { result ≡ is_owned_pair cache.now owner pair }
{
    match cache.facts(pair.0) {
        Some(facts) => facts.is_owned_by(owner) && facts.ty == pair.1,
        None => false,
    }
}

/// Whether a block may point to a pair once an edit is made: it owns that block and does not drop it, or adds it.
fn is_allowed(
    cache: &Cache,
    owner: u32,
    adds: &[(u32, u32)],
    drops: &[u32],
    pair: (u32, u32),
) -> bool
    ensures { result ≡ ((is_owned_pair cache.now owner pair && not (has_number drops.now pair.0)) || has_pair adds.now pair) }
{
    (is_owned_pair(cache, owner, pair) && !has_number(drops, pair.0)) || has_pair(adds, pair)
}

/// Whether a block may point to each of these pairs once an edit is made.
fn are_allowed(
    cache: &Cache,
    owner: u32,
    adds: &[(u32, u32)],
    drops: &[u32],
    pairs: &[(u32, u32)],
) -> bool
    ensures { result ≡ are_allowed cache.now owner adds.now drops.now pairs.now }
{
    pairs
        .iter()
        .all(|pair| is_allowed(cache, owner, adds, drops, *pair))
}

/// Whether the pairs of a block's new bytes are those that it owns without the drops and with the adds. The block owns so
/// many, each added block was never owned, it owns each dropped one, and none of all these stands twice: then the statuses of
/// the blocks and the count tell it without the old bytes.
pub fn is_claimed(
    cache: &Cache,
    owner: u32,
    owns: u32,
    pairs: &[(u32, u32)],
    adds: &[(u32, u32)],
    drops: &[u32],
) -> bool
    ensures { result ≡ is_claimed cache.now owner owns pairs.now adds.now drops.now }
{
    let is_count = pairs.len() + drops.len() == owns as usize + adds.len();
    is_count && is_inside(adds, pairs) && are_allowed(cache, owner, adds, drops, pairs)
}
