// Where the owners of a block's owners end.

ghost use Rattle.std.specs.Prelude.{◌≡◌, ◌==◌};
ghost use Rattle.std.specs.List.{list_any};
ghost use Rattle.xn_model.specs.Lives.{chain_end};

use crate::counts::owner_in;
use block_cache::Cache;

/// The block at which the chain of owners of a block ends: the block itself, if it has no owner. It takes a step for each
/// owner, and no more than there are blocks.
pub fn chain_end(cache: &Cache, block: u32) -> u32
    ensures { result ≡ chain_end cache.now block }
{
    let mut at = block;
    for _ in 0..cache.blocks() {
        match owner_in(cache.facts(at)) {
            Some(owner) => at = owner,
            None => return at,
        }
    }
    at
}

/// Whether one of these pairs names a block.
pub fn names(pairs: &[(u32, u32)], block: u32) -> bool
    ensures { result ≡ list_any (λ pair. pair.0 == block) pairs.now }
{
    pairs.iter().any(|pair| pair.0 == block)
}
