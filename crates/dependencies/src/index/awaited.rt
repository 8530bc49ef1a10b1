// Which block another one waits for.

ghost use Rattle.std.specs.Prelude.{◌≡◌, is_some};
ghost use Rattle.xn_model.specs.Lives.{life_at};
ghost use Rattle.xn_model.specs.Calls.{is_tainted};
ghost use Rattle.dependencies.specs.Awaits.{awaited_in};
ghost use Rattle.dependencies.specs.Index.{IsIndex};
ghost use Rattle.dependencies.specs.Typed.{FindsTypes};

use crate::index::Index;
use crate::unmet::unmet_at;
use block_cache::Cache;

impl Index {
    /// The block that the first entry of a block waits for which may not be written yet.
    pub fn awaited(&self, cache: &Cache, block: u32) -> Option<u32>
        requires index { IsIndex cache.now self.now }
        requires typed { FindsTypes cache.now }
        ensures block { result ≡ awaited_in cache.now (life_at cache.now block) }
        ensures waits { is_some result ≡ is_tainted cache.now (life_at cache.now block) }
    {
        for place in 0..cache.pending(block) {
            if let Some(other) = unmet_at(cache, &self.dirty, &self.homes, block, place) {
                return Some(other);
            }
        }
        None
    }
}
