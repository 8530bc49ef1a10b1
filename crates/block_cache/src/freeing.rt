// The end of a write, with the blocks that it frees.

ghost use Rattle.std.specs.Prelude.{◌≡◌, ◌≢◌, ◌<◌, ◌≤◌, ◌^◌, length, All, slice_get};
ghost use Rattle.xn_model.specs.Lives.{life_at, settled_at, freed, drops_of};
ghost use Rattle.xn_model.specs.Calls.{life_pending, first_pending};
ghost use Rattle.block_cache.specs.Views.{drops_at, ended};

use crate::cache::Cache;

impl Cache {
    /// Ends a write of a block that made its first entries durable, and the lives of the blocks that these drop. Says how
    /// many those are.
    pub fn settle_and_free(&mut self, block: u32, count: u32) -> u32
        requires within { count ≤ life_pending (life_at self.old block) }
        requires few { count ≤ 64 }
        requires apart { All (λ c. c ≢ block) (drops_of (first_pending count (life_at self.old block))) }
        ensures freed { result ≡ length (drops_of (first_pending count (life_at self.old block))) }
        ensures lives { self.new ≡ freed (settled_at self.old block count) (drops_of (first_pending count (life_at self.old block))) }
    {
        let mut freed = 0;
        for place in 0..count {
            freed += self.free_dropped(block, place as usize);
        }
        self.settle(block, count);
        freed
    }

    /// Ends the lives of the blocks that the entry at a place drops.
    fn free_dropped(&mut self, block: u32, place: usize) -> u32
        requires { All (λ c. c ≢ block) (drops_at place (life_at self.old block)) }
        ensures freed { result ≡ length (drops_at place (life_at self.old block)) }
        ensures few { result ≤ 128 }
        ensures lives { self.new ≡ freed self.old (drops_at place (life_at self.old block)) }
    {
        let count = self.drop_count(block, place);
        for index in 0..count {
            let dropped = self.dropped(block, place, index);
            self.end_if(dropped);
        }
        count as u32
    }

    /// Ends the life of a block, if there is one.
    fn end_if(&mut self, block: Option<u32>)
        ensures { self.new ≡ ended self.old block }
    {
        if let Some(block) = block {
            self.end(block);
        }
    }

    /// How many blocks the entry at a place drops.
    fn drop_count(&self, block: u32, place: usize) -> usize
        ensures count { result ≡ length (drops_at place (life_at self.now block)) }
        ensures few { result ≤ 128 }
    {
        match self.claim(block, place) {
            Some(claim) => claim.drops().len(),
            None => 0,
        }
    }

    /// One of the blocks that the entry at a place drops.
    fn dropped(&self, block: u32, place: usize, index: usize) -> Option<u32>
        ensures { result ≡ slice_get (drops_at place (life_at self.now block)) index }
    {
        match self.claim(block, place) {
            Some(claim) => claim.drops().get(index).copied(),
            None => None,
        }
    }
}
