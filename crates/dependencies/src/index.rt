// What is kept beside the lives of all blocks, so that no call walks them all.

ghost use Rattle.std.specs.Prelude.{◌≡◌, ℕ, false, IfOk, is_none, map, replicate, sum_by};
ghost use Rattle.xn_model.specs.Lives.{Lives};
ghost use Rattle.xn_model.specs.Calls.{pending_in};
ghost use Rattle.dependencies.specs.Index.{IsIndex};
ghost use Rattle.dependencies.specs.Pending.{is_dirty};

use crate::candidates::Candidates;
use crate::homes::Homes;
use free_map::{BlockSet, FreeMap};
use std::alloc::{AllocError, Global};
use std::marker::Model;

mod answers;
mod awaited;
mod changes;

/// Which blocks are free, how many pending entries count for each file system and from which number on they lie, for which blocks
/// something is pending, of which of these a write may begin, and in which block each of the newest entries is pending.
pub struct Index {
    free: FreeMap,
    pending: [u32; 32],
    oldest: [u64; 32],
    dirty: BlockSet,
    candidates: Candidates,
    homes: Homes,
}

impl Model for Index {
    ghost use Rattle.dependencies.specs.Index.{IndexValue};

    ghost Value = { IndexValue };

    ghost view = { λ a. record {
      free = a.free;
      pending = a.pending;
      oldest = a.oldest;
      dirty = a.dirty;
      candidates = a.candidates;
      homes = a.homes;
    } };
}

/// Written by hand, so that a function that drops one calls this: a derived drop is proved anew in each such function.
impl Drop for Index {
    fn drop(self) {
        let Index {
            free: _,
            pending: _,
            oldest: _,
            dirty: _,
            candidates: _,
            homes: _,
        } = self;
    }
}

impl Index {
    /// The index of lives of so many blocks, of which these are free and for none of which something is pending.
    pub fn at_rest(alloc: Global, free: FreeMap, blocks: u32) -> Result<Index, AllocError>
        ensures { IfOk result (λ index. (lives : Lives) → free ≡ map is_none lives → replicate blocks false ≡ map is_dirty lives →
            ((fs : ℕ) → sum_by (pending_in fs) lives ≡ 0) → IsIndex lives index) }
    {
        let dirty = BlockSet::new(alloc, blocks)?;
        let candidates = Candidates::new(alloc, blocks)?;
        let homes = Homes::new(alloc, blocks)?;
        Ok(Index {
            free,
            pending: [0; 32],
            oldest: [0; 32],
            dirty,
            candidates,
            homes,
        })
    }
}
