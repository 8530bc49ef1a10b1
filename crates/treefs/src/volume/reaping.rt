// The call that frees inodes without links.

ghost use Rattle.std.specs.Prelude.{◌≡◌};
ghost use Rattle.treefs.specs.Reaping.{ReapDoes};

use crate::reaping::{empty_all, free_all};
use crate::volume::Volume;
use std::alloc::Global;
use treefs_model::Fault;
use xn_state::Store;

impl Volume {
    /// Frees the inodes of some numbers: each is trimmed to nothing, in the order given, and then their blocks are dropped, all those by one edit whose
    /// pointers stand in one block. A number whose inode has links, or that has none, is passed over: so where the call stopped it is made again with the
    /// same numbers. The faults are those of `trim`, and `Full` before one of these edits; what was done before stays done, and the session remembers it.
    /// `Kernel` comes for want of memory, or where the store refuses an edit.
    pub fn reap<S: Store>(
        &mut self,
        alloc: Global,
        store: &mut S,
        numbers: &[u32],
    ) -> Result<(), Fault>
        ensures types { S.types_of store.new ≡ S.types_of store.old }
        ensures does { ReapDoes (S.types_of store.old) (S.state_of store.old) (S.state_of store.new) self.old self.new numbers.now result }
    {
        let tree = self.tree;
        let memory = &mut self.memory;
        if let Err(fault) = empty_all(alloc, store, tree, memory, numbers) {
            return Err(fault);
        }
        free_all(alloc, store, tree, memory, numbers)
    }
}
