// The call that writes the times that no edit has written yet.

ghost use Rattle.std.specs.Prelude.{◌≡◌};
ghost use Rattle.treefs.specs.WritingTimes.{WriteTimesDoes};

use crate::volume::Volume;
use crate::writing_times::write_all;
use std::alloc::Global;
use treefs_model::Fault;
use xn_state::Store;

impl Volume {
    /// Writes the times of the inodes that were touched since an edit wrote them, in the order in which they were first touched, each by one edit. Each is not
    /// touched any more then, nor is one that is not there any more. The fault is `Full` where the block of an inode has 64 pending entries; `Kernel` comes
    /// for want of memory, or where the store refuses an edit. What was written before stays written.
    pub fn write_times<S: Store>(&mut self, alloc: Global, store: &mut S) -> Result<(), Fault>
        ensures types { S.types_of store.new ≡ S.types_of store.old }
        ensures does { WriteTimesDoes (S.types_of store.old) (S.state_of store.old) (S.state_of store.new) self.old self.new result }
    {
        let tree = self.tree;
        let memory = &mut self.memory;
        write_all(alloc, store, tree, &mut memory.touched)
    }
}
