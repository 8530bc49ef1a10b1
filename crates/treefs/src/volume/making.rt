// The call that makes a volume.

ghost use Rattle.std.specs.Prelude.{◌≡◌};
ghost use Rattle.treefs.specs.Making.{MkfsDoes};

use crate::block_types::BlockTypes;
use crate::making::{FirstPlan, fresh_memory, prepare_root};
use crate::volume::Volume;
use edit_list::Fs;
use std::alloc::Global;
use treefs_edits::{Tree, carry_out};
use treefs_model::Fault;
use xn_state::Store;

impl Volume {
    /// Makes a volume whose top directory is empty, and answers it: inode 0 becomes the root of the file system, and inode 1 is attached to it. A root that is
    /// there, and has no inode 1, is kept with the key that it has: so a volume that was half made is finished. The faults are, in this order, `Kernel`(19)
    /// where the root has another type, `Exists` where it has an inode 1, `NoSpace`. Other faults `Kernel` come for want of memory, or where the store refuses
    /// a call; blocks that nothing names are forgotten then.
    pub fn mkfs<S: Store>(
        alloc: Global,
        store: &mut S,
        fs: Fs,
        types: BlockTypes,
        key: &[u8; 16],
        time: i64,
    ) -> Result<Volume, Fault>
        ensures types { S.types_of store.new ≡ S.types_of store.old }
        ensures does { MkfsDoes (S.types_of store.old) (S.state_of store.old) (S.state_of store.new) fs types key.now time result }
    {
        let top = match prepare_root(store, fs, types, key) {
            Ok(top) => top,
            Err(fault) => return Err(fault),
        };
        let tree = Tree {
            fs,
            top,
            node_type: types.node,
            inode_type: types.inode,
        };
        let plan = FirstPlan { tree, time };
        if let Err(fault) = carry_out(alloc, store, fs, &plan) {
            return Err(fault);
        }
        Ok(Volume {
            tree,
            memory: fresh_memory(alloc, time),
        })
    }
}
