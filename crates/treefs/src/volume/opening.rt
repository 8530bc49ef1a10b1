// The calls that open a volume to look at it, and that mark it as closed.

ghost use Rattle.std.specs.Prelude.{◌≡◌};
ghost use Rattle.treefs_edits.specs.Plans.{Does};
ghost use Rattle.treefs_format.specs.Inodes.{content_of};
ghost use Rattle.treefs_format.specs.Roots.{is_clean};
ghost use Rattle.treefs_lookup.specs.Readable.{readable};
ghost use Rattle.treefs.specs.Opening.{mark_plan, opened};

use crate::block_types::BlockTypes;
use crate::making::fresh_memory;
use crate::opening::{MarkPlan, find_root};
use crate::volume::Volume;
use edit_list::Fs;
use std::alloc::Global;
use treefs_edits::{Tree, carry_out};
use treefs_format::inodes::content;
use treefs_format::roots;
use treefs_lookup::read_block;
use treefs_model::Fault;
use xn_state::Store;

impl Volume {
    /// The volume of a file system, to look at it: nothing is mended, and nothing is edited. The fault is `NoEntry` where the file system has no root of the
    /// type of inodes with the mark of a volume and an inode 1.
    pub fn open_to_look<S: Store>(
        alloc: Global,
        store: &S,
        fs: Fs,
        types: BlockTypes,
        time: i64,
    ) -> Result<Volume, Fault>
        ensures { result ≡ opened (S.state_of store.now) fs types time }
    {
        let top = find_root(store, fs, types)?;
        let tree = Tree {
            fs,
            top,
            node_type: types.node,
            inode_type: types.inode,
        };
        Ok(Volume {
            tree,
            memory: fresh_memory(alloc, time),
        })
    }

    /// Whether inode 0 says that the volume is closed.
    pub fn is_closed<S: Store>(&self, store: &S) -> bool
        ensures { result ≡ is_clean (content_of (readable (S.state_of store.now) self.now.tree.fs.number self.now.tree.top)) }
    {
        match read_block(store, self.tree.fs, self.tree.top) {
            Some(block) => roots::is_clean(content(block)),
            None => false,
        }
    }

    /// Lets inode 0 say that the volume is closed, or that it is open, by one edit. The faults are the store's: `Kernel`, where nothing is done.
    pub fn close_mark<S: Store>(
        &self,
        alloc: Global,
        store: &mut S,
        clean: bool,
    ) -> Result<(), Fault>
        ensures types { S.types_of store.new ≡ S.types_of store.old }
        ensures does { Does (S.types_of store.old) self.now.tree.fs.number (mark_plan self.now.tree.top clean) (S.state_of store.old) (S.state_of store.new)
            result }
    {
        let top = self.tree.top;
        carry_out(alloc, store, self.tree.fs, &MarkPlan { top, clean })
    }
}
