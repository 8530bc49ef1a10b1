// The calls that set attributes and times of inodes.

ghost use Rattle.std.specs.Prelude.{◌≡◌};
ghost use Rattle.treefs_byte_plans.specs.Attributes.{attributes_plan};
ghost use Rattle.treefs_edits.specs.Plans.{Does};
ghost use Rattle.treefs.specs.Setting.{AttributesDoes, MtimeDoes, attributes_volume, mtime_planned};

use crate::memory::make_room;
use crate::volume::Volume;
use std::alloc::Global;
use treefs_byte_plans::{Attributes, AttributesPlan, plan_attributes};
use treefs_edits::memory::{forget_touch, touch};
use treefs_edits::{Memory, Times, Tree, carry_out, has_room};
use treefs_lookup::find_inode;
use treefs_model::Fault;
use xn_state::Store;

/// Whether there is room for the edit by which a flush writes the times of an inode. The faults are `NoEntry` and `Full`.
fn ask_for_touch<S: Store>(store: &S, tree: Tree, memory: &Memory, number: u32) -> Result<(), Fault>
    ensures { result ≡ mtime_planned (S.state_of store.now) tree memory.now number }
{
    let found = find_inode(store, tree.fs, tree.top, number)?;
    if !has_room(store, tree.fs, memory.touched.len(), 1, &[(found.block, 1)]) {
        return Err(Fault::Full);
    }
    Ok(())
}

impl Volume {
    /// Sets those of the permissions, the owner and the time of the last change of the content that are told, by one edit. The faults are `NoEntry`, and `Full`
    /// where there is no room. `Kernel` comes for want of memory, where nothing is done, or where the store refuses the edit.
    pub fn set_attributes<S: Store>(
        &mut self,
        alloc: Global,
        store: &mut S,
        number: u32,
        attributes: Attributes,
    ) -> Result<(), Fault>
        ensures types { S.types_of store.new ≡ S.types_of store.old }
        ensures does { AttributesDoes (S.types_of store.old) (S.state_of store.old) (S.state_of store.new) self.old self.new number attributes result }
    {
        match plan_attributes(store, self.tree, &self.memory, number, attributes) {
            Ok(plan) => self.set_planned(alloc, store, number, &plan),
            Err(fault) => Err(fault),
        }
    }

    /// Sets attributes of an inode, as it was planned.
    fn set_planned<S: Store>(
        &mut self,
        alloc: Global,
        store: &mut S,
        number: u32,
        plan: &AttributesPlan,
    ) -> Result<(), Fault>
        ensures types { S.types_of store.new ≡ S.types_of store.old }
        ensures does { Does (S.types_of store.old) self.old.tree.fs.number (attributes_plan plan.now) (S.state_of store.old) (S.state_of store.new) result }
        ensures volume { self.new ≡ attributes_volume self.old number result }
    {
        let fs = self.tree.fs;
        let memory = &mut self.memory;
        carry_out(alloc, store, fs, plan)?;
        forget_touch(&mut memory.touched, number);
        Ok(())
    }

    /// Sets when the content of an inode changed, which a flush writes. The faults are `NoEntry`, and `Full` where there is no room for that edit. `Kernel`
    /// comes for want of memory.
    pub fn set_mtime<S: Store>(&mut self, store: &S, number: u32, mtime: i64) -> Result<(), Fault>
        ensures { MtimeDoes (S.state_of store.now) self.old self.new number mtime result }
    {
        let tree = self.tree;
        let memory = &mut self.memory;
        ask_for_touch(store, tree, memory, number)?;
        make_room(&mut memory.touched, 1)?;
        let times = Times {
            mtime,
            ctime: memory.clock,
        };
        touch(&mut memory.touched, number, times);
        Ok(())
    }
}
