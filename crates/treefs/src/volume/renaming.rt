// The call that moves a name.

ghost use Rattle.std.specs.Prelude.{◌≡◌, ◌≤◌, length, Ok, Some};
ghost use Rattle.treefs_edits.specs.Plans.{Does};
ghost use Rattle.treefs_name_plans.specs.RenamePlans.{rename_plan};
ghost use Rattle.treefs.specs.Renaming.{RenameDoes, renamed_volume};

use crate::memory::{make_rooms, moved_entry, note_replaced, now_times, touch_rename};
use crate::volume::Volume;
use std::alloc::Global;
use treefs_edits::carry_out;
use treefs_model::Fault;
use treefs_name_plans::{RenamePlan, Renaming, plan_rename};
use xn_state::Store;

impl Volume {
    /// Moves a name of a directory to another one, maybe of another directory; what has the new name loses it, and its inode is an orphan where that was
    /// its last name. Nothing is done where both names lead to the same inode. The faults are, in this order, those of both directories (`NoEntry`,
    /// `NotDir`, `NoEntry` where one has no link), `BadName`, `NoEntry`, `Cycle` where a directory would stand below itself; of what has the new name
    /// `IsDir` or `NotDir` where only one of both is a directory, `NotEmpty`, and `Full` where something has to be written before it goes; `Full` where
    /// a directory that was made or moved has to be written first, `Full` or `TooLarge` where there is no place for the name, `TooLarge` where the inode
    /// has 2^32 - 1 links, `Full`, `NoSpace`. `Kernel` comes for want of memory, or where the store refuses an edit.
    pub fn rename<S: Store>(
        &mut self,
        alloc: Global,
        store: &mut S,
        directory: u32,
        name: &[u8],
        new_directory: u32,
        new_name: &[u8],
    ) -> Result<(), Fault>
        ensures types { S.types_of store.new ≡ S.types_of store.old }
        ensures does { RenameDoes (S.types_of store.old) (S.state_of store.old) (S.state_of store.new) self.old self.new directory name.now new_directory
            new_name.now result }
    {
        match plan_rename(
            store,
            self.tree,
            &self.memory,
            directory,
            name,
            new_directory,
            new_name,
        ) {
            Ok(Some(plan)) => {
                self.move_name(alloc, store, directory, new_directory, new_name, plan)
            }
            Ok(None) => Ok(()),
            Err(fault) => Err(fault),
        }
    }

    /// Moves a name of a directory to another one, as it was planned.
    fn move_name<S: Store>(
        &mut self,
        alloc: Global,
        store: &mut S,
        directory: u32,
        new_directory: u32,
        new_name: &[u8],
        plan: RenamePlan,
    ) -> Result<(), Fault>
        requires { length new_name.now ≤ 255 }
        ensures types { S.types_of store.new ≡ S.types_of store.old }
        ensures does { Does (S.types_of store.old) self.old.tree.fs.number (rename_plan new_name.now plan) (S.state_of store.old) (S.state_of store.new)
            result }
        ensures volume { self.new ≡ renamed_volume (S.state_of store.new) self.old directory new_directory (Ok (Some plan)) result }
    {
        let tree = self.tree;
        let memory = &mut self.memory;
        make_rooms(&mut memory.touched, 3, &mut memory.orphans)?;
        let renaming = Renaming {
            plan,
            name: new_name,
        };
        carry_out(alloc, store, tree.fs, &renaming)?;
        let now = now_times(memory);
        let last_dir = moved_entry(store, &plan, memory.last_dir);
        touch_rename(&mut memory.touched, now, directory, new_directory, &plan);
        note_replaced(&mut memory.orphans, &plan.naming);
        memory.last_dir = last_dir;
        Ok(())
    }
}
