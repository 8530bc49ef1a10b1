// The calls on names.

ghost use Rattle.std.specs.Prelude.{◌≡◌, ◌≤◌, length, Ok};
ghost use Rattle.treefs_edits.specs.Plans.{Does};
ghost use Rattle.treefs_name_plans.specs.LinkPlans.{link_plan};
ghost use Rattle.treefs.specs.Linking.{LinkDoes, linked_volume};
ghost use Rattle.treefs.specs.Unlinking.{RmdirDoes, UnlinkDoes, ended_volume};

use crate::memory::{
    make_room, make_rooms, note_orphan, now_times, record_entry, touch_end, touch_link,
};
use crate::volume::Volume;
use std::alloc::Global;
use treefs_edits::{Planned, carry_out};
use treefs_model::Fault;
use treefs_name_plans::{LinkPlan, Linking, NameEnd, plan_link, plan_rmdir, plan_unlink};
use xn_state::Store;

impl Volume {
    /// Takes the name of a file or a symbolic link out of a directory; where it was the last one, its inode is an orphan. The faults are, in
    /// this order, those of the directory (`NoEntry`, `NotDir`, `NoEntry` where it has no link), `BadName`, `NoEntry`, `IsDir`, `Full`. `Kernel`
    /// comes for want of memory, where nothing is done, or where the store refuses an edit.
    pub fn unlink<S: Store>(
        &mut self,
        alloc: Global,
        store: &mut S,
        directory: u32,
        name: &[u8],
    ) -> Result<(), Fault>
        ensures types { S.types_of store.new ≡ S.types_of store.old }
        ensures does { UnlinkDoes (S.types_of store.old) (S.state_of store.old) (S.state_of store.new) self.old self.new directory name.now result }
    {
        match plan_unlink(store, self.tree, &self.memory, directory, name) {
            Ok(plan) => self.end_name(alloc, store, directory, &plan, &plan.end),
            Err(fault) => Err(fault),
        }
    }

    /// Takes the name of an empty directory out of another one; its inode is an orphan then. The faults are, in this order, those of the directory
    /// (`NoEntry`, `NotDir`, `NoEntry` where it has no link), `BadName`, `NoEntry`, `NotDir`, `NotEmpty`, `Full`. `Kernel` comes for want of
    /// memory, where nothing is done, or where the store refuses an edit.
    pub fn rmdir<S: Store>(
        &mut self,
        alloc: Global,
        store: &mut S,
        directory: u32,
        name: &[u8],
    ) -> Result<(), Fault>
        ensures types { S.types_of store.new ≡ S.types_of store.old }
        ensures does { RmdirDoes (S.types_of store.old) (S.state_of store.old) (S.state_of store.new) self.old self.new directory name.now result }
    {
        match plan_rmdir(store, self.tree, &self.memory, directory, name) {
            Ok(plan) => self.end_name(alloc, store, directory, &plan, &plan.end),
            Err(fault) => Err(fault),
        }
    }

    /// Ends a name of a directory, as it was planned.
    fn end_name<S: Store, P: Planned>(
        &mut self,
        alloc: Global,
        store: &mut S,
        directory: u32,
        planned: &P,
        end: &NameEnd,
    ) -> Result<(), Fault>
        ensures types { S.types_of store.new ≡ S.types_of store.old }
        ensures does { Does (S.types_of store.old) self.old.tree.fs.number (P.plan planned.now) (S.state_of store.old) (S.state_of store.new) result }
        ensures volume { self.new ≡ ended_volume self.old directory (Ok end.now) result }
    {
        let tree = self.tree;
        let memory = &mut self.memory;
        make_rooms(&mut memory.touched, 1, &mut memory.orphans)?;
        carry_out(alloc, store, tree.fs, planned)?;
        let now = now_times(memory);
        touch_end(&mut memory.touched, now, directory, end);
        note_orphan(&mut memory.orphans, end);
        Ok(())
    }

    /// Gives a file or a symbolic link one more name, in a directory. The faults are, in this order, those of the directory (`NoEntry`, `NotDir`,
    /// `NoEntry` where it has no link), of the inode `NoEntry`, `IsDir`, and `NoEntry` where it has no link, `BadName`, `Exists`, `Full` or `TooLarge`
    /// where there is no place for the name, `TooLarge` where the inode has 2^32 - 1 links, `Full`, `NoSpace`. `Kernel` comes for want of memory,
    /// or where the store refuses an edit.
    pub fn link<S: Store>(
        &mut self,
        alloc: Global,
        store: &mut S,
        number: u32,
        directory: u32,
        name: &[u8],
    ) -> Result<(), Fault>
        ensures types { S.types_of store.new ≡ S.types_of store.old }
        ensures does { LinkDoes (S.types_of store.old) (S.state_of store.old) (S.state_of store.new) self.old self.new number directory name.now result }
    {
        match plan_link(store, self.tree, &self.memory, number, directory, name) {
            Ok(plan) => self.add_name(alloc, store, directory, name, plan),
            Err(fault) => Err(fault),
        }
    }

    /// Gives an inode one more name, in a directory, as it was planned.
    fn add_name<S: Store>(
        &mut self,
        alloc: Global,
        store: &mut S,
        directory: u32,
        name: &[u8],
        plan: LinkPlan,
    ) -> Result<(), Fault>
        requires { length name.now ≤ 255 }
        ensures types { S.types_of store.new ≡ S.types_of store.old }
        ensures does { Does (S.types_of store.old) self.old.tree.fs.number (link_plan name.now plan) (S.state_of store.old) (S.state_of store.new) result }
        ensures volume { self.new ≡ linked_volume (S.state_of store.new) self.old directory (Ok plan) result }
    {
        let tree = self.tree;
        let memory = &mut self.memory;
        make_room(&mut memory.touched, 1)?;
        carry_out(alloc, store, tree.fs, &Linking { plan, name })?;
        let now = now_times(memory);
        let last_link = record_entry(
            store,
            tree.fs,
            plan.directory,
            &plan.addition,
            memory.last_link,
        );
        touch_link(&mut memory.touched, now, directory, plan.number);
        memory.last_link = last_link;
        Ok(())
    }
}
