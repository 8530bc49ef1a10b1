// The call that names an inode which was begun.

ghost use Rattle.std.specs.Prelude.{◌≡◌, ◌≤◌, length, Ok, OnOk};
ghost use Rattle.treefs_edits.specs.Plans.{Does};
ghost use Rattle.treefs.specs.Committing.{CommitDoes, IsBegunPlanned, committed_volume};

use crate::memory::{make_rooms, note_replaced, now_times, touch_naming};
use crate::volume::Volume;
use std::alloc::Global;
use treefs_edits::{Memory, Planned, Tree, carry_out};
use treefs_model::Fault;
use treefs_name_plans::{CommitPlan, Committing, plan_commit};
use xn_state::Store;

/// What it takes that an inode which was begun gets a name. The faults are those of `plan_commit`, and the kernel's where the inode's block may not be
/// read.
fn plan_begun<S: Store>(
    store: &S,
    tree: Tree,
    memory: &Memory,
    inode: u32,
    directory: u32,
    name: &[u8],
    replace: bool,
) -> Result<CommitPlan, Fault>
    ensures planned { IsBegunPlanned (S.state_of store.now) tree memory.now inode directory name.now replace result }
    ensures short { OnOk result (length name.now ≤ 255) }
{
    let plan = plan_commit(store, tree, memory, directory, name, replace)?;
    match store.read(tree.fs, inode) {
        Ok(_) => Ok(plan),
        Err(reason) => Err(Fault::Kernel(reason)),
    }
}

impl Volume {
    /// Gives an inode that was begun, whose block is `inode`, a name of a directory, and answers its number. Where `replace` is told, it takes the place
    /// of the file or symbolic link that has the name, whose inode is an orphan where that was its last name. The faults are, in this order, those of the
    /// directory (`NoEntry`, `NotDir`, `NoEntry` where it has no link), `BadName`, `Exists` where a name that is there is not to be replaced, `NoEntry`
    /// where it leads to nothing, `IsDir`, `Full` where another name of the file has to be written first, `Full` or `NoInode` where there is no number,
    /// `Full` or `TooLarge` where there is no place for the name, `Full`, `NoSpace`. `Kernel` comes where the inode's block may not be read, for want of
    /// memory, or where the store refuses an edit.
    pub fn commit<S: Store>(
        &mut self,
        alloc: Global,
        store: &mut S,
        inode: u32,
        directory: u32,
        name: &[u8],
        replace: bool,
    ) -> Result<u32, Fault>
        ensures types { S.types_of store.new ≡ S.types_of store.old }
        ensures does { CommitDoes (S.types_of store.old) (S.state_of store.old) (S.state_of store.new) self.old self.new inode directory name.now replace
            result }
    {
        let (tree, memory) = (self.tree, &self.memory);
        match plan_begun(store, tree, memory, inode, directory, name, replace) {
            Ok(plan) => {
                let naming = Committing { plan, inode, name };
                match self.name_inode(alloc, store, directory, &naming, &plan) {
                    Ok(()) => Ok(plan.number),
                    Err(fault) => Err(fault),
                }
            }
            Err(fault) => Err(fault),
        }
    }

    /// Gives a new inode its first name, as it was planned.
    pub(super) fn name_inode<S: Store, P: Planned>(
        &mut self,
        alloc: Global,
        store: &mut S,
        directory: u32,
        planned: &P,
        plan: &CommitPlan,
    ) -> Result<(), Fault>
        ensures types { S.types_of store.new ≡ S.types_of store.old }
        ensures does { Does (S.types_of store.old) self.old.tree.fs.number (P.plan planned.now) (S.state_of store.old) (S.state_of store.new) result }
        ensures volume { self.new ≡ committed_volume self.old directory (Ok plan.now) result }
    {
        let tree = self.tree;
        let memory = &mut self.memory;
        make_rooms(&mut memory.touched, 1, &mut memory.orphans)?;
        carry_out(alloc, store, tree.fs, planned)?;
        let now = now_times(memory);
        touch_naming(&mut memory.touched, now, directory, &plan.naming);
        note_replaced(&mut memory.orphans, &plan.naming);
        memory.hint = plan.number.saturating_add(1);
        Ok(())
    }
}
