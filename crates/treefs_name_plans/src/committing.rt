// How a new inode gets its first name, or the place of another one.

ghost use Rattle.std.specs.Prelude.{◌≡◌, ◌≤◌, ◌-◌, ◌∷◌, ◌++◌, [], length, slice_index, IfOk, Some};
ghost use Rattle.treefs_edits.specs.Missing.{node_acts};
ghost use Rattle.treefs_model.specs.Acts.{attach_act};
ghost use Rattle.treefs_name_plans.specs.CommitPlans.{commit_acts, commit_acts_of, commit_plan, commit_starts, table_nodes, table_path};

use crate::commit_plan::CommitPlan;
use arrayvec::ArrayVec;
use std::alloc::{AllocError, Global};
use treefs_edits::fronts::{behind, front, offset_at};
use treefs_edits::missing::missing_path;
use treefs_edits::nodes::{last_or_owner, push_node_acts, push_node_starts};
use treefs_edits::{Act, Planned, Start, kinds};

/// An inode that is begun gets its first name, or the place of another one.
#[derive(Clone, Copy)]
pub struct Committing<'a> {
    /// What it takes.
    pub plan: CommitPlan,
    /// The block of the inode.
    pub inode: u32,
    /// The name.
    pub name: &'a [u8],
    ghost short: { length name.now ≤ 255 },
}

impl CommitPlan {
    /// The pointers of the table's path that are missing.
    fn table_path(&self) -> ArrayVec<u16, 5>
        ensures { result.items ≡ table_path self.now }
    {
        missing_path(self.number.saturating_sub(1), self.missing)
    }

    /// Adds the blocks that are begun.
    pub(crate) fn push_starts(&self, starts: &mut Vec<Start>) -> Result<(), AllocError>
        ensures { IfOk result (λ _. starts.new.items ≡ starts.old.items ++ commit_starts self.now) }
    {
        let offsets = self.table_path();
        let nodes = front(offsets.as_slice(), self.missing.saturating_sub(1));
        push_node_starts(starts, self.node_type, self.inode_type, nodes)?;
        self.naming.push_starts(starts)
    }

    /// Adds the acts by which the inode is attached to a block, which is the last of the table's path to it.
    fn push_table_acts(
        &self,
        alloc: Global,
        acts: &mut Vec<Act>,
        inode: u32,
        nodes: &[u32],
        holder: u32,
    ) -> Result<(), AllocError>
        ensures { IfOk result (λ _. acts.new.items
            ≡ acts.old.items ++ (node_acts self.now.node_type self.now.inode_type self.now.owner (table_nodes self.now) nodes.now
            ++ attach_act holder (slice_index (table_path self.now) (self.now.missing - 1)) self.now.inode_type (inode ∷ []) (Some inode) ∷ [])) }
    {
        let offsets = self.table_path();
        let last = self.missing.saturating_sub(1);
        push_node_acts(
            alloc,
            acts,
            self.node_type,
            self.inode_type,
            self.owner,
            front(offsets.as_slice(), last),
            nodes,
        )?;
        let offset = offset_at(offsets.as_slice(), last);
        self.push_attach(alloc, acts, inode, holder, offset)
    }

    /// Adds the act by which the inode is attached to a block, by the pointer at an offset.
    fn push_attach(
        &self,
        alloc: Global,
        acts: &mut Vec<Act>,
        inode: u32,
        holder: u32,
        offset: u16,
    ) -> Result<(), AllocError>
        ensures { IfOk result (λ _. acts.new.items
            ≡ acts.old.items ++ attach_act holder offset self.now.inode_type (inode ∷ []) (Some inode) ∷ []) }
    {
        let ty = u32::from(self.inode_type);
        acts.push(kinds::attach(alloc, holder, offset, ty, &[inode], Some(inode))?)?;
        Ok(())
    }

    /// Adds the acts, where these blocks were begun: the nodes of the table, and those for the record.
    fn push_acts_of(
        &self,
        alloc: Global,
        acts: &mut Vec<Act>,
        name: &[u8],
        inode: u32,
        nodes: &[u32],
        others: &[u32],
    ) -> Result<(), AllocError>
        requires { length name.now ≤ 255 }
        ensures { IfOk result (λ _. acts.new.items ≡ acts.old.items ++ commit_acts_of self.now name.now inode nodes.now others.now) }
    {
        let holder = last_or_owner(self.owner, nodes);
        self.naming.push_rewriting(alloc, acts)?;
        self.push_table_acts(alloc, acts, inode, nodes, holder)?;
        self.naming
            .push_acts(alloc, acts, others, self.number, name, holder)?;
        self.naming.push_ends(alloc, acts)
    }

    /// Adds the acts, where these blocks were begun.
    pub(crate) fn push_acts(
        &self,
        alloc: Global,
        acts: &mut Vec<Act>,
        name: &[u8],
        inode: u32,
        begun: &[u32],
    ) -> Result<(), AllocError>
        requires { length name.now ≤ 255 }
        ensures { IfOk result (λ _. acts.new.items ≡ acts.old.items ++ commit_acts self.now name.now inode begun.now) }
    {
        let offsets = self.table_path();
        let nodes = front(offsets.as_slice(), self.missing.saturating_sub(1)).len();
        self.push_acts_of(
            alloc,
            acts,
            name,
            inode,
            front(begun, nodes),
            behind(begun, nodes),
        )
    }
}

impl<'a> Planned for Committing<'a> {
    ghost plan = { λ committing. commit_plan committing.name.now committing.inode committing.plan };

    fn push_starts(&self, starts: &mut Vec<Start>) -> Result<(), AllocError> {
        self.plan.push_starts(starts)
    }

    fn push_acts(
        &self,
        alloc: Global,
        acts: &mut Vec<Act>,
        begun: &[u32],
    ) -> Result<(), AllocError> {
        self.plan
            .push_acts(alloc, acts, self.name, self.inode, begun)
    }
}
