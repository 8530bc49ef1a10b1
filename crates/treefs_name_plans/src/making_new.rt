// How a new inode with its first name is carried out.

ghost use Rattle.std.specs.Prelude.{◌≤◌, length};
ghost use Rattle.treefs_name_plans.specs.NewPlans.{new_plan};

use crate::commit_plan::CommitPlan;
use std::alloc::{AllocError, Global};
use store_types::BLOCK_LEN;
use treefs_edits::fronts::{behind, block_at};
use treefs_edits::{Act, Planned, Start};

/// A new inode with its first name.
#[derive(Clone, Copy)]
pub struct MakingNew<'a> {
    /// What its name takes.
    pub plan: CommitPlan,
    /// The bytes of its block.
    pub inode: &'a [u8; BLOCK_LEN],
    /// The name.
    pub name: &'a [u8],
    ghost short: { length name.now ≤ 255 },
}

impl<'a> Planned for MakingNew<'a> {
    ghost plan = { λ making. new_plan making.name.now making.inode.now making.plan };

    fn push_starts(&self, starts: &mut Vec<Start>) -> Result<(), AllocError> {
        starts.reserve_exact(1)?;
        starts.push(Start {
            ty: u32::from(self.plan.inode_type),
            bytes: *self.inode,
        })?;
        self.plan.push_starts(starts)
    }

    fn push_acts(
        &self,
        alloc: Global,
        acts: &mut Vec<Act>,
        begun: &[u32],
    ) -> Result<(), AllocError> {
        let inode = block_at(begun, 0);
        self.plan
            .push_acts(alloc, acts, self.name, inode, behind(begun, 1))
    }
}
