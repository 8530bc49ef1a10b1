// How one more name of an inode is carried out.

ghost use Rattle.std.specs.Prelude.{◌≡◌, ◌≤◌, ◌++◌, length, IfOk};
ghost use Rattle.treefs_name_plans.specs.LinkPlans.{link_acts, link_plan};

use crate::link_plan::LinkPlan;
use std::alloc::{AllocError, Global};
use treefs_edits::{Act, Planned, Start};

/// One more name of an inode.
#[derive(Clone, Copy)]
pub struct Linking<'a> {
    /// What it takes.
    pub plan: LinkPlan,
    /// The name.
    pub name: &'a [u8],
    ghost short: { length name.now ≤ 255 },
}

impl LinkPlan {
    /// Adds the acts, where these blocks were begun.
    fn push_acts(
        &self,
        alloc: Global,
        acts: &mut Vec<Act>,
        name: &[u8],
        begun: &[u32],
    ) -> Result<(), AllocError>
        requires { length name.now ≤ 255 }
        ensures { IfOk result (λ _. acts.new.items ≡ acts.old.items ++ link_acts self.now name.now begun.now) }
    {
        let addition = &self.addition;
        addition.push_rewriting(alloc, acts)?;
        self.more.push_act(alloc, acts, self.holder)?;
        addition.push_acts(alloc, acts, begun, self.number, name, self.more.block)
    }
}

impl<'a> Planned for Linking<'a> {
    ghost plan = { λ linking. link_plan linking.name.now linking.plan };

    fn push_starts(&self, starts: &mut Vec<Start>) -> Result<(), AllocError> {
        self.plan.addition.push_starts(starts)
    }

    fn push_acts(
        &self,
        alloc: Global,
        acts: &mut Vec<Act>,
        begun: &[u32],
    ) -> Result<(), AllocError> {
        self.plan.push_acts(alloc, acts, self.name, begun)
    }
}
