// How the end of a directory's name is carried out.

ghost use Rattle.std.specs.Prelude.{◌≡◌, ◌∷◌, [], ◌++◌, IfOk, map};
ghost use Rattle.treefs_model.specs.Acts.{wait_act};
ghost use Rattle.treefs_name_plans.specs.Removals.{first_of, removal_acts};

use crate::removal::RemovalPlan;
use std::alloc::{AllocError, Global};
use treefs_edits::fronts::behind;
use treefs_edits::{Act, ActsAlone, kinds};

/// The first of some blocks.
fn first_of(blocks: &[u32]) -> Option<u32>
    ensures { result ≡ first_of blocks.now }
{
    match blocks {
        [first, ..] => Some(*first),
        [] => None,
    }
}

/// Adds the waits of a block, whose byte 0 is `first`, for others.
fn push_waits(
    alloc: Global,
    acts: &mut Vec<Act>,
    block: u32,
    first: u8,
    others: &[u32],
) -> Result<(), AllocError>
    ensures { IfOk result (λ _. acts.new.items ≡ acts.old.items ++ map (wait_act block (first ∷ [])) others.now) }
{
    for other in others {
        acts.push(kinds::wait(alloc, block, first, *other)?)?;
    }
    Ok(())
}

impl ActsAlone for RemovalPlan {
    ghost acts_of = { removal_acts };

    fn push_alone(&self, alloc: Global, acts: &mut Vec<Act>) -> Result<(), AllocError> {
        let pending = self.pending.as_slice();
        let others = behind(pending, 1);
        push_waits(alloc, acts, self.end.block, self.first, others)?;
        self.end.push_acts(alloc, acts, first_of(pending))
    }
}
