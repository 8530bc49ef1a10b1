// What the end of a name changes.

ghost use Rattle.std.specs.Prelude.{◌≡◌, ◌∷◌, ◌++◌, [], IfOk};
ghost use Rattle.treefs_model.specs.Acts.{number_act};
ghost use Rattle.treefs_name_plans.specs.Ends.{end_acts};

use crate::link_change::LinkChange;
use std::alloc::{AllocError, Global};
use treefs_edits::{Act, kinds};

/// What the end of a name changes: its record leads to its inode no more, and the inode gets a link fewer.
#[derive(Clone, Copy)]
pub struct NameEnd {
    /// The number of the inode.
    pub number: u32,
    /// The block of the record.
    pub block: u32,
    /// The byte at which the record begins.
    pub offset: u16,
    /// What becomes of the inode.
    pub fewer: LinkChange,
}

impl NameEnd {
    /// Adds the acts, the first one behind all of a block, if one is told: the number in the record becomes 0, and then the inode gets a link
    /// fewer.
    pub(crate) fn push_acts(
        &self,
        alloc: Global,
        acts: &mut Vec<Act>,
        behind: Option<u32>,
    ) -> Result<(), AllocError>
        ensures { IfOk result (λ _. acts.new.items ≡ acts.old.items ++ end_acts self.now behind) }
    {
        push_number(alloc, acts, self.block, self.offset, 0, behind)?;
        self.fewer.push_act(alloc, acts, self.block)
    }
}

/// Adds the act by which the number in a record changes, behind all of a block, if one is told.
pub(crate) fn push_number(
    alloc: Global,
    acts: &mut Vec<Act>,
    block: u32,
    offset: u16,
    number: u32,
    behind: Option<u32>,
) -> Result<(), AllocError>
    ensures { IfOk result (λ _. acts.new.items ≡ acts.old.items ++ number_act block offset number behind ∷ []) }
{
    acts.push(kinds::set_number(alloc, block, offset, number, behind)?)?;
    Ok(())
}
