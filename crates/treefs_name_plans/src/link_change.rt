// An inode gets a link more, or one fewer.

ghost use Rattle.std.specs.Prelude.{◌≡◌, ◌∷◌, ◌++◌, [], IfOk};
ghost use Rattle.treefs_name_plans.specs.Links.{link_act};

use std::alloc::{AllocError, Global};
use treefs_edits::{Act, Times, kinds};

/// What an inode is to be that gets a link more, or one fewer.
#[derive(Clone, Copy)]
pub struct LinkChange {
    /// Its block.
    pub block: u32,
    /// Its links from then on.
    pub links: u32,
    /// Its times from then on, where they change.
    pub times: Option<Times>,
    /// The directory that it stands in from then on, where that changes.
    pub parent: Option<u32>,
}

impl LinkChange {
    /// Adds the act, behind all of a block.
    pub(crate) fn push_act(
        &self,
        alloc: Global,
        acts: &mut Vec<Act>,
        behind: u32,
    ) -> Result<(), AllocError>
        ensures { IfOk result (λ _. acts.new.items ≡ acts.old.items ++ link_act self.now behind ∷ []) }
    {
        acts.push(kinds::change_links(
            alloc,
            self.block,
            self.links,
            self.times,
            self.parent,
            Some(behind),
        )?)?;
        Ok(())
    }
}
