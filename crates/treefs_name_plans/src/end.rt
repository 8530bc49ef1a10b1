// A file's name ends.

ghost use Rattle.treefs_name_plans.specs.Ends.{end_acts};

use crate::name_end::NameEnd;
use std::alloc::{AllocError, Global};
use treefs_edits::{Act, ActsAlone};

/// A file's name ends, behind another name of its inode where it has to be.
#[derive(Clone, Copy)]
pub struct EndPlan {
    /// The record and the inode.
    pub end: NameEnd,
    /// The block of the other name behind which it ends, if it has to.
    pub behind: Option<u32>,
}

impl ActsAlone for EndPlan {
    ghost acts_of = { λ p. end_acts p.end p.behind };

    fn push_alone(&self, alloc: Global, acts: &mut Vec<Act>) -> Result<(), AllocError> {
        self.end.push_acts(alloc, acts, self.behind)
    }
}
