// The check of a volume.

ghost use Rattle.std.specs.Prelude.{IfOk};
ghost use Rattle.treefs_check.specs.Checking.{AreFindings};

use crate::finding::Finding;
use crate::inodes::push_inodes;
use crate::names::{push_surplus, push_top, push_unfound};
use std::alloc::{AllocError, Global};
use treefs_edits::Tree;
use treefs_mending::survey_names;
use xn_state::Store;

/// Tells all that is wrong with a volume as its newest bytes are: whether inode 1 is a directory; names that are one too many; names that look-ups do not find;
/// and of each inode, numbers rising, its links, its parent, its size, and what stands past that. It is strict where there is nothing, which is so once a mount has
/// mended it, and between calls once all is written; a crash leaves nothing that is damage. `Err` comes only for want of memory.
pub fn check<S: Store>(alloc: Global, store: &S, tree: Tree) -> Result<Vec<Finding>, AllocError>
    ensures { IfOk result (λ findings. AreFindings (S.state_of store.now) tree findings.items) }
{
    let survey = survey_names(alloc, store, tree)?;
    let mut findings = Vec::new(alloc);
    push_top(&mut findings, store, tree)?;
    push_surplus(&mut findings, store, tree, &survey.surplus)?;
    push_unfound(&mut findings, store, tree, &survey.directories)?;
    push_inodes(&mut findings, store, tree, &survey)?;
    Ok(findings)
}
