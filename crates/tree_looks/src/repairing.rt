// What `check --repair` looks at before the volume is opened to be changed.

use crate::checking::{check, tell_mended};
use flush_store::FlushStore;
use std::alloc::{AllocError, Global};
use std::io::Write;
use tree_lines::{Fault, Reason};
use treefs_check::Finding;
use treefs_edits::Tree;
use treefs_mending::{find_orphans, survey_names};
use xn_state::Store;

/// Whether a repair leaves something that is wrong as it is: it can't be mended by what the names say.
fn stays(finding: &Finding) -> bool {
    matches!(
        finding,
        Finding::NoTop | Finding::NotFound(_) | Finding::TooLong(_)
    )
}

/// How many inodes no name leads to: a repair frees them.
fn count_unnamed<S: Store>(alloc: Global, store: &S, tree: Tree) -> Result<u64, AllocError> {
    let survey = survey_names(alloc, store, tree)?;
    Ok(find_orphans(alloc, store, tree, &survey.tallies)?.len() as u64)
}

/// Prints what is wrong, and answers the fault of a repair that would free so much that has no name.
fn refuse_to_free<S: FlushStore>(
    alloc: Global,
    (store, tree): (&S, Tree),
    unnamed: u64,
    is_json: bool,
    out: &mut impl Write,
) -> Fault {
    match check(alloc, store, tree, is_json, out) {
        Ok(()) | Err(Fault::Faults(_)) => Fault::Volume(Reason::Unnamed(unnamed)),
        Err(fault) => fault,
    }
}

/// Looks at a volume that is to be repaired, prints what will be mended, and answers whether anything is wrong. The fault is `Faults` where damage can't be mended,
/// and `Unnamed` where something without a name would be freed that no crash leaves, so that it may be what a lost name led to: as where the volume was closed, or
/// is damaged. Then all that is wrong is printed.
pub fn look_to_repair<S: FlushStore>(
    alloc: Global,
    (store, tree): (&S, Tree),
    is_closed: bool,
    is_json: bool,
    out: &mut impl Write,
) -> Result<bool, Fault> {
    let found = treefs_check::check(alloc, store, tree)?;
    if found.iter().any(|finding| stays(finding)) {
        check(alloc, store, tree, is_json, out)?;
    }
    if is_closed || found.iter().any(|finding| finding.is_damage()) {
        let unnamed = count_unnamed(alloc, store, tree)?;
        if unnamed > 0 {
            return Err(refuse_to_free(alloc, (store, tree), unnamed, is_json, out));
        }
    }
    if !is_json {
        tell_mended(alloc, (store, tree), &found, out)?;
    }
    Ok(!found.is_empty())
}
