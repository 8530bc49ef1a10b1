// Whether an edit leaves what decides which blocks its block owns.

ghost use Rattle.std.specs.Prelude.{◌↔◌, All, IsTrue};
ghost use Rattle.std.specs.List.{list_all};
ghost use Rattle.xn_model.specs.Calls.{is_patch, within_limits};
ghost use Rattle.claims.specs.Decided.{WritesApart, Leaves};

use edit_list::{Edit, Patch};
use udf_run::ReadSet;

/// Whether an edit adds and drops nothing, and writes into no chunk of a set.
pub fn leaves(reads: ReadSet, edit: &Edit) -> bool
    requires { IsTrue (within_limits edit.now) }
    ensures { IsTrue result ↔ Leaves reads.chunks edit.now }
{
    edit.adds().is_empty() && edit.drops().is_empty() && are_apart(reads, &edit.patches)
}

/// Whether patches write into no chunk of a set.
pub fn are_apart(reads: ReadSet, patches: &[Patch]) -> bool
    requires { IsTrue (list_all is_patch patches.now) }
    ensures { IsTrue result ↔ All (WritesApart reads.chunks) patches.now }
{
    for patch in patches {
        if !is_apart(reads, patch) {
            return false;
        }
    }
    true
}

/// Whether a patch writes into no chunk of a set.
fn is_apart(reads: ReadSet, patch: &Patch) -> bool
    requires { IsTrue (is_patch patch.now) }
    ensures { IsTrue result ↔ WritesApart reads.chunks patch.now }
{
    let first = usize::from(patch.offset);
    reads.is_apart(first, first + patch.bytes.len() - 1)
}
