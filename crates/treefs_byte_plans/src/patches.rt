// Acts of several patches.

ghost use Rattle.std.specs.Prelude.{◌≡◌, ◌≢◌, ◌∷◌, ◌++◌, [], IfOk, IsTrue};
ghost use Rattle.treefs_format.specs.Fields.{are_adjoining, changes_patch};
ghost use Rattle.treefs_model.specs.Acts.{patch_act};

use edit_list::{Edit, Patch};
use std::alloc::{AllocError, Global};
use treefs_edits::{Act, Times};
use treefs_format::Change;

/// Patches of a block that change nothing of what it points to.
pub(crate) fn patch_act(alloc: Global, block: u32, patches: Vec<Patch>, behind: Option<u32>) -> Act
    ensures { result ≡ patch_act block patches.items behind }
{
    Act {
        block,
        edit: Edit {
            patches,
            adds: Vec::new(alloc),
            drops: Vec::new(alloc),
            after: None,
        },
        behind,
    }
}

/// Adds the patch of some fields of an inode that stand side by side. `Err` comes only for want of memory.
pub(crate) fn push_changes(
    alloc: Global,
    patches: &mut Vec<Patch>,
    changes: &[Change],
) -> Result<(), AllocError>
    requires some { changes.now ≢ [] }
    requires adjoining { IsTrue (are_adjoining changes.now) }
    ensures { IfOk result (λ _. patches.new.items ≡ patches.old.items ++ changes_patch changes.now ∷ []) }
{
    patches.push(Change::patch(alloc, changes)?)?;
    Ok(())
}

/// Adds the patch of an inode's times. `Err` comes only for want of memory.
pub(crate) fn push_times(
    alloc: Global,
    patches: &mut Vec<Patch>,
    times: Times,
) -> Result<(), AllocError>
    ensures { IfOk result (λ _. patches.new.items ≡ patches.old.items ++ changes_patch (Change.Mtime times.mtime ∷ Change.Ctime times.ctime ∷ []) ∷ []) }
{
    push_changes(
        alloc,
        patches,
        &[Change::Mtime(times.mtime), Change::Ctime(times.ctime)],
    )
}
