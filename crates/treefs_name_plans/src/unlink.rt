// How a file's name ends.

ghost use Rattle.std.specs.Prelude.{◌≡◌};
ghost use Rattle.treefs_lookup.specs.Readable.{readable};
ghost use Rattle.treefs_name_plans.specs.Ends.{IsUnlinkPlanned, IsWithin, end_in_room};

use crate::end::EndPlan;
use crate::ended::Ended;
use crate::endings::{find_ended_file, name_end};
use crate::other_names::find_behind;
use treefs_edits::{Memory, Tree, has_room};
use treefs_model::Fault;
use xn_state::Store;

/// What the end of a name takes, where there is room for it; else the fault is `Full`.
fn plan_end<S: Store>(
    store: &S,
    tree: Tree,
    memory: &Memory,
    ended: &Ended,
    behind: Option<u32>,
) -> Result<EndPlan, Fault>
    requires { IsWithin (readable (S.state_of store.now) tree.fs.number) ended.now.slot }
    ensures { result ≡ end_in_room (S.state_of store.now) tree.fs.number memory.now ended.now behind }
{
    let parts = [(ended.slot.block, 2), (ended.inode.block, 1)];
    if !has_room(store, tree.fs, memory.touched.len(), 4, &parts) {
        return Err(Fault::Full);
    }
    Ok(EndPlan {
        end: name_end(store, tree, memory, ended),
        behind,
    })
}

/// What the end of a file's name takes. The faults are those of the directory, `BadName`, `NoEntry`, `IsDir`, and `Full`: where another name
/// of the file may have to be written first, and where there is no room.
pub fn plan_unlink<S: Store>(
    store: &S,
    tree: Tree,
    memory: &Memory,
    directory: u32,
    name: &[u8],
) -> Result<EndPlan, Fault>
    ensures { IsUnlinkPlanned (S.state_of store.now) tree memory.now directory name.now result }
{
    let ended = find_ended_file(store, tree, directory, name)?;
    let behind = find_behind(store, tree, memory, &ended)?;
    plan_end(store, tree, memory, &ended, behind)
}
