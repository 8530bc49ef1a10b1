// How a new inode gets its first name.

ghost use Rattle.std.specs.Prelude.{◌≡◌, ◌≤◌, length, IfOk, Ok, OnOk};
ghost use Rattle.treefs_model.specs.Files.{and_then};
ghost use Rattle.treefs_lookup.specs.Readable.{readable};
ghost use Rattle.treefs_name_plans.specs.NewNames.{IsWithinBlocks, place_in};
ghost use Rattle.treefs_name_plans.specs.NewPlans.{IsNewPlanned, free_in_room};

use crate::commit::commit_in_room;
use crate::commit_plan::CommitPlan;
use crate::naming::Naming;
use crate::new_names::{LookedUp, find_addition, find_free_name};
use treefs_edits::{Memory, Tree, has_room};
use treefs_lookup::find_number;
use treefs_model::Fault;
use xn_state::Store;

/// A name that a directory does not have yet, where there is room for a first block. The faults are those of the directory, `BadName`, `Exists`, and
/// `Full`.
fn find_free_in_room<S: Store>(
    store: &S,
    tree: Tree,
    memory: &Memory,
    directory: u32,
    name: &[u8],
) -> Result<LookedUp, Fault>
    ensures planned { and_then result (λ found. Ok found.directory) ≡ free_in_room (S.state_of store.now) tree memory.now directory name.now }
    ensures place { IfOk result (λ found. found.place ≡ place_in (S.state_of store.now) tree.fs.number tree.top directory name.now) }
    ensures within { IfOk result (λ found. IfOk found.place (IsWithinBlocks (readable (S.state_of store.now) tree.fs.number))) }
    ensures short { OnOk result (length name.now ≤ 255) }
{
    let found = find_free_name(store, tree, directory, name)?;
    if !has_room(store, tree.fs, memory.touched.len(), 2, &[]) {
        return Err(Fault::Full);
    }
    Ok(found)
}

/// What the first name of a new inode takes. The faults are those of the directory, `BadName`, `Exists`, `Full`, then of the number `Full` and `NoInode`, then
/// `Full` or `TooLarge` where there is no place for the name, and `Full` where there is no room.
pub fn plan_new<S: Store>(
    store: &S,
    tree: Tree,
    memory: &Memory,
    directory: u32,
    name: &[u8],
) -> Result<CommitPlan, Fault>
    ensures planned { IsNewPlanned (S.state_of store.now) tree memory.now directory name.now result }
    ensures short { OnOk result (length name.now ≤ 255) }
{
    let free = find_free_in_room(store, tree, memory, directory, name)?;
    let number = find_number(store, tree.fs, tree.top, memory.hint)?;
    let addition = find_addition(store, tree, free.directory, free.place)?;
    let naming = Naming::Added(addition);
    commit_in_room(store, tree, memory, 31, number, free.directory, naming)
}
