// How a new inode gets its first name, or the place of another one.

ghost use Rattle.std.specs.Prelude.{◌≡◌, ◌≤◌, ℕ, Result, length, IfOk, OnOk};
ghost use Rattle.treefs_format.specs.Paths.{leaf_count};
ghost use Rattle.treefs_lookup.specs.Readable.{readable};
ghost use Rattle.treefs_model.specs.Files.{and_then};
ghost use Rattle.treefs_model.specs.declared.fault.Fault.{Fault};
ghost use Rattle.treefs_name_plans.specs.CommitPlans.{IsCommitPlanned, IsNumberFound, IsReplaced, IsTargetOf, commit_in_room};
ghost use Rattle.treefs_name_plans.specs.Namings.{naming_for};
ghost use Rattle.treefs_name_plans.specs.NewNames.{IsWithinBlocks};

use crate::commit_plan::CommitPlan;
use crate::endings::find_ended_file;
use crate::name_end::NameEnd;
use crate::naming::Naming;
use crate::namings::{find_naming, find_replaceable};
use crate::new_names::look_up;
use treefs_edits::{Memory, Tree, has_room, have_room};
use treefs_lookup::{NamePlace, Slot, find_leaf, find_number};
use treefs_model::Fault;
use xn_state::Store;

/// What it takes that a new inode is named, where there is room for so many edits and for it; else the fault is `Full`.
pub fn commit_in_room<S: Store>(
    store: &S,
    tree: Tree,
    memory: &Memory,
    edits: u32,
    number: u32,
    directory: u32,
    naming: Naming,
) -> Result<CommitPlan, Fault>
    requires { number ≤ leaf_count }
    ensures { result ≡ commit_in_room (S.state_of store.now) tree memory.now edits number directory naming }
{
    let table = find_leaf(store, tree.fs, tree.top, number.saturating_sub(1));
    let parts = naming.parts(directory);
    let room = has_room(store, tree.fs, memory.touched.len(), edits, &parts)
        && have_room(store, &[(table.block, 2)]);
    if !room {
        return Err(Fault::Full);
    }
    Ok(CommitPlan {
        number,
        directory,
        node_type: tree.node_type,
        inode_type: tree.inode_type,
        owner: table.block,
        missing: table.missing,
        naming,
    })
}

/// The end of a file's name that a directory has, and that is replaced. The faults are `NoEntry` where it leads to nothing, `IsDir`, and
/// `Full`.
fn find_replaced<S: Store>(
    store: &S,
    tree: Tree,
    memory: &Memory,
    directory: u32,
    name: &[u8],
) -> Result<NameEnd, Fault>
    ensures { IsReplaced (S.state_of store.now) tree memory.now directory name.now result }
{
    let ended = find_ended_file(store, tree, directory, name)?;
    find_replaceable(store, tree, memory, &ended)
}

/// The end of a name of a directory that is replaced, where this record has it; `None` where none has. The faults are `Exists` where it is not to be
/// replaced, and those of the name that ends.
fn find_target<S: Store>(
    store: &S,
    tree: Tree,
    memory: &Memory,
    directory: u32,
    name: &[u8],
    taken: Option<Slot>,
    replace: bool,
) -> Result<Option<NameEnd>, Fault>
    ensures { IsTargetOf (S.state_of store.now) tree memory.now directory name.now replace result taken }
{
    if taken.is_none() {
        return Ok(None);
    }
    if !replace {
        return Err(Fault::Exists);
    }
    match find_replaced(store, tree, memory, directory, name) {
        Ok(end) => Ok(Some(end)),
        Err(fault) => Err(fault),
    }
}

/// What it takes that a new inode gets a name of the directory with this inode block. The faults are of the number `Full` and `NoInode`, `Full` or
/// `TooLarge` where there is no place for the name, and `Full` where there is no room.
fn plan_numbered<S: Store>(
    store: &S,
    tree: Tree,
    memory: &Memory,
    directory: u32,
    place: Result<NamePlace, Fault>,
    replaced: Option<NameEnd>,
) -> Result<CommitPlan, Fault>
    requires { IfOk place (IsWithinBlocks (readable (S.state_of store.now) tree.fs.number)) }
    ensures { (number : Result ℕ Fault) × IsNumberFound (S.state_of store.now) tree memory.now number × (result ≡ and_then number (λ n.
        and_then (naming_for (readable (S.state_of store.now) tree.fs.number) tree.node_type directory place replaced)
        (commit_in_room (S.state_of store.now) tree memory.now 30 n directory))) }
{
    let number = find_number(store, tree.fs, tree.top, memory.hint)?;
    let naming = find_naming(store, tree, directory, place, replaced)?;
    commit_in_room(store, tree, memory, 30, number, directory, naming)
}

/// What it takes that a new inode gets a name of a directory. The faults are those of the directory, `BadName`, `Exists` where a name that is there
/// is not to be replaced, `IsDir` where that is a directory's, `Full` where another name of the file may have to be written first, of the number
/// `Full` and `NoInode`, `Full` or `TooLarge` where there is no place for the name, and `Full` where there is no room.
pub fn plan_commit<S: Store>(
    store: &S,
    tree: Tree,
    memory: &Memory,
    directory: u32,
    name: &[u8],
    replace: bool,
) -> Result<CommitPlan, Fault>
    ensures planned { IsCommitPlanned (S.state_of store.now) tree memory.now directory name.now replace result }
    ensures short { OnOk result (length name.now ≤ 255) }
{
    let found = look_up(store, tree, directory, name)?;
    let replaced = find_target(store, tree, memory, directory, name, found.taken, replace)?;
    plan_numbered(store, tree, memory, found.directory, found.place, replaced)
}
