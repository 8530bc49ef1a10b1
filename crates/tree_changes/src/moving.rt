// The word `mv`.

ghost use Rattle.std.specs.Prelude.{◌≡◌, Bool, IfOk, IsNone, IsTrue, Some, length, map, nat_lt};
ghost use Rattle.tree_lines.specs.Places.{IsFolder};
ghost use Rattle.tree_lines.specs.Trees.{IsThereIn};
ghost use Rattle.tree_changes.specs.Moving.{CanReplace, HasBoth, HasGoal, IsUnmoved, MayGet, Moves};
ghost use Rattle.tree_changes.specs.Paths.{AtPath, DoesPaths};

use crate::removing::unlink;
use flush_store::FlushStore;
use std::alloc::{AllocError, Global};
use std::collections::BTreeSet;
use tree_lines::{
    Change, Fault, Goal, Node, Opened, Place, Reason, at, at_bytes, below, find_to, own_name,
    place_of, there,
};

/// The path of what goes to a goal that is told by a path.
pub fn goal_path(alloc: Global, to: &str, goal: Goal, name: &[u8]) -> Result<Vec<u8>, AllocError> {
    match goal {
        Goal::Into(_) => below(alloc, to.as_bytes(), name),
        Goal::To(_) => Vec::from_slice(alloc, to.as_bytes()),
    }
}

/// Why something can't take the place of what has a name, if it can't.
pub fn reason_against(node: &Node, other: &Node) -> Option<Reason>
    ensures { IsNone result → CanReplace node.now other.now }
{
    if node.number == other.number {
        return Some(Reason::Same);
    }
    match (node.is_folder(), other.is_folder()) {
        (true, false) => Some(Reason::NoFolder),
        (false, true) => Some(Reason::Folder),
        _ => None,
    }
}

/// What stands at a path that is to be moved.
fn find_moved<S: FlushStore + Drop>(
    opened: &Opened<S>,
    alloc: Global,
    path: &str,
    from: Place,
) -> Result<Node, Fault>
    ensures { IfOk result (λ node. IsThereIn (S.state_of opened.now.session.store) opened.now.session.volume from.entry.folder from.entry.name.now (Some node)
        × (IsTrue from.entry.has_slash → IsFolder node)) }
{
    match there(&opened.session, from) {
        Ok(Some(node)) if from.has_slash && !node.is_folder() => {
            Err(at(alloc, path, Reason::NoFolder))
        }
        Ok(Some(node)) => Ok(node),
        Ok(None) => Err(at(alloc, path, Reason::Missing)),
        Err(reason) => Err(at(alloc, path, reason)),
    }
}

/// Whether something has the name that something else is to get; the fault is that it can't take its place.
fn is_taken<S: FlushStore + Drop>(
    opened: &Opened<S>,
    alloc: Global,
    path: &[u8],
    place: Place,
    node: &Node,
) -> Result<bool, Fault>
    ensures { IfOk result (λ taken. MayGet (S.state_of opened.now.session.store) opened.now.session.volume node.now place.entry.folder place.entry.name.now
        place.entry.has_slash) }
{
    match there(&opened.session, place) {
        Ok(Some(other)) => match reason_against(node, &other) {
            Some(reason) => Err(at_bytes(alloc, path, reason)),
            None => Ok(true),
        },
        Ok(None) if place.has_slash && !node.is_folder() => {
            Err(at_bytes(alloc, path, Reason::NoFolder))
        }
        Ok(None) => Ok(false),
        Err(reason) => Err(at_bytes(alloc, path, reason)),
    }
}

/// Whether a file has the name already that it is to get, beside the one that it is to lose: as where a move was cut short between two folders.
fn has_both_names<S: FlushStore + Drop>(
    opened: &Opened<S>,
    node: &Node,
    from: Place,
    place: Place,
) -> bool
    ensures { IsTrue result → HasBoth (S.state_of opened.now.session.store) opened.now.session.volume node.now from.entry.folder from.entry.name.now
        place.entry.folder place.entry.name.now }
{
    let is_one_name = from.folder == place.folder && from.name == place.name;
    match there(&opened.session, place) {
        Ok(Some(other)) => !node.is_folder() && !is_one_name && other.number == node.number,
        _ => false,
    }
}

/// Moves what stands at a path. Where it is to get a name that it has, too, it loses the other one. A name that the line has given to something is not given
/// again: that would be lost.
fn move_one<S: FlushStore + Drop>(
    opened: &mut Opened<S>,
    alloc: Global,
    path: &str,
    to: (&str, Goal),
    given: &mut BTreeSet<Vec<u8>>,
) -> Result<(), Fault>
    ensures types { S.types_of opened.new.session.store ≡ S.types_of opened.old.session.store }
    ensures folder { opened.new.folder ≡ opened.old.folder }
    ensures told { opened.new.told ≡ opened.old.told }
    ensures does { (several : Bool) → HasGoal (S.state_of opened.old.session.store) opened.old.session.volume opened.old.folder to.entry.0.now several
        to.entry.1 → AtPath (Moves (S.types_of opened.old.session.store) opened.old.folder to.entry.0.now several)
        (IsUnmoved (S.types_of opened.old.session.store) opened.old.folder to.entry.0.now several) path.now
        (S.state_of opened.old.session.store) (S.state_of opened.new.session.store) opened.old.session.volume opened.new.session.volume result }
{
    let (to, goal) = to;
    let from = place_of(&opened.session, alloc, opened.folder, path)?;
    let name = own_name(alloc, path)?;
    let node = find_moved(opened, alloc, path, from)?;
    let place = goal.place(name);
    if has_both_names(opened, &node, from, place) {
        return unlink(opened, alloc, path.as_bytes(), (from.folder, from.name));
    }
    let goal_path = goal_path(alloc, to, goal, name)?;
    let is_taken = is_taken(opened, alloc, &goal_path, place, &node)?;
    if is_taken && given.contains(place.name) {
        return Err(at(alloc, path, Reason::Moved));
    }
    let told_path = if is_taken {
        goal_path.as_slice()
    } else {
        path.as_bytes()
    };
    let rename = Change::Rename {
        directory: from.folder,
        name: from.name,
        new_directory: place.folder,
        new_name: place.name,
    };
    let is_new = given.insert(Vec::from_slice(alloc, place.name)?)?;
    let done = opened.make_name(alloc, told_path, &rename);
    if done.is_err() && is_new {
        let _is_gone = given.remove(place.name);
    }
    done
}

/// `mv`: moves files, folders and symbolic links into a folder that is there, under their own names, or gives one another name. A file takes the place of one
/// that has the name, and a folder that of an empty one, but not of what the same line has moved there.
pub fn rename<S: FlushStore + Drop>(
    opened: &mut Opened<S>,
    alloc: Global,
    paths: &[&str],
    to: &str,
) -> Result<(), Fault>
    ensures types { S.types_of opened.new.session.store ≡ S.types_of opened.old.session.store }
    ensures folder { opened.new.folder ≡ opened.old.folder }
    ensures does { DoesPaths (Moves (S.types_of opened.old.session.store) opened.old.folder to.now (nat_lt 1 (length paths.now)))
        (IsUnmoved (S.types_of opened.old.session.store) opened.old.folder to.now (nat_lt 1 (length paths.now))) (map (λ path. path.now) paths.now)
        opened.old.told opened.new.told (S.state_of opened.old.session.store) (S.state_of opened.new.session.store)
        opened.old.session.volume opened.new.session.volume result }
{
    let are_several = paths.len() > 1;
    let mut given = BTreeSet::new(alloc);
    for path in paths {
        let goal = find_to(&opened.session, alloc, opened.folder, to, are_several)?;
        let done = move_one(opened, alloc, path, (to, goal), &mut given);
        opened.told.go_on(done)?;
    }
    Ok(())
}
