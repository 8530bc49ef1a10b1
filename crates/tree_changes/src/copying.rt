// The word `cp`.

ghost use Rattle.std.specs.Prelude.{◌≡◌, ◌⊎◌, Bool, Err, IfOk, MatchResult, Ok, Some, false, length, map, nat_lt, true, vec_len};
ghost use Rattle.treefs_model.specs.declared.fault.Fault.{Fault as Why};
ghost use Rattle.tree_lines.specs.Answers.{Answers};
ghost use Rattle.tree_lines.specs.Telling.{EndsLine};
ghost use Rattle.tree_lines.specs.Walks.{met_of, outcome_of, progress};
ghost use Rattle.tree_changes.specs.CopiedFiles.{CopiesOver, IsReplaced, LeavesOver, with_rights_of};
ghost use Rattle.tree_changes.specs.CopiedFolders.{CopiesFolder, IsBelow, LeavesFolder};
ghost use Rattle.tree_changes.specs.CopiedPaths.{CopiesAllAt, CopiesTrees, LeavesAllAt, StopsAllAt};
ghost use Rattle.tree_changes.specs.CopiedTrees.{CopiesBelow, CopiesFolderMet, CopiesMet, CopiesPart, CopiesTree, CopiesVisited, CopiesWhole};
ghost use Rattle.tree_changes.specs.CopiedTrees.{GivesTime, LeavesTree, StopsMet, StopsTree, StopsVisited, inner_of};
ghost use Rattle.tree_changes.specs.Copying.{CopiesAt, CopiesPaths, IsLeftAt};
ghost use Rattle.tree_changes.specs.Moving.{HasGoal};
ghost use Rattle.tree_changes.specs.Paths.{AtPath};

use crate::attributes::attributes_of;
use crate::copies::{Copied, Copying, copy_file, keep_time};
use crate::moving::{goal_path, reason_against};
use flush_store::FlushStore;
use std::alloc::{AllocError, Global};
use tree_lines::{
    Fault, Goal, Mkdir, Node, Opened, Place, Reason, Step, TOP, View, Visit, Walk, at, at_bytes,
    find, find_to, own_name, there,
};

/// More folders than stand above one another.
const MOST_DEPTH: u32 = 262_209_296;

/// Whether a folder is another one or stands below it.
fn is_below<V: View>(view: &V, alloc: Global, folder: u32, above: u32) -> Result<bool, Reason>
    ensures { IfOk result (IsBelow (V.leads view.now) folder above) }
{
    let mut number = folder;
    for _folder in 0..MOST_DEPTH {
        if number == above {
            return Ok(true);
        }
        if number == TOP {
            return Ok(false);
        }
        number = View::find(view, alloc, number, b"..", true)?;
    }
    Ok(false)
}

/// What has the name that a copy is to get, and whose place it may take; the fault is that it may not.
fn replaced<S: FlushStore + Drop>(
    opened: &Opened<S>,
    alloc: Global,
    copied: &Copied,
) -> Result<Option<Node>, Fault>
    ensures { IfOk result (IsReplaced (S.state_of opened.now.session.store) opened.now.session.volume copied.now.node
        copied.now.place.folder copied.now.place.name.now copied.now.place.has_slash) }
{
    let reason = match there(&opened.session, copied.place) {
        Ok(Some(other)) => match reason_against(&copied.node, &other) {
            None => return Ok(Some(other)),
            Some(reason) => reason,
        },
        Ok(None) if copied.place.has_slash && !copied.node.is_folder() => Reason::NoFolder,
        Ok(None) => return Ok(None),
        Err(reason) => reason,
    };
    Err(at_bytes(alloc, copied.to, reason))
}

/// The folder to which a folder is copied, and whether it is new; one that is there stays.
fn copy_folder<S: FlushStore + Drop>(
    opened: &mut Opened<S>,
    alloc: Global,
    copied: &Copied,
) -> Result<(u32, bool), Fault>
    ensures types { S.types_of opened.new.session.store ≡ S.types_of opened.old.session.store }
    ensures folder { opened.new.folder ≡ opened.old.folder }
    ensures told { opened.new.told ≡ opened.old.told }
    ensures does { MatchResult result
        (λ made. CopiesFolder (S.types_of opened.old.session.store) opened.old.folder
        copied.now.node copied.now.place.folder copied.now.place.name.now copied.now.place.has_slash
        (S.state_of opened.old.session.store) (S.state_of opened.new.session.store) opened.old.session.volume opened.new.session.volume made.0 made.1)
        (λ fault. LeavesFolder (S.types_of opened.old.session.store) opened.old.folder
        copied.now.node copied.now.place.folder copied.now.place.name.now copied.now.place.has_slash
        (S.state_of opened.old.session.store) (S.state_of opened.new.session.store) opened.old.session.volume opened.new.session.volume) }
{
    if let Some(other) = replaced(opened, alloc, copied)? {
        return Ok((other.number, false));
    }
    let mkdir = Mkdir {
        directory: copied.place.folder,
        name: copied.place.name,
        attributes: attributes_of(opened, &copied.node),
    };
    let number = opened.make_name(alloc, copied.to, &mkdir)?;
    Ok((number, true))
}

/// A node with permissions and owner of another one.
fn with_rights_of(node: Node, other: &Node) -> Node
    ensures { result ≡ with_rights_of node other.now }
{
    Node {
        permissions: other.permissions,
        uid: other.uid,
        gid: other.gid,
        ..node
    }
}

/// A file or a symbolic link is copied, where nothing is against it. A single file that takes the place of another one gets its permissions and owner.
fn copy_other<S: FlushStore + Drop>(
    opened: &mut Opened<S>,
    alloc: Global,
    copying: &mut Copying,
    copied: &Copied,
) -> Result<(), Fault>
    ensures types { S.types_of opened.new.session.store ≡ S.types_of opened.old.session.store }
    ensures folder { opened.new.folder ≡ opened.old.folder }
    ensures told { opened.new.told ≡ opened.old.told }
    ensures piece { vec_len copying.new.piece ≡ vec_len copying.old.piece }
    ensures recursive { copying.new.is_recursive ≡ copying.old.is_recursive }
    ensures does { MatchResult result
        (λ done. CopiesOver (S.types_of opened.old.session.store) opened.old.folder (vec_len copying.old.piece) copying.old copying.new copied.now.node
        copied.now.place.folder copied.now.place.name.now copied.now.place.has_slash
        (S.state_of opened.old.session.store) (S.state_of opened.new.session.store) opened.old.session.volume opened.new.session.volume)
        (λ fault. LeavesOver (S.types_of opened.old.session.store) opened.old.folder (vec_len copying.old.piece) copying.old copying.new copied.now.node
        copied.now.place.folder copied.now.place.name.now copied.now.place.has_slash
        (S.state_of opened.old.session.store) (S.state_of opened.new.session.store) opened.old.session.volume opened.new.session.volume) }
{
    let mut copied = *copied;
    if let Some(other) = replaced(opened, alloc, &copied)? {
        copying.forget(other.number);
        if !copying.is_recursive && !other.is_link() {
            copied.node = with_rights_of(copied.node, &other);
        }
    }
    copy_file(opened, alloc, copying, &copied)
}

/// The path of a copy below a folder: that of its folder, and what the path of its node has behind that of the first one.
fn path_below(alloc: Global, to: &[u8], path: &[u8], length: usize) -> Result<Vec<u8>, AllocError> {
    let mut below = Vec::from_slice(alloc, to)?;
    let rest = match path.get(length..) {
        Some(rest) => rest,
        None => &[],
    };
    if rest.first().copied() != Some(b'/') && below.last().copied() != Some(b'/') {
        below.push(b'/')?;
    }
    below.extend_from_slice(rest)?;
    Ok(below)
}

/// A folder to which one is being copied.
#[derive(Clone, Copy, Debug)]
struct Into {
    number: u32,
    /// Whether it was made for that, so that it gets the time of its node.
    is_new: bool,
}

/// The folder into which is copied what is met: the last one of those to which are copied the ones in which a walk is, where it could be made.
fn inner_of(folders: &[Option<Into>]) -> Option<Into>
    ensures { result ≡ inner_of folders.now }
{
    match folders.last() {
        Some(folder) => *folder,
        None => None,
    }
}

/// The folder to which one that a walk has met is copied; where that fails it is told, and there is none.
fn copy_folder_met<S: FlushStore + Drop>(
    opened: &mut Opened<S>,
    alloc: Global,
    copied: &Copied,
) -> Result<Option<Into>, Fault>
    ensures types { S.types_of opened.new.session.store ≡ S.types_of opened.old.session.store }
    ensures folder { opened.new.folder ≡ opened.old.folder }
    ensures does { MatchResult result
        (λ into. CopiesFolderMet (S.types_of opened.old.session.store) opened.old.folder copied.now.node copied.now.place.folder copied.now.place.name.now
        copied.now.place.has_slash into opened.old.told opened.new.told
        (S.state_of opened.old.session.store) (S.state_of opened.new.session.store) opened.old.session.volume opened.new.session.volume)
        (λ fault. EndsLine fault × LeavesFolder (S.types_of opened.old.session.store) opened.old.folder
        copied.now.node copied.now.place.folder copied.now.place.name.now copied.now.place.has_slash
        (S.state_of opened.old.session.store) (S.state_of opened.new.session.store) opened.old.session.volume opened.new.session.volume) }
{
    match copy_folder(opened, alloc, copied) {
        Ok((number, is_new)) => Ok(Some(Into { number, is_new })),
        Err(fault) => {
            opened.told.go_on(Err(fault))?;
            Ok(None)
        }
    }
}

/// Copies what a walk has met into the folder that is the last one; a folder is the last one then. Where that fails it is told, and what is in it is left out.
fn copy_met<S: FlushStore + Drop>(
    opened: &mut Opened<S>,
    alloc: Global,
    copying: &mut Copying,
    walk: &mut Walk,
    met: (&Step, &[u8]),
    folders: &mut Vec<Option<Into>>,
) -> Result<(), Fault>
    ensures types { S.types_of opened.new.session.store ≡ S.types_of opened.old.session.store }
    ensures folder { opened.new.folder ≡ opened.old.folder }
    ensures piece { vec_len copying.new.piece ≡ vec_len copying.old.piece }
    ensures recursive { copying.new.is_recursive ≡ copying.old.is_recursive }
    ensures does { MatchResult result
        (λ done. CopiesMet (S.types_of opened.old.session.store) opened.old.folder (vec_len copying.old.piece) (met_of met.entry.0.now)
        (inner_of folders.old.items) (progress walk.old) (progress walk.new) opened.old.told opened.new.told folders.old.items folders.new.items
        copying.old copying.new
        (S.state_of opened.old.session.store) (S.state_of opened.new.session.store) opened.old.session.volume opened.new.session.volume)
        (λ fault. EndsLine fault × StopsMet (S.types_of opened.old.session.store) opened.old.folder (vec_len copying.old.piece) (met_of met.entry.0.now)
        (inner_of folders.old.items) copying.old
        (S.state_of opened.old.session.store) (S.state_of opened.new.session.store) opened.old.session.volume opened.new.session.volume) }
{
    let (step, to) = met;
    let Some(folder) = inner_of(folders.as_slice()) else {
        return Ok(());
    };
    let copied = Copied {
        node: step.node,
        path: walk.path(),
        place: Place {
            folder: folder.number,
            name: &step.name,
            has_slash: false,
        },
        to,
    };
    if !step.node.is_folder() {
        let done = copy_other(opened, alloc, copying, &copied);
        return opened.told.go_on(done);
    }
    let into = copy_folder_met(opened, alloc, &copied)?;
    if into.is_none() {
        walk.pass_over();
    }
    folders.push(into)?;
    Ok(())
}

/// Leaves a folder that was copied: where it is new it gets the time of its node.
fn leave_folder<S: FlushStore + Drop>(
    opened: &mut Opened<S>,
    alloc: Global,
    left: (&Node, &[u8]),
    folder: Option<Into>,
) -> Result<(), Fault>
    ensures types { S.types_of opened.new.session.store ≡ S.types_of opened.old.session.store }
    ensures folder { opened.new.folder ≡ opened.old.folder }
    ensures told { opened.new.told ≡ opened.old.told }
    ensures does { Answers (GivesTime (S.types_of opened.old.session.store) opened.old.folder left.entry.0.now folder
        (S.state_of opened.old.session.store) (S.state_of opened.new.session.store) opened.old.session.volume opened.new.session.volume) result }
{
    let (node, to) = left;
    let Some(into) = folder else {
        return Ok(());
    };
    if !into.is_new {
        return Ok(());
    }
    let copied = Copied {
        node: *node,
        path: to,
        place: Place {
            folder: into.number,
            name: to,
            has_slash: false,
        },
        to,
    };
    keep_time(opened, alloc, &copied, into.number)
}

/// Copies what a walk has come to: what it has met goes into the folder that is the last one, and a folder that it has left is the last one no longer.
fn copy_visited<S: FlushStore + Drop>(
    opened: &mut Opened<S>,
    alloc: Global,
    copying: &mut Copying,
    walk: &mut Walk,
    visited: (&Visit, &[u8]),
    folders: &mut Vec<Option<Into>>,
) -> Result<(), Fault>
    ensures types { S.types_of opened.new.session.store ≡ S.types_of opened.old.session.store }
    ensures folder { opened.new.folder ≡ opened.old.folder }
    ensures piece { vec_len copying.new.piece ≡ vec_len copying.old.piece }
    ensures recursive { copying.new.is_recursive ≡ copying.old.is_recursive }
    ensures does { MatchResult result
        (λ done. CopiesVisited (S.types_of opened.old.session.store) opened.old.folder (vec_len copying.old.piece) (outcome_of (Some visited.entry.0.now))
        (progress walk.old) (progress walk.new) opened.old.told opened.new.told folders.old.items folders.new.items copying.old copying.new
        (S.state_of opened.old.session.store) (S.state_of opened.new.session.store) opened.old.session.volume opened.new.session.volume)
        (λ fault. EndsLine fault × StopsVisited (S.types_of opened.old.session.store) opened.old.folder (vec_len copying.old.piece)
        (outcome_of (Some visited.entry.0.now)) folders.old.items copying.old
        (S.state_of opened.old.session.store) (S.state_of opened.new.session.store) opened.old.session.volume opened.new.session.volume) }
{
    let (visit, to) = visited;
    match visit {
        Visit::Met(step) => copy_met(opened, alloc, copying, walk, (step, to), folders),
        Visit::Left(step) => {
            let folder = inner_of(folders.as_slice());
            let _folder = folders.pop();
            let done = leave_folder(opened, alloc, (&step.node, to), folder);
            opened.told.go_on(done)
        }
    }
}

/// Copies all below a folder into another one. That one is left out: it stands below the first one in no sound volume.
fn copy_contents<S: FlushStore + Drop>(
    opened: &mut Opened<S>,
    alloc: Global,
    copying: &mut Copying,
    copied: &Copied,
    into: Into,
) -> Result<(), Fault>
    ensures types { S.types_of opened.new.session.store ≡ S.types_of opened.old.session.store }
    ensures folder { opened.new.folder ≡ opened.old.folder }
    ensures piece { vec_len copying.new.piece ≡ vec_len copying.old.piece }
    ensures recursive { copying.new.is_recursive ≡ copying.old.is_recursive }
    ensures does { MatchResult result
        (λ done. CopiesWhole (S.types_of opened.old.session.store) opened.old.folder (vec_len copying.old.piece) copied.now.path.now copied.now.node.number
        into opened.old.told opened.new.told copying.old copying.new
        (S.state_of opened.old.session.store) (S.state_of opened.new.session.store) opened.old.session.volume opened.new.session.volume)
        (λ fault. EndsLine fault × CopiesPart (S.types_of opened.old.session.store) opened.old.folder (vec_len copying.old.piece) copied.now.path.now
        copied.now.node.number into opened.old.told copying.old
        (S.state_of opened.old.session.store) (S.state_of opened.new.session.store) opened.old.session.volume opened.new.session.volume) }
{
    let length = copied.path.len();
    let mut walk = Walk::below(alloc, copied.path, copied.node.number)?;
    walk.leave_out(into.number)?;
    let mut folders = Vec::from_array(alloc, [Some(into)])?;
    for _name in 0..u64::MAX {
        let Some(visit) = walk.next(&opened.session, alloc, &mut opened.told)? else {
            break;
        };
        let to = path_below(alloc, copied.to, walk.path(), length)?;
        let visited = (&visit, to.as_slice());
        copy_visited(opened, alloc, copying, &mut walk, visited, &mut folders)?;
    }
    Ok(())
}

/// Copies all below a folder into another one, which gets the time of the first one then where it is new.
fn copy_below<S: FlushStore + Drop>(
    opened: &mut Opened<S>,
    alloc: Global,
    copying: &mut Copying,
    copied: &Copied,
    into: Into,
) -> Result<(), Fault>
    ensures types { S.types_of opened.new.session.store ≡ S.types_of opened.old.session.store }
    ensures folder { opened.new.folder ≡ opened.old.folder }
    ensures piece { vec_len copying.new.piece ≡ vec_len copying.old.piece }
    ensures recursive { copying.new.is_recursive ≡ copying.old.is_recursive }
    ensures does { MatchResult result
        (λ done. CopiesBelow (S.types_of opened.old.session.store) opened.old.folder (vec_len copying.old.piece) copied.now.path.now copied.now.node
        into opened.old.told opened.new.told copying.old copying.new
        (S.state_of opened.old.session.store) (S.state_of opened.new.session.store) opened.old.session.volume opened.new.session.volume (Ok tt))
        (λ fault. ((why : Why) × CopiesBelow (S.types_of opened.old.session.store) opened.old.folder (vec_len copying.old.piece) copied.now.path.now
        copied.now.node into opened.old.told opened.new.told copying.old copying.new
        (S.state_of opened.old.session.store) (S.state_of opened.new.session.store) opened.old.session.volume opened.new.session.volume (Err why))
        ⊎ (EndsLine fault × CopiesPart (S.types_of opened.old.session.store) opened.old.folder (vec_len copying.old.piece) copied.now.path.now
        copied.now.node.number into opened.old.told copying.old
        (S.state_of opened.old.session.store) (S.state_of opened.new.session.store) opened.old.session.volume opened.new.session.volume)) }
{
    copy_contents(opened, alloc, copying, copied, into)?;
    leave_folder(opened, alloc, (&copied.node, copied.to), Some(into))
}

/// Copies a folder with all below it. It is not copied into itself.
fn copy_tree<S: FlushStore + Drop>(
    opened: &mut Opened<S>,
    alloc: Global,
    copying: &mut Copying,
    copied: &Copied,
) -> Result<(), Fault>
    ensures types { S.types_of opened.new.session.store ≡ S.types_of opened.old.session.store }
    ensures folder { opened.new.folder ≡ opened.old.folder }
    ensures piece { vec_len copying.new.piece ≡ vec_len copying.old.piece }
    ensures recursive { copying.new.is_recursive ≡ copying.old.is_recursive }
    ensures does { MatchResult result
        (λ done. CopiesTree (S.types_of opened.old.session.store) opened.old.folder (vec_len copying.old.piece) copied.now.path.now copied.now.node
        copied.now.place.folder copied.now.place.name.now copied.now.place.has_slash opened.old.told opened.new.told copying.old copying.new
        (S.state_of opened.old.session.store) (S.state_of opened.new.session.store) opened.old.session.volume opened.new.session.volume (Ok tt))
        (λ fault. LeavesTree (S.types_of opened.old.session.store) opened.old.folder (vec_len copying.old.piece) copied.now.path.now copied.now.node
        copied.now.place.folder copied.now.place.name.now copied.now.place.has_slash opened.old.told opened.new.told copying.old copying.new
        (S.state_of opened.old.session.store) (S.state_of opened.new.session.store) opened.old.session.volume opened.new.session.volume
        ⊎ (EndsLine fault × StopsTree (S.types_of opened.old.session.store) opened.old.folder (vec_len copying.old.piece) copied.now.path.now copied.now.node
        copied.now.place.folder copied.now.place.name.now copied.now.place.has_slash opened.old.told copying.old
        (S.state_of opened.old.session.store) (S.state_of opened.new.session.store) opened.old.session.volume opened.new.session.volume)) }
{
    let view = &opened.session;
    match is_below(view, alloc, copied.place.folder, copied.node.number) {
        Ok(false) => {}
        Ok(true) => return Err(at_bytes(alloc, copied.to, Reason::Cycle)),
        Err(reason) => return Err(at_bytes(alloc, copied.to, reason)),
    }
    let (number, is_new) = copy_folder(opened, alloc, copied)?;
    copy_below(opened, alloc, copying, copied, Into { number, is_new })
}

/// Copies what stands at a path.
fn copy_one<S: FlushStore + Drop>(
    opened: &mut Opened<S>,
    alloc: Global,
    copying: &mut Copying,
    path: &str,
    to: (&str, Goal),
) -> Result<(), Fault>
    ensures types { S.types_of opened.new.session.store ≡ S.types_of opened.old.session.store }
    ensures folder { opened.new.folder ≡ opened.old.folder }
    ensures piece { vec_len copying.new.piece ≡ vec_len copying.old.piece }
    ensures recursive { copying.new.is_recursive ≡ copying.old.is_recursive }
    ensures told { copying.old.is_recursive ≡ false → opened.new.told ≡ opened.old.told }
    ensures does { copying.old.is_recursive ≡ false → (several : Bool) → HasGoal (S.state_of opened.old.session.store) opened.old.session.volume
        opened.old.folder to.entry.0.now several to.entry.1 →
        AtPath (CopiesAt (vec_len copying.old.piece) (S.types_of opened.old.session.store) opened.old.folder to.entry.0.now several)
        (IsLeftAt (vec_len copying.old.piece) (S.types_of opened.old.session.store) opened.old.folder to.entry.0.now several) path.now
        (S.state_of opened.old.session.store) (S.state_of opened.new.session.store) opened.old.session.volume opened.new.session.volume result }
    ensures all { copying.old.is_recursive ≡ true → (several : Bool) → HasGoal (S.state_of opened.old.session.store) opened.old.session.volume
        opened.old.folder to.entry.0.now several to.entry.1 → MatchResult result
        (λ done. CopiesAllAt (S.types_of opened.old.session.store) opened.old.folder (vec_len copying.old.piece) to.entry.0.now several path.now
        opened.old.told opened.new.told copying.old copying.new
        (S.state_of opened.old.session.store) (S.state_of opened.new.session.store) opened.old.session.volume opened.new.session.volume)
        (λ fault. LeavesAllAt (S.types_of opened.old.session.store) opened.old.folder (vec_len copying.old.piece) to.entry.0.now several path.now
        opened.old.told opened.new.told copying.old copying.new
        (S.state_of opened.old.session.store) (S.state_of opened.new.session.store) opened.old.session.volume opened.new.session.volume
        ⊎ (EndsLine fault × StopsAllAt (S.types_of opened.old.session.store) opened.old.folder (vec_len copying.old.piece) to.entry.0.now several path.now
        opened.old.told copying.old
        (S.state_of opened.old.session.store) (S.state_of opened.new.session.store) opened.old.session.volume opened.new.session.volume)) }
{
    let (to, goal) = to;
    let is_followed = !copying.is_recursive;
    let node = find(&opened.session, alloc, opened.folder, path, is_followed)?;
    let name = own_name(alloc, path)?;
    let to = goal_path(alloc, to, goal, name)?;
    let copied = Copied {
        node,
        path: path.as_bytes(),
        place: goal.place(name),
        to: &to,
    };
    match node.is_folder() {
        false => copy_other(opened, alloc, copying, &copied),
        true if copying.is_recursive => copy_tree(opened, alloc, copying, &copied),
        true => Err(at(alloc, path, Reason::Folder)),
    }
}

/// `cp`: copies files into a folder that is there, under their own names, or one to a place of another name; with `is_recursive` also folders with all below
/// them, whose times and links among each other are kept, and symbolic links as such. Each file has its name once it is whole, and then takes the place of one
/// that has the name. Holes stay.
pub fn copy<S: FlushStore + Drop>(
    opened: &mut Opened<S>,
    alloc: Global,
    paths: &[&str],
    to: &str,
    is_recursive: bool,
) -> Result<(), Fault>
    ensures types { S.types_of opened.new.session.store ≡ S.types_of opened.old.session.store }
    ensures folder { opened.new.folder ≡ opened.old.folder }
    ensures does { is_recursive ≡ false →
        CopiesPaths (S.types_of opened.old.session.store) opened.old.folder to.now (nat_lt 1 (length paths.now)) (map (λ path. path.now) paths.now)
        opened.old.told opened.new.told
        (S.state_of opened.old.session.store) (S.state_of opened.new.session.store) opened.old.session.volume opened.new.session.volume result }
    ensures all { is_recursive ≡ true →
        CopiesTrees (S.types_of opened.old.session.store) opened.old.folder to.now (nat_lt 1 (length paths.now)) (map (λ path. path.now) paths.now)
        opened.old.told opened.new.told
        (S.state_of opened.old.session.store) (S.state_of opened.new.session.store) opened.old.session.volume opened.new.session.volume result }
{
    let mut copying = Copying::begin(alloc, is_recursive)?;
    let are_several = paths.len() > 1;
    for path in paths {
        let goal = find_to(&opened.session, alloc, opened.folder, to, are_several)?;
        let done = copy_one(opened, alloc, &mut copying, path, (to, goal));
        opened.told.go_on(done)?;
    }
    Ok(())
}
