// The word `rm`.

ghost use Rattle.std.specs.Prelude.{◌≡◌, ◌↔◌, Err, IfErr, IfOk, IsTrue, MatchResult, false, map, nat_lt, true};
ghost use Rattle.treefs_model.specs.declared.fault.Fault.{Fault as Why};
ghost use Rattle.tree_lines.specs.Answers.{Answers};
ghost use Rattle.tree_lines.specs.Telling.{EndsLine, count_of};
ghost use Rattle.tree_lines.specs.Trees.{ComesIn};
ghost use Rattle.tree_lines.specs.Walks.{IsUnseen, progress};
ghost use Rattle.tree_changes.specs.Emptying.{Empties, EmptiesUpTo, KeepsNamed, KeepsSome, KeepsTree, RemovesAll, RemovesAllNamed, RemovesTree};
ghost use Rattle.tree_changes.specs.Emptying.{TakesIfAny, TakesName, TellsLeft, step_visited};
ghost use Rattle.tree_changes.specs.Folders.{RmdirIn};
ghost use Rattle.tree_changes.specs.Paths.{AtPath, DoesPaths, IsSame};
ghost use Rattle.tree_changes.specs.PathsTold.{AtPathTold, TellsPaths};
ghost use Rattle.tree_changes.specs.Removing.{IsKept, IsNameKept, Removes, RemovesNamed, TellsMissing, UnlinkIn};

use flush_store::FlushStore;
use std::alloc::Global;
use tree_lines::{
    Change, Fault, Opened, Place, Reason, Step, Visit, Walk, at, own_name, place_of, there,
};

/// How `rm` removes.
#[derive(Clone, Copy, Debug)]
pub struct Removing {
    /// Folders with all below them, too.
    pub is_recursive: bool,
    /// What is not there is no fault.
    pub is_forced: bool,
}

/// Takes the name of a file or a symbolic link.
pub fn unlink<S: FlushStore + Drop>(
    opened: &mut Opened<S>,
    alloc: Global,
    path: &[u8],
    place: (u32, &[u8]),
) -> Result<(), Fault>
    ensures types { S.types_of opened.new.session.store ≡ S.types_of opened.old.session.store }
    ensures folder { opened.new.folder ≡ opened.old.folder }
    ensures told { opened.new.told ≡ opened.old.told }
    ensures does { Answers (UnlinkIn (S.types_of opened.old.session.store) opened.old.folder place.entry.0 place.entry.1.now
        (S.state_of opened.old.session.store) (S.state_of opened.new.session.store) opened.old.session.volume opened.new.session.volume) result }
{
    let (directory, name) = place;
    opened.make(alloc, path, &Change::Unlink { directory, name })
}

/// Takes the name of an empty folder.
fn end_folder<S: FlushStore + Drop>(
    opened: &mut Opened<S>,
    alloc: Global,
    path: &[u8],
    place: (u32, &[u8]),
) -> Result<(), Fault>
    ensures types { S.types_of opened.new.session.store ≡ S.types_of opened.old.session.store }
    ensures folder { opened.new.folder ≡ opened.old.folder }
    ensures told { opened.new.told ≡ opened.old.told }
    ensures does { Answers (RmdirIn (S.types_of opened.old.session.store) opened.old.folder place.entry.0 place.entry.1.now
        (S.state_of opened.old.session.store) (S.state_of opened.new.session.store) opened.old.session.volume opened.new.session.volume) result }
{
    let (directory, name) = place;
    opened.make(alloc, path, &Change::Rmdir { directory, name })
}

/// Takes the name of an empty folder, or of a file or a symbolic link.
fn take_name<S: FlushStore + Drop>(
    opened: &mut Opened<S>,
    alloc: Global,
    path: &[u8],
    place: (u32, &[u8]),
    is_folder: bool,
) -> Result<(), Fault>
    ensures types { S.types_of opened.new.session.store ≡ S.types_of opened.old.session.store }
    ensures folder { opened.new.folder ≡ opened.old.folder }
    ensures told { opened.new.told ≡ opened.old.told }
    ensures does { Answers (TakesName (S.types_of opened.old.session.store) opened.old.folder is_folder place.entry.0 place.entry.1.now
        (S.state_of opened.old.session.store) (S.state_of opened.new.session.store) opened.old.session.volume opened.new.session.volume) result }
{
    if is_folder {
        end_folder(opened, alloc, path, place)
    } else {
        unlink(opened, alloc, path, place)
    }
}

/// Whether a fault is that of a folder in which something is left.
fn is_left(fault: &Fault) -> bool
    ensures { IsTrue result ↔ TellsLeft fault.now }
{
    matches!(
        fault,
        Fault::At {
            path: _,
            reason: Reason::NotEmpty
        }
    )
}

/// Removes what a walk has come to: a folder once all in it was removed. Answers whether it was removed, or why not; that something is left in a folder is not
/// told, where that was told before.
fn remove_step<S: FlushStore + Drop>(
    opened: &mut Opened<S>,
    alloc: Global,
    walk: &Walk,
    met: (&Step, bool),
    is_whole: bool,
) -> Result<bool, Fault>
    ensures types { S.types_of opened.new.session.store ≡ S.types_of opened.old.session.store }
    ensures folder { opened.new.folder ≡ opened.old.folder }
    ensures ends { IfErr result EndsLine }
    ensures does { MatchResult result
        (λ removed. TakesIfAny (TakesName (S.types_of opened.old.session.store) opened.old.folder met.entry.1 met.entry.0.now.folder met.entry.0.now.name.items
        (S.state_of opened.old.session.store) (S.state_of opened.new.session.store) opened.old.session.volume opened.new.session.volume)
        is_whole opened.old.told opened.new.told removed)
        (λ told. (fault : Why) × TakesName (S.types_of opened.old.session.store) opened.old.folder met.entry.1 met.entry.0.now.folder
        met.entry.0.now.name.items (S.state_of opened.old.session.store) (S.state_of opened.new.session.store)
        opened.old.session.volume opened.new.session.volume (Err fault)) }
{
    let (step, is_left_behind) = met;
    let place = (step.folder, step.name.as_slice());
    let done = take_name(opened, alloc, walk.path(), place, is_left_behind);
    match done {
        Ok(()) => Ok(true),
        Err(fault) if !is_whole && is_left(&fault) => Ok(false),
        Err(fault) => {
            opened.told.go_on(Err(fault))?;
            Ok(false)
        }
    }
}

/// What a walk comes to, and whether it was behind all in it; and whether something on the way there could not be seen, which is told.
fn next_step<S: FlushStore + Drop>(
    opened: &mut Opened<S>,
    alloc: Global,
    walk: &mut Walk,
) -> Result<(Option<(Step, bool)>, bool), Fault>
    ensures types { S.types_of opened.new.session.store ≡ S.types_of opened.old.session.store }
    ensures folder { opened.new.folder ≡ opened.old.folder }
    ensures same { IsSame (S.state_of opened.old.session.store) (S.state_of opened.new.session.store) opened.old.session.volume opened.new.session.volume }
    ensures comes { IfOk result (λ next. ComesIn (S.state_of opened.old.session.store) opened.old.session.volume IsUnseen (progress walk.old) opened.old.told
        (progress walk.new) opened.new.told (step_visited next.0)) }
    ensures unseen { IfOk result (λ next. next.1 ≡ nat_lt (count_of opened.old.told) (count_of opened.new.told)) }
    ensures ends { IfErr result EndsLine }
{
    let before = opened.told.count();
    let visit = walk.next(&opened.session, alloc, &mut opened.told)?;
    let is_unseen = opened.told.count() > before;
    let step = match visit {
        None => None,
        Some(Visit::Met(step)) => Some((step, false)),
        Some(Visit::Left(step)) => Some((step, true)),
    };
    Ok((step, is_unseen))
}

/// Removes all below a folder, and answers whether nothing is left. Faults are told, but for one that ends the line.
fn empty_folder<S: FlushStore + Drop>(
    opened: &mut Opened<S>,
    alloc: Global,
    path: &str,
    folder: u32,
) -> Result<bool, Fault>
    ensures types { S.types_of opened.new.session.store ≡ S.types_of opened.old.session.store }
    ensures folder { opened.new.folder ≡ opened.old.folder }
    ensures does { MatchResult result
        (λ whole. Empties (S.types_of opened.old.session.store) opened.old.folder path.now folder whole opened.old.told opened.new.told
        (S.state_of opened.old.session.store) (S.state_of opened.new.session.store) opened.old.session.volume opened.new.session.volume)
        (λ fault. EmptiesUpTo (S.types_of opened.old.session.store) opened.old.folder path.now folder opened.old.told
        (S.state_of opened.old.session.store) (S.state_of opened.new.session.store) opened.old.session.volume opened.new.session.volume) }
    ensures ends { IfErr result EndsLine }
{
    let mut is_whole = true;
    let mut walk = Walk::below(alloc, path.as_bytes(), folder)?;
    for _name in 0..u64::MAX {
        let (step, is_unseen) = next_step(opened, alloc, &mut walk)?;
        is_whole = is_whole && !is_unseen;
        let Some((step, is_behind)) = step else {
            break;
        };
        if step.node.is_folder() && !is_behind {
            continue;
        }
        let is_removed = remove_step(opened, alloc, &walk, (&step, is_behind), is_whole)?;
        is_whole = is_whole && is_removed;
    }
    Ok(is_whole)
}

/// Removes a folder of a name and a number with all below it.
fn remove_tree<S: FlushStore + Drop>(
    opened: &mut Opened<S>,
    alloc: Global,
    path: &str,
    place: (u32, &[u8]),
    number: u32,
) -> Result<(), Fault>
    ensures types { S.types_of opened.new.session.store ≡ S.types_of opened.old.session.store }
    ensures folder { opened.new.folder ≡ opened.old.folder }
    ensures does { MatchResult result
        (λ done. RemovesTree (S.types_of opened.old.session.store) opened.old.folder path.now number place.entry.0 place.entry.1.now opened.old.told
        opened.new.told (S.state_of opened.old.session.store) (S.state_of opened.new.session.store) opened.old.session.volume opened.new.session.volume)
        (λ fault. KeepsTree (S.types_of opened.old.session.store) opened.old.folder path.now number place.entry.0 place.entry.1.now fault opened.old.told
        opened.new.told (S.state_of opened.old.session.store) (S.state_of opened.new.session.store) opened.old.session.volume opened.new.session.volume) }
{
    if empty_folder(opened, alloc, path, number)? {
        end_folder(opened, alloc, path.as_bytes(), place)
    } else {
        Ok(())
    }
}

/// Removes what has a name that is there.
fn remove_named<S: FlushStore + Drop>(
    opened: &mut Opened<S>,
    alloc: Global,
    path: &str,
    place: Place,
    how: Removing,
) -> Result<(), Fault>
    ensures types { S.types_of opened.new.session.store ≡ S.types_of opened.old.session.store }
    ensures folder { opened.new.folder ≡ opened.old.folder }
    ensures told { how.is_recursive ≡ false → opened.new.told ≡ opened.old.told }
    ensures does { how.is_recursive ≡ false → MatchResult result
        (λ done. RemovesNamed how.is_forced (S.types_of opened.old.session.store) opened.old.folder place.entry.folder place.entry.name.now
        place.entry.has_slash
        (S.state_of opened.old.session.store) (S.state_of opened.new.session.store) opened.old.session.volume opened.new.session.volume)
        (λ fault. IsNameKept (S.types_of opened.old.session.store) opened.old.folder place.entry.folder place.entry.name.now place.entry.has_slash
        (S.state_of opened.old.session.store) (S.state_of opened.new.session.store) opened.old.session.volume opened.new.session.volume) }
    ensures all { how.is_recursive ≡ true → MatchResult result
        (λ done. RemovesAllNamed how.is_forced (S.types_of opened.old.session.store) opened.old.folder path.now place.entry.folder place.entry.name.now
        place.entry.has_slash opened.old.told opened.new.told
        (S.state_of opened.old.session.store) (S.state_of opened.new.session.store) opened.old.session.volume opened.new.session.volume)
        (λ fault. KeepsNamed (S.types_of opened.old.session.store) opened.old.folder path.now place.entry.folder place.entry.name.now place.entry.has_slash
        fault opened.old.told opened.new.told
        (S.state_of opened.old.session.store) (S.state_of opened.new.session.store) opened.old.session.volume opened.new.session.volume) }
{
    let node = match there(&opened.session, place) {
        Ok(Some(node)) => node,
        Ok(None) if how.is_forced => return Ok(()),
        Ok(None) => return Err(at(alloc, path, Reason::Missing)),
        Err(reason) => return Err(at(alloc, path, reason)),
    };
    let named = (place.folder, place.name);
    match node.is_folder() {
        false if place.has_slash => Err(at(alloc, path, Reason::NoFolder)),
        false => unlink(opened, alloc, path.as_bytes(), named),
        true if !how.is_recursive => Err(at(alloc, path, Reason::Folder)),
        true => remove_tree(opened, alloc, path, named, node.number),
    }
}

/// Whether a fault is that of a path that leads to nothing.
fn is_missing(fault: &Fault) -> bool
    ensures { result ≡ true → TellsMissing fault.now }
{
    match fault {
        Fault::At {
            path: _,
            reason: Reason::Missing | Reason::NoFolder,
        } => true,
        _ => false,
    }
}

/// Removes what stands at a path.
fn remove_one<S: FlushStore + Drop>(
    opened: &mut Opened<S>,
    alloc: Global,
    path: &str,
    how: Removing,
) -> Result<(), Fault>
    ensures types { S.types_of opened.new.session.store ≡ S.types_of opened.old.session.store }
    ensures folder { opened.new.folder ≡ opened.old.folder }
    ensures told { how.is_recursive ≡ false → opened.new.told ≡ opened.old.told }
    ensures does { how.is_recursive ≡ false →
        AtPath (Removes how.is_forced (S.types_of opened.old.session.store) opened.old.folder)
        (IsKept (S.types_of opened.old.session.store) opened.old.folder) path.now
        (S.state_of opened.old.session.store) (S.state_of opened.new.session.store) opened.old.session.volume opened.new.session.volume result }
    ensures all { how.is_recursive ≡ true →
        AtPathTold (RemovesAll how.is_forced (S.types_of opened.old.session.store) opened.old.folder)
        (KeepsSome (S.types_of opened.old.session.store) opened.old.folder) path.now opened.old.told opened.new.told
        (S.state_of opened.old.session.store) (S.state_of opened.new.session.store) opened.old.session.volume opened.new.session.volume result }
{
    match place_of(&opened.session, alloc, opened.folder, path) {
        Ok(place) => {
            let _own = own_name(alloc, path)?;
            remove_named(opened, alloc, path, place, how)
        }
        Err(fault) if how.is_forced && is_missing(&fault) => Ok(()),
        Err(fault) => Err(fault),
    }
}

/// `rm`: takes names of files and symbolic links, and gives up folders with all below them where that is asked. The top folder stays.
pub fn remove<S: FlushStore + Drop>(
    opened: &mut Opened<S>,
    alloc: Global,
    paths: &[&str],
    how: Removing,
) -> Result<(), Fault>
    ensures types { S.types_of opened.new.session.store ≡ S.types_of opened.old.session.store }
    ensures folder { opened.new.folder ≡ opened.old.folder }
    ensures does { how.is_recursive ≡ false →
        DoesPaths (Removes how.is_forced (S.types_of opened.old.session.store) opened.old.folder)
        (IsKept (S.types_of opened.old.session.store) opened.old.folder) (map (λ path. path.now) paths.now)
        opened.old.told opened.new.told (S.state_of opened.old.session.store) (S.state_of opened.new.session.store)
        opened.old.session.volume opened.new.session.volume result }
    ensures all { how.is_recursive ≡ true →
        TellsPaths (RemovesAll how.is_forced (S.types_of opened.old.session.store) opened.old.folder)
        (KeepsSome (S.types_of opened.old.session.store) opened.old.folder) (map (λ path. path.now) paths.now)
        opened.old.told opened.new.told (S.state_of opened.old.session.store) (S.state_of opened.new.session.store)
        opened.old.session.volume opened.new.session.volume result }
    ensures ends { IfErr result EndsLine }
{
    for path in paths {
        let done = remove_one(opened, alloc, path, how);
        opened.told.go_on(done)?;
    }
    Ok(())
}
