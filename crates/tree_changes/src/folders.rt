// The words `mkdir` and `rmdir`.

ghost use Rattle.std.specs.Prelude.{◌≡◌, map};
ghost use Rattle.tree_changes.specs.Folders.{GivesUpFolder, IsFolderKept};
ghost use Rattle.tree_changes.specs.Making.{HasFolder, HasFolders, IsLeftUnmade, IsUnmade, LacksFolders, Makes, MakesFolder};
ghost use Rattle.tree_changes.specs.Paths.{AtPath, DoesPaths};

use crate::attributes::attributes_with;
use flush_store::FlushStore;
use std::alloc::Global;
use tree_lines::{Change, Fault, Mkdir, Opened, Reason, View, at, place_of};

/// The permissions of a new folder.
const PERMISSIONS: u16 = 0o755;

/// Makes the folder of a path, in a folder that is there.
fn make_folder<S: FlushStore + Drop>(
    opened: &mut Opened<S>,
    alloc: Global,
    path: &str,
) -> Result<(), Fault>
    ensures types { S.types_of opened.new.session.store ≡ S.types_of opened.old.session.store }
    ensures folder { opened.new.folder ≡ opened.old.folder }
    ensures told { opened.new.told ≡ opened.old.told }
    ensures does { AtPath (MakesFolder (S.types_of opened.old.session.store) opened.old.folder)
        (IsUnmade (S.types_of opened.old.session.store) opened.old.folder) path.now
        (S.state_of opened.old.session.store) (S.state_of opened.new.session.store) opened.old.session.volume opened.new.session.volume result }
{
    let place = place_of(&opened.session, alloc, opened.folder, path)?;
    let mkdir = Mkdir {
        directory: place.folder,
        name: place.name,
        attributes: attributes_with(opened, PERMISSIONS),
    };
    let _number = opened.make_name(alloc, path.as_bytes(), &mkdir)?;
    Ok(())
}

/// Makes the folder of a path, if it is not there.
fn make_missing<S: FlushStore + Drop>(
    opened: &mut Opened<S>,
    alloc: Global,
    path: &str,
) -> Result<(), Fault>
    ensures types { S.types_of opened.new.session.store ≡ S.types_of opened.old.session.store }
    ensures folder { opened.new.folder ≡ opened.old.folder }
    ensures told { opened.new.told ≡ opened.old.told }
    ensures does { AtPath (HasFolder (S.types_of opened.old.session.store) opened.old.folder)
        (IsUnmade (S.types_of opened.old.session.store) opened.old.folder) path.now
        (S.state_of opened.old.session.store) (S.state_of opened.new.session.store) opened.old.session.volume opened.new.session.volume result }
{
    let view = &opened.session;
    let found = match View::find(view, alloc, opened.folder, path.as_bytes(), true) {
        Ok(number) => view.node(number),
        Err(reason) => Err(reason),
    };
    match found {
        Ok(node) if node.is_folder() => Ok(()),
        Ok(_) => Err(at(alloc, path, Reason::NoFolder)),
        Err(Reason::Missing) => make_folder(opened, alloc, path),
        Err(reason) => Err(at(alloc, path, reason)),
    }
}

/// Makes the folder of a path, and those above it that are not there.
fn make_with_parents<S: FlushStore + Drop>(
    opened: &mut Opened<S>,
    alloc: Global,
    path: &str,
) -> Result<(), Fault>
    ensures types { S.types_of opened.new.session.store ≡ S.types_of opened.old.session.store }
    ensures folder { opened.new.folder ≡ opened.old.folder }
    ensures told { opened.new.told ≡ opened.old.told }
    ensures does { AtPath (HasFolders (S.types_of opened.old.session.store) opened.old.folder)
        (LacksFolders (S.types_of opened.old.session.store) opened.old.folder) path.now
        (S.state_of opened.old.session.store) (S.state_of opened.new.session.store) opened.old.session.volume opened.new.session.volume result }
{
    for (end, byte) in path.bytes().enumerate() {
        if byte == b'/' && end > 0 {
            make_missing(opened, alloc, &path[..end])?;
        }
    }
    if path.is_empty() {
        return make_folder(opened, alloc, path);
    }
    make_missing(opened, alloc, path)
}

/// Makes the folder of a path, with those above it where that is asked.
fn make_one<S: FlushStore + Drop>(
    opened: &mut Opened<S>,
    alloc: Global,
    path: &str,
    has_parents: bool,
) -> Result<(), Fault>
    ensures types { S.types_of opened.new.session.store ≡ S.types_of opened.old.session.store }
    ensures folder { opened.new.folder ≡ opened.old.folder }
    ensures told { opened.new.told ≡ opened.old.told }
    ensures does { AtPath (Makes has_parents (S.types_of opened.old.session.store) opened.old.folder)
        (IsLeftUnmade has_parents (S.types_of opened.old.session.store) opened.old.folder) path.now
        (S.state_of opened.old.session.store) (S.state_of opened.new.session.store) opened.old.session.volume opened.new.session.volume result }
{
    if has_parents {
        make_with_parents(opened, alloc, path)
    } else {
        make_folder(opened, alloc, path)
    }
}

/// `mkdir`: makes folders; with `has_parents` also those above them that are not there, and no fault is one that is there.
pub fn make_folders<S: FlushStore + Drop>(
    opened: &mut Opened<S>,
    alloc: Global,
    paths: &[&str],
    has_parents: bool,
) -> Result<(), Fault>
    ensures types { S.types_of opened.new.session.store ≡ S.types_of opened.old.session.store }
    ensures folder { opened.new.folder ≡ opened.old.folder }
    ensures does { DoesPaths (Makes has_parents (S.types_of opened.old.session.store) opened.old.folder)
        (IsLeftUnmade has_parents (S.types_of opened.old.session.store) opened.old.folder) (map (λ path. path.now) paths.now)
        opened.old.told opened.new.told (S.state_of opened.old.session.store) (S.state_of opened.new.session.store)
        opened.old.session.volume opened.new.session.volume result }
{
    for path in paths {
        let done = make_one(opened, alloc, path, has_parents);
        opened.told.go_on(done)?;
    }
    Ok(())
}

/// Gives up the empty folder of a path.
fn remove_folder<S: FlushStore + Drop>(
    opened: &mut Opened<S>,
    alloc: Global,
    path: &str,
) -> Result<(), Fault>
    ensures types { S.types_of opened.new.session.store ≡ S.types_of opened.old.session.store }
    ensures folder { opened.new.folder ≡ opened.old.folder }
    ensures told { opened.new.told ≡ opened.old.told }
    ensures does { AtPath (GivesUpFolder (S.types_of opened.old.session.store) opened.old.folder)
        (IsFolderKept (S.types_of opened.old.session.store) opened.old.folder) path.now
        (S.state_of opened.old.session.store) (S.state_of opened.new.session.store) opened.old.session.volume opened.new.session.volume result }
{
    let place = place_of(&opened.session, alloc, opened.folder, path)?;
    let rmdir = Change::Rmdir {
        directory: place.folder,
        name: place.name,
    };
    opened.make(alloc, path.as_bytes(), &rmdir)
}

/// `rmdir`: gives empty folders up.
pub fn remove_folders<S: FlushStore + Drop>(
    opened: &mut Opened<S>,
    alloc: Global,
    paths: &[&str],
) -> Result<(), Fault>
    ensures types { S.types_of opened.new.session.store ≡ S.types_of opened.old.session.store }
    ensures folder { opened.new.folder ≡ opened.old.folder }
    ensures does { DoesPaths (GivesUpFolder (S.types_of opened.old.session.store) opened.old.folder)
        (IsFolderKept (S.types_of opened.old.session.store) opened.old.folder) (map (λ path. path.now) paths.now) opened.old.told opened.new.told
        (S.state_of opened.old.session.store) (S.state_of opened.new.session.store) opened.old.session.volume opened.new.session.volume result }
{
    for path in paths {
        let done = remove_folder(opened, alloc, path);
        opened.told.go_on(done)?;
    }
    Ok(())
}
