// A copy gets one more name. Where that is another file's it has a name beside its place first, and then is moved there.

ghost use Rattle.std.specs.Prelude.{◌≡◌, IfOk, MatchResult, None, Ok, Result};
ghost use Rattle.std.specs.String.{string_bytes};
ghost use Rattle.treefs_model.specs.declared.fault.Fault.{Fault as Why};
ghost use Rattle.tree_lines.specs.Answers.{Answers};
ghost use Rattle.tree_lines.specs.Places.{IsThere};
ghost use Rattle.tree_lines.specs.Trees.{IsThereIn};
ghost use Rattle.tree_changes.specs.MoreNames.{PutsName};
ghost use Rattle.tree_changes.specs.Moving.{RenameIn};
ghost use Rattle.tree_changes.specs.Paths.{IsRefused};
ghost use Rattle.tree_changes.specs.Removing.{UnlinkIn};

use crate::copies::Copied;
use flush_store::FlushStore;
use std::alloc::Global;
use tree_lines::{Change, Fault, Opened, Place, Reason, View, at_bytes, there};

/// So many names are tried for one beside a place. A stop may leave it.
const MOST_NAMES: u32 = 10_000;

/// A name in a folder that nothing has.
fn free_name<V: View>(view: &V, alloc: Global, folder: u32) -> Result<String, Reason>
    ensures { IfOk result (λ name. IsThere (V.names_number view.now) (V.shows view.now) folder (string_bytes name) None) }
{
    for number in 0..MOST_NAMES {
        let name = format!(in alloc; ".xnfs-copy-{number}")?;
        let place = Place {
            folder,
            name: name.as_bytes(),
            has_slash: false,
        };
        if there(view, place)?.is_none() {
            return Ok(name);
        }
    }
    Err(Reason::There)
}

/// A name beside the place of a copy that nothing has.
fn name_beside<S: FlushStore + Drop>(
    opened: &Opened<S>,
    alloc: Global,
    copied: &Copied,
) -> Result<String, Fault>
    ensures { IfOk result (λ name. IsThereIn (S.state_of opened.now.session.store) opened.now.session.volume copied.now.place.folder (string_bytes name) None) }
{
    match free_name(&opened.session, alloc, copied.place.folder) {
        Ok(name) => Ok(name),
        Err(reason) => Err(at_bytes(alloc, copied.to, reason)),
    }
}

/// Moves a name of a folder to that of a copy.
fn move_to_place<S: FlushStore + Drop>(
    opened: &mut Opened<S>,
    alloc: Global,
    copied: &Copied,
    name: &str,
) -> Result<(), Fault>
    ensures types { S.types_of opened.new.session.store ≡ S.types_of opened.old.session.store }
    ensures folder { opened.new.folder ≡ opened.old.folder }
    ensures told { opened.new.told ≡ opened.old.told }
    ensures does { Answers (RenameIn (S.types_of opened.old.session.store) opened.old.folder copied.now.place.folder name.now
        copied.now.place.folder copied.now.place.name.now
        (S.state_of opened.old.session.store) (S.state_of opened.new.session.store) opened.old.session.volume opened.new.session.volume) result }
{
    let rename = Change::Rename {
        directory: copied.place.folder,
        name: name.as_bytes(),
        new_directory: copied.place.folder,
        new_name: copied.place.name,
    };
    opened.make_name(alloc, copied.to, &rename)
}

/// Takes a name beside the place of a copy away again. That this fails is not told beside the fault that was before.
fn take_back<S: FlushStore + Drop>(
    opened: &mut Opened<S>,
    alloc: Global,
    copied: &Copied,
    name: &str,
)
    ensures types { S.types_of opened.new.session.store ≡ S.types_of opened.old.session.store }
    ensures folder { opened.new.folder ≡ opened.old.folder }
    ensures told { opened.new.told ≡ opened.old.told }
    ensures does { (taken : Result (Unit {0}) Why) × UnlinkIn (S.types_of opened.old.session.store) opened.old.folder copied.now.place.folder name.now
        (S.state_of opened.old.session.store) (S.state_of opened.new.session.store) opened.old.session.volume opened.new.session.volume taken }
{
    let unlink = Change::Unlink {
        directory: copied.place.folder,
        name: name.as_bytes(),
    };
    let _unlinked = opened.make(alloc, copied.to, &unlink);
}

/// Gives a number one more name, in the place of what has it.
pub fn put_name<S: FlushStore + Drop>(
    opened: &mut Opened<S>,
    alloc: Global,
    copied: &Copied,
    number: u32,
) -> Result<(), Fault>
    ensures types { S.types_of opened.new.session.store ≡ S.types_of opened.old.session.store }
    ensures folder { opened.new.folder ≡ opened.old.folder }
    ensures told { opened.new.told ≡ opened.old.told }
    ensures does { MatchResult result
        (λ done. PutsName (S.types_of opened.old.session.store) opened.old.folder number copied.now.place.folder copied.now.place.name.now
        (S.state_of opened.old.session.store) (S.state_of opened.new.session.store) opened.old.session.volume opened.new.session.volume (Ok tt))
        (λ fault. IsRefused (PutsName (S.types_of opened.old.session.store) opened.old.folder number copied.now.place.folder copied.now.place.name.now
        (S.state_of opened.old.session.store) (S.state_of opened.new.session.store) opened.old.session.volume opened.new.session.volume)
        (S.state_of opened.old.session.store) (S.state_of opened.new.session.store) opened.old.session.volume opened.new.session.volume) }
{
    let directory = copied.place.folder;
    let is_there = match there(&opened.session, copied.place) {
        Ok(other) => other.is_some(),
        Err(reason) => return Err(at_bytes(alloc, copied.to, reason)),
    };
    if !is_there {
        let name = copied.place.name;
        let link = Change::Link {
            number,
            directory,
            name,
        };
        return opened.make_name(alloc, copied.to, &link);
    }
    let name = name_beside(opened, alloc, copied)?;
    let link = Change::Link {
        number,
        directory,
        name: name.as_bytes(),
    };
    opened.make_name(alloc, copied.to, &link)?;
    let moved = move_to_place(opened, alloc, copied, &name);
    if moved.is_err() {
        take_back(opened, alloc, copied, &name);
    }
    moved
}
