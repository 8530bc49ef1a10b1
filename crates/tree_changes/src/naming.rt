// The word `ln`.

ghost use Rattle.std.specs.Prelude.{◌≡◌, IfOk, MatchResult};
ghost use Rattle.tree_changes.specs.Naming.{IsOwnFor, IsUnlinked, IsUnlinkedTo, Links, LinksTo};
ghost use Rattle.tree_changes.specs.declared.naming.Linking.TheVariants.{Hard, Symbolic};

use crate::attributes::attributes_with;
use crate::moving::goal_path;
use flush_store::FlushStore;
use std::alloc::Global;
use tree_lines::{
    Change, Fault, Opened, Place, Put, Reason, at, at_bytes, find, find_to, last_name, own_name,
};
use treefs_format::Kind;

/// How many bytes the target of a symbolic link has at most.
const TARGET_LEN: usize = 4_096;

/// The permissions of a symbolic link.
const PERMISSIONS: u16 = 0o777;

/// What `ln` makes.
#[derive(Clone, Copy, Debug, PartialEq, Eq)]
pub enum Linking {
    /// One more name of a file or a symbolic link.
    Hard,
    /// A symbolic link.
    Symbolic,
}

/// Gives what stands at a path one more name.
fn link_hard<S: FlushStore + Drop>(
    opened: &mut Opened<S>,
    alloc: Global,
    target: &str,
    to: (&[u8], Place),
) -> Result<(), Fault>
    ensures types { S.types_of opened.new.session.store ≡ S.types_of opened.old.session.store }
    ensures folder { opened.new.folder ≡ opened.old.folder }
    ensures told { opened.new.told ≡ opened.old.told }
    ensures does { MatchResult result
        (λ done. LinksTo (S.types_of opened.old.session.store) opened.old.folder Hard target.now to.entry.1.folder to.entry.1.name.now
        (S.state_of opened.old.session.store) (S.state_of opened.new.session.store) opened.old.session.volume opened.new.session.volume)
        (λ fault. IsUnlinkedTo (S.types_of opened.old.session.store) opened.old.folder Hard target.now to.entry.1.folder to.entry.1.name.now
        (S.state_of opened.old.session.store) (S.state_of opened.new.session.store) opened.old.session.volume opened.new.session.volume) }
{
    let (path, place) = to;
    let node = find(&opened.session, alloc, opened.folder, target, false)?;
    if node.is_folder() {
        return Err(at(alloc, target, Reason::Folder));
    }
    let link = Change::Link {
        number: node.number,
        directory: place.folder,
        name: place.name,
    };
    opened.make_name(alloc, path, &link)
}

/// Makes a symbolic link.
fn link_symbolic<S: FlushStore + Drop>(
    opened: &mut Opened<S>,
    alloc: Global,
    target: &str,
    to: (&[u8], Place),
) -> Result<(), Fault>
    ensures types { S.types_of opened.new.session.store ≡ S.types_of opened.old.session.store }
    ensures folder { opened.new.folder ≡ opened.old.folder }
    ensures told { opened.new.told ≡ opened.old.told }
    ensures does { MatchResult result
        (λ done. LinksTo (S.types_of opened.old.session.store) opened.old.folder Symbolic target.now to.entry.1.folder to.entry.1.name.now
        (S.state_of opened.old.session.store) (S.state_of opened.new.session.store) opened.old.session.volume opened.new.session.volume)
        (λ fault. IsUnlinkedTo (S.types_of opened.old.session.store) opened.old.folder Symbolic target.now to.entry.1.folder to.entry.1.name.now
        (S.state_of opened.old.session.store) (S.state_of opened.new.session.store) opened.old.session.volume opened.new.session.volume) }
{
    let (path, place) = to;
    if target.len() > TARGET_LEN {
        return Err(at_bytes(alloc, path, Reason::LongTarget));
    }
    let put = Put {
        directory: place.folder,
        name: place.name,
        kind: Kind::SymbolicLink,
        attributes: attributes_with(opened, PERMISSIONS),
        bytes: target.as_bytes(),
        replace: false,
    };
    let _number = opened.put(alloc, path, &put)?;
    Ok(())
}

/// The name that a target has, in a folder that is there.
fn own_of(alloc: Global, target: &str, linking: Linking) -> Result<&[u8], Fault>
    ensures { IfOk result (λ own. IsOwnFor linking target.now own.now) }
{
    match linking {
        Linking::Hard => own_name(alloc, target),
        Linking::Symbolic => Ok(last_name(target.as_bytes())),
    }
}

/// Makes what `ln` makes at a place.
fn link_to<S: FlushStore + Drop>(
    opened: &mut Opened<S>,
    alloc: Global,
    target: &str,
    to: (&[u8], Place),
    linking: Linking,
) -> Result<(), Fault>
    ensures types { S.types_of opened.new.session.store ≡ S.types_of opened.old.session.store }
    ensures folder { opened.new.folder ≡ opened.old.folder }
    ensures told { opened.new.told ≡ opened.old.told }
    ensures does { MatchResult result
        (λ done. LinksTo (S.types_of opened.old.session.store) opened.old.folder linking target.now to.entry.1.folder to.entry.1.name.now
        (S.state_of opened.old.session.store) (S.state_of opened.new.session.store) opened.old.session.volume opened.new.session.volume)
        (λ fault. IsUnlinkedTo (S.types_of opened.old.session.store) opened.old.folder linking target.now to.entry.1.folder to.entry.1.name.now
        (S.state_of opened.old.session.store) (S.state_of opened.new.session.store) opened.old.session.volume opened.new.session.volume) }
{
    match linking {
        Linking::Hard => link_hard(opened, alloc, target, to),
        Linking::Symbolic => link_symbolic(opened, alloc, target, to),
    }
}

/// `ln`: gives a file one more name, or makes a symbolic link with a target, which is not looked up. In a folder that is there the name is the last one of the
/// target.
pub fn link<S: FlushStore + Drop>(
    opened: &mut Opened<S>,
    alloc: Global,
    target: &str,
    name: &str,
    linking: Linking,
) -> Result<(), Fault>
    ensures types { S.types_of opened.new.session.store ≡ S.types_of opened.old.session.store }
    ensures folder { opened.new.folder ≡ opened.old.folder }
    ensures told { opened.new.told ≡ opened.old.told }
    ensures does { MatchResult result
        (λ done. Links (S.types_of opened.old.session.store) opened.old.folder linking target.now name.now
        (S.state_of opened.old.session.store) (S.state_of opened.new.session.store) opened.old.session.volume opened.new.session.volume)
        (λ fault. IsUnlinked (S.types_of opened.old.session.store) opened.old.folder linking target.now name.now
        (S.state_of opened.old.session.store) (S.state_of opened.new.session.store) opened.old.session.volume opened.new.session.volume) }
{
    if target.is_empty() {
        return Err(Fault::Volume(Reason::Empty));
    }
    let goal = find_to(&opened.session, alloc, opened.folder, name, false)?;
    let own = own_of(alloc, target, linking)?;
    let path = goal_path(alloc, name, goal, own)?;
    let place = goal.place(own);
    if place.has_slash {
        return Err(at_bytes(alloc, &path, Reason::Missing));
    }
    link_to(opened, alloc, target, (&path, place), linking)
}
