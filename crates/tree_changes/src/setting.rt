// The words `chmod` and `chown`.

ghost use Rattle.std.specs.Prelude.{◌≡◌, IfErr, false, map, true};
ghost use Rattle.tree_lines.specs.Answers.{Answers};
ghost use Rattle.tree_lines.specs.Telling.{EndsLine};
ghost use Rattle.tree_changes.specs.Attributes.{IsSet, IsUnset, SetsIfAny, set_of};
ghost use Rattle.tree_changes.specs.Below.{SetsBelow, SetsTree, SetsTreeAt, SetsTreeUpTo};
ghost use Rattle.tree_changes.specs.Paths.{AtPath, DoesPaths};
ghost use Rattle.tree_changes.specs.PathsTold.{TellsPaths};

use crate::modes::Modes;
use crate::owners::Owners;
use flush_store::FlushStore;
use std::alloc::Global;
use tree_lines::{Change, Fault, Node, Opened, Settings, Walk, find};

/// What is set.
#[derive(Debug, Drop)]
pub enum Setting {
    Modes(Modes),
    Owners(Owners),
}

impl Setting {
    /// What is set of a node; nothing of the modes of symbolic links.
    fn attributes_of(&self, node: &Node) -> Option<Settings>
        ensures { result ≡ set_of self.now node.now }
    {
        match self {
            Setting::Modes(_) if node.is_link() => None,
            Setting::Modes(modes) => Some(Settings {
                permissions: Some(modes.apply(node.permissions, node.is_folder())),
                owner: None,
                mtime: None,
            }),
            Setting::Owners(owners) => Some(Settings {
                permissions: None,
                owner: Some(owners.owner_of(node)),
                mtime: None,
            }),
        }
    }
}

/// Sets what is to be set of a node.
fn set_node<S: FlushStore + Drop>(
    opened: &mut Opened<S>,
    alloc: Global,
    path: &[u8],
    node: &Node,
    setting: &Setting,
) -> Result<(), Fault>
    ensures types { S.types_of opened.new.session.store ≡ S.types_of opened.old.session.store }
    ensures folder { opened.new.folder ≡ opened.old.folder }
    ensures told { opened.new.told ≡ opened.old.told }
    ensures does { Answers (SetsIfAny (S.types_of opened.old.session.store) opened.old.folder node.now.number (set_of setting.now node.now)
        (S.state_of opened.old.session.store) (S.state_of opened.new.session.store) opened.old.session.volume opened.new.session.volume) result }
{
    match setting.attributes_of(node) {
        Some(settings) => {
            let set = Change::SetAttributes {
                number: node.number,
                settings,
            };
            opened.make(alloc, path, &set)
        }
        None => Ok(()),
    }
}

/// Sets what is to be set of all that stands below a folder. Faults are told, but for one that ends the line.
fn set_below<S: FlushStore + Drop>(
    opened: &mut Opened<S>,
    alloc: Global,
    path: &str,
    folder: u32,
    setting: &Setting,
) -> Result<(), Fault>
    ensures types { S.types_of opened.new.session.store ≡ S.types_of opened.old.session.store }
    ensures folder { opened.new.folder ≡ opened.old.folder }
    ensures does { SetsBelow setting.now (S.types_of opened.old.session.store) opened.old.folder path.now folder opened.old.told opened.new.told
        (S.state_of opened.old.session.store) (S.state_of opened.new.session.store) opened.old.session.volume opened.new.session.volume result }
    ensures ends { IfErr result EndsLine }
{
    let mut walk = Walk::below(alloc, path.as_bytes(), folder)?;
    for _name in 0..u64::MAX {
        let Some(step) = walk.next_met(&opened.session, alloc, &mut opened.told)? else {
            break;
        };
        let done = set_node(opened, alloc, walk.path(), &step.node, setting);
        opened.told.go_on(done)?;
    }
    Ok(())
}

/// Sets what is to be set at a path, and below it where that is asked.
fn set_one<S: FlushStore + Drop>(
    opened: &mut Opened<S>,
    alloc: Global,
    path: &str,
    setting: &Setting,
    is_recursive: bool,
) -> Result<(), Fault>
    ensures types { S.types_of opened.new.session.store ≡ S.types_of opened.old.session.store }
    ensures folder { opened.new.folder ≡ opened.old.folder }
    ensures told { is_recursive ≡ false → opened.new.told ≡ opened.old.told }
    ensures does { is_recursive ≡ false →
        AtPath (IsSet setting.now (S.types_of opened.old.session.store) opened.old.folder)
        (IsUnset setting.now (S.types_of opened.old.session.store) opened.old.folder) path.now
        (S.state_of opened.old.session.store) (S.state_of opened.new.session.store) opened.old.session.volume opened.new.session.volume result }
    ensures below { is_recursive ≡ true →
        SetsTreeAt setting.now (S.types_of opened.old.session.store) opened.old.folder path.now opened.old.told opened.new.told
        (S.state_of opened.old.session.store) (S.state_of opened.new.session.store) opened.old.session.volume opened.new.session.volume result }
{
    let node = find(&opened.session, alloc, opened.folder, path, true)?;
    set_node(opened, alloc, path.as_bytes(), &node, setting)?;
    if is_recursive && node.is_folder() {
        return set_below(opened, alloc, path, node.number, setting);
    }
    Ok(())
}

/// `chmod` and `chown`: sets modes or owners at some paths, over symbolic links, and with `is_recursive` of all below them, where symbolic links are not
/// followed.
pub fn set_attributes<S: FlushStore + Drop>(
    opened: &mut Opened<S>,
    alloc: Global,
    paths: &[&str],
    setting: &Setting,
    is_recursive: bool,
) -> Result<(), Fault>
    ensures types { S.types_of opened.new.session.store ≡ S.types_of opened.old.session.store }
    ensures folder { opened.new.folder ≡ opened.old.folder }
    ensures does { is_recursive ≡ false →
        DoesPaths (IsSet setting.now (S.types_of opened.old.session.store) opened.old.folder)
        (IsUnset setting.now (S.types_of opened.old.session.store) opened.old.folder) (map (λ path. path.now) paths.now)
        opened.old.told opened.new.told (S.state_of opened.old.session.store) (S.state_of opened.new.session.store)
        opened.old.session.volume opened.new.session.volume result }
    ensures below { is_recursive ≡ true →
        TellsPaths (SetsTree setting.now (S.types_of opened.old.session.store) opened.old.folder)
        (SetsTreeUpTo setting.now (S.types_of opened.old.session.store) opened.old.folder) (map (λ path. path.now) paths.now)
        opened.old.told opened.new.told (S.state_of opened.old.session.store) (S.state_of opened.new.session.store)
        opened.old.session.volume opened.new.session.volume result }
    ensures ends { IfErr result EndsLine }
{
    for path in paths {
        let done = set_one(opened, alloc, path, setting, is_recursive);
        opened.told.go_on(done)?;
    }
    Ok(())
}
