// A folder of a volume with all below it is brought out.

use crate::leaving::Leaving;
use crate::naming::{SystemName, system_name};
use host_trees::{Host, Kind, Settings, joined};
use std::alloc::{AllocError, Global};
use std::io;
use std::io::ErrorKind;
use system_files::WriteFault;
use tree_lines::{
    Fault, Node, Reason, Step, View, Visit, Walk, at, at_bytes, not_written, shown, system,
};
use treefs_format::Kind as NodeKind;

/// A folder of the system that is filled.
#[derive(Debug, Drop)]
struct Filled {
    target: String,
    /// What is set of it once it is full.
    settings: Option<Settings>,
}

/// What is told of a name that is no text.
const ESCAPED: &str = "gets this name in the system, escaped";

/// What is told of one where its folder has the name, too, that it would get.
const NUMBERED: &str = "gets this name in the system, escaped and with a number behind it";

/// An escaped name, and a number behind it where its folder has that name, too. No name has such an end where it is escaped. Answers whether there is a number.
fn apart<V: View, H: Host>(
    leaving: &Leaving<V, H>,
    folder: u32,
    name: String,
) -> Result<(String, bool), AllocError> {
    if leaving.view.look_up(folder, name.as_bytes()).is_err() {
        return Ok((name, false));
    }
    for number in 1..u32::MAX {
        let numbered = format!(in leaving.alloc; "{name}\\{number}")?;
        if leaving.view.look_up(folder, numbered.as_bytes()).is_err() {
            return Ok((numbered, true));
        }
    }
    Ok((name, false))
}

/// What a name is called in a folder of the system. Where that is not the same it is told. Names of one folder get names of their own.
pub fn told_name<V: View, H: Host>(
    leaving: &mut Leaving<V, H>,
    path: &[u8],
    (folder, name): (Option<u32>, &[u8]),
) -> Result<String, Fault> {
    let alloc = leaving.alloc;
    let name = match system_name(alloc, name)? {
        SystemName::Same(name) => return Ok(name),
        SystemName::Escaped(name) => name,
        SystemName::Bad => return Err(at_bytes(alloc, path, Reason::BadName)),
    };
    let (name, is_numbered) = match folder {
        Some(folder) => apart(leaving, folder, name)?,
        None => (name, false),
    };
    let word = shown(alloc, path)?;
    let wanted = if is_numbered { NUMBERED } else { ESCAPED };
    leaving.told.tell(Fault::Word { word, wanted })?;
    Ok(name)
}

/// Makes a folder of the system where none is. It has the permissions that the system gives, unless others are set once it is full: then nobody but its owner
/// may enter it until then.
fn make_missing<V: View, H: Host>(leaving: &Leaving<V, H>, target: &str) -> Result<(), Fault> {
    let made = if leaving.keeps_attributes {
        leaving.host.make_folder(target)
    } else {
        leaving.host.make_folders(target)
    };
    match made {
        Ok(()) => Ok(()),
        Err(error) => Err(system(leaving.alloc, target.as_bytes(), error)),
    }
}

/// Makes a folder of the system, which may be there, but not as a link to one.
pub fn make_folder<V: View, H: Host>(leaving: &Leaving<V, H>, target: &str) -> Result<(), Fault> {
    let alloc = leaving.alloc;
    match leaving.attributes_at(target)? {
        None => make_missing(leaving, target),
        Some(there) => match there.kind {
            Kind::Folder => Ok(()),
            Kind::SymbolicLink => Err(not_written(alloc, target.as_bytes(), WriteFault::Link)),
            Kind::File | Kind::Other => Err(at(alloc, target, Reason::NoFolder)),
        },
    }
}

/// Sets what is to be set of a folder that is full.
fn settle<V: View, H: Host>(leaving: &mut Leaving<V, H>, folder: Filled) -> Result<(), Fault> {
    let Some(settings) = &folder.settings else {
        return Ok(());
    };
    let target = folder.target.as_str();
    match leaving.host.set_folder(target, settings) {
        Ok(()) => Ok(()),
        Err(error) => {
            let fault = system(leaving.alloc, target.as_bytes(), error);
            leaving.told.go_on(Err(fault))
        }
    }
}

/// Brings a name below a folder out. Answers the folder of the system that it is, where it is one.
fn bring_step<V: View, H: Host>(
    leaving: &mut Leaving<V, H>,
    folder: &str,
    path: &[u8],
    step: &Step,
) -> Result<Option<Filled>, Fault> {
    let name = told_name(leaving, path, (Some(step.folder), &step.name))?;
    let target = joined(leaving.alloc, folder, name.as_str())?;
    match step.node.kind {
        NodeKind::File => leaving.bring_file_below(&step.node, path, target.as_str(), false)?,
        NodeKind::SymbolicLink => leaving.bring_link(&step.node, path, target.as_str())?,
        NodeKind::Directory => {
            make_folder(leaving, target.as_str())?;
            let settings = leaving.settings_of(&step.node);
            return Ok(Some(Filled { target, settings }));
        }
    }
    Ok(None)
}

/// What a walk out of a volume is in: folders of the system that are filled, and for those that could not be made nothing.
#[derive(Drop)]
struct Folders {
    folders: Vec<Option<Filled>>,
}

impl Folders {
    /// The path of the one that is filled.
    fn last(&self, alloc: Global) -> Result<Option<String>, Fault> {
        match self.folders.last() {
            Some(Some(folder)) => Ok(Some(String::from_str(alloc, folder.target.as_str())?)),
            _ => Ok(None),
        }
    }
}

/// Brings a name out that a walk has met.
fn meet<V: View, H: Host>(
    leaving: &mut Leaving<V, H>,
    folders: &mut Folders,
    walk: &mut Walk,
    step: &Step,
) -> Result<(), Fault> {
    let Some(folder) = folders.last(leaving.alloc)? else {
        walk.pass_over();
        if step.node.is_folder() {
            folders.folders.push(None)?;
        }
        return Ok(());
    };
    let made = match bring_step(leaving, folder.as_str(), walk.path(), step) {
        Ok(made) => made,
        Err(fault) => {
            leaving.told.go_on(Err(fault))?;
            None
        }
    };
    if step.node.is_folder() {
        if made.is_none() {
            walk.pass_over();
        }
        folders.folders.push(made)?;
    }
    Ok(())
}

/// Brings all below a folder out, name by name; folders are settled behind what is in them.
fn bring_all<V: View, H: Host>(
    leaving: &mut Leaving<V, H>,
    folders: &mut Folders,
    walk: &mut Walk,
) -> Result<(), Fault> {
    for _ in 0..u64::MAX {
        let visit = walk.next(leaving.view, leaving.alloc, leaving.told)?;
        match visit {
            Some(Visit::Met(step)) => meet(leaving, folders, walk, &step)?,
            Some(Visit::Left(_step)) => {
                if let Some(Some(folder)) = folders.folders.pop() {
                    settle(leaving, folder)?;
                }
            }
            None => break,
        }
    }
    Ok(())
}

/// Fills a folder of the system with all below one of a volume. It gets the attributes of that one where this is told.
pub fn fill_folder<V: View, H: Host>(
    leaving: &mut Leaving<V, H>,
    path: &[u8],
    node: &Node,
    target: &str,
    is_set: bool,
) -> Result<(), Fault> {
    let alloc = leaving.alloc;
    let settings = if is_set {
        leaving.settings_of(node)
    } else {
        None
    };
    let mut folders = Folders {
        folders: Vec::new(alloc),
    };
    folders.folders.push(Some(Filled {
        target: String::from_str(alloc, target)?,
        settings,
    }))?;
    let mut walk = Walk::below(alloc, path, node.number)?;
    bring_all(leaving, &mut folders, &mut walk)?;
    if let Some(Some(folder)) = folders.folders.pop() {
        settle(leaving, folder)?;
    }
    Ok(())
}

/// Makes a folder of the system, which nobody but its owner may enter yet, and those above it with the permissions that the system gives.
fn make_own<H: Host>(host: &H, target: &str) -> io::Result<()> {
    let path = target.trim_end_matches('/');
    if let Some((above, _)) = path.rsplit_once('/')
        && !above.is_empty()
        && host.attributes_through(above).is_err()
    {
        host.make_folders(above)?;
    }
    match host.make_folder(path) {
        // As of one that is named with a dot at its end.
        Err(error) if error.kind() == ErrorKind::AlreadyExists => host.make_folders(path),
        made => made,
    }
}

/// Makes a folder of the system, with those above it, where none is, and answers whether it was made. A link to one may be there.
pub fn make_target<V: View, H: Host>(leaving: &Leaving<V, H>, target: &str) -> Result<bool, Fault> {
    let (host, alloc) = (leaving.host, leaving.alloc);
    match host.attributes_through(target) {
        Ok(there) if there.kind == Kind::Folder => return Ok(false),
        Ok(_) => return Err(at(alloc, target, Reason::NoFolder)),
        Err(_) => {}
    }
    let made = if leaving.keeps_attributes {
        make_own(host, target)
    } else {
        host.make_folders(target)
    };
    match made {
        Ok(()) => Ok(true),
        Err(error) => Err(system(alloc, target.as_bytes(), error)),
    }
}
