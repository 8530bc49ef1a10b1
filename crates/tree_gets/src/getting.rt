// The word `get`: files and folders of a volume that are brought out.

use crate::leaving::{Goal, Leaving};
use crate::tree_out::{fill_folder, make_folder, make_target, told_name};
use host_trees::{Filler, Host, Kind, PlainSink, joined};
use std::alloc::Global;
use std::io::Write;
use system_files::Links;
use tree_lines::{Fault, Node, Reason, Told, View, at, find, last_name, system};
use treefs_format::Kind as NodeKind;

/// What is to be brought out, and where it goes.
#[derive(Clone, Copy, Debug)]
pub struct Getting<'g> {
    /// The folder from which relative paths begin.
    pub folder: u32,
    pub paths: &'g [&'g str],
    /// A path of the system, or `-`, which is standard output.
    pub target: &'g str,
    /// Whether permissions, owner and time are set: they are not known in a volume of the first file system.
    pub keeps_attributes: bool,
}

/// Whether a name is that of something in its folder.
fn is_own(name: &[u8]) -> bool {
    !name.is_empty() && !name.contains(&b'/') && name != b".".as_slice() && name != b"..".as_slice()
}

/// Writes a file to a stream.
fn write_out<V: View, H: Host>(
    leaving: &mut Leaving<V, H>,
    (path, node): (&str, &Node),
    out: &mut impl Write,
) -> Result<(), Fault> {
    if node.kind != NodeKind::File {
        return Err(at(leaving.alloc, path, Reason::OnlyFiles));
    }
    let alloc = leaving.alloc;
    let mut outgoing = leaving.outgoing(node);
    let done = outgoing.fill(&mut PlainSink { out });
    match outgoing.fault {
        Some(reason) => Err(at(alloc, path, reason)),
        None => Ok(done?),
    }
}

/// Brings a file or a folder to a path of its own below a folder of the system.
fn bring_into<V: View, H: Host>(
    leaving: &mut Leaving<V, H>,
    (path, node): (&str, &Node),
    target: &str,
) -> Result<(), Fault> {
    let name = last_name(path.as_bytes());
    if !is_own(name) {
        return match node.kind {
            NodeKind::Directory => fill_folder(leaving, path.as_bytes(), node, target, false),
            _ => Err(at(leaving.alloc, path, Reason::NoOwnName)),
        };
    }
    let name = told_name(leaving, path.as_bytes(), (None, name))?;
    let target = joined(leaving.alloc, target, name.as_str())?;
    match node.kind {
        NodeKind::Directory => {
            make_folder(leaving, target.as_str())?;
            fill_folder(leaving, path.as_bytes(), node, target.as_str(), true)
        }
        _ => leaving.bring_file_below(node, path.as_bytes(), target.as_str(), true),
    }
}

/// Brings a file to a target, or a folder, which fills it.
fn bring_to<V: View, H: Host>(
    leaving: &mut Leaving<V, H>,
    (path, node): (&str, &Node),
    target: &str,
) -> Result<(), Fault> {
    if node.is_folder() {
        let is_made = make_target(leaving, target)?;
        return fill_folder(leaving, path.as_bytes(), node, target, is_made);
    }
    match leaving.host.attributes_through(target) {
        Ok(there) if there.kind == Kind::Folder => bring_into(leaving, (path, node), target),
        _ => {
            let goal = Goal {
                target,
                links: Links::Followed,
                keeps_owner: true,
            };
            leaving.bring_file(node, path.as_bytes(), goal)
        }
    }
}

/// Brings what stands at a path out.
fn get_one<V: View, H: Host>(
    leaving: &mut Leaving<V, H>,
    getting: &Getting,
    path: &str,
    out: &mut impl Write,
) -> Result<(), Fault> {
    let node = find(leaving.view, leaving.alloc, getting.folder, path, true)?;
    if getting.target == "-" {
        write_out(leaving, (path, &node), out)
    } else if getting.paths.len() > 1 {
        bring_into(leaving, (path, &node), getting.target)
    } else {
        bring_to(leaving, (path, &node), getting.target)
    }
}

/// That a target is a folder, as it has to be where several things go there.
fn want_folder<H: Host>(host: &H, alloc: Global, target: &str) -> Result<(), Fault> {
    match host.attributes_through(target) {
        Ok(there) if there.kind == Kind::Folder => Ok(()),
        Ok(_) => Err(at(alloc, target, Reason::NoFolder)),
        Err(error) => Err(system(alloc, target.as_bytes(), error)),
    }
}

/// `get`: brings files out, and folders with all below them; `-` is standard output. A file takes the place of one that is there, with the permissions and the
/// owner of that one, and goes into a folder under its own name. One folder fills its target, where each file has what it has in the volume; where there are
/// several paths the target has to be a folder, and each goes into it under its own name.
pub fn get<V: View, H: Host>(
    view: &V,
    alloc: Global,
    told: &mut Told,
    host: &H,
    getting: Getting,
    out: &mut impl Write,
) -> Result<(), Fault> {
    if getting.target.is_empty() {
        return Err(Fault::Volume(Reason::Empty));
    }
    if getting.target != "-" && getting.paths.len() > 1 {
        want_folder(host, alloc, getting.target)?;
    }
    let mut leaving = Leaving::begin(view, host, alloc, told, getting.keeps_attributes)?;
    let mut done = Ok(());
    for path in getting.paths {
        let got = get_one(&mut leaving, &getting, path, out);
        done = leaving.told.go_on(got);
        if done.is_err() {
            break;
        }
    }
    leaving.end();
    done
}
