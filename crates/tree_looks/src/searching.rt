// The word `find`.

use crate::globs::Glob;
use std::alloc::Global;
use std::io::Write;
use tree_lines::{Fault, Node, Told, View, Walk, find, last_name, shown};
use treefs_format::Kind;

/// What is looked for.
#[derive(Clone, Copy, Debug)]
pub struct Sought<'a> {
    /// A pattern of the name.
    pub name: Option<&'a str>,
    pub kind: Option<Kind>,
}

/// What is looked for, with its pattern read.
#[derive(Drop)]
struct Asked {
    name: Option<Glob>,
    kind: Option<Kind>,
}

impl Asked {
    /// Whether a name and what stands there are looked for.
    fn fits(&self, alloc: Global, name: &[u8], node: &Node) -> Result<bool, Fault> {
        let is_kind = match self.kind {
            Some(kind) => kind == node.kind,
            None => true,
        };
        match &self.name {
            Some(glob) if is_kind => Ok(glob.fits(alloc, name)?),
            _ => Ok(is_kind),
        }
    }
}

/// Prints a path where what stands there is looked for.
fn print_if(
    alloc: Global,
    asked: &Asked,
    (path, name): (&[u8], &[u8]),
    node: &Node,
    out: &mut impl Write,
) -> Result<(), Fault> {
    if asked.fits(alloc, name, node)? {
        let path = shown(alloc, path)?;
        writeln!(out, "{path}")?;
    }
    Ok(())
}

/// Prints what is looked for at a path and below it.
fn search_one<V: View>(
    view: &V,
    alloc: Global,
    told: &mut Told,
    (folder, path): (u32, &str),
    asked: &Asked,
    out: &mut impl Write,
) -> Result<(), Fault> {
    let node = find(view, alloc, folder, path, false)?;
    let path = path.as_bytes();
    print_if(alloc, asked, (path, last_name(path)), &node, out)?;
    if !node.is_folder() {
        return Ok(());
    }
    let mut walk = Walk::below(alloc, path, node.number)?;
    for _name in 0..u64::MAX {
        let Some(step) = walk.next_met(view, alloc, told)? else {
            break;
        };
        print_if(alloc, asked, (walk.path(), &step.name), &step.node, out)?;
    }
    Ok(())
}

/// `find`: the paths, at some paths and below them, of what is looked for; a folder's before those in it. Without a path it begins at the folder itself.
pub fn search<V: View>(
    view: &V,
    alloc: Global,
    told: &mut Told,
    (folder, paths): (u32, &[&str]),
    sought: Sought,
    out: &mut impl Write,
) -> Result<(), Fault> {
    let name = match sought.name {
        Some(pattern) => Some(Glob::read(alloc, pattern)?),
        None => None,
    };
    let asked = Asked {
        name,
        kind: sought.kind,
    };
    if paths.is_empty() {
        return search_one(view, alloc, told, (folder, "."), &asked, out);
    }
    for path in paths {
        let done = search_one(view, alloc, told, (folder, path), &asked, out);
        told.go_on(done)?;
    }
    Ok(())
}
