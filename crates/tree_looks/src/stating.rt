// The word `stat`.

use crate::entries::{kind_word, object_of};
use crate::json::Items;
use crate::moments::Exact;
use std::alloc::Global;
use std::io::Write;
use tree_lines::{Fault, Mode, Node, Told, View, at, find, last_name, shown};

/// Prints all that is known of what stands at a path, a line for each.
fn print_node(node: &Node, blocks: u64, out: &mut impl Write) -> Result<(), Fault> {
    let kind = kind_word(node.kind);
    let permissions = node.permissions;
    let mode = Mode {
        kind: node.kind,
        permissions,
    };
    writeln!(out, "kind: {kind}")?;
    writeln!(out, "number: {}", node.number)?;
    writeln!(out, "mode: {permissions:04o} {mode}")?;
    writeln!(out, "links: {}", node.links)?;
    writeln!(out, "user: {}", node.uid)?;
    writeln!(out, "group: {}", node.gid)?;
    writeln!(out, "size: {}", node.size)?;
    writeln!(out, "blocks: {blocks}")?;
    let (modified, changed) = (Exact(node.modified), Exact(node.changed));
    writeln!(out, "modified: {modified}")?;
    writeln!(out, "changed: {changed}")?;
    Ok(())
}

/// What stands at a path, and how many blocks it holds.
fn find_held<V: View>(
    view: &V,
    alloc: Global,
    folder: u32,
    path: &str,
) -> Result<(Node, u64), Fault> {
    let node = find(view, alloc, folder, path, false)?;
    match view.blocks_held(node.number) {
        Ok(blocks) => Ok((node, blocks)),
        Err(reason) => Err(at(alloc, path, reason)),
    }
}

/// Prints what stands at a path, behind an empty line where something was printed before.
fn print_one<V: View>(
    view: &V,
    alloc: Global,
    (folder, path): (u32, &str),
    is_first: &mut bool,
    out: &mut impl Write,
) -> Result<(), Fault> {
    let (node, blocks) = find_held(view, alloc, folder, path)?;
    if !*is_first {
        writeln!(out, "")?;
    }
    *is_first = false;
    let shown_path = shown(alloc, path.as_bytes())?;
    writeln!(out, "path: {shown_path}")?;
    print_node(&node, blocks, out)?;
    if node.is_link() {
        match view.target(alloc, node.number) {
            Ok(target) => {
                let target = shown(alloc, &target)?;
                writeln!(out, "target: {target}")?;
            }
            Err(reason) => return Err(at(alloc, path, reason)),
        }
    }
    Ok(())
}

/// Prints what stands at a path as an object of a list.
fn print_object<V: View>(
    view: &V,
    alloc: Global,
    (folder, path): (u32, &str),
    items: &mut Items,
    out: &mut impl Write,
) -> Result<(), Fault> {
    let (node, blocks) = find_held(view, alloc, folder, path)?;
    let path = path.as_bytes();
    let mut object = object_of(view, alloc, path, last_name(path), &node)?;
    object.number("blocks", blocks)?;
    items.print(object, out)
}

/// `stat`: what stands at some paths; with `is_json` as one list of JSON.
pub fn stat<V: View>(
    view: &V,
    alloc: Global,
    told: &mut Told,
    (folder, paths): (u32, &[&str]),
    is_json: bool,
    out: &mut impl Write,
) -> Result<(), Fault> {
    if !is_json {
        let mut is_first = true;
        for path in paths {
            let done = print_one(view, alloc, (folder, path), &mut is_first, out);
            told.go_on(done)?;
        }
        return Ok(());
    }
    let mut items = Items::begin(out)?;
    for path in paths {
        let done = print_object(view, alloc, (folder, path), &mut items, out);
        told.go_on(done)?;
    }
    items.end(out)
}
