// What stands at a path, as an object of JSON.

use crate::json::Members;
use crate::moments::Exact;
use std::alloc::{AllocError, Global};
use tree_lines::{Fault, Node, View, at_bytes};
use treefs_format::Kind;

/// The word for a kind.
pub fn kind_word(kind: Kind) -> &'static str {
    match kind {
        Kind::Directory => "folder",
        Kind::File => "file",
        Kind::SymbolicLink => "symbolic link",
    }
}

/// Adds what is told of a node in numbers.
fn add_numbers(object: &mut Members, node: &Node) -> Result<(), AllocError> {
    object.number("number", u64::from(node.number))?;
    object.number("links", u64::from(node.links))?;
    object.number("user", u64::from(node.uid))?;
    object.number("group", u64::from(node.gid))?;
    object.number("size", node.size)
}

/// Adds what is told of a node in texts.
fn add_texts(alloc: Global, object: &mut Members, node: &Node) -> Result<(), AllocError> {
    let kind = String::from_str(alloc, kind_word(node.kind))?;
    object.text("kind", kind)?;
    let permissions = node.permissions;
    object.text("mode", format!(in alloc; "{permissions:04o}")?)?;
    let modified = Exact(node.modified);
    object.text("modified", format!(in alloc; "{modified}")?)?;
    let changed = Exact(node.changed);
    object.text("changed", format!(in alloc; "{changed}")?)
}

/// What stands at a path, as an object.
pub fn object_of<V: View>(
    view: &V,
    alloc: Global,
    path: &[u8],
    name: &[u8],
    node: &Node,
) -> Result<Members, Fault> {
    let mut object = Members::none(alloc);
    object.name("path", "path_is_escaped", path)?;
    object.name("name", "name_is_escaped", name)?;
    add_texts(alloc, &mut object, node)?;
    add_numbers(&mut object, node)?;
    if node.is_link() {
        match view.target(alloc, node.number) {
            Ok(target) => object.name("target", "target_is_escaped", &target)?,
            Err(reason) => return Err(at_bytes(alloc, path, reason)),
        }
    }
    Ok(object)
}
