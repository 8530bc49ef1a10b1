// What is found wrong in a volume of trees, as it is told.

use std::alloc::{AllocError, Global};
use tree_lines::shown;
use treefs_check::Finding;
use treefs_edits::Tree;
use treefs_lookup::read_block;
use treefs_mending::Name;
use xn_state::Store;

/// How many bytes a record has before its name.
const HEAD: usize = 5;

/// The bytes of a name that stands at a byte of a block; none where it is not whole.
fn name_at(block: &[u8], offset: usize) -> &[u8] {
    let start = offset.saturating_add(HEAD);
    let length = match block.get(offset.saturating_add(4)) {
        Some(length) => usize::from(*length),
        None => 0,
    };
    block
        .get(start..start.saturating_add(length))
        .unwrap_or(&[])
}

/// A name as it is told: with its place, and where it leads.
fn told_name<S: Store>(
    alloc: Global,
    store: &S,
    tree: Tree,
    name: &Name,
) -> Result<String, AllocError> {
    let bytes = match read_block(store, tree.fs, name.block) {
        Some(block) => name_at(block, usize::from(name.offset)),
        None => &[],
    };
    let text = shown(alloc, bytes)?;
    let (block, offset, number) = (name.block, name.offset, name.number);
    format!(in alloc;
        "the name {text} at byte {offset} of block {block}, which leads to number {number},"
    )
}

/// What is found wrong, as it is told.
pub fn told_finding<S: Store>(
    alloc: Global,
    store: &S,
    tree: Tree,
    finding: &Finding,
) -> Result<String, AllocError> {
    match finding {
        Finding::NoTop => String::from_str(alloc, "number 1 is no folder with a link"),
        Finding::NoInode(name) => {
            let name = told_name(alloc, store, tree, name)?;
            format!(in alloc; "{name} leads to nothing")
        }
        Finding::Surplus(name) => {
            let name = told_name(alloc, store, tree, name)?;
            format!(in alloc; "{name} is one too many")
        }
        Finding::NotFound(name) => {
            let name = told_name(alloc, store, tree, name)?;
            format!(in alloc; "{name} is not found where it is looked up")
        }
        Finding::FewLinks(number) => {
            format!(in alloc; "number {number} has fewer links than names")
        }
        Finding::ManyLinks(number) => {
            format!(in alloc; "number {number} has more links than names")
        }
        Finding::Parent(number) => {
            format!(in alloc; "folder {number} says that it stands in another folder")
        }
        Finding::TooLong(number) => {
            format!(in alloc; "number {number} says a size that no file has")
        }
        Finding::PastSize(number) => {
            format!(in alloc; "number {number} has bytes or blocks past its size")
        }
    }
}
