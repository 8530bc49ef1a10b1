// Rows of a listing.

use crate::moments::Minutes;
use crate::sizes::told_size;
use std::alloc::{AllocError, Global};
use std::io::Write;
use tree_lines::{Fault, Mode, Node, Told, View, at_bytes, below, kind_mark, shown};
use treefs_format::Kind;

/// A name that is listed, and what stands there.
#[derive(Debug, Drop)]
pub struct Row {
    pub name: Vec<u8>,
    pub node: Node,
}

/// The form of rows.
#[derive(Clone, Copy, Debug)]
pub struct RowForm {
    /// With mode, links, owners, size and time.
    pub is_long: bool,
    /// With sizes as people read them.
    pub is_human: bool,
}

/// Whether a name is listed only where that is asked.
pub fn is_hidden(name: &[u8]) -> bool {
    name.first() == Some(&b'.')
}

/// The rows of a folder, by its path, rising. What can't be seen is told.
pub fn rows_of<V: View>(
    view: &V,
    alloc: Global,
    told: &mut Told,
    (path, folder): (&[u8], u32),
    has_hidden: bool,
) -> Result<Vec<Row>, Fault> {
    let names = match view.names(alloc, folder) {
        Ok(names) => names,
        Err(reason) => return Err(at_bytes(alloc, path, reason)),
    };
    let mut rows = Vec::new(alloc);
    for named in names {
        if is_hidden(&named.name) && !has_hidden {
            continue;
        }
        match view.node(named.number) {
            Ok(node) => rows.push(Row {
                name: named.name,
                node,
            })?,
            Err(reason) => {
                let path = below(alloc, path, &named.name)?;
                told.go_on(Err(at_bytes(alloc, &path, reason)))?;
            }
        }
    }
    Ok(rows)
}

/// How many digits a number has.
fn digits(number: u64) -> usize {
    let mut count = 1usize;
    let mut rest = number;
    for _digit in 0..20 {
        if rest < 10 {
            break;
        }
        rest /= 10;
        count = count.saturating_add(1);
    }
    count
}

/// How wide the numbers of some rows are.
#[derive(Clone, Copy, Debug)]
struct Widths {
    links: usize,
    uid: usize,
    gid: usize,
    size: usize,
}

/// How wide the numbers of rows are.
fn widths_of(alloc: Global, rows: &[Row], is_human: bool) -> Result<Widths, AllocError> {
    let mut widths = Widths {
        links: 1,
        uid: 1,
        gid: 1,
        size: 1,
    };
    for row in rows {
        let node = &row.node;
        widths = Widths {
            links: widths.links.max(digits(u64::from(node.links))),
            uid: widths.uid.max(digits(u64::from(node.uid))),
            gid: widths.gid.max(digits(u64::from(node.gid))),
            size: widths
                .size
                .max(told_size(alloc, node.size, is_human)?.len()),
        };
    }
    Ok(widths)
}

/// Prints a number behind as many spaces as it lacks to be so wide, and a space.
fn print_number(number: u64, width: usize, out: &mut impl Write) -> Result<(), Fault> {
    for _space in digits(number)..width {
        write!(out, " ")?;
    }
    write!(out, "{number} ")?;
    Ok(())
}

/// Prints a size behind as many spaces as it lacks to be so wide, and a space.
fn print_size(size: &str, width: usize, out: &mut impl Write) -> Result<(), Fault> {
    for _space in size.len()..width {
        write!(out, " ")?;
    }
    write!(out, "{size} ")?;
    Ok(())
}

/// Prints what stands at a name, before it: its mode, links, owners, size and time.
fn print_node(node: &Node, size: &str, widths: Widths, out: &mut impl Write) -> Result<(), Fault> {
    let mode = Mode {
        kind: node.kind,
        permissions: node.permissions,
    };
    write!(out, "{mode} ")?;
    print_number(u64::from(node.links), widths.links, out)?;
    print_number(u64::from(node.uid), widths.uid, out)?;
    print_number(u64::from(node.gid), widths.gid, out)?;
    print_size(size, widths.size, out)?;
    let time = Minutes(node.modified);
    write!(out, "{time} ")?;
    Ok(())
}

/// Prints what stands behind the name in a long row: of a symbolic link its target, of a folder a slash.
fn print_behind<V: View>(
    view: &V,
    alloc: Global,
    node: &Node,
    out: &mut impl Write,
) -> Result<(), Fault> {
    match node.kind {
        Kind::Directory => write!(out, "/")?,
        Kind::File => {}
        Kind::SymbolicLink => {
            if let Ok(target) = view.target(alloc, node.number) {
                let target = shown(alloc, &target)?;
                write!(out, " -> {target}")?;
            }
        }
    }
    Ok(())
}

/// Prints rows, long ones where that is asked.
pub fn print_rows<V: View>(
    view: &V,
    alloc: Global,
    rows: &[Row],
    form: RowForm,
    out: &mut impl Write,
) -> Result<(), Fault> {
    let widths = widths_of(alloc, rows, form.is_human)?;
    for row in rows {
        let name = shown(alloc, &row.name)?;
        if form.is_long {
            let size = told_size(alloc, row.node.size, form.is_human)?;
            print_node(&row.node, size.as_str(), widths, out)?;
            write!(out, "{name}")?;
            print_behind(view, alloc, &row.node, out)?;
            writeln!(out, "")?;
        } else {
            let mark = kind_mark(row.node.kind);
            writeln!(out, "{name}{mark}")?;
        }
    }
    Ok(())
}
