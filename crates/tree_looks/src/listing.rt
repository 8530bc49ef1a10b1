// The word `ls`.

use crate::entries::object_of;
use crate::json::Items;
use crate::rows::{Row, RowForm, is_hidden, print_rows, rows_of};
use std::alloc::Global;
use std::io::Write;
use tree_lines::{Fault, Node, Reason, Told, View, Walk, below, find, last_name, shown};

/// How a folder is listed.
#[derive(Clone, Copy, Debug)]
pub struct Listing {
    /// With mode, links, owners, size and time.
    pub is_long: bool,
    /// Also names that begin with a dot.
    pub has_hidden: bool,
    /// With all folders below.
    pub is_recursive: bool,
    /// With sizes as people read them.
    pub is_human: bool,
    /// As one value of JSON.
    pub is_json: bool,
}

/// The form of the rows of a listing.
fn form_of(how: Listing) -> RowForm {
    RowForm {
        is_long: how.is_long,
        is_human: how.is_human,
    }
}

/// A folder that is to be listed.
#[derive(Clone, Copy, Debug)]
struct Listed<'p> {
    path: &'p [u8],
    folder: u32,
}

/// What stands at a path that is to be listed: a symbolic link is followed in short listings, where it leads somewhere.
fn find_listed<V: View>(
    view: &V,
    alloc: Global,
    folder: u32,
    path: &str,
    is_long: bool,
) -> Result<Node, Fault> {
    match find(view, alloc, folder, path, !is_long) {
        Ok(node) => Ok(node),
        Err(_) => find(view, alloc, folder, path, false),
    }
}

/// Parts paths into rows, and folders that are to be listed. What can't be found is told.
fn part_paths<'p, V: View>(
    view: &V,
    alloc: Global,
    told: &mut Told,
    (folder, is_long): (u32, bool),
    paths: &[&'p str],
) -> Result<(Vec<Row>, Vec<Listed<'p>>), Fault> {
    let (mut rows, mut folders) = (Vec::new(alloc), Vec::new(alloc));
    for path in paths {
        let bytes = path.as_bytes();
        match find_listed(view, alloc, folder, path, is_long) {
            Ok(node) if node.is_folder() => folders.push(Listed {
                path: bytes,
                folder: node.number,
            })?,
            Ok(node) => rows.push(Row {
                name: Vec::from_slice(alloc, bytes)?,
                node,
            })?,
            Err(fault) => told.go_on(Err(fault))?,
        }
    }
    Ok((rows, folders))
}

/// Prints the names of a folder, behind its path where that is asked.
fn print_folder<V: View>(
    view: &V,
    alloc: Global,
    told: &mut Told,
    listed: Listed,
    (how, has_head): (Listing, bool),
    out: &mut impl Write,
) -> Result<(), Fault> {
    if has_head {
        let path = shown(alloc, listed.path)?;
        writeln!(out, "{path}:")?;
    }
    let place = (listed.path, listed.folder);
    match rows_of(view, alloc, told, place, how.has_hidden) {
        Ok(rows) => print_rows(view, alloc, &rows, form_of(how), out),
        Err(fault) => told.go_on(Err(fault)),
    }
}

/// Tells of the faults of a walk those that the lists of its folders don't tell: folders with two names.
fn tell_walked(alloc: Global, told: &mut Told, walked: &mut Told) -> Result<(), Fault> {
    for fault in walked.take(alloc) {
        if is_of_two_names(&fault) {
            told.tell(fault)?;
        }
    }
    Ok(())
}

/// Whether a fault is that of a folder with two names.
fn is_of_two_names(fault: &Fault) -> bool {
    matches!(
        fault,
        Fault::At {
            path: _,
            reason: Reason::TwoNames
        }
    )
}

/// Prints the names of all folders below one.
fn print_below<V: View>(
    view: &V,
    alloc: Global,
    told: &mut Told,
    top: Listed,
    how: Listing,
    out: &mut impl Write,
) -> Result<(), Fault> {
    let mut walk = Walk::below(alloc, top.path, top.folder)?;
    let mut walked = Told::nothing(alloc);
    for _name in 0..u64::MAX {
        let step = walk.next_met(view, alloc, &mut walked)?;
        tell_walked(alloc, told, &mut walked)?;
        let Some(step) = step else {
            break;
        };
        if !step.node.is_folder() {
            continue;
        }
        if is_hidden(&step.name) && !how.has_hidden {
            walk.pass_over();
            continue;
        }
        writeln!(out, "")?;
        let listed = Listed {
            path: walk.path(),
            folder: step.node.number,
        };
        print_folder(view, alloc, told, listed, (how, true), out)?;
    }
    Ok(())
}

/// Prints what stands at some paths.
fn print_all<V: View>(
    view: &V,
    alloc: Global,
    told: &mut Told,
    (folder, paths): (u32, &[&str]),
    how: Listing,
    out: &mut impl Write,
) -> Result<(), Fault> {
    let parted = part_paths(view, alloc, told, (folder, how.is_long), paths)?;
    let (rows, folders) = parted;
    print_rows(view, alloc, &rows, form_of(how), out)?;
    let mut is_first = rows.is_empty();
    for listed in folders.iter() {
        if !is_first {
            writeln!(out, "")?;
        }
        is_first = false;
        let has_head = paths.len() > 1 || how.is_recursive;
        print_folder(view, alloc, told, *listed, (how, has_head), out)?;
        if how.is_recursive {
            print_below(view, alloc, told, *listed, how, out)?;
        }
    }
    Ok(())
}

/// Prints the names of a folder as objects of a list, with all below it where that is asked.
fn print_objects<V: View>(
    view: &V,
    alloc: Global,
    told: &mut Told,
    (listed, how): (Listed, Listing),
    items: &mut Items,
    out: &mut impl Write,
) -> Result<(), Fault> {
    let mut walk = Walk::below(alloc, listed.path, listed.folder)?;
    for _name in 0..u64::MAX {
        let Some(step) = walk.next_met(view, alloc, told)? else {
            break;
        };
        let is_shown = how.has_hidden || !is_hidden(&step.name);
        if step.node.is_folder() && !(how.is_recursive && is_shown) {
            walk.pass_over();
        }
        if is_shown {
            match object_of(view, alloc, walk.path(), &step.name, &step.node) {
                Ok(object) => items.print(object, out)?,
                Err(fault) => told.go_on(Err(fault))?,
            }
        }
    }
    Ok(())
}

/// Prints what stands at some paths as a list of JSON: of a folder what is in it.
fn print_json<V: View>(
    view: &V,
    alloc: Global,
    told: &mut Told,
    (folder, paths): (u32, &[&str]),
    how: Listing,
    out: &mut impl Write,
) -> Result<(), Fault> {
    let parted = part_paths(view, alloc, told, (folder, how.is_long), paths)?;
    let (rows, folders) = parted;
    let mut items = Items::begin(out)?;
    for row in rows.iter() {
        match object_of(view, alloc, &row.name, last_name(&row.name), &row.node) {
            Ok(object) => items.print(object, out)?,
            Err(fault) => told.go_on(Err(fault))?,
        }
    }
    for listed in folders.iter() {
        print_objects(view, alloc, told, (*listed, how), &mut items, out)?;
    }
    items.end(out)
}

/// Prints what stands at some paths.
fn list_paths<V: View>(
    view: &V,
    alloc: Global,
    told: &mut Told,
    (folder, paths): (u32, &[&str]),
    how: Listing,
    out: &mut impl Write,
) -> Result<(), Fault> {
    if how.is_json {
        print_json(view, alloc, told, (folder, paths), how, out)
    } else {
        print_all(view, alloc, told, (folder, paths), how, out)
    }
}

/// `ls`: what stands at some paths, from a folder on; of a folder the names in it, rising. Without a path the folder itself is listed.
pub fn list<V: View>(
    view: &V,
    alloc: Global,
    told: &mut Told,
    (folder, paths): (u32, &[&str]),
    how: Listing,
    out: &mut impl Write,
) -> Result<(), Fault> {
    if paths.is_empty() {
        return list_paths(view, alloc, told, (folder, &["."]), how, out);
    }
    list_paths(view, alloc, told, (folder, paths), how, out)
}
