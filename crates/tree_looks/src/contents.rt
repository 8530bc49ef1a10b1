// The words `cat` and `readlink`.

use std::alloc::Global;
use std::io::Write;
use tree_lines::{Fault, Node, Reason, Told, View, at, find, shown};

/// So many bytes are read at once.
const PIECE: usize = 65_536;

/// Writes the bytes of a file to a stream, by its path.
fn write_file<V: View>(
    view: &V,
    alloc: Global,
    (path, node): (&str, &Node),
    piece: &mut [u8],
    out: &mut impl Write,
) -> Result<(), Fault> {
    let mut done = 0u64;
    for _piece in 0..node.size {
        if done >= node.size {
            break;
        }
        let count = match view.read(node.number, done, piece) {
            Ok(count) => count.min(piece.len()),
            Err(reason) => return Err(at(alloc, path, reason)),
        };
        if count == 0 {
            break;
        }
        out.write_all(&piece[..count])?;
        done = done.saturating_add(count as u64);
    }
    Ok(())
}

/// Writes the bytes of the file at a path.
fn cat_one<V: View>(
    view: &V,
    alloc: Global,
    (folder, path): (u32, &str),
    piece: &mut [u8],
    out: &mut impl Write,
) -> Result<(), Fault> {
    let node = find(view, alloc, folder, path, true)?;
    if node.is_folder() {
        return Err(at(alloc, path, Reason::Folder));
    }
    write_file(view, alloc, (path, &node), piece, out)
}

/// `cat`: the bytes of files, one behind the other.
pub fn cat<V: View>(
    view: &V,
    alloc: Global,
    told: &mut Told,
    (folder, paths): (u32, &[&str]),
    out: &mut impl Write,
) -> Result<(), Fault> {
    let mut piece = vec![in alloc; 0u8; PIECE]?;
    for path in paths {
        let done = cat_one(view, alloc, (folder, path), &mut piece, out);
        told.go_on(done)?;
    }
    Ok(())
}

/// `readlink`: the target of a symbolic link, as names are shown.
pub fn read_link<V: View>(
    view: &V,
    alloc: Global,
    (folder, path): (u32, &str),
    out: &mut impl Write,
) -> Result<(), Fault> {
    let node = find(view, alloc, folder, path, false)?;
    match view.target(alloc, node.number) {
        Ok(target) => {
            let target = shown(alloc, &target)?;
            writeln!(out, "{target}")?;
            Ok(())
        }
        Err(reason) => Err(at(alloc, path, reason)),
    }
}
