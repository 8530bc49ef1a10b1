// Steps on files of the system, beside the lines of the program: `write PATH` writes its input there, `read PATH` prints what is there, and `show PATH` tells
// what the system knows of it.

use std::fs::{File, Files};
use std::io::Write;
use std::os::unix::fs::MetadataExt;
use std::{fs, io};

/// The permission bits of a mode.
const PERMISSIONS: u32 = 0o7777;

/// Tells what the system knows of a path: the target of a symbolic link, or else permissions, links, time and, of a file, its size and whether all of that
/// stands on the device.
fn show<R: Files<File = File> + AllocGlobal>(
    rt: &R,
    path: &str,
    out: &mut Vec<u8>,
) -> io::Result<()> {
    let Ok(found) = fs::symlink_metadata(rt, path) else {
        return writeln!(out, "nothing");
    };
    if found.is_symlink() {
        let target = fs::read_link(rt, path)?;
        return writeln!(out, "link to {}", target.display());
    }
    let mode = found.mode() & PERMISSIONS;
    let time = found.mtime();
    if found.is_dir() {
        return writeln!(out, "folder {mode:o} at {time}");
    }
    let (links, size) = (found.nlink(), found.size());
    let holes = if found.blocks().saturating_mul(512) < size {
        " with holes"
    } else {
        ""
    };
    writeln!(
        out,
        "file {mode:o} links {links} size {size} at {time}{holes}"
    )
}

/// Does a step on a file of the system.
pub fn play_system<R: Files<File = File> + AllocGlobal>(
    rt: &R,
    (word, path): (&str, &str),
    input: &[u8],
    out: &mut Vec<u8>,
) -> io::Result<()> {
    match word {
        "write" => fs::write(rt, path, input),
        "read" => {
            out.extend_from_slice(&fs::read(rt, path)?)?;
            Ok(())
        }
        "show" => show(rt, path, out),
        _ => writeln!(out, "no such step"),
    }
}
