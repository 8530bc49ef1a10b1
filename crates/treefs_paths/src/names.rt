// The names of a path.

ghost use Rattle.std.specs.Prelude.{◌≡◌, ◌≤◌, length};
ghost use Rattle.treefs_lookup.specs.Readable.{readable};
ghost use Rattle.treefs_paths.specs.Ways.{begins_with_slash, name_end, number_named, start_of};

use treefs_edits::Tree;
use treefs_lookup::{find_directory, find_entry};
use treefs_model::Fault;
use xn_state::Store;

/// Whether a path begins with a slash.
pub fn begins_with_slash(path: &[u8]) -> bool
    ensures { result ≡ begins_with_slash path.now }
{
    match path {
        [first, ..] => *first == b'/',
        [] => false,
    }
}

/// The directory from which on a path goes: inode 1, where it begins with a slash.
pub fn start_of(directory: u32, path: &[u8]) -> u32
    ensures { result ≡ start_of directory path.now }
{
    if begins_with_slash(path) {
        1
    } else {
        directory
    }
}

/// Where the first name of a path ends: before its first slash.
pub fn name_end(path: &[u8]) -> usize
    ensures end { result ≡ name_end path.now }
    ensures within { result ≤ length path.now }
{
    for end in 0..path.len() {
        if path[end] == b'/' {
            return end;
        }
    }
    path.len()
}

/// The inode to which a name of a directory leads; `.` leads to itself, and `..` to the directory in which it stands. The faults are those of the directory,
/// `BadName`, and `NoEntry`.
pub fn number_named<S: Store>(
    store: &S,
    tree: Tree,
    directory: u32,
    name: &[u8],
) -> Result<u32, Fault>
    ensures { result ≡ number_named (readable (S.state_of store.now) tree.fs.number) tree.top directory name.now }
{
    if name == b".".as_slice() {
        let _found = find_directory(store, tree.fs, tree.top, directory)?;
        return Ok(directory);
    }
    if name == b"..".as_slice() {
        let found = find_directory(store, tree.fs, tree.top, directory)?;
        return Ok(found.fields.parent);
    }
    let slot = find_entry(store, tree.fs, tree.top, directory, name)?;
    Ok(slot.number)
}
