// Links take their names, also in the place of others.

use std::alloc::Global;
use std::fs::{File, Files};
use std::io::ErrorKind;
use std::{fs, io};

/// How many names are tried for what is made beside another one.
const TRIES: u32 = 10_000;

/// What is made under a name.
#[derive(Clone, Copy, Debug)]
pub enum Made<'a> {
    /// A symbolic link with this target.
    SymbolicLink(&'a str),
    /// One more name of the file at this path.
    HardLink(&'a str),
}

/// Makes it where nothing has the name.
pub fn make<R: Files<File = File>>(rt: &R, made: Made, path: &str) -> io::Result<()> {
    match made {
        Made::SymbolicLink(target) => std::os::unix::fs::symlink(rt, target, path),
        Made::HardLink(old) => fs::hard_link(rt, old, path),
    }
}

/// Makes it beside a path, and answers its name there.
fn make_beside<R: Files<File = File>>(
    rt: &R,
    alloc: Global,
    made: Made,
    path: &str,
) -> io::Result<String> {
    for number in 0..TRIES {
        let beside = format!(in alloc; "{path}.new{number}")?;
        match make(rt, made, beside.as_str()) {
            Ok(()) => return Ok(beside),
            Err(error) if error.kind() == ErrorKind::AlreadyExists => {}
            Err(error) => return Err(error),
        }
    }
    Err(ErrorKind::AlreadyExists.into())
}

/// Makes it in the place of what has the name, which is no folder: at each moment the name leads to the old or the new one.
pub fn make_over<R: Files<File = File>>(
    rt: &R,
    alloc: Global,
    made: Made,
    path: &str,
) -> io::Result<()> {
    let beside = make_beside(rt, alloc, made, path)?;
    match fs::rename(rt, beside.as_str(), path) {
        Ok(()) => Ok(()),
        Err(error) => {
            let _ = fs::remove_file(rt, beside.as_str());
            Err(error)
        }
    }
}
