// A file is opened and locked.

use std::fs::{File, Files, Metadata, OpenOptions, TryLockError};
use std::io::ErrorKind;
use std::os::unix::fs::MetadataExt;
use std::{fs, io};
use thiserror::Error;

/// How often a file is opened again that others replace meanwhile.
const TRIES: u32 = 100;

/// What a file is opened for, and with which lock.
#[derive(Clone, Copy, Debug, PartialEq, Eq)]
pub enum Access {
    /// It is read, and others may read it meanwhile.
    Shared,
    /// It is read, and nobody else has it.
    Alone,
    /// It is read and written, and nobody else has it.
    Written,
}

/// Why a file was not opened and locked.
#[derive(Debug, Drop, Error)]
pub enum OpenFault {
    /// Nothing has the name.
    #[error("there is no such file")]
    NotThere,
    /// A handle, of this process or of another one, has a lock that doesn't go with this one.
    #[error("is in use")]
    InUse,
    /// A device, a pipe or the like has the name. It was not opened.
    #[error("is no regular file")]
    NotAFile,
    /// The system answered this error. Of a folder it is that it is one.
    #[error("{0}")]
    System(io::Error),
}

impl From<io::Error> for OpenFault {
    fn from(error: io::Error) -> OpenFault {
        match error.kind() {
            ErrorKind::NotFound => OpenFault::NotThere,
            _ => OpenFault::System(error),
        }
    }
}

impl From<TryLockError> for OpenFault {
    fn from(error: TryLockError) -> OpenFault {
        match error {
            TryLockError::WouldBlock => OpenFault::InUse,
            TryLockError::Error(error) => OpenFault::System(error),
        }
    }
}

/// Whether these are of one file: they have the same device and inode.
pub fn is_same(one: &Metadata, other: &Metadata) -> bool {
    one.dev() == other.dev() && one.ino() == other.ino()
}

/// Whether two names lead to one file that is there.
pub fn lead_to_one_file<R: Files>(rt: &R, one: &str, other: &str) -> io::Result<bool> {
    Ok(is_same(&fs::metadata(rt, one)?, &fs::metadata(rt, other)?))
}

fn open<R: Files<File = File>>(rt: &R, name: &str, access: Access) -> Result<File, OpenFault> {
    let found = fs::metadata(rt, name)?;
    if found.is_dir() {
        return Err(OpenFault::System(ErrorKind::IsADirectory.into()));
    }
    if !found.is_file() {
        return Err(OpenFault::NotAFile);
    }
    let file = OpenOptions::new()
        .read(true)
        .write(access == Access::Written)
        .open(rt, name)?;
    Ok(file)
}

fn lock(file: &File, access: Access) -> Result<(), OpenFault> {
    match access {
        Access::Shared => file.try_lock_shared()?,
        Access::Alone | Access::Written => file.try_lock()?,
    }
    Ok(())
}

/// Whether an open file is still the one that a name leads to.
fn is_at<R: Files>(rt: &R, file: &File, name: &str) -> Result<bool, OpenFault> {
    match fs::metadata(rt, name) {
        Ok(found) => Ok(is_same(&found, &file.metadata()?)),
        Err(error) if error.kind() == ErrorKind::NotFound => Ok(false),
        Err(error) => Err(OpenFault::System(error)),
    }
}

/// Opens the regular file that a name leads to, and takes its lock or fails at once. What is answered is the file of that name once the lock was taken: where
/// another one took its place before, that one is opened.
pub fn open_locked<R: Files<File = File>>(
    rt: &R,
    name: &str,
    access: Access,
) -> Result<File, OpenFault> {
    for _ in 0..TRIES {
        let file = open(rt, name, access)?;
        lock(&file, access)?;
        if is_at(rt, &file, name)? {
            return Ok(file);
        }
    }
    Err(OpenFault::InUse)
}
