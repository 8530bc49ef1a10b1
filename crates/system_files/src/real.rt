// The calls of the system that runs the program.

use crate::locking::is_same;
use crate::{Found, Links, Source, System, WriteFault, write_by};
use std::fs;
use std::fs::{File, Files, Metadata, OpenOptions, TryLockError};
use std::io::ErrorKind;
use std::os::unix::fs::{MetadataExt, fchown};

/// The system that runs the program, and an open file whose lock is this process's own.
#[derive(Drop)]
struct Real<'a, R: Files<File = File> + AllocGlobal> {
    rt: &'a R,
    own: Option<&'a File>,
}

fn found_of(metadata: &Metadata) -> Found {
    if metadata.is_file() {
        Found::Regular
    } else if metadata.is_dir() {
        Found::Folder
    } else if metadata.is_symlink() {
        Found::Link
    } else {
        Found::Other
    }
}

impl<'a, R: Files<File = File> + AllocGlobal> Real<'a, R> {
    /// Whether an open file is the one whose lock this process has.
    fn is_own(&self, file: &File) -> Result<bool, WriteFault> {
        match self.own {
            Some(own) => Ok(is_same(&own.metadata()?, &file.metadata()?)),
            None => Ok(false),
        }
    }
}

impl<'a, R: Files<File = File> + AllocGlobal> System for Real<'a, R> {
    ghost use Rattle.std.specs.Prelude.{None};

    type Handle = File;

    ghost calls = { λ _. None };

    fn look(&mut self, name: &str) -> Result<Found, WriteFault> {
        match fs::symlink_metadata(self.rt, name) {
            Ok(metadata) => Ok(found_of(&metadata)),
            Err(error) if error.kind() == ErrorKind::NotFound => Ok(Found::Nothing),
            Err(error) => Err(error.into()),
        }
    }

    fn look_through(&mut self, name: &str) -> Result<Found, WriteFault> {
        Ok(found_of(&fs::metadata(self.rt, name)?))
    }

    fn resolve(&mut self, name: &str) -> Result<String, WriteFault> {
        Ok(fs::canonicalize(self.rt, name)?.into_string())
    }

    fn open(&mut self, name: &str) -> Result<File, WriteFault> {
        Ok(OpenOptions::new().write(true).open(self.rt, name)?)
    }

    fn kind(&mut self, file: &File) -> Result<Found, WriteFault> {
        Ok(found_of(&file.metadata()?))
    }

    fn lock(&mut self, file: &File) -> Result<(), WriteFault> {
        if self.is_own(file)? {
            return Ok(());
        }
        match file.try_lock() {
            Ok(()) => Ok(()),
            Err(TryLockError::WouldBlock) => Err(WriteFault::InUse),
            Err(TryLockError::Error(error)) => Err(error.into()),
        }
    }

    fn is_at(&mut self, file: &File, name: &str) -> Result<bool, WriteFault> {
        match fs::symlink_metadata(self.rt, name) {
            Ok(metadata) => Ok(is_same(&metadata, &file.metadata()?)),
            Err(error) if error.kind() == ErrorKind::NotFound => Ok(false),
            Err(error) => Err(error.into()),
        }
    }

    fn open_folder(&mut self, name: &str) -> Result<File, WriteFault> {
        Ok(File::open(self.rt, name)?)
    }

    fn make(&mut self, name: &str) -> Result<Option<File>, WriteFault> {
        match File::create_new(self.rt, name) {
            Ok(file) => Ok(Some(file)),
            Err(error) if error.kind() == ErrorKind::AlreadyExists => Ok(None),
            Err(error) => Err(error.into()),
        }
    }

    fn keep(&mut self, file: &File, old: &File) -> Result<(), WriteFault> {
        let metadata = old.metadata()?;
        // It takes rights that few users have. The group may be one's own where the owner may not be given away.
        if fchown(file, Some(metadata.uid()), Some(metadata.gid())).is_err() {
            let _ = fchown(file, None, Some(metadata.gid()));
        }
        file.set_permissions(metadata.permissions())?;
        Ok(())
    }

    fn write<S: Source + Drop>(&mut self, file: &mut File, source: S) -> Result<(), WriteFault> {
        source.write_to(file)?;
        Ok(())
    }

    fn sync(&mut self, file: &File) -> Result<(), WriteFault> {
        file.sync_all()?;
        Ok(())
    }

    fn rename(&mut self, from: &str, to: &str) -> Result<(), WriteFault> {
        fs::rename(self.rt, from, to)?;
        Ok(())
    }

    fn sync_folder(&mut self, folder: &File) -> Result<(), WriteFault> {
        folder.sync_all()?;
        Ok(())
    }

    fn remove(&mut self, name: &str) {
        let _ = fs::remove_file(self.rt, name);
    }
}

/// Writes the bytes of a source to the file of a name.
///
/// Of a link it is the file that it leads to, or the link is refused. A regular file has to be one that may be written. It is locked, and refused with
/// `InUse` where any handle has its lock, but for `own`, whose lock this process has. It is replaced whole: a new file beside it gets its mode, and its
/// owner and group where that may be done, then the bytes, is synced, and takes its name. On any fault before that the file is as it was, and the new one
/// is removed. What is no regular file, as a device or a pipe, is written in place. A folder is refused, and so is an empty name.
pub fn write_file<R: Files<File = File> + AllocGlobal, S: Source + Drop>(
    rt: &R,
    name: &str,
    links: Links,
    own: Option<&File>,
    source: S,
) -> Result<(), WriteFault> {
    let mut system = Real { rt, own };
    write_by(&mut system, rt.alloc(), name, links, source)
}
