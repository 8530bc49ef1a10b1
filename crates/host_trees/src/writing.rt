// A file of the system is written.

ghost use Rattle.std.specs.Prelude.{None};

use crate::attributes::{Settings, set_all};
use crate::sink::{Filler, PlainSink, SparseSink};
use std::fs::{File, Files, Metadata, OpenOptions, TryLockError};
use std::io::ErrorKind;
use std::os::unix::fs::{MetadataExt, OpenOptionsExt, fchown};
use std::{fs, io};
use system_files::{Found, Links, Source, System, WriteFault, is_same, write_by};

/// The mode of a file that is being filled, and then gets its own.
const OWN: u32 = 0o600;

/// The mode of a file that is made as any other, of which the system takes away what is masked.
const ANY: u32 = 0o666;

/// The system that runs the program, with what the file that is written gets.
struct Writing<'a, R: Files<File = File> + AllocGlobal, F: Filler> {
    rt: &'a R,
    settings: Option<&'a Settings>,
    filler: &'a mut F,
}

impl<'a, R: Files<File = File> + AllocGlobal, F: Filler> Drop for Writing<'a, R, F> {
    fn drop(self) {
        let Writing {
            rt: _,
            settings: _,
            filler: _,
        } = self;
    }
}

fn found_of(metadata: &Metadata) -> Found {
    if metadata.is_file() {
        Found::Regular
    } else if metadata.is_dir() {
        Found::Folder
    } else if metadata.is_symlink() {
        Found::Link
    } else {
        Found::Other
    }
}

/// Whether the name of what was looked for is that of nothing.
fn is_missing(error: &io::Error) -> bool {
    error.kind() == ErrorKind::NotFound
}

impl<'a, R: Files<File = File> + AllocGlobal, F: Filler> System for Writing<'a, R, F> {
    type Handle = File;

    ghost calls = { λ _. None };

    fn look(&mut self, name: &str) -> Result<Found, WriteFault> {
        match fs::symlink_metadata(self.rt, name) {
            Ok(metadata) => Ok(found_of(&metadata)),
            Err(error) if is_missing(&error) => Ok(Found::Nothing),
            Err(error) => Err(error.into()),
        }
    }

    fn look_through(&mut self, name: &str) -> Result<Found, WriteFault> {
        Ok(found_of(&fs::metadata(self.rt, name)?))
    }

    fn resolve(&mut self, name: &str) -> Result<String, WriteFault> {
        Ok(fs::canonicalize(self.rt, name)?.into_string())
    }

    fn open(&mut self, name: &str) -> Result<File, WriteFault> {
        Ok(OpenOptions::new().write(true).open(self.rt, name)?)
    }

    fn kind(&mut self, file: &File) -> Result<Found, WriteFault> {
        Ok(found_of(&file.metadata()?))
    }

    fn lock(&mut self, file: &File) -> Result<(), WriteFault> {
        match file.try_lock() {
            Ok(()) => Ok(()),
            Err(TryLockError::WouldBlock) => Err(WriteFault::InUse),
            Err(TryLockError::Error(error)) => Err(error.into()),
        }
    }

    fn is_at(&mut self, file: &File, name: &str) -> Result<bool, WriteFault> {
        match fs::symlink_metadata(self.rt, name) {
            Ok(metadata) => Ok(is_same(&metadata, &file.metadata()?)),
            Err(error) if is_missing(&error) => Ok(false),
            Err(error) => Err(error.into()),
        }
    }

    fn open_folder(&mut self, name: &str) -> Result<File, WriteFault> {
        Ok(File::open(self.rt, name)?)
    }

    fn make(&mut self, name: &str) -> Result<Option<File>, WriteFault> {
        let mode = if self.settings.is_some() { OWN } else { ANY };
        let made = OpenOptions::new()
            .write(true)
            .create_new(true)
            .mode(mode)
            .open(self.rt, name);
        match made {
            Ok(file) => Ok(Some(file)),
            Err(error) if error.kind() == ErrorKind::AlreadyExists => Ok(None),
            Err(error) => Err(error.into()),
        }
    }

    fn keep(&mut self, file: &File, old: &File) -> Result<(), WriteFault> {
        if self.settings.is_some() {
            return Ok(());
        }
        let metadata = old.metadata()?;
        // It takes rights that few users have. The group may be one's own where the owner may not be given away.
        if fchown(file, Some(metadata.uid()), Some(metadata.gid())).is_err() {
            let _ = fchown(file, None, Some(metadata.gid()));
        }
        file.set_permissions(metadata.permissions())?;
        Ok(())
    }

    /// The bytes come from what fills the file, and not from the source, which has none: of a source it would have to be proved which bytes it writes.
    fn write<S: Source + Drop>(&mut self, file: &mut File, _source: S) -> Result<(), WriteFault> {
        if !file.metadata()?.is_file() {
            self.filler.fill(&mut PlainSink { out: file })?;
            return Ok(());
        }
        let mut sink = SparseSink::new(file);
        self.filler.fill(&mut sink)?;
        sink.finish()?;
        if let Some(settings) = self.settings {
            set_all(file, settings)?;
        }
        Ok(())
    }

    fn sync(&mut self, file: &File) -> Result<(), WriteFault> {
        file.sync_all()?;
        Ok(())
    }

    fn rename(&mut self, from: &str, to: &str) -> Result<(), WriteFault> {
        fs::rename(self.rt, from, to)?;
        Ok(())
    }

    fn sync_folder(&mut self, folder: &File) -> Result<(), WriteFault> {
        folder.sync_all()?;
        Ok(())
    }

    fn remove(&mut self, name: &str) {
        let _ = fs::remove_file(self.rt, name);
    }
}

/// Writes the file of a name, as `system_files::write_file` does, with what is set of a regular file: that is done before it takes its name.
pub fn write_file<R: Files<File = File> + AllocGlobal, F: Filler>(
    rt: &R,
    name: &str,
    links: Links,
    settings: Option<&Settings>,
    filler: &mut F,
) -> Result<(), WriteFault> {
    let mut system = Writing {
        rt,
        settings,
        filler,
    };
    let nothing: &[u8] = &[];
    write_by(&mut system, rt.alloc(), name, links, nothing)
}
