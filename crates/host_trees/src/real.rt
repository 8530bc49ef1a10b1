// The files of the system that runs the program.

use crate::attributes::{Attributes, Kind, Settings, attributes_of, set_all};
use crate::host::{Host, Names};
use crate::linking::{Made, make, make_over};
use crate::sink::Filler;
use crate::writing::write_file;
use std::alloc::{AllocError, Global};
use std::fs::{DirBuilder, File, Files, OpenOptions};
use std::io::{ErrorKind, Read, Write};
use std::os::unix::fs::{DirBuilderExt, MetadataExt, lchown};
use std::rt::Clock;
use std::{fs, io};
use system_files::{Access, Links, OpenFault, WriteFault, open_locked};

/// Where standard error leads to, as the system names it.
const STANDARD_ERROR: &str = "/proc/self/fd/2";

/// What belongs to the user and the group of who runs the program.
const OWN_PROCESS: &str = "/proc/self";

/// The mode of a folder that is being filled.
const OWN: u32 = 0o700;

/// The files of the system that runs the program.
#[derive(Drop)]
pub struct RealHost<R: Files<File = File> + AllocGlobal + Clock + Clone + Drop> {
    rt: R,
    /// Standard error, where that is a terminal.
    terminal: Option<File>,
}

/// Whether a file of the system is a terminal, by its name.
fn is_terminal(name: &str) -> bool {
    name.starts_with("/dev/pts/") || name.starts_with("/dev/tty")
}

/// Standard error, where that is a terminal.
fn terminal_of<R: Files<File = File> + AllocGlobal>(rt: &R) -> Option<File> {
    let path = fs::canonicalize(rt, STANDARD_ERROR).ok()?;
    let name = path.to_str()?;
    if is_terminal(name) {
        OpenOptions::new().write(true).open(rt, name).ok()
    } else {
        None
    }
}

impl<R: Files<File = File> + AllocGlobal + Clock + Clone + Drop> RealHost<R> {
    /// The system that runs the program.
    pub fn new(rt: &R) -> Result<RealHost<R>, AllocError> {
        Ok(RealHost {
            rt: rt.clone()?,
            terminal: terminal_of(rt),
        })
    }
}

/// The fault of a file that was not opened with its lock.
fn not_locked(fault: OpenFault) -> WriteFault {
    match fault {
        OpenFault::NotThere => WriteFault::System(ErrorKind::NotFound.into()),
        OpenFault::InUse => WriteFault::InUse,
        OpenFault::NotAFile => WriteFault::Link,
        OpenFault::System(error) => error.into(),
    }
}

impl<R: Files<File = File> + AllocGlobal + Clock + Clone + Drop> Host for RealHost<R> {
    type File = File;

    fn attributes(&self, path: &str) -> io::Result<Attributes> {
        Ok(attributes_of(&fs::symlink_metadata(&self.rt, path)?))
    }

    fn attributes_through(&self, path: &str) -> io::Result<Attributes> {
        Ok(attributes_of(&fs::metadata(&self.rt, path)?))
    }

    fn names(&self, alloc: Global, path: &str) -> io::Result<Names> {
        let mut found = Names {
            names: Vec::new(alloc),
            odd: 0,
            fault: None,
        };
        for entry in fs::read_dir(&self.rt, path)? {
            match entry {
                Ok(entry) => found
                    .names
                    .push(String::from_str(alloc, entry.file_name())?)?,
                Err(error) if error.kind() == ErrorKind::InvalidFilename => {
                    found.odd = found.odd.saturating_add(1);
                }
                Err(error) => found.fault = Some(error),
            }
        }
        found.names.sort_unstable();
        Ok(found)
    }

    fn target(&self, path: &str) -> io::Result<String> {
        Ok(fs::read_link(&self.rt, path)?.into_string())
    }

    fn open(&self, path: &str) -> io::Result<File> {
        File::open(&self.rt, path)
    }

    fn open_below(&self, path: &str) -> io::Result<Option<(File, Attributes)>> {
        let file = File::open(&self.rt, path)?;
        let opened = attributes_of(&file.metadata()?);
        if opened.kind == Kind::File && opened.is_same(&self.attributes(path)?) {
            Ok(Some((file, opened)))
        } else {
            Ok(None)
        }
    }

    fn read(&self, file: &mut File, bytes: &mut [u8]) -> io::Result<usize> {
        file.read(bytes)
    }

    fn make_folder(&self, path: &str) -> io::Result<()> {
        DirBuilder::new().mode(OWN).create(&self.rt, path)
    }

    fn make_folders(&self, path: &str) -> io::Result<()> {
        fs::create_dir_all(&self.rt, path)
    }

    fn own_ids(&self) -> (u32, u32) {
        match fs::metadata(&self.rt, OWN_PROCESS) {
            Ok(metadata) => (metadata.uid(), metadata.gid()),
            Err(_) => (0, 0),
        }
    }

    fn make_symbolic_link(
        &self,
        alloc: Global,
        target: &str,
        path: &str,
        is_over: bool,
        settings: Option<&Settings>,
    ) -> io::Result<()> {
        let made = Made::SymbolicLink(target);
        if is_over {
            make_over(&self.rt, alloc, made, path)?;
        } else {
            make(&self.rt, made, path)?;
        }
        if let Some(settings) = settings {
            let _ = lchown(&self.rt, path, Some(settings.uid), Some(settings.gid));
        }
        Ok(())
    }

    fn make_hard_link(
        &self,
        alloc: Global,
        old: &str,
        path: &str,
        is_over: bool,
    ) -> Result<(), WriteFault> {
        let made = Made::HardLink(old);
        if !is_over {
            return Ok(make(&self.rt, made, path)?);
        }
        let _locked = match open_locked(&self.rt, path, Access::Alone) {
            Ok(file) => file,
            Err(fault) => return Err(not_locked(fault)),
        };
        Ok(make_over(&self.rt, alloc, made, path)?)
    }

    fn write_file<F: Filler>(
        &self,
        path: &str,
        links: Links,
        settings: Option<&Settings>,
        filler: &mut F,
    ) -> Result<(), WriteFault> {
        write_file(&self.rt, path, links, settings, filler)
    }

    fn set_folder(&self, path: &str, settings: &Settings) -> io::Result<()> {
        set_all(&File::open(&self.rt, path)?, settings)
    }

    fn milliseconds(&self) -> u64 {
        match self.rt.monotonic() {
            Ok(time) => time
                .as_secs()
                .saturating_mul(1_000)
                .saturating_add(u64::from(time.subsec_millis())),
            Err(_) => 0,
        }
    }

    fn tell_terminal(&self, text: &str) {
        if let Some(terminal) = &self.terminal {
            let mut terminal = terminal;
            let _ = terminal.write_all(text.as_bytes());
        }
    }
}
