// The files of the system.

use crate::reading::read_pieces;
use std::alloc::Global;
use std::fs::{File, Files as System};
use std::io::Read;
use std::{fs, io};
use system_files::{
    Access, Links, OpenFault, Source, is_same, lead_to_one_file, open_locked, write_file,
};
use xnsim_line::Files;

/// The files of the system. How one is written is said at `write_file`.
#[derive(Drop)]
pub struct SystemFiles<'a, R: System<File = File> + AllocGlobal> {
    rt: &'a R,
    /// The disk that was read last, which stays locked.
    disk: Option<File>,
}

impl<'a, R: System<File = File> + AllocGlobal> SystemFiles<'a, R> {
    pub fn new(rt: &'a R) -> SystemFiles<'a, R> {
        SystemFiles { rt, disk: None }
    }
}

/// The first bytes of a file, at most `limit` of them.
fn first_bytes<R: System<File = File> + AllocGlobal>(
    rt: &R,
    name: &str,
    limit: usize,
) -> io::Result<Vec<u8>> {
    let mut bytes = Vec::new(rt.alloc());
    fs::open(rt, name)?
        .take(limit as u64)
        .read_to_end(&mut bytes)?;
    Ok(bytes)
}

/// The same of a file that may be long. As many bytes as the system says that it has are read piece by piece. A device has none by that, so what comes
/// behind them is read too.
fn first_of_many<R: System<File = File> + AllocGlobal>(
    rt: &R,
    mut file: &File,
    limit: usize,
) -> io::Result<Vec<u8>> {
    let mut bytes = Vec::with_capacity(rt.alloc(), limit)?;
    let length = file.metadata()?.len().min(limit as u64) as usize;
    read_pieces(&mut file, &mut bytes, length)?;
    let left = limit.saturating_sub(bytes.len());
    file.take(left as u64).read_to_end(&mut bytes)?;
    Ok(bytes)
}

/// Opens a disk with its lock. What is no regular file is opened without one.
fn open_disk<R: System<File = File> + AllocGlobal>(
    rt: &R,
    name: &str,
    access: Access,
) -> Option<File> {
    match open_locked(rt, name, access) {
        Ok(file) => Some(file),
        Err(OpenFault::NotAFile) => fs::open(rt, name).ok(),
        Err(_) => None,
    }
}

/// Whether a name still leads to an open file.
fn leads_to<R: System>(rt: &R, name: &str, file: &File) -> bool {
    match (fs::metadata(rt, name), file.metadata()) {
        (Ok(found), Ok(own)) => is_same(&found, &own),
        _ => false,
    }
}

impl<'a, R: System<File = File> + AllocGlobal> Files for SystemFiles<'a, R> {
    ghost use Rattle.std.specs.Prelude.{None};

    ghost held = { λ files. None };

    fn read_start(&mut self, _alloc: Global, name: &str, limit: usize) -> Option<Vec<u8>> {
        first_bytes(self.rt, name, limit).ok()
    }

    fn read_disk(
        &mut self,
        _alloc: Global,
        name: &str,
        limit: usize,
        access: Access,
    ) -> Option<Vec<u8>> {
        let file = open_disk(self.rt, name, access)?;
        let bytes = first_of_many(self.rt, &file, limit).ok();
        self.disk = Some(file);
        bytes
    }

    fn is_one_file(&mut self, one: &str, other: &str) -> bool {
        one == other || lead_to_one_file(self.rt, one, other).unwrap_or(false)
    }

    /// A disk that was read is written only while it is the one of that name.
    fn write_from<S: Source + Drop>(&mut self, name: &str, source: S) -> bool {
        if let Some(disk) = &self.disk
            && !leads_to(self.rt, name, disk)
        {
            return false;
        }
        write_file(self.rt, name, Links::Followed, self.disk.as_ref(), source).is_ok()
    }
}
