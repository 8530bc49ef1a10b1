// Files in memory.

ghost use Rattle.std.specs.Prelude.{◌≡◌, bytes_eq, position, string_bytes, IfSome, IsTrue, OnOk};
ghost use Rattle.xnsim_line.specs.Files.{IsHeld, with_file};

use std::alloc::{AllocError, Global};
use system_files::{Access, Source};
use xnsim_line::Files;

/// A file in memory.
#[derive(Drop)]
pub struct MemoryFile {
    pub name: String,
    pub bytes: Vec<u8>,
    pub is_readable: bool,
    pub is_writable: bool,
}

/// Files in memory. While they are closed there can be no new ones.
#[derive(Drop)]
pub struct MemoryFiles {
    pub alloc: Global,
    pub files: Vec<MemoryFile>,
    pub is_closed: bool,
}

impl MemoryFiles {
    ghost use Rattle.player.specs.Memory.{held_by};

    /// No files.
    pub fn new(alloc: Global) -> MemoryFiles {
        MemoryFiles {
            alloc,
            files: Vec::new(alloc),
            is_closed: false,
        }
    }

    /// The place of the file of this name.
    fn place_of(&self, name: &str) -> Option<usize>
        ensures { result ≡ position (λ file. bytes_eq (string_bytes file.name) name.now) self.now.files.items }
    {
        self.files
            .iter()
            .position(|file| file.name.as_str() == name)
    }

    /// The bytes of the file of this name.
    pub fn find(&self, name: &str) -> Option<&[u8]> {
        let place = self.place_of(name)?;
        Some(self.files[place].bytes.as_slice())
    }

    /// The bytes of a file, or `None` where it can't be read.
    pub fn read(&self, alloc: Global, name: &str) -> Option<Vec<u8>>
        ensures { IfSome result (λ bytes. IsHeld (held_by self.now.files.items) name.now bytes.items) }
    {
        let place = self.place_of(name)?;
        let file = &self.files[place];
        if !file.is_readable {
            return None;
        }
        Vec::from_slice(alloc, file.bytes.as_slice()).ok()
    }

    /// Forbids to read a file, and answers whether there is one.
    pub fn forbid_reading(&mut self, name: &str) -> bool {
        let Some(place) = self.place_of(name) else {
            return false;
        };
        self.files[place].is_readable = false;
        true
    }

    /// Forbids to write a file, and answers whether there is one.
    pub fn forbid_writing(&mut self, name: &str) -> bool {
        let Some(place) = self.place_of(name) else {
            return false;
        };
        self.files[place].is_writable = false;
        true
    }

    /// Puts a file before the others.
    fn put(&mut self, name: &str, bytes: &[u8]) -> Result<(), AllocError>
        ensures { OnOk result (held_by self.new.files.items ≡ with_file (held_by self.old.files.items) name.now bytes.now) }
    {
        let file = MemoryFile {
            name: String::from_str(self.alloc, name)?,
            bytes: Vec::from_slice(self.alloc, bytes)?,
            is_readable: true,
            is_writable: true,
        };
        self.files.insert(0, file)?;
        Ok(())
    }

    /// Whether there is now a new file of these bytes.
    fn add(&mut self, name: &str, bytes: &[u8]) -> bool
        ensures { IsTrue result → held_by self.new.files.items ≡ with_file (held_by self.old.files.items) name.now bytes.now }
    {
        if self.is_closed {
            return false;
        }
        self.put(name, bytes).is_ok()
    }

    /// Whether the file of a name now holds these bytes.
    fn set(&mut self, name: &str, bytes: &[u8]) -> bool
        ensures { IsTrue result → held_by self.new.files.items ≡ with_file (held_by self.old.files.items) name.now bytes.now }
    {
        let Some(place) = self.place_of(name) else {
            return self.add(name, bytes);
        };
        let file = &mut self.files[place];
        if !file.is_writable {
            return false;
        }
        file.bytes.clear();
        file.bytes.extend_from_slice(bytes).is_ok()
    }
}

impl Files for MemoryFiles {
    ghost use Rattle.player.specs.Memory.{held_by};

    ghost held = { λ m. held_by m.files.items };

    fn read_start(&mut self, alloc: Global, name: &str, limit: usize) -> Option<Vec<u8>> {
        let mut bytes = MemoryFiles::read(self, alloc, name)?;
        bytes.truncate(limit);
        Some(bytes)
    }

    fn read_disk(
        &mut self,
        alloc: Global,
        name: &str,
        limit: usize,
        _access: Access,
    ) -> Option<Vec<u8>> {
        self.read_start(alloc, name, limit)
    }

    fn is_one_file(&mut self, one: &str, other: &str) -> bool {
        one == other
    }

    fn write_from<S: Source + Drop>(&mut self, name: &str, source: S) -> bool {
        match bytes_from(self.alloc, source) {
            Some(bytes) => self.set(name, bytes.as_slice()),
            None => false,
        }
    }
}

/// The bytes that a source writes, or `None` for want of memory.
fn bytes_from<S: Source + Drop>(alloc: Global, source: S) -> Option<Vec<u8>>
    ensures { IfSome result (λ bytes. bytes.items ≡ S.bytes_of source) }
{
    let mut bytes = Vec::new(alloc);
    match source.write_to(&mut bytes) {
        Ok(()) => Some(bytes),
        Err(_) => None,
    }
}
