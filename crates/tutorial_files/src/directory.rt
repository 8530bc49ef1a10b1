// One directory of up to 16 files, each of one block, over any store. The tutorial explains it.

ghost use Rattle.std.specs.Prelude.{◌<◌, IfSome};

use byteorder::{ByteOrder, LittleEndian};
use edit_list::{Edit, Fs, Patch};
use std::alloc::{AllocError, AllocFailed, Global};
use store_types::{BLOCK_LEN, Refusal};
use thiserror::Error;
use xn_state::Store;

/// How many entries a directory has, of 32 bytes each: the number of a file's block, then its name and zeros.
const ENTRIES: usize = 16;

const ENTRY_LEN: usize = 32;

const NAME_LEN: usize = ENTRY_LEN - 4;

/// The type of data, which is built in.
const DATA: u32 = 2;

/// Why a call did nothing.
#[derive(Clone, Copy, Debug, PartialEq, Eq, Error)]
pub enum Fault {
    /// The file system's root is no directory.
    #[error("no directory")]
    NoDirectory,
    /// No file has this name.
    #[error("no such file")]
    NoFile,
    /// All entries are taken.
    #[error("full")]
    Full,
    /// A name has 1 to 28 bytes, none of them 0.
    #[error("no name")]
    BadName,
    /// The store refused a call.
    #[error("refused: {0}")]
    Kernel(Refusal),
}

impl From<Refusal> for Fault {
    fn from(refusal: Refusal) -> Fault {
        Fault::Kernel(refusal)
    }
}

impl From<AllocError> for Fault {
    fn from(_: AllocError) -> Fault {
        Fault::Kernel(Refusal::NoMemory)
    }
}

impl<T: Drop> From<AllocFailed<T>> for Fault {
    fn from(_: AllocFailed<T>) -> Fault {
        Fault::Kernel(Refusal::NoMemory)
    }
}

/// The number of the block that an entry names; 0 where it is free.
fn entry_block(bytes: &[u8; BLOCK_LEN], entry: usize) -> u32
    requires { entry < 16 }
{
    LittleEndian::read_u32(&bytes[ENTRY_LEN * entry..ENTRY_LEN * entry + 4])
}

/// The name of an entry, without the zeros behind it.
fn entry_name(bytes: &[u8; BLOCK_LEN], entry: usize) -> &[u8]
    requires { entry < 16 }
{
    let name = &bytes[ENTRY_LEN * entry + 4..ENTRY_LEN * (entry + 1)];
    let end = name.iter().position(|byte| *byte == 0).unwrap_or(NAME_LEN);
    &name[..end]
}

/// The bytes of an entry.
fn entry_bytes(alloc: Global, block: u32, name: &[u8]) -> Result<Vec<u8>, AllocError> {
    let mut bytes = Vec::from_slice(alloc, &block.to_le_bytes())?;
    bytes.extend_from_slice(name)?;
    bytes.resize(ENTRY_LEN, 0)?;
    Ok(bytes)
}

/// The entry with this name.
fn find(bytes: &[u8; BLOCK_LEN], name: &[u8]) -> Option<usize>
    ensures { IfSome result (λ entry. entry < 16) }
{
    for entry in 0..ENTRIES {
        if entry_block(bytes, entry) != 0 && entry_name(bytes, entry) == name {
            return Some(entry);
        }
    }
    None
}

/// The first free entry.
fn find_free(bytes: &[u8; BLOCK_LEN]) -> Option<usize>
    ensures { IfSome result (λ entry. entry < 16) }
{
    for entry in 0..ENTRIES {
        if entry_block(bytes, entry) == 0 {
            return Some(entry);
        }
    }
    None
}

/// The entry for a file with this name, and the block that it names now, if it does.
fn find_place(bytes: &[u8; BLOCK_LEN], name: &[u8]) -> Option<(usize, Option<u32>)>
    ensures { IfSome result (λ place. place.0 < 16) }
{
    match find(bytes, name) {
        Some(entry) => Some((entry, Some(entry_block(bytes, entry)))),
        None => Some((find_free(bytes)?, None)),
    }
}

/// A directory of a file system.
#[derive(Clone, Copy, Debug)]
pub struct Directory {
    fs: Fs,
    block: u32,
}

impl Directory {
    /// Makes an empty directory of this type, as the file system's root.
    pub fn make<S: Store>(store: &mut S, fs: Fs, ty: u32) -> Result<Directory, Fault> {
        let (block, _) = store.init(fs, ty, &[0; BLOCK_LEN])?;
        let _ = store.make_root(fs, block)?;
        Ok(Directory { fs, block })
    }

    /// The directory that is the file system's root.
    pub fn open<S: Store>(store: &S, fs: Fs, ty: u32) -> Result<Directory, Fault> {
        match store.root(fs) {
            Some(block) if store.kind(fs, block) == Ok(ty) => Ok(Directory { fs, block }),
            _ => Err(Fault::NoDirectory),
        }
    }

    /// Changes an entry: one edit, with the blocks that the directory owns from then on, and those that it no longer does.
    fn edit<S: Store>(
        &self,
        store: &mut S,
        entry: usize,
        bytes: Vec<u8>,
        adds: Vec<(u32, u32)>,
        drops: Vec<u32>,
    ) -> Result<(), Fault>
        requires { entry < 16 }
    {
        let alloc = *bytes.allocator();
        let offset = (ENTRY_LEN * entry) as u16;
        let edit = Edit {
            patches: Vec::from_array(alloc, [Patch { offset, bytes }])?,
            adds,
            drops,
            after: None,
        };
        let _ = store.propose(self.fs, self.block, &edit)?;
        Ok(())
    }

    /// Writes a file: a new one, or in place of the one that has the name. Until its block is on the disk, the disk has the old one.
    pub fn put<S: Store>(
        &self,
        alloc: Global,
        store: &mut S,
        name: &[u8],
        bytes: &[u8; BLOCK_LEN],
    ) -> Result<(), Fault> {
        if name.is_empty() || name.len() > NAME_LEN || name.contains(&0) {
            return Err(Fault::BadName);
        }
        let now = *store.read(self.fs, self.block)?;
        let (entry, former) = find_place(&now, name).ok_or(Fault::Full)?;
        let (block, _) = store.init(self.fs, DATA, bytes)?;
        let attached = self.attach(alloc, store, entry, name, block, former);
        if attached.is_err() {
            let _ = store.forget(self.fs, block);
        }
        attached
    }

    /// Names a new block in an entry, in place of a former one where there is one.
    fn attach<S: Store>(
        &self,
        alloc: Global,
        store: &mut S,
        entry: usize,
        name: &[u8],
        block: u32,
        former: Option<u32>,
    ) -> Result<(), Fault>
        requires { entry < 16 }
    {
        let bytes = entry_bytes(alloc, block, name)?;
        let adds = Vec::from_array(alloc, [(block, DATA)])?;
        let mut drops = Vec::new(alloc);
        if let Some(former) = former {
            drops.push(former)?;
        }
        self.edit(store, entry, bytes, adds, drops)
    }

    /// Takes a file away.
    pub fn remove<S: Store>(&self, alloc: Global, store: &mut S, name: &[u8]) -> Result<(), Fault> {
        let now = *store.read(self.fs, self.block)?;
        let entry = find(&now, name).ok_or(Fault::NoFile)?;
        let drops = Vec::from_array(alloc, [entry_block(&now, entry)])?;
        let bytes = Vec::from_slice(alloc, &[0; ENTRY_LEN])?;
        self.edit(store, entry, bytes, Vec::new(alloc), drops)
    }

    /// The bytes of a file.
    pub fn get<S: Store>(&self, store: &S, name: &[u8]) -> Result<[u8; BLOCK_LEN], Fault> {
        let now = store.read(self.fs, self.block)?;
        let entry = find(now, name).ok_or(Fault::NoFile)?;
        Ok(*store.read(self.fs, entry_block(now, entry))?)
    }

    /// The names of all files, in the order of their entries.
    pub fn list<S: Store>(&self, alloc: Global, store: &S) -> Result<Vec<Vec<u8>>, Fault> {
        let now = store.read(self.fs, self.block)?;
        let mut names = Vec::new(alloc);
        for entry in 0..ENTRIES {
            if entry_block(now, entry) != 0 {
                names.push(entry_name(now, entry).to_vec(alloc)?)?;
            }
        }
        Ok(names)
    }
}
