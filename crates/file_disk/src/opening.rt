// A file as a disk: made or opened, and locked.
ghost use Rattle.std.specs.Prelude.{◌≡◌, ◌≤◌, ◌*◌, ◌/◌, ◌%◌, length, replicate, IfOk, IfSome, IsSome};
ghost use Rattle.xn_model.specs.Images.{most_blocks};
ghost use Rattle.disk.specs.Images.{HoldsBytes};
ghost use Rattle.file_disk.specs.Opened.{AreOpened, IsDiskImage};

use crate::fault::FileFault;
use crate::found_block::{FoundImage, write_blocks};
use crate::lane::FileLane;
use crate::lanes::{lanes_of, share};
use crate::shared_file::{GoodSync, Shared, SystemFault};
use disk::Lanes;
use std::alloc::{AllocError, Global};
use std::fs::{File, Files, Metadata, OpenOptions, TryLockError};
use std::marker::Model;
use std::path::Path;
use std::sync::Arc;
use std::{fs, io};
use store_types::{BLOCK_LEN, MAX_BLOCKS, MIN_BLOCKS};
use system_files::{Access, is_same, open_locked};

/// An open file, of 32 to 1,048,576 blocks, with a lane for each, all at home. Nobody else can open it as a disk until the last
/// lane is dropped.
#[derive(Drop)]
pub struct FileDisk {
    lanes: Lanes<FileLane>,
    file: Shared,
}

impl Model for FileDisk {
    ghost use Rattle.std.specs.Prelude.{List, Option};
    ghost use Rattle.file_disk.specs.File.{FileBlock};

    ghost Value = { List (Option FileBlock) };

    ghost view = { λ a. a.lanes };
}

/// An open file, of 32 to 1,048,576 blocks, with all its bytes in memory. Nobody else can open it as a disk while it is there.
#[derive(Drop)]
pub struct FileImage {
    file: Shared,
    opened: GoodSync,
    image: FoundImage,
}

impl Model for FileImage {
    ghost use Rattle.std.specs.Prelude.{List, ℕ};
    ghost use Rattle.file_disk.specs.Opened.{IsDiskImage};

    ghost Value = { List ℕ };

    ghost view = { λ a. a.image.bytes.items };

    ghost invariant = { λ a. IsDiskImage a.image.bytes.items };
}

impl FileImage {
    /// Opens and locks a file, settles what the system still holds of it, and reads each block once, a megabyte at a time. `NotThere` comes
    /// where nothing has the name, `InUse` at once where another handle has a lock that doesn't go with this one, `NotAFile` and `BadLength`
    /// where it can be no disk. The file is the one that had the name once its lock was taken.
    ///
    /// One that is opened to be read alone need not be one that may be written, and the system refuses each write to it.
    pub fn open<R: Files<File = File>>(
        rt: &R,
        alloc: Global,
        path: &str,
        access: Access,
    ) -> Result<FileImage, FileFault> {
        let file = open_locked(rt, path, access)?;
        let blocks = blocks_of(&file)?;
        let opened = GoodSync::first(&file)?;
        let image = FoundImage::read(alloc, &file, blocks)?;
        Ok(FileImage {
            file: share(alloc, file)?,
            opened,
            image,
        })
    }

    /// Its bytes, block after block.
    pub fn bytes(&self) -> &[u8]
        ensures bytes { result.now ≡ self.now }
        ensures disk { IsDiskImage self.now }
    {
        self.image.bytes()
    }

    /// A disk of it, with a lane for each block: they take the memory of the bytes over, which never stand twice.
    pub fn into_disk(self, alloc: Global) -> Result<FileDisk, FileFault>
        ensures opened { IfOk result (λ disk. AreOpened (length self / 512) disk) }
        ensures disk { IsDiskImage self }
        ensures image { IfOk result (λ disk. HoldsBytes (λ lane. lane.bytes) disk self) }
    {
        let FileImage {
            file,
            opened,
            image,
        } = self;
        let blocks = (image.bytes().len() / BLOCK_LEN) as u32;
        let lanes = lanes_of(alloc, &file, &opened, image, blocks)?;
        Ok(FileDisk { lanes, file })
    }
}

impl FileDisk {
    /// Makes a file of so many blocks of zeros, as `create_with`.
    pub fn create<R: Files<File = File>>(
        rt: &R,
        alloc: Global,
        path: &str,
        blocks: u32,
    ) -> Result<FileDisk, FileFault>
        requires least { 32 ≤ blocks }
        requires most { blocks ≤ most_blocks }
        ensures opened { IfOk result (λ disk. AreOpened blocks disk) }
        ensures zeros { IfOk result (λ disk. HoldsBytes (λ lane. lane.bytes) disk (replicate (512 * blocks) 0)) }
    {
        let zeros = vec![in alloc; 0; BLOCK_LEN * blocks as usize]?;
        FileDisk::create_with(rt, alloc, path, &zeros)
    }

    /// Makes a file of these bytes, which are whole blocks, and locks it. After `Ok` the file and its name are settled.
    /// `AlreadyThere` comes where something has the name, and nothing is done then. After another `Err` the file that was made is
    /// removed. After a crash a file that was not there may be there, whole or short: block 0 is written last, once all others are
    /// settled, so that it never stands before an image that is not whole.
    pub fn create_with<R: Files<File = File>>(
        rt: &R,
        alloc: Global,
        path: &str,
        image: &[u8],
    ) -> Result<FileDisk, FileFault>
        requires whole { length image.now % 512 ≡ 0 }
        requires least { 512 * 32 ≤ length image.now }
        requires most { length image.now ≤ 512 * most_blocks }
        ensures opened { IfOk result (λ disk. AreOpened (length image.now / 512) disk) }
        ensures image { IfOk result (λ disk. HoldsBytes (λ lane. lane.bytes) disk image.now) }
    {
        let file = make(rt, path)?;
        let made = file.metadata()?;
        let filled = fill(rt, alloc, path, file, image);
        if filled.is_err() {
            remove_made(rt, path, &made);
        }
        filled
    }

    /// Opens a file as `FileImage::open` does, with a lane for each block. Where it is opened to be read alone a write of it is a fault, and its
    /// sync, where no write was, is none.
    pub fn open<R: Files<File = File>>(
        rt: &R,
        alloc: Global,
        path: &str,
        access: Access,
    ) -> Result<FileDisk, FileFault>
        ensures opened { IfOk result (λ disk. AreOpened (length disk) disk) }
        ensures least { IfOk result (λ disk. 32 ≤ length disk) }
        ensures most { IfOk result (λ disk. length disk ≤ most_blocks) }
    {
        FileImage::open(rt, alloc, path, access)?.into_disk(alloc)
    }

    /// Makes a file of so many blocks, the first of these bytes and all others of zeros, as `create_with` does, and without their lanes: of the
    /// zeros no more than a megabyte is in memory.
    pub fn write_fresh<R: Files<File = File>>(
        rt: &R,
        alloc: Global,
        path: &str,
        head: &[u8],
        blocks: u32,
    ) -> Result<(), FileFault>
        requires some { 512 ≤ length head.now }
        requires within { length head.now ≤ 512 * blocks }
        requires least { 32 ≤ blocks }
        requires most { blocks ≤ most_blocks }
    {
        let file = make(rt, path)?;
        let made = file.metadata()?;
        let filled = fill_fresh(rt, alloc, path, &file, head, blocks);
        if filled.is_err() {
            remove_made(rt, path, &made);
        }
        filled
    }

    /// What tells the system's reason where a lane fails.
    pub fn system_fault(&self) -> Result<SystemFault, AllocError> {
        let file = Arc::try_clone(&self.file)?;
        Ok(SystemFault { file })
    }

    /// Its lanes, all at home. The file stays open and locked until the last of them is dropped.
    pub fn into_lanes(self) -> Lanes<FileLane>
        ensures { result ≡ self }
    {
        let FileDisk { lanes, file: _ } = self;
        lanes
    }
}

/// Makes a file that is not there.
fn make<R: Files<File = File>>(rt: &R, path: &str) -> Result<File, FileFault> {
    let made = OpenOptions::new()
        .read(true)
        .write(true)
        .create_new(true)
        .open(rt, path);
    match made {
        Ok(file) => Ok(file),
        Err(error) if error.kind() == io::ErrorKind::AlreadyExists => Err(FileFault::AlreadyThere),
        Err(error) => Err(FileFault::System(error)),
    }
}

/// Locks a file that was just made, writes these bytes and settles them and its name.
fn fill<R: Files<File = File>>(
    rt: &R,
    alloc: Global,
    path: &str,
    file: File,
    image: &[u8],
) -> Result<FileDisk, FileFault>
    requires whole { length image.now % 512 ≡ 0 }
    requires least { 512 * 32 ≤ length image.now }
    requires most { length image.now ≤ 512 * most_blocks }
    ensures opened { IfOk result (λ disk. AreOpened (length image.now / 512) disk) }
    ensures image { IfOk result (λ disk. HoldsBytes (λ lane. lane.bytes) disk image.now) }
{
    lock(&file)?;
    settle_name(rt, path)?;
    let image = FoundImage::write(alloc, &file, image)?;
    let opened = GoodSync::first(&file)?;
    FileImage {
        file: share(alloc, file)?,
        opened,
        image,
    }
    .into_disk(alloc)
}

/// Locks a file that was just made, writes these bytes and zeros behind them, and settles them and its name.
fn fill_fresh<R: Files<File = File>>(
    rt: &R,
    alloc: Global,
    path: &str,
    file: &File,
    head: &[u8],
    blocks: u32,
) -> Result<(), FileFault>
    requires { 512 ≤ length head.now }
{
    lock(file)?;
    settle_name(rt, path)?;
    write_blocks(alloc, file, head, BLOCK_LEN * blocks as usize)?;
    file.sync_all()?;
    Ok(())
}

/// Removes a file that was made, while the path leads to it. Where that fails it stays.
fn remove_made<R: Files<File = File>>(rt: &R, path: &str, made: &Metadata) {
    if let Ok(found) = fs::symlink_metadata(rt, path)
        && is_same(&found, made)
    {
        let _ = fs::remove_file(rt, path);
    }
}

/// Takes the file's lock, which all other openers ask for, or fails at once.
fn lock(file: &File) -> Result<(), FileFault> {
    match file.try_lock() {
        Ok(()) => Ok(()),
        Err(TryLockError::WouldBlock) => Err(FileFault::InUse),
        Err(TryLockError::Error(error)) => Err(FileFault::System(error)),
    }
}

/// How many blocks a file has, if it can be a disk.
fn blocks_of(file: &File) -> Result<u32, FileFault>
    ensures least { IfOk result (λ blocks. 32 ≤ blocks) }
    ensures most { IfOk result (λ blocks. blocks ≤ most_blocks) }
{
    let found = file.metadata()?;
    if !found.is_file() {
        return Err(FileFault::NotAFile);
    }
    match blocks_in(found.len()) {
        Some(blocks) => Ok(blocks),
        None => Err(FileFault::BadLength(found.len())),
    }
}

/// How many blocks a disk of so many bytes has; `None` where no disk has so many.
fn blocks_in(length: u64) -> Option<u32>
    ensures some { IfSome result (λ blocks. (length ≡ 512 * blocks) × (32 ≤ blocks) × (blocks ≤ most_blocks)) }
    ensures all { length % 512 ≡ 0 → 512 * 32 ≤ length → length ≤ 512 * most_blocks → IsSome result }
{
    let blocks = length / BLOCK_LEN as u64;
    if length % BLOCK_LEN as u64 != 0
        || blocks < u64::from(MIN_BLOCKS)
        || blocks > u64::from(MAX_BLOCKS)
    {
        return None;
    }
    Some(blocks as u32)
}

/// Settles the name of a file that was made, by a sync of its folder.
fn settle_name<R: Files<File = File>>(rt: &R, path: &str) -> Result<(), FileFault> {
    let folder = match Path::new(path).parent() {
        Some(folder) if !folder.as_str().is_empty() => folder.as_str(),
        _ => ".",
    };
    File::open(rt, folder)?.sync_all()?;
    Ok(())
}
