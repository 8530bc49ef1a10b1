// A file is made that is a disk with an empty volume.

use crate::fault::DiskFault;
use crash_check::{ImageFault, mount};
use disk::{MemDisk, MemLane, fresh_lanes};
use edit_list::Fs;
use file_disk::FileDisk;
use std::alloc::{AllocError, Global};
use std::fs::{File, Files};
use std::thread::Threads;
use store_types::{BLOCK_LEN, MAX_BLOCKS, MIN_BLOCKS};
use templates::{FIRST_INSTALLED_TYPE, FormatFault, format_image};
use tree_lines::{BlockTypes, Session};
use treefs_format::types::tree_templates;
use xn_kernel::Kernel;

/// Of so many blocks at most a fresh disk is made in memory: its volume stands in the first ones, and all others are zeros.
const MOST_HELD: u32 = 1_024;

/// The byte of block 0 at which the count of the disk's blocks stands, in four bytes.
const COUNT_AT: usize = 4;

/// The types of the blocks of a fresh volume: its disk is made with these two templates.
const TYPES: BlockTypes = BlockTypes {
    node: FIRST_INSTALLED_TYPE as u8,
    inode: FIRST_INSTALLED_TYPE as u8 + 1,
};

/// A kernel over a fresh disk in memory of so many blocks, with the templates of trees.
fn fresh_kernel(
    threads: &(impl Threads + Sync),
    alloc: Global,
    blocks: u32,
) -> Result<Kernel<MemLane>, DiskFault> {
    let templates = tree_templates(alloc)?;
    let image = format_image(alloc, blocks, &templates)?;
    if image.len() % BLOCK_LEN != 0 || image.len() > BLOCK_LEN * MAX_BLOCKS as usize {
        return Err(DiskFault::Image(ImageFault::BadLength));
    }
    let lanes = fresh_lanes(alloc, &image)?;
    match mount(threads, alloc, lanes, 1) {
        Ok(kernel) => Ok(kernel),
        Err((fault, _lanes)) => Err(fault.into()),
    }
}

/// The bytes of a fresh disk of so many blocks, with an empty volume of a file system.
fn fresh_bytes(
    threads: &(impl Threads + Sync),
    alloc: Global,
    blocks: u32,
    fs: Fs,
    (key, time): (&[u8; 16], i64),
) -> Result<MemDisk, DiskFault> {
    let kernel = fresh_kernel(threads, alloc, blocks)?;
    let session = Session::format(alloc, kernel, fs, TYPES, key, time)?;
    let kernel = match session.close(alloc) {
        Ok(kernel) => kernel,
        Err(unclosed) => return Err(unclosed.fault.into()),
    };
    match MemDisk::join(alloc, kernel.into_lanes()) {
        Ok(disk) => Ok(disk),
        Err(_) => Err(DiskFault::NoMemory),
    }
}

/// The first bytes of a disk, with this count of blocks in block 0.
fn with_count(alloc: Global, bytes: &[u8], blocks: u32) -> Result<Vec<u8>, AllocError> {
    let mut head = Vec::from_slice(alloc, bytes)?;
    for (place, byte) in blocks.to_le_bytes().iter().enumerate() {
        if let Some(at) = head.get_mut(COUNT_AT + place) {
            *at = *byte;
        }
    }
    Ok(head)
}

/// Makes a file that is a disk of so many blocks, 32 to 1,048,576, with an empty and closed volume of a file system. The key is that of the hash of names,
/// which is to be random; the time is in nanoseconds since 1970. `Format` comes for any other count of blocks, `File` where there is something of that
/// name (`AlreadyThere`), or it can't be written: then no file is left.
pub fn format<R: Files<File = File>>(
    rt: &R,
    threads: &(impl Threads + Sync),
    alloc: Global,
    image: &str,
    (blocks, fs): (u32, Fs),
    (key, time): (&[u8; 16], i64),
) -> Result<(), DiskFault> {
    if !(MIN_BLOCKS..=MAX_BLOCKS).contains(&blocks) {
        return Err(FormatFault::BadCount.into());
    }
    let disk = fresh_bytes(threads, alloc, blocks.min(MOST_HELD), fs, (key, time))?;
    let head = with_count(alloc, disk.bytes(), blocks)?;
    if head.len() < BLOCK_LEN || head.len() > BLOCK_LEN * blocks as usize {
        return Err(DiskFault::Image(ImageFault::BadLength));
    }
    Ok(FileDisk::write_fresh(rt, alloc, image, &head, blocks)?)
}
