// A volume and a file, with so many writes at most, and the disk behind a crash.

use ffs_lib::{FfsFault, Fs};
use std::alloc::Global;
use std::thread::Threads;
use store_types::Refusal;
use volume_pair::{Action, Disk, Files};
use world::Running;

/// How many blocks a disk has.
const BLOCKS: u32 = 32;

/// What a crash leaves: no volume, a volume without a name, one with the name of a file, or something else.
#[derive(Clone, Copy)]
pub enum Left {
    Nothing,
    Volume,
    File,
    Wrong,
}

/// Makes what is pending of a block durable, or only lands it where no further write may come; how many writes are left then.
fn write_block(files: &mut Files<Running>, block: u32, left: u32) -> u32 {
    if left == 1 {
        let _ = files.begin(block) && files.land(block);
    } else {
        let _ = files.write(block);
    }
    left.saturating_sub(1)
}

/// Makes what is pending durable, with so many writes at most, of which the last one only lands; how many are left then.
fn write_pending(files: &mut Files<Running>, left: u32) -> u32 {
    let mut left = left;
    for _ in 0..BLOCKS {
        if left == 0 {
            return 0;
        }
        let Some(block) = files.pick() else {
            return left;
        };
        left = write_block(files, block, left);
    }
    left
}

/// Makes a volume; whether there was no memory for that.
fn make(alloc: Global, files: &mut Files<Running>, fs: Fs) -> bool {
    matches!(
        files.make(alloc, fs),
        Err(FfsFault::Kernel(Refusal::NoMemory))
    )
}

/// Makes a file; whether there was no memory for that.
fn create(alloc: Global, files: &mut Files<Running>, fs: Fs) -> bool {
    matches!(
        files.call(alloc, fs, &Action::Create(1, b"a")),
        Err(FfsFault::Kernel(Refusal::NoMemory))
    )
}

/// Makes a volume and a file, with so many writes at most. A call that finds no memory is made again behind what is pending; whether
/// there was one.
fn play(alloc: Global, files: &mut Files<Running>, fs: Fs, writes: u32) -> bool {
    let mut left = writes;
    let mut is_met = false;
    if make(alloc, files, fs) {
        is_met = true;
        left = write_pending(files, left);
        let _ = make(alloc, files, fs);
    }
    left = write_pending(files, left);
    if create(alloc, files, fs) {
        is_met = true;
        left = write_pending(files, left);
        let _ = create(alloc, files, fs);
    }
    let _ = write_pending(files, left);
    is_met
}

/// What the names are of a volume that was opened. A name has to lead to an empty file. `None` for want of memory.
fn named<S: Disk + Drop>(alloc: Global, files: &mut Files<S>, fs: Fs) -> Option<Left> {
    let names = match files.list(alloc, fs, 1) {
        Ok(names) => names,
        Err(FfsFault::Kernel(Refusal::NoMemory)) => return None,
        Err(_) => return Some(Left::Wrong),
    };
    match names.as_slice() {
        [] => Some(Left::Volume),
        [(name, inode)] if name.as_slice() == b"a".as_slice() => {
            let inode = *inode;
            let read = files.read(fs, inode, 0, &mut [0; 1]);
            Some(if read == Ok(0) {
                Left::File
            } else {
                Left::Wrong
            })
        }
        _ => Some(Left::Wrong),
    }
}

/// What is left on a disk that was mounted. `None` for want of memory.
fn left_on<S: Disk + Drop>(alloc: Global, files: &mut Files<S>, fs: Fs) -> Option<Left> {
    match files.open(fs) {
        Ok(()) => named(alloc, files, fs),
        Err(FfsFault::NoEntry) => Some(Left::Nothing),
        Err(_) => Some(Left::Wrong),
    }
}

/// The blocks of which a crash keeps the open writes: all, or none. `None` for want of memory.
fn kept_blocks(alloc: Global, kept: bool) -> Option<Vec<u32>> {
    let mut blocks = Vec::new(alloc);
    for block in 0..BLOCKS {
        if kept {
            blocks.push(block).ok()?;
        }
    }
    Some(blocks)
}

/// What a crash leaves of file system 0 after so many writes, the last of which it keeps or loses. `None` where that isn't known for want of
/// memory.
pub fn left_by(rt: &(impl Threads + Sync), alloc: Global, writes: u32, kept: bool) -> Option<Left> {
    let (first, second) = (Fs::new(0)?, Fs::new(1)?);
    let mut files = Files::format(rt, alloc, BLOCKS, first, second).ok()?;
    let is_met = play(alloc, &mut files, first, writes);
    let blocks = kept_blocks(alloc, kept)?;
    if files.crash(rt, alloc, blocks).is_none() {
        // No second request is refused, so this disk is not sound.
        return if is_met { Some(Left::Wrong) } else { None };
    }
    left_on(alloc, &mut files, first)
}
