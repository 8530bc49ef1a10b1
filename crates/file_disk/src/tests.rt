// What no clause says: that the bytes are in the file.
ghost use Rattle.std.specs.Prelude.{◌≡◌, ◌≤◌, ◌<◌, length, IfOk};
ghost use Rattle.xn_model.specs.Images.{most_blocks};
ghost use Rattle.file_disk.specs.Opened.{AreOpened};

use crate::found_block::FoundImage;
use crate::lane::FileLane;
use crate::lanes::{lane_of, share};
use crate::shared_file::GoodSync;
use crate::{Access, FileDisk, FileFault, FileImage};
use disk::{Lane, Lanes};
use std::fs::{File, OpenOptions};
use std::os::unix::fs::FileExt;
use std::test::Fail;
use std::thread::Threads;
use std::{fs, thread};
use store_types::BLOCK_LEN;

/// Makes a disk of so many blocks in place of what has the name.
fn make(rt: &HostRuntime, path: &str, blocks: u32) -> Result<Lanes<FileLane>, FileFault>
    requires least { 32 ≤ blocks }
    requires most { blocks ≤ most_blocks }
    ensures { IfOk result (λ lanes. AreOpened blocks lanes) }
{
    let _ = fs::remove_file(rt, path);
    Ok(FileDisk::create(rt, rt.alloc(), path, blocks)?.into_lanes())
}

/// Opens a disk.
fn open(rt: &HostRuntime, path: &str) -> Result<Lanes<FileLane>, FileFault>
    ensures { IfOk result (λ lanes. 32 ≤ length lanes) }
{
    Ok(FileDisk::open(rt, rt.alloc(), path, Access::Written)?.into_lanes())
}

/// Opens a disk to look at it.
fn open_to_read(rt: &HostRuntime, path: &str) -> Result<Lanes<FileLane>, FileFault>
    ensures { IfOk result (λ lanes. 32 ≤ length lanes) }
{
    Ok(FileDisk::open(rt, rt.alloc(), path, Access::Shared)?.into_lanes())
}

/// Opens a file to write it beside its disk.
fn open_beside(rt: &HostRuntime, path: &str) -> Result<File, Fail> {
    Ok(OpenOptions::new().write(true).open(rt, path)?)
}

/// Removes a file that is there.
fn remove(rt: &HostRuntime, path: &str) -> Result<(), Fail> {
    fs::remove_file(rt, path)?;
    Ok(())
}

/// Takes a lane that is at home.
fn take(lanes: &mut Lanes<FileLane>, block: u32) -> Result<FileLane, Fail>
    requires { block < length lanes.old }
    ensures { length lanes.new ≡ length lanes.old }
{
    Ok(lanes.take(block).ok_or("a lane")?)
}

/// Whether the file takes a block of this byte.
fn writes(lane: &mut FileLane, byte: u8) -> bool {
    lane.write(&[byte; BLOCK_LEN]).is_ok()
}

/// Whether the file is synced.
fn syncs(lane: &mut FileLane) -> bool {
    lane.sync().is_ok()
}

/// What a lane reads.
fn read(lane: &mut FileLane) -> Option<[u8; BLOCK_LEN]> {
    let mut bytes = [1; BLOCK_LEN];
    lane.read(&mut bytes).ok()?;
    Some(bytes)
}

/// Whether a lane reads this byte alone.
fn reads(lane: &mut FileLane, byte: u8) -> bool {
    match read(lane) {
        Some(bytes) => bytes == [byte; BLOCK_LEN],
        None => false,
    }
}

/// Whether a disk was not opened, as somebody else has it.
fn is_in_use(opened: Result<Lanes<FileLane>, FileFault>) -> bool {
    matches!(opened, Err(FileFault::InUse))
}

/// Whether a disk was not opened, as it has so many bytes.
fn has_bad_length(opened: Result<Lanes<FileLane>, FileFault>, length: u64) -> bool {
    match opened {
        Err(FileFault::BadLength(found)) => found == length,
        _ => false,
    }
}

#[test]
fn keeps_what_is_written(rt: HostRuntime) -> Result<(), Fail> {
    let mut lanes = make(&rt, "kept.disk", 64)?;
    assert_eq!(rt; fs::metadata(&rt, "kept.disk")?.len(), 32_768);
    let mut lane = take(&mut lanes, 5)?;
    assert!(rt; writes(&mut lane, 7));
    assert!(rt; syncs(&mut lane));
    assert!(rt; lanes.give(lane).is_ok());
    drop(lanes);
    let mut lanes = open(&rt, "kept.disk")?;
    assert_eq!(rt; lanes.blocks(), 64);
    assert!(rt; reads(&mut take(&mut lanes, 5)?, 7));
    assert!(rt; reads(&mut take(&mut lanes, 6)?, 0));
    remove(&rt, "kept.disk")
}

/// Makes a disk of two pieces of 2,048 blocks, and a part of one.
fn write_long(rt: &HostRuntime, path: &str) -> Result<(), FileFault> {
    FileDisk::write_fresh(rt, rt.alloc(), path, &[5; 1024], 4_099)
}

/// Writes two bytes beside it.
fn change_long(rt: &HostRuntime, path: &str) -> Result<(), Fail> {
    let other = open_beside(rt, path)?;
    other.write_all_at(b"x", 512 * 2_048)?;
    other.write_all_at(b"y", 512 * 4_099 - 1)?;
    Ok(())
}

/// Whether an image has this byte there.
fn has(image: &FileImage, at: usize, byte: u8) -> bool {
    image.bytes().get(at) == Some(&byte)
}

#[test]
fn many_blocks_are_read_in_their_places(rt: HostRuntime) -> Result<(), Fail> {
    let _ = fs::remove_file(&rt, "fresh.disk");
    write_long(&rt, "fresh.disk")?;
    assert!(rt; matches!(write_long(&rt, "fresh.disk"), Err(FileFault::AlreadyThere)));
    assert_eq!(rt; fs::metadata(&rt, "fresh.disk")?.len(), 512 * 4_099);
    change_long(&rt, "fresh.disk")?;
    let image = FileImage::open(&rt, rt.alloc(), "fresh.disk", Access::Written)?;
    assert!(rt; has(&image, 1_023, 5));
    assert!(rt; has(&image, 1_024, 0));
    assert!(rt; has(&image, 512 * 2_048, b'x'));
    let mut lanes = image.into_disk(rt.alloc())?.into_lanes();
    assert_eq!(rt; lanes.blocks(), 4_099);
    let last = read(&mut take(&mut lanes, 4_098)?).ok_or("bytes")?;
    assert_eq!(rt; last[511], b'y');
    let middle = read(&mut take(&mut lanes, 2_048)?).ok_or("bytes")?;
    assert_eq!(rt; middle[0], b'x');
    assert!(rt; reads(&mut take(&mut lanes, 4_097)?, 0));
    remove(&rt, "fresh.disk")
}

#[test]
fn what_others_write_is_a_fault(rt: HostRuntime) -> Result<(), Fail> {
    let mut lane = take(&mut make(&rt, "changed.disk", 32)?, 31)?;
    let other = open_beside(&rt, "changed.disk")?;
    other.write_all_at(b"x", 512 * 31 + 500)?;
    assert!(rt; read(&mut lane).is_none());
    assert_eq!(rt; lane.faults(), 1);
    assert!(rt; writes(&mut lane, 9));
    assert!(rt; reads(&mut lane, 9));
    other.set_len(512)?;
    assert!(rt; read(&mut lane).is_none());
    assert_eq!(rt; lane.faults(), 2);
    remove(&rt, "changed.disk")
}

#[test]
fn a_second_opener_is_refused(rt: HostRuntime) -> Result<(), Fail> {
    let lanes = make(&rt, "locked.disk", 32)?;
    assert!(rt; is_in_use(open(&rt, "locked.disk")));
    assert!(rt; is_in_use(open_to_read(&rt, "locked.disk")));
    drop(lanes);
    assert!(rt; open(&rt, "locked.disk").is_ok());
    let mut lanes = open_to_read(&rt, "locked.disk")?;
    let fourth = open_to_read(&rt, "locked.disk");
    assert!(rt; fourth.is_ok());
    assert!(rt; is_in_use(open(&rt, "locked.disk")));
    let mut lane = take(&mut lanes, 3)?;
    assert!(rt; syncs(&mut lane));
    assert!(rt; !writes(&mut lane, 1));
    assert!(rt; read(&mut lane).is_some());
    remove(&rt, "locked.disk")
}

#[test]
fn refuses_what_is_no_disk(rt: HostRuntime) -> Result<(), Fail> {
    let _ = fs::remove_file(&rt, "odd.disk");
    assert!(rt; matches!(open(&rt, "odd.disk"), Err(FileFault::NotThere)));
    let file = File::create(&rt, "odd.disk")?;
    let taken = FileDisk::create(&rt, rt.alloc(), "odd.disk", 32);
    assert!(rt; matches!(taken, Err(FileFault::AlreadyThere)));
    file.set_len(512 * 32 + 1)?;
    assert!(rt; has_bad_length(open(&rt, "odd.disk"), 16_385));
    file.set_len(512 * 31)?;
    assert!(rt; has_bad_length(open(&rt, "odd.disk"), 15_872));
    file.set_len(512 * 1_048_577)?;
    assert!(rt; has_bad_length(open(&rt, "odd.disk"), 536_871_424));
    assert!(rt; matches!(open(&rt, "."), Err(FileFault::System(_))));
    remove(&rt, "odd.disk")
}

/// A lane through a handle that may not write.
fn unwritten_lane(rt: &HostRuntime, path: &str) -> Result<FileLane, Fail> {
    let file = File::open(rt, path)?;
    let opened = GoodSync::first(&file)?;
    let image = FoundImage::read(rt.alloc(), &file, 32)?;
    let file = share(rt.alloc(), file)?;
    Ok(lane_of(rt.alloc(), &file, &opened, &image.block(3))?)
}

#[test]
fn a_write_that_fails_is_settled(rt: HostRuntime) -> Result<(), Fail> {
    drop(make(&rt, "failing.disk", 32)?);
    let mut lane = unwritten_lane(&rt, "failing.disk")?;
    assert!(rt; !writes(&mut lane, 8));
    assert!(rt; reads(&mut lane, 0));
    assert!(rt; syncs(&mut lane));
    // It can't be read back either, until it is whole again.
    let other = open_beside(&rt, "failing.disk")?;
    other.set_len(0)?;
    assert!(rt; !writes(&mut lane, 8));
    assert!(rt; !syncs(&mut lane));
    assert!(rt; read(&mut lane).is_none());
    assert_eq!(rt; lane.faults(), 4);
    other.set_len(16_384)?;
    assert!(rt; syncs(&mut lane));
    // The new bytes are there after all.
    other.write_all_at(&[8; BLOCK_LEN], 1536)?;
    assert!(rt; !writes(&mut lane, 8));
    assert!(rt; reads(&mut lane, 8));
    remove(&rt, "failing.disk")
}

/// Lanes over a device that takes each write and forgets it, and that can't be synced.
fn forgotten_lanes(rt: &HostRuntime) -> Result<(FileLane, FileLane, FileLane), Fail> {
    let _ = fs::remove_file(rt, "syncs.disk");
    let opened = GoodSync::first(&File::create_new(rt, "syncs.disk")?)?;
    remove(rt, "syncs.disk")?;
    let device = OpenOptions::new()
        .read(true)
        .write(true)
        .open(rt, "/dev/zero")?;
    let image = FoundImage::read(rt.alloc(), &device, 4)?;
    let file = share(rt.alloc(), device)?;
    Ok((
        lane_of(rt.alloc(), &file, &opened, &image.block(1))?,
        lane_of(rt.alloc(), &file, &opened, &image.block(2))?,
        lane_of(rt.alloc(), &file, &opened, &image.block(3))?,
    ))
}

#[test]
fn a_failed_sync_is_for_good(rt: HostRuntime) -> Result<(), Fail> {
    let (mut one, mut two, mut three) = forgotten_lanes(&rt)?;
    assert!(rt; writes(&mut one, 0));
    assert!(rt; !syncs(&mut one));
    assert!(rt; !syncs(&mut one));
    assert_eq!(rt; one.faults(), 2);
    assert!(rt; syncs(&mut two));
    assert!(rt; writes(&mut two, 0));
    assert!(rt; !syncs(&mut two));
    // What it forgot is a fault, too.
    assert!(rt; writes(&mut three, 1));
    assert!(rt; read(&mut three).is_none());
    Ok(())
}

/// Writes and syncs a block many times.
fn turn(lane: &mut FileLane) {
    for byte in 0..100 {
        let _ = writes(lane, byte);
        let _ = syncs(lane);
    }
}

#[test]
fn many_threads_sync(rt: HostRuntime) -> Result<(), Fail> {
    let mut lanes = make(&rt, "threads.disk", 32)?;
    let mut taken = Vec::new(rt.alloc());
    for block in 0..8 {
        taken.push(take(&mut lanes, block)?)?;
    }
    thread::for_each_mut(&rt, &mut taken, 8, &|_, lane| turn(lane));
    for lane in &mut taken {
        assert_eq!(rt; lane.faults(), 0);
        assert!(rt; reads(lane, 99));
    }
    remove(&rt, "threads.disk")
}
