// A disk in a file is opened.

use crate::fault::DiskFault;
use crash_check::{mount, mount_known, state_of};
use file_disk::{Access, FileDisk, FileImage, FileLane, SystemFault};
use std::alloc::Global;
use std::fs::{File, Files};
use std::thread::Threads;
use xn_kernel::Kernel;
use xnfs_session::{Stop, TestLane};

/// The number of the kernel of a disk that is opened.
const KERNEL: u64 = 1;

/// A kernel over a disk in a file, and what tells the system's reason where the disk fails. To look at it alone it is opened without rights to write, beside
/// others that look.
pub fn open<R: Files<File = File>>(
    rt: &R,
    threads: &(impl Threads + Sync),
    alloc: Global,
    image: &str,
    is_looking: bool,
) -> Result<(Kernel<FileLane>, SystemFault), DiskFault> {
    let access = if is_looking {
        Access::Shared
    } else {
        Access::Written
    };
    let image = FileImage::open(rt, alloc, image, access)?;
    let state = state_of(threads, alloc, image.bytes())?;
    let disk = image.into_disk(alloc)?;
    let system = disk.system_fault()?;
    Ok((mount_known(disk.into_lanes(), state, KERNEL), system))
}

/// The same for tests, of a disk that makes no further write of a block once it is stopped, and a sync only where it is to be synced.
pub fn open_for_tests<R: Files<File = File>>(
    rt: &R,
    threads: &(impl Threads + Sync),
    alloc: Global,
    image: &str,
    (stop, is_synced): (&Stop, bool),
) -> Result<(Kernel<TestLane<FileLane>>, SystemFault), DiskFault> {
    let disk = FileDisk::open(rt, alloc, image, Access::Written)?;
    let system = disk.system_fault()?;
    let lanes = stop.lanes(alloc, disk.into_lanes(), is_synced)?;
    match mount(threads, alloc, lanes, KERNEL) {
        Ok(kernel) => Ok((kernel, system)),
        Err((fault, _lanes)) => Err(fault.into()),
    }
}
