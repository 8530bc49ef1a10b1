// Kernels over fresh disks in memory.

use crash_check::mount;
use disk::{MemLane, fresh_lanes};
use ffs_format::templates;
use std::alloc::{AllocError, Global};
use std::thread::Threads;
use templates::format_image;
use xn_kernel::Kernel;

/// How many blocks are formatted at most; those behind them are free.
const FORMATTED: u32 = 32_768;

/// How many bytes the largest disk has.
const GREATEST: usize = 536_870_912;

/// Where block 0 says how many blocks there are, by four bytes.
const COUNT_AT: usize = 4;

/// A kernel over a fresh disk of so many blocks, with the templates of the library file system.
pub fn fresh_kernel(
    rt: &(impl Threads + Sync),
    alloc: Global,
    blocks: u32,
) -> Result<Kernel<MemLane>, AllocError> {
    let Ok(mut image) = format_image(alloc, blocks.min(FORMATTED), &templates(alloc)?) else {
        return Err(AllocError);
    };
    image.resize(blocks as usize * 512, 0)?;
    image[COUNT_AT..COUNT_AT + 4].copy_from_slice(&blocks.to_le_bytes());
    if image.len() % 512 != 0 || image.len() > GREATEST {
        return Err(AllocError);
    }
    match mount(rt, alloc, fresh_lanes(alloc, &image)?, 1) {
        Ok(kernel) => Ok(kernel),
        Err(_) => Err(AllocError),
    }
}
