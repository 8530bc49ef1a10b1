// The blocks that are edited.

use crate::calls::writes::drain;
use disk::MemLane;
use std::alloc::{AllocError, Global};
use store_types::BLOCK_LEN;
use xn_kernel::{Edit, Fs, Kernel, Patch, Store};

/// A block of data in a file system's root slot, durable; `None` where that was refused.
pub fn rooted_data(kernel: &mut Kernel<MemLane>, fs: Fs) -> Option<u32> {
    let (block, _) = kernel.init(fs, 2, &[0; BLOCK_LEN]).ok()?;
    let _ = kernel.make_root(fs, block).ok()?;
    if drain(kernel) { Some(block) } else { None }
}

/// The edit that sets a pointer, and adds the block that it names.
fn pointer_edit(alloc: Global, offset: u16, block: u32, ty: u32) -> Result<Edit, AllocError> {
    let bytes = Vec::from_slice(alloc, &block.to_le_bytes())?;
    let patch = Patch { offset, bytes };
    Ok(Edit {
        patches: Vec::from_array(alloc, [patch])?,
        adds: Vec::from_array(alloc, [(block, ty)])?,
        drops: Vec::new(alloc),
        after: None,
    })
}

/// Makes a fresh block, and sets a pointer of another to it; whether that was done.
fn attach(
    alloc: Global,
    kernel: &mut Kernel<MemLane>,
    fs: Fs,
    to: u32,
    offset: u16,
    ty: u32,
) -> Result<Option<u32>, AllocError> {
    let Ok((block, _)) = kernel.init(fs, ty, &[0; BLOCK_LEN]) else {
        return Ok(None);
    };
    match kernel.propose(fs, to, &pointer_edit(alloc, offset, block, ty)?) {
        Ok(_) => Ok(Some(block)),
        Err(_) => Ok(None),
    }
}

/// A block of 8 inodes with all its 104 pointers set, durable; `None` where that was refused.
pub fn full_inodes(
    alloc: Global,
    kernel: &mut Kernel<MemLane>,
    fs: Fs,
) -> Result<Option<u32>, AllocError> {
    let Ok((root, _)) = kernel.init(fs, 3, &[0; BLOCK_LEN]) else {
        return Ok(None);
    };
    if kernel.make_root(fs, root).is_err() {
        return Ok(None);
    }
    let Some(inodes) = attach(alloc, kernel, fs, root, 0, 4)? else {
        return Ok(None);
    };
    for inode in 0..8u16 {
        for place in 0..13u16 {
            let ty = if place < 12 { 2 } else { 5 };
            let offset = 64 * inode + 8 + 4 * place;
            if attach(alloc, kernel, fs, inodes, offset, ty)?.is_none() {
                return Ok(None);
            }
        }
        if !drain(kernel) {
            return Ok(None);
        }
    }
    Ok(Some(inodes))
}
