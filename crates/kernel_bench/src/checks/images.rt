// A disk of 32,768 blocks with the templates of the library file system, all of which are reached.

use ffs_format::templates;
use std::alloc::{AllocError, Global};
use store_types::MAX_FORMAT_BLOCKS;
use templates::format_image;

/// How many blocks the disk has.
const COUNT: usize = MAX_FORMAT_BLOCKS as usize;

/// The first block behind those of the templates.
const FIRST: usize = 4;

/// The first block of inodes: behind a root block for each of 32 file systems.
const INODES: usize = FIRST + 32;

/// The first block of pointers: behind 16 blocks of inodes for each root block.
const POINTERS: usize = INODES + 32 * 16;

/// The first block of data: behind 8 blocks of pointers for each block of inodes.
const DATA: usize = POINTERS + 32 * 16 * 8;

/// Writes a number of four bytes, as far as the image goes.
fn put(image: &mut [u8], block: usize, offset: usize, number: usize) {
    let at = block.wrapping_mul(512).wrapping_add(offset);
    for (i, byte) in ((number & 0xffff) as u32).to_le_bytes().iter().enumerate() {
        if let Some(place) = image.get_mut(at.wrapping_add(i)) {
            *place = *byte;
        }
    }
}

/// The disk, with no root.
fn bare_image(alloc: Global) -> Result<Vec<u8>, AllocError> {
    match format_image(alloc, MAX_FORMAT_BLOCKS, &templates(alloc)?) {
        Ok(image) => Ok(image),
        Err(_) => Err(AllocError),
    }
}

/// The disk with a root block for each of 32 file systems, 16 blocks of inodes for each of these, 8 blocks of pointers for each of
/// those, and blocks of data spread over them.
pub fn wide_image(alloc: Global) -> Result<Vec<u8>, AllocError> {
    let mut image = bare_image(alloc)?;
    for root in FIRST..INODES {
        let slot = root.wrapping_sub(FIRST).wrapping_mul(8).wrapping_add(72);
        put(&mut image, 0, slot, root);
        put(&mut image, 0, slot.wrapping_add(4), 3);
    }
    for place in 0..POINTERS - INODES {
        put(
            &mut image,
            FIRST + place % 32,
            place / 32 * 4,
            INODES + place,
        );
    }
    for place in 0..DATA - POINTERS {
        put(
            &mut image,
            INODES + place % 512,
            place / 512 * 64 + 56,
            POINTERS + place,
        );
    }
    for place in 0..COUNT - DATA {
        put(
            &mut image,
            POINTERS + place % 4096,
            place / 4096 * 4,
            DATA + place,
        );
    }
    Ok(image)
}
