// Kernels over fresh disks in memory.

use crash_check::mount;
use disk::{MemDisk, MemLane};
use ffs_format::templates;
use std::alloc::{AllocError, Global};
use std::thread::Threads;
use store_types::BLOCK_LEN;
use templates::{Template, format_image, read_block};
use xn_kernel::Kernel;

/// How many bytes the largest disk has.
const GREATEST: usize = 16_777_216;

/// The start of the block that spells the template of type 6, whose blocks point to two more of their kind, in bytes 0 to 3 and 8 to 11.
/// The other bytes of the block are zero. That of type 7, whose blocks point to two of type 8, is the same but for that type.
static TREE: [u8; 48] = [
    0x58, 0x54, 0x0a, 0x01, // 10 words, 1 word
    0x01, 0x01, 0x08, 0x00, // SET 1 8
    0x0c, 0x02, 0x00, 0x00, // LD4 2 0
    0x0c, 0x03, 0x01, 0x00, // LD4 3 1
    0x01, 0x04, 0x06, 0x00, // SET 4 6
    0x0e, 0x00, 0x02, 0x00, // IFLT 0 2
    0x0d, 0x02, 0x04, 0x00, // EMIT 2 4
    0x11, 0x00, 0x00, 0x00, // END
    0x0e, 0x00, 0x03, 0x00, // IFLT 0 3
    0x0d, 0x03, 0x04, 0x00, // EMIT 3 4
    0x11, 0x00, 0x00, 0x00, // END
    0x01, 0x00, 0x0c, 0x00, // SET 0 12
];

/// Where the type to which such a block points stands in it.
const POINTED: usize = 18;

/// The template of type 6 or 7, whose blocks point to blocks of this type.
fn tree_template(alloc: Global, ty: u8) -> Result<Template, AllocError> {
    let mut block = [0u8; BLOCK_LEN];
    block[..TREE.len()].copy_from_slice(&TREE);
    block[POINTED] = ty;
    match read_block(alloc, &block) {
        Ok(template) => Ok(template),
        Err(_) => Err(AllocError),
    }
}

/// A kernel over a fresh disk of so many blocks, with the templates of the library file system and those of the types 6 and 7.
pub fn fresh_kernel(
    rt: &(impl Threads + Sync),
    alloc: Global,
    blocks: u32,
) -> Result<Kernel<MemLane>, AllocError> {
    let mut templates = templates(alloc)?;
    templates.push(tree_template(alloc, 6)?)?;
    templates.push(tree_template(alloc, 8)?)?;
    let Ok(image) = format_image(alloc, blocks, &templates) else {
        return Err(AllocError);
    };
    if image.len() % 512 != 0 || image.len() > GREATEST {
        return Err(AllocError);
    }
    let Ok(lanes) = MemDisk::new(alloc, &image)?.split(alloc) else {
        return Err(AllocError);
    };
    match mount(rt, alloc, lanes, 1) {
        Ok(kernel) => Ok(kernel),
        Err(_) => Err(AllocError),
    }
}
