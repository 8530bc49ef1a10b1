// Disks of 32,768 blocks: one on which each block names the next one, and one whose root names 128 blocks, each of them 127, and
// each of those one.

use crash_check::Report;
use std::alloc::{AllocError, Global};

/// How many blocks each disk has.
const COUNT: usize = 32_768;

/// The first block behind those of the templates.
const FIRST: usize = 5;

/// The first block of the tree's third level, of its fourth, and the one behind its last.
const THIRD: usize = FIRST + 129;

const FOURTH: usize = THIRD + 128 * 127;

const END: usize = FOURTH + 128 * 127;

/// Writes bytes from a place on.
fn put(image: &mut [u8], at: usize, bytes: &[u8]) {
    for (i, byte) in bytes.iter().enumerate() {
        if let Some(place) = image.get_mut(at.wrapping_add(i)) {
            *place = *byte;
        }
    }
}

/// Writes the number of a block into a pointer of another.
fn put_pointer(image: &mut [u8], block: usize, pointer: usize, target: usize) {
    let at = block
        .wrapping_mul(512)
        .wrapping_add(pointer.wrapping_mul(4));
    put(image, at, &((target & 0xffff) as u32).to_le_bytes());
}

/// Writes the block of a template whose blocks have so many pointers to blocks of a type, and puts it into the catalogue.
fn put_template(image: &mut [u8], place: usize, pointers: u8, ty: u8) {
    let size = u16::from(pointers).wrapping_mul(4).to_le_bytes();
    let code = [
        0x58, 0x54, 0x09, 0x01, // 9 words, 1 word
        0x01, 0x01, 0x04, 0x00, // SET 1 4
        0x01, 0x02, ty, 0x00, // SET 2 ty
        0x12, 0x03, pointers, 0x00, // FOR 3 pointers
        0x05, 0x04, 0x03, 0x01, // MUL 4 3 1
        0x0c, 0x05, 0x04, 0x00, // LD4 5 4
        0x0e, 0x00, 0x05, 0x00, // IFLT 0 5
        0x0d, 0x05, 0x02, 0x00, // EMIT 5 2
        0x11, 0x00, 0x00, 0x00, // END
        0x11, 0x00, 0x00, 0x00, // END
        0x01, 0x00, size[0], size[1], // SET 0 size
    ];
    let block = place.wrapping_add(1);
    put(image, block.wrapping_mul(512), &code);
    put_pointer(image, 0, place.wrapping_add(2), block);
}

/// A disk with four templates, for types 3 to 6, and block 5 as its root, of a type.
fn rooted_image(alloc: Global, ty: usize) -> Result<Vec<u8>, AllocError> {
    let mut image = vec![in alloc; 0u8; 512 * COUNT]?;
    put(&mut image, 0, b"XN97");
    put_pointer(&mut image, 0, 1, COUNT);
    put_template(&mut image, 0, 1, 3);
    put_template(&mut image, 1, 128, 5);
    put_template(&mut image, 2, 127, 6);
    put_template(&mut image, 3, 128, 2);
    put_pointer(&mut image, 0, 18, FIRST);
    put_pointer(&mut image, 0, 19, ty);
    Ok(image)
}

/// A disk on which each block names the next one.
pub fn chain_image(alloc: Global) -> Result<Vec<u8>, AllocError> {
    let mut image = rooted_image(alloc, 3)?;
    for block in FIRST..COUNT - 1 {
        put_pointer(&mut image, block, 0, block + 1);
    }
    Ok(image)
}

/// A disk with a wide tree.
pub fn tree_image(alloc: Global) -> Result<Vec<u8>, AllocError> {
    let mut image = rooted_image(alloc, 4)?;
    for pointer in 0..128 {
        put_pointer(&mut image, FIRST, pointer, FIRST + 1 + pointer);
        for place in 0..127 {
            put_pointer(
                &mut image,
                FIRST + 1 + pointer,
                place,
                THIRD + 127 * pointer + place,
            );
        }
    }
    for block in THIRD..FOURTH {
        put_pointer(&mut image, block, 0, block + (FOURTH - THIRD));
    }
    Ok(image)
}

/// One of the two disks. Both are numbered breadth first.
#[derive(Clone, Copy, Drop)]
pub enum Shape {
    Chain,
    Tree,
}

impl Shape {
    /// How many blocks are reached.
    pub fn reached(&self) -> usize {
        match self {
            Shape::Chain => COUNT,
            Shape::Tree => END,
        }
    }

    /// The type of a block.
    fn type_of(&self, block: usize) -> u32 {
        match (self, block) {
            (_, 0) => 0,
            (_, 1..FIRST) => 1,
            (Shape::Chain, _) => 3,
            (Shape::Tree, FIRST) => 4,
            (Shape::Tree, 6..THIRD) => 5,
            (Shape::Tree, THIRD..FOURTH) => 6,
            (Shape::Tree, _) => 2,
        }
    }
}

/// Whether a report has the blocks that are reached one after another, each with its type, and all others as free.
pub fn is_plain(report: &Report, shape: Shape) -> bool {
    let reached = shape.reached();
    if report.reached.len() != reached || report.free.len() != COUNT.saturating_sub(reached) {
        return false;
    }
    for (place, (block, ty)) in report.reached.iter().enumerate() {
        if *block as usize != place || *ty != shape.type_of(place) {
            return false;
        }
    }
    for (place, block) in report.free.iter().enumerate() {
        if *block as usize != reached.wrapping_add(place) {
            return false;
        }
    }
    true
}
