// Pseudo-random images of disks with the templates of the library file system. Some are damaged, and some cut short.

ghost use Rattle.std.specs.Prelude.{◌<◌};

use ffs_format::templates;
use pseudo_random::Numbers;
use std::alloc::{AllocError, Global};
use store_types::BLOCK_LEN;
use templates::write_block;

/// Writes bytes from a place on, as far as the image goes.
fn put(image: &mut [u8], at: usize, bytes: &[u8]) {
    for (i, byte) in bytes.iter().enumerate() {
        if let Some(place) = image.get_mut(at.wrapping_add(i)) {
            *place = *byte;
        }
    }
}

/// Writes a number of four bytes.
fn put_number(image: &mut [u8], at: usize, number: u16) {
    put(image, at, &u32::from(number).to_le_bytes());
}

/// The blocks of the three templates.
pub fn template_blocks(alloc: Global) -> Result<Vec<[u8; BLOCK_LEN]>, AllocError> {
    let mut blocks = Vec::new(alloc);
    for template in &templates(alloc)? {
        blocks.push(write_block(template))?;
    }
    Ok(blocks)
}

/// A disk of 32 to 35 blocks with these templates, and no roots.
fn bare_image(
    alloc: Global,
    blocks: u16,
    templates: &[[u8; BLOCK_LEN]],
) -> Result<Vec<u8>, AllocError> {
    let mut image = vec![in alloc; 0u8; usize::from(blocks).wrapping_mul(512)]?;
    put(&mut image, 0, b"XN97");
    put_number(&mut image, 4, blocks);
    for (i, template) in templates.iter().enumerate() {
        let number = i.wrapping_add(1);
        put(&mut image, number.wrapping_mul(512), template);
        put(
            &mut image,
            i.wrapping_mul(4).wrapping_add(8),
            &((number & 0xff) as u32).to_le_bytes(),
        );
    }
    Ok(image)
}

/// Sets up to three root slots.
fn put_roots(numbers: &mut Numbers, image: &mut [u8]) {
    for _ in 0..numbers.below(4) {
        let at = usize::from(numbers.below(32))
            .wrapping_mul(8)
            .wrapping_add(72);
        put_number(image, at, numbers.below(6).wrapping_add(4));
        put_number(image, at.wrapping_add(4), numbers.below(7));
    }
}

/// Sets up to fifteen pointers.
fn put_pointers(numbers: &mut Numbers, image: &mut [u8], blocks: u16)
    requires { 0 < blocks }
{
    for _ in 0..numbers.below(16) {
        let block = usize::from(numbers.below(12)).wrapping_add(4);
        let word: usize = numbers.pick(&[0, 1, 2, 3, 4, 14, 15, 18, 19, 30]);
        let at = block.wrapping_mul(512).wrapping_add(word.wrapping_mul(4));
        put_number(image, at, numbers.below(blocks).wrapping_add(1));
    }
}

/// Changes up to two bytes: of block 0, of a template's block, or of another.
fn damage(numbers: &mut Numbers, image: &mut [u8]) {
    for _ in 0..numbers.below(3) {
        let block: usize = numbers.pick(&[0, 0, 1, 3, 4, 5, 6, 9]);
        let at = numbers.pick(&[0, 1, 2, 4, 8, 12, 20, 28, 64, 72, 76, 80, 330, 511]);
        put(
            image,
            block.wrapping_mul(512).wrapping_add(at),
            &[numbers.byte(256)],
        );
    }
}

/// The next image.
pub fn random_image(
    alloc: Global,
    numbers: &mut Numbers,
    templates: &[[u8; BLOCK_LEN]],
) -> Result<Vec<u8>, AllocError> {
    let blocks = numbers.below(4).wrapping_add(32);
    let mut image = bare_image(alloc, blocks, templates)?;
    put_roots(numbers, &mut image);
    put_pointers(numbers, &mut image, blocks);
    if numbers.below(2) == 0 {
        damage(numbers, &mut image);
    }
    if numbers.below(32) == 0 {
        image.truncate(usize::from(numbers.below(2000)).wrapping_add(15000));
    }
    Ok(image)
}
