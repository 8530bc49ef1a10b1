// A disk as formatting leaves it.

ghost use Rattle.std.specs.Prelude.{◌≡◌, ◌≤◌, [], length, None, IfOk, OnOk, MatchResult};
ghost use Rattle.std.specs.Vec.{vec_len};
ghost use Rattle.templates.specs.Formats.{formatted, formatted_root, format_fault, most_formatted, IsFormatFault};
ghost use Rattle.xn_model.specs.Images.{joined};

use crate::block::write_block;
use crate::fault::FormatFault;
use crate::root::{CATALOGUE_PLACES, MARK, number_bytes};
use crate::template::Template;
use std::alloc::{AllocError, Global};
use store_types::{BLOCK_LEN, MAX_FORMAT_BLOCKS, MIN_BLOCKS};

/// The block of the first template.
const FIRST_TEMPLATE: u32 = 1;

/// The bytes of a fresh disk of 32 to 32,768 blocks with at most 16 templates: block 0 has the mark, the count and a
/// pointer to each template, template `i` stands in block 1 + `i`, and all else is zero. The faults come in the order
/// `BadCount`, `TooManyTemplates`, `NoMemory`.
pub fn format_image(
    alloc: Global,
    blocks: u32,
    templates: &[Template],
) -> Result<Vec<u8>, FormatFault>
    ensures { MatchResult result
        (λ image. (format_fault blocks (length templates.now) ≡ None)
        × (image.items ≡ joined (formatted blocks templates.now)))
        (IsFormatFault blocks (length templates.now)) }
{
    if blocks < MIN_BLOCKS || blocks > MAX_FORMAT_BLOCKS {
        return Err(FormatFault::BadCount);
    }
    if templates.len() > CATALOGUE_PLACES {
        return Err(FormatFault::TooManyTemplates);
    }
    Ok(fresh_image(alloc, blocks, templates)?)
}

/// The image of so many blocks with these templates. All memory is taken at the start.
fn fresh_image(alloc: Global, blocks: u32, templates: &[Template]) -> Result<Vec<u8>, AllocError>
    requires least { 32 ≤ blocks }
    requires greatest { blocks ≤ most_formatted }
    requires few { length templates.now ≤ 16 }
    ensures { IfOk result (λ image. image.items ≡ joined (formatted blocks templates.now)) }
{
    let image_len = BLOCK_LEN * blocks as usize;
    let mut image = Vec::with_capacity(alloc, image_len)?;
    write_root(&mut image, blocks, templates.len())?;
    for template in templates {
        image.extend_from_slice(&write_block(template))?;
    }
    image.resize(image_len, 0)?;
    Ok(image)
}

/// Writes block 0 of a disk of so many blocks with `count` templates into an empty image.
fn write_root(image: &mut Vec<u8>, blocks: u32, count: usize) -> Result<(), AllocError>
    requires empty { image.old.items ≡ [] }
    requires few { count ≤ 16 }
    ensures items { OnOk result (image.new.items ≡ formatted_root blocks count) }
    ensures len { OnOk result (vec_len image.new ≡ 512) }
{
    image.extend_from_slice(&MARK)?;
    image.extend_from_slice(&number_bytes(blocks))?;
    for i in 0..count {
        image.extend_from_slice(&number_bytes(FIRST_TEMPLATE + i as u32))?;
    }
    image.resize(BLOCK_LEN, 0)?;
    Ok(())
}
