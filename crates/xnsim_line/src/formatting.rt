// An image is made with the templates of files.

ghost use Rattle.std.specs.Prelude.{◌≡◌, ◌≤◌, List, map, length, string_bytes, IfOk, IfErr};
ghost use Rattle.xn_model.specs.Images.{joined};
ghost use Rattle.templates.specs.Formats.{formatted, most_formatted};
ghost use Rattle.templates.specs.Templates.{TemplateValue};
ghost use Rattle.xnsim_line.specs.Files.{AreHeld, IsHeld};
ghost use Rattle.xnsim_line.specs.Formatting.{installed, IsBlockFault, IsFileFault, IsImageFault, AreTemplates};

use crate::{Fault, Files};
use ffs_format::templates as file_system_templates;
use std::alloc::Global;
use store_types::BLOCK_LEN;
use templates::{FormatFault, Template, TemplateFault, format_image, read_block};

/// The block in the file of this name, which has 512 bytes.
fn read_file<'a, F: Files>(
    alloc: Global,
    files: &mut F,
    name: &'a str,
) -> Result<[u8; BLOCK_LEN], Fault<'a>>
    ensures held { IfOk result (λ block. IsHeld (F.held files.old) name.entry.now block) }
    ensures kept { F.held files.new ≡ F.held files.old }
    ensures fault { IfErr result (λ fault. fault ≡ Fault.CannotRead name.entry) }
{
    let bytes = files
        .read_start(alloc, name, BLOCK_LEN + 1)
        .ok_or(Fault::CannotRead(name))?;
    match <[u8; BLOCK_LEN]>::try_from(bytes.as_slice()) {
        Ok(block) => Ok(block),
        Err(_) => Err(Fault::CannotRead(name)),
    }
}

/// The blocks in the files of these names, in their order.
pub fn read_files<'a, F: Files>(
    alloc: Global,
    files: &mut F,
    names: &'a [String],
) -> Result<Vec<[u8; BLOCK_LEN]>, Fault<'a>>
    ensures held { IfOk result (λ blocks. AreHeld (F.held files.old) (map string_bytes names.entry.now) blocks.items) }
    ensures kept { F.held files.new ≡ F.held files.old }
    ensures fault { IfErr result (IsFileFault (map string_bytes names.entry.now)) }
{
    let mut blocks = Vec::new(alloc);
    for name in names {
        let block = read_file(alloc, files, name.as_str())?;
        blocks.push(block)?;
    }
    Ok(blocks)
}

/// The templates that blocks spell, in their order.
fn read_templates<'a>(alloc: Global, blocks: &[[u8; BLOCK_LEN]]) -> Result<Vec<Template>, Fault<'a>>
    ensures templates { IfOk result (λ templates. AreTemplates blocks.now templates.items) }
    ensures fault { IfErr result (IsBlockFault blocks.now) }
{
    let mut templates = Vec::new(alloc);
    for (place, block) in blocks.iter().enumerate() {
        match read_block(alloc, block) {
            Ok(template) => templates.push(template)?,
            Err(fault) => return Err(Fault::Template { place, fault }),
        }
    }
    Ok(templates)
}

/// The templates of an image: those of the library's file system, where it is asked for, and those that blocks spell.
pub fn all_templates<'a>(
    alloc: Global,
    file_system: bool,
    blocks: &[[u8; BLOCK_LEN]],
) -> Result<Vec<Template>, Fault<'a>>
    ensures templates { IfOk result (λ templates. (own : List TemplateValue) × AreTemplates blocks.now own × (templates.items ≡ installed file_system own)) }
    ensures fault { IfErr result (IsBlockFault blocks.now) }
{
    let mut own = read_templates(alloc, blocks)?;
    if !file_system {
        return Ok(own);
    }
    let mut templates = file_system_templates(alloc)?;
    templates.append(&mut own)?;
    Ok(templates)
}

/// The image of a fresh disk with these templates.
pub fn made_image<'a>(
    alloc: Global,
    blocks: u32,
    templates: &[Template],
) -> Result<Vec<u8>, Fault<'a>>
    requires least { 32 ≤ blocks }
    requires greatest { blocks ≤ most_formatted }
    ensures image { IfOk result (λ image. image.items ≡ joined (formatted blocks templates.now)) }
    ensures few { IfOk result (λ image. length templates.now ≤ 16) }
    ensures fault { IfErr result (IsImageFault (length templates.now)) }
{
    match format_image(alloc, blocks, templates) {
        Ok(image) => Ok(image),
        Err(FormatFault::TooManyTemplates) => Err(Fault::TooManyTemplates),
        Err(FormatFault::NoMemory) => Err(Fault::NoMemory),
        Err(FormatFault::BadCount) => unreachable!(),
    }
}
