// The catalogue in block 0: the templates of the disk's types.

ghost use Rattle.std.specs.Prelude.{◌≡◌, ◌⊎◌, ◌<◌, ◌≤◌, length, None, Some, MatchResult};
ghost use Rattle.std.specs.List.{range_with_len};
ghost use Rattle.xn_model.specs.Root.{pointer};
ghost use Rattle.xn_model.specs.Images.{block_of};
ghost use Rattle.image_model.specs.Walk.{catalogue_fault, entries_fault, entry_fault};
ghost use Rattle.templates.specs.Tables.{no_templates, table_of_image, template_named};
ghost use Rattle.templates.specs.Language.{types_of_image};
ghost use Rattle.crash_check.specs.Answers.{table_upto};

use crate::blocks::block;
use std::alloc::Global;
use store_types::{BLOCK_LEN, ImageFault};
use templates::{CATALOGUE_PLACES, Table, Template, TemplateFault, pointer, read_block};

/// The table of the templates that the catalogue names, or the first fault of one of its entries.
pub fn read_table(alloc: Global, blocks: &[[u8; BLOCK_LEN]]) -> Result<Table, ImageFault>
    requires { 0 < length blocks.now }
    ensures { MatchResult result
        (λ table. (table ≡ table_of_image (block_of blocks.now)) ×
        (catalogue_fault (types_of_image blocks.now) (length blocks.now) (block_of blocks.now) ≡ None))
        (λ fault. (fault ≡ ImageFault.NoMemory) ⊎ (catalogue_fault (types_of_image blocks.now) (length blocks.now) (block_of blocks.now) ≡ Some fault)) }
{
    let Ok(mut table) = Table::new(alloc) else {
        return Err(ImageFault::NoMemory);
    };
    read_entries(alloc, blocks, &mut table, CATALOGUE_PLACES)?;
    Ok(table)
}

/// Puts the templates that the first `count` entries name into an empty table.
fn read_entries(
    alloc: Global,
    blocks: &[[u8; BLOCK_LEN]],
    table: &mut Table,
    count: usize,
) -> Result<(), ImageFault>
    requires blocks { 0 < length blocks.now }
    requires few { count ≤ 16 }
    requires empty { table.old ≡ no_templates }
    ensures { MatchResult result
        (λ _. (table.new ≡ table_upto (block_of blocks.now) count) ×
        (entries_fault (types_of_image blocks.now) (length blocks.now) (block_of blocks.now) (range_with_len 0 count) ≡ None))
        (λ fault. (fault ≡ ImageFault.NoMemory) ⊎
        (entries_fault (types_of_image blocks.now) (length blocks.now) (block_of blocks.now) (range_with_len 0 count) ≡ Some fault)) }
{
    for place in 0..count {
        let named = match read_entry(alloc, blocks, place) {
            Err(fault) => return Err(fault),
            Ok(named) => named,
        };
        match named {
            None => {}
            Some(template) => table.put(3 + place as u32, template),
        }
    }
    Ok(())
}

/// The template that an entry names, and `None` where it is empty.
fn read_entry(
    alloc: Global,
    blocks: &[[u8; BLOCK_LEN]],
    place: usize,
) -> Result<Option<Template>, ImageFault>
    requires blocks { 0 < length blocks.now }
    requires place { place < 16 }
    ensures { MatchResult result
        (λ found. (found ≡ template_named (block_of blocks.now) (pointer (block_of blocks.now 0) place)) ×
        (entry_fault (types_of_image blocks.now) (length blocks.now) (block_of blocks.now) place ≡ None))
        (λ fault. (fault ≡ ImageFault.NoMemory) ⊎ (entry_fault (types_of_image blocks.now) (length blocks.now) (block_of blocks.now) place ≡ Some fault)) }
{
    let number = pointer(block(blocks, 0), place);
    if number == 0 {
        return Ok(None);
    }
    if blocks.len() <= number as usize {
        return Err(ImageFault::OutOfRange(0, number));
    }
    match read_block(alloc, block(blocks, number)) {
        Ok(template) => Ok(Some(template)),
        Err(fault) => match fault {
            TemplateFault::NoMemory => Err(ImageFault::NoMemory),
            _ => Err(ImageFault::BadTemplate(3 + place as u32)),
        },
    }
}
