// What block 0 names.

ghost use Rattle.std.specs.Prelude.{◌≡◌, ◌≤◌, ◌<◌, length};
ghost use Rattle.std.specs.Option.{option_to_list};
ghost use Rattle.xn_model.specs.Images.{block_of};
ghost use Rattle.image_model.specs.Walk.{add_all, some_named, names_from, template_name, slot_name, visit_root};
ghost use Rattle.templates.specs.Tables.{table_types};
ghost use Rattle.crash_check.specs.Answers.{AnswersAs};

use crate::blocks::{block, is_blank_from};
use crate::named::NamedBlocks;
use crate::names::add;
use std::alloc::Global;
use store_types::{BLOCK_LEN, ImageFault, Place};
use templates::{CATALOGUE_PLACES, ROOT_SLOTS, Table, pointer, root_slot};

/// The blocks that block 0 names, in order, each with its place.
pub fn visit_root(
    alloc: Global,
    table: &Table,
    blocks: &[[u8; BLOCK_LEN]],
) -> Result<NamedBlocks, ImageFault>
    requires some { 0 < length blocks.now }
    ensures { AnswersAs result (λ named. named.entries) (visit_root (table_types table.now) (length blocks.now) (block_of blocks.now)) }
{
    let root = block(blocks, 0);
    if !is_blank_from(root, table.size(0, root) as usize) {
        return Err(ImageFault::SizeWrong(0));
    }
    let count = blocks.len();
    let Ok(mut named) = NamedBlocks::new(alloc, count) else {
        return Err(ImageFault::NoMemory);
    };
    add_templates(&mut named, table, count, root, CATALOGUE_PLACES)?;
    add_roots(&mut named, table, count, root, ROOT_SLOTS)?;
    Ok(named)
}

/// Adds the blocks of the first `places` catalogue entries.
fn add_templates(
    named: &mut NamedBlocks,
    table: &Table,
    count: usize,
    root: &[u8; BLOCK_LEN],
    places: usize,
) -> Result<(), ImageFault>
    requires places { places ≤ 16 }
    ensures { AnswersAs result (λ _. named.new.entries)
        (add_all (table_types table.now) count 0 named.old.entries (names_from (template_name root.now) 0 places)) }
{
    for place in 0..places {
        add_some(named, table, count, pointer(root, place), 1, None)?;
    }
    Ok(())
}

/// Adds the blocks of the first `slots` root slots.
fn add_roots(
    named: &mut NamedBlocks,
    table: &Table,
    count: usize,
    root: &[u8; BLOCK_LEN],
    slots: usize,
) -> Result<(), ImageFault>
    requires slots { slots ≤ 32 }
    ensures { AnswersAs result (λ _. named.new.entries) (add_all (table_types table.now) count 0 named.old.entries (names_from (slot_name root.now) 0 slots)) }
{
    for slot in 0..slots {
        let pair = root_slot(root, slot);
        add_some(named, table, count, pair.block, pair.ty, Some(slot as u8))?;
    }
    Ok(())
}

/// Adds a block that block 0 names, where it isn't 0.
fn add_some(
    named: &mut NamedBlocks,
    table: &Table,
    count: usize,
    block: u32,
    ty: u32,
    fs: Option<u8>,
) -> Result<(), ImageFault>
    ensures { AnswersAs result (λ _. named.new.entries)
        (add_all (table_types table.now) count 0 named.old.entries (option_to_list (some_named fs (block, ty)))) }
{
    if block == 0 {
        return Ok(());
    }
    add(named, table, count, block, Place { ty, owner: 0, fs })
}
