// The words `tree` and `df`.

use crate::json::Members;
use crate::sizes::told_size;
use std::alloc::Global;
use std::io::Write;
use store_types::BLOCK_LEN;
use tree_lines::{Fault, Reason, Told, Usage, View, Walk, at, find, kind_mark, shown};

/// `tree`: all that stands below a folder, each name two spaces further in than its folder's.
pub fn tree<V: View>(
    view: &V,
    alloc: Global,
    told: &mut Told,
    (folder, path): (u32, &str),
    out: &mut impl Write,
) -> Result<(), Fault> {
    let node = find(view, alloc, folder, path, true)?;
    if !node.is_folder() {
        return Err(at(alloc, path, Reason::NoFolder));
    }
    let mut walk = Walk::below(alloc, path.as_bytes(), node.number)?;
    for _name in 0..u64::MAX {
        let Some(step) = walk.next_met(view, alloc, told)? else {
            break;
        };
        for _folder in 0..step.depth {
            write!(out, "  ")?;
        }
        let (name, mark) = (shown(alloc, &step.name)?, kind_mark(step.node.kind));
        writeln!(out, "{name}{mark}")?;
    }
    Ok(())
}

/// Prints what is taken and left, and the limits.
fn print_usage(usage: &Usage, out: &mut impl Write) -> Result<(), Fault> {
    writeln!(
        out,
        "blocks free: {} of {}, of {BLOCK_LEN} bytes",
        usage.free_blocks, usage.blocks
    )?;
    if let Some((used, most)) = usage.numbers {
        writeln!(out, "inodes used: {used} of {most}")?;
    }
    writeln!(
        out,
        "limits: a name {} bytes, a file {} bytes",
        usage.longest_name, usage.largest_file
    )?;
    Ok(())
}

/// How many bytes so many blocks are.
fn bytes_of(blocks: u32) -> u64 {
    u64::from(blocks).saturating_mul(BLOCK_LEN as u64)
}

/// Prints what is free and the limits as people read sizes.
fn print_human_usage(alloc: Global, usage: &Usage, out: &mut impl Write) -> Result<(), Fault> {
    let free = told_size(alloc, bytes_of(usage.free_blocks), true)?;
    let size = told_size(alloc, bytes_of(usage.blocks), true)?;
    writeln!(out, "free: {free} of {size}")?;
    if let Some((used, most)) = usage.numbers {
        writeln!(out, "inodes used: {used} of {most}")?;
    }
    let file = told_size(alloc, usage.largest_file, true)?;
    writeln!(
        out,
        "limits: a name {} bytes, a file {file}",
        usage.longest_name
    )?;
    Ok(())
}

/// How `df` tells what is free.
#[derive(Clone, Copy, Debug, PartialEq, Eq)]
pub enum UsageForm {
    /// In blocks.
    Blocks,
    /// In bytes, as people read them.
    Human,
    /// As an object of JSON.
    Json,
}

/// `df`: what is taken and left, and the limits.
pub fn usage<V: View>(
    view: &V,
    alloc: Global,
    form: UsageForm,
    out: &mut impl Write,
) -> Result<(), Fault> {
    let usage = view.usage();
    match form {
        UsageForm::Blocks => print_usage(&usage, out),
        UsageForm::Human => print_human_usage(alloc, &usage, out),
        UsageForm::Json => print_json_usage(alloc, &usage, out),
    }
}

/// Prints what is taken and left, and the limits, as an object of JSON.
fn print_json_usage(alloc: Global, usage: &Usage, out: &mut impl Write) -> Result<(), Fault> {
    let mut object = Members::none(alloc);
    object.number("free_blocks", u64::from(usage.free_blocks))?;
    object.number("blocks", u64::from(usage.blocks))?;
    object.number("block_size", BLOCK_LEN as u64)?;
    if let Some((used, most)) = usage.numbers {
        object.number("used_inodes", u64::from(used))?;
        object.number("inodes", u64::from(most))?;
    }
    object.number("longest_name", u64::from(usage.longest_name))?;
    object.number("largest_file", usage.largest_file)?;
    let text = object.into_text()?;
    writeln!(out, "{text}")?;
    Ok(())
}
