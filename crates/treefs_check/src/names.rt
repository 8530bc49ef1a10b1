// What is wrong with names.

ghost use Rattle.std.specs.Prelude.{◌≡◌, ◌++◌, IfOk, List};
ghost use Rattle.treefs_format.specs.Left.{record_of};
ghost use Rattle.treefs_lookup.specs.Readable.{readable};
ghost use Rattle.treefs_check.specs.Findings.{Finding};
ghost use Rattle.treefs_check.specs.Names.{AreUnfound, AreUnfoundFrom, is_at, is_unfound, surplus_finding, surplus_findings, top_findings, unfound_in};

use crate::finding::Finding;
use std::alloc::AllocError;
use treefs_edits::Tree;
use treefs_format::{Record, Records};
use treefs_lookup::{Bucket, Slot, Sought, find_directory, find_entry, find_inode, next_bucket};
use treefs_mending::{Directory, Name};
use treefs_model::Fault;
use xn_state::Store;

/// Adds that inode 1 is no directory with a link, where it is none.
pub fn push_top<S: Store>(
    findings: &mut Vec<Finding>,
    store: &S,
    tree: Tree,
) -> Result<(), AllocError>
    ensures { IfOk result (λ _. findings.new.items ≡ findings.old.items ++ top_findings (readable (S.state_of store.now) tree.fs.number) tree.top) }
{
    if find_directory(store, tree.fs, tree.top, 1).is_err() {
        findings.push(Finding::NoTop)?;
    }
    Ok(())
}

/// What is wrong with a name that is one too many.
fn surplus_finding<S: Store>(store: &S, tree: Tree, name: Name) -> Finding
    ensures { result ≡ surplus_finding (readable (S.state_of store.now) tree.fs.number) tree.top name }
{
    if find_inode(store, tree.fs, tree.top, name.number).is_ok() {
        Finding::Surplus(name)
    } else {
        Finding::NoInode(name)
    }
}

/// Adds what is wrong with the names that are one too many.
pub fn push_surplus<S: Store>(
    findings: &mut Vec<Finding>,
    store: &S,
    tree: Tree,
    surplus: &[Name],
) -> Result<(), AllocError>
    ensures { IfOk result (λ _. findings.new.items
        ≡ findings.old.items ++ surplus_findings (readable (S.state_of store.now) tree.fs.number) tree.top surplus.now) }
{
    for name in surplus {
        findings.push(surplus_finding(store, tree, *name))?;
    }
    Ok(())
}

/// Whether what a look-up found is the record at a byte of a block.
fn is_at(found: Result<Slot, Fault>, block: u32, offset: usize) -> bool
    ensures { result ≡ is_at found block offset }
{
    match found {
        Ok(slot) => slot.block == block && slot.offset == offset,
        Err(_) => false,
    }
}

/// Whether a record at a byte of a block is live, and a look-up of its name in the directory of a number does not find it.
fn is_unfound<S: Store>(
    store: &S,
    tree: Tree,
    directory: u32,
    block: u32,
    offset: usize,
    entry: &Record,
) -> bool
    ensures { result ≡ is_unfound (readable (S.state_of store.now) tree.fs.number) tree.top directory block offset (record_of entry.now) }
{
    if entry.number == 0 {
        return false;
    }
    let found = find_entry(store, tree.fs, tree.top, directory, entry.name);
    !is_at(found, block, offset)
}

/// Adds the names of a bucket that look-ups do not find.
fn push_unfound_in<S: Store>(
    findings: &mut Vec<Finding>,
    store: &S,
    tree: Tree,
    directory: u32,
    bucket: &Bucket,
) -> Result<(), AllocError>
    ensures { IfOk result (λ _. findings.new.items ≡ findings.old.items
        ++ unfound_in (readable (S.state_of store.now) tree.fs.number) tree.top directory bucket.now.block bucket.now.start bucket.now.bytes.now) }
{
    let block = bucket.block;
    for record in Records::new(bucket.bytes) {
        let offset = bucket.start + record.offset;
        if is_unfound(store, tree, directory, block, offset, &record) {
            findings.push(Finding::NotFound(Name {
                block,
                offset: offset as u16,
                number: record.number,
            }))?;
        }
    }
    Ok(())
}

/// Adds the names of a directory that look-ups do not find.
fn push_unfound_of<S: Store>(
    findings: &mut Vec<Finding>,
    store: &S,
    tree: Tree,
    directory: Directory,
) -> Result<(), AllocError>
    ensures { IfOk result (λ _. (unfound : List Finding) × AreUnfoundFrom (S.state_of store.now) tree directory 0 unfound
        × (findings.new.items ≡ findings.old.items ++ unfound)) }
{
    let mut next = 0;
    while let Some(bucket) = next_bucket(store, tree.fs, directory.block, Sought::Live, next) {
        push_unfound_in(findings, store, tree, directory.number, &bucket)?;
        next = bucket.number + 1;
    }
    Ok(())
}

/// Adds the names of directories that look-ups do not find.
pub fn push_unfound<S: Store>(
    findings: &mut Vec<Finding>,
    store: &S,
    tree: Tree,
    directories: &[Directory],
) -> Result<(), AllocError>
    ensures { IfOk result (λ _. (unfound : List Finding) × AreUnfound (S.state_of store.now) tree directories.now unfound
        × (findings.new.items ≡ findings.old.items ++ unfound)) }
{
    for directory in directories {
        push_unfound_of(findings, store, tree, *directory)?;
    }
    Ok(())
}
