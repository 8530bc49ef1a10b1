// What `check` prints of a volume of trees.

use crate::findings::told_finding;
use crate::json::Members;
use flush_store::FlushStore;
use std::alloc::{AllocError, Global};
use std::io::Write;
use tree_lines::{Fault, TOP};
use treefs_check::Finding;
use treefs_edits::Tree;
use treefs_format::Kind;
use treefs_format::paths::LEAVES;
use treefs_mending::next_inode;
use xn_state::Store;

/// What stands in a volume, but for its top folder.
#[derive(Clone, Copy, Debug)]
struct Counts {
    files: u64,
    folders: u64,
    links: u64,
    /// What has no name, and is freed when the volume is opened to be changed.
    unnamed: u64,
}

impl Counts {
    /// Counts something of a kind that has so many links.
    fn add(&mut self, kind: Kind, links: u32) {
        if links == 0 {
            self.unnamed = self.unnamed.saturating_add(1);
            return;
        }
        match kind {
            Kind::Directory => self.folders = self.folders.saturating_add(1),
            Kind::File => self.files = self.files.saturating_add(1),
            Kind::SymbolicLink => self.links = self.links.saturating_add(1),
        }
    }
}

/// Counts what stands in a volume.
fn counts_of<S: Store>(store: &S, tree: Tree) -> Counts {
    let mut counts = Counts {
        files: 0,
        folders: 0,
        links: 0,
        unnamed: 0,
    };
    let mut from = TOP.saturating_add(1);
    for _number in 0..LEAVES {
        let Some(found) = next_inode(store, tree, from) else {
            break;
        };
        counts.add(found.inode.kind, found.inode.fields.links);
        from = found.number.saturating_add(1);
    }
    counts
}

/// Findings as they are told: those of damage, and those that a crash leaves.
#[derive(Drop)]
struct Findings {
    damage: Vec<String>,
    left: Vec<String>,
}

/// Parts findings, to which belongs how much has no name.
fn part_findings<S: Store>(
    alloc: Global,
    (store, tree): (&S, Tree),
    findings: &[Finding],
    unnamed: u64,
) -> Result<Findings, AllocError> {
    let (mut damage, mut left) = (Vec::new(alloc), Vec::new(alloc));
    for finding in findings {
        let text = told_finding(alloc, store, tree, finding)?;
        if finding.is_damage() {
            damage.push(text)?;
        } else {
            left.push(text)?;
        }
    }
    if unnamed > 0 {
        left.push(format!(in alloc; "{unnamed} files or folders without a name")?)?;
    }
    Ok(Findings { damage, left })
}

/// How many faults a volume of trees has that no crash leaves.
pub fn count_damage<S: FlushStore>(alloc: Global, store: &S, tree: Tree) -> Result<u64, Fault> {
    let mut count = 0u64;
    for finding in treefs_check::check(alloc, store, tree)?.iter() {
        if finding.is_damage() {
            count = count.saturating_add(1);
        }
    }
    Ok(count)
}

/// Prints what is mended, of what was found.
pub fn tell_mended<S: Store>(
    alloc: Global,
    (store, tree): (&S, Tree),
    found: &[Finding],
    out: &mut impl Write,
) -> Result<(), Fault> {
    let unnamed = counts_of(store, tree).unnamed;
    let findings = part_findings(alloc, (store, tree), found, unnamed)?;
    for text in findings.damage.iter().chain(findings.left.iter()) {
        writeln!(out, "mended: {text}")?;
    }
    Ok(())
}

/// Prints findings and counts.
fn print_found(
    findings: &Findings,
    counts: Counts,
    free: u32,
    out: &mut impl Write,
) -> Result<(), Fault> {
    for text in findings.damage.iter() {
        writeln!(out, "damage: {text}")?;
    }
    for text in findings.left.iter() {
        writeln!(out, "left by a crash: {text}")?;
    }
    if findings.damage.is_empty() {
        writeln!(
            out,
            "sound: {} files, {} folders, {} symbolic links, {free} blocks free",
            counts.files, counts.folders, counts.links
        )?;
    }
    Ok(())
}

/// Prints findings and counts as an object of JSON.
fn print_json(
    alloc: Global,
    findings: Findings,
    counts: Counts,
    free: u32,
    out: &mut impl Write,
) -> Result<(), Fault> {
    let Findings { damage, left } = findings;
    let mut object = Members::none(alloc);
    object.flag("is_sound", damage.is_empty())?;
    object.texts("damage", damage)?;
    object.texts("left_by_a_crash", left)?;
    object.number("files", counts.files)?;
    object.number("folders", counts.folders)?;
    object.number("symbolic_links", counts.links)?;
    object.number("free_blocks", u64::from(free))?;
    let text = object.into_text()?;
    writeln!(out, "{text}")?;
    Ok(())
}

/// `check`: what is wrong with a volume of trees as its newest bytes are, what stands in it, and what is free. The fault is `Faults` where something is wrong
/// that no crash leaves.
pub fn check<S: FlushStore>(
    alloc: Global,
    store: &S,
    tree: Tree,
    is_json: bool,
    out: &mut impl Write,
) -> Result<(), Fault> {
    let found = treefs_check::check(alloc, store, tree)?;
    let (counts, free) = (counts_of(store, tree), store.state().free());
    let findings = part_findings(alloc, (store, tree), &found, counts.unnamed)?;
    let faults = findings.damage.len() as u64;
    if is_json {
        print_json(alloc, findings, counts, free, out)?;
    } else {
        print_found(&findings, counts, free, out)?;
    }
    if faults > 0 {
        return Err(Fault::Faults(faults));
    }
    Ok(())
}
