// The word `du`.

use crate::sizes::told_size;
use std::alloc::{AllocError, Global};
use std::collections::BTreeSet;
use std::io::Write;
use store_types::BLOCK_LEN;
use tree_lines::{Fault, Node, Told, View, Visit, Walk, at_bytes, find, shown};

/// How sums are told.
#[derive(Clone, Copy, Debug)]
pub struct Measuring {
    /// Those of the paths alone.
    pub is_summary: bool,
    /// In bytes, as people read them, and not in blocks.
    pub is_human: bool,
}

/// What is measured: each number once.
#[derive(Drop)]
struct Sums {
    /// What has several names and was counted.
    counted: BTreeSet<u32>,
    /// How many blocks each folder holds so far in which the walk is, the first one first.
    sums: Vec<u64>,
}

impl Sums {
    /// Whether a node is still to be counted.
    fn is_new(&mut self, node: &Node) -> Result<bool, AllocError> {
        if node.is_folder() || node.links < 2 {
            return Ok(true);
        }
        Ok(self.counted.insert(node.number)?)
    }

    /// Adds blocks to the folder in which the walk is.
    fn add(&mut self, blocks: u64) {
        if let Some(sum) = self.sums.last_mut() {
            *sum = sum.saturating_add(blocks);
        }
    }

    /// Leaves a folder, and answers how many blocks it and all below hold.
    fn leave(&mut self) -> u64 {
        let blocks = self.sums.pop().unwrap_or(0);
        self.add(blocks);
        blocks
    }
}

/// How many blocks a node holds, none where it was counted before.
fn blocks_of<V: View>(
    view: &V,
    alloc: Global,
    measure: &mut Sums,
    path: &[u8],
    node: &Node,
) -> Result<u64, Fault> {
    if !measure.is_new(node)? {
        return Ok(0);
    }
    match view.blocks_held(node.number) {
        Ok(blocks) => Ok(blocks),
        Err(reason) => Err(at_bytes(alloc, path, reason)),
    }
}

/// Prints how many blocks a path holds.
fn print_blocks(
    alloc: Global,
    path: &[u8],
    (blocks, is_human): (u64, bool),
    out: &mut impl Write,
) -> Result<(), Fault> {
    let held = if is_human {
        blocks.saturating_mul(BLOCK_LEN as u64)
    } else {
        blocks
    };
    let (path, held) = (shown(alloc, path)?, told_size(alloc, held, is_human)?);
    writeln!(out, "{held}\t{path}")?;
    Ok(())
}

/// Adds what a walk has met.
fn meet<V: View>(
    view: &V,
    alloc: Global,
    told: &mut Told,
    measure: &mut Sums,
    (path, node): (&[u8], &Node),
) -> Result<(), Fault> {
    if node.is_folder() {
        measure.sums.push(0)?;
    }
    match blocks_of(view, alloc, measure, path, node) {
        Ok(blocks) => {
            measure.add(blocks);
            Ok(())
        }
        Err(fault) => told.go_on(Err(fault)),
    }
}

/// Measures what stands at a path and below it, and prints the sum of each folder, or that of the path alone.
fn measure_one<V: View>(
    view: &V,
    alloc: Global,
    told: &mut Told,
    measure: &mut Sums,
    (folder, path, how): (u32, &str, Measuring),
    out: &mut impl Write,
) -> Result<(), Fault> {
    let node = find(view, alloc, folder, path, false)?;
    let path = path.as_bytes();
    let own = blocks_of(view, alloc, measure, path, &node)?;
    measure.sums.clear();
    measure.sums.push(own)?;
    if node.is_folder() {
        let mut walk = Walk::below(alloc, path, node.number)?;
        for _name in 0..u64::MAX {
            match walk.next(view, alloc, told)? {
                None => break,
                Some(Visit::Met(step)) => {
                    meet(view, alloc, told, measure, (walk.path(), &step.node))?;
                }
                Some(Visit::Left(_step)) => {
                    let blocks = measure.leave();
                    if !how.is_summary {
                        print_blocks(alloc, walk.path(), (blocks, how.is_human), out)?;
                    }
                }
            }
        }
    }
    print_blocks(alloc, path, (measure.leave(), how.is_human), out)
}

/// `du`: how many blocks of 512 bytes, or how many bytes, are held at some paths and below them, each number once: of each folder, or of the paths alone. Without a path the
/// folder itself is measured.
pub fn measure<V: View>(
    view: &V,
    alloc: Global,
    told: &mut Told,
    (folder, paths): (u32, &[&str]),
    how: Measuring,
    out: &mut impl Write,
) -> Result<(), Fault> {
    let mut measure = Sums {
        counted: BTreeSet::new(alloc),
        sums: Vec::new(alloc),
    };
    if paths.is_empty() {
        let given = (folder, ".", how);
        return measure_one(view, alloc, told, &mut measure, given, out);
    }
    for path in paths {
        let given = (folder, *path, how);
        let done = measure_one(view, alloc, told, &mut measure, given, out);
        told.go_on(done)?;
    }
    Ok(())
}
