// The blocks that a path to a leaf lacks: how they are begun and attached.

ghost use Rattle.std.specs.Prelude.{◌≡◌, ◌++◌, ◌<◌, reverse, take, IfOk};
ghost use Rattle.treefs_format.specs.Paths.{leaf_count};
ghost use Rattle.treefs_edits.specs.Missing.{first_byte, missing_path, path_acts, path_starts, type_before};

use crate::act::Act;
use crate::kinds;
use crate::start::Start;
use arrayvec::ArrayVec;
use std::alloc::{AllocError, Global};
use treefs_format::nodes::new_node;
use treefs_format::paths::{LEAVES, path};
use treefs_format::types::LEAF_TYPE;

/// The type of the block to which a pointer leads, where these are behind it on a path to a leaf.
fn type_before(node_type: u8, offsets: &[u16]) -> u8
    ensures { result ≡ type_before node_type offsets.now }
{
    if offsets.is_empty() {
        LEAF_TYPE
    } else {
        node_type
    }
}

/// The first byte of that block, when it is begun.
fn first_byte(node_type: u8, offsets: &[u16]) -> u8
    ensures { result ≡ first_byte node_type offsets.now }
{
    match offsets {
        [] => 0,
        [_, behind @ ..] => type_before(node_type, behind),
    }
}

/// Adds the blocks that a path lacks, from its missing pointers.
pub fn push_path_starts(
    starts: &mut Vec<Start>,
    node_type: u8,
    offsets: &[u16],
) -> Result<(), AllocError>
    ensures { IfOk result (λ _. starts.new.items ≡ starts.old.items ++ path_starts node_type offsets.now) }
{
    let mut rest = offsets;
    while let [_, behind @ ..] = rest {
        starts.push(Start {
            ty: u32::from(type_before(node_type, behind)),
            bytes: new_node(first_byte(node_type, behind)),
        })?;
        rest = behind;
    }
    Ok(())
}

/// Adds the acts by which the blocks that a path lacks are attached, each to the one before.
pub fn push_path_acts(
    alloc: Global,
    acts: &mut Vec<Act>,
    node_type: u8,
    owner: u32,
    offsets: &[u16],
    begun: &[u32],
) -> Result<(), AllocError>
    ensures { IfOk result (λ _. acts.new.items ≡ acts.old.items ++ path_acts node_type owner offsets.now begun.now) }
{
    let mut owner = owner;
    let mut rest = offsets;
    let mut blocks = begun;
    while let [offset, behind @ ..] = rest {
        let [block, others @ ..] = blocks else {
            return Ok(());
        };
        let ty = u32::from(type_before(node_type, behind));
        acts.push(kinds::attach(alloc, owner, *offset, ty, &[*block], None)?)?;
        acts.push(kinds::wait(alloc, *block, first_byte(node_type, behind), owner)?)?;
        owner = *block;
        rest = behind;
        blocks = others;
    }
    Ok(())
}

/// The pointers of the path to a leaf that are missing, where so many are.
pub fn missing_path(leaf: u32, missing: usize) -> ArrayVec<u16, 5>
    ensures { result.items ≡ missing_path leaf missing }
{
    if leaf >= LEAVES {
        return ArrayVec::new();
    }
    let mut offsets = path(leaf);
    offsets.truncate(missing);
    offsets.as_mut_slice().reverse();
    offsets
}
