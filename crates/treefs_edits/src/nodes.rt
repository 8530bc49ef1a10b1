// The nodes that a path lacks: how they are begun and attached.

ghost use Rattle.std.specs.Prelude.{◌≡◌, ◌++◌, IfOk};
ghost use Rattle.treefs_edits.specs.Missing.{child_before, last_or_owner, node_acts, node_starts};

use crate::act::Act;
use crate::kinds;
use crate::start::Start;
use std::alloc::{AllocError, Global};
use treefs_format::nodes::new_node;

/// The type of the blocks to which a new node points, where these pointers are behind the one to it; the last one points to blocks of `last_type`.
fn child_before(node_type: u8, last_type: u8, offsets: &[u16]) -> u8
    ensures { result ≡ child_before node_type last_type offsets.now }
{
    if offsets.is_empty() {
        last_type
    } else {
        node_type
    }
}

/// Adds the nodes to which missing pointers lead.
pub fn push_node_starts(
    starts: &mut Vec<Start>,
    node_type: u8,
    last_type: u8,
    offsets: &[u16],
) -> Result<(), AllocError>
    ensures { IfOk result (λ _. starts.new.items ≡ starts.old.items ++ node_starts node_type last_type offsets.now) }
{
    let mut rest = offsets;
    while let [_, behind @ ..] = rest {
        starts.push(Start {
            ty: u32::from(node_type),
            bytes: new_node(child_before(node_type, last_type, behind)),
        })?;
        rest = behind;
    }
    Ok(())
}

/// Adds the acts by which new nodes are attached, each to the one before.
pub fn push_node_acts(
    alloc: Global,
    acts: &mut Vec<Act>,
    node_type: u8,
    last_type: u8,
    owner: u32,
    offsets: &[u16],
    begun: &[u32],
) -> Result<(), AllocError>
    ensures { IfOk result (λ _. acts.new.items ≡ acts.old.items ++ node_acts node_type last_type owner offsets.now begun.now) }
{
    let mut owner = owner;
    let mut rest = offsets;
    let mut blocks = begun;
    while let [offset, behind @ ..] = rest {
        let [block, others @ ..] = blocks else {
            return Ok(());
        };
        let ty = u32::from(node_type);
        acts.push(kinds::attach(alloc, owner, *offset, ty, &[*block], None)?)?;
        let child = child_before(node_type, last_type, behind);
        acts.push(kinds::wait(alloc, *block, child, owner)?)?;
        owner = *block;
        rest = behind;
        blocks = others;
    }
    Ok(())
}

/// The last of some blocks, or else another one.
pub fn last_or_owner(owner: u32, blocks: &[u32]) -> u32
    ensures { result ≡ last_or_owner owner blocks.now }
{
    let mut last = owner;
    let mut rest = blocks;
    while let [block, behind @ ..] = rest {
        last = *block;
        rest = behind;
    }
    last
}
