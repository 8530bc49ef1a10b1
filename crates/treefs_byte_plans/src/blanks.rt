// How bytes past the size of a file become 0.

ghost use Rattle.std.specs.Prelude.{◌≡◌, ◌∷◌, []};
ghost use Rattle.treefs_byte_plans.specs.Blanks.{blank_act, blank_planned, has_tail, tail_in_room};
ghost use Rattle.treefs_lookup.specs.Readable.{readable};

use crate::blank::BlankPlan;
use crate::patches::patch_act;
use crate::truncates::{has_bytes_behind, push_zeros};
use std::alloc::{AllocError, Global};
use treefs_edits::{Act, ActsAlone, Memory, Tree, has_room};
use treefs_format::inodes::{CONTENT, CONTENT_LEN};
use treefs_format::sizes::{GREATEST_SIZE, LEAF_LEN};
use treefs_lookup::{is_blank_past, leaf_block};
use treefs_model::Fault;
use xn_state::Store;

impl ActsAlone for BlankPlan {
    ghost acts_of = { λ p. blank_act p ∷ [] };

    fn push_alone(&self, alloc: Global, acts: &mut Vec<Act>) -> Result<(), AllocError> {
        let mut patches = Vec::new(alloc);
        push_zeros(alloc, &mut patches, Some(self.offset))?;
        let act = patch_act(alloc, self.block, patches, self.behind);
        acts.push(act)?;
        Ok(())
    }
}

/// Whether a size ends in the middle of a leaf, and bytes are there behind it.
fn has_tail<S: Store>(store: &S, tree: Tree, inode: u32, size: u64) -> bool
    ensures { result ≡ has_tail (readable (S.state_of store.now) tree.fs.number) inode size }
{
    (CONTENT_LEN as u64) < size
        && size < GREATEST_SIZE
        && size % LEAF_LEN != 0
        && !is_blank_past(store, tree.fs, inode, size)
}

/// What it takes that the bytes of a leaf behind a size become 0, where there is room; else the fault is `Full`.
fn plan_tail<S: Store>(
    store: &S,
    tree: Tree,
    memory: &Memory,
    inode: u32,
    leaf: u32,
    size: u64,
) -> Result<Option<BlankPlan>, Fault>
    ensures { result ≡ tail_in_room (S.state_of store.now) tree.fs.number memory.now inode leaf size }
{
    if !has_room(store, tree.fs, memory.touched.len(), 10, &[(leaf, 1)]) {
        return Err(Fault::Full);
    }
    Ok(Some(BlankPlan {
        block: leaf,
        offset: (size % LEAF_LEN) as u16,
        behind: Some(inode),
    }))
}

/// What it takes that the bytes of an inode past its size become 0, in the inode or in the last leaf that the size keeps, if there are any. The fault is
/// `Full` where there is no room.
pub fn plan_blank<S: Store>(
    store: &S,
    tree: Tree,
    memory: &Memory,
    inode: u32,
    size: u64,
) -> Result<Option<BlankPlan>, Fault>
    ensures { result ≡ blank_planned (S.state_of store.now) tree.fs.number memory.now inode size }
{
    if has_bytes_behind(store, tree, inode, size) {
        return Ok(Some(BlankPlan {
            block: inode,
            offset: (CONTENT as u64 + size) as u16,
            behind: None,
        }));
    }
    if !has_tail(store, tree, inode, size) {
        return Ok(None);
    }
    let leaf = leaf_block(store, tree.fs, inode, (size / LEAF_LEN) as u32);
    plan_tail(store, tree, memory, inode, leaf, size)
}
