// How pointers in an inode are dropped.

ghost use Rattle.std.specs.Prelude.{◌≡◌, ◌+◌, ◌<◌, ◌≤◌, ◌∷◌, ◌++◌, [], length, map, IfOk, MatchOption, None};
ghost use Rattle.treefs_byte_plans.specs.Roots.{HasNoRoots, IsRootsPlanned, blocks_of, last_offset, leaf_patches, pointers_act};
ghost use Rattle.treefs_byte_plans.specs.Roots.{leaf_pointers, tree_patch, tree_pointer, tree_pointers};
ghost use Rattle.treefs_lookup.specs.Readable.{readable};

use crate::roots_plan::{Pointer, RootsPlan};
use arrayvec::ArrayVec;
use edit_list::{Edit, Fs, Patch};
use std::alloc::{AllocError, Global};
use treefs_edits::{Act, ActsAlone};
use treefs_format::paths::first_leaf;
use treefs_lookup::pointer_at;
use xn_state::Store;

/// How many pointers to leaves stand in an inode.
const OWN_LEAVES: u32 = 16;

impl ActsAlone for RootsPlan {
    ghost acts_of = { λ p. pointers_act p.inode p.trees.items p.leaves.items ∷ [] };

    fn push_alone(&self, alloc: Global, acts: &mut Vec<Act>) -> Result<(), AllocError> {
        let mut patches = Vec::new(alloc);
        self.push_patches(alloc, &mut patches)?;
        let mut drops = Vec::new(alloc);
        self.push_drops(&mut drops)?;
        acts.push(drops_act(alloc, self.inode, patches, drops))?;
        Ok(())
    }
}

impl RootsPlan {
    /// Adds zeros over each pointer to a tree, and over the leaves' from the first to the last.
    fn push_patches(&self, alloc: Global, patches: &mut Vec<Patch>) -> Result<(), AllocError>
        ensures { IfOk result (λ _. patches.new.items ≡ patches.old.items ++ (map tree_patch self.now.trees.items ++ leaf_patches self.now.leaves.items)) }
    {
        push_trees(alloc, patches, self.trees.as_slice())?;
        push_leaves(alloc, patches, self.leaves.as_slice())
    }

    /// Adds the blocks to which the pointers lead.
    fn push_drops(&self, blocks: &mut Vec<u32>) -> Result<(), AllocError>
        ensures { IfOk result (λ _. blocks.new.items ≡ blocks.old.items ++ (blocks_of self.now.trees.items ++ blocks_of self.now.leaves.items)) }
    {
        push_blocks(blocks, self.trees.as_slice())?;
        push_blocks(blocks, self.leaves.as_slice())
    }
}

/// The edit of a block that has these patches, and drops these blocks.
fn drops_act(alloc: Global, block: u32, patches: Vec<Patch>, drops: Vec<u32>) -> Act
    ensures { result
        ≡ record { block = block; edit = record { patches = patches.items; adds = []; drops = drops.items; after = None }; behind = None } }
{
    Act {
        block,
        edit: Edit {
            patches,
            adds: Vec::new(alloc),
            drops,
            after: None,
        },
        behind: None,
    }
}

/// Adds zeros over each of some pointers.
fn push_trees(alloc: Global, patches: &mut Vec<Patch>, trees: &[Pointer]) -> Result<(), AllocError>
    ensures { IfOk result (λ _. patches.new.items ≡ patches.old.items ++ map tree_patch trees.now) }
{
    for tree in trees {
        patches.push(Patch {
            offset: tree.offset,
            bytes: vec![in alloc; 0; 4]?,
        })?;
    }
    Ok(())
}

/// Adds zeros from the first of some pointers to the last.
fn push_leaves(
    alloc: Global,
    patches: &mut Vec<Patch>,
    leaves: &[Pointer],
) -> Result<(), AllocError>
    ensures { IfOk result (λ _. patches.new.items ≡ patches.old.items ++ leaf_patches leaves.now) }
{
    let [first, others @ ..] = leaves else {
        return Ok(());
    };
    let last = last_offset(first.offset, others);
    let count = (usize::from(last) + 4).saturating_sub(usize::from(first.offset));
    patches.push(Patch {
        offset: first.offset,
        bytes: vec![in alloc; 0; count]?,
    })?;
    Ok(())
}

/// The offset of the last of some pointers, or else this one.
fn last_offset(offset: u16, pointers: &[Pointer]) -> u16
    ensures { result ≡ last_offset offset pointers.now }
{
    let mut last = offset;
    for pointer in pointers {
        last = pointer.offset;
    }
    last
}

/// Adds the blocks to which pointers lead.
fn push_blocks(blocks: &mut Vec<u32>, pointers: &[Pointer]) -> Result<(), AllocError>
    ensures { IfOk result (λ _. blocks.new.items ≡ blocks.old.items ++ blocks_of pointers.now) }
{
    for pointer in pointers {
        blocks.push(pointer.block)?;
    }
    Ok(())
}

/// Adds the pointer to the tree of a height, where the tree begins at or past a leaf and is there.
fn push_tree<S: Store>(
    store: &S,
    fs: Fs,
    inode: u32,
    keep: u32,
    height: u32,
    trees: &mut ArrayVec<Pointer, 4>,
)
    requires low { 1 ≤ height }
    requires high { height ≤ 4 }
    requires room { length trees.old.items < 4 }
    ensures trees { trees.new.items ≡ trees.old.items ++ tree_pointer (readable (S.state_of store.now) fs.number) inode keep height }
    ensures few { length trees.new.items ≤ length trees.old.items + 1 }
{
    if keep > first_leaf(height) {
        return;
    }
    let offset = (108 + 4 * height) as u16;
    let block = pointer_at(store, fs, inode, offset);
    if block == 0 {
        return;
    }
    trees.push(Pointer { offset, block });
}

/// The pointers to trees that begin at or past a leaf.
fn tree_pointers<S: Store>(store: &S, fs: Fs, inode: u32, keep: u32) -> ArrayVec<Pointer, 4>
    ensures { result.items ≡ tree_pointers (readable (S.state_of store.now) fs.number) inode keep }
{
    let mut trees = ArrayVec::new();
    push_tree(store, fs, inode, keep, 4, &mut trees);
    push_tree(store, fs, inode, keep, 3, &mut trees);
    push_tree(store, fs, inode, keep, 2, &mut trees);
    push_tree(store, fs, inode, keep, 1, &mut trees);
    trees
}

/// The pointers to leaves at or past one that stand in an inode.
fn leaf_pointers<S: Store>(store: &S, fs: Fs, inode: u32, keep: u32) -> ArrayVec<Pointer, 16>
    ensures { result.items ≡ leaf_pointers (readable (S.state_of store.now) fs.number) inode keep }
{
    let mut leaves = ArrayVec::new();
    for leaf in keep..OWN_LEAVES {
        let offset = (48 + 4 * leaf) as u16;
        let block = pointer_at(store, fs, inode, offset);
        if block == 0 {
            continue;
        }
        leaves.push(Pointer { offset, block });
    }
    leaves
}

/// What it takes to drop the pointers in an inode to trees and leaves that begin at or past a leaf; `None` where there are none.
pub fn plan_roots<S: Store>(store: &S, fs: Fs, inode: u32, keep: u32) -> Option<RootsPlan>
    ensures { MatchOption result (HasNoRoots (readable (S.state_of store.now) fs.number) inode keep)
        (IsRootsPlanned (readable (S.state_of store.now) fs.number) inode keep) }
{
    let trees = tree_pointers(store, fs, inode, keep);
    let leaves = leaf_pointers(store, fs, inode, keep);
    if trees.is_empty() && leaves.is_empty() {
        return None;
    }
    Some(RootsPlan {
        inode,
        trees,
        leaves,
    })
}
