// Paths of pointers from inodes to leaves.

ghost use Rattle.std.specs.Prelude.{◌≡◌, ◌+◌, ◌-◌, ◌<◌, ◌≤◌, All, length};
ghost use Rattle.treefs_format.specs.Paths.{last_beside, leaf_count, steps};
ghost use Rattle.treefs_lookup.specs.Readable.{readable};
ghost use Rattle.treefs_lookup.specs.Walks.{end_of, holder_steps, path_blocks, pointer_offset, reach, stepped};
ghost use Rattle.treefs_model.specs.Reading.{leaf_block, pointed};

use crate::blocks::pointer_at;
use arrayvec::ArrayVec;
use edit_list::Fs;
use treefs_format::law::paths_are_leaves;
use treefs_format::paths::{height, last_beside, path};
use xn_state::Store;

/// How many pointers to leaves stand in an inode.
pub(crate) const OWN_LEAVES: u32 = 16;

/// How far a path of pointers leads.
#[derive(Clone, Copy, PartialEq, Eq)]
pub struct Reach {
    /// The last block on it that is there.
    pub block: u32,
    /// How many blocks behind that one are missing; 0 where the path leads to its end.
    pub missing: usize,
}

impl Reach {
    /// The block at the end of the path; 0 where it is missing.
    fn end(self) -> u32
        ensures { result ≡ end_of self }
    {
        if self.missing == 0 { self.block } else { 0 }
    }
}

/// How far a path leads from a block. Of the offsets of its pointers the last one is followed first.
pub fn walk<S: Store>(store: &S, fs: Fs, top: u32, offsets: &[u16]) -> Reach
    requires { All (λ offset. offset + 4 ≤ 512) offsets.now }
    ensures { result ≡ reach (readable (S.state_of store.now) fs.number) top offsets.now }
{
    let mut block = top;
    let mut left = offsets.len();
    while left > 0 {
        let next = pointer_at(store, fs, block, offsets[left - 1]);
        if next == 0 {
            return Reach {
                block,
                missing: left,
            };
        }
        block = next;
        left -= 1;
    }
    Reach { block, missing: 0 }
}

/// The blocks on a path from a block, from the top; 0 for each that is missing.
fn walk_blocks<S: Store>(store: &S, fs: Fs, top: u32, offsets: &[u16]) -> ArrayVec<u32, 5>
    requires within { All (λ offset. offset + 4 ≤ 512) offsets.now }
    requires few { length offsets.now ≤ 5 }
    ensures { result.items ≡ path_blocks (readable (S.state_of store.now) fs.number) top offsets.now }
{
    let mut blocks = ArrayVec::new();
    let mut block = top;
    let mut left = offsets.len();
    while left > 0 {
        block = pointer_at(store, fs, block, offsets[left - 1]);
        blocks.push(block);
        left -= 1;
    }
    blocks
}

/// The blocks on the path to a leaf of an inode, from the top, the leaf last; 0 for each that is missing.
pub fn path_blocks<S: Store>(store: &S, fs: Fs, inode: u32, leaf: u32) -> ArrayVec<u32, 5>
    requires { leaf < leaf_count }
    ensures { result.items ≡ path_blocks (readable (S.state_of store.now) fs.number) inode (steps leaf) }
{
    paths_are_leaves();
    let offsets = path(leaf);
    walk_blocks(store, fs, inode, offsets.as_slice())
}

/// How far the path to a leaf leads, from the block of its inode.
pub fn find_leaf<S: Store>(store: &S, fs: Fs, inode: u32, leaf: u32) -> Reach
    requires { leaf < leaf_count }
    ensures { result ≡ reach (readable (S.state_of store.now) fs.number) inode (steps leaf) }
{
    if leaf < OWN_LEAVES {
        return step(store, fs, inode, (48 + 4 * leaf) as u16);
    }
    find_in_tree(store, fs, inode, leaf)
}

/// How far one pointer of a block leads.
fn step<S: Store>(store: &S, fs: Fs, block: u32, offset: u16) -> Reach
    requires { offset + 4 ≤ 512 }
    ensures { result ≡ stepped block (pointed (readable (S.state_of store.now) fs.number) block offset) }
{
    let next = pointer_at(store, fs, block, offset);
    if next == 0 {
        Reach { block, missing: 1 }
    } else {
        Reach {
            block: next,
            missing: 0,
        }
    }
}

/// How far the path to a leaf leads that stands in a tree of nodes. Where the tree is missing, no other pointer of the path is looked for.
fn find_in_tree<S: Store>(store: &S, fs: Fs, inode: u32, leaf: u32) -> Reach
    requires there { leaf < leaf_count }
    requires tree { 16 ≤ leaf }
    ensures { result ≡ reach (readable (S.state_of store.now) fs.number) inode (steps leaf) }
{
    let height = height(leaf);
    let root = pointer_at(store, fs, inode, (108 + 4 * height) as u16);
    if root == 0 {
        return Reach {
            block: inode,
            missing: height as usize + 1,
        };
    }
    paths_are_leaves();
    let offsets = path(leaf);
    walk(store, fs, root, &offsets.as_slice()[..height as usize])
}

/// How far the path to the block with the pointer to a leaf leads, from the block of its inode. Where nothing is missing, that block is the
/// last one.
pub fn find_holder<S: Store>(store: &S, fs: Fs, inode: u32, leaf: u32) -> Reach
    requires { leaf < leaf_count }
    ensures { result ≡ reach (readable (S.state_of store.now) fs.number) inode (holder_steps leaf) }
{
    paths_are_leaves();
    let offsets = path(leaf);
    walk(store, fs, inode, &offsets.as_slice()[1..])
}

/// Where the pointer to a leaf stands in its block.
pub fn pointer_offset(leaf: u32) -> u16
    requires { leaf < leaf_count }
    ensures offset { result ≡ pointer_offset leaf }
    ensures within { result + 4 ≤ 512 }
{
    paths_are_leaves();
    path(leaf)[0]
}

/// How many leaves from one on have their pointers in the same block.
pub fn leaves_beside(leaf: u32) -> u32
    requires { leaf < leaf_count }
    ensures count { result ≡ last_beside leaf + 1 - leaf }
    ensures few { result ≤ 127 }
    ensures within { leaf + result ≤ leaf_count }
{
    last_beside(leaf) + 1 - leaf
}

/// The block of a leaf of an inode; 0 for none.
pub fn leaf_block<S: Store>(store: &S, fs: Fs, inode: u32, leaf: u32) -> u32
    requires { leaf < leaf_count }
    ensures { result ≡ leaf_block (readable (S.state_of store.now) fs.number) inode leaf }
{
    if leaf < OWN_LEAVES {
        return pointer_at(store, fs, inode, (48 + 4 * leaf) as u16);
    }
    find_in_tree(store, fs, inode, leaf).end()
}
