// Which bytes of a file of trees stand in blocks, and how many blocks that are.

ghost use Rattle.std.specs.Prelude.{◌≡◌, ◌≢◌, ◌⊎◌, ℕ, ◌<◌, ◌≤◌, MatchOption};
ghost use Rattle.treefs_format.specs.Leaves.{greatest_size};
ghost use Rattle.treefs_format.specs.Paths.{leaf_count};
ghost use Rattle.treefs_lookup.specs.Readable.{readable};
ghost use Rattle.treefs_model.specs.Reading.{leaf_block};
ghost use Rattle.tree_lines.specs.Stretches.{IsFirstFrom, IsHole, IsNextStretch, end_before};

use crate::node::Stretch;
use edit_list::Fs;
use treefs_format::inodes::CONTENT_LEN;
use treefs_format::paths::LEAVES;
use treefs_format::sizes::LEAF_LEN;
use treefs_lookup::{leaf_block, next_leaf, path_blocks};
use xn_state::Store;

/// The byte behind those of the leaves before one, and of the inode.
fn end_before(leaf: u32) -> u64
    ensures { result ≡ end_before leaf }
{
    if leaf == 0 {
        CONTENT_LEN as u64
    } else {
        u64::from(leaf) * LEAF_LEN
    }
}

/// The first byte at or past one that stands in a block, and the leaf behind it.
fn first_from<S: Store>(store: &S, fs: Fs, inode: u32, at: u64) -> Option<(u64, u32)>
    ensures { MatchOption result (IsHole (leaf_block (readable (S.state_of store.now) fs.number) inode) at greatest_size)
        (λ first. IsFirstFrom (leaf_block (readable (S.state_of store.now) fs.number) inode) at first.0 first.1) }
{
    if at < CONTENT_LEN as u64 {
        return Some((at, 0));
    }
    let from = u32::try_from(at / LEAF_LEN).ok()?;
    let leaf = next_leaf(store, fs, inode, from)?;
    let first = u64::from(leaf.number) * LEAF_LEN;
    Some((first.max(at), leaf.number.saturating_add(1)))
}

/// The first leaf at or past one that is missing, or that begins at or past a byte.
fn last_from<S: Store>(store: &S, fs: Fs, inode: u32, next: u32, limit: u64) -> u32
    ensures past { next ≤ result }
    ensures few { next ≤ leaf_count → result ≤ leaf_count }
    ensures there { (leaf : ℕ) → next ≤ leaf → leaf < result → leaf_block (readable (S.state_of store.now) fs.number) inode leaf ≢ 0 }
    ensures ends { (leaf_count ≤ result) ⊎ ((limit ≤ end_before result)
        ⊎ (leaf_block (readable (S.state_of store.now) fs.number) inode result ≡ 0)) }
{
    for leaf in next..LEAVES {
        if end_before(leaf) >= limit || leaf_block(store, fs, inode, leaf) == 0 {
            return leaf;
        }
    }
    next.max(LEAVES)
}

/// The next bytes of the file with this inode block and this size that stand in blocks, at or past one, at most so many.
pub fn stretch_of<S: Store>(
    store: &S,
    fs: Fs,
    file: (u32, u64),
    at: u64,
    most: u64,
) -> Option<Stretch>
    ensures { IsNextStretch (leaf_block (readable (S.state_of store.now) fs.number) file.0) file.1 at most result }
{
    let (inode, size) = file;
    let (first, next) = first_from(store, fs, inode, at)?;
    let limit = size.min(first.saturating_add(most));
    let end = end_before(last_from(store, fs, inode, next, limit)).min(limit);
    if first < end {
        Some(Stretch {
            at: first,
            length: end - first,
        })
    } else {
        None
    }
}

/// How many blocks of a path are not at the same place of another one.
fn new_on(path: &[u32], last: &[u32]) -> u64 {
    if path.len() != last.len() {
        return path.len() as u64;
    }
    let mut count = 0u64;
    for (block, before) in path.iter().zip(last.iter()) {
        if block != before {
            count = count.saturating_add(1);
        }
    }
    count
}

/// How many blocks are held by an inode: its own, its leaves, and the nodes that lead to them.
pub fn blocks_of<S: Store>(store: &S, fs: Fs, inode: u32) -> u64 {
    let mut count = 1u64;
    let mut last = arrayvec::ArrayVec::new();
    let mut from = 0;
    for _leaf in 0..LEAVES {
        let Some(leaf) = next_leaf(store, fs, inode, from) else {
            break;
        };
        if leaf.number >= LEAVES {
            break;
        }
        let path = path_blocks(store, fs, inode, leaf.number);
        count = count.saturating_add(new_on(path.as_slice(), last.as_slice()));
        last = path;
        from = leaf.number + 1;
    }
    count
}
