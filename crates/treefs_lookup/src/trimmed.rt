// Whether anything stands past the size of a file.

ghost use Rattle.std.specs.Prelude.{◌≡◌, ◌<◌, ◌≤◌, length};
ghost use Rattle.std.specs.Bool.{MatchBool};
ghost use Rattle.treefs_format.specs.Leaves.{greatest_size};
ghost use Rattle.treefs_format.specs.Paths.{leaf_count, place_in_tree};
ghost use Rattle.treefs_lookup.specs.Bytes.{bytes_from, part_left};
ghost use Rattle.treefs_lookup.specs.Readable.{readable};
ghost use Rattle.treefs_lookup.specs.Trimmed.{IsCut, IsTrimmed, NoneBegins, SomeBegins, bytes_past, is_first, is_first_node, pointers_past};
ghost use Rattle.xn_model.specs.Lists.{blank};

use crate::blocks::read_block;
use crate::bytes::{copy_part, part_left};
use crate::inodes::Found;
use crate::leaves::leaf_behind;
use crate::paths::find_leaf;
use edit_list::Fs;
use store_types::BLOCK_LEN;
use treefs_format::Kind;
use treefs_format::inodes::CONTENT;
use treefs_format::paths::{LEAVES, first_leaf, height};
use treefs_format::sizes::{GREATEST_SIZE, leaves_kept};
use xn_state::Store;

/// Whether a leaf is the first one below the block so many levels above it.
fn is_first(leaf: u32, levels: usize) -> bool
    requires { leaf < leaf_count }
    ensures { result ≡ is_first levels (place_in_tree leaf) }
{
    let mut place = leaf - first_leaf(height(leaf));
    for _level in 0..levels {
        if place % 127 != 0 {
            return false;
        }
        place /= 127;
    }
    true
}

/// Whether a leaf is the first one below the node so many levels above it; false where the inode is there.
fn is_first_node(leaf: u32, levels: usize) -> bool
    requires { leaf < leaf_count }
    ensures { result ≡ is_first_node leaf levels }
{
    levels <= height(leaf) as usize && is_first(leaf, levels)
}

/// Whether an inode block has no pointer to a leaf at or past one, and none to a tree in which such a leaf may stand.
fn has_no_pointers(inode: &[u8; BLOCK_LEN], from: u32) -> bool
    ensures { result ≡ blank (pointers_past inode.now from) }
{
    let start = (48 + 4 * from.min(16)) as usize;
    are_zeros(&inode[start..CONTENT])
}

/// Whether a leaf or a node of an inode is there that begins at or past a leaf. What is below a node that is missing is passed over at once.
pub fn stands_past<S: Store>(store: &S, fs: Fs, inode: u32, from: u32) -> bool
    ensures { MatchBool result (SomeBegins (readable (S.state_of store.now) fs.number) inode from)
        (NoneBegins (readable (S.state_of store.now) fs.number) inode from leaf_count) }
{
    if let Some(bytes) = read_block(store, fs, inode)
        && has_no_pointers(bytes, from)
    {
        return false;
    }
    let mut number = from;
    while number < LEAVES {
        let reach = find_leaf(store, fs, inode, number);
        if reach.missing == 0 || is_first_node(number, reach.missing) {
            return true;
        }
        number = leaf_behind(number, reach.missing - 1);
    }
    false
}

/// A block of zeros.
const ZEROS: [u8; BLOCK_LEN] = [0; BLOCK_LEN];

/// Whether bytes are all 0.
fn are_zeros(bytes: &[u8]) -> bool
    requires { length bytes.now ≤ 512 }
    ensures { result ≡ blank bytes.now }
{
    bytes == &ZEROS[..bytes.len()]
}

/// Whether bytes from a size on are zeros, as many as the part into which they are copied.
#[inline(always)]
fn is_blank_part<S: Store>(store: &S, fs: Fs, inode: u32, size: u64, part: &mut [u8]) -> bool
    requires low { size < greatest_size }
    requires within { length part.old ≤ part_left size }
    ensures { result ≡ blank (bytes_from (readable (S.state_of store.now) fs.number) inode size (length part.old)) }
{
    let own = read_block(store, fs, inode);
    copy_part(store, fs, inode, own, size, part);
    are_zeros(part)
}

/// Whether the bytes from a size on that stand together with the first of them are zeros: those behind it in the inode, or in its leaf.
pub fn is_blank_past<S: Store>(store: &S, fs: Fs, inode: u32, size: u64) -> bool
    requires { size < greatest_size }
    ensures { result ≡ blank (bytes_past (readable (S.state_of store.now) fs.number) inode size) }
{
    let mut part = [0u8; BLOCK_LEN];
    let length = part_left(size) as usize;
    is_blank_part(store, fs, inode, size, &mut part[..length])
}

/// Whether nothing stands past the size of a file or a symbolic link. A directory is trimmed.
pub fn is_trimmed<S: Store>(store: &S, fs: Fs, found: &Found) -> bool
    ensures { MatchBool result (IsTrimmed (readable (S.state_of store.now) fs.number) found.now)
        (IsTrimmed (readable (S.state_of store.now) fs.number) found.now → ⊥) }
{
    match found.kind {
        Kind::Directory => true,
        Kind::File | Kind::SymbolicLink => {
            is_cut(store, fs, found.block, found.fields.size.min(GREATEST_SIZE))
        }
    }
}

/// Whether nothing of an inode's content stands past a size.
fn is_cut<S: Store>(store: &S, fs: Fs, inode: u32, size: u64) -> bool
    requires { size ≤ greatest_size }
    ensures { MatchBool result (IsCut (readable (S.state_of store.now) fs.number) inode size)
        (IsCut (readable (S.state_of store.now) fs.number) inode size → ⊥) }
{
    if size < GREATEST_SIZE && !is_blank_past(store, fs, inode, size) {
        return false;
    }
    !stands_past(store, fs, inode, leaves_kept(size))
}
