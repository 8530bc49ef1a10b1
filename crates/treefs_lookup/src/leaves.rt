// The leaves of an inode that are there.

ghost use Rattle.std.specs.Prelude.{◌≡◌, ◌<◌, ◌≤◌, MatchOption};
ghost use Rattle.treefs_format.specs.Paths.{height_of, leaf_count};
ghost use Rattle.treefs_lookup.specs.Leaves.{AreMissing, IsNextLeaf};
ghost use Rattle.treefs_lookup.specs.Readable.{readable};
ghost use Rattle.treefs_lookup.specs.Walks.{behind};

use crate::paths::find_leaf;
use edit_list::Fs;
use treefs_format::paths::{LEAVES, first_leaf, height};
use xn_state::Store;

/// A leaf of an inode that is there.
#[derive(Clone, Copy)]
pub struct Leaf {
    /// The leaf.
    pub number: u32,
    /// Its block.
    pub block: u32,
}

/// The first leaf behind all those that stand below the block so many levels above a leaf.
pub(crate) fn leaf_behind(leaf: u32, levels: usize) -> u32
    requires there { leaf < leaf_count }
    requires few { levels ≤ height_of leaf }
    ensures { result ≡ behind leaf levels }
{
    let first = first_leaf(height(leaf));
    let mut place = leaf - first;
    let mut leaves = 1;
    for _level in 0..levels {
        place /= 127;
        leaves *= 127;
    }
    first + (place + 1) * leaves
}

/// The first leaf of an inode at or past one that is there. What is below a node that is missing is passed over at once.
pub fn next_leaf<S: Store>(store: &S, fs: Fs, inode: u32, from: u32) -> Option<Leaf>
    ensures { MatchOption result (AreMissing (readable (S.state_of store.now) fs.number) inode from leaf_count)
        (IsNextLeaf (readable (S.state_of store.now) fs.number) inode from) }
{
    let mut number = from;
    while number < LEAVES {
        let reach = find_leaf(store, fs, inode, number);
        if reach.missing == 0 {
            return Some(Leaf {
                number,
                block: reach.block,
            });
        }
        number = leaf_behind(number, reach.missing - 1);
    }
    None
}
