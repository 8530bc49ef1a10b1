// The inodes of a volume, numbers rising.

ghost use Rattle.std.specs.Prelude.{◌≡◌, ◌+◌, MatchOption};
ghost use Rattle.treefs_format.specs.Paths.{leaf_count};
ghost use Rattle.treefs_lookup.specs.Readable.{readable};
ghost use Rattle.treefs_mending.specs.Table.{AreFree, IsNextInode};

use treefs_edits::Tree;
use treefs_lookup::{Found, find_inode, next_leaf};
use xn_state::Store;

/// An inode with its number.
#[derive(Clone, Copy)]
pub struct Numbered {
    /// Its number.
    pub number: u32,
    /// What is found of it.
    pub inode: Found,
}

/// The first inode whose number is at or past one. What is below a node that is missing is passed over at once.
pub fn next_inode<S: Store>(store: &S, tree: Tree, from: u32) -> Option<Numbered>
    ensures { MatchOption result (AreFree (readable (S.state_of store.now) tree.fs.number) tree.top from (leaf_count + 1))
        (IsNextInode (readable (S.state_of store.now) tree.fs.number) tree.top from) }
{
    let mut next = from.saturating_sub(1);
    while let Some(leaf) = next_leaf(store, tree.fs, tree.top, next) {
        let number = leaf.number + 1;
        match find_inode(store, tree.fs, tree.top, number) {
            Ok(inode) => return Some(Numbered { number, inode }),
            Err(_) => next = number,
        }
    }
    None
}
