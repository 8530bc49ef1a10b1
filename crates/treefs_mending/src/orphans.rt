// The inodes that no name leads to.

ghost use Rattle.std.specs.Prelude.{◌≡◌, ◌++◌, IfOk};
ghost use Rattle.treefs_lookup.specs.Readable.{readable};
ghost use Rattle.treefs_mending.specs.Orphans.{orphan_at, orphans_of};

use crate::tally::{Tally, is_found};
use std::alloc::{AllocError, Global};
use treefs_edits::Tree;
use treefs_lookup::{find_inode, next_leaf};
use xn_state::Store;

/// Adds a number, if its inode is there and no name leads to it.
fn push_orphan<S: Store>(
    numbers: &mut Vec<u32>,
    store: &S,
    tree: Tree,
    tallies: &[Tally],
    number: u32,
) -> Result<(), AllocError>
    ensures { IfOk result (λ _. numbers.new.items ≡ numbers.old.items ++ orphan_at (readable (S.state_of store.now) tree.fs.number) tree.top tallies.now number) }
{
    if find_inode(store, tree.fs, tree.top, number).is_ok() && !is_found(tallies, number) {
        numbers.push(number)?;
    }
    Ok(())
}

/// The numbers of the inodes that no name leads to, rising: they are to be freed. `Err` comes only for want of memory.
pub fn find_orphans<S: Store>(
    alloc: Global,
    store: &S,
    tree: Tree,
    tallies: &[Tally],
) -> Result<Vec<u32>, AllocError>
    ensures { IfOk result (λ numbers. numbers.items ≡ orphans_of (readable (S.state_of store.now) tree.fs.number) tree.top tallies.now) }
{
    let mut numbers = Vec::new(alloc);
    let mut from = 0;
    while let Some(leaf) = next_leaf(store, tree.fs, tree.top, from) {
        push_orphan(&mut numbers, store, tree, tallies, leaf.number + 1)?;
        from = leaf.number + 1;
    }
    Ok(numbers)
}
