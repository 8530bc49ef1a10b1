// How the waits are planned that end a trim.

ghost use Rattle.std.specs.Prelude.{◌≡◌, ◌<◌, ◌≤◌, ◌++◌, ◌∷◌, [], IfOk, map, slice_index};
ghost use Rattle.treefs_byte_plans.specs.Waits.{IsWaitsPlanned, awaited, is_pending, pending_path};
ghost use Rattle.treefs_format.specs.Paths.{leaf_count};
ghost use Rattle.treefs_lookup.specs.Readable.{readable};
ghost use Rattle.treefs_model.specs.Acts.{wait_act};

use crate::waits_plan::WaitsPlan;
use arrayvec::ArrayVec;
use edit_list::Fs;
use std::alloc::{AllocError, Global};
use treefs_edits::{Act, ActsAlone, kinds};
use treefs_lookup::{path_blocks, read_block};
use xn_state::Store;

impl ActsAlone for WaitsPlan {
    ghost acts_of = { λ p. map (wait_act p.inode (p.first ∷ [])) p.others.items };

    fn push_alone(&self, alloc: Global, acts: &mut Vec<Act>) -> Result<(), AllocError> {
        push_waits(alloc, acts, self.inode, self.first, self.others.as_slice())
    }
}

/// Adds the waits of an inode, whose byte 0 is `first`, on some blocks.
fn push_waits(
    alloc: Global,
    acts: &mut Vec<Act>,
    inode: u32,
    first: u8,
    others: &[u32],
) -> Result<(), AllocError>
    ensures { IfOk result (λ _. acts.new.items ≡ acts.old.items ++ map (wait_act inode (first ∷ [])) others.now) }
{
    for other in others {
        acts.push(kinds::wait(alloc, inode, first, *other)?)?;
    }
    Ok(())
}

/// Whether something is pending in a block that is there.
fn is_pending<S: Store>(store: &S, block: u32) -> bool
    ensures { result ≡ is_pending (S.state_of store.now) block }
{
    block != 0 && store.newest_entry(block).is_some()
}

/// The blocks on the path to a leaf of an inode in which something is pending, from the top.
fn pending_path<S: Store>(store: &S, fs: Fs, inode: u32, leaf: u32) -> ArrayVec<u32, 5>
    requires { leaf < leaf_count }
    ensures { result.items ≡ pending_path (S.state_of store.now) fs.number inode leaf }
{
    let mut blocks = path_blocks(store, fs, inode, leaf);
    blocks.retain(|block| is_pending(store, *block));
    blocks
}

/// The blocks for which an inode waits that keeps so many leaves.
fn awaited<S: Store>(store: &S, fs: Fs, inode: u32, keep: u32) -> ArrayVec<u32, 5>
    requires { keep ≤ leaf_count }
    ensures { result.items ≡ awaited (S.state_of store.now) fs.number inode keep }
{
    if keep == 0 {
        return ArrayVec::new();
    }
    pending_path(store, fs, inode, keep - 1)
}

/// Byte 0 of a block; 0 of one that may not be read.
fn first_byte<S: Store>(store: &S, fs: Fs, block: u32) -> u8
    ensures { result ≡ slice_index (readable (S.state_of store.now) fs.number block) 0 }
{
    match read_block(store, fs, block) {
        Some(bytes) => bytes[0],
        None => 0,
    }
}

/// The waits of an inode that keeps so many leaves, of which nothing past them is pointed to any more: on each block of the path to the last leaf that it
/// keeps in which something is pending.
pub fn plan_waits<S: Store>(store: &S, fs: Fs, inode: u32, keep: u32) -> WaitsPlan
    requires { keep ≤ leaf_count }
    ensures { IsWaitsPlanned (S.state_of store.now) fs.number inode keep result }
{
    WaitsPlan {
        inode,
        first: first_byte(store, fs, inode),
        others: awaited(store, fs, inode, keep),
    }
}
