// Numbers for new inodes.

ghost use Rattle.std.specs.Prelude.{◌≡◌, ◌+◌, ◌<◌, MatchOption, MatchResult};
ghost use Rattle.treefs_format.specs.Paths.{last_beside, leaf_count};
ghost use Rattle.treefs_lookup.specs.Numbers.{ArePointed, IsFirstEmpty, IsNextFree, IsNextNumber, IsNoneFree};
ghost use Rattle.treefs_lookup.specs.Readable.{readable};

use crate::blocks::pointer_at;
use crate::paths::{find_holder, pointer_offset};
use edit_list::Fs;
use treefs_format::paths::{LEAVES, last_beside};
use treefs_model::Fault;
use xn_state::Store;

/// How many entries may be pending in a block that is to get the pointer to a new inode.
const MOST_PENDING: u32 = 60;

/// The first leaf from one on whose pointer stands in the same block, and is 0.
fn first_empty<S: Store>(store: &S, fs: Fs, holder: u32, from: u32) -> Option<u32>
    requires { from < leaf_count }
    ensures { MatchOption result (ArePointed (readable (S.state_of store.now) fs.number) holder from (last_beside from + 1))
        (IsFirstEmpty (readable (S.state_of store.now) fs.number) holder from) }
{
    for leaf in from..last_beside(from) + 1 {
        if pointer_at(store, fs, holder, pointer_offset(leaf)) == 0 {
            return Some(leaf);
        }
    }
    None
}

/// The first leaf of inode 0 at or past one that can be given to a new inode. The fault is `Full` where a block with too many pending entries was passed
/// over, else `NoInode`.
fn next_free<S: Store>(store: &S, fs: Fs, top: u32, from: u32) -> Result<u32, Fault>
    ensures { MatchResult result (IsNextFree (S.state_of store.now) fs.number top from) (IsNoneFree (S.state_of store.now) fs.number top from) }
{
    let mut leaf = from;
    let mut is_crowded = false;
    while leaf < LEAVES {
        let holder = find_holder(store, fs, top, leaf);
        if holder.missing > 0 {
            return Ok(leaf);
        }
        if store.pending_in(holder.block) > MOST_PENDING {
            is_crowded = true;
        } else if let Some(free) = first_empty(store, fs, holder.block, leaf) {
            return Ok(free);
        }
        leaf = last_beside(leaf) + 1;
    }
    if is_crowded {
        Err(Fault::Full)
    } else {
        Err(Fault::NoInode)
    }
}

/// The first number that can be given to a new inode, in the order from a hint on to the last number and then from 1 on: its pointer is missing, or is 0 in
/// a block with at most 60 pending entries. The fault is `Full` where a block with more was passed over, else `NoInode`.
pub fn find_number<S: Store>(store: &S, fs: Fs, top: u32, hint: u32) -> Result<u32, Fault>
    ensures { MatchResult result (IsNextNumber (S.state_of store.now) fs.number top hint) (IsNoneFree (S.state_of store.now) fs.number top 0) }
{
    if let Ok(leaf) = next_free(store, fs, top, hint.saturating_sub(1)) {
        return Ok(leaf + 1);
    }
    match next_free(store, fs, top, 0) {
        Ok(leaf) => Ok(leaf + 1),
        Err(fault) => Err(fault),
    }
}
