// How a directory's name ends.

ghost use Rattle.std.specs.Prelude.{◌≡◌, MatchOption, slice_index};
ghost use Rattle.treefs_lookup.specs.Readable.{readable};
ghost use Rattle.treefs_name_plans.specs.Ends.{IsWithin};
ghost use Rattle.treefs_name_plans.specs.Removals.{ArePending, HasBucket, IsRemovalInRoom, IsRemovalPlanned, IsRmdirPlanned, ManyArePending};

use crate::ended::Ended;
use crate::endings::{find_ended_directory, name_end};
use crate::removal::RemovalPlan;
use arrayvec::ArrayVec;
use edit_list::Fs;
use treefs_edits::{Memory, Tree, has_room};
use treefs_lookup::{Sought, next_bucket, read_block};
use treefs_model::Fault;
use xn_state::Store;

/// Whether a directory has a bucket with what is sought.
pub fn has_bucket<S: Store>(store: &S, fs: Fs, inode: u32, sought: Sought) -> bool
    ensures { HasBucket (S.state_of store.now) fs.number inode sought result }
{
    match next_bucket(store, fs, inode, sought, 0) {
        Some(_) => true,
        None => false,
    }
}

/// The blocks of a directory's buckets in which something is pending; `None` where these are more than may be waited for.
fn find_pending<S: Store>(store: &S, fs: Fs, inode: u32) -> Option<ArrayVec<u32, 61>>
    ensures { MatchOption result (ManyArePending (S.state_of store.now) fs.number inode)
        (λ blocks. ArePending (S.state_of store.now) fs.number inode blocks.items) }
{
    let mut blocks = ArrayVec::new();
    let mut from = 0;
    while let Some(bucket) = next_bucket(store, fs, inode, Sought::Pending, from) {
        if blocks.is_full() {
            return None;
        }
        blocks.push(bucket.block);
        from = bucket.number + 1;
    }
    Some(blocks)
}

/// Byte 0 of a block; 0 of one that may not be read.
fn first_byte<S: Store>(store: &S, fs: Fs, block: u32) -> u8
    ensures { result ≡ slice_index (readable (S.state_of store.now) fs.number block) 0 }
{
    match read_block(store, fs, block) {
        Some(bytes) => bytes[0],
        None => 0,
    }
}

/// What the end of a directory's name takes that waits for these blocks, where there is room for it; else the fault is `Full`.
fn removal_in_room<S: Store>(
    store: &S,
    tree: Tree,
    memory: &Memory,
    ended: &Ended,
    pending: ArrayVec<u32, 61>,
) -> Result<RemovalPlan, Fault>
    requires { IsWithin (readable (S.state_of store.now) tree.fs.number) ended.now.slot }
    ensures { IsRemovalInRoom (S.state_of store.now) tree.fs.number memory.now ended.now pending.items result }
{
    let waits = pending.len() as u32;
    let parts = [(ended.slot.block, 1 + waits), (ended.inode.block, 1)];
    if !has_room(store, tree.fs, memory.touched.len(), 4 + waits, &parts) {
        return Err(Fault::Full);
    }
    Ok(RemovalPlan {
        end: name_end(store, tree, memory, ended),
        first: first_byte(store, tree.fs, ended.slot.block),
        pending,
    })
}

/// What the end of an empty directory's name takes. The fault is `Full`.
fn plan_removal<S: Store>(
    store: &S,
    tree: Tree,
    memory: &Memory,
    ended: &Ended,
) -> Result<RemovalPlan, Fault>
    requires { IsWithin (readable (S.state_of store.now) tree.fs.number) ended.now.slot }
    ensures { IsRemovalPlanned (S.state_of store.now) tree.fs.number memory.now ended.now result }
{
    match find_pending(store, tree.fs, ended.inode.block) {
        Some(pending) => removal_in_room(store, tree, memory, ended, pending),
        None => Err(Fault::Full),
    }
}

/// What the end of a directory's name takes. The faults are those of the directory that has it, `BadName`, `NoEntry`, `NotDir`, `NotEmpty`, and `Full`
/// where there is no room.
pub fn plan_rmdir<S: Store>(
    store: &S,
    tree: Tree,
    memory: &Memory,
    directory: u32,
    name: &[u8],
) -> Result<RemovalPlan, Fault>
    ensures { IsRmdirPlanned (S.state_of store.now) tree memory.now directory name.now result }
{
    let ended = find_ended_directory(store, tree, directory, name)?;
    if has_bucket(store, tree.fs, ended.inode.block, Sought::Live) {
        return Err(Fault::NotEmpty);
    }
    plan_removal(store, tree, memory, &ended)
}
