// Buckets with dead records are rewritten without them.

ghost use Rattle.std.specs.Prelude.{◌≡◌, ◌≤◌, ◌++◌, IfOk, is_none, length};
ghost use Rattle.std.specs.List.{list_all};
ghost use Rattle.xn_model.specs.PendingIn.{newest_entry_of};
ghost use Rattle.treefs_lookup.specs.Readable.{readable};
ghost use Rattle.treefs_mending.specs.InRoom.{DoesActs, DoesPlannedActs};
ghost use Rattle.treefs_mending.specs.Rewritings.{all_rewritings, calm, has_dead, rewriting_at, rewritings, rewritings_planned};

use crate::in_room::make_all_in_room;
use crate::survey::Directory;
use edit_list::Fs;
use std::alloc::{AllocError, Global};
use treefs_edits::{Act, Memory, Tree, kinds, lacks_memory};
use treefs_format::Records;
use treefs_lookup::{Bucket, next_leaf, read_bucket};
use treefs_model::Fault;
use xn_state::Store;

/// Whether a bucket has a dead record.
fn has_dead(bucket: &[u8]) -> bool
    requires { length bucket.now ≤ 512 }
    ensures { result ≡ has_dead bucket.now }
{
    Records::new(bucket).any(|record| record.number == 0)
}

/// Adds the act by which a bucket is rewritten, if it is there and has a dead record.
fn push_rewriting(alloc: Global, acts: &mut Vec<Act>, bucket: &Bucket) -> Result<(), AllocError>
    ensures { IfOk result (λ _. acts.new.items ≡ acts.old.items ++ rewriting_at bucket.now.block bucket.now.start bucket.now.bytes.now) }
{
    if bucket.block != 0 && has_dead(bucket.bytes) {
        acts.push(kinds::rewrite(alloc, bucket.block, bucket.start, bucket.bytes)?)?;
    }
    Ok(())
}

/// Adds the acts by which the buckets of a directory are rewritten, those with dead records.
fn push_rewritings<S: Store>(
    alloc: Global,
    acts: &mut Vec<Act>,
    store: &S,
    fs: Fs,
    inode: u32,
) -> Result<(), AllocError>
    ensures { IfOk result (λ _. acts.new.items ≡ acts.old.items ++ rewritings (readable (S.state_of store.now) fs.number) inode) }
{
    push_rewriting(alloc, acts, &read_bucket(store, fs, inode, 0))?;
    let mut from = 0;
    while let Some(leaf) = next_leaf(store, fs, inode, from) {
        let bucket = read_bucket(store, fs, inode, leaf.number + 1);
        push_rewriting(alloc, acts, &bucket)?;
        from = leaf.number + 1;
    }
    Ok(())
}

/// Adds the acts by which the buckets of directories are rewritten, those with dead records.
fn push_all_rewritings<S: Store>(
    alloc: Global,
    acts: &mut Vec<Act>,
    store: &S,
    fs: Fs,
    directories: &[Directory],
) -> Result<(), AllocError>
    ensures { IfOk result (λ _. acts.new.items ≡ acts.old.items ++ all_rewritings (readable (S.state_of store.now) fs.number) directories.now) }
{
    for directory in directories {
        push_rewritings(alloc, acts, store, fs, directory.block)?;
    }
    Ok(())
}

/// The acts by which the buckets of directories are rewritten, those with dead records. `Err` comes only for want of memory.
pub fn plan_rewritings<S: Store>(
    alloc: Global,
    store: &S,
    fs: Fs,
    directories: &[Directory],
) -> Result<Vec<Act>, AllocError>
    ensures { IfOk result (λ acts. acts.items ≡ all_rewritings (readable (S.state_of store.now) fs.number) directories.now) }
{
    let mut acts = Vec::new(alloc);
    push_all_rewritings(alloc, &mut acts, store, fs, directories)?;
    Ok(acts)
}

/// Whether nothing is pending in the block of any of these acts.
fn are_calm<S: Store>(store: &S, acts: &[Act]) -> bool
    ensures { result ≡ list_all (λ act. is_none (newest_entry_of (S.state_of store.now) act.block)) acts.now }
{
    for act in acts {
        if store.newest_entry(act.block).is_some() {
            return false;
        }
    }
    true
}

/// Makes acts, where nothing is pending in the block of any of them; else the fault is `Full`, and nothing is done.
fn make_if_calm<S: Store>(
    store: &mut S,
    tree: Tree,
    memory: &Memory,
    acts: Vec<Act>,
) -> Result<(), Fault>
    ensures types { S.types_of store.new ≡ S.types_of store.old }
    ensures does { DoesPlannedActs (S.types_of store.old) tree.fs.number (length memory.now.touched) (calm (S.state_of store.old) acts.items)
        (S.state_of store.old) (S.state_of store.new) result }
{
    if are_calm(store, &acts) {
        make_all_in_room(store, tree, memory, acts)
    } else {
        Err(Fault::Full)
    }
}

/// Rewrites each bucket of directories that has dead records without them. `Full` comes, before the first one, where something is pending in the
/// block of such a bucket, and where one has no room; `Kernel` for want of memory, or where the store refuses an edit. Then those before it are
/// rewritten.
pub fn rewrite_buckets<S: Store>(
    alloc: Global,
    store: &mut S,
    tree: Tree,
    memory: &Memory,
    directories: &[Directory],
) -> Result<(), Fault>
    ensures types { S.types_of store.new ≡ S.types_of store.old }
    ensures does { DoesActs (S.types_of store.old) tree.fs.number (length memory.now.touched)
        (rewritings_planned (S.state_of store.old) tree.fs.number directories.now) (S.state_of store.old) (S.state_of store.new) result }
{
    match plan_rewritings(alloc, store, tree.fs, directories) {
        Ok(acts) => make_if_calm(store, tree, memory, acts),
        Err(error) => Err(lacks_memory(error)),
    }
}
