// What stands past what is kept of an inode goes.

ghost use Rattle.std.specs.Prelude.{◌≡◌, ◌≤◌};
ghost use Rattle.treefs_byte_plans.specs.Kept.{HasFewLeaves};
ghost use Rattle.treefs_format.specs.Paths.{leaf_count};
ghost use Rattle.treefs.specs.Trimming.{Blanks, Drops, HasRoom, Roots, TrimDoes, TrimsFirst, Waits, most_drops};

use std::alloc::Global;
use treefs_byte_plans::{Kept, plan_blank, plan_drop, plan_roots, plan_waits};
use treefs_edits::{Memory, Tree, carry_out, has_room};
use treefs_model::Fault;
use xn_state::Store;

/// How many nodes lose pointers in one trim at most: more entries are never pending.
const MOST_DROPS: u32 = 4096;

/// Whether there is room for a trim's own edits; else the fault is `Full`.
fn ask_for_room<S: Store>(store: &S, tree: Tree, memory: &Memory, kept: Kept) -> Result<(), Fault>
    ensures { HasRoom tree.fs.number memory.now kept (S.state_of store.now) (S.state_of store.now) result }
{
    if has_room(store, tree.fs, memory.touched.len(), 10, &[(kept.inode, 9)]) {
        Ok(())
    } else {
        Err(Fault::Full)
    }
}

/// Bytes past the size become 0, where there are others.
fn blank<S: Store>(
    alloc: Global,
    store: &mut S,
    tree: Tree,
    memory: &Memory,
    kept: Kept,
) -> Result<(), Fault>
    ensures types { S.types_of store.new ≡ S.types_of store.old }
    ensures does { Blanks (S.types_of store.old) tree.fs.number memory.now kept (S.state_of store.old) (S.state_of store.new) result }
{
    let Some(size) = kept.size else {
        return Ok(());
    };
    match plan_blank(store, tree, memory, kept.inode, size)? {
        Some(plan) => carry_out(alloc, store, tree.fs, &plan),
        None => Ok(()),
    }
}

/// Pointers in nodes are dropped, one node after another.
fn drop_pointers<S: Store>(
    alloc: Global,
    store: &mut S,
    tree: Tree,
    memory: &Memory,
    kept: Kept,
) -> Result<(), Fault>
    ensures types { S.types_of store.new ≡ S.types_of store.old }
    ensures does { Drops (S.types_of store.old) tree.fs.number memory.now kept most_drops (S.state_of store.old) (S.state_of store.new) result }
{
    for _drop in 0..MOST_DROPS {
        let plan = match plan_drop(store, tree, memory, kept.inode, kept.keep) {
            Ok(Some(plan)) => plan,
            Ok(None) => return Ok(()),
            Err(fault) => return Err(fault),
        };
        if let Err(fault) = carry_out(alloc, store, tree.fs, &plan) {
            return Err(fault);
        }
    }
    Err(Fault::Full)
}

/// Pointers in the inode itself are dropped.
fn drop_roots<S: Store>(alloc: Global, store: &mut S, tree: Tree, kept: Kept) -> Result<(), Fault>
    ensures types { S.types_of store.new ≡ S.types_of store.old }
    ensures does { Roots (S.types_of store.old) tree.fs.number kept (S.state_of store.old) (S.state_of store.new) result }
{
    match plan_roots(store, tree.fs, kept.inode, kept.keep) {
        Some(plan) => carry_out(alloc, store, tree.fs, &plan),
        None => Ok(()),
    }
}

/// The inode waits for what is pending on the path to its last leaf.
fn wait_for_path<S: Store>(
    alloc: Global,
    store: &mut S,
    tree: Tree,
    kept: Kept,
) -> Result<(), Fault>
    requires { kept.keep ≤ leaf_count }
    ensures types { S.types_of store.new ≡ S.types_of store.old }
    ensures does { Waits (S.types_of store.old) tree.fs.number kept (S.state_of store.old) (S.state_of store.new) result }
{
    let plan = plan_waits(store, tree.fs, kept.inode, kept.keep);
    carry_out(alloc, store, tree.fs, &plan)
}

/// Trims an inode to what is kept of it. `Full` comes where some of it has no room: each part goes by what the blocks say, so it is called again.
pub fn trim_to<S: Store>(
    alloc: Global,
    store: &mut S,
    tree: Tree,
    memory: &Memory,
    kept: Kept,
) -> Result<(), Fault>
    requires { kept.keep ≤ leaf_count }
    ensures types { S.types_of store.new ≡ S.types_of store.old }
    ensures does { TrimDoes (S.types_of store.old) tree.fs.number memory.now kept (S.state_of store.old) (S.state_of store.new) result }
{
    if let Err(fault) = ask_for_room(store, tree, memory, kept) {
        return Err(fault);
    }
    if let Err(fault) = blank(alloc, store, tree, memory, kept) {
        return Err(fault);
    }
    if let Err(fault) = drop_pointers(alloc, store, tree, memory, kept) {
        return Err(fault);
    }
    if let Err(fault) = drop_roots(alloc, store, tree, kept) {
        return Err(fault);
    }
    wait_for_path(alloc, store, tree, kept)
}

/// Trims an inode, if one is told. The faults are `Full` and `Kernel`, as of `Volume::trim`.
pub fn trim_first<S: Store>(
    alloc: Global,
    store: &mut S,
    tree: Tree,
    memory: &Memory,
    kept: Option<Kept>,
) -> Result<(), Fault>
    requires { HasFewLeaves kept }
    ensures types { S.types_of store.new ≡ S.types_of store.old }
    ensures does { TrimsFirst (S.types_of store.old) tree.fs.number memory.now kept (S.state_of store.old) (S.state_of store.new) result }
{
    match kept {
        Some(kept) => trim_to(alloc, store, tree, memory, kept),
        None => Ok(()),
    }
}
