// How a run of missing leaves is planned.

ghost use Rattle.std.specs.Prelude.{◌≡◌, ◌+◌, ◌*◌, ◌^◌, ◌<◌, ◌≤◌, IfOk};
ghost use Rattle.treefs_byte_plans.specs.Runs.{IsRun, ends_in, fitting, leaves_with_room, missing_count, most_leaves};
ghost use Rattle.treefs_byte_plans.specs.Runs.{planned_run, run_in_room, run_planned, run_taken};
ghost use Rattle.treefs_format.specs.Leaves.{greatest_size};
ghost use Rattle.treefs_format.specs.Paths.{leaf_count};
ghost use Rattle.treefs_lookup.specs.Readable.{readable};

use crate::fields::{risen, times_now};
use crate::run_plan::RunPlan;
use edit_list::Fs;
use store_types::MAX_PENDING;
use treefs_edits::{Memory, Tree, has_room};
use treefs_format::sizes::LEAF_LEN;
use treefs_lookup::{Found, Reach, find_leaf, leaf_block, leaves_beside};
use treefs_model::Fault;
use xn_state::Store;

/// Of many leaves at least so many are written at once.
const FEW_LEAVES: u32 = 64;

/// How many leaves of one block a run has at most: from a leaf on, of so many bytes from its beginning on.
fn most_leaves(leaf: u32, bytes: u64) -> u32
    requires { leaf < leaf_count }
    ensures most { result ≡ most_leaves leaf bytes }
    ensures within { leaf + result ≤ leaf_count }
    ensures few { result ≤ 127 }
{
    u64::from(leaves_beside(leaf)).min(bytes.div_ceil(LEAF_LEN)) as u32
}

/// How many leaves the entries make room for that may still come to be pending. A leaf takes one, and 16 of them one more.
fn leaves_with_room<S: Store>(store: &S, fs: Fs, touched: usize) -> u32
    ensures { result ≡ leaves_with_room (S.state_of store.now) fs.number touched }
{
    let free = (MAX_PENDING as usize)
        .saturating_sub(store.pending(fs) as usize)
        .saturating_sub(touched)
        .saturating_sub(16);
    (free * 16 / 17).saturating_sub(2) as u32
}

/// How many of some leaves have room; the fault is `Full` where few of many do.
fn fitting(most: u32, room: u32) -> Result<u32, Fault>
    ensures { result ≡ fitting most room }
{
    if room < most && room < FEW_LEAVES {
        return Err(Fault::Full);
    }
    Ok(most.min(room))
}

/// How many leaves from one on are missing, of at most so many.
fn missing_count<S: Store>(store: &S, fs: Fs, inode: u32, leaf: u32, most: u32) -> u32
    requires { leaf + most ≤ leaf_count }
    ensures count { result ≡ missing_count (readable (S.state_of store.now) fs.number) inode leaf most }
    ensures few { result ≤ most }
{
    for count in 0..most {
        if leaf_block(store, fs, inode, leaf + count) != 0 {
            return count;
        }
    }
    most
}

/// How many bytes a run of so many leaves takes.
fn run_taken(at: u64, bytes: usize, count: u32) -> usize
    ensures taken { result ≡ run_taken at bytes count }
    ensures few { result ≤ 512 * count }
{
    bytes.min((LEAF_LEN * u64::from(count)).saturating_sub(at % LEAF_LEN) as usize)
}

/// Whether a size ends in the middle of a leaf.
fn ends_in(size: u64, leaf: u64) -> bool
    ensures { result ≡ ends_in size leaf }
{
    size / LEAF_LEN == leaf && size % LEAF_LEN != 0
}

/// What a run of so many leaves takes. `owner` tells how far the path to the first one leads.
fn planned_run(
    tree: Tree,
    memory: &Memory,
    file: &Found,
    owner: Reach,
    at: u64,
    bytes: usize,
    count: u32,
) -> RunPlan
    requires low { at < greatest_size }
    requires few { count ≤ 127 }
    ensures planned { result ≡ planned_run tree memory.now file.now owner at bytes count }
    ensures within { IsRun result }
{
    let leaf = (at / LEAF_LEN) as u32;
    let taken = run_taken(at, bytes, count);
    let size = risen(file.fields.size, at + taken as u64);
    let last = (u64::from(leaf) + u64::from(count)).saturating_sub(1);
    RunPlan {
        inode: file.block,
        first: file.fields.leaf_type,
        node_type: tree.node_type,
        owner: owner.block,
        missing: owner.missing,
        leaf,
        count,
        at,
        taken,
        size,
        times: times_now(memory),
        waits: size.is_none() && ends_in(file.fields.size, last),
    }
}

/// What a run of so many leaves takes, where there is room; else the fault is `Full`.
fn run_in_room<S: Store>(
    store: &S,
    tree: Tree,
    memory: &Memory,
    file: &Found,
    at: u64,
    bytes: usize,
    count: u32,
) -> Result<RunPlan, Fault>
    requires low { at < greatest_size }
    requires few { count ≤ 127 }
    ensures planned { result ≡ run_in_room (S.state_of store.now) tree memory.now file.now at bytes count }
    ensures within { IfOk result IsRun }
{
    let owner = find_leaf(store, tree.fs, file.block, (at / LEAF_LEN) as u32);
    let edits = count + count / 16 + 12;
    let parts = [(file.block, 3), (owner.block, count / 16 + 2)];
    if !has_room(store, tree.fs, memory.touched.len(), edits, &parts) {
        return Err(Fault::Full);
    }
    Ok(planned_run(tree, memory, file, owner, at, bytes, count))
}

/// What a run of missing leaves takes, of so many bytes from a byte of a file on, whose leaf is missing. The fault is `Full` where few leaves of many have
/// room, or where there is no room in one of the blocks.
pub(crate) fn plan_run<S: Store>(
    store: &S,
    tree: Tree,
    memory: &Memory,
    file: &Found,
    at: u64,
    bytes: usize,
) -> Result<RunPlan, Fault>
    requires low { at < greatest_size }
    requires fits { at + bytes < 2 ^ 64 }
    ensures planned { result ≡ run_planned (S.state_of store.now) tree memory.now file.now at bytes }
    ensures within { IfOk result IsRun }
{
    let leaf = (at / LEAF_LEN) as u32;
    let most = most_leaves(leaf, at % LEAF_LEN + bytes as u64);
    let room = leaves_with_room(store, tree.fs, memory.touched.len());
    let fit = fitting(most, room)?;
    let count = missing_count(store, tree.fs, file.block, leaf, fit);
    run_in_room(store, tree, memory, file, at, bytes, count)
}
