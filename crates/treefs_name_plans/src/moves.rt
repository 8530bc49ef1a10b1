// What is looked up before a name moves.

ghost use Rattle.std.specs.Prelude.{◌≡◌, ◌≤◌, length, IfOk, OnOk};
ghost use Rattle.treefs_model.specs.Files.{and_then};
ghost use Rattle.treefs_lookup.specs.Readable.{readable};
ghost use Rattle.treefs_name_plans.specs.Ends.{IsWithin, ended_in};
ghost use Rattle.treefs_name_plans.specs.Moves.{IsAnyReplaceable, IsEmptyReplaceable, IsTakenReplaced, is_below, is_cycle, is_kind_directory, kinds_agree, most_above, moved_in, parent_of};

use crate::ended::Ended;
use crate::endings::{find_ended, name_end};
use crate::moved::Moved;
use crate::name_end::NameEnd;
use crate::namings::find_replaceable;
use crate::new_names::names_are_short;
use crate::rmdir::has_bucket;
use treefs_edits::{Memory, Tree};
use treefs_format::{Kind, is_name};
use treefs_lookup::{Slot, Sought, find_directory, find_inode};
use treefs_model::Fault;
use xn_state::Store;

/// How many directories stand above one at most: each is a block, and no store has more.
const MOST_ABOVE: u32 = 1_048_576;

/// Whether an inode is a directory.
pub fn is_directory(kind: Kind) -> bool
    ensures { result ≡ is_kind_directory kind }
{
    match kind {
        Kind::Directory => true,
        Kind::File | Kind::SymbolicLink => false,
    }
}

/// The directory in which an inode stands; 0 where it isn't there.
fn parent_of<S: Store>(store: &S, tree: Tree, number: u32) -> u32
    ensures { result ≡ parent_of (readable (S.state_of store.now) tree.fs.number) tree.top number }
{
    match find_inode(store, tree.fs, tree.top, number) {
        Ok(found) => found.fields.parent,
        Err(_) => 0,
    }
}

/// Whether a directory is `number`, or stands below it.
fn is_below<S: Store>(store: &S, tree: Tree, number: u32, directory: u32) -> bool
    ensures { result ≡ is_below (readable (S.state_of store.now) tree.fs.number) tree.top number most_above directory }
{
    let mut left = MOST_ABOVE;
    let mut above = directory;
    while left > 0 {
        if above == number {
            return true;
        }
        let parent = parent_of(store, tree, above);
        if parent == above {
            return false;
        }
        above = parent;
        left -= 1;
    }
    false
}

/// Whether a directory would stand below itself.
fn is_cycle<S: Store>(store: &S, tree: Tree, old: &Ended, directory: u32) -> bool
    ensures { result ≡ is_cycle (readable (S.state_of store.now) tree.fs.number) tree.top old.now directory }
{
    is_directory(old.inode.kind) && is_below(store, tree, old.slot.number, directory)
}

/// The name that is to move. The faults are those of both directories, `BadName`, `NoEntry`, and `Cycle`.
pub fn find_moved<S: Store>(
    store: &S,
    tree: Tree,
    directory: u32,
    name: &[u8],
    new_directory: u32,
    new_name: &[u8],
) -> Result<Moved, Fault>
    ensures moved { result ≡ moved_in (readable (S.state_of store.now) tree.fs.number) tree.top directory name.now new_directory new_name.now }
    ensures within { IfOk result (λ moved. IsWithin (readable (S.state_of store.now) tree.fs.number) moved.old.slot) }
    ensures short { OnOk result (length new_name.now ≤ 255) }
{
    names_are_short();
    let _ = find_directory(store, tree.fs, tree.top, directory)?;
    let block = find_directory(store, tree.fs, tree.top, new_directory)?.block;
    if !is_name(name) || !is_name(new_name) {
        return Err(Fault::BadName);
    }
    let old = find_ended(store, tree, directory, name)?;
    if is_cycle(store, tree, &old, new_directory) {
        return Err(Fault::Cycle);
    }
    Ok(Moved {
        old,
        directory: block,
    })
}

/// A name that ends because another inode of a kind takes it. The faults are `IsDir` and `NotDir`.
fn if_kinds_agree(kind: Kind, ended: Ended) -> Result<Ended, Fault>
    ensures { result ≡ kinds_agree kind ended }
{
    match (is_directory(ended.inode.kind), is_directory(kind)) {
        (true, false) => Err(Fault::IsDir),
        (false, true) => Err(Fault::NotDir),
        (true, true) | (false, false) => Ok(ended),
    }
}

/// The end of a directory's name that is replaced. The faults are `NotEmpty`, and `Full` where something is pending in its buckets.
fn find_empty_replaceable<S: Store>(
    store: &S,
    tree: Tree,
    memory: &Memory,
    ended: &Ended,
) -> Result<NameEnd, Fault>
    requires { IsWithin (readable (S.state_of store.now) tree.fs.number) ended.now.slot }
    ensures { IsEmptyReplaceable (S.state_of store.now) tree.fs.number memory.now ended.now result }
{
    if has_bucket(store, tree.fs, ended.inode.block, Sought::Live) {
        return Err(Fault::NotEmpty);
    }
    if has_bucket(store, tree.fs, ended.inode.block, Sought::Pending) {
        return Err(Fault::Full);
    }
    Ok(name_end(store, tree, memory, ended))
}

/// The end of a name that is replaced.
fn find_any_replaceable<S: Store>(
    store: &S,
    tree: Tree,
    memory: &Memory,
    ended: &Ended,
) -> Result<NameEnd, Fault>
    requires { IsWithin (readable (S.state_of store.now) tree.fs.number) ended.now.slot }
    ensures { IsAnyReplaceable (S.state_of store.now) tree.fs.number memory.now ended.now result }
{
    if is_directory(ended.inode.kind) {
        find_empty_replaceable(store, tree, memory, ended)
    } else {
        find_replaceable(store, tree, memory, ended)
    }
}

/// A name that ends because another inode of a kind takes it. The faults are `NoEntry` where it leads to nothing, `IsDir`, and `NotDir`.
fn find_agreeing<S: Store>(
    store: &S,
    tree: Tree,
    kind: Kind,
    directory: u32,
    name: &[u8],
) -> Result<Ended, Fault>
    ensures ended { result ≡ and_then (ended_in (readable (S.state_of store.now) tree.fs.number) tree.top directory name.now) (kinds_agree kind) }
    ensures within { IfOk result (λ ended. IsWithin (readable (S.state_of store.now) tree.fs.number) ended.slot) }
{
    let ended = find_ended(store, tree, directory, name)?;
    if_kinds_agree(kind, ended)
}

/// The end of a name of a directory that an inode of a kind takes; `taken` is its record. The faults are `NoEntry` where it leads to nothing, `IsDir`,
/// `NotDir`, `NotEmpty`, and `Full`.
pub fn find_taken_end<S: Store>(
    store: &S,
    tree: Tree,
    memory: &Memory,
    kind: Kind,
    directory: u32,
    name: &[u8],
    taken: Option<Slot>,
) -> Result<Option<NameEnd>, Fault>
    ensures { IsTakenReplaced (S.state_of store.now) tree memory.now kind directory name.now taken result }
{
    if taken.is_none() {
        return Ok(None);
    }
    let ended = find_agreeing(store, tree, kind, directory, name)?;
    match find_any_replaceable(store, tree, memory, &ended) {
        Ok(end) => Ok(Some(end)),
        Err(fault) => Err(fault),
    }
}
