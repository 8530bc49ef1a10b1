// How a name moves.

ghost use Rattle.std.specs.Prelude.{◌≡◌, ◌≤◌, ◌-◌, ◌==◌, ◌&&◌, drop, length, not, take, IfOk, MatchBool, None, OnOk, Ok};
ghost use Rattle.treefs_edits.specs.Memories.{is_past};
ghost use Rattle.std.specs.List.{list_all};
ghost use Rattle.treefs_lookup.specs.Readable.{readable};
ghost use Rattle.treefs_edits.specs.Rooms.{has_room_in};
ghost use Rattle.treefs_name_plans.specs.Ends.{IsWithin};
ghost use Rattle.treefs_name_plans.specs.NewNames.{IsWithinBlocks, place_in};
ghost use Rattle.treefs_name_plans.specs.RenamePlans.{IsMovePlanned, IsRenamePlanned, apart_in_room, leads_to, linked_in_room, links_between};
ghost use Rattle.treefs_name_plans.specs.RenamePlans.{old_offset, planned_move, rename_in, replaced_parts, rewritten_offset, stands_in, together_in_room};

use crate::addition::{Addition, OldBucket};
use crate::link::{find_holder_of, more_links};
use crate::link_change::LinkChange;
use crate::moved::Moved;
use crate::moves::{find_moved, find_taken_end, is_directory};
use crate::name_end::NameEnd;
use crate::naming::Naming;
use crate::namings::find_naming;
use crate::new_names::{LookedUp, look_up};
use crate::rename_plan::{LinksBetween, Moving, RenamePlan};
use crate::slots::narrow;
use store_types::BLOCK_LEN;
use treefs_edits::fronts::front;
use treefs_edits::{Memory, Times, Tree, has_room, have_room};
use treefs_format::buckets::room_without;
use treefs_format::inodes::CONTENT;
use treefs_lookup::{NamePlace, Slot};
use treefs_model::Fault;
use xn_state::Store;

/// The bytes of a block from a place on, up to another one.
fn bytes_before(bytes: &[u8; BLOCK_LEN], start: usize, offset: usize) -> &[u8]
    requires { start ≤ 512 }
    ensures bytes { result.now ≡ take (offset - start) (drop start bytes.now) }
    ensures few { length result.now ≤ 512 }
{
    front(&bytes[start..], offset.saturating_sub(start))
}

/// Where a record begins once its bucket is rewritten: the live records before it stand before it then, too.
fn rewritten_offset(old: &OldBucket, offset: usize) -> u16
    ensures { result ≡ rewritten_offset old.now offset }
{
    let start = if old.in_inode { CONTENT } else { 0 };
    let before = bytes_before(&old.bytes, start, offset);
    (start + (before.len() - room_without(before))) as u16
}

/// Where the old name's record begins once a bucket is rewritten for the new one.
fn old_offset<S: Store>(store: &S, tree: Tree, slot: &Slot, naming: &Naming) -> u16
    requires { IsWithin (readable (S.state_of store.now) tree.fs.number) slot.now }
    ensures { result ≡ old_offset slot.now naming.now }
{
    match naming {
        Naming::Added(Addition::Rewritten(old)) if old.block == slot.block => {
            rewritten_offset(old, slot.offset)
        }
        Naming::Added(_) | Naming::Replaced(_) => narrow(store, tree.fs, slot.block, slot.offset),
    }
}

/// What a move takes.
fn planned_move<S: Store>(
    store: &S,
    tree: Tree,
    moved: &Moved,
    naming: Naming,
    moving: Moving,
) -> RenamePlan
    requires { IsWithin (readable (S.state_of store.now) tree.fs.number) moved.now.old.slot }
    ensures { result ≡ planned_move moved.now naming moving }
{
    let old = &moved.old;
    RenamePlan {
        number: old.slot.number,
        inode: old.inode.block,
        is_directory: is_directory(old.inode.kind),
        block: old.slot.block,
        offset: old_offset(store, tree, &old.slot, &naming),
        naming,
        moving,
    }
}

/// Whether there is room in the block of what is replaced.
fn has_replaced_room<S: Store>(store: &S, naming: &Naming) -> bool
    ensures { result ≡ list_all (has_room_in (S.state_of store.now)) (replaced_parts naming.now) }
{
    match naming {
        Naming::Added(_) => true,
        Naming::Replaced(end) => have_room(store, &[(end.fewer.block, 1)]),
    }
}

/// What a move by one edit takes, where there is room for it; else the fault is `Full`.
fn together_in_room<S: Store>(
    store: &S,
    tree: Tree,
    memory: &Memory,
    moved: &Moved,
    naming: Naming,
) -> Result<RenamePlan, Fault>
    requires { IsWithin (readable (S.state_of store.now) tree.fs.number) moved.now.old.slot }
    ensures { result ≡ together_in_room (S.state_of store.now) tree memory.now moved.now naming }
{
    let old = &moved.old;
    let parts = [(old.slot.block, 2)];
    let room = has_room(store, tree.fs, memory.touched.len(), 4, &parts)
        && has_replaced_room(store, &naming);
    if !room {
        return Err(Fault::Full);
    }
    let times = Times {
        mtime: old.inode.fields.mtime,
        ctime: old.inode.fields.ctime,
    };
    let moving = Moving::Together(memory.newest_times(old.slot.number, times));
    Ok(planned_move(store, tree, moved, naming, moving))
}

/// How an inode gets a link more, which is `more`, and one fewer. A directory gets it behind its old record, and with it its new parent.
fn links_between<S: Store>(
    store: &S,
    tree: Tree,
    moved: &Moved,
    directory: u32,
    more: LinkChange,
) -> LinksBetween
    ensures { result ≡ links_between (S.state_of store.now) tree moved.now directory more }
{
    let old = &moved.old;
    let is_directory = is_directory(old.inode.kind);
    LinksBetween {
        behind: if is_directory {
            old.slot.block
        } else {
            find_holder_of(store, tree, old.slot.number)
        },
        more: LinkChange {
            parent: if is_directory { Some(directory) } else { None },
            ..more
        },
        less: LinkChange {
            links: old.inode.fields.links,
            ..more
        },
    }
}

/// What a move by several edits takes, where there is room for it; else the fault is `Full`.
fn apart_in_room<S: Store>(
    store: &S,
    tree: Tree,
    memory: &Memory,
    moved: &Moved,
    directory: u32,
    naming: Naming,
    more: LinkChange,
) -> Result<RenamePlan, Fault>
    requires { IsWithin (readable (S.state_of store.now) tree.fs.number) moved.now.old.slot }
    ensures { result ≡ apart_in_room (S.state_of store.now) tree memory.now moved.now directory naming more }
{
    let parts = naming.parts(moved.directory);
    let own = [(moved.old.inode.block, 3), (moved.old.slot.block, 2)];
    let room = has_room(store, tree.fs, memory.touched.len(), 25, &parts) && have_room(store, &own);
    if !room {
        return Err(Fault::Full);
    }
    let links = links_between(store, tree, moved, directory, more);
    Ok(planned_move(store, tree, moved, naming, Moving::Apart(links)))
}

/// Whether a new record stands in a block that is there.
fn stands_in(naming: &Naming, block: u32) -> bool
    ensures { result ≡ stands_in naming.now block }
{
    match naming {
        Naming::Added(Addition::Behind(place, _)) => *place == block,
        Naming::Added(Addition::Rewritten(old)) => old.block == block,
        Naming::Added(Addition::Made(_)) => false,
        Naming::Replaced(end) => end.block == block,
    }
}

/// What a move takes whose new record stands there. The faults are `TooLarge` where the inode has 2^32 - 1 links and needs one more, and `Full`.
fn linked_in_room<S: Store>(
    store: &S,
    tree: Tree,
    memory: &Memory,
    moved: &Moved,
    directory: u32,
    naming: Naming,
) -> Result<RenamePlan, Fault>
    requires { IsWithin (readable (S.state_of store.now) tree.fs.number) moved.now.old.slot }
    ensures { result ≡ linked_in_room (S.state_of store.now) tree memory.now moved.now directory naming }
{
    if stands_in(&naming, moved.old.slot.block) {
        return together_in_room(store, tree, memory, moved, naming);
    }
    let more = more_links(memory, moved.old.slot.number, &moved.old.inode)?;
    apart_in_room(store, tree, memory, moved, directory, naming, more)
}

/// Whether a directory that was made or moved has to be written before a name moves from a directory to another one.
fn has_to_wait<S: Store>(
    store: &S,
    tree: Tree,
    memory: &Memory,
    directory: u32,
    new_directory: u32,
) -> bool
    ensures { result ≡ (not (directory == new_directory) && not (is_past (S.state_of store.now) tree.fs.number memory.now.last_dir)) }
{
    directory != new_directory && memory.last_dir >= store.floor(tree.fs)
}

/// What a move takes. The faults are `Full` where a directory that was made or moved has to be written first, `Full` or `TooLarge` where there is no
/// place for the name, and then those of the links and of room.
fn rename_in<S: Store>(
    store: &S,
    tree: Tree,
    memory: &Memory,
    moved: &Moved,
    directory: u32,
    new_directory: u32,
    place: Result<NamePlace, Fault>,
    replaced: Option<NameEnd>,
) -> Result<RenamePlan, Fault>
    requires old { IsWithin (readable (S.state_of store.now) tree.fs.number) moved.now.old.slot }
    requires new { IfOk place (IsWithinBlocks (readable (S.state_of store.now) tree.fs.number)) }
    ensures { result ≡ rename_in (S.state_of store.now) tree memory.now moved.now directory new_directory place replaced }
{
    if has_to_wait(store, tree, memory, directory, new_directory) {
        return Err(Fault::Full);
    }
    let naming = find_naming(store, tree, moved.directory, place, replaced)?;
    linked_in_room(store, tree, memory, moved, new_directory, naming)
}

/// Whether a record leads to an inode.
fn leads_to(taken: Option<Slot>, number: u32) -> bool
    ensures { result ≡ leads_to taken number }
{
    match taken {
        Some(slot) => slot.number == number,
        None => false,
    }
}

/// What a move takes to a name that leads elsewhere, or nowhere.
fn plan_move<S: Store>(
    store: &S,
    tree: Tree,
    memory: &Memory,
    moved: &Moved,
    directory: u32,
    new_directory: u32,
    new_name: &[u8],
    found: &LookedUp,
) -> Result<Option<RenamePlan>, Fault>
    requires old { IsWithin (readable (S.state_of store.now) tree.fs.number) moved.now.old.slot }
    requires new { IfOk found.now.place (IsWithinBlocks (readable (S.state_of store.now) tree.fs.number)) }
    requires place { found.now.place ≡ place_in (S.state_of store.now) tree.fs.number tree.top new_directory new_name.now }
    ensures { IsMovePlanned (S.state_of store.now) tree memory.now moved.now directory new_directory new_name.now found.now.taken result }
{
    let kind = moved.old.inode.kind;
    let taken = found.taken;
    let replaced = find_taken_end(store, tree, memory, kind, new_directory, new_name, taken)?;
    match rename_in(
        store,
        tree,
        memory,
        moved,
        directory,
        new_directory,
        found.place,
        replaced,
    ) {
        Ok(plan) => Ok(Some(plan)),
        Err(fault) => Err(fault),
    }
}

/// What a move takes to a name that was looked up; `None` where that leads to the same inode.
fn plan_found<S: Store>(
    store: &S,
    tree: Tree,
    memory: &Memory,
    moved: &Moved,
    directory: u32,
    new_directory: u32,
    new_name: &[u8],
    found: &LookedUp,
) -> Result<Option<RenamePlan>, Fault>
    requires old { IsWithin (readable (S.state_of store.now) tree.fs.number) moved.now.old.slot }
    requires new { IfOk found.now.place (IsWithinBlocks (readable (S.state_of store.now) tree.fs.number)) }
    requires place { found.now.place ≡ place_in (S.state_of store.now) tree.fs.number tree.top new_directory new_name.now }
    ensures { MatchBool (leads_to found.now.taken moved.now.old.slot.number) (result ≡ Ok None)
        (IsMovePlanned (S.state_of store.now) tree memory.now moved.now directory new_directory new_name.now found.now.taken result) }
{
    if leads_to(found.taken, moved.old.slot.number) {
        return Ok(None);
    }
    plan_move(
        store,
        tree,
        memory,
        moved,
        directory,
        new_directory,
        new_name,
        found,
    )
}

/// What it takes that a name of a directory moves to another one, maybe of another directory; `None` where that leads to the same inode, and nothing is
/// done. The faults are those of both directories, `BadName`, `NoEntry`, and `Cycle` where a directory would stand below itself. Then, of what has
/// the new name, `IsDir` and `NotDir` where only one of both is a directory, `NotEmpty`, and `Full` where something has to be written before it ends.
/// Then `Full` where a directory that was made or moved has to be written before a name moves to another directory, `Full` or `TooLarge` where there is
/// no place for the new name, `TooLarge` where the inode has 2^32 - 1 links and needs one more, and `Full` where there is no room.
pub fn plan_rename<S: Store>(
    store: &S,
    tree: Tree,
    memory: &Memory,
    directory: u32,
    name: &[u8],
    new_directory: u32,
    new_name: &[u8],
) -> Result<Option<RenamePlan>, Fault>
    ensures planned { IsRenamePlanned (S.state_of store.now) tree memory.now directory name.now new_directory new_name.now result }
    ensures short { OnOk result (length new_name.now ≤ 255) }
{
    let moved = find_moved(store, tree, directory, name, new_directory, new_name)?;
    let found = look_up(store, tree, new_directory, new_name)?;
    plan_found(
        store,
        tree,
        memory,
        &moved,
        directory,
        new_directory,
        new_name,
        &found,
    )
}
