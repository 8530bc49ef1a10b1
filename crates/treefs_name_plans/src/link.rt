// How an inode gets one more name.

ghost use Rattle.std.specs.Prelude.{◌≡◌, ◌≤◌, length, IfOk, OnOk};
ghost use Rattle.treefs_lookup.specs.Readable.{readable};
ghost use Rattle.treefs_name_plans.specs.LinkPlans.{holder_of, link_in_room, link_planned, linkable, more_links};

use crate::addition::Addition;
use crate::link_change::LinkChange;
use crate::link_plan::LinkPlan;
use crate::new_names::{addition_parts, find_addition, find_free_name};
use treefs_edits::{Memory, Times, Tree, has_room, have_room};
use treefs_format::paths::LEAVES;
use treefs_format::roots::inode_leaf;
use treefs_lookup::{Found, find_directory, find_file, find_holder};
use treefs_model::Fault;
use xn_state::Store;

/// A file or a symbolic link with a link. The faults are `NoEntry`, `IsDir`, and `NoEntry` where it has no link.
fn find_linkable<S: Store>(store: &S, tree: Tree, number: u32) -> Result<Found, Fault>
    ensures { result ≡ linkable (readable (S.state_of store.now) tree.fs.number) tree.top number }
{
    let inode = find_file(store, tree.fs, tree.top, number)?;
    if inode.fields.links == 0 {
        return Err(Fault::NoEntry);
    }
    Ok(inode)
}

/// The block that has the pointer to an inode; of a number that is none, inode 0.
pub fn find_holder_of<S: Store>(store: &S, tree: Tree, number: u32) -> u32
    ensures { result ≡ holder_of (readable (S.state_of store.now) tree.fs.number) tree.top number }
{
    if number == 0 || number > LEAVES {
        return tree.top;
    }
    find_holder(store, tree.fs, tree.top, inode_leaf(number)).block
}

/// What becomes of an inode that gets one more name. The fault is `TooLarge` where it has 2^32 - 1 links.
pub fn more_links(memory: &Memory, number: u32, inode: &Found) -> Result<LinkChange, Fault>
    ensures { result ≡ more_links memory.now number inode.now }
{
    let times = Times {
        mtime: inode.fields.mtime,
        ctime: inode.fields.ctime,
    };
    if inode.fields.links == u32::MAX {
        return Err(Fault::TooLarge);
    }
    Ok(LinkChange {
        block: inode.block,
        links: inode.fields.links + 1,
        times: Some(memory.newest_times(number, times)),
        parent: None,
    })
}

/// What one more name of a file takes. The faults are those of the directory, then of the inode `NoEntry`, `IsDir`, and `NoEntry` where it has no
/// link, then `BadName`, `Exists`, `Full` or `TooLarge` where there is no place for the name, `TooLarge` where the inode has 2^32 - 1 links, and
/// `Full` where there is no room.
pub fn plan_link<S: Store>(
    store: &S,
    tree: Tree,
    memory: &Memory,
    number: u32,
    directory: u32,
    name: &[u8],
) -> Result<LinkPlan, Fault>
    ensures planned { result ≡ link_planned (S.state_of store.now) tree memory.now number directory name.now }
    ensures short { OnOk result (length name.now ≤ 255) }
{
    let _ = find_directory(store, tree.fs, tree.top, directory)?;
    let inode = find_linkable(store, tree, number)?;
    let free = find_free_name(store, tree, directory, name)?;
    let addition = find_addition(store, tree, free.directory, free.place)?;
    let more = more_links(memory, number, &inode)?;
    link_in_room(store, tree, memory, number, free.directory, addition, more)
}

/// What one more name of an inode takes, where there is room for it; else the fault is `Full`.
fn link_in_room<S: Store>(
    store: &S,
    tree: Tree,
    memory: &Memory,
    number: u32,
    directory: u32,
    addition: Addition,
    more: LinkChange,
) -> Result<LinkPlan, Fault>
    ensures { result ≡ link_in_room (S.state_of store.now) tree memory.now number directory addition more }
{
    let parts = addition_parts(&addition, directory);
    let room = has_room(store, tree.fs, memory.touched.len(), 20, &parts)
        && have_room(store, &[(more.block, 2)]);
    if !room {
        return Err(Fault::Full);
    }
    Ok(LinkPlan {
        number,
        holder: find_holder_of(store, tree, number),
        more,
        directory,
        addition,
    })
}
