// What is to change of an inode, by the names that lead to it.

ghost use Rattle.std.specs.Prelude.{◌≡◌, ◌++◌, IfOk, Ok, length};
ghost use Rattle.treefs_mending.specs.InRoom.{DoesActs};
ghost use Rattle.treefs_mending.specs.Inodes.{if_other, inode_acts, inode_plan, links_change, links_wanted, parent_change, parent_changes, parent_wanted};

use crate::in_room::make_all_in_room;
use crate::tally::{Tally, tally_at};
use std::alloc::{AllocError, Global};
use treefs_edits::{Act, Memory, Tree, kinds, lacks_memory};
use treefs_format::{Change, Kind};
use treefs_lookup::Found;
use treefs_model::Fault;
use xn_state::Store;

/// What is to change of an inode.
#[derive(Clone, Copy)]
pub struct InodePlan {
    /// The block of the inode.
    pub block: u32,
    /// How many links it is to have, where it has others.
    pub links: Option<u32>,
    /// The directory in which it is to stand, where it says another.
    pub parent: Option<u32>,
}

/// How many links the inode of a number is to have: one for each name, and inode 1 has one.
fn links_wanted(tallies: &[Tally], number: u32) -> u32
    ensures { result ≡ links_wanted tallies.now number }
{
    if number == 1 {
        1
    } else {
        tally_at(tallies, number).names
    }
}

/// The directory in which the directory of a number is to stand, if a name leads to it; inode 1 stands in itself.
fn parent_wanted(tallies: &[Tally], number: u32) -> Option<u32>
    ensures { result ≡ parent_wanted tallies.now number }
{
    if number == 1 {
        return Some(1);
    }
    let tally = tally_at(tallies, number);
    if tally.names == 0 {
        None
    } else {
        Some(tally.directory)
    }
}

/// What is wanted, where something else is there.
fn if_other(now: u32, wanted: u32) -> Option<u32>
    ensures { result ≡ if_other now wanted }
{
    if now == wanted { None } else { Some(wanted) }
}

/// The directory in which the inode of a number is to stand, where it is a directory and says another.
fn parent_change(tallies: &[Tally], number: u32, inode: &Found) -> Option<u32>
    ensures { result ≡ parent_change tallies.now number inode.now inode.now.kind }
{
    match inode.kind {
        Kind::Directory => match parent_wanted(tallies, number) {
            Some(wanted) => if_other(inode.fields.parent, wanted),
            None => None,
        },
        Kind::File | Kind::SymbolicLink => None,
    }
}

/// What is to change of the inode of a number, by the names that lead to it.
pub fn plan_inode(tallies: &[Tally], number: u32, inode: &Found) -> InodePlan
    ensures { result ≡ inode_plan tallies.now number inode.now }
{
    InodePlan {
        block: inode.block,
        links: if_other(inode.fields.links, links_wanted(tallies, number)),
        parent: parent_change(tallies, number, inode),
    }
}

/// Adds the act by which the links of an inode change, if they are to.
fn push_links(
    alloc: Global,
    acts: &mut Vec<Act>,
    block: u32,
    links: Option<u32>,
) -> Result<(), AllocError>
    ensures { IfOk result (λ _. acts.new.items ≡ acts.old.items ++ links_change block links) }
{
    if let Some(links) = links {
        acts.push(kinds::change_links(alloc, block, links, None, None, None)?)?;
    }
    Ok(())
}

/// Adds the act by which the parent of a directory changes, if it is to.
fn push_parent(
    alloc: Global,
    acts: &mut Vec<Act>,
    block: u32,
    parent: Option<u32>,
) -> Result<(), AllocError>
    ensures { IfOk result (λ _. acts.new.items ≡ acts.old.items ++ parent_changes block parent) }
{
    if let Some(parent) = parent {
        acts.push(kinds::change_fields(alloc, block, &[Change::Parent(parent)], None)?)?;
    }
    Ok(())
}

/// The acts of a plan, the links first. `Err` comes only for want of memory.
fn inode_acts(alloc: Global, plan: InodePlan) -> Result<Vec<Act>, AllocError>
    ensures { IfOk result (λ acts. acts.items ≡ inode_acts plan) }
{
    let mut acts = Vec::new(alloc);
    push_links(alloc, &mut acts, plan.block, plan.links)?;
    push_parent(alloc, &mut acts, plan.block, plan.parent)?;
    Ok(acts)
}

/// Changes an inode as was planned. `Full` comes where an edit has no room, `Kernel` for want of memory, or where the store refuses one.
pub fn mend_inode<S: Store>(
    alloc: Global,
    store: &mut S,
    tree: Tree,
    memory: &Memory,
    plan: InodePlan,
) -> Result<(), Fault>
    ensures types { S.types_of store.new ≡ S.types_of store.old }
    ensures does { DoesActs (S.types_of store.old) tree.fs.number (length memory.now.touched) (Ok (inode_acts plan)) (S.state_of store.old)
        (S.state_of store.new) result }
{
    match inode_acts(alloc, plan) {
        Ok(acts) => make_all_in_room(store, tree, memory, acts),
        Err(error) => Err(lacks_memory(error)),
    }
}
