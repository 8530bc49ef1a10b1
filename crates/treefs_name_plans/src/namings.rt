// What it takes that a name comes to lead to an inode.

ghost use Rattle.std.specs.Prelude.{◌≡◌, ◌≤◌, ◌++◌, length, IfOk};
ghost use Rattle.treefs_lookup.specs.Readable.{readable};
ghost use Rattle.treefs_name_plans.specs.Ends.{IsWithin};
ghost use Rattle.treefs_name_plans.specs.NewNames.{IsWithinBlocks};
ghost use Rattle.treefs_name_plans.specs.Namings.{IsReplaceable, if_written, naming_acts, naming_block, naming_ends, naming_for, naming_parts, naming_rewriting, naming_starts};

use crate::addition::Addition;
use crate::ended::Ended;
use crate::endings::name_end;
use crate::making::last_block;
use crate::name_end::{NameEnd, push_number};
use crate::naming::Naming;
use crate::new_names::{addition_parts, find_addition};
use crate::other_names::find_behind;
use std::alloc::{AllocError, Global};
use treefs_edits::{Act, Memory, Start, Tree};
use treefs_lookup::NamePlace;
use treefs_model::Fault;
use xn_state::Store;

/// Where the record of a name stands in the directory with this inode block, by the place that was found for a new one. The faults are `Full`, and
/// `TooLarge`.
pub fn find_naming<S: Store>(
    store: &S,
    tree: Tree,
    directory: u32,
    place: Result<NamePlace, Fault>,
    replaced: Option<NameEnd>,
) -> Result<Naming, Fault>
    requires { IfOk place (IsWithinBlocks (readable (S.state_of store.now) tree.fs.number)) }
    ensures { result ≡ naming_for (readable (S.state_of store.now) tree.fs.number) tree.node_type directory place replaced }
{
    match replaced {
        Some(end) => Ok(Naming::Replaced(end)),
        None => {
            let addition = find_addition(store, tree, directory, place)?;
            Ok(Naming::Added(addition))
        }
    }
}

/// The end of a name of which another one stands in a block; the fault is `Full` where something is pending there.
fn if_written<S: Store>(store: &S, end: NameEnd, other: Option<u32>) -> Result<NameEnd, Fault>
    ensures { result ≡ if_written (S.state_of store.now) end other }
{
    match other {
        Some(block) if store.newest_entry(block).is_some() => Err(Fault::Full),
        Some(_) | None => Ok(end),
    }
}

/// The end of a file's name that is replaced. The fault is `Full`.
pub fn find_replaceable<S: Store>(
    store: &S,
    tree: Tree,
    memory: &Memory,
    ended: &Ended,
) -> Result<NameEnd, Fault>
    requires { IsWithin (readable (S.state_of store.now) tree.fs.number) ended.now.slot }
    ensures { IsReplaceable (S.state_of store.now) tree.fs.number memory.now ended.now result }
{
    let other = find_behind(store, tree, memory, ended)?;
    if_written(store, name_end(store, tree, memory, ended), other)
}

impl Naming {
    /// Adds the blocks that are begun for it.
    pub(crate) fn push_starts(&self, starts: &mut Vec<Start>) -> Result<(), AllocError>
        ensures { IfOk result (λ _. starts.new.items ≡ starts.old.items ++ naming_starts self.now) }
    {
        match self {
            Naming::Added(addition) => addition.push_starts(starts),
            Naming::Replaced(_) => Ok(()),
        }
    }

    /// Adds the act by which a bucket is first rewritten.
    pub(crate) fn push_rewriting(
        &self,
        alloc: Global,
        acts: &mut Vec<Act>,
    ) -> Result<(), AllocError>
        ensures { IfOk result (λ _. acts.new.items ≡ acts.old.items ++ naming_rewriting self.now) }
    {
        match self {
            Naming::Added(addition) => addition.push_rewriting(alloc, acts),
            Naming::Replaced(_) => Ok(()),
        }
    }

    /// Adds the acts after which the name leads to an inode, behind all of a block.
    pub(crate) fn push_acts(
        &self,
        alloc: Global,
        acts: &mut Vec<Act>,
        begun: &[u32],
        number: u32,
        name: &[u8],
        behind: u32,
    ) -> Result<(), AllocError>
        requires { length name.now ≤ 255 }
        ensures { IfOk result (λ _. acts.new.items ≡ acts.old.items ++ naming_acts self.now begun.now (record { number = number; name = name.now }) behind) }
    {
        match self {
            Naming::Added(addition) => addition.push_acts(alloc, acts, begun, number, name, behind),
            Naming::Replaced(end) => {
                push_number(alloc, acts, end.block, end.offset, number, Some(behind))
            }
        }
    }

    /// Adds the act by which what is replaced gets a link fewer.
    pub(crate) fn push_ends(&self, alloc: Global, acts: &mut Vec<Act>) -> Result<(), AllocError>
        ensures { IfOk result (λ _. acts.new.items ≡ acts.old.items ++ naming_ends self.now) }
    {
        match self {
            Naming::Added(_) => Ok(()),
            Naming::Replaced(end) => end.fewer.push_act(alloc, acts, end.block),
        }
    }

    /// The block of the record, where these blocks were begun for it.
    pub(crate) fn block(&self, begun: &[u32]) -> u32
        ensures { result ≡ naming_block self.now begun.now }
    {
        match self {
            Naming::Added(Addition::Behind(block, _)) => *block,
            Naming::Added(Addition::Rewritten(old)) => old.block,
            Naming::Added(Addition::Made(_)) => last_block(begun),
            Naming::Replaced(end) => end.block,
        }
    }

    /// In which blocks how many entries may come to be pending for it, in the directory with this inode block.
    pub(crate) fn parts(&self, directory: u32) -> [(u32, u32); 2]
        ensures { result ≡ naming_parts self.now directory }
    {
        match self {
            Naming::Added(addition) => addition_parts(addition, directory),
            Naming::Replaced(end) => [(end.block, 2), (end.fewer.block, 1)],
        }
    }
}
