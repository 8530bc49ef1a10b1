// The passes by which a volume that was not closed is mended.

ghost use Rattle.std.specs.Prelude.{◌≡◌};
ghost use Rattle.treefs_mounts.specs.Passes.{FreesUnnamed, MendsFrom, MendsInodes, MendsOne, MendsTable, PassDoes};

use std::alloc::Global;
use treefs::Volume;
use treefs_edits::lacks_memory;
use treefs_mending::{
    Directory, Numbered, Tally, find_orphans, mend_inode, mend_names, next_inode, plan_inode,
    rewrite_buckets, survey_names,
};
use treefs_model::Fault;
use xn_state::Store;

/// A pass over a volume.
#[derive(Clone, Copy)]
pub enum Pass {
    /// Names that are one too many end.
    Names,
    /// Buckets, links, parents and contents become what the names say, and inodes that no name leads to are freed.
    Inodes,
}

/// Gives an inode the links and the parent that its names say, and trims it.
fn mend_one<S: Store>(
    alloc: Global,
    store: &mut S,
    volume: &Volume,
    tallies: &[Tally],
    numbered: Numbered,
) -> Result<(), Fault>
    ensures types { S.types_of store.new ≡ S.types_of store.old }
    ensures does { MendsOne (S.types_of store.old) volume.now tallies.now numbered (S.state_of store.old) (S.state_of store.new) result }
{
    let plan = plan_inode(tallies, numbered.number, &numbered.inode);
    if let Err(fault) = mend_inode(alloc, store, volume.tree, &volume.memory, plan) {
        return Err(fault);
    }
    volume.trim(alloc, store, numbered.number)
}

/// Mends each inode, numbers rising.
fn mend_each<S: Store>(
    alloc: Global,
    store: &mut S,
    volume: &Volume,
    tallies: &[Tally],
) -> Result<(), Fault>
    ensures types { S.types_of store.new ≡ S.types_of store.old }
    ensures does { MendsFrom (S.types_of store.old) volume.now tallies.now 1 (S.state_of store.old) (S.state_of store.new) result }
{
    let mut from = 1;
    while let Some(numbered) = next_inode(store, volume.tree, from) {
        if let Err(fault) = mend_one(alloc, store, volume, tallies, numbered) {
            return Err(fault);
        }
        from = numbered.number + 1;
    }
    Ok(())
}

/// Rewrites the buckets of directories that have dead records, and mends each inode.
fn mend_table<S: Store>(
    alloc: Global,
    store: &mut S,
    volume: &Volume,
    directories: &[Directory],
    tallies: &[Tally],
) -> Result<(), Fault>
    ensures types { S.types_of store.new ≡ S.types_of store.old }
    ensures does { MendsTable (S.types_of store.old) volume.now directories.now tallies.now (S.state_of store.old) (S.state_of store.new) result }
{
    if let Err(fault) = rewrite_buckets(alloc, store, volume.tree, &volume.memory, directories) {
        return Err(fault);
    }
    mend_each(alloc, store, volume, tallies)
}

/// Frees the inodes that no name leads to.
fn free_unnamed<S: Store>(
    alloc: Global,
    store: &mut S,
    volume: &mut Volume,
    tallies: &[Tally],
) -> Result<(), Fault>
    ensures types { S.types_of store.new ≡ S.types_of store.old }
    ensures does { FreesUnnamed (S.types_of store.old) (S.state_of store.old) (S.state_of store.new) volume.old volume.new tallies.now result }
{
    let orphans = match find_orphans(alloc, store, volume.tree, tallies) {
        Ok(orphans) => orphans,
        Err(error) => return Err(lacks_memory(error)),
    };
    volume.reap(alloc, store, &orphans)
}

/// Mends the inodes by the names that there are, and frees those that no name leads to.
fn mend_inodes<S: Store>(alloc: Global, store: &mut S, volume: &mut Volume) -> Result<(), Fault>
    ensures types { S.types_of store.new ≡ S.types_of store.old }
    ensures does { MendsInodes (S.types_of store.old) (S.state_of store.old) (S.state_of store.new) volume.old volume.new result }
{
    let survey = match survey_names(alloc, store, volume.tree) {
        Ok(survey) => survey,
        Err(error) => return Err(lacks_memory(error)),
    };
    if let Err(fault) = mend_table(alloc, store, volume, &survey.directories, &survey.tallies) {
        return Err(fault);
    }
    free_unnamed(alloc, store, volume, &survey.tallies)
}

/// Makes a pass. `Full` comes where an edit has no room: once what is pending is written the pass is made again, as it goes by what the blocks say. `Kernel`
/// comes for want of memory, or where the store refuses an edit.
pub fn make_pass<S: Store>(
    alloc: Global,
    store: &mut S,
    volume: &mut Volume,
    pass: Pass,
) -> Result<(), Fault>
    ensures types { S.types_of store.new ≡ S.types_of store.old }
    ensures does { PassDoes pass (S.types_of store.old) (S.state_of store.old) (S.state_of store.new) volume.old volume.new result }
{
    match pass {
        Pass::Names => mend_names(alloc, store, volume.tree, &volume.memory),
        Pass::Inodes => mend_inodes(alloc, store, volume),
    }
}
