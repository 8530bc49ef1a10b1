// The other name of an inode behind which a name ends.

ghost use Rattle.std.specs.Prelude.{◌≡◌, None};
ghost use Rattle.treefs_name_plans.specs.Ends.{IsOther, IsOtherBucket, behind_other, ends_alone};

use crate::ended::Ended;
use treefs_edits::{Memory, Tree};
use treefs_lookup::{Sought, next_bucket};
use treefs_model::Fault;
use xn_state::Store;

/// Whether a name may end without another one of its inode that is surely there.
fn ends_alone<S: Store>(store: &S, tree: Tree, memory: &Memory, ended: &Ended) -> bool
    ensures { result ≡ ends_alone (S.state_of store.now) tree.fs.number memory.now ended.now }
{
    ended.inode.fields.links < 2 || memory.last_link < store.floor(tree.fs)
}

/// The block behind which a name ends whose other name stands in a block: `None` where that is its own.
fn behind_other(block: u32, other: u32) -> Option<u32>
    ensures { result ≡ behind_other block other }
{
    if other == block { None } else { Some(other) }
}

/// The block of another name of an inode in the directory of one that is to end; `None` where it stands in that one's block. The fault is
/// `Full`, where the directory has no other.
fn find_other<S: Store>(store: &S, tree: Tree, ended: &Ended) -> Result<Option<u32>, Fault>
    ensures { IsOtherBucket (S.state_of store.now) tree.fs.number ended.now result }
{
    let sought = Sought::Other(ended.slot);
    match next_bucket(store, tree.fs, ended.directory, sought, 0) {
        Some(bucket) => Ok(behind_other(ended.slot.block, bucket.block)),
        None => Err(Fault::Full),
    }
}

/// The block of the other name behind which a name ends, if it has to. The fault is `Full`.
pub fn find_behind<S: Store>(
    store: &S,
    tree: Tree,
    memory: &Memory,
    ended: &Ended,
) -> Result<Option<u32>, Fault>
    ensures { IsOther (S.state_of store.now) tree.fs.number memory.now ended.now result }
{
    if ends_alone(store, tree, memory, ended) {
        return Ok(None);
    }
    find_other(store, tree, ended)
}
