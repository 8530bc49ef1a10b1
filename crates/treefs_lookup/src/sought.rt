// Buckets of a directory that have something.

ghost use Rattle.std.specs.Prelude.{◌≡◌, ◌+◌, ◌≤◌, MatchOption, length};
ghost use Rattle.treefs_format.specs.Paths.{leaf_count};
ghost use Rattle.treefs_lookup.specs.Readable.{readable};
ghost use Rattle.treefs_lookup.specs.Sought.{AreNotThere, AreWithout, IsNextBucket, IsNextThere, has_live, has_other, has_sought};

use crate::bucket::Bucket;
use crate::buckets::read_bucket;
use crate::leaves::next_leaf;
use crate::names::Slot;
use edit_list::Fs;
use treefs_format::Records;
use treefs_format::buckets::other_record;
use xn_state::Store;

/// What a bucket is looked for.
#[derive(Clone, Copy)]
pub enum Sought {
    /// A live record.
    Live,
    /// A record of the same number as this one that stands elsewhere.
    Other(Slot),
    /// Something that is pending in its block.
    Pending,
}

/// Whether a bucket has a live record.
fn has_live(bucket: &[u8]) -> bool
    requires { length bucket.now ≤ 512 }
    ensures { result ≡ has_live bucket.now }
{
    Records::new(bucket).any(|record| record.number != 0)
}

/// Whether a bucket has a record of the number of a slot that stands elsewhere.
fn has_other(bucket: &Bucket, slot: &Slot) -> bool
    ensures { result ≡ has_other slot.now bucket.now.block bucket.now.start bucket.now.bytes.now }
{
    let place = if bucket.block == slot.block && bucket.start <= slot.offset {
        slot.offset - bucket.start
    } else {
        bucket.bytes.len()
    };
    other_record(bucket.bytes, slot.number, place).is_some()
}

/// Whether a bucket has what is sought.
fn has_sought<S: Store>(store: &S, sought: Sought, bucket: &Bucket) -> bool
    ensures { result ≡ has_sought (S.state_of store.now) sought bucket.now.block bucket.now.start bucket.now.bytes.now }
{
    match sought {
        Sought::Live => has_live(bucket.bytes),
        Sought::Other(slot) => has_other(bucket, &slot),
        Sought::Pending => store.newest_entry(bucket.block).is_some(),
    }
}

/// The first bucket at or past one that is there.
fn next_there<S: Store>(store: &S, fs: Fs, inode: u32, from: u32) -> Option<u32>
    ensures { MatchOption result (AreNotThere (readable (S.state_of store.now) fs.number) inode from (leaf_count + 1))
        (IsNextThere (readable (S.state_of store.now) fs.number) inode from) }
{
    if from == 0 && inode != 0 {
        return Some(0);
    }
    match next_leaf(store, fs, inode, from.saturating_sub(1)) {
        Some(leaf) => Some(leaf.number + 1),
        None => None,
    }
}

/// The first bucket at or past one that is there and has what is sought, of the directory with this inode block. So where no bucket from 0 on has
/// a live record, a directory is empty; a call of `readdir` tells those of the first bucket at or past its cursor that has any.
pub fn next_bucket<S: Store>(
    store: &S,
    fs: Fs,
    inode: u32,
    sought: Sought,
    from: u32,
) -> Option<Bucket<'_>>
    ensures { MatchOption result (AreWithout (S.state_of store.now) fs.number inode sought from (leaf_count + 1))
        (IsNextBucket (S.state_of store.now) fs.number inode sought from) }
{
    let mut next = from;
    while let Some(number) = next_there(store, fs, inode, next) {
        let bucket = read_bucket(store, fs, inode, number);
        if has_sought(store, sought, &bucket) {
            return Some(bucket);
        }
        next = number + 1;
    }
    None
}
