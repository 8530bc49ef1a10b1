// The buckets of a directory.

ghost use Rattle.std.specs.Prelude.{◌≡◌, ◌<◌, ◌≤◌, ◌==◌, [], length, if◌then◌else◌};
ghost use Rattle.treefs_format.specs.Candidates.{candidate};
ghost use Rattle.treefs_format.specs.Inodes.{content_of};
ghost use Rattle.treefs_format.specs.Paths.{leaf_count};
ghost use Rattle.treefs_lookup.specs.Buckets.{IsBucket};
ghost use Rattle.treefs_lookup.specs.Readable.{readable};

use crate::blocks::read_block;
use crate::bucket::Bucket;
use crate::paths::leaf_block;
use edit_list::Fs;
use treefs_format::inodes::{CONTENT, content};
use treefs_format::law::levels_are_apart;
use treefs_format::{LEVELS, candidate};
use xn_state::Store;

/// The first 384 bytes of the content of an inode.
fn content_bytes<S: Store>(store: &S, fs: Fs, inode: u32) -> &[u8]
    ensures bytes { result.now ≡ content_of (readable (S.state_of store.now) fs.number inode) }
    ensures long { length result.now ≤ 384 }
{
    match read_block(store, fs, inode) {
        Some(block) => content(block),
        None => &[],
    }
}

/// The bytes of a leaf, none of one that is not there.
fn leaf_bytes<S: Store>(store: &S, fs: Fs, block: u32) -> &[u8]
    ensures bytes { result.now ≡ (if block == 0 then [] else readable (S.state_of store.now) fs.number block) }
    ensures long { length result.now ≤ 512 }
{
    if block == 0 {
        return &[];
    }
    match read_block(store, fs, block) {
        Some(bytes) => bytes,
        None => &[],
    }
}

/// A bucket of the directory with this inode block.
pub fn read_bucket<S: Store>(store: &S, fs: Fs, inode: u32, number: u32) -> Bucket<'_>
    requires { number ≤ leaf_count }
    ensures { IsBucket (readable (S.state_of store.now) fs.number) inode number result }
{
    if number == 0 {
        return Bucket {
            number,
            block: inode,
            start: CONTENT,
            bytes: content_bytes(store, fs, inode),
        };
    }
    let block = leaf_block(store, fs, inode, number - 1);
    Bucket {
        number,
        block,
        start: 0,
        bytes: leaf_bytes(store, fs, block),
    }
}

/// The candidate of a level, 0 to 8, for a name with this hash.
pub(crate) fn read_candidate<S: Store>(
    store: &S,
    fs: Fs,
    inode: u32,
    hash: u64,
    level: u32,
) -> Bucket<'_>
    requires { level < LEVELS }
    ensures { IsBucket (readable (S.state_of store.now) fs.number) inode (candidate hash level) result }
{
    levels_are_apart();
    read_bucket(store, fs, inode, candidate(hash, level))
}
