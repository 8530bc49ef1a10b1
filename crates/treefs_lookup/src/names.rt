// Where names stand in directories.

ghost use Rattle.std.specs.Prelude.{◌≡◌, [], MatchOption};
ghost use Rattle.treefs_lookup.specs.Names.{entry_found, slot_named};
ghost use Rattle.treefs_lookup.specs.Readable.{readable};
ghost use Rattle.treefs_model.specs.Reading.{key_in};

use crate::blocks::read_block;
use crate::buckets::read_candidate;
use crate::inodes::find_directory;
use edit_list::Fs;
use treefs_format::buckets::live_record;
use treefs_format::law::records_stand_in_buckets;
use treefs_format::{LEVELS, inodes, is_name, name_hash, roots};
use treefs_model::Fault;
use xn_state::Store;

/// Where a live record stands.
#[derive(Clone, Copy)]
pub struct Slot {
    /// The block of its bucket.
    pub block: u32,
    /// The byte of the block at which it begins.
    pub offset: usize,
    /// The number to which it leads.
    pub number: u32,
}

/// The key of the names' hash, which inode 0 says; `None` where its block may not be read.
pub fn read_key<S: Store>(store: &S, fs: Fs, top: u32) -> Option<[u8; 16]>
    ensures { MatchOption result (readable (S.state_of store.now) fs.number top ≡ []) (λ key. key ≡ key_in (readable (S.state_of store.now) fs.number) top) }
{
    match read_block(store, fs, top) {
        Some(block) => Some(roots::key(inodes::content(block))),
        None => None,
    }
}

/// Where the live record of a name stands in the directory with this inode block.
pub fn find_name<S: Store>(
    store: &S,
    fs: Fs,
    key: &[u8; 16],
    inode: u32,
    name: &[u8],
) -> Option<Slot>
    ensures { result ≡ slot_named (readable (S.state_of store.now) fs.number) key.now inode name.now }
{
    records_stand_in_buckets();
    let hash = name_hash(key, name);
    for level in 0..LEVELS {
        let bucket = read_candidate(store, fs, inode, hash, level);
        if let Some(record) = live_record(bucket.bytes, name) {
            return Some(Slot {
                block: bucket.block,
                offset: bucket.start + record.offset,
                number: record.number,
            });
        }
    }
    None
}

/// Where the live record of a name stands in the directory of a number. The faults are those of the directory, `BadName`, and `NoEntry`.
pub fn find_entry<S: Store>(
    store: &S,
    fs: Fs,
    top: u32,
    directory: u32,
    name: &[u8],
) -> Result<Slot, Fault>
    ensures { result ≡ entry_found (readable (S.state_of store.now) fs.number) top directory name.now }
{
    let found = find_directory(store, fs, top, directory)?;
    if !is_name(name) {
        return Err(Fault::BadName);
    }
    let Some(key) = read_key(store, fs, top) else {
        return Err(Fault::NoEntry);
    };
    match find_name(store, fs, &key, found.block, name) {
        Some(slot) => Ok(slot),
        None => Err(Fault::NoEntry),
    }
}
