// Where new names go.

ghost use Rattle.std.specs.Prelude.{◌≡◌, ◌+◌, ◌≤◌, ◌||◌, length};
ghost use Rattle.std.specs.Option.{option_or};
ghost use Rattle.treefs_format.specs.Buckets.{live_entries};
ghost use Rattle.treefs_format.specs.Records.{end_of, total_length};
ghost use Rattle.treefs_format.specs.Candidates.{name_hash};
ghost use Rattle.treefs_lookup.specs.Names.{dead_of_bucket, dead_place, fits_behind, fits_without, free_or_fault, free_place, place_of};
ghost use Rattle.treefs_lookup.specs.Names.{room_in, room_of, slot_named, slot_of_bucket};
ghost use Rattle.treefs_lookup.specs.Readable.{readable};
ghost use Rattle.xn_model.specs.PendingIn.{newest_entry_of};

use crate::bucket::Bucket;
use crate::buckets::read_candidate;
use crate::names::Slot;
use edit_list::Fs;
use treefs_format::buckets::{Looked, RecordLengths, look_for};
use treefs_format::law::records_stand_in_buckets;
use treefs_format::records::RECORD_HEAD;
use treefs_format::{LEVELS, name_hash};
use treefs_model::Fault;
use xn_state::Store;

/// Where a new name goes in a directory.
#[derive(Clone, Copy)]
pub enum NamePlace {
    /// Into its own dead record, which begins at this byte of the block.
    DeadRecord {
        block: u32,
        offset: usize,
    },
    /// Behind the records of a bucket, at this byte of its block.
    Behind {
        block: u32,
        offset: usize,
    },
    /// Behind the live records of a bucket, at this byte of its block, once the bucket, which begins at byte `start`, is rewritten without the dead
    /// ones. Nothing is pending in the block.
    Rewritten {
        block: u32,
        start: usize,
        offset: usize,
    },
    /// Into this bucket, which has to be made.
    NewBucket {
        bucket: u32,
    },
}

/// Whether a bucket with records of these lengths would have room for a new name, were it without its dead ones.
fn fits_without(bucket: &Bucket, lengths: RecordLengths, name: &[u8]) -> bool
    requires live { lengths.live ≡ total_length (live_entries bucket.now.bytes.now) }
    ensures { result ≡ fits_without bucket.now.bytes.now name.now }
{
    RECORD_HEAD + name.len() <= bucket.bytes.len().saturating_sub(lengths.live)
}

/// The place for a new name in a bucket that is there, with records of these lengths.
fn find_room<S: Store>(
    store: &S,
    bucket: &Bucket,
    lengths: RecordLengths,
    name: &[u8],
) -> Option<NamePlace>
    requires all { lengths.all ≡ end_of bucket.now.bytes.now }
    requires all_within { lengths.all ≤ length bucket.now.bytes.now }
    requires live { lengths.live ≡ total_length (live_entries bucket.now.bytes.now) }
    requires live_within { lengths.live ≤ length bucket.now.bytes.now }
    ensures { result ≡ room_in bucket.now.bytes.now bucket.now.block bucket.now.start (newest_entry_of (S.state_of store.now) bucket.now.block) name.now }
{
    let Bucket {
        block,
        start,
        bytes,
        ..
    } = *bucket;
    if RECORD_HEAD + name.len() <= bytes.len() - lengths.all {
        return Some(NamePlace::Behind {
            block,
            offset: start + lengths.all,
        });
    }
    if fits_without(bucket, lengths, name) && store.newest_entry(block).is_none() {
        return Some(NamePlace::Rewritten {
            block,
            start,
            offset: start + lengths.live,
        });
    }
    None
}

/// The place for a new name in a bucket with records of these lengths, or the bucket itself where it is not there.
#[inline(always)]
fn find_room_or_new<S: Store>(
    store: &S,
    bucket: &Bucket,
    lengths: RecordLengths,
    name: &[u8],
) -> Option<NamePlace>
    requires all { lengths.all ≡ end_of bucket.now.bytes.now }
    requires all_within { lengths.all ≤ length bucket.now.bytes.now }
    requires live { lengths.live ≡ total_length (live_entries bucket.now.bytes.now) }
    requires live_within { lengths.live ≤ length bucket.now.bytes.now }
    ensures { result ≡ room_of (S.state_of store.now) name.now bucket.now }
{
    if bucket.block == 0 {
        Some(NamePlace::NewBucket {
            bucket: bucket.number,
        })
    } else {
        find_room(store, bucket, lengths, name)
    }
}

/// What some candidates of a name have.
#[derive(Clone, Copy)]
struct Seen {
    /// Its first live record.
    taken: Option<Slot>,
    /// Its first dead record.
    dead: Option<NamePlace>,
    /// The first candidate that is not there, or has room for it.
    room: Option<NamePlace>,
    /// Whether one would have room without its dead records.
    in_the_way: bool,
}

/// What a candidate more adds to what was seen.
#[inline(always)]
fn see<S: Store>(store: &S, seen: Seen, bucket: &Bucket, name: &[u8]) -> Seen
    ensures taken { result.taken ≡ option_or seen.taken (slot_of_bucket name.now bucket.now) }
    ensures dead { result.dead ≡ option_or seen.dead (dead_of_bucket name.now bucket.now) }
    ensures room { result.room ≡ option_or seen.room (room_of (S.state_of store.now) name.now bucket.now) }
    ensures in_the_way { result.in_the_way ≡ (seen.in_the_way || fits_without bucket.now.bytes.now name.now) }
{
    records_stand_in_buckets();
    let Looked {
        live,
        dead,
        lengths,
    } = look_for(bucket.bytes, name);
    let taken = match (seen.taken, live) {
        (None, Some(record)) => Some(Slot {
            block: bucket.block,
            offset: bucket.start + record.offset,
            number: record.number,
        }),
        (taken, _) => taken,
    };
    let dead = match (seen.dead, dead) {
        (None, Some(record)) => Some(NamePlace::DeadRecord {
            block: bucket.block,
            offset: bucket.start + record.offset,
        }),
        (dead, _) => dead,
    };
    let room = match seen.room {
        Some(place) => Some(place),
        None => find_room_or_new(store, bucket, lengths, name),
    };
    Seen {
        taken,
        dead,
        room,
        in_the_way: seen.in_the_way || fits_without(bucket, lengths, name),
    }
}

/// What all candidates of a name have.
fn see_all<S: Store>(store: &S, fs: Fs, key: &[u8; 16], inode: u32, name: &[u8]) -> Seen
    ensures taken { result.taken ≡ slot_named (readable (S.state_of store.now) fs.number) key.now inode name.now }
    ensures dead { result.dead ≡ dead_place (readable (S.state_of store.now) fs.number) (name_hash key.now name.now) inode name.now }
    ensures free { free_or_fault result ≡ free_place (S.state_of store.now) fs.number (name_hash key.now name.now) inode name.now }
{
    let hash = name_hash(key, name);
    let mut seen = Seen {
        taken: None,
        dead: None,
        room: None,
        in_the_way: false,
    };
    for level in 0..LEVELS {
        let bucket = read_candidate(store, fs, inode, hash, level);
        seen = see(store, seen, &bucket, name);
    }
    seen
}

/// Where a name stands in a directory, and where it would go as a new one.
#[derive(Clone, Copy)]
pub struct NameLook {
    /// Its live record.
    pub taken: Option<Slot>,
    /// Into its own dead record, or else into its first candidate that is not there, or has room behind its records, or has room without its dead
    /// ones and nothing pending in its block. The fault is `Full` where a candidate has room without its dead records, and something is pending in
    /// it; else `TooLarge`.
    pub place: Result<NamePlace, Fault>,
}

/// Where a name stands in the directory with this inode block, and where it would go, by one look at its candidates.
pub fn look_for_name<S: Store>(
    store: &S,
    fs: Fs,
    key: &[u8; 16],
    inode: u32,
    name: &[u8],
) -> NameLook
    ensures taken { result.taken ≡ slot_named (readable (S.state_of store.now) fs.number) key.now inode name.now }
    ensures place { result.place ≡ place_of (S.state_of store.now) fs.number key.now inode name.now }
{
    let seen = see_all(store, fs, key, inode, name);
    let place = match (seen.dead, seen.room) {
        (Some(place), _) | (None, Some(place)) => Ok(place),
        (None, None) if seen.in_the_way => Err(Fault::Full),
        (None, None) => Err(Fault::TooLarge),
    };
    NameLook {
        taken: seen.taken,
        place,
    }
}
