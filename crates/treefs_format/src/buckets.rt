// Buckets of names: 384 or 512 bytes that begin with records.

ghost use Rattle.std.specs.Prelude.{◌≡◌, ◌+◌, ◌≤◌, bytes_eq, length, IfOk, option_map, if◌then◌else◌, None, Some};
ghost use Rattle.std.specs.Option.{option_or};
ghost use Rattle.std.specs.Int.{w32, to_le_bytes};
ghost use Rattle.treefs_format.specs.Buckets.{dead_record, live_entries, live_record, other_record, rewritten, room_behind, room_without};
ghost use Rattle.treefs_format.specs.Left.{record_of};
ghost use Rattle.treefs_format.specs.Records.{end_of, entry_bytes, total_length};

use crate::records::{RECORD_HEAD, Record, Records, append_record};
use edit_list::Patch;
use std::alloc::{AllocError, Global};

/// The place behind the last record of a bucket.
pub fn end(bucket: &[u8]) -> usize
    requires { length bucket.now ≤ 512 }
    ensures end { result ≡ end_of bucket.now }
    ensures within { result ≤ length bucket.now }
{
    record_lengths(bucket).all
}

/// How many bytes the records of a bucket have.
#[derive(Clone, Copy)]
pub struct RecordLengths {
    /// All of them, which is the place behind the last one.
    pub all: usize,
    /// The live ones.
    pub live: usize,
}

/// How many bytes the records of a bucket have, and the live ones of them.
pub fn record_lengths(bucket: &[u8]) -> RecordLengths
    requires { length bucket.now ≤ 512 }
    ensures all { result.all ≡ end_of bucket.now }
    ensures all_within { result.all ≤ length bucket.now }
    ensures live { result.live ≡ total_length (live_entries bucket.now) }
    ensures live_within { result.live ≤ length bucket.now }
{
    let mut all = 0;
    let mut live = 0;
    for record in Records::new(bucket) {
        let length = RECORD_HEAD + record.name.len();
        all += length;
        if record.number != 0 {
            live += length;
        }
    }
    RecordLengths { all, live }
}

/// How many bytes are left behind the records of a bucket.
pub fn room_behind(bucket: &[u8]) -> usize
    requires { length bucket.now ≤ 512 }
    ensures { result ≡ room_behind bucket.now }
{
    bucket.len() - end(bucket)
}

/// How many bytes would be left behind the records of a bucket, were it without the dead ones.
pub fn room_without(bucket: &[u8]) -> usize
    requires { length bucket.now ≤ 512 }
    ensures { result ≡ room_without bucket.now }
{
    bucket.len() - record_lengths(bucket).live
}

/// Whether two names are the same. Their last bytes are compared first: names of one directory often begin alike.
fn are_same(one: &[u8], other: &[u8]) -> bool
    ensures { result ≡ bytes_eq one.now other.now }
{
    let length = one.len();
    if length != other.len() {
        return false;
    }
    if length > 0 && one[length - 1] != other[length - 1] {
        return false;
    }
    one == other
}

/// The first live record of a name.
pub fn live_record<'a>(bucket: &'a [u8], name: &[u8]) -> Option<Record<'a>>
    requires { length bucket.now ≤ 512 }
    ensures { option_map record_of result ≡ live_record bucket.now name.now }
{
    Records::new(bucket).find(|record| record.number != 0 && are_same(record.name, name))
}

/// What a bucket says of a name.
pub struct Looked<'a> {
    /// The first live record of the name.
    pub live: Option<Record<'a>>,
    /// The first dead one.
    pub dead: Option<Record<'a>>,
    /// How many bytes all records have.
    pub lengths: RecordLengths,
}

/// The record that was found, or else the next one where it fits.
#[inline(always)]
fn first_of<'a>(found: Option<Record<'a>>, next: Record<'a>, fits: bool) -> Option<Record<'a>>
    ensures { option_map record_of result ≡ option_or (option_map record_of found.entry) (if fits then Some (record_of next.entry) else None) }
{
    match found {
        Some(first) => Some(first),
        None if fits => Some(next),
        None => None,
    }
}

/// The first live and the first dead record of a name, and how many bytes the records have, by one look at each record.
pub fn look_for<'a>(bucket: &'a [u8], name: &[u8]) -> Looked<'a>
    requires { length bucket.now ≤ 512 }
    ensures live { option_map record_of result.live ≡ live_record bucket.now name.now }
    ensures dead { option_map record_of result.dead ≡ dead_record bucket.now name.now }
    ensures all_length { result.lengths.all ≡ end_of bucket.now }
    ensures all_within { result.lengths.all ≤ length bucket.now }
    ensures live_length { result.lengths.live ≡ total_length (live_entries bucket.now) }
    ensures live_within { result.lengths.live ≤ length bucket.now }
{
    let mut live = None;
    let mut dead = None;
    let mut all = 0;
    let mut living = 0;
    for record in Records::new(bucket) {
        let length = RECORD_HEAD + record.name.len();
        let is_named = are_same(record.name, name);
        all += length;
        if record.number == 0 {
            dead = first_of(dead, record, is_named);
        } else {
            living += length;
            live = first_of(live, record, is_named);
        }
    }
    let lengths = RecordLengths { all, live: living };
    Looked {
        live,
        dead,
        lengths,
    }
}

/// The first record with a number but for the one at a place.
pub fn other_record(bucket: &[u8], number: u32, place: usize) -> Option<Record<'_>>
    requires { length bucket.now ≤ 512 }
    ensures { option_map record_of result ≡ other_record bucket.now number place }
{
    Records::new(bucket).find(|record| record.number == number && record.offset != place)
}

/// The patch that writes the live records of a bucket anew, in their order, and zeros behind them up to the end of the old records.
/// `offset` is the byte of the block at which the bucket begins. `Err` comes only for want of memory.
pub fn rewrite(alloc: Global, offset: usize, bucket: &[u8]) -> Result<Patch, AllocError>
    requires { offset + length bucket.now ≤ 512 }
    ensures { IfOk result (λ patch. patch ≡ record { offset = offset; bytes = rewritten bucket.now }) }
{
    let mut bytes = Vec::new(alloc);
    for record in Records::new(bucket) {
        if record.number != 0 {
            append_record(&mut bytes, record.number, record.name)?;
        }
    }
    bytes.resize(end(bucket), 0)?;
    Ok(Patch {
        offset: offset as u16,
        bytes,
    })
}

/// The patch that makes a record at a byte of a block. `Err` comes only for want of memory.
pub fn make_record(
    alloc: Global,
    offset: usize,
    number: u32,
    name: &[u8],
) -> Result<Patch, AllocError>
    requires long { length name.now ≤ 255 }
    requires within { offset + 5 + length name.now ≤ 512 }
    ensures { IfOk result (λ patch. patch ≡ record { offset = offset; bytes = entry_bytes (record { number = number; name = name.now }) }) }
{
    let mut bytes = Vec::with_capacity(alloc, RECORD_HEAD + name.len())?;
    append_record(&mut bytes, number, name)?;
    Ok(Patch {
        offset: offset as u16,
        bytes,
    })
}

/// The patch that sets the number of the record that begins at a byte of a block. `Err` comes only for want of memory.
pub fn set_number(alloc: Global, offset: usize, number: u32) -> Result<Patch, AllocError>
    requires { offset + 4 ≤ 512 }
    ensures { IfOk result (λ patch. patch ≡ record { offset = offset; bytes = to_le_bytes w32 number }) }
{
    Ok(Patch {
        offset: offset as u16,
        bytes: number.to_le_bytes().to_vec(alloc)?,
    })
}
