// Records of names, one behind the other.

ghost use Rattle.std.specs.Prelude.{◌≡◌, ◌+◌, ◌≤◌, ◌^◌, ◌<◌, length, drop, IfOk, ◌++◌};
ghost use Rattle.xn_model.specs.Root.{word_at};
ghost use Rattle.treefs_format.specs.Records.{begins_record, entry_bytes, name_length};

use byteorder::{ByteOrder, LittleEndian};
use std::alloc::{AllocError, Global};

/// How many bytes a record has before its name.
pub const RECORD_HEAD: usize = 5;

/// A record of a bucket.
#[derive(Clone, Copy)]
pub struct Record<'a> {
    /// Where it begins.
    pub offset: usize,
    /// The inode that it names; 0 where it is dead.
    pub number: u32,
    /// Its name, of at most 255 bytes.
    pub name: &'a [u8],
    ghost short: { length name.now ≤ 255 },
}

/// The records that bytes begin with, in their order.
#[derive(Drop)]
pub struct Records<'a> {
    offset: usize,
    rest: &'a [u8],
    ghost within: { offset + length rest.now ≤ 512 },
}

impl<'a> Records<'a> {
    ghost use Rattle.treefs_format.specs.Left.{records_left};
    ghost use Rattle.treefs_format.specs.Records.{records_of};

    /// Those of a bucket, which has at most 512 bytes. A length 0, a name that goes past the end, or fewer than 5 bytes end them.
    pub fn new(bucket: &'a [u8]) -> Records<'a>
        requires { length bucket.now ≤ 512 }
        ensures { records_left result ≡ records_of bucket.now }
    {
        Records {
            offset: 0,
            rest: bucket,
        }
    }
}

impl<'a> Iterator for Records<'a> {
    type Item = Record<'a>;

    ghost use Rattle.std.specs.Iterator.{YieldsFirstBy, item_count};
    ghost use Rattle.treefs_format.specs.Left.{record_of, records_left};

    ghost next_gives = { YieldsFirstBy record_of records_left };

    ghost remaining = { item_count records_left };

    fn next(&mut self) -> Option<Record<'a>> {
        let rest = self.rest;
        if !begins_record(rest) {
            return None;
        }
        let end = RECORD_HEAD + usize::from(rest[4]);
        let record = Record {
            offset: self.offset,
            number: first_number(rest),
            name: &rest[RECORD_HEAD..end],
        };
        self.offset += end;
        self.rest = &rest[end..];
        Some(record)
    }
}

/// The number in the first four bytes.
#[tactic(auto, unfolding(xn_model::specs::Root::word_at))]
fn first_number(bytes: &[u8]) -> u32
    requires { 4 ≤ length bytes.now }
    ensures { result ≡ word_at bytes.now 0 }
{
    LittleEndian::read_u32(&bytes[..4])
}

/// Whether bytes begin with a record.
fn begins_record(bytes: &[u8]) -> bool
    ensures { result ≡ begins_record bytes.now }
{
    bytes.len() > RECORD_HEAD && bytes[4] != 0 && RECORD_HEAD + usize::from(bytes[4]) <= bytes.len()
}

/// Writes the bytes of a record behind others.
pub fn append_record(bytes: &mut Vec<u8>, number: u32, name: &[u8]) -> Result<(), AllocError>
    requires { length name.now ≤ 255 }
    ensures { IfOk result (λ _. bytes.new.items ≡ bytes.old.items ++ entry_bytes (record { number = number; name = name.now })) }
{
    bytes.extend_from_slice(&number.to_le_bytes())?;
    bytes.push(name.len() as u8)?;
    bytes.extend_from_slice(name)
}
