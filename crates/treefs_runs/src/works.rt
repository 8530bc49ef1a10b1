// Calls that are made many times on a volume of their own, to be measured.

ghost use Rattle.std.specs.Prelude.{◌<◌};

use crate::calls::write_all;
use crate::volumes::{Made, make_volume};
use std::alloc::{AllocError, Global};
use std::ops::Range;
use std::thread::Threads;
use treefs::{Attributes, Volume};
use treefs_model::Fault;
use xn_state::Store;

/// How many blocks the disk has.
const BLOCKS: u32 = 32_768;

/// How many names the directory has in which names are looked up.
const NAMES: u32 = 10_000;

/// The inode of the top directory.
const TOP: u32 = 1;

/// What a new inode says beside.
const ATTRIBUTES: Attributes = Attributes {
    permissions: 0o644,
    uid: 0,
    gid: 0,
    generation: 0,
};

/// What is done many times.
#[derive(Clone, Copy, PartialEq, Eq)]
pub enum Work {
    /// Files are made, and all is written after every 50.
    Create,
    /// Names are looked up among 10,000.
    Find,
    /// A file of 4,096 bytes is read.
    Read,
    /// So many bytes are written to an empty file, and all is written after every 16.
    Write,
}

impl Work {
    /// The one that a word names.
    pub fn of_word(word: &str) -> Option<Work> {
        match word {
            "create" => Some(Work::Create),
            "find" => Some(Work::Find),
            "read" => Some(Work::Read),
            "write" => Some(Work::Write),
            _ => None,
        }
    }

    /// Does it so often on a fresh volume, and answers how many files were made, the sum of the numbers that were found, or how many bytes were read or written.
    /// `NoEntry` comes where there is no volume.
    pub fn run(
        self,
        rt: &(impl Threads + Sync),
        alloc: Global,
        rounds: u32,
    ) -> Result<Result<u64, Fault>, AllocError> {
        let Some(mut made) = make_volume(rt, alloc, BLOCKS, 7)? else {
            return Ok(Err(Fault::NoEntry));
        };
        made.store.be_quiet();
        Ok(self.repeat(alloc, &mut made, rounds))
    }

    fn repeat(self, alloc: Global, made: &mut Made, rounds: u32) -> Result<u64, Fault> {
        if self == Work::Create {
            return make_files(alloc, made, rounds);
        }
        let _files = make_files(alloc, made, NAMES)?;
        match self {
            Work::Find => find(&made.store, &made.volume, rounds),
            Work::Read => read(alloc, &mut made.store, &mut made.volume, rounds),
            Work::Create | Work::Write => write_files(alloc, made, rounds),
        }
    }
}

/// The name of a file with a number of five digits.
fn name_of(number: u32) -> [u8; 10] {
    let mut name = *b"file-00000";
    let mut rest = number;
    for place in 0..5 {
        name[9 - place] = b'0' + (rest % 10) as u8;
        rest /= 10;
    }
    name
}

/// Makes the files of some numbers.
fn make<S: Store>(
    alloc: Global,
    store: &mut S,
    volume: &mut Volume,
    numbers: Range<u32>,
) -> Result<(), Fault> {
    for number in numbers {
        let _made = volume.create(alloc, store, TOP, &name_of(number), ATTRIBUTES)?;
    }
    Ok(())
}

/// Makes so many files, and writes all after every 50.
fn make_files(alloc: Global, made: &mut Made, count: u32) -> Result<u64, Fault> {
    let Made { store, volume } = made;
    let mut first = 0u32;
    for _batch in 0..count / 50 {
        let next = first.saturating_add(50);
        make(alloc, store, volume, first..next)?;
        let _waves = write_all(alloc, store, volume)?;
        first = next;
    }
    make(alloc, store, volume, first..count)?;
    Ok(u64::from(count))
}

/// Looks names up, and answers the sum of the numbers of their inodes.
fn find<S: Store>(store: &S, volume: &Volume, rounds: u32) -> Result<u64, Fault> {
    let mut sum = 0u64;
    for number in 0..rounds {
        let found = volume.lookup(store, TOP, &name_of(number % NAMES))?;
        sum = sum.wrapping_add(u64::from(found));
    }
    Ok(sum)
}

/// Writes bytes to a file from its first one on.
fn write_file<S: Store>(
    alloc: Global,
    store: &mut S,
    volume: &mut Volume,
    number: u32,
    bytes: &[u8],
) -> Result<(), Fault> {
    let mut at = 0u64;
    let mut rest = bytes;
    for _piece in 0..bytes.len() {
        if rest.is_empty() {
            return Ok(());
        }
        let taken = volume.write_some(alloc, store, number, at, rest)?;
        at = at.saturating_add(taken as u64);
        rest = rest.get(taken..).unwrap_or(&[]);
    }
    Ok(())
}

/// Reads a file of 4,096 bytes, and answers how many bytes that were.
fn read<S: Store>(
    alloc: Global,
    store: &mut S,
    volume: &mut Volume,
    rounds: u32,
) -> Result<u64, Fault> {
    let mut bytes = [0u8; 4096];
    write_file(alloc, store, volume, 2, &bytes)?;
    let mut sum = 0u64;
    for _round in 0..rounds {
        let count = volume.read(store, 2, 0, &mut bytes)?;
        sum = sum.wrapping_add(count as u64);
    }
    Ok(sum)
}

/// Writes 4,096 bytes to the empty files of some numbers.
fn write<S: Store>(
    alloc: Global,
    store: &mut S,
    volume: &mut Volume,
    numbers: Range<u32>,
) -> Result<(), Fault> {
    let mut bytes = [0u8; 4096];
    for number in numbers {
        bytes[0] = (number % 256) as u8;
        write_file(alloc, store, volume, 2 + number % NAMES, &bytes)?;
    }
    Ok(())
}

/// Writes 4,096 bytes to so many empty files, and all that is pending after every 16; answers how many bytes that were.
fn write_files(alloc: Global, made: &mut Made, rounds: u32) -> Result<u64, Fault> {
    let Made { store, volume } = made;
    let mut first = 0u32;
    for _batch in 0..rounds / 16 {
        let next = first.saturating_add(16);
        write(alloc, store, volume, first..next)?;
        let _waves = write_all(alloc, store, volume)?;
        first = next;
    }
    write(alloc, store, volume, first..rounds)?;
    Ok(u64::from(rounds) * 4096)
}
