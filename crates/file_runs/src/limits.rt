// Sizes: of files, of directories, and of a volume.

use crate::out::{Out, Value};
use crate::pair::{Event, Pair, Step, Told};
use ffs_lib::{FfsFault, Fs};
use std::thread::Threads;
use volume_pair::Action;

/// How many bytes a write has, so that no block gets too many edits before it is written.
const CHUNK: usize = 4096;

/// How many such writes fill a file, the last one half.
const CHUNKS: u32 = 18;

/// How many bytes a file has at most.
const MOST: u32 = 71_680;

/// The bytes of a file from an offset on.
fn bytes_at(offset: u32) -> [u8; CHUNK] {
    let mut bytes = [0; CHUNK];
    let mut at = offset;
    for byte in bytes.iter_mut() {
        *byte = ((at / 512 * 31 + at % 512) % 251) as u8;
        at = at.wrapping_add(1);
    }
    bytes
}

/// Whether a file is read as it was written.
fn is_as_written(pair: &mut Pair, fs: Fs, inode: u16) -> bool {
    for chunk in 0..CHUNKS {
        let offset = 4096 * chunk;
        let mut bytes = [0; CHUNK];
        let length = pair.read(fs, inode, offset, &mut bytes);
        let rest = ((MOST - offset) as usize).min(CHUNK);
        if length != Ok(rest) || bytes[..rest] != bytes_at(offset)[..rest] {
            return false;
        }
    }
    true
}

/// Writes a file as large as one may be.
fn fill_file(pair: &mut Pair, fs: Fs, inode: u16) -> bool {
    for chunk in 0..CHUNKS {
        let offset = 4096 * chunk;
        let rest = ((MOST - offset) as usize).min(CHUNK);
        let bytes = bytes_at(offset);
        let is_written = pair
            .call(fs, Action::Write(inode, offset, &bytes[..rest]))
            .is_ok();
        let _ = pair.take(fs, &Step::Drain);
        if !is_written {
            return false;
        }
    }
    true
}

/// Tells what a call answered.
fn tell_answer(out: &mut Out, call: &str, told: Told) {
    let call = Value::Text(call);
    match told {
        Ok(_) => out.tell("{}: done\n", &[call]),
        Err(fault) => out.tell("{}: {}\n", &[call, Value::Fault(fault)]),
    }
}

/// A file grows to the most that it may have, and no further.
pub fn tell_file(pair: &mut Pair, fs: Fs, out: &mut Out) {
    let _ = pair.take(fs, &Step::Make);
    let inode = inode_of(pair.call(fs, Action::Create(1, b"large")));
    let before = pair.free(fs);
    let is_filled = fill_file(pair, fs, inode);
    let blocks = before.wrapping_sub(pair.free(fs));
    let is_same = is_as_written(pair, fs, inode);
    let values = [
        Value::Number(u64::from(MOST)),
        Value::Truth(is_filled),
        Value::Number(blocks),
        Value::Truth(is_same),
    ];
    out.tell(
        "a file of {} bytes: written {}, {} blocks, read as written {}\n",
        &values,
    );
    let more = pair.call(fs, Action::Write(inode, MOST, b"x"));
    tell_answer(out, "one byte more", more);
    let _ = pair.call(fs, Action::Unlink(1, b"large"));
    let left = before.wrapping_sub(pair.free(fs));
    out.tell(
        "unlinked: {} blocks more than before it was written\n",
        &[Value::Number(left)],
    );
}

/// The inode that a call answered, or 0.
pub fn inode_of(told: Told) -> u16 {
    match told {
        Ok(inode) => (inode & 0xffff) as u16,
        Err(_) => 0,
    }
}

/// A name of 28 bytes that ends with a number.
fn long_name(number: u16) -> [u8; 28] {
    let mut name = *b"a name of twenty-eight by000";
    name[25] = b'0' + (number / 100 % 10) as u8;
    name[26] = b'0' + (number / 10 % 10) as u8;
    name[27] = b'0' + (number % 10) as u8;
    name
}

/// Gives a file of a directory another name there, and crashes before the write by which the old one goes. Both are left.
fn is_named_twice(
    rt: &(impl Threads + Sync),
    pair: &mut Pair,
    fs: Fs,
    name: &[u8],
    new_name: &[u8],
) -> bool {
    let kept = pair.first_block(fs, 2);
    let is_renamed = pair.call(fs, Action::Rename(2, name, 2, new_name)).is_ok();
    for _ in 0..8 {
        let block = pair.pick();
        if block == kept {
            break;
        }
        if let Some(block) = block {
            let _ = pair.happens(Event::Write(block));
        }
    }
    let is_open = pair.is_open_after(rt, fs, &[]);
    is_renamed && is_open
}

/// Fills a directory: with files, and, as there are no more inodes than 128, with second names of them, which crashes leave. Tells what a full
/// directory, and a volume without a free inode, answer.
pub fn tell_directory(rt: &(impl Threads + Sync), pair: &mut Pair, fs: Fs, out: &mut Out) {
    let _ = pair.take(fs, &Step::Make);
    let _ = pair.call(fs, Action::Mkdir(1, b"d"));
    let mut last = 0;
    for number in 0..125 {
        last = inode_of(pair.call(fs, Action::Create(2, &long_name(number))));
        let _ = pair.take(fs, &Step::Drain);
    }
    out.tell(
        "files of long names: the last inode is {}\n",
        &[Value::Number(u64::from(last))],
    );
    let mut twice = 0u64;
    for number in 0..67 {
        let (name, new_name) = (long_name(number % 16), long_name(number + 200));
        if is_named_twice(rt, pair, fs, &name, &new_name) {
            twice = twice.wrapping_add(1);
        }
    }
    let names = match pair.list(fs, 2) {
        Ok(names) => names.len() as u64,
        Err(_) => 0,
    };
    out.tell(
        "a directory of {} names, {} of them after crashes\n",
        &[Value::Number(names), Value::Number(twice)],
    );
    let more = pair.call(fs, Action::Create(2, b"more"));
    tell_answer(out, "a name more", more);
    let last = inode_of(pair.call(fs, Action::Create(1, b"last")));
    out.tell("elsewhere: inode {}\n", &[Value::Number(u64::from(last))]);
    let none = pair.call(fs, Action::Create(1, b"none"));
    tell_answer(out, "and once more", none);
}
