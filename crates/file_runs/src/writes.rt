// Writes that are cut short, by a refusal and by a crash, and what a write past the end shows then; and a file that is written in parts.

use crate::limits::inode_of;
use crate::out::{Out, Value};
use crate::pair::{Event, Pair, Step};
use ffs_lib::{FfsFault, Fs};
use std::thread::Threads;
use store_types::{BLOCK_LEN, Refusal};
use volume_pair::Action;

/// How many bytes a file has at most.
const MOST: u32 = 71_680;

/// How many bytes a write has that is refused in its middle, since too many entries are pending.
const REFUSED: usize = 40_000;

/// Makes a file.
fn create(pair: &mut Pair, fs: Fs, name: &[u8]) -> u16 {
    let made = pair.call(fs, Action::Create(1, name));
    let _ = pair.take(fs, &Step::Drain);
    inode_of(made)
}

/// How many bytes of a file are not zeros, from one place to another.
fn count_set(pair: &mut Pair, fs: Fs, inode: u16, from: u32, to: u32) -> u64 {
    let mut set = 0u64;
    for at in from..to {
        let mut byte = [1];
        let _ = pair.read(fs, inode, at, &mut byte);
        if byte != [0] {
            set = set.wrapping_add(1);
        }
    }
    set
}

/// Has a write refused in its middle, and writes past the end of the file, which is its start.
fn tell_refused(pair: &mut Pair, fs: Fs, out: &mut Out) {
    let inode = create(pair, fs, b"refused");
    let told = pair.call(fs, Action::Write(inode, 0, &[b'y'; REFUSED]));
    let is_refused = told == Err(FfsFault::Kernel(Refusal::TooManyPending));
    let _ = pair.take(fs, &Step::Drain);
    let past = pair.call(fs, Action::Write(inode, 30_000, b"x"));
    let set = count_set(pair, fs, inode, 0, 30_000);
    let values = [
        Value::Truth(is_refused),
        Value::Truth(past.is_ok()),
        Value::Number(set),
    ];
    out.tell(
        "a write refused in its middle: {}; one past the end: {}, {} bytes set before it\n",
        &values,
    );
}

/// Crashes where a write's bytes are on the disk and its size is not, and writes past the end of the file.
fn tell_crashed(rt: &(impl Threads + Sync), pair: &mut Pair, fs: Fs, out: &mut Out) {
    let inode = create(pair, fs, b"crashed");
    let _ = pair.call(fs, Action::Write(inode, 0, &[b'y'; 10]));
    let _ = pair.take(fs, &Step::Drain);
    let _ = pair.call(fs, Action::Write(inode, 10, &[b'y'; 400]));
    if let Some(block) = pair.pick() {
        let _ = pair.happens(Event::Write(block));
    }
    let is_open = pair.is_open_after(rt, fs, &[]);
    let size = pair.read(fs, inode, 0, &mut [0; BLOCK_LEN]).unwrap_or(0);
    let past = pair.call(fs, Action::Write(inode, 450, b"x"));
    let set = count_set(pair, fs, inode, 10, 450);
    let values = [
        Value::Truth(is_open),
        Value::Number(size as u64),
        Value::Truth(past.is_ok()),
        Value::Number(set),
    ];
    out.tell(
        "a crash before the size: {}, {} bytes; a write past the end: {}, {} bytes set before it\n",
        &values,
    );
}

/// Writes a file as large as one may be in parts, each as large as the store takes it.
fn tell_parts(pair: &mut Pair, fs: Fs, out: &mut Out) {
    let inode = create(pair, fs, b"parts");
    let bytes = [b'z'; MOST as usize];
    let mut written = 0u32;
    let mut calls = 0u64;
    for _ in 0..100 {
        let rest = bytes.get(written as usize..).unwrap_or(&[]);
        if rest.is_empty() {
            break;
        }
        let taken = pair.take(fs, &Step::WriteSome(inode, written, rest));
        calls = calls.wrapping_add(1);
        written = written.wrapping_add((taken.unwrap_or(0) & 0xffff_ffff) as u32);
        let _ = pair.take(fs, &Step::Drain);
    }
    let zeros = u64::from(MOST).wrapping_sub(count_set(pair, fs, inode, 0, MOST));
    let values = [
        Value::Number(u64::from(written)),
        Value::Number(calls),
        Value::Number(zeros),
    ];
    out.tell(
        "a file in parts: {} bytes by {} calls, {} of them zeros\n",
        &values,
    );
}

/// Runs the three, each with a file of its own.
pub fn tell_writes(rt: &(impl Threads + Sync), pair: &mut Pair, fs: Fs, out: &mut Out) {
    pair.take_all(fs, &[Step::Make, Step::Drain]);
    tell_refused(pair, fs, out);
    tell_crashed(rt, pair, fs, out);
    let _ = pair.take(fs, &Step::Drain);
    tell_parts(pair, fs, out);
}
