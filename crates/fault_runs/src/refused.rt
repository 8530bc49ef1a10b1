// Makes a volume and a file on fresh disks, each with a crash after another count of writes, and looks at what the crash leaves; then some
// values. What finds no memory is made again. So this prints the same where any one request for memory is refused, but for how many values
// there was no memory at once. Last come calls that take no memory, and a line before them: they do what they should also where every request
// from there on is refused. `tools/outside memory` tries both.

use crate::refused::images::{Left, left_by};
use crate::refused::spare::print_spare;
use crate::refused::values::print_values;
use std::alloc::{AllocError, Global};
use std::io;
use std::sync::Wait;
use std::thread::Threads;

mod clients;
mod disks;
mod images;
mod programs;
mod spare;
mod stores;
mod tally;
mod values;

/// More writes than the calls take, also where some of them are made again.
const MOST: u32 = 12;

/// Prints what crashes leave after each count of writes, which keep an open write or lose it.
fn print_crashes<R: Threads + Print + Sync>(
    rt: &R,
    alloc: Global,
    word: &str,
    kept: bool,
) -> io::Result<()> {
    let (mut crashes, mut wrong) = (0u32, 0u32);
    let (mut begins, mut ends) = (false, false);
    for writes in 0..MOST + 1 {
        // One request is refused at most, so the second time answers.
        let left = match left_by(rt, alloc, writes, kept) {
            Some(left) => left,
            None => left_by(rt, alloc, writes, kept).ok_or(AllocError)?,
        };
        crashes = crashes.saturating_add(1);
        if writes == 0 {
            begins = matches!(left, Left::Nothing);
        }
        if matches!(left, Left::Wrong) {
            wrong = wrong.saturating_add(1);
        }
        ends = matches!(left, Left::File);
    }
    println!(rt; "crashes that {word} open writes: {crashes}, {wrong} wrong")?;
    println!(rt; "nothing without a write: {begins}, a file in the end: {ends}")
}

/// Makes all of these, and prints what they come to.
pub fn print_refused<R: Threads + Wait + Print + Sync>(rt: &R, alloc: Global) -> io::Result<()> {
    for (word, kept) in [("lose", false), ("keep", true)] {
        print_crashes(rt, alloc, word, kept)?;
    }
    print_values(rt, alloc)?;
    // One request is refused at most before the calls that take no memory, so the second time prints.
    if print_spare(rt, alloc)? || print_spare(rt, alloc)? {
        Ok(())
    } else {
        Err(AllocError.into())
    }
}
