// Each fault of a volume's calls.

use crate::out::{Out, Value};
use crate::pair::{Pair, Step, Told};
use ffs_lib::{FfsFault, Fs};
use store_types::Refusal;
use volume_pair::Action;

/// What stands before these calls: inode 2 is the file `f`, inode 3 the directory `d`, which has an entry.
static BEFORE: [Step<'static>; 4] = [
    Step::Open,
    Step::Call(Action::Create(1, b"f")),
    Step::Call(Action::Mkdir(1, b"d")),
    Step::Call(Action::Create(3, b"x")),
];

/// A name of 29 bytes.
const LONG: &[u8] = b"a name of twenty-nine bytes..";

/// Calls and their faults.
static FAULTS: [(Action<'static>, FfsFault); 31] = [
    (Action::Create(0, b"x"), FfsFault::NoEntry),
    (Action::Create(9, b"x"), FfsFault::NoEntry),
    (Action::Create(129, b"x"), FfsFault::NoEntry),
    (Action::Create(2, b"x"), FfsFault::NotDir),
    (Action::Create(1, b""), FfsFault::BadName),
    (Action::Create(1, b"a/b"), FfsFault::BadName),
    (Action::Create(1, b"."), FfsFault::BadName),
    (Action::Mkdir(1, LONG), FfsFault::BadName),
    (Action::Mkdir(1, b"f"), FfsFault::Exists),
    (Action::Write(9, 0, b"x"), FfsFault::NoEntry),
    (Action::Write(3, 0, b"x"), FfsFault::IsDir),
    (Action::Write(2, 71_680, b"x"), FfsFault::TooLarge),
    (Action::Unlink(2, b"x"), FfsFault::NotDir),
    (Action::Unlink(1, b"x"), FfsFault::NoEntry),
    (Action::Unlink(1, b"d"), FfsFault::IsDir),
    (Action::Rmdir(1, b"x"), FfsFault::NoEntry),
    (Action::Rmdir(1, b"f"), FfsFault::NotDir),
    (Action::Rmdir(1, b"d"), FfsFault::DirNotEmpty),
    (Action::Rename(1, b"x", 1, b"y"), FfsFault::NoEntry),
    (Action::Rename(1, b"f", 9, b"y"), FfsFault::NoEntry),
    (Action::Rename(1, b"f", 2, b"y"), FfsFault::NotDir),
    (Action::Rename(1, b"f", 1, b".."), FfsFault::BadName),
    (Action::Rename(1, b"f", 1, b"d"), FfsFault::Exists),
    (Action::Rename(1, b"d", 3, b"y"), FfsFault::IsDir),
    (Action::Replace(1, b"x", 1, b"f"), FfsFault::NoEntry),
    (Action::Replace(1, b"f", 9, b"x"), FfsFault::NoEntry),
    (Action::Replace(1, b"f", 2, b"x"), FfsFault::NotDir),
    (Action::Replace(1, b"f", 1, b".."), FfsFault::BadName),
    (Action::Replace(1, b"f", 1, b"x"), FfsFault::NoEntry),
    (Action::Replace(1, b"f", 1, b"d"), FfsFault::IsDir),
    (Action::Replace(1, b"d", 3, b"x"), FfsFault::IsDir),
];

/// Makes calls that are refused, and tells how many of them were as they should.
pub fn tell_faults(pair: &mut Pair, fs: Fs, out: &mut Out) {
    let is_none = pair.take(fs, &Step::Open) == Err(FfsFault::NoEntry);
    pair.take_all(fs, &[Step::Make, Step::Drain]);
    let is_again = pair.take(fs, &Step::Make) == Err(FfsFault::Exists);
    pair.take_all(fs, &BEFORE);
    let mut right = 0u64;
    for (action, fault) in &FAULTS {
        if pair.call(fs, *action) == Err(*fault) {
            right = right.wrapping_add(1);
        }
    }
    let values = [
        Value::Truth(is_none),
        Value::Truth(is_again),
        Value::Number(right),
    ];
    out.tell("no volume {}, a second one {}, faults {} of 31\n", &values);
    tell_refusals(pair, fs, out);
}

/// Writes a byte at one place after another, so far apart, with a drain after each or not, until the store refuses it. Answers how
/// many writes were done, and the refusal.
fn write_on(pair: &mut Pair, fs: Fs, apart: u32, drains: bool) -> (u64, Told) {
    let mut told = Ok(0);
    for i in 0..100u32 {
        told = pair.call(fs, Action::Write(2, i.wrapping_mul(apart), b"x"));
        if told.is_err() {
            return (u64::from(i), told);
        }
        if drains {
            let _ = pair.take(fs, &Step::Drain);
        }
    }
    (100, told)
}

/// Tells after how many writes the store refuses one: for the edits that a block has pending, and for want of blocks.
fn tell_refusals(pair: &mut Pair, fs: Fs, out: &mut Out) {
    let (writes, refused) = write_on(pair, fs, 1, false);
    let is_many = refused == Err(FfsFault::Kernel(Refusal::TooManyPending));
    let _ = pair.take(fs, &Step::Drain);
    let (blocks, refused) = write_on(pair, fs, 512, true);
    let is_full = refused == Err(FfsFault::Kernel(Refusal::NoSpace));
    let values = [
        Value::Number(writes),
        Value::Truth(is_many),
        Value::Number(blocks),
        Value::Truth(is_full),
    ];
    out.tell(
        "after {} writes too many are pending: {}; after {} blocks there is no space: {}\n",
        &values,
    );
}
