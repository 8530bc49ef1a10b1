// Crashes: after each write of a rename from one directory to another, of a file that replaces another one, and of four files' lives; and crashes that
// leave an inode without a name, or with more links than names, and what `reclaim` does about it.

use crate::out::{Out, Value};
use crate::pair::{Event, Pair, Step};
use ffs_lib::{FfsFault, Fs, Repair};
use std::alloc::{AllocError, Global};
use std::thread::Threads;
use volume_pair::Action;

/// How many blocks a disk has.
const BLOCKS: u32 = 32;

/// All of them.
static ALL: [u32; 32] = [
    0, 1, 2, 3, 4, 5, 6, 7, 8, 9, 10, 11, 12, 13, 14, 15, 16, 17, 18, 19, 20, 21, 22, 23, 24, 25,
    26, 27, 28, 29, 30, 31,
];

/// How far the last write goes before the crash.
#[derive(Clone, Copy, PartialEq, Eq)]
enum Last {
    Landed,
    Synced,
    Finished,
}

/// A write of a block, so far.
fn write(pair: &mut Pair, block: u32, last: Last) {
    let _ = pair.happens(Event::Begin(block)) && pair.happens(Event::Land(block));
    if last != Last::Landed {
        let _ = pair.happens(Event::Sync(block));
    }
    if last == Last::Finished {
        let _ = pair.happens(Event::Finish(block));
    }
}

/// Makes what is pending durable, with so many writes at most, of which the last one goes so far; how many are left then, and its block.
fn write_pending(pair: &mut Pair, writes: u64, last: Last) -> (u64, Option<u32>) {
    let mut left = writes;
    let mut written = None;
    for _ in 0..BLOCKS {
        if left == 0 {
            break;
        }
        let Some(block) = pair.pick() else {
            break;
        };
        left = left.saturating_sub(1);
        write(pair, block, if left == 0 { last } else { Last::Finished });
        written = Some(block);
    }
    (left, written)
}

/// The names in a directory, with a space before each, and the inode of the first one, or 0.
fn names_in(
    alloc: Global,
    pair: &mut Pair,
    fs: Fs,
    directory: u16,
) -> Result<(String, u16), AllocError> {
    let mut text = String::new(alloc);
    let mut first = 0;
    if let Ok(names) = pair.list(fs, directory) {
        for (name, inode) in &names {
            if first == 0 {
                first = *inode;
            }
            text.push(' ')?;
            text.push_str(str::from_utf8(name).unwrap_or("?"))?;
        }
    }
    Ok((text, first))
}

/// How the last write ends before the crash.
#[derive(Clone, Copy, PartialEq, Eq)]
enum End {
    Finished,
    /// It is not synced, and the crash keeps it.
    Kept,
    /// It is not synced, and the crash loses it.
    Lost,
}

/// A rename from one directory to another.
static RENAME: [Step<'static>; 5] = [
    Step::Make,
    Step::Call(Action::Create(1, b"a")),
    Step::Call(Action::Mkdir(1, b"d")),
    Step::Drain,
    Step::Call(Action::Rename(1, b"a", 3, b"b")),
];

/// A file, inode 2, that replaces another one, inode 4, in another directory.
static REPLACEMENT: [Step<'static>; 6] = [
    Step::Make,
    Step::Call(Action::Create(1, b"a")),
    Step::Call(Action::Mkdir(1, b"d")),
    Step::Call(Action::Create(3, b"b")),
    Step::Drain,
    Step::Call(Action::Replace(1, b"a", 3, b"b")),
];

/// Makes a move on a fresh disk and so many writes, the last one to its end or not, crashes, and tells the names that are left.
fn tell_move(
    rt: &(impl Threads + Sync),
    alloc: Global,
    systems: [Fs; 2],
    steps: &[Step],
    end: End,
    writes: u64,
    out: &mut Out,
) -> Result<(), AllocError> {
    let fs = systems[0];
    let mut pair = Pair::format(rt, alloc, BLOCKS, systems)?;
    pair.take_all(fs, steps);
    let (last, ending) = match end {
        End::Finished => (Last::Finished, ""),
        End::Kept => (Last::Landed, ", the last not synced and kept"),
        End::Lost => (Last::Landed, ", the last not synced and lost"),
    };
    let kept = match (end, write_pending(&mut pair, writes, last)) {
        (End::Kept, (_, Some(block))) => [block],
        _ => [BLOCKS],
    };
    let is_open = pair.is_open_after(rt, fs, if kept[0] < BLOCKS { &kept } else { &[] });
    let (top, _) = names_in(alloc, &mut pair, fs, 1)?;
    let (other, inode) = names_in(alloc, &mut pair, fs, 3)?;
    let values = [
        Value::Number(writes),
        Value::Text(ending),
        Value::Truth(is_open),
        Value::Text(&top),
        Value::Text(&other),
        Value::Number(u64::from(inode)),
    ];
    out.tell(
        if steps.len() == RENAME.len() {
            "a rename, {} writes{}: mounted {}, 1:{}, 3:{}\n"
        } else {
            "a replacement, {} writes{}: mounted {}, 1:{}, 3:{}, inode {}\n"
        },
        &values,
    );
    Ok(())
}

/// Makes both moves with a crash after each of their writes.
pub fn tell_moves(
    rt: &(impl Threads + Sync),
    alloc: Global,
    systems: [Fs; 2],
    out: &mut Out,
) -> Result<(), AllocError> {
    for (steps, most) in [(RENAME.as_slice(), 6), (REPLACEMENT.as_slice(), 5)] {
        for (end, least) in [(End::Finished, 0), (End::Kept, 1), (End::Lost, 1)] {
            for writes in least..most {
                tell_move(rt, alloc, systems, steps, end, writes, out)?;
            }
        }
    }
    Ok(())
}

/// A file with a block, and a call that takes its name.
static UNLINK: [Step<'static>; 6] = [
    Step::Make,
    Step::Call(Action::Create(1, b"a")),
    Step::Call(Action::Write(2, 0, b"hi")),
    Step::Call(Action::Mkdir(1, b"d")),
    Step::Drain,
    Step::Call(Action::Unlink(1, b"a")),
];

/// The same, and one that gives it another name.
static OTHER_NAME: [Step<'static>; 6] = [
    Step::Make,
    Step::Call(Action::Create(1, b"a")),
    Step::Call(Action::Write(2, 0, b"hi")),
    Step::Call(Action::Mkdir(1, b"d")),
    Step::Drain,
    Step::Call(Action::Rename(1, b"a", 3, b"b")),
];

/// Reclaims, and tells what was done with each inode, or that nothing was.
fn tell_repairs(pair: &mut Pair, fs: Fs, out: &mut Out) {
    let repairs = match pair.reclaim(fs) {
        Ok(repairs) => repairs,
        Err(fault) => {
            out.tell(" {},", &[Value::Fault(fault)]);
            return;
        }
    };
    let mut is_done = false;
    for number in 1..=128u16 {
        let inode = Value::Number(u64::from(number));
        match repairs.of(number) {
            Repair::Keep => continue,
            Repair::GiveUp => out.tell(" freed {},", &[inode]),
            Repair::SetLinks(links) => {
                let links = Value::Number(u64::from(links));
                out.tell(" links of {} set to {},", &[inode, links])
            }
        }
        is_done = true;
    }
    if !is_done {
        out.tell(" nothing,", &[]);
    }
}

/// Takes steps on a fresh disk, makes so many writes, crashes, and reclaims twice: nothing the second time.
fn tell_reclaim(
    rt: &(impl Threads + Sync),
    alloc: Global,
    systems: [Fs; 2],
    steps: &[Step],
    writes: u64,
    out: &mut Out,
) -> Result<(), AllocError> {
    let fs = systems[0];
    let mut pair = Pair::format(rt, alloc, BLOCKS, systems)?;
    pair.take_all(fs, steps);
    let (left, _) = write_pending(&mut pair, writes, Last::Finished);
    let is_open = pair.is_open_after(rt, fs, &[]);
    let free = pair.take(fs, &Step::Free).unwrap_or(0);
    let values = [
        Value::Number(writes),
        Value::Truth(left == 0 && is_open),
        Value::Number(free),
    ];
    out.tell("{} writes: mounted {}, {} blocks free", &values);
    for _ in 0..2 {
        out.tell(";", &[]);
        tell_repairs(&mut pair, fs, out);
        out.tell(" {} blocks free", &[Value::Number(pair.free(fs))]);
    }
    out.tell("\n", &[]);
    Ok(())
}

/// Reclaims behind crashes in an unlink and in a rename.
pub fn tell_reclaims(
    rt: &(impl Threads + Sync),
    alloc: Global,
    systems: [Fs; 2],
    out: &mut Out,
) -> Result<(), AllocError> {
    for writes in 0..3 {
        out.tell("an unlink, ", &[]);
        tell_reclaim(rt, alloc, systems, &UNLINK, writes, out)?;
    }
    for writes in 3..6 {
        out.tell("a rename, ", &[]);
        tell_reclaim(rt, alloc, systems, &OTHER_NAME, writes, out)?;
    }
    Ok(())
}

/// A file that is made, written, renamed and taken away.
static LIFE: [Step<'static>; 4] = [
    Step::Call(Action::Create(1, b"a")),
    Step::Call(Action::Write(2, 0, b"hi")),
    Step::Call(Action::Rename(1, b"a", 1, b"b")),
    Step::Call(Action::Unlink(1, b"b")),
];

/// Makes a volume and four files, with so many writes at most, of which the last one goes so far; how many are left then.
fn live(pair: &mut Pair, fs: Fs, writes: u64, last: Last) -> u64 {
    let _ = pair.take(fs, &Step::Make);
    let (mut left, _) = write_pending(pair, writes, last);
    for _ in 0..4 {
        for step in &LIFE {
            if left > 0 {
                let _ = pair.take(fs, step);
                (left, _) = write_pending(pair, left, last);
            }
        }
    }
    left
}

/// The names after so many writes; `None` where there is no volume.
fn names_after(writes: u64) -> Option<&'static str> {
    match writes {
        0..3 => None,
        3..6 | 12..14 => Some(""),
        6..10 => Some(" a"),
        10..12 => Some(" b"),
        _ => match (writes - 14) % 9 {
            1..5 => Some(" a"),
            5..7 => Some(" b"),
            _ => Some(""),
        },
    }
}

/// Makes so many writes on a fresh disk, the last one so far, and crashes; whether that leaves the names after so many writes, on a disk that is
/// sound. It keeps the open writes, or loses them.
fn is_left(
    rt: &(impl Threads + Sync),
    alloc: Global,
    systems: [Fs; 2],
    made: u64,
    last: Last,
    is_kept: bool,
    writes: u64,
) -> Result<bool, AllocError> {
    let fs = systems[0];
    let mut pair = Pair::format(rt, alloc, BLOCKS, systems)?;
    let _ = live(&mut pair, fs, made, last);
    if pair.crash(rt, if is_kept { &ALL } else { &[] }).is_none() {
        return Ok(false);
    }
    let opened = pair.take(fs, &Step::Open);
    let (names, _) = names_in(alloc, &mut pair, fs, 1)?;
    Ok(match names_after(writes) {
        None => opened == Err(FfsFault::NoEntry),
        Some(wanted) => opened.is_ok() && names.as_str() == wanted,
    })
}

/// Tells after how many of the crashes the names were those that they should be. A write that is not synced counts where the crash
/// keeps it.
pub fn tell_lives(
    rt: &(impl Threads + Sync),
    alloc: Global,
    systems: [Fs; 2],
    out: &mut Out,
) -> Result<(), AllocError> {
    let mut pair = Pair::format(rt, alloc, BLOCKS, systems)?;
    let left = live(&mut pair, systems[0], 100, Last::Finished);
    out.tell(
        "four files: {} writes\n",
        &[Value::Number(100u64.saturating_sub(left))],
    );
    for (last, word) in [
        (Last::Landed, "landed"),
        (Last::Synced, "synced"),
        (Last::Finished, "finished"),
    ] {
        for (is_kept, open) in [(false, "none"), (true, "all")] {
            let is_lost = last == Last::Landed && !is_kept;
            let mut good = 0u64;
            for made in 0..=40u64 {
                let writes = if is_lost {
                    made.saturating_sub(1)
                } else {
                    made
                };
                if is_left(rt, alloc, systems, made, last, is_kept, writes)? {
                    good = good.saturating_add(1);
                }
            }
            out.tell(
                "a crash after each write, the last one {}, keeps {}: {} of 41 as they should be\n",
                &[Value::Text(word), Value::Text(open), Value::Number(good)],
            );
        }
    }
    Ok(())
}
