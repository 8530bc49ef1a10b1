// A small library file system, taken through a few changes, with a crash after each step of each of their writes. Prints how many crashes left the
// files as before the change, and how many as after it.
// May touch: memory, threads, streams.
#![tactic(auto)]

mod directory;

use directory::{Directory, Fault};
use edit_list::Fs;
use std::alloc::Global;
use std::io;
use std::thread::Threads;
use store_types::{BLOCK_LEN, Refusal};
use world::{Running, World};
use xn_state::{Event, Store};

/// How many blocks the disk has.
const BLOCKS: u32 = 32;

/// The type that is installed first.
const DIRECTORY: u32 = 3;

/// How many blocks are written at most for a change.
const MOST_WRITES: u32 = 8;

/// How many steps are tried at most.
const MOST_STEPS: u32 = 200;

/// The template of a directory, as `xnsim asm` assembles it in the tutorial; zeros stand behind it.
const TEMPLATE: [u8; 44] = [
    0x58, 0x54, 9, 1, 0x01, 1, 32, 0, 0x01, 5, 2, 0, 0x12, 2, 16, 0, 0x05, 3, 2, 1, 0x0c, 4, 3, 0,
    0x0e, 0, 4, 0, 0x0d, 4, 5, 0, 0x11, 0, 0, 0, 0x11, 0, 0, 0, 0x01, 0, 0, 2,
];

/// A change of the store, made whole or not at all.
#[derive(Clone, Copy)]
enum Change {
    Install,
    Make,
    Put(&'static str, &'static str),
    Remove(&'static str),
}

/// The files of a directory: names and texts.
type Files = &'static [(&'static str, &'static str)];

/// The changes, and what files there are after each; `None` is for no directory.
const CHANGES: [(Change, Option<Files>); 6] = [
    (Change::Install, None),
    (Change::Make, Some(&[])),
    (Change::Put("a", "one"), Some(&[("a", "one")])),
    (Change::Put("b", "two"), Some(&[("a", "one"), ("b", "two")])),
    (
        Change::Put("a", "three"),
        Some(&[("a", "three"), ("b", "two")]),
    ),
    (Change::Remove("b"), Some(&[("a", "three")])),
];

/// A block that begins with these bytes.
fn block_of(bytes: &[u8]) -> [u8; BLOCK_LEN] {
    let mut block = [0; BLOCK_LEN];
    for (to, from) in block.iter_mut().zip(bytes) {
        *to = *from;
    }
    block
}

/// Makes a change.
fn make(alloc: Global, store: &mut Running, fs: Fs, change: Change) -> Result<(), Fault> {
    match change {
        Change::Install => {
            let _ = store.step(&Event::Install(block_of(&TEMPLATE)));
            Ok(())
        }
        Change::Make => Directory::make(store, fs, DIRECTORY).map(|_| ()),
        Change::Put(name, text) => {
            let block = block_of(text.as_bytes());
            Directory::open(store, fs, DIRECTORY)?.put(alloc, store, name.as_bytes(), &block)
        }
        Change::Remove(name) => {
            Directory::open(store, fs, DIRECTORY)?.remove(alloc, store, name.as_bytes())
        }
    }
}

/// Writes all that is pending, in at most so many steps; whether they were enough.
fn write(store: &mut Running, steps: &mut u32) -> bool {
    for _ in 0..MOST_WRITES {
        let Some(block) = store.kernel().state().pick() else {
            return true;
        };
        for event in [
            Event::Begin(block),
            Event::Land(block),
            Event::Sync(block),
            Event::Finish(block),
        ] {
            if *steps == 0 {
                return false;
            }
            *steps -= 1;
            let _ = store.step(&event);
        }
    }
    false
}

/// Whether these are the files.
fn has(alloc: Global, store: &Running, fs: Fs, files: Option<Files>) -> Result<bool, Fault> {
    let (directory, files) = match (Directory::open(store, fs, DIRECTORY), files) {
        (Ok(directory), Some(files)) => (directory, files),
        (Err(Fault::NoDirectory), None) => return Ok(true),
        _ => return Ok(false),
    };
    let names = directory.list(alloc, store)?;
    if names.len() != files.len() {
        return Ok(false);
    }
    for (name, text) in files {
        if directory.get(store, name.as_bytes()) != Ok(block_of(text.as_bytes())) {
            return Ok(false);
        }
    }
    Ok(true)
}

/// What a crash left.
#[derive(Clone, Copy, PartialEq, Eq)]
enum Left {
    /// The files from before a change.
    Before,
    /// The files after it.
    After,
    /// All changes were made and written before the crash came.
    All,
    /// Anything else.
    Wrong,
}

/// All blocks, or none.
fn blocks(alloc: Global, all: bool) -> Result<Vec<u32>, Fault> {
    let mut blocks = Vec::new(alloc);
    for block in 0..if all { BLOCKS } else { 0 } {
        blocks.push(block)?;
    }
    Ok(blocks)
}

/// Crashes, and says what that left of the files from before a change and after it.
fn crash(
    rt: &(impl Threads + Sync),
    alloc: Global,
    store: Running,
    fs: Fs,
    keeps: bool,
    before: Option<Files>,
    after: Option<Files>,
) -> Result<Left, Fault> {
    let mut world = World::up(store);
    let _ = world.step(rt, &Event::Crash(blocks(alloc, keeps)?));
    let Ok(store) = world.into_running() else {
        return Err(Fault::Kernel(Refusal::NoMemory));
    };
    if has(alloc, &store, fs, after)? {
        Ok(Left::After)
    } else if has(alloc, &store, fs, before)? {
        Ok(Left::Before)
    } else {
        Ok(Left::Wrong)
    }
}

/// Makes the changes on a fresh disk, each written before the next, and crashes after so many steps of these writes. The crash keeps what was
/// written and not synced, or loses it.
fn run(
    rt: &(impl Threads + Sync),
    alloc: Global,
    fs: Fs,
    steps: u32,
    keeps: bool,
) -> Result<Left, Fault> {
    let Ok(world) = World::format(rt, alloc, BLOCKS, &[]) else {
        return Err(Fault::Kernel(Refusal::NoMemory));
    };
    let Ok(mut store) = world.into_running() else {
        return Err(Fault::Kernel(Refusal::NoMemory));
    };
    let mut left = steps;
    let mut before = None;
    for (change, after) in CHANGES {
        make(alloc, &mut store, fs, change)?;
        if !write(&mut store, &mut left) {
            return crash(rt, alloc, store, fs, keeps, before, after);
        }
        before = after;
    }
    match crash(rt, alloc, store, fs, keeps, before, before)? {
        Left::After => Ok(Left::All),
        _ => Ok(Left::Wrong),
    }
}

/// Crashes after each step, and prints what that left.
fn crash_everywhere(
    rt: &(impl Threads + Print + Sync),
    alloc: Global,
    fs: Fs,
    keeps: bool,
) -> io::Result<()> {
    let (mut before, mut after, mut wrong) = (0u32, 0u32, 0u32);
    for steps in 0..MOST_STEPS {
        match run(rt, alloc, fs, steps, keeps) {
            Ok(Left::Before) => before = before.saturating_add(1),
            Ok(Left::After) => after = after.saturating_add(1),
            Ok(Left::All) => break,
            _ => wrong = wrong.saturating_add(1),
        }
    }
    let open = if keeps { "kept" } else { "lost" };
    println!(rt;
        "what was not synced is {open}: {before} crashes left the files from before a change, {after} those after it, {wrong} others"
    )
}

fn main(rt: HostRuntime) -> io::Result<()> {
    let alloc = rt.alloc();
    let Some(fs) = Fs::new(0) else {
        return Ok(());
    };
    for keeps in [false, true] {
        crash_everywhere(&rt, alloc, fs, keeps)?;
    }
    Ok(())
}
