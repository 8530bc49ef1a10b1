// The calls of a volume, one after another, with the writes that each takes: over a world, over a kernel alone, and over one under a lock. And
// two threads that make calls at once, each of a file system of its own.

ghost use Rattle.std.specs.Prelude.{◌≡◌};
ghost use Rattle.durable_floor.specs.Rules.{zero_floor};

use crate::out::{Out, Value};
use crate::pair::{Pair, Step, Told, take};
use durable_floor::{Floor, Naming, Publisher};
use ffs_lib::Fs;
use shared::{Held, Locked};
use std::alloc::{AllocError, Global};
use std::marker::Brand;
use std::sync::Wait;
use std::thread::{Threads, join};
use volume_pair::{Action, Disk, Files, Open, SharedFiles, fresh_kernel, share};

/// One who takes steps on a store.
trait Caller {
    /// Takes a step.
    fn take(&mut self, fs: Fs, step: &Step) -> Told;
}

impl Caller for Pair {
    fn take(&mut self, fs: Fs, step: &Step) -> Told {
        Pair::take(self, fs, step)
    }
}

/// One who has the store.
struct Owning<S: Disk + Drop> {
    alloc: Global,
    files: Files<S>,
}

impl<S: Disk + Drop> Drop for Owning<S> {
    fn drop(self) {
        let Owning { alloc: _, files: _ } = self;
    }
}

impl<S: Disk + Drop> Caller for Owning<S> {
    fn take(&mut self, fs: Fs, step: &Step) -> Told {
        take(&mut self.files, self.alloc, fs, step)
    }
}

/// One who takes the lock for each step.
#[derive(Drop)]
struct Locking<'a, R: Wait, H: Held> {
    rt: &'a R,
    alloc: Global,
    files: &'a Locked<H, Open>,
}

impl<R: Wait, S: Disk + Drop> Caller for Locking<'_, R, Files<S>>
where
    Files<S>: Held,
{
    fn take(&mut self, fs: Fs, step: &Step) -> Told {
        self.files
            .with(self.rt, |files| take(files, self.alloc, fs, step))
    }
}

/// The calls, by the words that are printed of them.
static ROWS: [(&str, Step<'static>); 5] = [
    ("make", Step::Make),
    ("create a", Step::Call(Action::Create(1, b"a"))),
    ("write hi", Step::Call(Action::Write(2, 0, b"hi"))),
    ("rename a b", Step::Call(Action::Rename(1, b"a", 1, b"b"))),
    ("unlink b", Step::Call(Action::Unlink(1, b"b"))),
];

/// Tells how many blocks are free, and the next entry's number.
fn tell_counts(out: &mut Out, caller: &mut impl Caller, fs: Fs) {
    if let (Ok(free), Ok(next)) = (caller.take(fs, &Step::Free), caller.take(fs, &Step::Floor)) {
        let counts = [Value::Number(free), Value::Number(next)];
        out.tell("{} blocks free, next entry {}\n", &counts);
    }
}

/// Makes a volume and a file, writes into it, and takes it away again.
fn tell_rows(out: &mut Out, caller: &mut impl Caller, fs: Fs) {
    for (name, step) in &ROWS {
        let told = caller.take(fs, step);
        let writes = Value::Number(caller.take(fs, &Step::Drain).unwrap_or(0));
        let name = Value::Text(name);
        match (step, told) {
            (_, Err(_)) => out.tell("{}: refused\n", &[name]),
            (Step::Make, _) => {
                out.tell("{}: inode 1, {} writes\n", &[name, writes]);
                tell_counts(out, caller, fs);
            }
            (_, Ok(0)) => out.tell("{}: {} writes\n", &[name, writes]),
            (_, Ok(inode)) => out.tell(
                "{}: inode {}, {} writes\n",
                &[name, Value::Number(inode), writes],
            ),
        }
    }
    tell_counts(out, caller, fs);
}

/// The rows over a world, and over a kernel alone.
pub fn tell_alone(
    rt: &(impl Threads + Sync),
    alloc: Global,
    systems: [Fs; 2],
    out: &mut Out,
) -> Result<(), AllocError> {
    let [first, second] = systems;
    let mut pair = Pair::format(rt, alloc, 32, systems)?;
    tell_rows(out, &mut pair, first);
    let files = Files::new(fresh_kernel(rt, alloc, 32)?, first, second);
    out.tell("over a kernel alone:\n", &[]);
    tell_rows(out, &mut Owning { alloc, files }, first);
    Ok(())
}

/// How many calls a thread makes after its volume is made.
const CALLS: usize = 12;

/// The calls of a thread, each with what it should answer.
static WORK: [(Action<'static>, u64); CALLS] = [
    (Action::Create(1, b"a"), 2),
    (Action::Mkdir(1, b"d"), 3),
    (Action::Write(2, 0, b"first"), 0),
    (Action::Create(3, b"b"), 4),
    (Action::Write(4, 510, b"over two blocks"), 0),
    (Action::Rename(1, b"a", 3, b"c"), 0),
    (Action::Create(1, b"a"), 5),
    (Action::Write(5, 6144, b"behind the direct blocks"), 0),
    (Action::Unlink(3, b"b"), 0),
    (Action::Mkdir(3, b"e"), 4),
    (Action::Rmdir(3, b"e"), 0),
    (Action::Write(2, 5, b" and second"), 0),
];

/// Makes a volume and calls of it, and writes all that is pending after each. Answers how many answers were as they should be.
fn work(caller: &mut impl Caller, fs: Fs) -> u64 {
    let mut right = 0u64;
    if caller.take(fs, &Step::Make).is_ok() && caller.take(fs, &Step::Drain).is_ok() {
        right = 1;
    }
    for (action, wanted) in &WORK {
        let told = caller.take(fs, &Step::Call(*action));
        if told == Ok(*wanted) && caller.take(fs, &Step::Drain).is_ok() {
            right = right.wrapping_add(1);
        }
    }
    right
}

/// Tells the names in a directory with their inodes.
fn tell_names<K: Naming, R: Wait>(
    rt: &R,
    alloc: Global,
    files: &SharedFiles<K>,
    fs: Fs,
    directory: u16,
    out: &mut Out,
) {
    let place = [
        Value::Number(u64::from(fs.number())),
        Value::Number(u64::from(directory)),
    ];
    out.tell("file system {}, directory {}:", &place);
    match files.with(rt, |files| files.list(alloc, fs, directory)) {
        Ok(names) => {
            for (name, inode) in &names {
                let name = Value::Text(str::from_utf8(name).unwrap_or("?"));
                out.tell(" {} {}", &[name, Value::Number(u64::from(*inode))]);
            }
        }
        Err(_) => out.tell(" none", &[]),
    }
    out.tell("\n", &[]);
}

/// Two threads, each with a file system of its own.
fn tell_two<K: Naming + Send + Sync, R: Threads + Wait + Sync>(
    rt: &R,
    alloc: Global,
    files: &SharedFiles<K>,
    systems: [Fs; 2],
    out: &mut Out,
) {
    let [first, second] = systems;
    let (one, two) = join(
        rt,
        || work(&mut Locking { rt, alloc, files }, first),
        || work(&mut Locking { rt, alloc, files }, second),
    );
    out.tell(
        "two threads at once: {} and {} answers as they should be, of 13\n",
        &[Value::Number(one), Value::Number(two)],
    );
    for fs in systems {
        for directory in [1, 3] {
            tell_names(rt, alloc, files, fs, directory, out);
        }
    }
    tell_counts(out, &mut Locking { rt, alloc, files }, first);
}

/// The rows under a lock, or two threads at once.
fn tell_locked<K: Naming + Send + Sync, R: Threads + Wait + Sync>(
    rt: &R,
    alloc: Global,
    systems: [Fs; 2],
    floor: Floor,
    publisher: Publisher,
    is_at_once: bool,
    out: &mut Out,
) -> Result<(), AllocError>
    requires floor { floor ≡ K.floor }
    requires publisher { publisher ≡ record { floor = floor; seen = zero_floor } }
{
    let blocks = if is_at_once { 64 } else { 32 };
    let files: SharedFiles<K> = share(rt, alloc, blocks, systems, floor, publisher)?;
    if is_at_once {
        tell_two(rt, alloc, &files, systems, out);
    } else {
        out.tell("over a kernel under a lock:\n", &[]);
        let mut caller = Locking {
            rt,
            alloc,
            files: &files,
        };
        tell_rows(out, &mut caller, systems[0]);
    }
    Ok(())
}

/// The rows over a kernel under a lock, and what two threads leave that make calls at once.
pub fn tell_shared<R: Threads + Wait + Sync>(
    rt: &R,
    alloc: Global,
    systems: [Fs; 2],
    out: &mut Out,
) -> Result<(), AllocError> {
    for is_at_once in [false, true] {
        let (floor, publisher, _readers) = Floor::new(alloc, 0)?;
        tell_locked::<Brand, _>(rt, alloc, systems, floor, publisher, is_at_once, out)?;
    }
    Ok(())
}
