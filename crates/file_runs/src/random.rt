// Pseudo-random calls of two file systems beside each other, with writes, device faults and crashes between, compared with a
// plain model. Templates are installed meanwhile, and a crash keeps some of the writes that are not synced. The same in each run.

use crate::out::{Out, Value};
use crate::pair::{Event, Pair, Step, Told};
use crate::plain::{BAD_NAMES, BYTES, LAST_WRITTEN, NAMES, Plain};
use ffs_format::templates;
use ffs_lib::{FfsFault, Fs};
use pseudo_random::Numbers;
use std::alloc::{AllocError, Global};
use std::thread::Threads;
use store_types::BLOCK_LEN;
use templates::{Template, write_block};
use volume_pair::Action;

/// How many bytes a write has at most.
const MOST: usize = 700;

/// How many blocks the disk has.
const BLOCKS: usize = 48;

/// How many disks without templates are begun with, how many calls are made on each, and of how many one is followed by a crash.
const STARTS: u32 = 100;

const CALLS_OF_A_START: u32 = 24;

const CRASHES_OF_A_START: u16 = 6;

/// How many calls are made on a disk with templates, and of how many one is followed by a crash.
const CALLS: u32 = 2000;

const CRASHES: u16 = 32;

/// What happened how often.
#[derive(Clone, Copy)]
struct Tally {
    done: u32,
    faults: u32,
    refused: u32,
    crashes: u32,
    /// Mounts that reached fewer blocks than block 0 and the library's three templates.
    untyped: u32,
    /// Templates that were installed beside the library's.
    installed: u32,
    device_faults: u32,
    failed_syncs: u32,
    /// Writes that were not synced at a crash, and how many of them it kept.
    open_writes: u32,
    kept_writes: u32,
    /// Answers, bytes and names that were not those of the plain model, and writes that were finished unsynced.
    wrong: u32,
    /// Mounts that were refused, and names without an inode in use with links enough.
    unsound: u32,
}

/// A run: the two file systems, the numbers, what each should hold, room for what one does hold, and which blocks were written, well or
/// not, since their last good sync.
struct Run {
    pair: Pair,
    numbers: Numbers,
    templates: Vec<Template>,
    /// Of how many calls one is followed by a crash.
    crashes: u16,
    systems: [Fs; 2],
    plains: [Plain; 2],
    seen: Plain,
    is_open: [bool; BLOCKS],
    tally: Tally,
}

impl Drop for Run {
    fn drop(self) {
        let Run {
            pair: _,
            numbers: _,
            templates: _,
            crashes: _,
            systems: _,
            plains: _,
            seen: _,
            is_open: _,
            tally: _,
        } = self;
    }
}

/// Counts one more.
fn count(number: &mut u32, holds: bool) {
    if holds {
        *number = number.saturating_add(1);
    }
}

impl Run {
    /// One of the two file systems.
    fn fs(&self, second: bool) -> Fs {
        self.systems[usize::from(second)]
    }

    /// What it should hold.
    fn plain(&self, second: bool) -> &Plain {
        &self.plains[usize::from(second)]
    }

    /// What a call of it should answer.
    fn wanted(&mut self, second: bool, action: &Action) -> Told {
        self.plains[usize::from(second)].call(action)
    }

    /// An inode of one of the two, of a mode most often.
    fn inode(&mut self, second: bool, mode: u16) -> u16 {
        for _ in 0..4 {
            let inode = self.numbers.below(LAST_WRITTEN + 2);
            if self.plains[usize::from(second)].node(inode).mode == mode {
                return inode;
            }
        }
        1
    }

    /// A name, which a directory has or has not most often; one in sixteen is none.
    fn name(&mut self, second: bool, directory: u16, there: bool) -> &'static [u8] {
        for _ in 0..4 {
            let name = self.numbers.pick(&NAMES);
            if self.plains[usize::from(second)].has_name(directory, name) == there {
                return name;
            }
        }
        self.numbers.pick(&BAD_NAMES)
    }

    /// The next call, with these bytes to be written.
    fn action<'a>(&mut self, second: bool, bytes: &'a [u8]) -> Action<'a> {
        let directory = self.inode(second, 2);
        match self.numbers.below(16) {
            0..4 => Action::Create(directory, self.name(second, directory, false)),
            4 => Action::Mkdir(directory, self.name(second, directory, false)),
            5..9 => {
                let inode = self.inode(second, 1).min(LAST_WRITTEN);
                let offset = u32::from(self.numbers.below((BYTES - MOST) as u16));
                Action::Write(inode, offset, bytes)
            }
            9..12 => Action::Unlink(directory, self.name(second, directory, true)),
            12 => Action::Rmdir(directory, self.name(second, directory, true)),
            13 => {
                let name = self.name(second, directory, true);
                let other = self.inode(second, 2);
                Action::Replace(directory, name, other, self.name(second, other, true))
            }
            _ => {
                let name = self.name(second, directory, true);
                let other = self.inode(second, 2);
                Action::Rename(directory, name, other, self.name(second, other, false))
            }
        }
    }

    /// Makes a call, and compares the answer. After a refusal of the store the model takes what was left.
    fn call(&mut self, second: bool) {
        let fs = self.fs(second);
        let mut bytes = [0; MOST];
        let length = usize::from(self.numbers.below(MOST as u16));
        for byte in bytes[..length].iter_mut() {
            *byte = self.numbers.byte(256);
        }
        let action = self.action(second, &bytes[..length]);
        let told = self.pair.call(fs, action);
        let wanted = self.wanted(second, &action);
        if let Err(FfsFault::Kernel(_)) = told {
            count(&mut self.tally.refused, true);
            count(&mut self.tally.wrong, wanted.is_err());
            self.take(second);
        } else {
            count(&mut self.tally.done, told.is_ok());
            count(&mut self.tally.faults, told.is_err());
            count(&mut self.tally.wrong, told != wanted);
        }
    }

    /// Reads what a file system holds.
    fn scan(&mut self, second: bool) {
        let fs = self.systems[usize::from(second)];
        let is_known = self.pair.scan(fs, &mut self.seen);
        count(&mut self.tally.unsound, !is_known || !self.seen.is_sound());
    }

    /// The model takes what a file system holds.
    fn take(&mut self, second: bool) {
        let at = usize::from(second);
        self.scan(second);
        let plain = &mut self.plains[at];
        std::mem::swap(&mut self.seen, plain);
    }

    /// Whether what was read last is what one of the two should hold.
    fn is_seen(&self, second: bool) -> bool {
        let plain = &self.plains[usize::from(second)];
        self.seen.is(plain)
    }

    /// Compares with the model what a file system holds.
    fn compare(&mut self, second: bool) {
        self.scan(second);
        let is_same = self.is_seen(second);
        count(&mut self.tally.wrong, !is_same);
    }

    /// Reads some of a file, and compares it with the model.
    fn read(&mut self, second: bool) {
        let fs = self.fs(second);
        let inode = self.inode(second, 1).min(LAST_WRITTEN);
        let offset = self.numbers.below((BYTES - MOST) as u16);
        let mut bytes = [0; MOST];
        let answer = self.pair.read(fs, inode, u32::from(offset), &mut bytes);
        let is_same = self
            .plain(second)
            .is_read(inode, usize::from(offset), &bytes, answer);
        count(&mut self.tally.wrong, !is_same);
    }

    /// Lists a directory, and compares it with the model.
    fn list(&mut self, second: bool) {
        let fs = self.fs(second);
        let directory = self.inode(second, 2);
        let answer = self.pair.list(fs, directory);
        let is_same = self.plain(second).is_list(directory, &answer);
        count(&mut self.tally.wrong, !is_same);
    }

    /// A block: the least that may be written, or any.
    fn block(&mut self) -> u32 {
        let any = u32::from(self.numbers.below(BLOCKS as u16));
        if self.numbers.below(4) == 0 {
            any
        } else {
            self.pair.pick().unwrap_or(any)
        }
    }

    /// A block that was written since its last good sync, or any.
    fn open_block(&mut self) -> u32 {
        let from = usize::from(self.numbers.below(BLOCKS as u16));
        for at in from..BLOCKS {
            if self.is_open[at] {
                return at as u32;
            }
        }
        from as u32
    }

    /// An event of a block; whether it is done. None finishes a write that isn't synced.
    fn happens(&mut self, event: Event, block: u32) -> bool {
        let is_done = self.pair.happens(event);
        if let Some(is_open) = self.is_open.get_mut(block as usize)
            && is_done
        {
            match event {
                Event::Land(_) | Event::Fail(_, _) => *is_open = true,
                Event::Sync(_) => *is_open = false,
                Event::Finish(_) => count(&mut self.tally.wrong, *is_open),
                _ => {}
            }
        }
        is_done
    }

    /// Some events of the device.
    fn events(&mut self) {
        for _ in 0..self.numbers.below(12) {
            let block = self.block();
            match self.numbers.below(32) {
                0 => self.happen(block, &[Event::Begin(block)]),
                1 => self.happen(block, &[Event::Land(block)]),
                2 => self.happen(block, &[Event::Sync(block)]),
                3 => self.happen(block, &[Event::Finish(block)]),
                4 => self.fail(block),
                5 => self.fail_sync(block),
                6..8 => self.happen(block, &[Event::Begin(block), Event::Land(block)]),
                8..12 => {
                    let block = self.open_block();
                    self.happen(block, &[Event::Sync(block), Event::Finish(block)]);
                }
                _ => self.happen(block, &[Event::Write(block)]),
            }
        }
    }

    /// Events of a block, each whatever the one before came to.
    fn happen(&mut self, block: u32, events: &[Event]) {
        for event in events {
            let _ = self.happens(*event, block);
        }
    }

    /// A write that fails. It is synced most often.
    fn fail(&mut self, block: u32) {
        let stays = self.numbers.below(2) == 0;
        let is_failed = self.happens(Event::Begin(block), block)
            && self.happens(Event::Fail(block, stays), block);
        count(&mut self.tally.device_faults, is_failed);
        if self.numbers.below(4) > 0 {
            self.happen(block, &[Event::Sync(block)]);
        }
        self.happen(block, &[Event::Finish(block)]);
    }

    /// A write that is not synced, as the sync fails.
    fn fail_sync(&mut self, block: u32) {
        self.happen(block, &[Event::Begin(block), Event::Land(block)]);
        let is_failed = self.happens(Event::FailSync(block), block);
        count(&mut self.tally.failed_syncs, is_failed);
        self.happen(block, &[Event::Finish(block)]);
    }

    /// Installs one of the library's templates once more, or tries it with a block that is none.
    fn install(&mut self) {
        let block = match self.templates.get(usize::from(self.numbers.below(4))) {
            Some(template) => write_block(template),
            None => [0; BLOCK_LEN],
        };
        let is_installed = self.pair.happens(Event::Install(block));
        count(&mut self.tally.installed, is_installed);
        count(&mut self.tally.wrong, is_installed && block[0] == 0);
    }

    /// Opens both volumes, or makes one where it isn't there, and the model takes what they hold.
    fn open(&mut self) {
        for second in [false, true] {
            let fs = self.systems[usize::from(second)];
            let opened = match self.pair.take(fs, &Step::Open) {
                Err(FfsFault::NoEntry) => self.pair.take(fs, &Step::Make),
                opened => opened,
            };
            count(&mut self.tally.unsound, opened.is_err());
            self.take(second);
        }
    }

    /// The blocks whose open writes a crash keeps: none, all, or some of them.
    fn kept(&mut self, alloc: Global) -> Result<Vec<u32>, AllocError> {
        let mut kept = Vec::new(alloc);
        let share = self.numbers.below(4);
        for block in 0..BLOCKS {
            if !self.is_open[block] {
                continue;
            }
            count(&mut self.tally.open_writes, true);
            if share == 1 || (share > 1 && self.numbers.below(2) == 0) {
                count(&mut self.tally.kept_writes, true);
                kept.push(block as u32)?;
            }
        }
        Ok(kept)
    }

    /// A crash.
    fn crash(&mut self, rt: &(impl Threads + Sync), alloc: Global) -> Result<(), AllocError> {
        count(&mut self.tally.crashes, true);
        let kept = self.kept(alloc)?;
        let reached = self.pair.crash(rt, &kept);
        self.is_open = [false; BLOCKS];
        match reached {
            Some(reached) => count(&mut self.tally.untyped, reached < 4),
            None => count(&mut self.tally.unsound, true),
        }
        self.open();
        Ok(())
    }

    /// One call of either file system, and what goes on beside it.
    fn turn(&mut self, rt: &(impl Threads + Sync), alloc: Global) -> Result<(), AllocError> {
        let second = self.numbers.below(2) == 0;
        self.call(second);
        self.events();
        match self.numbers.below(32) {
            0 => self.install(),
            1 => self.compare(second),
            2..6 => self.read(second),
            6..10 => self.list(second),
            _ => {}
        }
        if self.numbers.below(self.crashes.max(1)) == 0 {
            self.crash(rt, alloc)?;
        }
        Ok(())
    }

    /// Before the first call, which are not the same for each `first`.
    fn new(
        alloc: Global,
        pair: Pair,
        systems: [Fs; 2],
        first: u64,
        crashes: u16,
    ) -> Result<Run, AllocError> {
        Ok(Run {
            pair,
            numbers: Numbers { state: first },
            templates: templates(alloc)?,
            crashes,
            systems,
            plains: [Plain::new(alloc)?, Plain::new(alloc)?],
            seen: Plain::new(alloc)?,
            is_open: [false; BLOCKS],
            tally: Tally {
                done: 0,
                faults: 0,
                refused: 0,
                crashes: 0,
                untyped: 0,
                installed: 0,
                device_faults: 0,
                failed_syncs: 0,
                open_writes: 0,
                kept_writes: 0,
                wrong: 0,
                unsound: 0,
            },
        })
    }

    /// Makes so many calls on a disk of which nothing is known.
    fn make_calls(
        &mut self,
        rt: &(impl Threads + Sync),
        alloc: Global,
        calls: u32,
    ) -> Result<(), AllocError> {
        self.is_open = [false; BLOCKS];
        self.open();
        for _ in 0..calls {
            self.turn(rt, alloc)?;
        }
        Ok(())
    }

    /// Tells what happened.
    fn tell(&self, out: &mut Out) {
        let tally = &self.tally;
        for (text, counts) in [
            (
                "{} done, {} faults, {} refused, {} templates installed\n",
                [tally.done, tally.faults, tally.refused, tally.installed],
            ),
            (
                "{} crashes, {} before the library's types were on the disk, {} failed writes, {} failed syncs, ",
                [
                    tally.crashes,
                    tally.untyped,
                    tally.device_faults,
                    tally.failed_syncs,
                ],
            ),
            (
                "{} of {} open writes kept\n{} wrong, {} unsound\n",
                [
                    tally.kept_writes,
                    tally.open_writes,
                    tally.wrong,
                    tally.unsound,
                ],
            ),
        ] {
            let [one, two, three, four] = counts;
            out.tell(
                text,
                &[
                    Value::Number(u64::from(one)),
                    Value::Number(u64::from(two)),
                    Value::Number(u64::from(three)),
                    Value::Number(u64::from(four)),
                ],
            );
        }
    }
}

/// Makes calls on a disk with the library's types, and tells what happened.
pub fn tell_random(
    rt: &(impl Threads + Sync),
    alloc: Global,
    pair: Pair,
    systems: [Fs; 2],
    out: &mut Out,
) -> Result<(), AllocError> {
    let mut run = Run::new(alloc, pair, systems, 1, CRASHES)?;
    run.make_calls(rt, alloc, CALLS)?;
    out.tell(
        "{} calls of two file systems:\n",
        &[Value::Number(u64::from(CALLS))],
    );
    run.tell(out);
    Ok(())
}

/// Makes some calls on each of many disks without templates, on which the library's types are installed first, and tells what happened.
pub fn tell_starts(
    rt: &(impl Threads + Sync),
    alloc: Global,
    systems: [Fs; 2],
    out: &mut Out,
) -> Result<(), AllocError> {
    let pair = Pair::bare(rt, alloc, BLOCKS as u32, systems)?;
    let mut run = Run::new(alloc, pair, systems, 2, CRASHES_OF_A_START)?;
    run.make_calls(rt, alloc, CALLS_OF_A_START)?;
    for _ in 1..STARTS {
        run.pair = Pair::bare(rt, alloc, BLOCKS as u32, systems)?;
        run.make_calls(rt, alloc, CALLS_OF_A_START)?;
    }
    out.tell(
        "{} calls on each of {} disks where the library's types were just installed:\n",
        &[
            Value::Number(u64::from(CALLS_OF_A_START)),
            Value::Number(u64::from(STARTS)),
        ],
    );
    run.tell(out);
    Ok(())
}
