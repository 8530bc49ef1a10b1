// The calls are made.

use crate::edits::{claiming, edit_of, plain, search, some_pointer, some_target, words_of};
use crate::held::{Bytes, put_word, word_at};
use crate::reached::slot;
use crate::record::{Entry, Record};
use crate::shapes::{SHAPES, SPOILS, block_of, shape_of_number, spoiled};
use crate::tally::{Kind, Met, Tally, uninstalled};
use crate::types::{ADDED, FIRST_ADDED};
use crate::writes::Write;
use disk::MemLane;
use pseudo_random::Numbers;
use std::alloc::{AllocError, Global};
use store_types::BLOCK_LEN;
use xn_kernel::{EditId, Fs, Kernel, Refusal, Store};

/// How many file systems make calls.
pub const SYSTEMS: u16 = 8;

/// How many writes are under way at most.
const WRITES: usize = 6;

/// What stands beside the kernel.
#[derive(Drop)]
pub struct Run {
    pub numbers: Numbers,
    pub record: Record,
    pub writes: Vec<Write>,
    pub tally: Tally,
}

/// The entry that a block has accepted.
fn entry_of(block: u32, answer: Result<EditId, Refusal>) -> Result<(u32, u64), Refusal> {
    Ok((block, answer?.number()))
}

/// A block's number as an answer.
fn code(block: Option<u32>) -> u64 {
    match block {
        Some(block) => u64::from(block),
        None => u64::MAX,
    }
}

impl Run {
    /// Before the first call on a disk of so many blocks.
    pub fn new(alloc: Global, blocks: u32) -> Result<Run, AllocError> {
        Ok(Run {
            numbers: Numbers { state: 1 },
            record: Record::new(alloc, blocks)?,
            writes: Vec::new(alloc),
            tally: Tally::new(),
        })
    }

    /// A block, mostly of the file system; some are past the end of the disk.
    pub fn some_block(&mut self, fs: u8) -> u32 {
        let any = self.record.some_number(&mut self.numbers, 2);
        if self.numbers.below(16) == 0 {
            any
        } else {
            search(&self.record, self.record.behind(any, 0), fs, None)
        }
    }

    /// A fresh block of the file system and of a type, if there is one.
    pub fn some_fresh(&mut self, fs: u8, ty: u32) -> u32 {
        let start = self.record.some_number(&mut self.numbers, 0);
        search(&self.record, start, fs, Some(ty))
    }

    /// A type that the disk is not formatted with and that is there, from one on; some are asked for that are not on the disk yet.
    fn added_from(&self, start: u32, is_waiting: bool) -> u32 {
        for step in 0..ADDED {
            let ty = FIRST_ADDED + start.wrapping_add(step) % ADDED;
            if self.record.is_installed(ty) && !(is_waiting && self.record.is_on_disk(ty)) {
                return ty;
            }
        }
        FIRST_ADDED + start % ADDED
    }

    /// A type that the disk is not formatted with, mostly one that is there; now and then any number.
    fn some_added(&mut self) -> u32 {
        let start = u32::from(self.numbers.below(11));
        match self.numbers.below(16) {
            0 => u32::from(self.numbers.below(21)),
            1..=8 => self.added_from(start, true),
            _ => self.added_from(start, false),
        }
    }

    /// One of these types, or where it is 0 one that the disk is not formatted with.
    fn some_type(&mut self, choices: &[u32; 16]) -> u32 {
        match self.numbers.pick(choices) {
            0 => self.some_added(),
            ty => ty,
        }
    }

    /// A block of the file system that may point to blocks of a type, if there is one.
    fn some_owner(&mut self, fs: u8, ty: u32) -> u32 {
        let start = self.record.some_number(&mut self.numbers, 0);
        for step in 0..self.record.blocks {
            let block = self.record.behind(start, step);
            if let Some(life) = self.record.life(block)
                && life.fs == Some(fs)
                && self.record.points_to(life.ty, ty)
            {
                return block;
            }
        }
        start
    }

    /// Takes an accepted entry, and notes what it attaches.
    fn accept(&mut self, entry: Entry) -> Result<(), AllocError> {
        if let Some(added) = entry.adds
            && !self.record.is_empty(added)
        {
            let is_root = entry.block == 0;
            self.tally
                .add(if is_root { Met::Rooted } else { Met::Trees }, 1);
        }
        self.record.accept(entry)
    }

    pub fn init(
        &mut self,
        kernel: &mut Kernel<MemLane>,
        fs: Fs,
        ty: u32,
    ) -> Result<(), AllocError> {
        let words = words_of(&self.record, ty, None);
        let answer = match kernel.init(fs, ty, &first_bytes(words)) {
            Ok((block, entry)) => Ok((block, entry.number())),
            Err(refusal) => Err(refusal),
        };
        self.tally
            .take(Kind::Init, answer, self.record.next_init(ty));
        if let Ok((block, number)) = answer {
            self.record.init(fs.number(), ty, block, number, words)?;
        }
        Ok(())
    }

    fn make_root(&mut self, kernel: &mut Kernel<MemLane>, fs: Fs) -> Result<(), AllocError> {
        let system = fs.number();
        let ty = self.some_type(&[3, 3, 3, 3, 3, 6, 6, 6, 6, 6, 7, 7, 0, 0, 0, 0]);
        let block = self.some_fresh(system, ty);
        let answer = entry_of(0, kernel.make_root(fs, block));
        let wanted = self.record.next_make_root(system, block);
        self.tally.take(Kind::MakeRoot, answer, wanted);
        if answer.is_ok() {
            let mut entry = plain(&mut self.numbers, &self.record, system, 0).entry;
            entry.adds = Some(block);
            entry.after = None;
            entry.words = [
                (slot(system), block),
                (slot(system).saturating_add(4), self.record.kind(block)),
            ];
            self.accept(entry)?;
        }
        Ok(())
    }

    fn drop_root(&mut self, kernel: &mut Kernel<MemLane>, fs: Fs) -> Result<(), AllocError> {
        let system = fs.number();
        let answer = entry_of(0, kernel.drop_root(fs));
        let wanted = self.record.next_drop_root(system);
        self.tally.take(Kind::DropRoot, answer, wanted);
        if answer.is_ok() {
            let mut entry = plain(&mut self.numbers, &self.record, system, 0).entry;
            entry.drops = self.record.root(system);
            entry.after = None;
            entry.words = [(slot(system), 0), (slot(system).saturating_add(4), 0)];
            self.accept(entry)?;
        }
        Ok(())
    }

    fn propose(
        &mut self,
        alloc: Global,
        kernel: &mut Kernel<MemLane>,
        fs: Fs,
        block: u32,
    ) -> Result<(), AllocError> {
        let system = fs.number();
        let ty = self.record.kind(block);
        let mut asked = plain(&mut self.numbers, &self.record, system, block);
        let mut pointer = None;
        if let Some(place) = some_pointer(&mut self.numbers, &self.record, ty)
            && self.numbers.below(8) > 0
        {
            let old = pointed(kernel, fs, block, place.offset);
            let new = some_target(&mut self.numbers, &self.record, &asked, place.ty, old);
            asked = claiming(&mut self.numbers, asked, place.ty, old, new);
            pointer = Some((place.offset, new));
        }
        asked.entry.words = words_of(&self.record, ty, pointer);
        let edit = edit_of(alloc, &asked)?;
        let answer = entry_of(block, kernel.propose(fs, block, &edit));
        let wanted = self.record.next_propose(&asked);
        self.tally.take(Kind::Propose, answer, wanted);
        if answer.is_ok() {
            self.accept(asked.entry)?;
        }
        Ok(())
    }

    /// Forgets this block, or a fresh one.
    fn forget_some(&mut self, kernel: &mut Kernel<MemLane>, fs: Fs, block: u32) {
        let block = if self.numbers.below(6) == 0 {
            block
        } else {
            let ty = self.some_type(&[2, 2, 2, 3, 3, 4, 4, 5, 5, 6, 6, 7, 7, 0, 0, 0]);
            self.some_fresh(fs.number(), ty)
        };
        self.forget(kernel, fs, block);
    }

    /// Forgets a block.
    pub fn forget(&mut self, kernel: &mut Kernel<MemLane>, fs: Fs, block: u32) {
        let answer = match kernel.forget(fs, block) {
            Ok(()) => Ok((block, 0)),
            Err(refusal) => Err(refusal),
        };
        let wanted = self.record.next_forget(fs.number(), block);
        self.tally.take(Kind::Forget, answer, wanted);
        if answer.is_ok() {
            self.record.free(block);
        }
    }

    /// Begins blocks of a type, and sets pointers to such blocks.
    fn use_type(
        &mut self,
        alloc: Global,
        kernel: &mut Kernel<MemLane>,
        fs: Fs,
        ty: u32,
    ) -> Result<(), AllocError> {
        for _ in 0..self.numbers.below(4) {
            self.init(kernel, fs, ty)?;
        }
        for _ in 0..self.numbers.below(4) {
            let block = self.some_owner(fs.number(), ty);
            self.propose(alloc, kernel, fs, block)?;
        }
        Ok(())
    }

    /// Installs a template of one of the shapes, and uses its type; each third block is spoiled.
    fn install(
        &mut self,
        alloc: Global,
        kernel: &mut Kernel<MemLane>,
        fs: Fs,
    ) -> Result<(), AllocError> {
        let number = self.numbers.below(SHAPES);
        let is_template = self.numbers.below(3) > 0;
        let mut bytes = block_of(&shape_of_number(number));
        if !is_template {
            bytes = spoiled(&bytes, self.numbers.below(SPOILS));
        }
        let ty = self.record.next_type().unwrap_or(0);
        let wanted = self.record.next_install(is_template);
        let answer = match kernel.install(&bytes) {
            Ok(made) => {
                let (first, second) = made.edits;
                self.tally.ask(u64::from(made.ty), u64::from(ty));
                self.tally
                    .ask(second.number(), first.number().saturating_add(1));
                Ok((made.block, first.number()))
            }
            Err(refusal) => {
                self.tally.add(uninstalled(refusal), 1);
                Err(refusal)
            }
        };
        self.tally.take(Kind::Install, answer, wanted);
        if let Ok((block, first)) = answer {
            self.record.install(ty, number, block, first, &bytes)?;
            self.use_type(alloc, kernel, fs, ty)?;
        }
        Ok(())
    }

    /// Asks what changes nothing.
    pub fn ask(&mut self, kernel: &Kernel<MemLane>, fs: Fs, block: u32) {
        let system = fs.number();
        let (record, tally) = (&self.record, &mut self.tally);
        tally.ask(code(kernel.state().pick()), code(record.pick()));
        tally.ask(kernel.floor(fs), record.floor(system));
        tally.ask(
            u64::from(kernel.pending(fs)),
            u64::from(record.pending(system)),
        );
        tally.ask(
            u64::from(kernel.state().free()),
            u64::from(record.free_count()),
        );
        let is_tainted = record.tainted(block);
        tally.ask(
            u64::from(kernel.state().tainted(block)),
            u64::from(is_tainted),
        );
        if is_tainted {
            tally.add(Met::Tainted, 1);
        }
        if record.awaits_type(block) {
            tally.add(Met::Awaiting, 1);
        }
        let (_, owners) = record.chain_end(block);
        tally.raise(Met::MostOwners, owners);
        let pending = u32::try_from(record.entries.len()).unwrap_or(u32::MAX);
        tally.raise(Met::MostPending, pending);
        tally.ask(code(kernel.root(fs)), code(record.root(system)));
        if let Ok(bytes) = kernel.read(fs, block) {
            tally.check(*bytes == record.bytes_after(block, u32::MAX));
        }
        self.look_at(kernel, block);
    }

    /// The next call, and the questions after it.
    pub fn step(&mut self, alloc: Global, kernel: &mut Kernel<MemLane>) -> Result<(), AllocError> {
        let Some(fs) = Fs::new(self.numbers.byte(SYSTEMS)) else {
            return Ok(());
        };
        let block = self.some_block(fs.number());
        match self.numbers.below(512) {
            0..=31 => {
                let ty = self.some_type(&[2, 2, 2, 3, 4, 4, 5, 6, 6, 6, 7, 7, 0, 0, 0, 0]);
                self.init(kernel, fs, ty)?;
            }
            32..=43 => self.make_root(kernel, fs)?,
            44..=51 => self.drop_root(kernel, fs)?,
            52..=299 => self.propose(alloc, kernel, fs, block)?,
            300..=307 => self.install(alloc, kernel, fs)?,
            308..=359 => self.forget_some(kernel, fs, block),
            360..=439 if self.writes.len() < WRITES => self.begin(kernel, block)?,
            360..=510 if self.writes.len() > 0 => self.go_on(kernel)?,
            360..=510 => self.begin(kernel, block)?,
            _ => self.drain(kernel)?,
        }
        self.ask(kernel, fs, block);
        Ok(())
    }
}

/// The bytes that words leave where there were zeros.
fn first_bytes(words: [(u16, u32); 2]) -> Bytes {
    let mut bytes = [0; BLOCK_LEN];
    for (offset, word) in words {
        put_word(&mut bytes, offset, word);
    }
    bytes
}

/// The block that a pointer names.
fn pointed(kernel: &Kernel<MemLane>, fs: Fs, block: u32, offset: u16) -> u32 {
    match kernel.read(fs, block) {
        Ok(bytes) => word_at(bytes, offset),
        Err(_) => 0,
    }
}
