// What each block has been since it was last free, and what the device holds, in plain lists: each change as the rules of lives say it,
// and no index beside them.

use crate::held::{Bytes, Held};
use pseudo_random::Numbers;
use std::alloc::{AllocError, Global};
use store_types::BLOCK_LEN;

/// How many blocks the disk of most calls has.
pub const BLOCKS: u32 = 64;

/// How many places of blocks a kernel keeps together: those of a group are there while one of them is in use.
const GROUP: usize = 64;

/// Whether an owner names a block.
#[derive(Clone, Copy, PartialEq, Eq)]
pub enum Status {
    Fresh,
    Owned(u32),
    Dropped(u32),
}

/// A block's life, but for its pending entries.
#[derive(Clone, Copy)]
pub struct Life {
    pub fs: Option<u8>,
    pub ty: u32,
    pub status: Status,
    /// Whether a state of it is on the disk.
    pub is_durable: bool,
    /// How many entries the begun write carries.
    pub begun: Option<u32>,
}

impl Life {
    /// The life of a block that a mount finds.
    pub fn found(fs: Option<u8>, ty: u32, owner: u32) -> Life {
        Life {
            fs,
            ty,
            status: Status::Owned(owner),
            is_durable: true,
            begun: None,
        }
    }
}

/// A pending entry: at most one block that it adds, and one that it drops, and the two words that it writes.
#[derive(Clone, Copy)]
pub struct Entry {
    pub block: u32,
    pub number: u64,
    /// For whom it counts.
    pub fs: Option<u8>,
    pub adds: Option<u32>,
    pub drops: Option<u32>,
    pub after: Option<u64>,
    /// The words, each with its offset.
    pub words: [(u16, u32); 2],
}

/// All lives by block, all pending entries in the order of their numbers, and what the device holds.
#[derive(Drop)]
pub struct Record {
    /// How many blocks the disk has.
    pub blocks: u32,
    pub lives: Vec<Option<Life>>,
    pub entries: Vec<Entry>,
    /// The next number to be given.
    pub next: u64,
    /// What the device holds in each block.
    pub held: Vec<Held>,
    /// The bytes of the template that was the last to begin in each block.
    pub starts: Vec<Bytes>,
    /// The shape of each type that was installed in a place of block 0, by that place.
    pub shapes: [u16; 16],
}

impl Record {
    /// A disk of so many blocks of zeros, with no template.
    pub fn new(alloc: Global, blocks: u32) -> Result<Record, AllocError> {
        let mut record = Record {
            blocks,
            lives: vec![in alloc; None; blocks as usize]?,
            entries: Vec::new(alloc),
            next: 1,
            held: vec![in alloc; Held::rest([0; BLOCK_LEN]); blocks as usize]?,
            starts: vec![in alloc; [0; BLOCK_LEN]; blocks as usize]?,
            shapes: [0; 16],
        };
        record.restart();
        Ok(record)
    }

    /// Forgets all lives but that of block 0, and all entries.
    pub fn restart(&mut self) {
        for block in 0..self.blocks {
            self.set(block, None);
        }
        let root = Life::found(None, 0, 0);
        let status = Status::Fresh;
        self.set(0, Some(Life { status, ..root }));
        self.entries.clear();
        self.next = 1;
    }

    /// The block so many places behind another one, where block 0 comes behind the last one.
    pub fn behind(&self, start: u32, step: u32) -> u32 {
        match start.wrapping_add(step).checked_rem(self.blocks) {
            Some(block) => block,
            None => 0,
        }
    }

    /// A block of the disk, or one of so many numbers past its end.
    pub fn some_number(&self, numbers: &mut Numbers, past: u16) -> u32 {
        let blocks = u16::try_from(self.blocks).unwrap_or(u16::MAX);
        u32::from(numbers.below(blocks.saturating_add(past).max(1)))
    }

    /// How many groups of places have a block in use.
    pub fn groups(&self) -> u32 {
        let mut count = 0u32;
        for group in self.lives.chunks(GROUP) {
            if group.iter().any(|life| life.is_some()) {
                count = count.saturating_add(1);
            }
        }
        count
    }

    /// The life of a block; `None` where it is free, and past the end of the disk.
    pub fn life(&self, block: u32) -> Option<Life> {
        match self.lives.get(block as usize) {
            Some(life) => *life,
            None => None,
        }
    }

    /// The type of a block, and that of data where it is free.
    pub fn kind(&self, block: u32) -> u32 {
        match self.life(block) {
            Some(life) => life.ty,
            None => 2,
        }
    }

    /// Whether no owner has named a block.
    pub fn is_fresh(&self, block: u32) -> bool {
        match self.life(block) {
            Some(life) => life.status == Status::Fresh,
            None => false,
        }
    }

    /// A block has this life from now on, or is free.
    pub fn set(&mut self, block: u32, life: Option<Life>) {
        if let Some(place) = self.lives.get_mut(block as usize) {
            *place = life;
        }
    }

    /// A template of these bytes begins in a block.
    pub fn start_with(&mut self, block: u32, bytes: &Bytes) {
        if let Some(place) = self.starts.get_mut(block as usize) {
            *place = *bytes;
        }
    }

    fn set_status(&mut self, block: u32, status: Status) {
        if let Some(life) = self.life(block) {
            self.set(block, Some(Life { status, ..life }));
        }
    }

    /// A life begins, with an entry that writes these words over zeros.
    pub fn init(
        &mut self,
        fs: u8,
        ty: u32,
        block: u32,
        number: u64,
        words: [(u16, u32); 2],
    ) -> Result<(), AllocError> {
        self.set(
            block,
            Some(Life {
                fs: Some(fs),
                ty,
                status: Status::Fresh,
                is_durable: false,
                begun: None,
            }),
        );
        self.accept(Entry {
            block,
            number,
            fs: Some(fs),
            adds: None,
            drops: None,
            after: None,
            words,
        })
    }

    /// A block accepts an entry.
    pub fn accept(&mut self, entry: Entry) -> Result<(), AllocError> {
        self.entries.push(entry)?;
        self.next = entry.number.saturating_add(1);
        if let Some(block) = entry.drops {
            self.set_status(block, Status::Dropped(entry.block));
        }
        if let Some(block) = entry.adds {
            self.set_status(block, Status::Owned(entry.block));
        }
        Ok(())
    }

    /// A write begins.
    pub fn begin(&mut self, block: u32, count: u32) {
        if let Some(life) = self.life(block) {
            let begun = Some(count);
            self.set(block, Some(Life { begun, ..life }));
        }
    }

    /// A life ends, and its entries with it.
    pub fn free(&mut self, block: u32) {
        self.set(block, None);
        self.entries.retain(|entry| entry.block != block);
    }

    /// The first pending entry of a block, taken off the list.
    fn take_first(&mut self, block: u32) -> Option<Entry> {
        for at in 0..self.entries.len() {
            if self.entries[at].block == block {
                return Some(self.entries.remove(at));
            }
        }
        None
    }

    /// A write ends, and this many entries are durable; how many blocks are free by that.
    pub fn settle(&mut self, block: u32, count: u32) -> u32 {
        let mut freed = 0u32;
        for _ in 0..count {
            if let Some(entry) = self.take_first(block)
                && let Some(dropped) = entry.drops
            {
                self.free(dropped);
                freed = freed.saturating_add(1);
            }
        }
        if let Some(life) = self.life(block) {
            let is_durable = life.is_durable || count > 0;
            let begun = None;
            self.set(
                block,
                Some(Life {
                    is_durable,
                    begun,
                    ..life
                }),
            );
        }
        freed
    }
}
