// What a kernel is asked, answered by scans of all lives and all entries.

use crate::held::Held;
use crate::record::{Entry, Record, Status};
use xn_kernel::Refusal;

impl Record {
    /// How many entries of a block are pending.
    pub fn count_of(&self, block: u32) -> u32 {
        let mut count = 0u32;
        for entry in &self.entries {
            if entry.block == block {
                count = count.saturating_add(1);
            }
        }
        count
    }

    /// Whether a state of a block is on the disk.
    fn is_durable(&self, block: u32) -> bool {
        match self.life(block) {
            Some(life) => life.is_durable,
            None => false,
        }
    }

    /// Whether the entry that another comes after is pending nowhere, or an earlier one of the same block.
    fn is_after_met(&self, entry: &Entry) -> bool {
        let Some(number) = entry.after else {
            return true;
        };
        for other in &self.entries {
            if other.number == number
                && (other.block != entry.block || other.number >= entry.number)
            {
                return false;
            }
        }
        true
    }

    /// Whether block 0 has the type of the block that an entry adds: on the disk or, for its own entries, in an earlier state, which
    /// is always so, as it is from then on that there are blocks of that type.
    fn is_type_met(&self, entry: &Entry) -> bool {
        match entry.adds {
            Some(added) => entry.block == 0 || self.is_on_disk(self.kind(added)),
            None => true,
        }
    }

    /// Whether an entry of a block adds one that has a state on the disk, and waits for its type.
    pub fn awaits_type(&self, block: u32) -> bool {
        for entry in &self.entries {
            if entry.block == block
                && let Some(added) = entry.adds
                && self.is_durable(added)
                && !self.is_type_met(entry)
            {
                return true;
            }
        }
        false
    }

    /// Whether what an entry adds has a state on the disk and a type that is met, what it drops has one and nothing pending, and what
    /// it comes after is met.
    fn is_safe(&self, entry: &Entry) -> bool {
        if let Some(added) = entry.adds
            && (!self.is_durable(added) || !self.is_type_met(entry))
        {
            return false;
        }
        if let Some(dropped) = entry.drops
            && (!self.is_durable(dropped) || self.count_of(dropped) > 0)
        {
            return false;
        }
        self.is_after_met(entry)
    }

    /// How many entries of a block, from the first on, are safe.
    pub fn prefix(&self, block: u32) -> u32 {
        let mut count = 0u32;
        for entry in &self.entries {
            if entry.block == block {
                if !self.is_safe(entry) {
                    return count;
                }
                count = count.saturating_add(1);
            }
        }
        count
    }

    /// Whether an entry of a block isn't safe.
    pub fn tainted(&self, block: u32) -> bool {
        self.prefix(block) < self.count_of(block)
    }

    /// The least block that may be written.
    pub fn pick(&self) -> Option<u32> {
        for block in 0..self.blocks {
            if let Some(life) = self.life(block)
                && life.begun.is_none()
                && self.prefix(block) > 0
            {
                return Some(block);
            }
        }
        None
    }

    /// The least pending entry of a file system, or the next number.
    pub fn floor(&self, fs: u8) -> u64 {
        let mut floor = self.next;
        for entry in &self.entries {
            if entry.fs == Some(fs) && entry.number < floor {
                floor = entry.number;
            }
        }
        floor
    }

    /// How many entries of a file system are pending.
    pub fn pending(&self, fs: u8) -> u32 {
        let mut count = 0u32;
        for entry in &self.entries {
            if entry.fs == Some(fs) {
                count = count.saturating_add(1);
            }
        }
        count
    }

    /// How many blocks are free.
    pub fn free_count(&self) -> u32 {
        let mut count = 0u32;
        for life in &self.lives {
            if life.is_none() {
                count = count.saturating_add(1);
            }
        }
        count
    }

    /// The block and the entry of the next life of a type.
    pub fn next_init(&self, ty: u32) -> Result<(u32, u64), Refusal> {
        if ty < 2 || !self.is_installed(ty) {
            return Err(Refusal::BadType);
        }
        match self.lowest_free() {
            Some(block) => Ok((block, self.next)),
            None => Err(Refusal::NoSpace),
        }
    }

    /// The block that block 0 owns for a file system.
    pub fn root(&self, fs: u8) -> Option<u32> {
        for block in 0..self.blocks {
            if let Some(life) = self.life(block)
                && life.fs == Some(fs)
                && life.status == Status::Owned(0)
            {
                return Some(block);
            }
        }
        None
    }

    /// How many entries a write of a block carries.
    pub fn next_begin(&self, block: u32) -> Result<u32, Refusal> {
        if block >= self.blocks {
            return Err(Refusal::NoSuchBlock);
        }
        let Some(life) = self.life(block) else {
            return Err(Refusal::NotInUse);
        };
        if life.begun.is_some() {
            return Err(Refusal::InFlight);
        }
        match self.prefix(block) {
            0 => Err(Refusal::NothingSafe),
            count => Ok(count),
        }
    }

    /// Whether a write of some block is under way.
    fn is_busy(&self) -> bool {
        for life in &self.lives {
            if let Some(life) = life
                && life.begun.is_some()
            {
                return true;
            }
        }
        false
    }

    /// Writes the least block that may be written, again and again; how many writes that took.
    pub fn drain(&mut self) -> Result<u32, Refusal> {
        if self.is_busy() {
            return Err(Refusal::InFlight);
        }
        let mut writes = 0u32;
        for _ in 0..self.entries.len() {
            if let Some(block) = self.pick() {
                let count = self.prefix(block);
                self.hold(block, Held::rest(self.bytes_after(block, count)));
                let _freed = self.settle(block, count);
                writes = writes.saturating_add(1);
            }
        }
        Ok(writes)
    }
}
