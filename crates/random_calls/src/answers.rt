// What the clients' changes answer, by their refusals in order.

use crate::record::{Entry, Life, Record, Status};
use xn_kernel::Refusal;

/// An edit as it is asked for.
#[derive(Clone, Copy)]
pub struct Asked {
    pub entry: Entry,
    pub fs: u8,
    /// The type with which it adds.
    pub added_type: u32,
    /// Whether it claims what it changes.
    pub is_claimed: bool,
}

impl Record {
    /// The life of a file system's own block.
    fn own(&self, fs: u8, block: u32) -> Result<Life, Refusal> {
        if block >= self.blocks {
            return Err(Refusal::NoSuchBlock);
        }
        match self.life(block) {
            None => Err(Refusal::NotInUse),
            Some(life) => match life.status {
                Status::Dropped(_) => Err(Refusal::NotInUse),
                _ if life.fs != Some(fs) => Err(Refusal::NotYours),
                _ => Ok(life),
            },
        }
    }

    /// Whether no block is owned by this one.
    pub fn is_empty(&self, block: u32) -> bool {
        for life in &self.lives {
            if let Some(life) = life
                && life.status == Status::Owned(block)
            {
                return false;
            }
        }
        true
    }

    /// The number of the next entry of a block.
    fn next_entry(&self, fs: u8, block: u32) -> Result<u64, Refusal> {
        if self.count_of(block) >= 64 || self.pending(fs) >= 4096 {
            return Err(Refusal::TooManyPending);
        }
        Ok(self.next)
    }

    /// The entry of block 0 by which a block becomes a root.
    pub fn next_make_root(&self, fs: u8, block: u32) -> Result<(u32, u64), Refusal> {
        let life = self.own(fs, block)?;
        if self.root(fs).is_some() {
            return Err(Refusal::RootTaken);
        }
        if life.status != Status::Fresh {
            return Err(Refusal::NotFresh);
        }
        Ok((0, self.next_entry(fs, 0)?))
    }

    /// The entry of block 0 by which it drops a root.
    pub fn next_drop_root(&self, fs: u8) -> Result<(u32, u64), Refusal> {
        let Some(root) = self.root(fs) else {
            return Err(Refusal::NotOwned);
        };
        if !self.is_empty(root) {
            return Err(Refusal::NotEmpty);
        }
        Ok((0, self.next_entry(fs, 0)?))
    }

    /// Whether a block may be added by an edit, if that closes no cycle.
    fn may_add(&self, fs: u8, block: u32, ty: u32) -> bool {
        match self.life(block) {
            Some(life) => { life.status == Status::Fresh && life.fs == Some(fs) && life.ty == ty }
            None => false,
        }
    }

    /// The block that owns a block.
    fn owner(&self, block: u32) -> Option<u32> {
        match self.life(block)?.status {
            Status::Owned(owner) => Some(owner),
            _ => None,
        }
    }

    /// The block at which the owners of a block's owners end, which is the block itself where it has none, and how many owners
    /// there are up to it.
    pub fn chain_end(&self, block: u32) -> (u32, u32) {
        let mut end = block;
        for owners in 0..self.blocks {
            match self.owner(end) {
                Some(owner) => end = owner,
                None => return (end, owners),
            }
        }
        (end, self.blocks)
    }

    /// Why a block may not be added by an edit of another.
    fn add_refusal(&self, asked: &Asked, added: u32) -> Option<Refusal> {
        let block = asked.entry.block;
        if !self.may_add(asked.fs, added, asked.added_type) {
            return Some(Refusal::NotFresh);
        }
        let (end, _) = self.chain_end(block);
        if added == block || added == end {
            Some(Refusal::Cycle)
        } else {
            None
        }
    }

    /// Why a block may not be dropped by an edit of another.
    fn drop_refusal(&self, owner: u32, block: u32) -> Option<Refusal> {
        match self.life(block) {
            Some(life) if life.status == Status::Owned(owner) => {
                if self.is_empty(block) {
                    None
                } else {
                    Some(Refusal::NotEmpty)
                }
            }
            _ => Some(Refusal::NotOwned),
        }
    }

    /// The entry of an edit.
    pub fn next_propose(&self, asked: &Asked) -> Result<(u32, u64), Refusal> {
        let block = asked.entry.block;
        self.own(asked.fs, block)?;
        let number = self.next_entry(asked.fs, block)?;
        if let Some(after) = asked.entry.after
            && (after == 0 || after >= self.next)
        {
            return Err(Refusal::BadAfter);
        }
        if let Some(added) = asked.entry.adds
            && let Some(refusal) = self.add_refusal(asked, added)
        {
            return Err(refusal);
        }
        if let Some(dropped) = asked.entry.drops
            && let Some(refusal) = self.drop_refusal(block, dropped)
        {
            return Err(refusal);
        }
        if !asked.is_claimed {
            return Err(Refusal::ClaimWrong);
        }
        Ok((block, number))
    }

    /// The end of a block that nobody owns.
    pub fn next_forget(&self, fs: u8, block: u32) -> Result<(u32, u64), Refusal> {
        let life = self.own(fs, block)?;
        if life.status != Status::Fresh {
            return Err(Refusal::NotFresh);
        }
        if !self.is_empty(block) {
            return Err(Refusal::NotEmpty);
        }
        let count = self.count_of(block);
        if count > 1 || count == 1 && life.is_durable {
            return Err(Refusal::TooManyPending);
        }
        if life.begun.is_some() {
            return Err(Refusal::InFlight);
        }
        Ok((block, 0))
    }
}
