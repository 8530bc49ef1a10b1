// What a block in use holds.

ghost use Rattle.std.specs.Prelude.{◌≡◌, ◌≤◌, ◌&&◌, ◌==◌, true, false, [], length, drop, None, OnOk, OnErr};
ghost use Rattle.xn_model.specs.Lives.{is_dropped, is_fresh, is_owned_by};
ghost use Rattle.block_cache.specs.Systems.{system_of};
ghost use Rattle.block_cache.specs.Kept.{started_life, resting};
ghost use Rattle.block_cache.specs.NewBytes.{AreWithinLimits, appended_by};
ghost use Rattle.block_cache.specs.Changed.{MayChange, changed_by};

use crate::new_bytes::NewBytes;
use edit_list::Fs;
use std::alloc::{AllocError, Global};
use std::marker::Model;
use store_types::{BLOCK_LEN, Status};

/// What a block in use holds: its newest bytes, whether a state of it is on the disk, and the keys of its pending entries,
/// the oldest first. The bytes come first, so that a life that is found in an image has them copied once, and the others lie side by side.
#[derive(Drop)]
pub struct Life {
    pub(crate) current: [u8; BLOCK_LEN],
    pub(crate) fs: Option<Fs>,
    pub(crate) ty: u32,
    pub(crate) status: Status,
    pub(crate) is_durable: bool,
    pub(crate) keys: Vec<usize>,
    pub(crate) begun: Option<u32>,
}

impl Model for Life {
    ghost use Rattle.block_cache.specs.Systems.{system_of};
    ghost use Rattle.block_cache.specs.Cached.{CachedLife};

    ghost Value = { CachedLife };

    ghost view = { λ a. record {
      fs = system_of a.fs;
      ty = a.ty;
      status = a.status;
      current = a.current;
      is_durable = a.is_durable;
      keys = a.keys.items;
      begun = a.begun;
    } };
}

/// What changes of a life, beside its bytes, and takes no memory.
#[derive(Clone, Copy)]
pub enum Change {
    /// Its first entries are durable, so many, and no write is under way.
    Settle(u32),
    /// It has this status.
    SetStatus(Status),
    /// A begun write carries so many entries, or none is under way.
    SetBegun(Option<u32>),
}

/// What is found of a block in use in an image, beside its bytes: the file system that it belongs to, its type and status.
#[derive(Clone, Copy, Debug, PartialEq, Eq)]
pub struct FoundLife {
    pub fs: Option<Fs>,
    pub ty: u32,
    pub status: Status,
}

/// What is known of a block in use beside its bytes: its type and status, whether a state of it is on the disk, how many
/// entries are pending, and how many of those a begun write carries.
#[derive(Clone, Copy, Debug, PartialEq, Eq)]
pub struct Facts {
    pub ty: u32,
    pub status: Status,
    pub is_durable: bool,
    pub pending: usize,
    pub begun: Option<u32>,
}

impl Facts {
    /// Whether no owner has ever named the block.
    pub fn is_fresh(&self) -> bool
        ensures { result ≡ is_fresh self.now.status }
    {
        match self.status {
            Status::Fresh => true,
            Status::Owned(_) => false,
            Status::Dropped(_) => false,
        }
    }

    /// Whether its owner has dropped the block, and the drop isn't durable yet.
    pub fn is_dropped(&self) -> bool
        ensures { result ≡ is_dropped self.now.status }
    {
        match self.status {
            Status::Fresh => false,
            Status::Owned(_) => false,
            Status::Dropped(_) => true,
        }
    }

    /// Whether this block owns the block, by its newest state.
    pub fn is_owned_by(&self, owner: u32) -> bool
        ensures { result ≡ is_owned_by owner self.now.status }
    {
        match self.status {
            Status::Fresh => false,
            Status::Owned(by) => by == owner,
            Status::Dropped(_) => false,
        }
    }

    /// Whether the newest state of the block is known to be on the disk.
    pub fn is_all_durable(&self) -> bool
        ensures { result ≡ (self.now.is_durable && self.now.pending == 0) }
    {
        self.is_durable && self.pending == 0
    }
}

impl Life {
    /// A life of no meaning, with no key, for the place of a free block.
    pub fn blank(alloc: Global) -> Life
        ensures { result.keys ≡ [] }
    {
        Life {
            current: [0; BLOCK_LEN],
            fs: None,
            ty: 0,
            status: Status::Fresh,
            is_durable: false,
            keys: Vec::new(alloc),
            begun: None,
        }
    }

    /// Becomes a life that no owner names, a file system's or nobody's, with its first entry.
    #[inline(always)]
    pub fn restart(
        &mut self,
        key: usize,
        fs: Option<Fs>,
        ty: u32,
        bytes: &[u8; BLOCK_LEN],
    ) -> Result<(), AllocError>
        ensures ok { OnOk result (self.new ≡ started_life key (system_of fs) ty bytes.now) }
        ensures err { OnErr result (self.new ≡ self.old) }
    {
        self.keys.reserve(1)?;
        self.keys.clear();
        self.keys.push_reserved(key);
        self.fs = fs;
        self.ty = ty;
        self.status = Status::Fresh;
        self.current = *bytes;
        self.is_durable = false;
        self.begun = None;
        Ok(())
    }

    /// The life of a block whose one state is on the disk.
    pub fn found(alloc: Global, found: FoundLife, bytes: &[u8; BLOCK_LEN]) -> Life
        ensures { result ≡ resting found bytes.now }
    {
        Life {
            current: *bytes,
            fs: found.fs,
            ty: found.ty,
            status: found.status,
            is_durable: true,
            keys: Vec::new(alloc),
            begun: None,
        }
    }

    /// Puts one more entry behind the others, which left these bytes.
    pub fn append(&mut self, key: usize, bytes: NewBytes<'_>) -> Result<(), AllocError>
        requires { AreWithinLimits bytes }
        ensures ok { OnOk result (self.new ≡ appended_by key bytes.entry self.old) }
        ensures err { OnErr result (self.new ≡ self.old) }
    {
        self.keys.push(key)?;
        bytes.put(&mut self.current);
        Ok(())
    }

    /// Takes out the first keys, mostly all.
    fn forget_keys(&mut self, count: usize)
        requires { count ≤ length self.old.keys }
        ensures { self.new ≡ record self.old { keys = drop count self.old.keys } }
    {
        if count == self.keys.len() {
            self.keys.clear();
        } else {
            self.drain_keys(count);
        }
    }

    /// The same, where some stay.
    #[inline(never)]
    fn drain_keys(&mut self, count: usize)
        requires { count ≤ length self.old.keys }
        ensures { self.new ≡ record self.old { keys = drop count self.old.keys } }
    {
        drop(self.keys.drain(..count));
    }

    /// Makes the first entries durable.
    fn settle(&mut self, count: usize)
        requires { count ≤ length self.old.keys }
        ensures { self.new ≡ record self.old { is_durable = true; keys = drop count self.old.keys; begun = None } }
    {
        self.forget_keys(count);
        self.is_durable = true;
        self.begun = None;
    }

    /// Changes what is kept beside the bytes.
    #[inline(always)]
    pub fn change(&mut self, change: Change)
        requires { MayChange change self.old }
        ensures { self.new ≡ changed_by change self.old }
    {
        match change {
            Change::Settle(count) => self.settle(count as usize),
            Change::SetStatus(status) => self.status = status,
            Change::SetBegun(begun) => self.begun = begun,
        }
    }
}
