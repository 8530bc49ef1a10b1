// The place of a block among the lives.

ghost use Rattle.std.specs.Prelude.{◌≡◌, option_map, Some, None, IsTrue, IfOk, IfSome, OnOk, OnErr, is_some};
ghost use Rattle.std.specs.Option.{option_copied};
ghost use Rattle.block_cache.specs.Systems.{system_of};
ghost use Rattle.block_cache.specs.Kept.{resting, started_life};
ghost use Rattle.block_cache.specs.Changed.{MayChange, changed_by};
ghost use Rattle.block_cache.specs.NewBytes.{AreWithinLimits, appended_by};
ghost use Rattle.block_cache.specs.Totals.{exchange_of, totals_in};

use crate::life::{Change, FoundLife, Life};
use crate::new_bytes::NewBytes;
use crate::totals::{Exchange, Totals};
use edit_list::Fs;
use std::alloc::{AllocError, Global};
use std::marker::Model;
use store_types::BLOCK_LEN;

/// The place of a block: its life, or room for the next one. Lives start and end where they stand, so that their bytes are
/// copied once and never moved. What changes a life says what was counted of it and what is counted now.
#[derive(Drop)]
pub struct Place {
    life: Life,
    is_used: bool,
}

impl Model for Place {
    ghost use Rattle.std.specs.Prelude.{cond, Option, Some, None};
    ghost use Rattle.block_cache.specs.Cached.{CachedLife};

    ghost Value = { Option CachedLife };

    ghost view = { λ a. cond a.is_used (Some a.life) None };
}

impl Place {
    /// That of a free block.
    pub fn free(alloc: Global) -> Place
        ensures { result ≡ None }
    {
        Place {
            life: Life::blank(alloc),
            is_used: false,
        }
    }

    /// That of a block whose one state is on the disk.
    pub fn found(alloc: Global, found: FoundLife, bytes: &[u8; BLOCK_LEN]) -> Place
        ensures { result ≡ Some (resting found bytes.now) }
    {
        Place {
            life: Life::found(alloc, found, bytes),
            is_used: true,
        }
    }

    /// The life, unless the block is free.
    pub fn life(&self) -> Option<&Life>
        ensures { option_copied result ≡ self.now }
    {
        if self.is_used { Some(&self.life) } else { None }
    }

    /// What is counted of it.
    fn totals(&self) -> Totals
        ensures { result ≡ totals_in self.now }
    {
        Totals::of(self.life())
    }

    /// Starts a life that no owner names, a file system's or nobody's, with its first entry.
    #[inline(always)]
    pub fn start(
        &mut self,
        key: usize,
        fs: Option<Fs>,
        ty: u32,
        bytes: &[u8; BLOCK_LEN],
    ) -> Result<Exchange, AllocError>
        ensures ok { OnOk result (self.new ≡ Some (started_life key (system_of fs) ty bytes.now)) }
        ensures err { OnErr result (self.new ≡ self.old) }
        ensures exchange { IfOk result (λ exchange. exchange ≡ exchange_of self.old self.new) }
    {
        let before = self.totals();
        self.life.restart(key, fs, ty, bytes)?;
        self.is_used = true;
        Ok(Exchange {
            before,
            after: self.totals(),
        })
    }

    /// Frees the block.
    pub fn end(&mut self) -> Exchange
        ensures end { self.new ≡ None }
        ensures exchange { result ≡ exchange_of self.old self.new }
    {
        let before = self.totals();
        self.is_used = false;
        Exchange {
            before,
            after: self.totals(),
        }
    }

    /// Puts one more entry of a block in use behind the others, which left these bytes.
    #[inline(always)]
    pub fn append(&mut self, key: usize, bytes: NewBytes<'_>) -> Result<Exchange, AllocError>
        requires alive { IsTrue (is_some self.old) }
        requires leaves { AreWithinLimits bytes }
        ensures ok { OnOk result (self.new ≡ option_map (appended_by key bytes.entry) self.old) }
        ensures err { OnErr result (self.new ≡ self.old) }
        ensures exchange { IfOk result (λ exchange. exchange ≡ exchange_of self.old self.new) }
    {
        let before = self.totals();
        self.life.append(key, bytes)?;
        Ok(Exchange {
            before,
            after: self.totals(),
        })
    }

    /// Changes the life of a block in use; a free one has none.
    #[inline(always)]
    pub fn change(&mut self, change: Change) -> Exchange
        requires { IfSome self.old (MayChange change) }
        ensures changed { self.new ≡ option_map (changed_by change) self.old }
        ensures exchange { result ≡ exchange_of self.old self.new }
    {
        let before = self.totals();
        if self.is_used {
            self.life.change(change);
        }
        Exchange {
            before,
            after: self.totals(),
        }
    }
}
