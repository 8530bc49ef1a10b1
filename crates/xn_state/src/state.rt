// The state of a store, and the calls that need no disk.

ghost use Rattle.std.specs.Prelude.{◌≡◌, ◌<◌, ◌≤◌, Option, Some, None, is_some, Ok, IfOk, IsTrue, option_map, unwrap_or};
ghost use Rattle.std.specs.Option.{option_copied};
ghost use Rattle.xn_model.specs.Types.{within_size};
ghost use Rattle.xn_model.specs.Lists.{blank};
ghost use Rattle.xn_model.specs.Lives.{StoreState, current, life_at, alive_and};
ghost use Rattle.xn_model.specs.Results.{Gives, GivesExactly, result_map};
ghost use Rattle.xn_model.specs.Calls.{init_of, init_refusal, life_bytes, life_pending, owns_nothing, too_many, begun_of, settled_of, floor_of};
ghost use Rattle.xn_model.specs.Rules.{IsConsistent};
ghost use Rattle.xn_model.specs.Worlds.{mounted_state};
ghost use Rattle.templates.specs.Tables.{table_types};
ghost use Rattle.xn_state.specs.Mounts.{image_types, lives_in, AreFound};
ghost use Rattle.xn_state.specs.States.{own_types};

use crate::found::Found;
use crate::lives::Lives;
use arrayvec::ArrayVec;
use block_cache::LiveBlock;
use edit_list::{EditId, Fs};
use reserved_row::ReservedRow;
use std::alloc::{AllocError, Global};
use std::marker::Model;
use store_types::{BLOCK_LEN, DATA_TYPE, MAX_PENDING, MAX_PENDING_IN_BLOCK, Refusal};
use templates::Table;
use udf_run::{Pair, ReadSet};

mod accept;
mod answers;
mod forget;
mod idle;
mod install;
mod propose;
mod ready;
mod roots;

/// What a store knows of its blocks, beside the disk: of each block also the chunks that decide what its newest bytes own, where they are known.
pub struct State {
    alloc: Global,
    table: Table,
    lives: Lives,
    reads: ReservedRow<Option<ReadSet>>,
    next: u64,
}

impl Model for State {
    ghost use Rattle.xn_model.specs.Lives.{StoreState};
    ghost use Rattle.xn_state.specs.States.{IsStateOf};

    ghost Value = { StoreState };

    ghost view = { λ a. record { lives = a.lives; next = a.next } };

    ghost invariant = { λ a. IsStateOf a.table a.reads (record { lives = a.lives; next = a.next }) };
}

/// Written by hand, so that a function that drops one calls this: a derived drop is proved anew in each such function.
impl Drop for State {
    fn drop(self) {
        let State {
            alloc: _,
            table: _,
            lives: _,
            reads: _,
            next: _,
        } = self;
    }
}

impl State {
    /// The state of a store whose disk holds a sound image, of which these are the reached blocks, each once, with the table that
    /// the image's catalogue names. Each of them has one state, the durable one, and entry numbers start at 1. `Err` comes
    /// only for want of memory.
    pub fn new(
        alloc: Global,
        table: Table,
        image: &[u8],
        found: &[Found],
    ) -> Result<State, AllocError>
        requires own { table_types table ≡ image_types image.now }
        requires found { AreFound image.now found.now }
        ensures value { IfOk result (λ state. state ≡ mounted_state (lives_in image.now found.now)) }
        ensures rules { IfOk result (λ state. IsConsistent (own_types state) state) }
    {
        table.rules();
        let lives = Lives::found(alloc, image, found)?;
        let reads = ReservedRow::new(alloc, lives.cache.blocks() as usize, None)?;
        Ok(State {
            alloc,
            table,
            lives,
            reads,
            next: 1,
        })
    }

    /// Its types.
    fn types(&self) -> &Table
        ensures { table_types result.now ≡ own_types self.now }
    {
        &self.table
    }

    /// Tells a caller what is known of every state: the rules over all lives hold. It does nothing.
    pub fn keeps_rules(&self)
        ensures { IsConsistent (own_types self.now) self.now }
    {
        let _next = self.next;
    }

    /// Whether so many pending entries of one block, or those of the file system, are too many.
    fn is_too_many(&self, fs: Fs, in_block: usize) -> bool
        ensures { result ≡ too_many self.now fs.number in_block }
    {
        in_block >= MAX_PENDING_IN_BLOCK || self.lives.index.pending_for(fs) >= MAX_PENDING
    }

    /// The first refusal of `init` that applies.
    fn init_refusal(&self, fs: Fs, ty: u32, bytes: &[u8; BLOCK_LEN]) -> Option<Refusal>
        ensures { result ≡ init_refusal (own_types self.now) self.now fs.number ty bytes.now }
    {
        if ty < 2 || !self.types().is_installed(ty) {
            return Some(Refusal::BadType);
        }
        if self.is_too_many(fs, 0) {
            return Some(Refusal::TooManyPending);
        }
        if self.next == u64::MAX {
            return Some(Refusal::Exhausted);
        }
        if !is_within_size(self.types(), ty, bytes) {
            return Some(Refusal::SizeWrong);
        }
        if !self.owns_nothing(ty, bytes) {
            return Some(Refusal::ClaimWrong);
        }
        None
    }

    /// Whether a block of an installed type points to no other. One of data doesn't, so that there no room is made for what a program
    /// may emit.
    fn owns_nothing(&self, ty: u32, bytes: &[u8; BLOCK_LEN]) -> bool
        requires { IsTrue ((own_types self.now).installed ty) }
        ensures { result ≡ owns_nothing (own_types self.now) ty bytes.now }
    {
        if ty == DATA_TYPE {
            self.keeps_rules();
            return true;
        }
        emits_nothing(self.types(), ty, bytes)
    }

    /// Starts a life with these bytes on the lowest free block.
    pub fn init(
        &mut self,
        fs: Fs,
        ty: u32,
        bytes: &[u8; BLOCK_LEN],
    ) -> Result<(u32, EditId), Refusal>
        ensures state { Gives (init_of (own_types self.old) self.old fs.number ty bytes.now) self.old self.new result }
    {
        if let Some(refusal) = self.init_refusal(fs, ty, bytes) {
            return Err(refusal);
        }
        let lives = &self.lives;
        let Some(block) = lives.index.lowest_free() else {
            return Err(Refusal::NoSpace);
        };
        let number = EditId(self.next);
        let Ok(()) = self
            .lives
            .start(self.alloc, block, number, Some(fs), ty, bytes)
        else {
            return Err(Refusal::NoMemory);
        };
        self.reads.set(block as usize, None);
        self.next += 1;
        Ok((block, number))
    }

    /// Begins a write of a block: the bytes that its safe entries leave, and how many those are.
    pub fn begun(&mut self, block: u32) -> Result<([u8; BLOCK_LEN], u32), Refusal>
        ensures state { GivesExactly (begun_of self.old block) self.old self.new result }
    {
        let count = self.begun_count(block)?;
        Ok((self.begin_counted(block, count), count))
    }

    /// How many entries a write of a block carries that begins now.
    #[inline(always)]
    pub fn begun_count(&self, block: u32) -> Result<u32, Refusal>
        ensures count { result ≡ result_map (λ begun. begun.0.1) (begun_of self.now block) }
        ensures within { IfOk result (λ count. (1 ≤ count) × (count ≤ life_pending (life_at self.now.lives block))) }
    {
        let lives = &self.lives;
        if block >= lives.cache.blocks() {
            return Err(Refusal::NoSuchBlock);
        }
        let Some(life) = lives.cache.live(block) else {
            return Err(Refusal::NotInUse);
        };
        if life.facts().begun.is_some() {
            return Err(Refusal::InFlight);
        }
        let count = lives.index.safe_prefix(&lives.cache, block, Some(&life));
        if count == 0 {
            return Err(Refusal::NothingSafe);
        }
        Ok(count)
    }

    /// Begins a write of a block, where so many of its first pending entries may be written: the bytes that they leave. They come last, so
    /// that they are made where the caller wants them.
    #[inline(always)]
    pub fn begin_counted(&mut self, block: u32, count: u32) -> [u8; BLOCK_LEN]
        requires count { result_map (λ begun. begun.0.1) (begun_of self.old block) ≡ Ok count }
        requires some { 1 ≤ count }
        requires within { count ≤ life_pending (life_at self.old.lives block) }
        ensures { begun_of self.old block ≡ Ok ((result, count), self.new) }
    {
        self.lives.begin(block, count);
        let lives = &self.lives;
        lives.cache.image(block, count)
    }

    /// Ends a write of a block by the bytes that are read back: how many entries are durable now,
    /// and how many blocks are free.
    pub fn settled(&mut self, block: u32, bytes: &[u8; BLOCK_LEN]) -> Result<(u32, u32), Refusal>
        ensures state { GivesExactly (settled_of self.old block bytes.now) self.old self.new result }
    {
        self.settled_unless(block, Some(bytes))
    }

    /// The same by these bytes, or where there are none by the newest ones of the block, which are not compared then.
    #[inline(always)]
    pub fn settled_unless(
        &mut self,
        block: u32,
        other: Option<&[u8; BLOCK_LEN]>,
    ) -> Result<(u32, u32), Refusal>
        ensures state { GivesExactly (settled_of self.old block (unwrap_or (option_copied other.entry) (life_bytes (life_at self.old.lives block))))
            self.old self.new result }
    {
        self.lives.settle_unless(block, other)
    }

    /// The newest bytes of a block in use.
    pub fn newest(&self, block: u32) -> Option<&[u8; BLOCK_LEN]>
        ensures { option_copied result ≡ option_map current (life_at self.now.lives block) }
    {
        Some(self.lives.cache.live(block)?.current())
    }

    /// The life of block 0, which is always in use.
    fn root_block(&self) -> LiveBlock<'_>
        ensures alive { life_at self.now.lives 0 ≡ Some result }
        ensures rules { IsConsistent (own_types self.now) self.now }
    {
        let Some(root) = self.lives.cache.live(0) else {
            unreachable!()
        };
        root
    }

    /// Whether a write of a block is under way.
    pub fn is_in_flight(&self, block: u32) -> bool
        ensures { result ≡ alive_and (λ l. is_some l.begun) (life_at self.now.lives block) }
    {
        match self.lives.cache.live(block) {
            Some(life) => life.facts().begun.is_some(),
            None => false,
        }
    }

    /// The least pending entry of a file system, or the next number to be given.
    #[inline(always)]
    pub fn floor(&self, fs: Fs) -> u64
        ensures { result ≡ floor_of self.now fs.number }
    {
        self.lives.index.least_for(&self.lives.cache, fs, self.next)
    }
}

/// Whether a block of an installed type is zero from its size on.
fn is_within_size(table: &Table, ty: u32, bytes: &[u8; BLOCK_LEN]) -> bool
    requires { IsTrue ((table_types table.now).installed ty) }
    ensures { result ≡ within_size (table_types table.now) ty bytes.now }
{
    let size = table.size(ty, bytes);
    is_blank(&bytes[size as usize..])
}

/// Whether all bytes are zero.
fn is_blank(bytes: &[u8]) -> bool
    ensures { result ≡ blank bytes.now }
{
    bytes.iter().all(|byte| *byte == 0)
}

/// Whether the owns program of an installed type emits nothing on a block.
fn emits_nothing(table: &Table, ty: u32, bytes: &[u8; BLOCK_LEN]) -> bool
    requires { IsTrue ((table_types table.now).installed ty) }
    ensures { result ≡ owns_nothing (table_types table.now) ty bytes.now }
{
    let mut pairs = ArrayVec::<Pair, 128>::new();
    table.owns(ty, bytes, &mut pairs);
    pairs.is_empty()
}
