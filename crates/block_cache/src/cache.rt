// What each block has been since it was last free.

ghost use Rattle.std.specs.Prelude.{◌≡◌, ℕ, ◌*◌, ◌^◌, ◌<◌, ◌≤◌, length, map, Option, Some, None, IsTrue, IfOk, IfSome, OnOk, OnErr};
ghost use Rattle.std.specs.Prelude.{Contains, is_some, option_map, slice_get, slice_set};
ghost use Rattle.std.specs.List.{list_any, range_with_len};
ghost use Rattle.std.specs.Option.{option_copied};
ghost use Rattle.slab.specs.Slab.{get};
ghost use Rattle.xn_model.specs.Root.{has_type};
ghost use Rattle.xn_model.specs.Lives.{durable_bytes, root_on_disk, life_at, change_at, with_state, with_status, settled_at, begun_at, alive_and};
ghost use Rattle.xn_model.specs.Calls.{new_life, life_bytes, life_pending, patched};
ghost use Rattle.xn_model.specs.Rules.{IsCount};
ghost use Rattle.xn_model.specs.Worlds.{all_pending};
ghost use Rattle.block_cache.specs.Systems.{system_of};
ghost use Rattle.block_cache.specs.Named.{places_named};
ghost use Rattle.block_cache.specs.Claims.{claimed_state, claim_of};
ghost use Rattle.block_cache.specs.Kept.{first_keys, keys_of};
ghost use Rattle.block_cache.specs.NewBytes.{AreWithinLimits, new_bytes};
ghost use Rattle.block_cache.specs.Views.{image_at, HasImage, facts_of, pending_at, rest_at};

use crate::claim::Claim;
use crate::entry::Entry;
use crate::life::{Change, Facts, FoundLife, Life};
use crate::live_block::LiveBlock;
use crate::lives::Lives;
use crate::named_places::{BUILT_IN_TYPES, NamedPlaces, PLACES};
use crate::new_bytes::NewBytes;
use crate::rollback;
use edit_list::{EditId, Fs, Undo};
use reserved_row::ReservedRow;
use slab::Slab;
use std::alloc::{AllocError, Global};
use std::marker::Model;
use store_types::{BLOCK_LEN, Status};

/// What each block has been since it was last free, by block number: of each life the newest bytes, and of each pending
/// entry the bytes that it overwrote. Beside them stands which places of the catalogue on the disk name a template.
pub struct Cache {
    lives: Lives,
    entries: Slab<Entry>,
    named: NamedPlaces,
}

impl Model for Cache {
    ghost use Rattle.xn_model.specs.Lives.{Lives};
    ghost use Rattle.block_cache.specs.Undone.{lives_of};
    ghost use Rattle.block_cache.specs.Kept.{IsWhole};

    ghost Value = { Lives };

    ghost view = { λ a. lives_of a.entries a.lives };

    ghost invariant = { λ a. IsWhole a.entries a.lives a.named.places };
}

/// Written by hand, so that a function that drops one calls this: a derived drop is proved anew in each such function.
impl Drop for Cache {
    fn drop(self) {
        let Cache {
            lives: _,
            entries: _,
            named: _,
        } = self;
    }
}

impl Cache {
    /// The lives of the blocks that are found in an image, by block number: the one state of each is on the disk. The others
    /// are free. `Err` comes only for want of memory.
    pub fn found(
        alloc: Global,
        found: &ReservedRow<Option<FoundLife>>,
        blocks: &[[u8; BLOCK_LEN]],
    ) -> Result<Cache, AllocError>
        requires within { length found.now ≤ length blocks.now }
        requires few { length found.now < 2 ^ 32 }
        ensures { IfOk result (λ cache. cache ≡ map (rest_at found.now blocks.now) (range_with_len 0 (length found.now))) }
    {
        Ok(Cache {
            lives: Lives::found(alloc, found, blocks)?,
            entries: Slab::new(alloc),
            named: named_in(found, blocks),
        })
    }

    /// Starts a life on a free block, a file system's or nobody's.
    pub fn start(
        &mut self,
        alloc: Global,
        block: u32,
        number: EditId,
        fs: Option<Fs>,
        ty: u32,
        bytes: &[u8; BLOCK_LEN],
    ) -> Result<(), AllocError>
        requires { slice_get self.old block ≡ Some None }
        ensures ok { OnOk result (self.new ≡ slice_set self.old block (Some (new_life number (system_of fs) ty bytes.now))) }
        ensures err { OnErr result (self.new ≡ self.old) }
    {
        self.entries.reserve(1)?;
        let key = self.entries.vacant_key();
        self.lives.start(block, key, fs, ty, bytes)?;
        self.entries.insert_reserved(Entry {
            block,
            claim: Claim::first(number, fs),
            undo: Undo::none(alloc),
        });
        Ok(())
    }

    /// Ends the life of a block, which is free from then on.
    pub fn end(&mut self, block: u32)
        ensures { self.new ≡ slice_set self.old block None }
    {
        let life = self.lives.life(block);
        forget_all(&mut self.entries, life);
        self.lives.end(block);
        self.named = self.named.without(block);
    }

    /// How many blocks there are.
    pub fn blocks(&self) -> u32
        ensures { result ≡ length self.now }
    {
        let lives = &self.lives;
        lives.blocks
    }

    /// The life of a block, unless it is free or past the end.
    pub fn live(&self, block: u32) -> Option<LiveBlock<'_>>
        ensures { result ≡ life_at self.now block }
    {
        let life = self.lives.life(block)?;
        Some(LiveBlock::of(life, &self.entries))
    }

    /// What is known of a block in use beside its bytes. At most 64 entries are pending.
    pub fn facts(&self, block: u32) -> Option<Facts>
        ensures facts { result ≡ option_map facts_of (life_at self.now block) }
        ensures few { IfSome result (λ facts. facts.pending ≤ 64) }
        ensures begun { IfSome result (λ facts. IsCount facts.begun facts.pending) }
    {
        let life = self.live(block)?;
        Some(life.facts())
    }

    /// How many entries of a block are pending, at most 64.
    pub fn pending(&self, block: u32) -> usize
        ensures count { result ≡ life_pending (life_at self.now block) }
        ensures few { result ≤ 64 }
    {
        match self.facts(block) {
            Some(facts) => facts.pending,
            None => 0,
        }
    }

    /// How many entries are pending, of all blocks: at most 64 of each.
    pub fn all_pending(&self) -> usize
        ensures count { result ≡ all_pending self.now }
        ensures few { result ≤ 64 * length self.now }
    {
        let lives = &self.lives;
        lives.totals.pending
    }

    /// Whether a write of some block is under way.
    pub fn is_any_in_flight(&self) -> bool
        ensures { result ≡ list_any (alive_and (λ l. is_some l.begun)) self.now }
    {
        let lives = &self.lives;
        lives.totals.in_flight > 0
    }

    /// What the pending entry at a place says, the oldest at 0.
    pub fn claim(&self, block: u32, place: usize) -> Option<&Claim>
        ensures { option_copied result ≡ option_map claim_of (slice_get (pending_at (life_at self.now block)) place) }
    {
        let life = self.live(block)?;
        life.claim(place)
    }

    /// Whether block 0 has a type on the disk: it is built in, or the catalogue there names its template.
    pub fn has_type_on_disk(&self, ty: u32) -> bool
        ensures { result ≡ has_type (root_on_disk self.now) ty }
    {
        let places = &self.named.places;
        ty < BUILT_IN_TYPES
            || (ty < BUILT_IN_TYPES + PLACES && places[(ty - BUILT_IN_TYPES) as usize])
    }

    /// The bytes of a block in use with only its first pending entries done.
    pub fn image_of(&self, block: u32, count: u32) -> Option<[u8; BLOCK_LEN]>
        requires { IfSome (life_at self.now block) (HasImage count) }
        ensures { result ≡ option_map (image_at count) (life_at self.now block) }
    {
        let life = self.lives.life(block)?;
        Some(rollback::image_of(&self.entries, life, count as usize))
    }

    /// What the first pending entries of a block in use leave.
    #[inline(always)]
    pub fn image(&self, block: u32, count: u32) -> [u8; BLOCK_LEN]
        requires alive { IsTrue (is_some (life_at self.now block)) }
        requires has { IfSome (life_at self.now block) (HasImage count) }
        ensures { IfSome (life_at self.now block) (λ l. result ≡ image_at count l) }
    {
        let Some(life) = self.lives.life(block) else {
            unreachable!()
        };
        rollback::image_of(&self.entries, life, count as usize)
    }

    /// One more entry of a block in use, which leaves these bytes, and the bytes that it overwrites.
    #[inline(always)]
    pub fn append(
        &mut self,
        block: u32,
        claim: Claim,
        bytes: NewBytes<'_>,
        undo: Undo,
    ) -> Result<(), AllocError>
        requires alive { IsTrue (is_some (life_at self.old block)) }
        requires room { life_pending (life_at self.old block) < 64 }
        requires leaves { AreWithinLimits bytes }
        requires undoes { patched (new_bytes bytes (life_bytes (life_at self.old block))) undo ≡ life_bytes (life_at self.old block) }
        ensures ok { OnOk result (self.new ≡
            change_at self.old block (with_state (claimed_state claim (new_bytes bytes.entry (life_bytes (life_at self.old block)))))) }
        ensures err { OnErr result (self.new ≡ self.old) }
    {
        self.entries.reserve(1)?;
        let key = self.entries.vacant_key();
        self.lives.append(block, key, bytes)?;
        self.entries.insert_reserved(Entry { block, claim, undo });
        Ok(())
    }

    /// Sets the status of a block in use.
    pub fn set_status(&mut self, block: u32, status: Status)
        ensures { self.new ≡ change_at self.old block (with_status status) }
    {
        self.lives.change(block, Change::SetStatus(status));
    }

    /// Begins a write of a block that carries its first entries.
    pub fn begin(&mut self, block: u32, count: u32)
        requires some { 1 ≤ count }
        requires within { count ≤ life_pending (life_at self.old block) }
        ensures { self.new ≡ begun_at self.old block count }
    {
        self.lives.change(block, Change::SetBegun(Some(count)));
    }

    /// Ends a write of a block that made its first entries durable: those are forgotten, and the newest bytes stay. With
    /// none the write is given up.
    #[inline(always)]
    pub fn settle(&mut self, block: u32, count: u32)
        requires { count ≤ life_pending (life_at self.old block) }
        ensures { self.new ≡ settled_at self.old block count }
    {
        if count == 0 {
            self.lives.change(block, Change::SetBegun(None));
        } else {
            self.make_durable(block, count);
        }
    }

    #[inline(always)]
    fn make_durable(&mut self, block: u32, count: u32)
        requires some { 1 ≤ count }
        requires within { count ≤ life_pending (life_at self.old block) }
        ensures { self.new ≡ settled_at self.old block count }
    {
        let named = self.named_after(block, count);
        let life = self.lives.life(block);
        forget_first(&mut self.entries, life, count as usize);
        self.lives.change(block, Change::Settle(count));
        self.named = named;
    }

    /// Which places of the catalogue on the disk name a template once the first entries of a block are there.
    #[inline(always)]
    fn named_after(&self, block: u32, count: u32) -> NamedPlaces
        requires some { 1 ≤ count }
        requires within { count ≤ life_pending (life_at self.now block) }
        ensures { result.places ≡ places_named (root_on_disk (settled_at self.now block count)) }
    {
        if block != 0 {
            return self.named;
        }
        self.named_by_root(count)
    }

    /// The same, where they are entries of block 0.
    #[inline(never)]
    fn named_by_root(&self, count: u32) -> NamedPlaces
        requires some { 1 ≤ count }
        requires within { count ≤ life_pending (life_at self.now 0) }
        ensures { result.places ≡ places_named (root_on_disk (settled_at self.now 0 count)) }
    {
        match self.image_of(0, count) {
            Some(root) => NamedPlaces::of(&root),
            None => NamedPlaces::none(),
        }
    }
}

/// Which places of an image's catalogue name a template: none where block 0 is not found.
fn named_in(found: &ReservedRow<Option<FoundLife>>, blocks: &[[u8; BLOCK_LEN]]) -> NamedPlaces
    requires { length found.now ≤ length blocks.now }
    ensures { result.places ≡ places_named (durable_bytes (rest_at found.now blocks.now 0)) }
{
    match found.item(0) {
        Some(_) => NamedPlaces::of(&blocks[0]),
        None => NamedPlaces::none(),
    }
}

/// Forgets the first entries of a life.
#[inline(always)]
fn forget_first(entries: &mut Slab<Entry>, life: Option<&Life>, count: usize)
    requires { IfSome (option_copied life) (λ life. count ≤ length life.keys) }
    ensures rest { (k : ℕ) → (Contains (first_keys count (option_copied life.entry)) k → ⊥) → get entries.new k ≡ get entries.old k }
    ensures gone { (k : ℕ) → Contains (first_keys count (option_copied life.entry)) k → get entries.new k ≡ None }
{
    if let Some(life) = life {
        forget(entries, &life.keys[..count]);
    }
}

/// Forgets the entries of a life.
fn forget_all(entries: &mut Slab<Entry>, life: Option<&Life>)
    ensures rest { (k : ℕ) → (Contains (keys_of (option_copied life.entry)) k → ⊥) → get entries.new k ≡ get entries.old k }
    ensures gone { (k : ℕ) → Contains (keys_of (option_copied life.entry)) k → get entries.new k ≡ None }
{
    if let Some(life) = life {
        forget(entries, &life.keys);
    }
}

/// Forgets the entries under these keys.
#[inline(always)]
fn forget(entries: &mut Slab<Entry>, keys: &[usize])
    ensures rest { (k : ℕ) → (Contains keys.now k → ⊥) → get entries.new k ≡ get entries.old k }
    ensures gone { (k : ℕ) → Contains keys.now k → get entries.new k ≡ None }
{
    for key in keys {
        let _entry = entries.try_remove(*key);
    }
}
