// The lives of all blocks, with what is counted of them.

ghost use Rattle.std.specs.Prelude.{◌≡◌, ℕ, ◌^◌, ◌<◌, ◌≤◌, All, false, length, map, Option, Some, None, IfOk, IfSome, IsTrue, OnOk};
ghost use Rattle.std.specs.Prelude.{OnErr, is_some, slice_get, slice_set, sum_by};
ghost use Rattle.xn_model.specs.Lists.{distinct};
ghost use Rattle.xn_model.specs.Lives.{accepted_at, dropped_after, is_for, life_at, lowest_free};
ghost use Rattle.xn_model.specs.Lives.{owned_after};
ghost use Rattle.xn_model.specs.Calls.{life_bytes, life_pending, new_life, own_place, patched, pending_in};
ghost use Rattle.xn_model.specs.Images.{blocks_in, most_blocks};
ghost use Rattle.block_cache.specs.Systems.{system_of};
ghost use Rattle.block_cache.specs.Claims.{claimed_state};
ghost use Rattle.block_cache.specs.NewBytes.{AreWithinLimits, new_bytes};
ghost use Rattle.xn_model.specs.Mounts.{found_status};
ghost use Rattle.claims.specs.Owners.{is_claimed, owned_count};
ghost use Rattle.claims.specs.Owned.{MayClaim};
ghost use Rattle.dependencies.specs.Pending.{pends};
ghost use Rattle.xn_state.specs.Mounts.{found_life_of, lives_in};

use crate::found::Found;
use block_cache::{Cache, Claim, FoundLife, LiveBlock, NewBytes};
use claims::OwnedCounts;
use dependencies::Index;
use edit_list::{EditId, Fs, Undo};
use free_map::FreeMap;
use reserved_row::ReservedRow;
use std::alloc::{AllocError, Global};
use std::marker::Model;
use store_types::{BLOCK_LEN, Refusal, Status};

mod forget;
mod install;
mod writes;

/// The lives of all blocks, by block number. What is known of their pending entries, of the free blocks, and of how many blocks each
/// block owns is kept beside them, so that no call walks all lives for it.
pub struct Lives {
    pub(crate) cache: Cache,
    pub(crate) owned: OwnedCounts,
    pub(crate) index: Index,
}

impl Model for Lives {
    ghost use Rattle.std.specs.Prelude.{List, Option};
    ghost use Rattle.xn_model.specs.Lives.{Life as LifeValue};
    ghost use Rattle.claims.specs.Owned.{AreOwnedCounts};
    ghost use Rattle.dependencies.specs.Index.{IsIndex};

    ghost Value = { List (Option LifeValue) };

    ghost view = { λ a. a.cache };

    ghost invariant = { λ a. AreOwnedCounts a.owned a.cache × IsIndex a.cache a.index };
}

/// Written by hand, so that a function that drops one calls this: a derived drop is proved anew in each such function.
impl Drop for Lives {
    fn drop(self) {
        let Lives {
            cache: _,
            owned: _,
            index: _,
        } = self;
    }
}

impl Lives {
    /// The lives of the blocks that are found in an image; all others are free.
    pub fn found(alloc: Global, image: &[u8], found: &[Found]) -> Result<Lives, AllocError>
        requires few { length (blocks_in image.now) < 2 ^ 32 }
        requires within { All (λ f. f.block < length (blocks_in image.now)) found.now }
        requires once { IsTrue (distinct (map (λ f. f.block) found.now)) }
        ensures { IfOk result (λ lives. lives ≡ lives_in image.now found.now) }
    {
        let (blocks, _) = image.as_chunks::<BLOCK_LEN>();
        let count = blocks.len() as u32;
        let mut places = ReservedRow::new(alloc, blocks.len(), None)?;
        let mut free = FreeMap::new(alloc, count)?;
        for block in found {
            places.set(block.block as usize, Some(found_life(block)));
            free.take(block.block);
        }
        let owned = OwnedCounts::found(alloc, &places)?;
        let cache = Cache::found(alloc, &places, blocks)?;
        drop(places);
        let index = Index::at_rest(alloc, free, count)?;
        Ok(Lives {
            cache,
            owned,
            index,
        })
    }

    /// The life of a block that a file system may use: refused are a block past the end, a free or dropped one, and one of another file
    /// system or of nobody.
    pub fn own(&self, fs: Fs, block: u32) -> Result<LiveBlock<'_>, Refusal>
        ensures own { result ≡ own_place fs.number (slice_get self.now block) }
        ensures alive { IfOk result (λ life. life_at self.now block ≡ Some life) }
    {
        if block >= self.cache.blocks() {
            return Err(Refusal::NoSuchBlock);
        }
        let Some(life) = self.cache.live(block) else {
            return Err(Refusal::NotInUse);
        };
        if life.facts().is_dropped() {
            return Err(Refusal::NotInUse);
        }
        if !life.is_for(fs) {
            return Err(Refusal::NotYours);
        }
        Ok(life)
    }

    /// Whether these pairs are those that a block owns without the drops and with the adds, by the statuses.
    pub fn is_claimed(
        &self,
        block: u32,
        pairs: &[(u32, u32)],
        adds: &[(u32, u32)],
        drops: &[u32],
    ) -> bool
        requires { IsTrue (is_some (life_at self.now block)) }
        ensures { result ≡ is_claimed self.now block (owned_count self.now block) pairs.now adds.now drops.now }
    {
        let owns = self.owned.count(block);
        claims::is_claimed(&self.cache, block, owns, pairs, adds, drops)
    }

    /// Starts a life on the least free block, a file system's or nobody's.
    pub fn start(
        &mut self,
        alloc: Global,
        block: u32,
        number: EditId,
        fs: Option<Fs>,
        ty: u32,
        bytes: &[u8; BLOCK_LEN],
    ) -> Result<(), AllocError>
        requires free { lowest_free self.old ≡ Some block }
        requires room { IfSome fs (λ f. sum_by (pending_in f.number) self.old < 4096) }
        requires fresh { (b : ℕ) → pends number (life_at self.old b) ≡ false }
        ensures ok { OnOk result (self.new ≡ slice_set self.old block (Some (new_life number (system_of fs) ty bytes.now))) }
        ensures err { OnErr result (self.new ≡ self.old) }
    {
        self.cache.start(alloc, block, number, fs, ty, bytes)?;
        self.index.note_start(block, number.number(), fs);
        Ok(())
    }

    /// Makes one more entry of a block in use, which leaves these bytes: the block owns what it adds and no longer what it drops.
    #[inline(always)]
    pub fn accept(
        &mut self,
        fs: Option<Fs>,
        block: u32,
        claim: Claim,
        bytes: NewBytes<'_>,
        undo: Undo,
        adds: &[(u32, u32)],
        drops: &[u32],
    ) -> Result<(), AllocError>
        requires alive { IsTrue (is_some (life_at self.old block)) }
        requires room { life_pending (life_at self.old block) < 64 }
        requires few { IfSome fs (λ f. sum_by (pending_in f.number) self.old < 4096) }
        requires size { length self.old ≤ most_blocks }
        requires claims { MayClaim self.old block adds.now drops.now }
        requires few_adds { length adds.now ≤ 128 }
        requires few_drops { length drops.now ≤ 128 }
        requires leaves { AreWithinLimits bytes }
        requires undoes { patched (new_bytes bytes (life_bytes (life_at self.old block))) undo ≡ life_bytes (life_at self.old block) }
        requires fresh { (b : ℕ) → pends claim.entry (life_at self.old b) ≡ false }
        requires fs { claim.fs ≡ system_of fs }
        requires adds { claim.adds ≡ adds.now }
        requires drops { claim.drops ≡ drops.now }
        ensures ok { OnOk result (self.new ≡ accepted_at self.old block (claimed_state claim (new_bytes bytes.entry (life_bytes (life_at self.old block))))) }
        ensures err { OnErr result (self.new ≡ self.old) }
    {
        let number = claim.entry().number();
        self.cache.append(block, claim, bytes, undo)?;
        set_dropped(&mut self.cache, block, drops);
        set_owned(&mut self.cache, block, adds);
        self.owned
            .change(block, drops.len() as u32, adds.len() as u32);
        self.index.note_entry(block, number, fs);
        Ok(())
    }
}

/// A block owns these blocks from now on.
fn set_owned(cache: &mut Cache, owner: u32, adds: &[(u32, u32)])
    ensures { cache.new ≡ owned_after owner cache.old adds.now }
{
    for add in adds {
        cache.set_status(add.0, Status::Owned(owner));
    }
}

/// A block has dropped these blocks.
fn set_dropped(cache: &mut Cache, owner: u32, drops: &[u32])
    ensures { cache.new ≡ dropped_after owner cache.old drops.now }
{
    for block in drops {
        cache.set_status(*block, Status::Dropped(owner));
    }
}

/// What is found of a block beside its bytes.
fn found_life(found: &Found) -> FoundLife
    ensures { result ≡ found_life_of found.now }
{
    FoundLife {
        fs: found.fs,
        ty: found.ty,
        status: found_status(found.owner),
    }
}

/// The status of a block with this owner.
fn found_status(owner: Option<u32>) -> Status
    ensures { result ≡ found_status owner }
{
    match owner {
        Some(owner) => Status::Owned(owner),
        None => Status::Fresh,
    }
}
