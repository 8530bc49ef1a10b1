// The lives of all blocks, by groups.

ghost use Rattle.std.specs.Prelude.{◌≡◌, ◌+◌, ◌*◌, ◌^◌, ◌<◌, ◌≤◌, length, map, Some, None, IsTrue, IfOk, IfSome, OnOk, OnErr, is_some, slice_set, sum_by};
ghost use Rattle.std.specs.List.{range_with_len};
ghost use Rattle.std.specs.Option.{option_copied};
ghost use Rattle.block_cache.specs.Systems.{system_of};
ghost use Rattle.block_cache.specs.Kept.{place_at, change_place, resting_at, started_life};
ghost use Rattle.block_cache.specs.Groups.{places_of};
ghost use Rattle.block_cache.specs.Changed.{MayChange, changed_by};
ghost use Rattle.block_cache.specs.NewBytes.{AreWithinLimits, appended_by};
ghost use Rattle.block_cache.specs.Totals.{pending_count};

use crate::group::{GROUP_BLOCKS, Group};
use crate::life::{Change, FoundLife, Life};
use crate::new_bytes::NewBytes;
use crate::totals::Totals;
use edit_list::Fs;
use reserved_row::ReservedRow;
use std::alloc::{AllocError, Global};
use std::marker::Model;
use store_types::BLOCK_LEN;

/// The lives of all blocks, by block number. They are kept by groups of 64 blocks: a group without a block in use takes no memory beside its
/// handle. What is counted of all lives is kept beside them.
pub struct Lives {
    alloc: Global,
    pub(crate) blocks: u32,
    groups: Vec<Group>,
    pub(crate) totals: Totals,
}

impl Model for Lives {
    ghost use Rattle.std.specs.Prelude.{List, Option};
    ghost use Rattle.block_cache.specs.Cached.{CachedLife};
    ghost use Rattle.block_cache.specs.Groups.{AreGroups, places_of};

    ghost Value = { List (Option CachedLife) };

    ghost view = { λ a. places_of a.blocks a.groups.items };

    ghost invariant = { λ a. AreGroups a.blocks a.groups.items a.totals };
}

/// Written by hand, so that a function that drops one calls this: a derived drop is proved anew in each such function.
impl Drop for Lives {
    fn drop(self) {
        let Lives {
            alloc: _,
            blocks: _,
            groups: _,
            totals: _,
        } = self;
    }
}

impl Lives {
    /// The lives of the blocks that are found in an image, by block number.
    pub fn found(
        alloc: Global,
        found: &ReservedRow<Option<FoundLife>>,
        blocks: &[[u8; BLOCK_LEN]],
    ) -> Result<Lives, AllocError>
        requires within { length found.now ≤ length blocks.now }
        requires few { length found.now < 2 ^ 32 }
        ensures { IfOk result (λ lives. lives ≡ map (resting_at found.now blocks.now) (range_with_len 0 (length found.now))) }
    {
        Ok(Lives {
            alloc,
            blocks: found.places() as u32,
            groups: found_groups(alloc, found, blocks)?,
            totals: Totals {
                pending: 0,
                in_flight: 0,
            },
        })
    }

    /// The life of a block, unless it is free or past the end.
    #[inline(always)]
    pub fn life(&self, block: u32) -> Option<&Life>
        ensures { option_copied result ≡ place_at self.now block }
    {
        if block >= self.blocks {
            return None;
        }
        let at = block as usize;
        self.groups[at / GROUP_BLOCKS].life(at % GROUP_BLOCKS)
    }

    /// Starts a life on a free block, a file system's or nobody's, with its first entry.
    #[inline(always)]
    pub fn start(
        &mut self,
        block: u32,
        key: usize,
        fs: Option<Fs>,
        ty: u32,
        bytes: &[u8; BLOCK_LEN],
    ) -> Result<(), AllocError>
        requires within { block < length self.old }
        requires few { sum_by pending_count self.old + 1 < 2 ^ 64 }
        ensures ok { OnOk result (self.new ≡ slice_set self.old block (Some (started_life key (system_of fs) ty bytes.now))) }
        ensures err { OnErr result (self.new ≡ self.old) }
    {
        let at = block as usize;
        let exchange = self.groups[at / GROUP_BLOCKS].start(
            self.alloc,
            at % GROUP_BLOCKS,
            key,
            fs,
            ty,
            bytes,
        )?;
        self.totals.exchange(exchange);
        Ok(())
    }

    /// Frees a block. Past the end there is none.
    pub fn end(&mut self, block: u32)
        ensures { self.new ≡ slice_set self.old block None }
    {
        if block >= self.blocks {
            return;
        }
        let at = block as usize;
        let exchange = self.groups[at / GROUP_BLOCKS].end(self.alloc, at % GROUP_BLOCKS);
        self.totals.exchange(exchange);
    }

    /// Puts one more entry of a block in use behind the others, which left these bytes.
    #[inline(always)]
    pub fn append(&mut self, block: u32, key: usize, bytes: NewBytes<'_>) -> Result<(), AllocError>
        requires alive { IsTrue (is_some (place_at self.old block)) }
        requires leaves { AreWithinLimits bytes }
        requires few { sum_by pending_count self.old + 1 < 2 ^ 64 }
        ensures ok { OnOk result (self.new ≡ change_place self.old block (appended_by key bytes.entry)) }
        ensures err { OnErr result (self.new ≡ self.old) }
    {
        let at = block as usize;
        let exchange = self.groups[at / GROUP_BLOCKS].append(at % GROUP_BLOCKS, key, bytes)?;
        self.totals.exchange(exchange);
        Ok(())
    }

    /// Changes the life of a block in use; a free one, or one past the end, has none.
    #[inline(always)]
    pub fn change(&mut self, block: u32, change: Change)
        requires { IfSome (place_at self.old block) (MayChange change) }
        ensures { self.new ≡ change_place self.old block (changed_by change) }
    {
        if block >= self.blocks {
            return;
        }
        let at = block as usize;
        let exchange = self.groups[at / GROUP_BLOCKS].change(at % GROUP_BLOCKS, change);
        self.totals.exchange(exchange);
    }
}

/// The groups of the blocks that are found in an image.
fn found_groups(
    alloc: Global,
    found: &ReservedRow<Option<FoundLife>>,
    blocks: &[[u8; BLOCK_LEN]],
) -> Result<Vec<Group>, AllocError>
    requires within { length found.now ≤ length blocks.now }
    requires few { length found.now < 2 ^ 32 }
    ensures room { IfOk result (λ groups. length found.now ≤ 64 * length groups.items) }
    ensures places { IfOk result (λ groups. places_of (length found.now) groups.items
        ≡ map (resting_at found.now blocks.now) (range_with_len 0 (length found.now))) }
{
    let count = found.places().div_ceil(GROUP_BLOCKS);
    let mut groups = Vec::with_capacity(alloc, count)?;
    for group in 0..count {
        groups.push_reserved(Group::found(alloc, found, blocks, GROUP_BLOCKS * group)?);
    }
    Ok(groups)
}
