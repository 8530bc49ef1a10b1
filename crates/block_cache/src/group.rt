// The lives of 64 blocks that follow one another.

ghost use Rattle.std.specs.Prelude.{◌≡◌, ◌+◌, ◌^◌, ◌<◌, ◌≤◌, ℕ, length, map, replicate, slice_index_or, slice_set, Some, None};
ghost use Rattle.std.specs.Prelude.{IsTrue, IfOk, IfSome, OnOk, OnErr, is_some};
ghost use Rattle.std.specs.List.{range_with_len};
ghost use Rattle.std.specs.Option.{option_copied};
ghost use Rattle.block_cache.specs.Systems.{system_of};
ghost use Rattle.block_cache.specs.Kept.{place_at, change_place, resting_at, started_life};
ghost use Rattle.block_cache.specs.Groups.{group_of};
ghost use Rattle.block_cache.specs.Changed.{MayChange, changed_by};
ghost use Rattle.block_cache.specs.NewBytes.{AreWithinLimits, appended_by};
ghost use Rattle.block_cache.specs.Totals.{exchange_of};

use crate::life::{Change, FoundLife, Life};
use crate::new_bytes::NewBytes;
use crate::place::Place;
use crate::totals::Exchange;
use edit_list::Fs;
use reserved_row::ReservedRow;
use std::alloc::{AllocError, Global};
use std::marker::Model;
use store_types::BLOCK_LEN;

/// How many blocks a group has.
pub const GROUP_BLOCKS: usize = 64;

/// The lives of 64 blocks that follow one another, side by side. It has no place, and takes no memory, while none of them is in use.
#[derive(Drop)]
pub struct Group {
    places: Vec<Place>,
}

impl Model for Group {
    ghost use Rattle.std.specs.Prelude.{◌≡◌, List, Option, length};
    ghost use Rattle.block_cache.specs.Cached.{CachedLife};
    ghost use Rattle.block_cache.specs.Groups.{group_of};

    ghost Value = { List (Option CachedLife) };

    ghost view = { λ a. group_of a.places.items };

    ghost invariant = { λ a. length (group_of a.places.items) ≡ 64 };
}

impl Group {
    /// The lives of the 64 blocks from `first` on that are found in an image.
    pub fn found(
        alloc: Global,
        found: &ReservedRow<Option<FoundLife>>,
        blocks: &[[u8; BLOCK_LEN]],
        first: usize,
    ) -> Result<Group, AllocError>
        requires within { length found.now ≤ length blocks.now }
        requires few { first + 64 < 2 ^ 64 }
        ensures { IfOk result (λ group. group ≡ map (resting_at found.now blocks.now) (range_with_len first 64)) }
    {
        if is_none_found(found, first) {
            return Ok(Group {
                places: Vec::new(alloc),
            });
        }
        Ok(Group {
            places: found_places(alloc, found, blocks, first)?,
        })
    }

    /// The life of the block at a place, unless it is free.
    #[inline(always)]
    pub fn life(&self, at: usize) -> Option<&Life>
        ensures { option_copied result ≡ place_at self.now at }
    {
        match self.places.get(at) {
            Some(place) => place.life(),
            None => None,
        }
    }

    /// Starts a life on the block at a place, a file system's or nobody's, with its first entry. Where that is refused for want of
    /// memory the places may be there already: they are free, and the next life that starts here takes one of them.
    #[inline(always)]
    pub fn start(
        &mut self,
        alloc: Global,
        at: usize,
        key: usize,
        fs: Option<Fs>,
        ty: u32,
        bytes: &[u8; BLOCK_LEN],
    ) -> Result<Exchange, AllocError>
        requires { at < 64 }
        ensures ok { OnOk result (self.new ≡ slice_set self.old at (Some (started_life key (system_of fs) ty bytes.now))) }
        ensures err { OnErr result (self.new ≡ self.old) }
        ensures exchange { IfOk result (λ exchange. exchange ≡ exchange_of (place_at self.old at) (place_at self.new at)) }
        ensures long { length self.old ≡ 64 }
    {
        make_places(alloc, &mut self.places)?;
        self.places[at].start(key, fs, ty, bytes)
    }

    /// Frees the block at a place. Once all are free, their places are given back.
    pub fn end(&mut self, alloc: Global, at: usize) -> Exchange
        ensures end { self.new ≡ slice_set self.old at None }
        ensures exchange { result ≡ exchange_of (place_at self.old at) (place_at self.new at) }
        ensures long { length self.old ≡ 64 }
    {
        if at >= self.places.len() {
            return Exchange::none();
        }
        let exchange = self.places[at].end();
        if are_free(&self.places) {
            self.places = Vec::new(alloc);
        }
        exchange
    }

    /// Puts one more entry of the block in use at a place behind the others, which left these bytes.
    #[inline(always)]
    pub fn append(
        &mut self,
        at: usize,
        key: usize,
        bytes: NewBytes<'_>,
    ) -> Result<Exchange, AllocError>
        requires alive { IsTrue (is_some (place_at self.old at)) }
        requires leaves { AreWithinLimits bytes }
        ensures ok { OnOk result (self.new ≡ change_place self.old at (appended_by key bytes.entry)) }
        ensures err { OnErr result (self.new ≡ self.old) }
        ensures exchange { IfOk result (λ exchange. exchange ≡ exchange_of (place_at self.old at) (place_at self.new at)) }
        ensures long { length self.old ≡ 64 }
    {
        self.places[at].append(key, bytes)
    }

    /// Changes the life of the block at a place, unless it is free.
    #[inline(always)]
    pub fn change(&mut self, at: usize, change: Change) -> Exchange
        requires { IfSome (place_at self.old at) (MayChange change) }
        ensures changed { self.new ≡ change_place self.old at (changed_by change) }
        ensures exchange { result ≡ exchange_of (place_at self.old at) (place_at self.new at) }
        ensures long { length self.old ≡ 64 }
    {
        if at >= self.places.len() {
            return Exchange::none();
        }
        self.places[at].change(change)
    }
}

/// Makes the places of a group, unless they are there.
#[inline(always)]
fn make_places(alloc: Global, places: &mut Vec<Place>) -> Result<(), AllocError>
    ensures ok { OnOk result (places.new.items ≡ group_of places.old.items) }
    ensures err { OnErr result (places.new.items ≡ places.old.items) }
{
    if places.is_empty() {
        *places = free_places(alloc)?;
    }
    Ok(())
}

/// The places of 64 free blocks.
#[inline(never)]
fn free_places(alloc: Global) -> Result<Vec<Place>, AllocError>
    ensures { IfOk result (λ places. places.items ≡ replicate 64 None) }
{
    let mut places = Vec::with_capacity(alloc, GROUP_BLOCKS)?;
    for _at in 0..GROUP_BLOCKS {
        places.push_reserved(Place::free(alloc));
    }
    Ok(places)
}

/// The places of the 64 blocks from `first` on that are found in an image.
fn found_places(
    alloc: Global,
    found: &ReservedRow<Option<FoundLife>>,
    blocks: &[[u8; BLOCK_LEN]],
    first: usize,
) -> Result<Vec<Place>, AllocError>
    requires within { length found.now ≤ length blocks.now }
    requires few { first + 64 < 2 ^ 64 }
    ensures { IfOk result (λ places. places.items ≡ map (resting_at found.now blocks.now) (range_with_len first 64)) }
{
    let mut places = Vec::with_capacity(alloc, GROUP_BLOCKS)?;
    for at in 0..GROUP_BLOCKS {
        places.push_reserved(found_place(alloc, found, blocks, first + at));
    }
    Ok(places)
}

/// The place of a block that is found in an image, or is free.
fn found_place(
    alloc: Global,
    found: &ReservedRow<Option<FoundLife>>,
    blocks: &[[u8; BLOCK_LEN]],
    block: usize,
) -> Place
    requires { length found.now ≤ length blocks.now }
    ensures { result ≡ resting_at found.now blocks.now block }
{
    match found.item(block) {
        Some(life) => Place::found(alloc, life, &blocks[block]),
        None => Place::free(alloc),
    }
}

/// Whether none of the 64 blocks from `first` on is found in an image.
fn is_none_found(found: &ReservedRow<Option<FoundLife>>, first: usize) -> bool
    requires { first + 64 < 2 ^ 64 }
    ensures { IsTrue result → (k : ℕ) → k < 64 → slice_index_or found.now (first + k) None ≡ None }
{
    for at in 0..GROUP_BLOCKS {
        if found.item(first + at).is_some() {
            return false;
        }
    }
    true
}

/// Whether all of these places are free.
fn are_free(places: &[Place]) -> bool
    ensures { IsTrue result → places.now ≡ replicate (length places.now) None }
{
    for place in places {
        if place.life().is_some() {
            return false;
        }
    }
    true
}
