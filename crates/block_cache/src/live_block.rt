// A block in use, found once.

ghost use Rattle.std.specs.Prelude.{◌≡◌, ℕ, ◌≤◌, bytes_eq, option_map, slice_get};
ghost use Rattle.std.specs.Option.{option_and_then, option_copied};
ghost use Rattle.slab.specs.Slab.{get};
ghost use Rattle.xn_model.specs.Lives.{current, is_for};
ghost use Rattle.xn_model.specs.Rules.{IsCount};
ghost use Rattle.block_cache.specs.Claims.{claim_of};
ghost use Rattle.block_cache.specs.Kept.{IsKept};
ghost use Rattle.block_cache.specs.Undone.{life_of};
ghost use Rattle.block_cache.specs.Views.{HasImage, facts_of, image_at};

use crate::claim::Claim;
use crate::entry::Entry;
use crate::life::{Facts, Life};
use crate::rollback::is_copied_image;
use edit_list::Fs;
use slab::Slab;
use std::marker::Model;
use store_types::BLOCK_LEN;

/// The life of a block in use, with its pending entries: who has found it asks it as often as is wanted, with no further look-up.
#[derive(Drop)]
pub struct LiveBlock<'a> {
    life: &'a Life,
    entries: &'a Slab<Entry>,
}

impl<'a> Model for LiveBlock<'a> {
    ghost use Rattle.std.specs.Prelude.{ℕ};
    ghost use Rattle.xn_model.specs.Lives.{Life as LifeValue};
    ghost use Rattle.block_cache.specs.Undone.{life_of};
    ghost use Rattle.block_cache.specs.Kept.{IsKept};

    ghost Value = { LifeValue };

    ghost view = { λ a. life_of a.entries.now a.life.now };

    ghost invariant = { λ a. (block : ℕ) × IsKept a.entries.now block a.life.now };
}

impl<'a> LiveBlock<'a> {
    /// That of a life with these entries.
    pub(crate) fn of(life: &'a Life, entries: &'a Slab<Entry>) -> LiveBlock<'a>
        requires { (block : ℕ) × IsKept entries.now block life.now }
        ensures { result ≡ life_of entries.now life.now }
    {
        LiveBlock { life, entries }
    }

    /// What is known of it beside its bytes. At most 64 entries are pending.
    pub fn facts(&self) -> Facts
        ensures facts { result ≡ facts_of self.now }
        ensures few { result.pending ≤ 64 }
        ensures begun { IsCount result.begun result.pending }
    {
        let life = self.life;
        Facts {
            ty: life.ty,
            status: life.status,
            is_durable: life.is_durable,
            pending: life.keys.len(),
            begun: life.begun,
        }
    }

    /// Whether it belongs to a file system.
    pub fn is_for(&self, fs: Fs) -> bool
        ensures { result ≡ is_for fs.number self.now.fs }
    {
        let life = self.life;
        match life.fs {
            Some(owner) => owner.number() == fs.number(),
            None => false,
        }
    }

    /// Its newest bytes.
    pub fn current(&self) -> &'a [u8; BLOCK_LEN]
        ensures { result.now ≡ current self.now }
    {
        let life = self.life;
        &life.current
    }

    /// What its pending entry at a place says, the oldest at 0.
    pub fn claim(&self, place: usize) -> Option<&'a Claim>
        ensures { option_copied result ≡ option_map claim_of (slice_get self.now.pending place) }
    {
        let life = self.life;
        let entry = entry_at(self.entries, &life.keys, place)?;
        Some(&entry.claim)
    }

    /// Whether it has these bytes with only its first pending entries done. Where no entry stands behind those, nothing is copied.
    pub fn has_image(&self, count: u32, bytes: &[u8; BLOCK_LEN]) -> bool
        requires { HasImage count self.now }
        ensures { result ≡ bytes_eq bytes.now (image_at count self.now) }
    {
        let life = self.life;
        if life.keys.len() <= count as usize {
            return *bytes == life.current;
        }
        is_copied_image(self.entries, life, count as usize, bytes)
    }
}

/// The entry under the key at a place.
fn entry_at<'a>(entries: &'a Slab<Entry>, keys: &[usize], place: usize) -> Option<&'a Entry>
    ensures { option_copied result ≡ option_and_then (get entries.now) (slice_get keys.now place) }
{
    let key = keys.get(place)?;
    entries.get(*key)
}
