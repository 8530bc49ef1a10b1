// From which number on the pending entries of a file system lie.

ghost use Rattle.std.specs.Prelude.{◌≡◌, ◌+◌, ◌-◌, ◌^◌, ◌<◌, ◌≤◌, ℕ, length, min, true, false, option_map, slice_get, IfSome, IfNone, IsTrue};
ghost use Rattle.xn_model.specs.Lives.{life_at};
ghost use Rattle.block_cache.specs.Claims.{claim_of};
ghost use Rattle.block_cache.specs.Views.{pending_at};
ghost use Rattle.dependencies.specs.Homes.{AreHomes, home_of};
ghost use Rattle.dependencies.specs.Oldest.{AreOldest, MayPend, MovesOn, is_number_for, pends_for, oldest_with_entry};

use crate::homes::Homes;
use block_cache::{Cache, Fs};

/// Whether the pending entry at a place of a block has this number and counts for the file system.
fn is_for_at(cache: &Cache, block: u32, place: usize, fs: Fs, number: u64) -> bool
    ensures { result ≡ is_number_for fs.number number (option_map claim_of (slice_get (pending_at (life_at cache.now block)) place)) }
{
    match cache.claim(block, place) {
        Some(claim) => claim.is_for(fs) && claim.entry().number() == number,
        None => false,
    }
}

/// Whether the entry of this number is pending in a block and counts for the file system.
fn is_pending_in(cache: &Cache, block: u32, fs: Fs, number: u64) -> bool
    ensures { result ≡ pends_for fs.number number (life_at cache.now block) }
{
    for place in 0..cache.pending(block) {
        if is_for_at(cache, block, place, fs, number) {
            return true;
        }
    }
    false
}

/// Whether the entry of this number is known to be pending nowhere, or to count for another file system.
fn is_past(cache: &Cache, homes: &Homes, fs: Fs, number: u64) -> bool
    requires { AreHomes cache.now homes.now }
    ensures past { IsTrue result → (b : ℕ) → pends_for fs.number number (life_at cache.now b) ≡ false }
    ensures may { result ≡ false → MayPend cache.now homes.now fs.number number }
{
    match homes.home(number) {
        Some(block) => !is_pending_in(cache, block, fs, number),
        None => false,
    }
}

/// The least number from this one on whose entry may be pending for the file system. Mostly it is: only of an entry whose slot a
/// later one has taken that is not known.
fn next_pending(cache: &Cache, homes: &Homes, fs: Fs, from: u64) -> u64
    requires { AreHomes cache.now homes.now }
    ensures least { (n b : ℕ) → pends_for fs.number n (life_at cache.now b) ≡ true → from ≤ n → result ≤ n }
    ensures from { from ≤ result }
    ensures stops { result < min (from + length homes.now) (2 ^ 64 - 1) → MayPend cache.now homes.now fs.number result }
{
    let end = from.saturating_add(homes.slots.places() as u64);
    for number in from..end {
        if !is_past(cache, homes, fs, number) {
            return number;
        }
    }
    end
}

/// The block in which the entry of this number is known to be pending for the file system.
pub fn home_for(cache: &Cache, homes: &Homes, fs: Fs, number: u64) -> Option<u32>
    ensures some { IfSome result (λ block. pends_for fs.number number (life_at cache.now block) ≡ true) }
    ensures none { IfNone result ((b : ℕ) → home_of homes.now number ≡ Some b → pends_for fs.number number (life_at cache.now b) ≡ false) }
{
    let block = homes.home(number)?;
    if is_pending_in(cache, block, fs, number) {
        Some(block)
    } else {
        None
    }
}

/// Notes a new entry of a file system, of which so many were pending.
pub fn note_number(oldest: &mut [u64; 32], fs: Fs, number: u64, pending: u32)
    ensures { oldest.new ≡ oldest_with_entry oldest.old fs.number number pending }
{
    let place = fs.index();
    if pending == 0 {
        oldest[place] = number;
    } else {
        oldest[place] = number.min(oldest[place]);
    }
}

/// Moves the number of a file system on, some entries of which are pending no longer.
#[inline(never)]
pub fn move_on(oldest: &mut [u64; 32], cache: &Cache, homes: &Homes, fs: Fs)
    requires homes { AreHomes cache.now homes.now }
    requires oldest { AreOldest cache.now oldest.old }
    ensures oldest { AreOldest cache.now oldest.new }
    ensures moves { MovesOn cache.now homes.now fs.number oldest.old oldest.new }
{
    let place = fs.index();
    oldest[place] = next_pending(cache, homes, fs, oldest[place]);
}
