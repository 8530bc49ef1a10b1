// In which block each of the newest entries is pending.

ghost use Rattle.std.specs.Prelude.{◌≡◌, ℕ, ◌<◌, length, replicate, IfOk};
ghost use Rattle.dependencies.specs.Homes.{home_of, homes_with, slot_of};

use reserved_row::ReservedRow;
use std::alloc::{AllocError, Global};
use std::marker::Model;

/// The least number of slots.
const LEAST_SLOTS: usize = 64;

/// The greatest number of slots: at most 4,096 entries of each of 32 file systems are pending, and 64 of nobody, those of block 0.
const MOST_SLOTS: usize = 1 << 18;

/// The blocks of the newest entries, by their numbers: an entry never moves to another block. There are 2 ^ k slots, so that the slot of a number
/// is its lowest bits, with no division.
#[derive(Drop)]
pub struct Homes {
    pub(crate) slots: ReservedRow<(u64, u32)>,
}

impl Model for Homes {
    ghost use Rattle.std.specs.Prelude.{◌<◌, ℕ, List, length};

    ghost Value = { List (ℕ × ℕ) };

    ghost view = { λ a. a.slots };

    ghost invariant = { λ a. 0 < length a.slots };
}

impl Homes {
    /// Slots for some of the entries of so many blocks: two for each, and at least 64, but no more than entries can be pending.
    pub fn new(alloc: Global, blocks: u32) -> Result<Homes, AllocError>
        ensures { IfOk result (λ homes. (slots : ℕ) × (homes ≡ replicate slots (0, 0))) }
    {
        let wanted = (blocks as usize * 2).clamp(LEAST_SLOTS, MOST_SLOTS);
        let count = wanted.next_power_of_two();
        Ok(Homes {
            slots: ReservedRow::new(alloc, count, (0, 0))?,
        })
    }

    /// The slot of a number.
    #[inline(always)]
    fn slot(&self, number: u64) -> usize
        ensures slot { result ≡ slot_of (length self.now) number }
        ensures within { result < length self.now }
    {
        number as usize & (self.slots.places() - 1)
    }

    /// The block of an entry, unless a later one has taken its slot.
    pub fn home(&self, number: u64) -> Option<u32>
        ensures { result ≡ home_of self.now number }
    {
        match self.slots.get(self.slot(number)) {
            Some((newest, block)) if newest == number => Some(block),
            _ => None,
        }
    }

    /// Notes the block of a new entry.
    #[inline(always)]
    pub fn put(&mut self, number: u64, block: u32)
        ensures home { self.new ≡ homes_with self.old number block }
        ensures room { slot_of (length self.old) number < length self.old }
    {
        let slot = self.slot(number);
        self.slots.set(slot, (number, block));
    }
}
