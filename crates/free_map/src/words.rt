// A row of words, read as one row of bits.

ghost use Rattle.std.specs.Prelude.{◌≡◌, ℕ, ◌+◌, ◌*◌, ◌/◌, ◌<◌, ◌≤◌, ◌^◌, ◌==◌, true, false, length, replicate, IfOk, IfSome, IfNone, slice_index};
ghost use Rattle.free_map.specs.Bits.{has_bit, HasFirst, SetsBit, IsLowestIn, IsLowestFrom, IsLowest, HasNone, HasNoneFrom, HasNoneInFrom};

use crate::word;
use std::alloc::{AllocError, Global};
use std::marker::Model;

/// A row of words, read as one row of bits.
#[derive(Drop)]
pub struct Words {
    words: Vec<u64>,
}

impl Model for Words {
    ghost use Rattle.std.specs.Prelude.{List, ℕ};

    ghost Value = { List ℕ };

    ghost view = { λ a. a.words.items };
}

impl Words {
    /// So many words with no bit.
    pub fn new(alloc: Global, count: usize) -> Result<Words, AllocError>
        ensures { IfOk result (λ words. words ≡ replicate count 0) }
    {
        Ok(Words {
            words: vec![in alloc; 0; count]?,
        })
    }

    /// So many words, of whose bits the first ones are set.
    pub fn with_first(alloc: Global, count: usize, bits: usize) -> Result<Words, AllocError>
        requires within { bits ≤ 64 * count }
        requires few { count ≤ 2 ^ 32 }
        ensures long { IfOk result (λ words. length words ≡ count) }
        ensures first { IfOk result (HasFirst bits) }
    {
        let mut words = vec![in alloc; 0; count]?;
        for at in 0..count {
            words[at] = word::first_bits(bits.saturating_sub(64 * at).min(64) as u32);
        }
        Ok(Words { words })
    }

    /// Whether a bit of the row is set.
    pub fn has(&self, at: usize) -> bool
        requires { at < 64 * length self.now }
        ensures { result ≡ has_bit self.now at }
    {
        word::has_bit(self.words[at / 64], (at % 64) as u32)
    }

    /// Sets a bit, or clears it.
    pub fn put(&mut self, at: usize, bit: bool)
        requires { at < 64 * length self.old }
        ensures { SetsBit self.old self.new at bit }
    {
        if bit {
            self.set(at);
        } else {
            self.clear(at);
        }
    }

    fn set(&mut self, at: usize)
        requires { at < 64 * length self.old }
        ensures { SetsBit self.old self.new at true }
    {
        let word = self.words[at / 64];
        self.words[at / 64] = word::with_bit(word, (at % 64) as u32);
    }

    fn clear(&mut self, at: usize)
        requires { at < 64 * length self.old }
        ensures { SetsBit self.old self.new at false }
    {
        let word = self.words[at / 64];
        self.words[at / 64] = word::without_bit(word, (at % 64) as u32);
    }

    /// Whether a word has no bit.
    pub fn is_blank(&self, at: usize) -> bool
        requires { at < length self.now }
        ensures { result ≡ (slice_index self.now at == 0) }
    {
        self.words[at] == 0
    }

    /// The lowest bit of a word that has some bit.
    pub fn lowest_in(&self, at: usize) -> usize
        requires within { at < length self.now }
        requires some { 0 < slice_index self.now at }
        requires few { length self.now ≤ 2 ^ 32 }
        ensures { IsLowestIn self.now at result }
    {
        64 * at + self.words[at].trailing_zeros() as usize
    }

    /// The lowest bit of all.
    pub fn lowest(&self) -> Option<usize>
        requires { length self.now ≤ 2 ^ 32 }
        ensures some { IfSome result (IsLowest self.now) }
        ensures none { IfNone result (HasNone self.now) }
    {
        for (at, word) in self.words.iter().enumerate() {
            if *word != 0 {
                return Some(64 * at + word.trailing_zeros() as usize);
            }
        }
        None
    }

    /// The lowest bit of the word that has a bit, from that bit on.
    pub fn lowest_in_from(&self, at: usize) -> Option<usize>
        requires { length self.now ≤ 2 ^ 32 }
        ensures some { IfSome result (λ bit. IsLowestFrom self.now at bit × (bit / 64 ≡ at / 64)) }
        ensures none { IfNone result (HasNoneInFrom self.now at) }
    {
        let word = *self.words.get(at / 64)?;
        let bit = word::lowest_bit_from(word, (at % 64) as u32)?;
        Some(at / 64 * 64 + bit as usize)
    }

    /// The lowest bit of all, from a bit on.
    pub fn lowest_from(&self, at: usize) -> Option<usize>
        requires { length self.now ≤ 2 ^ 32 }
        ensures some { IfSome result (IsLowestFrom self.now at) }
        ensures none { IfNone result (HasNoneFrom self.now at) }
    {
        if let Some(bit) = self.lowest_in_from(at) {
            return Some(bit);
        }
        for word in at / 64 + 1..self.words.len() {
            if self.words[word] != 0 {
                return Some(self.lowest_in(word));
            }
        }
        None
    }
}
