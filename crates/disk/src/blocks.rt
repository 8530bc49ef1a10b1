// The bytes of a block in memory.

ghost use Rattle.std.specs.Prelude.{◌≡◌, ◌≤◌, ◌↔◌, length, IsTrue, vec_capacity};
ghost use Rattle.disk.specs.Blocks.{second_of};

use std::alloc::{AllocError, Allocator};
use std::marker::Model;
use store_types::BLOCK_LEN;

/// Two lots of bytes of a block, which stay where they are: only which of them a read gives may change.
///
/// The second lot has memory of its own, so that no write asks for any. It is left as it is until it is wanted, and counts as zeros till then.
#[derive(Drop)]
pub struct Blocks<A: Allocator> {
    one: [u8; BLOCK_LEN],
    two: Vec<[u8; BLOCK_LEN], A>,
    is_turned: bool,
}

impl<A: Allocator> Model for Blocks<A> {
    ghost use Rattle.std.specs.Prelude.{◌≡◌, ◌≤◌, length, true, vec_capacity};
    ghost use Rattle.disk.specs.Blocks.{TwoLots, lots_of, second_of};

    ghost Value = { TwoLots };

    ghost view = { λ a. lots_of a.is_turned a.one (second_of a.two.items) };

    ghost invariant = { λ a. (1 ≤ vec_capacity a.two) × (length a.two.items ≤ 1) × (a.is_turned ≡ true → length a.two.items ≡ 1) };
}

impl<A: Allocator> Blocks<A> {
    /// Bytes of no meaning, with room for the second lot. `Err` comes only for want of memory.
    pub fn new(alloc: A) -> Result<Blocks<A>, AllocError> {
        Ok(Blocks {
            one: [0; BLOCK_LEN],
            two: Vec::with_capacity(alloc, 1)?,
            is_turned: false,
        })
    }

    /// What a read gives.
    pub fn bytes(&self) -> &[u8; BLOCK_LEN]
        ensures { result.now ≡ self.now.bytes }
    {
        if self.is_turned {
            &self.two[0]
        } else {
            &self.one
        }
    }

    /// Whether both lots are the same bytes.
    pub fn are_same(&mut self) -> bool
        ensures same { IsTrue result ↔ (self.old.other ≡ self.old.bytes) }
        ensures kept { self.new ≡ self.old }
    {
        make_second(&mut self.two);
        self.two[0] == self.one
    }

    /// Each lot takes the other's place.
    #[inline(always)]
    pub fn turn(&mut self)
        ensures { self.new ≡ record { bytes = self.old.other; other = self.old.bytes } }
    {
        make_second(&mut self.two);
        self.is_turned = !self.is_turned;
    }

    /// A read gives these bytes from now on.
    #[inline(always)]
    pub fn set_bytes(&mut self, from: &[u8; BLOCK_LEN])
        ensures { self.new ≡ record self.old { bytes = from.now } }
    {
        if self.is_turned {
            self.two[0] = *from;
        } else {
            self.one = *from;
        }
    }

    /// The other lot is these bytes from now on.
    pub fn set_other(&mut self, from: &[u8; BLOCK_LEN])
        ensures { self.new ≡ record self.old { other = from.now } }
    {
        if self.is_turned {
            self.one = *from;
        } else {
            make_second(&mut self.two);
            self.two[0] = *from;
        }
    }
}

/// Puts zeros into the memory of a second lot that has none yet.
#[inline(always)]
fn make_second<A: Allocator>(two: &mut Vec<[u8; BLOCK_LEN], A>)
    requires few { length two.old.items ≤ 1 }
    requires room { 1 ≤ vec_capacity two.old }
    ensures one { length two.new.items ≡ 1 }
    ensures same { second_of two.new.items ≡ second_of two.old.items }
    ensures room { vec_capacity two.new ≡ vec_capacity two.old }
{
    if two.is_empty() {
        push_zeros(two);
    }
}

/// The same where it has none. It is not inlined, so that no write clears room for these zeros.
#[inline(never)]
fn push_zeros<A: Allocator>(two: &mut Vec<[u8; BLOCK_LEN], A>)
    requires empty { length two.old.items ≡ 0 }
    requires room { 1 ≤ vec_capacity two.old }
    ensures one { length two.new.items ≡ 1 }
    ensures same { second_of two.new.items ≡ second_of two.old.items }
    ensures room { vec_capacity two.new ≡ vec_capacity two.old }
{
    two.push_reserved([0; BLOCK_LEN]);
}
