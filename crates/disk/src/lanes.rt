ghost use Rattle.std.specs.Prelude.{◌≡◌, ◌≢◌, ℕ, ◌+◌, ◌^◌, ◌<◌, ◌≤◌, List, length, replicate, Option, Some, None, IfOk, OnOk, OnErr, IfErr, IsOk, ◌↔◌};
ghost use Rattle.std.specs.Prelude.{slice_get, slice_set, IfSome, option_copied, []};
ghost use Rattle.disk.specs.Lanes.{AreLanes};

use crate::lane::Lane;
use std::alloc::{AllocError, Global};
use std::marker::Model;

/// One place for each block, which its lane stands in or not. A lane stands only in the place of its own number.
///
/// Contracts see the list of the places: `Some lane` where the lane is at home, `None` where it is away.
pub struct Lanes<L: Lane> {
    places: Vec<Option<L>>,
}

impl<L: Lane> Model for Lanes<L> {
    ghost use Rattle.std.specs.Prelude.{List, Option, ◌≤◌, length, ◌^◌};
    ghost use Rattle.disk.specs.Lanes.{AreLanes};

    ghost Value = { List (Option L) };

    ghost view = { λ a. a.places.items };

    ghost invariant = { λ a. AreLanes L.number_of a.places.items };
}

/// Written by hand, so that a function that drops one calls this: a derived drop is proved anew in each such function.
impl<L: Lane + Drop> Drop for Lanes<L> {
    fn drop(self) {
        let Lanes { places: _ } = self;
    }
}

impl<L: Lane> Lanes<L> {
    /// A place for each of `blocks` blocks, all empty. `Err` comes only for want of memory.
    pub fn new(alloc: Global, blocks: u32) -> Result<Lanes<L>, AllocError>
        ensures { IfOk result (λ lanes. lanes ≡ replicate blocks None) }
    {
        let mut places = Vec::with_capacity(alloc, blocks as usize)?;
        for _i in 0..blocks {
            places.push_reserved(None);
        }
        Ok(Lanes { places })
    }

    /// The lanes of a disk without blocks.
    pub fn none(alloc: Global) -> Lanes<L>
        ensures { result ≡ [] }
    {
        Lanes {
            places: Vec::new(alloc),
        }
    }

    /// The lanes in these places.
    pub(crate) fn of_places(places: Vec<Option<L>>) -> Lanes<L>
        requires { AreLanes L.number_of places.items }
        ensures { result ≡ places.items }
    {
        Lanes { places }
    }

    /// How many blocks there are, at home or not.
    pub fn blocks(&self) -> usize
        ensures blocks { result ≡ length self.now }
        ensures few { result < 2 ^ 32 }
    {
        self.places.len()
    }

    /// The lane of a block, whose place is then empty; `None` where it is empty already.
    pub fn take(&mut self, block: u32) -> Option<L>
        requires { block < length self.old }
        ensures lane { slice_get self.old block ≡ Some result }
        ensures number { IfSome result (λ lane. L.number_of lane ≡ block) }
        ensures rest { self.new ≡ slice_set self.old block None }
    {
        self.places[block as usize].take()
    }

    /// Puts a lane into the place of its number, with no memory. `Err` gives the lane back: that place is taken, or there is
    /// none.
    pub fn give(&mut self, lane: L) -> Result<(), L>
        ensures given { IsOk result ↔ (slice_get self.old (L.number_of lane) ≡ Some None) }
        ensures ok { OnOk result (self.new ≡ slice_set self.old (L.number_of lane) (Some lane)) }
        ensures err { IfErr result (λ back. back ≡ lane) }
        ensures unchanged { OnErr result (self.new ≡ self.old) }
    {
        let block = lane.number() as usize;
        if block >= self.places.len() || self.places[block].is_some() {
            return Err(lane);
        }
        match self.places[block].replace(lane) {
            None => Ok(()),
            Some(_here) => unreachable!(),
        }
    }

    /// Puts a lane into the place of its number, which is empty.
    pub fn put(&mut self, lane: L)
        requires { slice_get self.old (L.number_of lane) ≡ Some None }
        ensures { self.new ≡ slice_set self.old (L.number_of lane) (Some lane) }
    {
        match self.give(lane) {
            Ok(()) => {}
            Err(_lane) => unreachable!(),
        }
    }

    /// The lane of a block for looking; `None` where its place is empty.
    pub fn lane(&self, block: u32) -> Option<&L>
        requires { block < length self.now }
        ensures { slice_get self.now block ≡ Some (option_copied result) }
    {
        self.places[block as usize].as_ref()
    }
}
