// The words, who raises them, and who reads them.

ghost use Rattle.std.specs.Prelude.{◌≡◌, ◌≤◌, ◌<◌, max, slice_index, slice_set, replicate, IfOk};
ghost use Rattle.durable_floor.specs.Floors.{Knows};
ghost use Rattle.durable_floor.specs.Rules.{zero_floor};

use crate::rule::{Law, Meeting, Meets, Newcomer, Raises, Reads, View};
use atomic_table::{Seat, Table};
use std::alloc::{AllocError, Global};
use std::marker::{Brand, Model};
use std::mem;

/// A type that names one floor, so that contracts of types around it can speak of that one.
pub trait Naming {
    ghost use Rattle.atomic_table.specs.Seated.{TableId};

    /// Which floor it is.
    ghost floor: { TableId };
}

/// At a call of a program that makes a floor, `Brand` stands for the one that is picked there.
impl Naming for Brand {
    ghost use Rattle.durable_floor.specs.Floors.{no_floor};

    ghost floor = { no_floor };
}

/// A word for each of the file systems 0 to 31. Contracts see which floor it is.
#[derive(Drop)]
pub struct Floor {
    table: Table<(), View, (), Law, Global>,
}

impl Model for Floor {
    ghost use Rattle.std.specs.Prelude.{◌≡◌};
    ghost use Rattle.atomic_table.specs.Seated.{TableId, table_id_coded};

    ghost Value = { TableId };

    ghost coded = { table_id_coded };

    ghost view = { λ f. f.table.shared.table_id };

    ghost invariant = { λ f. f.table.shared.table_id.words ≡ 32 };
}

/// The one who raises the words of a floor. It knows what they are.
#[derive(Drop)]
pub struct Publisher {
    seat: Seat<(), View>,
}

impl Model for Publisher {
    ghost use Rattle.std.specs.Prelude.{◌≡◌, [], length};
    ghost use Rattle.durable_floor.specs.Floors.{Knows, knows_coded};
    ghost use Rattle.durable_floor.specs.Rules.{raiser};

    ghost Value = { Knows };

    ghost coded = { knows_coded };

    ghost view = { λ p. record { floor = p.seat.table_id; seen = p.seat.me.0.seen } };

    ghost invariant = { λ p. (p.seat.me ≡ (raiser p.seat.me.0.seen [], [])) × (length p.seat.me.0.seen ≡ 32) };
}

/// One who reads the words of a floor. It knows what it has seen of each.
#[derive(Drop)]
pub struct Reader {
    seat: Seat<(), View>,
}

impl Model for Reader {
    ghost use Rattle.std.specs.Prelude.{◌≡◌, [], length};
    ghost use Rattle.durable_floor.specs.Floors.{Knows, knows_coded};
    ghost use Rattle.durable_floor.specs.Rules.{watcher};

    ghost Value = { Knows };

    ghost coded = { knows_coded };

    ghost view = { λ r. record { floor = r.seat.table_id; seen = r.seat.me.0.seen } };

    ghost invariant = { λ r. (r.seat.me ≡ (watcher r.seat.me.0.seen, [])) × (length r.seat.me.0.seen ≡ 32) };
}

impl Floor {
    /// A floor of zeros, the one who raises it, and so many readers, which have seen nothing. `Err` comes only for want of
    /// memory.
    pub fn new(alloc: Global, readers: usize) -> Result<(Floor, Publisher, Vec<Reader>), AllocError>
        ensures publisher { IfOk result (λ r. r.1 ≡ record { floor = r.0; seen = zero_floor }) }
        ensures readers { IfOk result (λ r. r.2.items ≡ replicate readers (record { floor = r.0; seen = zero_floor })) }
    {
        let (table, mut seat) = Table::of_words(alloc, &[0; 32], &())?;
        let mut all = Vec::with_capacity(alloc, readers)?;
        for _ in 0..readers {
            let seat = table.shared.split_seat::<Newcomer>(&mut seat);
            all.push(Reader { seat })?;
        }
        Ok((Floor { table }, Publisher { seat }, all))
    }

    /// Raises a file system's word to `to`, where it is below.
    pub fn raise(&self, publisher: &mut Publisher, fs: u8, to: u64)
        requires same { publisher.old.floor ≡ self.now }
        requires few { fs < 32 }
        ensures raised { publisher.new ≡ record publisher.old { seen = slice_set publisher.old.seen fs (max (slice_index publisher.old.seen fs) to) } }
        ensures word { slice_index publisher.new.seen fs ≡ max (slice_index publisher.old.seen fs) to }
    {
        self.table
            .shared
            .fetch_max::<Raises>(&mut publisher.seat, usize::from(fs), to);
    }

    /// Reads a file system's word, which is no less than what this reader had seen of it.
    pub fn read(&self, reader: &mut Reader, fs: u8) -> u64
        requires same { reader.old.floor ≡ self.now }
        requires few { fs < 32 }
        ensures grows { slice_index reader.old.seen fs ≤ result }
        ensures seen { reader.new ≡ record reader.old { seen = slice_set reader.old.seen fs result } }
        ensures word { slice_index reader.new.seen fs ≡ result }
    {
        self.table
            .shared
            .load::<Reads>(&mut reader.seat, usize::from(fs))
    }

    /// Reads a file system's word beside the publisher: it is what the publisher knows, and no less than what this reader
    /// had seen of it.
    #[tactic(auto, using(crate::proofs::Lists::set_twice))]
    pub fn meet(&self, publisher: &mut Publisher, reader: &mut Reader, fs: u8) -> u64
        requires publisher { publisher.old.floor ≡ self.now }
        requires reader { reader.old.floor ≡ self.now }
        requires few { fs < 32 }
        ensures exact { result ≡ slice_index publisher.old.seen fs }
        ensures grows { slice_index reader.old.seen fs ≤ result }
        ensures seen { reader.new ≡ record reader.old { seen = slice_set reader.old.seen fs result } }
        ensures word { slice_index reader.new.seen fs ≡ result }
        ensures same { publisher.new ≡ publisher.old }
    {
        let shared = &self.table.shared;
        let word = usize::from(fs);
        shared.load::<Reads>(&mut reader.seat, word);

        // The reader's seat is joined to the publisher's, so that one step knows what both have seen.
        let seat = &mut publisher.seat;
        let empty = shared.split_seat::<Newcomer>(seat);
        shared.join_seat::<Meeting>(seat, mem::replace(&mut reader.seat, empty));
        let found = shared.load::<Meets>(seat, word);
        reader.seat = shared.split_seat::<Meeting>(seat);
        found
    }
}
