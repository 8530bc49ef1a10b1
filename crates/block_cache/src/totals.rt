// What is counted of lives.

ghost use Rattle.std.specs.Prelude.{◌≡◌, ◌+◌, ◌-◌, ◌^◌, ◌<◌, ◌≤◌, None};
ghost use Rattle.std.specs.Option.{option_copied};
ghost use Rattle.block_cache.specs.Totals.{exchange_of, totals_in};

use crate::life::Life;

/// Of one life or of many: how many entries are pending, and of how many a write is under way.
#[derive(Clone, Copy)]
pub struct Totals {
    pub pending: usize,
    pub in_flight: usize,
}

impl Totals {
    /// Those of a life, or of a free block.
    pub fn of(life: Option<&Life>) -> Totals
        ensures { result ≡ totals_in (option_copied life.entry) }
    {
        match life {
            Some(life) => Totals {
                pending: life.keys.len(),
                in_flight: usize::from(life.begun.is_some()),
            },
            None => Totals {
                pending: 0,
                in_flight: 0,
            },
        }
    }

    /// What was counted of a life before it changed is exchanged for what is counted now.
    pub fn exchange(&mut self, exchange: Exchange)
        requires pending { exchange.before.pending ≤ self.old.pending }
        requires in_flight { exchange.before.in_flight ≤ self.old.in_flight }
        requires few_pending { self.old.pending - exchange.before.pending + exchange.after.pending < 2 ^ 64 }
        requires few_in_flight { self.old.in_flight - exchange.before.in_flight + exchange.after.in_flight < 2 ^ 64 }
        ensures { self.new ≡ record {
          pending = self.old.pending - exchange.before.pending + exchange.after.pending;
          in_flight = self.old.in_flight - exchange.before.in_flight + exchange.after.in_flight;
        } }
    {
        let Exchange { before, after } = exchange;
        self.pending = self.pending - before.pending + after.pending;
        self.in_flight = self.in_flight - before.in_flight + after.in_flight;
    }
}

/// What is counted of a life before and after it changes.
#[derive(Clone, Copy)]
pub struct Exchange {
    pub before: Totals,
    pub after: Totals,
}

impl Exchange {
    /// That of a block that is free and stays so.
    pub fn none() -> Exchange
        ensures { result ≡ exchange_of None None }
    {
        Exchange {
            before: Totals::of(None),
            after: Totals::of(None),
        }
    }
}
