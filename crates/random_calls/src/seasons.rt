// Calls on a disk whose groups of places come and go: more blocks come to be in use and then fewer, again and again.

use crate::disks::fresh_kernel;
use crate::run::{Run, SYSTEMS};
use crate::tally::Met;
use disk::MemLane;
use std::alloc::{AllocError, Global};
use std::thread::Threads;
use store_types::DATA_TYPE;
use xn_kernel::{Fs, Kernel};

/// How many blocks the disk has: five groups.
pub const BLOCKS: u32 = 320;

/// How many calls begin blocks, and with how many the next ones begin.
const BEGINNING: u32 = 400;

const ROUND: u32 = 1_200;

/// Of how many calls one is any call.
const OTHERS: u16 = 16;

/// Of how many calls that forget blocks one writes all that is pending in its place.
const DRAINS: u16 = 50;

/// Of how many calls one is followed by a crash.
const CRASHES: u16 = 1_000;

/// What most calls of a season do.
#[derive(Clone, Copy)]
enum Season {
    Begins,
    Forgets,
}

/// The season of a call.
fn season_of(call: u32) -> Season {
    if call % ROUND < BEGINNING {
        Season::Begins
    } else {
        Season::Forgets
    }
}

impl Run {
    /// Begins or forgets a block, or writes all that is pending, and asks.
    fn change_one(
        &mut self,
        kernel: &mut Kernel<MemLane>,
        season: Season,
    ) -> Result<(), AllocError> {
        let Some(fs) = Fs::new(self.numbers.byte(SYSTEMS)) else {
            return Ok(());
        };
        let block = match self.numbers.below(3) {
            0 => self.some_block(fs.number()),
            _ => self.some_fresh(fs.number(), DATA_TYPE),
        };
        match season {
            Season::Begins => self.init(kernel, fs, DATA_TYPE)?,
            Season::Forgets if self.numbers.below(DRAINS) == 0 => self.drain(kernel)?,
            Season::Forgets => self.forget(kernel, fs, block),
        }
        self.ask(kernel, fs, block);
        Ok(())
    }

    /// The next call of a season, or any call. Counts the groups that come and go by it.
    fn step_in(
        &mut self,
        alloc: Global,
        kernel: &mut Kernel<MemLane>,
        season: Season,
    ) -> Result<(), AllocError> {
        let before = self.record.groups();
        if self.numbers.below(OTHERS) == 0 {
            self.step(alloc, kernel)?;
        } else {
            self.change_one(kernel, season)?;
        }
        let after = self.record.groups();
        self.tally.add(Met::Made, after.saturating_sub(before));
        self.tally.add(Met::Ended, before.saturating_sub(after));
        Ok(())
    }
}

/// Makes so many calls on a fresh disk of five groups, with crashes.
pub fn make_seasons(
    rt: &(impl Threads + Sync),
    alloc: Global,
    run: &mut Run,
    calls: u32,
) -> Result<(), AllocError> {
    let mut kernel = fresh_kernel(rt, alloc, BLOCKS)?;
    run.start(alloc, &kernel)?;
    for call in 0..calls {
        run.step_in(alloc, &mut kernel, season_of(call))?;
        if run.numbers.below(CRASHES) == 0 {
            kernel = match run.crash(rt, alloc, kernel)? {
                Some(kernel) => kernel,
                None => return Ok(()),
            };
        }
    }
    Ok(())
}
