// Crashes, and the mounts after them.

use crate::run::Run;
use crate::tally::Met;
use crash_check::{ImageFault, mount};
use disk::{Lanes, MemLane};
use std::alloc::{AllocError, Global};
use std::thread::Threads;
use xn_kernel::{Fs, Kernel, Refusal, Store};

/// Which open writes a crash keeps.
#[derive(Clone, Copy)]
enum Keeps {
    Nothing,
    All,
    Some,
}

/// Takes the lane of a block, if it is at home.
fn take(lanes: &mut Lanes<MemLane>, block: u32) -> Option<MemLane> {
    if (block as usize) < lanes.blocks() {
        lanes.take(block)
    } else {
        None
    }
}

impl Run {
    /// Gives the writes up that are under way, and puts their lanes back.
    fn give_up(&mut self, lanes: &mut Lanes<MemLane>) {
        for _ in 0..self.writes.len() {
            if let Some(write) = self.writes.pop() {
                let is_given = lanes.give(write.into_lane()).is_ok();
                self.tally.check(is_given);
            }
        }
    }

    /// The device crashes in one block.
    fn crash_block(&mut self, lanes: &mut Lanes<MemLane>, block: u32, is_kept: bool) {
        let held = self.record.held(block);
        if held.given.is_some() {
            self.tally
                .add(if is_kept { Met::Kept } else { Met::Lost }, 1);
            if is_kept && held.newest != held.left(true) {
                self.tally.add(Met::Unread, 1);
            }
        }
        self.record.crash(block, is_kept);
        match take(lanes, block) {
            None => self.tally.check(false),
            Some(mut lane) => {
                lane.crash(is_kept);
                let is_given = lanes.give(lane).is_ok();
                self.tally.check(is_given);
            }
        }
    }

    /// The device crashes, and keeps none of the open writes, all of them or some.
    fn crash_lanes(&mut self, lanes: &mut Lanes<MemLane>) {
        let keeps = self
            .numbers
            .pick(&[Keeps::Nothing, Keeps::All, Keeps::Some, Keeps::Some]);
        for block in 0..self.record.blocks {
            let is_kept = match keeps {
                Keeps::Nothing => false,
                Keeps::All => true,
                Keeps::Some => self.numbers.below(2) == 0,
            };
            self.crash_block(lanes, block, is_kept);
        }
    }

    /// Lets the next sync of a lane fail; whether that lane is there.
    fn fail_lane(&mut self, lanes: &mut Lanes<MemLane>) -> bool {
        let block = self.record.some_number(&mut self.numbers, 0);
        let Some(mut lane) = take(lanes, block) else {
            return false;
        };
        lane.fail_sync();
        lanes.give(lane).is_ok()
    }

    /// Mounts, sometimes with a lane whose sync fails: then the mount fails, and gives all lanes back.
    fn mount_lanes(
        &mut self,
        rt: &(impl Threads + Sync),
        alloc: Global,
        mut lanes: Lanes<MemLane>,
    ) -> Option<Kernel<MemLane>> {
        self.tally.add(Met::Crashes, 1);
        let id = u64::from(self.tally.of(Met::Crashes)).saturating_add(1);
        if self.numbers.below(4) == 0 {
            let is_there = self.fail_lane(&mut lanes);
            self.tally.check(is_there);
            match mount(rt, alloc, lanes, id) {
                Ok(_) => return None,
                Err((fault, back)) => {
                    self.tally.check_fault(fault);
                    self.tally.add(Met::Unmounted, 1);
                    lanes = back;
                }
            }
        }
        match mount(rt, alloc, lanes, id) {
            Ok(kernel) => Some(kernel),
            Err((ImageFault::NoMemory, back)) if self.tally.may_lack => {
                self.tally.add(Met::Lacking, 1);
                mount(rt, alloc, back, id).ok()
            }
            Err(_) => None,
        }
    }

    /// Compares a block after a mount: a reached one is its file system's, with the type and the bytes that the rules say, or nobody's.
    fn look_at_mounted(&mut self, kernel: &Kernel<MemLane>, block: u32) {
        self.look_at(kernel, block);
        let (number, wanted) = match self.record.life(block) {
            Some(life) => match life.fs {
                Some(number) => (number, Ok(life.ty)),
                None => (0, Err(Refusal::NotYours)),
            },
            None => (0, Err(Refusal::NotInUse)),
        };
        let Some(fs) = Fs::new(number) else {
            return self.tally.check(false);
        };
        self.tally.check(kernel.kind(fs, block) == wanted);
        match kernel.read(fs, block) {
            Ok(bytes) => self.tally.check(*bytes == self.record.held(block).newest),
            Err(refusal) => self.tally.check(wanted == Err(refusal)),
        }
        if wanted != Err(Refusal::NotYours) {
            let is_reached = wanted.is_ok();
            self.tally
                .add(if is_reached { Met::Reached } else { Met::Left }, 1);
        }
    }

    /// The kernel is dropped, the device crashes, and is mounted again. `None` where that fails, which counts as wrong.
    pub fn crash(
        &mut self,
        rt: &(impl Threads + Sync),
        alloc: Global,
        kernel: Kernel<MemLane>,
    ) -> Result<Option<Kernel<MemLane>>, AllocError> {
        let (installed, pending) = self.record.count_types();
        let mut lanes = kernel.into_lanes();
        self.give_up(&mut lanes);
        self.crash_lanes(&mut lanes);
        let is_sound = self.record.mount(alloc)?;
        self.tally.check(is_sound);
        let (left, _) = self.record.count_types();
        let taken = installed.saturating_sub(left);
        self.tally.add(Met::TypesTaken, taken);
        self.tally
            .add(Met::TypesKept, pending.saturating_sub(taken));
        let Some(kernel) = self.mount_lanes(rt, alloc, lanes) else {
            self.tally.check(false);
            return Ok(None);
        };
        for block in 0..self.record.blocks {
            self.look_at_mounted(&kernel, block);
        }
        Ok(Some(kernel))
    }
}
