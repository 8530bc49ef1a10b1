// Calls of a kernel, each made many times.

use crate::calls::writes::{drain, write};
use disk::MemLane;
use std::alloc::{AllocError, Global};
use store_types::BLOCK_LEN;
use xn_kernel::{Edit, Fs, Kernel, Patch, Store};

/// What is made many times.
#[derive(Clone, Copy, Drop)]
pub enum Work {
    /// The floor of each file system in turn.
    Floor,
    /// The count of pending entries of each file system in turn.
    Pending,
    /// A fresh block, and its end.
    Init,
    /// An edit of one byte of a block, and the write of it.
    Cycle(u32),
    /// The same, with a pick between them.
    PickedCycle(u32),
    /// 64 edits of one byte of a block, and a drain.
    Drain(u32),
}

impl Work {
    /// The name that is printed.
    pub fn name(self) -> &'static str {
        match self {
            Work::Floor => "floor",
            Work::Pending => "pending",
            Work::Init => "init-forget",
            Work::Cycle(_) => "edit-write",
            Work::PickedCycle(_) => "edit-pick-write",
            Work::Drain(_) => "drained-edit",
        }
    }

    /// Makes the calls `count` times, and answers how often they did what they should.
    pub fn run(
        self,
        alloc: Global,
        kernel: &mut Kernel<MemLane>,
        fs: Fs,
        count: u32,
    ) -> Result<u32, AllocError> {
        match self {
            Work::Floor => Ok(floors(kernel, count)),
            Work::Pending => Ok(counts(kernel, count)),
            Work::Init => Ok(inits(kernel, fs, count)),
            Work::Cycle(block) => cycles(alloc, kernel, fs, block, count, false),
            Work::PickedCycle(block) => cycles(alloc, kernel, fs, block, count, true),
            Work::Drain(block) => drains(alloc, kernel, fs, block, count),
        }
    }
}

/// The file system of a turn.
fn system(turn: u32) -> Option<Fs> {
    Fs::new((turn % 32) as u8)
}

/// How many of so many floors are above 0.
fn floors(kernel: &Kernel<MemLane>, count: u32) -> u32 {
    let mut done = 0u32;
    for turn in 0..count {
        if let Some(fs) = system(turn)
            && kernel.floor(fs) > 0
        {
            done = done.wrapping_add(1);
        }
    }
    done
}

/// How many of so many counts of pending entries are 0.
fn counts(kernel: &Kernel<MemLane>, count: u32) -> u32 {
    let mut done = 0u32;
    for turn in 0..count {
        if let Some(fs) = system(turn)
            && kernel.pending(fs) == 0
        {
            done = done.wrapping_add(1);
        }
    }
    done
}

/// How many of so many fresh blocks come and end.
fn inits(kernel: &mut Kernel<MemLane>, fs: Fs, count: u32) -> u32 {
    let mut done = 0u32;
    for _ in 0..count {
        let Ok((block, _)) = kernel.init(fs, 2, &[0; BLOCK_LEN]) else {
            continue;
        };
        if kernel.forget(fs, block).is_ok() {
            done = done.wrapping_add(1);
        }
    }
    done
}

/// The edit that sets one byte of a block, which no pointer has.
fn byte_edit(alloc: Global, byte: u8) -> Result<Edit, AllocError> {
    let bytes = Vec::from_array(alloc, [byte])?;
    let patch = Patch { offset: 4, bytes };
    Ok(Edit {
        patches: Vec::from_array(alloc, [patch])?,
        adds: Vec::new(alloc),
        drops: Vec::new(alloc),
        after: None,
    })
}

/// How many of so many edits of a block are durable by a write of their own.
fn cycles(
    alloc: Global,
    kernel: &mut Kernel<MemLane>,
    fs: Fs,
    block: u32,
    count: u32,
    picks: bool,
) -> Result<u32, AllocError> {
    let edits = [byte_edit(alloc, 1)?, byte_edit(alloc, 2)?];
    let mut done = 0u32;
    for turn in 0..count {
        let edit = &edits[(turn % 2) as usize];
        if kernel.propose(fs, block, edit).is_err()
            || picks && kernel.state().pick() != Some(block)
        {
            continue;
        }
        if write(kernel, block) {
            done = done.wrapping_add(1);
        }
    }
    Ok(done)
}

/// How many of so many edits of a block are durable by drains, each after 64 of them.
fn drains(
    alloc: Global,
    kernel: &mut Kernel<MemLane>,
    fs: Fs,
    block: u32,
    count: u32,
) -> Result<u32, AllocError> {
    let edits = [byte_edit(alloc, 1)?, byte_edit(alloc, 2)?];
    let mut done = 0u32;
    for turn in 0..count {
        if kernel
            .propose(fs, block, &edits[(turn % 2) as usize])
            .is_ok()
        {
            done = done.wrapping_add(1);
        }
        if turn % 64 == 63 && !drain(kernel) {
            return Ok(0);
        }
    }
    Ok(done)
}
