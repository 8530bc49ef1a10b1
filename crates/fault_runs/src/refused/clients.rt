// A client's calls under a lock.

ghost use Rattle.std.specs.Prelude.{◌≡◌};
ghost use Rattle.durable_floor.specs.Rules.{zero_floor};

use crate::refused::tally::Miss;
use crate::sharing::{Open, hub_of};
use crash_check::mount;
use disk::{MemLane, fresh_lanes};
use durable_floor::{Floor, Naming, Publisher};
use shared::{Shared, worker};
use std::alloc::Global;
use std::marker::Brand;
use std::sync::Wait;
use std::thread::Threads;
use store_types::BLOCK_LEN;
use templates::format_image;
use xn_kernel::{Answer, Call, Fs, Kernel, Refusal};

/// The kernel of a fresh disk of 32 blocks.
pub fn fresh_kernel(rt: &(impl Threads + Sync), alloc: Global) -> Option<Kernel<MemLane>> {
    let image = format_image(alloc, 32, &[]).ok()?;
    if image.len() != 16_384 {
        return None;
    }
    let lanes = fresh_lanes(alloc, &image).ok()?;
    mount(rt, alloc, lanes, 1).ok()
}

/// Whether a client that finds no memory for its answers has made no call, and is answered when it comes again. Its one call takes a block.
fn has_answer<K: Naming, R: Wait>(
    rt: &R,
    alloc: Global,
    floor: Floor,
    publisher: Publisher,
    kernel: Kernel<MemLane>,
) -> Result<bool, Miss>
    requires floor { floor ≡ K.floor }
    requires publisher { publisher ≡ record { floor = floor; seen = zero_floor } }
{
    let (Some(fs), Some((hub, floor))) = (Fs::new(0), hub_of(alloc, kernel, floor, publisher))
    else {
        return Err(Miss::NoMemory);
    };
    let shared: Shared<MemLane, Open, K> = Shared::new(hub, floor, Open);
    let calls = [Call::Init {
        ty: 2,
        bytes: [7; BLOCK_LEN],
    }];
    let answers = match worker(&shared, rt, alloc, fs, &calls) {
        Ok(answers) => answers,
        Err(_) if shared.with(rt, |hub| hub.kernel().state().free()) != 31 => return Ok(false),
        Err(_) => worker(&shared, rt, alloc, fs, &calls)?,
    };
    match answers.as_slice() {
        [Answer::Init(Ok(_))] => Ok(shared.with(rt, |hub| hub.kernel().state().free()) == 30),
        [Answer::Init(Err(Refusal::NoMemory))] => Err(Miss::NoMemory),
        _ => Ok(false),
    }
}

/// Whether that holds of a client of a fresh disk.
pub fn is_answered<R: Threads + Wait + Sync>(rt: &R, alloc: Global) -> Result<bool, Miss> {
    let kernel = fresh_kernel(rt, alloc).ok_or(Miss::NoMemory)?;
    let (floor, publisher, _readers) = Floor::new(alloc, 0)?;
    has_answer::<Brand, _>(rt, alloc, floor, publisher, kernel)
}
