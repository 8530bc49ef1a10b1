// Four clients and their flushers.

ghost use Rattle.std.specs.Prelude.{◌≡◌, All};
ghost use Rattle.durable_floor.specs.Rules.{zero_floor};

use crate::sharing::clients::{Client, work_at_once};
use crate::sharing::flushers::{Kernels, Open, flush_at_once};
use crate::sharing::lanes::WaitingLane;
use crash_check::mount;
use disk::Lanes;
use durable_floor::{Floor, Naming, Publisher, Reader};
use shared::{Hub, Shared};
use std::alloc::{AllocError, Global};
use std::marker::Brand;
use std::sync::{Arc, Wait};
use std::thread::{Threads, join};
use store_types::BLOCK_LEN;
use xn_kernel::{Fs, Kernel, Store};

/// A kernel that threads may share, with a floor that nobody has raised.
fn share<K: Naming>(
    alloc: Global,
    kernel: Kernel<WaitingLane>,
    floor: Floor,
    publisher: Publisher,
) -> Result<Kernels<K>, AllocError>
    requires floor { floor ≡ K.floor }
    requires publisher { publisher ≡ record { floor = floor; seen = zero_floor } }
{
    let floor = Arc::new(alloc, floor)?;
    let hub = Hub::new(kernel, publisher, Arc::try_clone(&floor)?);
    Ok(Shared::new(hub, floor, Open))
}

/// A block of each of four file systems, rooted; whether that was done.
fn start<K: Naming, R: Wait>(rt: &R, shared: &Kernels<K>) -> bool {
    let mut is_done = true;
    for number in 0..4 {
        if let Some(fs) = Fs::new(number) {
            let block = u32::from(number) + 1;
            let (made, rooted) = shared.with(
                rt,
                |hub| (hub.init(fs, 2, &[0; BLOCK_LEN]), hub.make_root(fs, block)),
            );
            is_done = is_done && made.is_ok() && rooted.is_ok();
        }
    }
    is_done
}

/// The four clients of the floor that these read.
fn clients_of<K: Naming>(
    alloc: Global,
    mut readers: Vec<Reader>,
) -> Result<Vec<Client<K>>, AllocError>
    requires { All (λ reader. reader.floor ≡ K.floor) readers.items }
{
    let mut clients = Vec::new(alloc);
    for number in 0..4 {
        if let Some(reader) = readers.pop() {
            clients.push(Client::new(number, reader))?;
        }
    }
    Ok(clients)
}

/// The clients and the flushers at once; whether all edits were told durable.
fn scene<K: Naming + Send + Sync, R: Threads + Wait + Sync>(
    rt: &R,
    alloc: Global,
    floor: Floor,
    publisher: Publisher,
    readers: Vec<Reader>,
    kernel: Kernel<WaitingLane>,
    flushers: usize,
) -> Result<bool, AllocError>
    requires floor { floor ≡ K.floor }
    requires publisher { publisher ≡ record { floor = floor; seen = zero_floor } }
    requires readers { All (λ reader. reader.floor ≡ K.floor) readers.items }
{
    let clients = clients_of::<K>(alloc, readers)?;
    let is_whole = clients.len() == 4;
    let shared: Kernels<K> = share(alloc, kernel, floor, publisher)?;
    let is_started = start(rt, &shared);
    let (are_told, are_good) = join(
        rt,
        || work_at_once(rt, alloc, &shared, clients),
        || flush_at_once(rt, alloc, &shared, flushers),
    );
    Ok(is_whole && is_started && are_told && are_good)
}

/// The same over lanes.
pub fn play<R: Threads + Wait + Sync>(
    rt: &R,
    alloc: Global,
    lanes: Lanes<WaitingLane>,
    flushers: usize,
) -> Result<bool, AllocError> {
    let Ok(kernel) = mount(rt, alloc, lanes, 1) else {
        return Err(AllocError);
    };
    let (floor, publisher, readers) = Floor::new(alloc, 4)?;
    scene::<Brand, _>(rt, alloc, floor, publisher, readers, kernel, flushers)
}
