// Two file systems on a kernel that threads share.

ghost use Rattle.std.specs.Prelude.{◌≡◌, IfOk, ⊤};
ghost use Rattle.std.specs.Arc.{arc_value};
ghost use Rattle.durable_floor.specs.Rules.{zero_floor};

use crate::disks::Disk;
use crate::files::Files;
use crate::kernels::{fresh_kernel, writes_of};
use disk::{Lane, MemLane};
use durable_floor::{Floor, Naming, Publisher};
use ffs_lib::Fs;
use shared::{Gate, Held, Hub, Locked};
use std::alloc::{AllocError, Global};
use std::sync::Arc;
use std::thread::Threads;
use xn_kernel::Kernel;

/// Two file systems under a lock, with a hub as their store: each call of a volume is made while the lock is held.
pub type SharedFiles<K> = Locked<Files<Hub<MemLane, K>>, Open>;

/// A gate that lets all pass.
#[derive(Drop)]
pub struct Open;

impl Gate for Open {
    fn begun(&self, _block: u32) {}

    fn landed(&self, _block: u32) {}
}

impl<K: Naming> Disk for Hub<MemLane, K> {
    fn drain(&mut self, fs: Fs) -> Option<u32> {
        let _ = fs;
        let drained = Hub::drain(self);
        writes_of(drained)
    }

    fn free(&self) -> u32 {
        self.kernel().state().free()
    }
}

/// The rules of both volumes are a fact of every such value, whoever finds it under the lock.
impl<K: Naming> Held for Files<Hub<MemLane, K>> {
    ghost sound = { λ files. ⊤ };

    ghost floor = { K.floor };

    fn is_sound(&self) {}
}

/// A hub over a kernel, with a floor that nobody has raised.
fn hub_of<L: Lane + Drop, K: Naming>(
    alloc: Global,
    kernel: Kernel<L>,
    floor: Floor,
    publisher: Publisher,
) -> Result<(Hub<L, K>, Arc<Floor, Global>), AllocError>
    requires floor { floor ≡ K.floor }
    requires publisher { publisher ≡ record { floor = floor; seen = zero_floor } }
    ensures kernel { IfOk result (λ r. r.0.kernel ≡ kernel) }
    ensures floor { IfOk result (λ r. arc_value r.1 ≡ K.floor) }
{
    let floor = Arc::new(alloc, floor)?;
    let hub = Hub::new(kernel, publisher, Arc::try_clone(&floor)?);
    Ok((hub, floor))
}

/// Two file systems on a fresh disk of so many blocks, which threads may share. No volume is open, and nobody has raised the floor.
/// `Err` comes for want of memory, and where no disk has so many blocks.
pub fn share<K: Naming>(
    rt: &(impl Threads + Sync),
    alloc: Global,
    blocks: u32,
    systems: [Fs; 2],
    floor: Floor,
    publisher: Publisher,
) -> Result<SharedFiles<K>, AllocError>
    requires floor { floor ≡ K.floor }
    requires publisher { publisher ≡ record { floor = floor; seen = zero_floor } }
{
    let kernel = fresh_kernel(rt, alloc, blocks)?;
    let (hub, floor) = hub_of::<MemLane, K>(alloc, kernel, floor, publisher)?;
    let [first, second] = systems;
    Ok(SharedFiles::new(Files::new(hub, first, second), floor, Open))
}
