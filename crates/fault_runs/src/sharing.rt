// How a kernel comes to be shared.

ghost use Rattle.std.specs.Prelude.{◌≡◌, IfSome};
ghost use Rattle.std.specs.Arc.{arc_value};
ghost use Rattle.durable_floor.specs.Rules.{zero_floor};

use disk::Lane;
use durable_floor::{Floor, Naming, Publisher};
use shared::{Gate, Hub};
use std::alloc::Global;
use std::sync::Arc;
use xn_kernel::Kernel;

/// A gate that lets all pass.
#[derive(Drop)]
pub struct Open;

impl Gate for Open {
    fn begun(&self, _block: u32) {}

    fn landed(&self, _block: u32) {}
}

/// A kernel as threads may share it, with the words of a floor that nobody has raised, and the floor. `None`: there was no memory.
pub fn hub_of<L: Lane + Drop, K: Naming>(
    alloc: Global,
    kernel: Kernel<L>,
    floor: Floor,
    publisher: Publisher,
) -> Option<(Hub<L, K>, Arc<Floor, Global>)>
    requires floor { floor ≡ K.floor }
    requires publisher { publisher ≡ record { floor = floor; seen = zero_floor } }
    ensures { IfSome result (λ made. arc_value made.1 ≡ K.floor) }
{
    let floor = Arc::new(alloc, floor).ok()?;
    let hub = Hub::new(kernel, publisher, Arc::try_clone(&floor).ok()?);
    Some((hub, floor))
}
