// Writes of blocks.

use disk::MemLane;
use xn_kernel::{DrainStop, Kernel};

/// One write of a block, from its begin to its finish; whether an entry is durable by it.
pub fn write(kernel: &mut Kernel<MemLane>, block: u32) -> bool {
    let Ok(mut ticket) = kernel.begin(block) else {
        return false;
    };
    let _ = ticket.land();
    let _ = ticket.sync();
    match kernel.finish(ticket) {
        Ok(landed) => landed.durable > 0,
        Err((ticket, _)) => {
            let _lane = ticket.into_lane();
            false
        }
    }
}

/// Writes all that is pending; whether that was done.
pub fn drain(kernel: &mut Kernel<MemLane>) -> bool {
    match kernel.drain() {
        Ok(_) => true,
        Err(stop) => {
            let DrainStop {
                writes: _writes,
                ticket,
                refusal: _refusal,
            } = stop;
            if let Some(ticket) = ticket {
                let _lane = ticket.into_lane();
            }
            false
        }
    }
}
