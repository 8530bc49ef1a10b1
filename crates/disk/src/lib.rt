// A disk of blocks of 512 bytes, each read and written through a lane of its own.
// May touch: memory.
#![tactic(auto)]

mod blocks;
mod lane;
mod lanes;
mod mem;
mod plan;

pub use lane::{DeviceFault, Lane};
pub use lanes::Lanes;
pub use mem::{MemDisk, MemLane, fresh_lanes, lanes_from};
pub use plan::PlanLane;
