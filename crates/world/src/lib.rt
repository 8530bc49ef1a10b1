// A disk in memory with its kernel, run by events.
// May touch: memory, threads, streams.
#![tactic(auto)]

pub mod law;
mod running;
mod ticket;
mod tickets;
mod unmounted;
mod world;

pub use crash_check::ImageFault;
pub use running::Running;
pub use world::World;
pub use xn_state::{Answer, Call, Event, Landed, Reply, Stopped};
