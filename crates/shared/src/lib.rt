//! A kernel that threads share: the lock, what lies under it, and the threads that write blocks with no lock.
//! May touch: memory, threads.
#![tactic(auto)]

mod clients;
mod flusher;
mod hub;
pub mod law;
mod lock;
mod sharing;

pub use clients::worker;
pub use flusher::{FlushEnd, Flusher};
pub use hub::Hub;
pub use lock::{Gate, Held, Locked};
pub use sharing::Shared;
