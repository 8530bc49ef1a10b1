// The kernel of a store: its state over the lanes of a disk.
// May touch: memory.
#![tactic(auto)]

mod kernel;
mod laws;
mod ticket;

pub use kernel::{DrainStop, FlushStop, Kernel};
pub use laws::{flush_keeps_newest, flushed_stands};
pub use ticket::Ticket;
pub use xn_state::{
    Answer, Call, Edit, EditId, Found, Fs, Installed, Landed, Patch, Refusal, Stopped, Store,
};
