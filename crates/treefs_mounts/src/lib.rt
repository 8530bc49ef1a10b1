//! Opens a file system of trees on a store that can be flushed, and closes it: a volume that was not closed is mended, all is written, and the volume says
//! whether it is closed.
//! May touch: memory.
#![tactic(auto)]

mod closing;
mod flushing;
mod opening;
mod passes;

pub use closing::close;
pub use flushing::flush_volume;
pub use opening::{mend, open};
