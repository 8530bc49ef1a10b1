//! What a call of a file system of trees asks of its store: acts, each an edit behind all of a block, blocks that it begins first, and one
//! function that carries out a whole plan.
//! May touch: memory.
#![tactic(auto)]

mod act;
pub mod fronts;
pub mod kinds;
pub mod law;
pub mod memory;
pub mod missing;
pub mod nodes;
mod plan;
mod room;
mod runs;
mod start;
mod times;
mod tree;

pub use act::Act;
pub use memory::{Memory, Touched};
pub use plan::{ActsAlone, Planned, carry_out};
pub use room::{has_room, have_room};
pub use runs::run;
pub use start::{Start, begin_all, forget_all, lacks_memory, start_fault};
pub use times::Times;
pub use tree::Tree;
