//! Calls of a file system of trees over a store: each answers its first fault, or makes exactly the edits that were planned for it.
//! May touch: memory.
#![tactic(auto)]

mod attributes;
mod beginning;
mod block_types;
mod making;
mod memory;
mod opening;
mod reap_plan;
mod reaping;
mod trimming;
mod volume;
mod writing_times;

pub use attributes::Attributes;
pub use block_types::BlockTypes;
pub use treefs_byte_plans::{Attributes as Settings, Owner};
pub use trimming::trim_first;
pub use volume::Volume;
