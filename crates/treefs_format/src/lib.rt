//! The blocks of a file system of trees: inodes with their pointers and the beginning of their content, nodes, buckets of names,
//! where a leaf and a name stand, and the templates by which the kernel knows the blocks.
//! May touch: memory.
#![tactic(auto)]

pub mod buckets;
pub mod candidates;
pub mod fields;
pub mod inodes;
pub mod kind;
pub mod law;
pub mod names;
pub mod nodes;
mod numbers;
pub mod paths;
pub mod pointers;
pub mod records;
pub mod roots;
pub mod sizes;
pub mod types;

pub use candidates::{LEVELS, candidate, name_hash};
pub use fields::{Change, Fields};
pub use kind::Kind;
pub use names::is_name;
pub use records::{Record, Records};
pub use sizes::Place;
