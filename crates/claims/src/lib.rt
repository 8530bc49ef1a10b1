//! What a block owns: of how many blocks, whether its new bytes own what an edit claims, and which chunks of its bytes decide it.
//! May touch: memory.
#![tactic(auto)]

mod chains;
mod claimed;
mod counts;
mod distinct;
pub mod law;
mod pairs;
mod read_sets;

pub use chains::{chain_end, names};
pub use claimed::is_claimed;
pub use counts::OwnedCounts;
pub use distinct::{are_blocks_distinct, are_distinct};
pub use pairs::owned_pairs;
pub use read_sets::{are_apart, leaves};
