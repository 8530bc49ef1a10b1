//! What each block has been since it was last free, kept as its newest bytes and what undoes its pending entries.
//! May touch: memory.
#![tactic(auto)]

mod cache;
mod claim;
mod entry;
mod freeing;
mod group;
mod life;
mod live_block;
mod lives;
mod named_places;
mod new_bytes;
mod place;
mod rollback;
mod totals;

pub use cache::Cache;
pub use claim::Claim;
pub use edit_list::{EditId, Fs, Undo};
pub use life::{Facts, FoundLife};
pub use live_block::LiveBlock;
pub use new_bytes::NewBytes;
pub use store_types::Status;
