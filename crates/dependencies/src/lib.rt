//! Which pending entries may go to the disk: the rules of soft updates.
//! May touch: memory.
#![tactic(auto)]

mod after;
mod candidates;
mod counts;
mod floors;
mod homes;
mod index;
pub mod law;
mod oldest;
mod safe;
mod unmet;
mod wait_lists;

pub use counts::TakenOut;
pub use index::Index;
