//! What a mount finds of a file system of trees, and how it is mended: names that are one too many end, buckets are rewritten without dead records,
//! and each inode gets the links and the parent that its names say.
//! May touch: memory.
#![tactic(auto)]

mod ends;
mod in_room;
mod inode_plan;
pub mod law;
mod lead;
mod names;
mod orphans;
mod rewritings;
mod survey;
mod table;
mod tally;

pub use ends::{mend_names, plan_ends};
pub use in_room::make_all_in_room;
pub use inode_plan::{InodePlan, mend_inode, plan_inode};
pub use lead::Lead;
pub use names::Name;
pub use orphans::find_orphans;
pub use rewritings::{plan_rewritings, rewrite_buckets};
pub use survey::{Directory, Survey, survey_names};
pub use table::{Numbered, next_inode};
pub use tally::{Tally, tally_at};
