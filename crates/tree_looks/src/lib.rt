//! Words of `xnfs` that look at a volume, of trees or of the first file system: `ls`, `tree`, `cat`, `stat`, `readlink`, `find`, `du`, `df`, and what `check`
//! prints of a volume of trees.
//!
//! Of these functions it is proved that they are safe and end.
//! May touch: memory, streams.
#![tactic(auto)]

mod checking;
mod contents;
mod entries;
mod findings;
mod globs;
mod json;
mod listing;
mod measuring;
mod moments;
mod repairing;
mod rows;
mod searching;
mod sizes;
mod stating;
mod telling;

pub use checking::{check, count_damage};
pub use contents::{cat, read_link};
pub use globs::Glob;
pub use listing::{Listing, list};
pub use measuring::{Measuring, measure};
pub use moments::{Exact, Minutes};
pub use repairing::look_to_repair;
pub use searching::{Sought, search};
pub use stating::stat;
pub use telling::{UsageForm, tree, usage};
