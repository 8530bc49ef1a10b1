//! Plans of the calls on names of a file system of trees: what a call reads decides its fault, or the blocks that it begins and its edits.
//! May touch: memory.
#![tactic(auto)]

mod addition;
mod commit;
mod commit_plan;
mod committing;
mod create;
mod end;
mod ended;
mod endings;
mod link;
mod link_change;
mod link_plan;
mod linking;
mod making;
mod making_new;
mod moved;
mod moves;
mod name_end;
mod naming;
mod namings;
pub mod new_names;
mod other_names;
mod removal;
mod removing;
mod rename;
mod rename_plan;
mod renaming;
mod rmdir;
pub mod slots;
mod unlink;

pub use addition::{Addition, NewBucket, OldBucket};
pub use commit::plan_commit;
pub use commit_plan::CommitPlan;
pub use committing::Committing;
pub use create::plan_new;
pub use end::EndPlan;
pub use ended::Ended;
pub use link::plan_link;
pub use link_change::LinkChange;
pub use link_plan::LinkPlan;
pub use linking::Linking;
pub use making_new::MakingNew;
pub use name_end::NameEnd;
pub use naming::Naming;
pub use removal::RemovalPlan;
pub use rename::plan_rename;
pub use rename_plan::{LinksBetween, Moving, RenamePlan};
pub use renaming::Renaming;
pub use rmdir::plan_rmdir;
pub use unlink::plan_unlink;
