//! Plans of the calls on bytes and attributes of a file system of trees: what a call reads decides its fault, or its edits.
//! May touch: memory.
#![tactic(auto)]

mod attributes;
mod blank;
mod blanks;
mod cuts;
mod drop_plan;
mod drops;
mod fields;
mod keeping;
mod kept;
mod patches;
mod piece;
mod roots;
mod roots_plan;
mod run_plan;
mod runs;
mod size;
mod truncates;
mod waits;
mod waits_plan;
mod writes;
mod writing_run;

pub use attributes::{Attributes, AttributesPlan, Owner, plan_attributes};
pub use blank::BlankPlan;
pub use blanks::plan_blank;
pub use cuts::{Cut, next_cut};
pub use drop_plan::DropPlan;
pub use drops::plan_drop;
pub use keeping::{find_untrimmed, kept_up_to};
pub use kept::Kept;
pub use piece::{ContentPlan, LeafPlan, WriteStep};
pub use roots::plan_roots;
pub use roots_plan::{Pointer, RootsPlan};
pub use run_plan::RunPlan;
pub use size::SizePlan;
pub use truncates::{plan_truncate, trim_to_truncate};
pub use waits::plan_waits;
pub use waits_plan::WaitsPlan;
pub use writes::{plan_piece, plan_write, trim_to_write};
pub use writing_run::WritingRun;
