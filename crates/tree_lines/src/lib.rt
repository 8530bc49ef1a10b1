//! What the words of `xnfs` on volumes of trees have in common: faults, how names are shown, what is asked of any volume, where paths lead, an open volume,
//! and walks below a folder.
//!
//! Of paths it is proved where they lead, of looks what they answer, of walks what they come to, and of an open volume which calls its session makes; of the
//! other functions that they are safe and end.
//! May touch: memory.
#![tactic(auto)]

mod counting;
mod fault;
mod marks;
mod node;
mod opened;
mod paths;
mod reason;
mod showing;
mod stretches;
mod told;
mod trees;
mod view;
mod walking;

pub use counting::block_count;
pub use fault::{Fault, at, at_bytes, at_word, not_written, system};
pub use marks::{Mode, kind_mark};
pub use node::{Named, Node, Stretch, Usage};
pub use opened::Opened;
pub use paths::{Goal, Place, TOP, find, find_to, last_name, own_name, place_of, there};
pub use reason::{Reason, naming_reason_of, path_reason_of, reason_of, refusal_reason_of};
pub use showing::{below, shown};
pub use told::Told;
pub use treefs_session::{
    Attributes, Begin, BlockTypes, Change, Commit, Create, Mkdir, Owner, Put, Session, Settings,
    Target, Volume,
};
pub use view::View;
pub use walking::{Step, Visit, Walk};
