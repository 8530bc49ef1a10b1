//! Edits of a block: patches of its bytes, the blocks that it is then to own, or to own no longer, and what undoes them.
//! May touch: memory.
#![tactic(auto)]

mod edit;
mod edit_id;
mod fs;
pub mod law;
mod patch;
mod patches;
mod piece_list;
mod short_piece;
mod undo;

pub use edit::Edit;
pub use edit_id::EditId;
pub use fs::Fs;
pub use patch::Patch;
pub use undo::Undo;
