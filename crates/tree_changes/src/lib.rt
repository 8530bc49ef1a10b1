//! Words of `xnfs` that change a volume of trees: `mkdir`, `rmdir`, `rm`, `mv`, `ln`, `chmod`, `chown`, `touch`, `truncate`, and `cp` inside the volume.
//!
//! It is proved which calls of the session they make, where their paths lead and below folders, and what texts of modes, owners and times they read. Of the
//! other functions it is proved that they are safe and end.
//! That a file which is copied has its name only with all its bytes is what the calls of a session promise.
//! May touch: memory.
#![tactic(auto)]

mod attributes;
mod copies;
mod copying;
mod cuts;
mod dates;
mod folders;
mod linking;
mod modes;
mod moving;
mod naming;
mod numbers;
mod owners;
mod removing;
mod setting;
mod times;

pub use copying::copy;
pub use dates::read_date;
pub use folders::{make_folders, remove_folders};
pub use modes::Modes;
pub use moving::rename;
pub use naming::{Linking, link};
pub use owners::Owners;
pub use removing::{Removing, remove};
pub use setting::{Setting, set_attributes};
pub use times::{touch, truncate};
