//! A file system of trees, open on a store that can be flushed: its calls are made again once what they wait for is written, and what no name leads to is freed.
//! May touch: memory.
#![tactic(auto)]

mod call;
mod calls;
pub mod law;
mod put;
mod session;
mod tries;

pub use call::Call;
pub use calls::bytes::{Target, Write};
pub use calls::changes::Change;
pub use calls::new_inodes::{Begin, Commit, Create, Mkdir, Symlink};
pub use put::Put;
pub use session::{Session, Unclosed};
pub use treefs::{Attributes, BlockTypes, Owner, Settings, Volume};
