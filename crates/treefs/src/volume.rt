// A volume: the files and directories of a file system.

use treefs_edits::{Memory, Tree};

mod bytes;
mod committing;
mod creating;
mod making;
mod names;
mod opening;
mod reads;
mod reaping;
mod renaming;
mod setting;
mod writing_times;

/// A volume of a store, with what its session keeps in memory.
#[derive(Drop)]
pub struct Volume {
    /// Where it stands in its store.
    pub tree: Tree,
    /// What the session keeps in memory.
    pub memory: Memory,
}
