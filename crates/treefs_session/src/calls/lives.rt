// Calls that free what no name leads to, and those that write all.

ghost use Rattle.std.specs.Prelude.{◌≡◌};
ghost use Rattle.treefs.specs.Trimming.{GiveUpDoes};
ghost use Rattle.treefs_session.specs.Changes.{UpkeepDoes};

use crate::call::Call;
use flush_store::FlushStore;
use std::alloc::Global;
use treefs::Volume;
use treefs_model::Fault;
use treefs_mounts::{close, flush_volume};

/// What a session does for itself.
#[derive(Clone, Copy)]
pub enum Upkeep<'a> {
    /// Frees the inodes of some numbers that have no links: `reap` of a volume.
    Reap { numbers: &'a [u32] },
    /// Writes the times that no edit has written yet, and then all that is pending in the store.
    Flush,
    /// Closes a volume.
    Close,
}

impl Call for Upkeep<'_> {
    type Answer = ();

    ghost does = { λ c T old new volume volume' result. UpkeepDoes c T old new volume volume' result };

    fn make<S: FlushStore>(
        &self,
        alloc: Global,
        store: &mut S,
        volume: &mut Volume,
    ) -> Result<(), Fault> {
        match *self {
            Upkeep::Reap { numbers } => volume.reap(alloc, store, numbers),
            Upkeep::Flush => flush_volume(alloc, store, volume),
            Upkeep::Close => close(alloc, store, volume),
        }
    }
}

/// Gives up an inode that nothing points to, and answers whether its block is free: `give_up` of a volume.
#[derive(Clone, Copy)]
pub struct GiveUp {
    pub block: u32,
}

impl Call for GiveUp {
    type Answer = bool;

    ghost does = { λ c T old new volume volume' result. GiveUpDoes T old new volume c.block result × (volume' ≡ volume) };

    fn make<S: FlushStore>(
        &self,
        alloc: Global,
        store: &mut S,
        volume: &mut Volume,
    ) -> Result<bool, Fault> {
        volume.give_up(alloc, store, self.block)
    }
}
