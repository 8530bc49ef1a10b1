// How a volume is closed.

ghost use Rattle.std.specs.Prelude.{◌≡◌};
ghost use Rattle.treefs_mounts.specs.Closing.{CloseDoes, ReapsOrphans};

use crate::flushing::{flush_volume, mark};
use flush_store::FlushStore;
use std::alloc::Global;
use treefs::Volume;
use treefs_edits::lacks_memory;
use treefs_model::Fault;

/// Frees all inodes of a volume that wait for it.
fn reap_orphans<S: FlushStore>(
    alloc: Global,
    store: &mut S,
    volume: &mut Volume,
) -> Result<(), Fault>
    ensures types { S.types_of store.new ≡ S.types_of store.old }
    ensures does { ReapsOrphans (S.types_of store.old) (S.state_of store.old) (S.state_of store.new) volume.old volume.new result }
{
    let orphans = match volume.memory.orphans.clone() {
        Ok(orphans) => orphans,
        Err(error) => return Err(lacks_memory(error)),
    };
    volume.reap(alloc, store, &orphans)
}

/// Closes a volume: frees the inodes that wait for it, writes all, lets inode 0 say that the volume is closed, and writes that. The faults are those of `reap`,
/// of `write_times` and of the store. Where it stopped it is called again, after `Full` once what is pending is written; the volume counts as closed only where
/// it is done.
pub fn close<S: FlushStore>(alloc: Global, store: &mut S, volume: &mut Volume) -> Result<(), Fault>
    ensures types { S.types_of store.new ≡ S.types_of store.old }
    ensures does { CloseDoes (S.types_of store.old) (S.state_of store.old) (S.state_of store.new) volume.old volume.new result }
{
    if let Err(fault) = reap_orphans(alloc, store, volume) {
        return Err(fault);
    }
    if let Err(fault) = flush_volume(alloc, store, volume) {
        return Err(fault);
    }
    mark(alloc, store, volume, true)
}
