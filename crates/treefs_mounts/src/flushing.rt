// What is pending of a volume is written.

ghost use Rattle.std.specs.Prelude.{◌≡◌};
ghost use Rattle.treefs_mounts.specs.Flushing.{Flushes, FlushesPending, FlushesVolume, Marks};

use edit_list::Fs;
use flush_store::FlushStore;
use std::alloc::Global;
use treefs::Volume;
use treefs_model::Fault;

/// Writes all that is pending. The faults are the kernel's.
fn flush<S: FlushStore>(alloc: Global, store: &mut S) -> Result<(), Fault>
    ensures types { S.types_of store.new ≡ S.types_of store.old }
    ensures does { Flushes (S.state_of store.old) (S.state_of store.new) result }
{
    match store.flush(alloc) {
        Ok(_) => Ok(()),
        Err(refusal) => Err(Fault::Kernel(refusal)),
    }
}

/// Writes all that is pending, where something of a file system is. The faults are the kernel's.
pub fn flush_pending<S: FlushStore>(alloc: Global, store: &mut S, fs: Fs) -> Result<(), Fault>
    ensures types { S.types_of store.new ≡ S.types_of store.old }
    ensures does { FlushesPending fs.number (S.state_of store.old) (S.state_of store.new) result }
{
    if store.pending(fs) == 0 {
        Ok(())
    } else {
        flush(alloc, store)
    }
}

/// Writes the times of a volume that no edit has written yet, and then all that is pending in the store. The faults are those of `write_times`, and `Kernel`
/// where a write is under way, memory is wanting, or the disk fails.
pub fn flush_volume<S: FlushStore>(
    alloc: Global,
    store: &mut S,
    volume: &mut Volume,
) -> Result<(), Fault>
    ensures types { S.types_of store.new ≡ S.types_of store.old }
    ensures does { FlushesVolume (S.types_of store.old) (S.state_of store.old) (S.state_of store.new) volume.old volume.new result }
{
    if let Err(fault) = volume.write_times(alloc, store) {
        return Err(fault);
    }
    flush(alloc, store)
}

/// Lets inode 0 say that the volume is closed, or open, and writes that.
pub fn mark<S: FlushStore>(
    alloc: Global,
    store: &mut S,
    volume: &Volume,
    clean: bool,
) -> Result<(), Fault>
    ensures types { S.types_of store.new ≡ S.types_of store.old }
    ensures does { Marks (S.types_of store.old) (S.state_of store.old) (S.state_of store.new) volume.now clean result }
{
    if let Err(fault) = volume.close_mark(alloc, store, clean) {
        return Err(fault);
    }
    flush(alloc, store)
}
