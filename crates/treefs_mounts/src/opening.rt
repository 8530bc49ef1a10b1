// How a volume is opened.

ghost use Rattle.std.specs.Prelude.{◌≡◌};
ghost use Rattle.treefs_mounts.specs.Opening.{MendsVolume, OpenDoes, Prepares, Repeats, RoundDoes, done_or_full, most_rounds};

use crate::flushing::{flush_pending, mark};
use crate::passes::{Pass, make_pass};
use edit_list::Fs;
use flush_store::FlushStore;
use std::alloc::Global;
use treefs::{BlockTypes, Volume};
use treefs_lookup::find_directory;
use treefs_model::Fault;

/// How often a pass is made at most: twice for each block of the largest disk. A pass that begins where nothing is pending, and is full, has made 54 edits in
/// some block, or 4,000 in all.
const MOST_ROUNDS: u32 = 2_097_152;

/// Whether a pass is done; where it was full it is not.
fn done_or_full(made: Result<(), Fault>) -> Result<bool, Fault>
    ensures { result ≡ done_or_full made }
{
    match made {
        Ok(()) => Ok(true),
        Err(Fault::Full) => Ok(false),
        Err(fault) => Err(fault),
    }
}

/// Makes a pass, writes what it left pending, and answers whether it is done.
fn make_round<S: FlushStore>(
    alloc: Global,
    store: &mut S,
    volume: &mut Volume,
    pass: Pass,
) -> Result<bool, Fault>
    ensures types { S.types_of store.new ≡ S.types_of store.old }
    ensures does { RoundDoes pass (S.types_of store.old) (S.state_of store.old) (S.state_of store.new) volume.old volume.new result }
{
    let fs = volume.tree.fs;
    let made = make_pass(alloc, store, volume, pass);
    let is_done = match done_or_full(made) {
        Ok(is_done) => is_done,
        Err(fault) => return Err(fault),
    };
    match flush_pending(alloc, store, fs) {
        Ok(()) => Ok(is_done),
        Err(fault) => Err(fault),
    }
}

/// Makes a pass, and again where it was full, until it is done and written.
fn repeat<S: FlushStore>(
    alloc: Global,
    store: &mut S,
    volume: &mut Volume,
    pass: Pass,
) -> Result<(), Fault>
    ensures types { S.types_of store.new ≡ S.types_of store.old }
    ensures does { Repeats pass (S.types_of store.old) most_rounds (S.state_of store.old) (S.state_of store.new) volume.old volume.new result }
{
    for _round in 0..MOST_ROUNDS {
        match make_round(alloc, store, volume, pass) {
            Ok(true) => return Ok(()),
            Ok(false) => {}
            Err(fault) => return Err(fault),
        }
    }
    Err(Fault::Full)
}

/// Mends a volume whatever it says of itself: first its names, and then its inodes by the names that are left. An inode that was begun and has no name is
/// freed, too. The faults are `NotDir` where inode 1 is no directory, and `NoEntry` where it is no inode or has no link; `Full` where a pass was made 2,097,152
/// times and is not done; `Kernel` for want of memory, or where the store refuses an edit or a flush: then it is called again.
pub fn mend<S: FlushStore>(alloc: Global, store: &mut S, volume: &mut Volume) -> Result<(), Fault>
    ensures types { S.types_of store.new ≡ S.types_of store.old }
    ensures does { MendsVolume (S.types_of store.old) (S.state_of store.old) (S.state_of store.new) volume.old volume.new result }
{
    if let Err(fault) = find_directory(store, volume.tree.fs, volume.tree.top, 1) {
        return Err(fault);
    }
    if let Err(fault) = repeat(alloc, store, volume, Pass::Names) {
        return Err(fault);
    }
    repeat(alloc, store, volume, Pass::Inodes)
}

/// Makes a volume that was found ready for calls: one that was closed is marked as open, and any other one is mended.
fn prepare<S: FlushStore>(alloc: Global, store: &mut S, volume: &mut Volume) -> Result<(), Fault>
    ensures types { S.types_of store.new ≡ S.types_of store.old }
    ensures does { Prepares (S.types_of store.old) (S.state_of store.old) (S.state_of store.new) volume.old volume.new result }
{
    if volume.is_closed(store) {
        mark(alloc, store, volume, false)
    } else {
        mend(alloc, store, volume)
    }
}

/// Opens the volume of a file system, of which nothing is pending. Of one that was closed nothing is read; it is marked as open, and that is written. Any other
/// one is mended: names that are one too many end; then buckets are rewritten without dead records, links and parents become what the names say, what stands
/// past a size goes, and inodes that no name leads to are freed. All that is written, too, before the volume is answered. The faults are, in this order,
/// `NoEntry` where the file system has no root of the type of inodes with the mark of a volume and an inode 1; where the volume was not closed, `NotDir` where
/// inode 1 is no directory, and `NoEntry` where it is no inode or has no link; `Full` where a pass was made 2,097,152 times and is not done. `Kernel` comes for
/// want of memory, or where the store refuses an edit or a flush; then it is called again.
pub fn open<S: FlushStore>(
    alloc: Global,
    store: &mut S,
    fs: Fs,
    types: BlockTypes,
    time: i64,
) -> Result<Volume, Fault>
    ensures types { S.types_of store.new ≡ S.types_of store.old }
    ensures does { OpenDoes (S.types_of store.old) (S.state_of store.old) (S.state_of store.new) fs types time result }
{
    let mut volume = match Volume::open_to_look(alloc, store, fs, types, time) {
        Ok(volume) => volume,
        Err(fault) => return Err(fault),
    };
    match prepare(alloc, store, &mut volume) {
        Ok(()) => Ok(volume),
        Err(fault) => Err(fault),
    }
}
