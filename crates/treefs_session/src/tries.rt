// Calls are made until they have room.

ghost use Rattle.std.specs.Prelude.{◌≡◌};
ghost use Rattle.treefs_session.specs.Tries.{MakesRoom, RoomAfter, Tries, TriesOnce, WritesTouched, is_full, most_tries};

use crate::call::Call;
use flush_store::FlushStore;
use std::alloc::Global;
use treefs::Volume;
use treefs_model::Fault;

/// How often a call is made at most: once for each block of the largest disk.
const MOST_TRIES: u32 = 1_048_576;

/// Whether a call was refused for want of room.
fn is_full(fault: Fault) -> bool
    ensures { result ≡ is_full fault }
{
    match fault {
        Fault::Full => true,
        _ => false,
    }
}

/// Gives the times of a volume that no edit has written their edits, and answers whether there were any. The faults are those of `write_times`.
fn write_touched<S: FlushStore>(
    alloc: Global,
    store: &mut S,
    volume: &mut Volume,
) -> Result<bool, Fault>
    ensures types { S.types_of store.new ≡ S.types_of store.old }
    ensures does { WritesTouched (S.types_of store.old) (S.state_of store.old) (S.state_of store.new) volume.old volume.new result }
{
    if volume.memory.touched.is_empty() {
        return Ok(false);
    }
    match volume.write_times(alloc, store) {
        Ok(()) => Ok(true),
        Err(fault) => Err(fault),
    }
}

/// Makes room for a call: writes one wave of what is pending; where nothing is, the times of the volume get their edits. Answers whether something was done. The
/// faults are those of the store's flush and of `write_times`.
fn make_room<S: FlushStore>(
    alloc: Global,
    store: &mut S,
    volume: &mut Volume,
) -> Result<bool, Fault>
    ensures types { S.types_of store.new ≡ S.types_of store.old }
    ensures does { MakesRoom (S.types_of store.old) (S.state_of store.old) (S.state_of store.new) volume.old volume.new result }
{
    match store.flush_waves(alloc, 1) {
        Ok(0) => write_touched(alloc, store, volume),
        Ok(_) => Ok(true),
        Err(refusal) => Err(Fault::Kernel(refusal)),
    }
}

/// What is told of a call that was refused: nothing, where it was full and there is room now.
fn room_after<S: FlushStore>(
    alloc: Global,
    store: &mut S,
    volume: &mut Volume,
    fault: Fault,
) -> Option<Fault>
    ensures types { S.types_of store.new ≡ S.types_of store.old }
    ensures does { RoomAfter (S.types_of store.old) (S.state_of store.old) (S.state_of store.new) volume.old volume.new fault result }
{
    if !is_full(fault) {
        return Some(fault);
    }
    match make_room(alloc, store, volume) {
        Ok(true) => None,
        Ok(false) => Some(Fault::Full),
        Err(fault) => Some(fault),
    }
}

/// Makes a call, and answers what is told of it: nothing, where it was full and there is room now.
fn try_once<S: FlushStore, C: Call>(
    alloc: Global,
    store: &mut S,
    volume: &mut Volume,
    call: &C,
) -> Option<Result<C::Answer, Fault>>
    ensures types { S.types_of store.new ≡ S.types_of store.old }
    ensures does { TriesOnce (C.does call.now (S.types_of store.old)) (S.types_of store.old) (S.state_of store.old) (S.state_of store.new) volume.old
        volume.new result }
{
    match call.make(alloc, store, volume) {
        Ok(answer) => Some(Ok(answer)),
        Err(fault) => match room_after(alloc, store, volume, fault) {
            Some(told) => Some(Err(told)),
            None => None,
        },
    }
}

/// Makes a call, and again where it was full, as long as something is pending that can be written before. `Full` comes where nothing was pending any more and
/// no time was left to be written; or where the call was made 1,048,576 times. The other faults are the call's, and those of waves and of `write_times`.
pub fn repeat<S: FlushStore, C: Call>(
    alloc: Global,
    store: &mut S,
    volume: &mut Volume,
    call: &C,
) -> Result<C::Answer, Fault>
    ensures types { S.types_of store.new ≡ S.types_of store.old }
    ensures does { Tries (C.does call.now (S.types_of store.old)) (S.types_of store.old) most_tries (S.state_of store.old) (S.state_of store.new) volume.old
        volume.new result }
{
    for _try in 0..MOST_TRIES {
        if let Some(answer) = try_once(alloc, store, volume, call) {
            return answer;
        }
    }
    Err(Fault::Full)
}
