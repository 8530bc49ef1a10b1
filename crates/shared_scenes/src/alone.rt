// One thread: a start, a flush, a meeting, a call, a block that is forgotten, a stop.

ghost use Rattle.std.specs.Prelude.{◌≡◌};

use crate::blocks::{is, letters, same};
use crate::lanes::Trouble;
use crate::scene::{Scene, play};
use crate::sharing::{Kernels, begin, flushes, found};
use durable_floor::{Naming, Reader};
use shared::worker;
use std::alloc::Global;
use std::process::Abort;
use std::sync::Wait;
use xn_kernel::{Answer, Call, EditId, Fs, Refusal, Store};

/// A start that the next one to take the lock finds.
pub fn starts<K: Naming, R: Wait + Abort>(rt: &R, shared: &Kernels<K>, fs: Fs) {
    let started = begin(rt, shared, fs, 1, &letters());
    same(rt, "a start", started, (Ok((1, EditId(1))), Ok(EditId(2))));
    let left = found(rt, shared, fs, 1, &letters());
    same(rt, "what a start leaves", left, (2, true));
}

/// Whether a worker reads block 1 as it was started.
fn is_read<K: Naming, R: Wait>(rt: &R, alloc: Global, shared: &Kernels<K>, fs: Fs) -> bool {
    match worker(shared, rt, alloc, fs, &[Call::Read { block: 1 }]) {
        Ok(answers) => answers.as_slice() == [Answer::Read(Ok(letters()))].as_slice(),
        Err(_) => false,
    }
}

/// A start and a flush: both blocks are written, and that is told.
pub fn is_told<K: Naming, R: Wait + Abort>(
    rt: &R,
    alloc: Global,
    shared: &Kernels<K>,
    fs: Fs,
    stranger: &mut Reader,
    reader: &mut Reader,
)
    requires stranger { stranger.old.floor ≡ K.floor }
    requires reader { reader.old.floor ≡ K.floor }
{
    starts(rt, shared, fs);
    shared.stop();
    flushes(rt, shared, 2, None);
    let (pending, _) = found(rt, shared, fs, 1, &letters());
    let read = shared.floor().read(stranger, 0);
    let met = shared.meet(rt, fs, reader);
    same(
        rt,
        "nothing pending, and the floor",
        (pending, read, met),
        (0, 3, 3),
    );
    is(rt, "a read", is_read(rt, alloc, shared, fs));
}

/// A start whose write of block 1 fails, and leaves the old bytes.
pub fn fails<K: Naming, R: Wait + Abort>(rt: &R, shared: &Kernels<K>, fs: Fs) {
    starts(rt, shared, fs);
    shared.stop();
    flushes(rt, shared, 0, Some(Refusal::Device));
}

/// Begins a block, and forgets it under the lock; the next one to take the lock doesn't find it.
fn begin_and_forget<K: Naming, R: Wait + Abort>(rt: &R, shared: &Kernels<K>, fs: Fs) {
    let begun = shared.with(rt, |hub| hub.init(fs, 2, &letters()));
    let forgotten = shared.with(rt, |hub| hub.forget(fs, 1));
    let left = shared.with(rt, |hub| (hub.pending(fs), hub.read(fs, 1).err()));
    same(rt, "a block", begun, Ok((1, EditId(1))));
    same(rt, "it is forgotten", forgotten, Ok(()));
    same(rt, "what is left", left, (0, Some(Refusal::NotInUse)));
}

/// Begins the block anew, which is then kept.
fn begin_anew<K: Naming, R: Wait + Abort>(rt: &R, shared: &Kernels<K>, fs: Fs) {
    let started = begin(rt, shared, fs, 1, &letters());
    let kept = shared.with(rt, |hub| hub.forget(fs, 1));
    same(
        rt,
        "a start anew",
        started,
        (Ok((1, EditId(2))), Ok(EditId(3))),
    );
    same(rt, "it is kept", kept, Err(Refusal::NotFresh));
}

/// A block that is forgotten, and started anew.
pub fn forgets<K: Naming, R: Wait + Abort>(rt: &R, shared: &Kernels<K>, fs: Fs, reader: &mut Reader)
    requires { reader.old.floor ≡ K.floor }
{
    begin_and_forget(rt, shared, fs);
    let first = shared.meet(rt, fs, reader);
    begin_anew(rt, shared, fs);
    shared.stop();
    flushes(rt, shared, 2, None);
    let second = shared.meet(rt, fs, reader);
    same(rt, "the floors", (first, second), (2, 4));
}

/// Whether the stop flag is set, before a stop and after it.
pub fn stops<K: Naming>(rt: &impl Abort, shared: &Kernels<K>) {
    is(rt, "no stop", !shared.is_stopped());
    shared.stop();
    is(rt, "a stop", shared.is_stopped());
}

#[test]
fn a_flush_is_told(rt: HostRuntime) {
    play(&rt, rt.alloc(), rt, Scene::Flush, Trouble::Nothing)
}

#[test]
fn a_device_fault_ends_a_flusher(rt: HostRuntime) {
    play(&rt, rt.alloc(), rt, Scene::Fault, Trouble::FirstWrite)
}

#[test]
fn a_forgotten_block_is_free(rt: HostRuntime) {
    play(&rt, rt.alloc(), rt, Scene::Forget, Trouble::Nothing)
}

#[test]
fn a_stop_is_seen(rt: HostRuntime) {
    play(&rt, rt.alloc(), rt, Scene::Stop, Trouble::Nothing)
}
