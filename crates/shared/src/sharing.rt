// A hub that threads share.

ghost use Rattle.std.specs.Prelude.{◌≡◌, ◌≢◌, ◌≤◌, slice_index, slice_set};
ghost use Rattle.xn_state.specs.declared.call.Call.TheVariants.{Drain};
ghost use Rattle.shared.specs.Hubs.{HubValue, MayAnswer, MayMeet};

use crate::hub::Hub;
use crate::lock::{Gate, Held, Locked};
use disk::Lane;
use durable_floor::{Naming, Reader};
use std::sync::Wait;
use xn_kernel::{Answer, Call, Fs};

/// A kernel that threads share, with its floors.
pub type Shared<L, G, K> = Locked<Hub<L, K>, G>;

impl<L: Lane, G: Gate, K: Naming> Locked<Hub<L, K>, G> {
    /// Takes the lock, and makes a call for a file system, any but `drain`.
    pub fn call<R: Wait>(&self, rt: &R, fs: Fs, call: &Call) -> Answer
        requires { call.now ≢ Drain }
        ensures { MayAnswer L.bytes_of L.crash_leaves fs.number call.now result }
    {
        let mut hub = self.held.lock(rt);
        hub.is_sound();
        hub.call(fs, call)
    }

    /// Takes the lock, and tells a reader the floor of a file system.
    pub fn meet<R: Wait>(&self, rt: &R, fs: Fs, reader: &mut Reader) -> u64
        requires { reader.old.floor ≡ K.floor }
        ensures floor { MayMeet L.bytes_of L.crash_leaves fs.number result }
        ensures grows { slice_index reader.old.seen fs.number ≤ result }
        ensures seen { reader.new ≡ record reader.old { seen = slice_set reader.old.seen fs.number result } }
    {
        let mut hub = self.held.lock(rt);
        hub.is_sound();
        hub.meet(fs, reader)
    }
}
