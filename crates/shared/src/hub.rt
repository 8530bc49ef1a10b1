// A kernel with the publisher of its floors.

ghost use Rattle.std.specs.Prelude.{◌≡◌, ◌≢◌, ◌⊎◌, ℕ, ◌<◌, ◌≤◌, Option, Some, None, false, Ok, Err, IsTrue, IfOk, OnOk, OnErr, IfErr, IsErrAnd, slice_get};
ghost use Rattle.std.specs.Prelude.{slice_set, slice_index};
ghost use Rattle.std.specs.Arc.{arc_value};
ghost use Rattle.disk.specs.Lanes.{CountsOne, LeavesNoMore};
ghost use Rattle.xn_model.specs.Results.{GivesExactly, result_map};
ghost use Rattle.xn_model.specs.Calls.{begun_of, settled_of, floor_of};
ghost use Rattle.xn_model.specs.Worlds.{all_pending};
ghost use Rattle.xn_model.specs.Rules.{IsIdle};
ghost use Rattle.xn_model.specs.Lives.{StoreState};
ghost use Rattle.xn_kernel.specs.Kernels.{KernelValue, TicketValue, is_mine, result_map_err};
ghost use Rattle.xn_kernel.specs.Drains.{Rounds, Refuses, with_home};
ghost use Rattle.xn_kernel.specs.Flushes.{FlushRefuses, Waves};
ghost use Rattle.shared.specs.Hubs.{HubValue, NoWordAbove, AllRaised};

use crate::lock::Held;
use disk::Lane;
use durable_floor::{Floor, Naming, Publisher, Reader};
use std::alloc::Global;
use std::marker::{Model, PhantomData};
use std::sync::Arc;
use xn_kernel::{DrainStop, FlushStop, Fs, Kernel, Landed, Refusal, Store, Ticket};

mod calls;
mod store;

/// A kernel, with the publisher of the words that tell its floors.
///
/// No word is above its file system's floor.
pub struct Hub<L: Lane, K: Naming> {
    kernel: Kernel<L>,
    publisher: Publisher,
    floor: Arc<Floor, Global>,
    of: PhantomData<K>,
}

impl<L: Lane, K: Naming> Model for Hub<L, K> {
    ghost use Rattle.std.specs.Prelude.{◌≡◌};
    ghost use Rattle.std.specs.Arc.{arc_value};
    ghost use Rattle.shared.specs.Hubs.{HubValue, NoWordAbove};

    ghost Value = { HubValue L };

    ghost view = { λ h. record { kernel = h.kernel; words = h.publisher.seen } };

    ghost invariant = { λ h. (h.publisher.floor ≡ K.floor) × (arc_value h.floor ≡ K.floor) × NoWordAbove h.publisher.seen h.kernel.state };
}

/// Written by hand, so that a function that drops one calls this: a derived drop is proved anew in each such function.
impl<L: Lane + Drop, K: Naming> Drop for Hub<L, K> {
    fn drop(self) {
        let Hub {
            kernel: _,
            publisher: _,
            floor: _,
            of: _,
        } = self;
    }
}

impl<L: Lane, K: Naming> Held for Hub<L, K> {
    ghost use Rattle.shared.specs.Hubs.{IsHub};

    ghost sound = { IsHub L.bytes_of L.crash_leaves };

    ghost floor = { K.floor };

    fn is_sound(&self) {
        self.kernel.keeps_rules();
    }
}

impl<L: Lane, K: Naming> Hub<L, K> {
    ghost use Rattle.disk.specs.declared.lane.DeviceFault.{DeviceFault};

    /// A kernel with the publisher of its floors. The words are of this floor, and none is above its file system's.
    pub fn new(kernel: Kernel<L>, publisher: Publisher, floor: Arc<Floor, Global>) -> Hub<L, K>
        requires publisher { publisher.floor ≡ K.floor }
        requires floor { arc_value floor ≡ K.floor }
        requires below { NoWordAbove publisher.seen kernel.state }
        ensures { result ≡ record { kernel = kernel; words = publisher.seen } }
    {
        Hub {
            kernel,
            publisher,
            floor,
            of: PhantomData,
        }
    }

    /// The kernel, to be asked: what would change it passes the words by.
    pub fn kernel(&self) -> &Kernel<L>
        ensures { result.now ≡ self.now.kernel }
    {
        &self.kernel
    }

    /// The kernel alone.
    pub fn into_kernel(self) -> Kernel<L>
        ensures { result ≡ self.kernel }
    {
        let Hub {
            kernel,
            publisher: _,
            floor: _,
            of: _,
        } = self;
        kernel
    }

    /// Tells a reader the floor of a file system: all entries of it below are durable, or of lives that have ended.
    pub fn meet(&mut self, fs: Fs, reader: &mut Reader) -> u64
        requires { reader.old.floor ≡ K.floor }
        ensures exact { result ≡ floor_of self.old.kernel.state fs.number }
        ensures grows { slice_index reader.old.seen fs.number ≤ result }
        ensures seen { reader.new ≡ record reader.old { seen = slice_set reader.old.seen fs.number result } }
        ensures kernel { self.new.kernel ≡ self.old.kernel }
        ensures words { self.new.words ≡ slice_set self.old.words fs.number result }
    {
        let to = self.kernel.floor(fs);
        self.floor.raise(&mut self.publisher, fs.number(), to);
        self.floor.meet(&mut self.publisher, reader, fs.number())
    }

    /// Ends a write by what is read back, as the kernel does: one that was written since its last good sync is refused
    /// (`NotSynced`). Whatever it answers and whatever ticket it was, each word is then its file system's floor.
    pub fn finish(&mut self, ticket: Ticket<L>) -> Result<Landed, (Ticket<L>, Refusal)>
        ensures foreign { is_mine self.old.kernel ticket ≡ false → IsErrAnd result (λ back. (back.0 ≡ ticket) × (back.1 ≡ Refusal.NotMine)) }
        ensures unsynced { IsTrue (is_mine self.old.kernel ticket) → IsTrue ticket.unsynced →
            IsErrAnd result (λ back. (back.0 ≡ ticket) × (back.1 ≡ Refusal.NotSynced)) }
        ensures mine { IsTrue (is_mine self.old.kernel ticket) → ticket.unsynced ≡ false →
            GivesExactly (settled_of self.old.kernel.state ticket.block (L.bytes_of ticket.lane)) self.old.kernel.state self.new.kernel.state
            (result_map (λ landed. (landed.durable, landed.freed)) (result_map_err (λ back. back.1) result))
            ⊎ IsErrAnd result (λ back. (back.1 ≡ Refusal.Device) × CountsOne (L.faults_of ticket.lane) (L.faults_of back.0.lane)) }
        ensures given { OnOk result ((lane : L) × (L.bytes_of lane ≡ L.bytes_of ticket.lane) × (L.faults_of lane ≡ L.faults_of ticket.lane)
            × L.read_gives ticket.lane (Ok tt) lane
            × (self.new.kernel ≡ with_home self.old.kernel ticket.block lane self.new.kernel.state)) }
        ensures err { OnErr result (self.new.kernel ≡ self.old.kernel) }
        ensures back { IfErr result (λ back. (back.0 ≡ record ticket { lane = back.0.lane }) × (L.bytes_of back.0.lane ≡ L.bytes_of ticket.lane)) }
        ensures unread { IfErr result (λ back. back.1 ≡ Refusal.Device → (fault : DeviceFault) × L.read_gives ticket.lane (Err fault) back.0.lane) }
        ensures crash { IfErr result (λ back. LeavesNoMore (L.crash_leaves ticket.lane) (L.crash_leaves back.0.lane)) }
        ensures faults { IfErr result (λ back. back.1 ≢ Refusal.Device → L.faults_of back.0.lane ≡ L.faults_of ticket.lane) }
        ensures raised { AllRaised self.new }
    {
        let ended = self.kernel.finish(ticket);
        raise_all(&self.kernel, &self.floor, &mut self.publisher);
        ended
    }

    /// Writes, syncs and reads back until nothing is pending, as the kernel does, in one call. Whatever it answers, each word is then its file
    /// system's floor.
    pub fn drain(&mut self) -> Result<u32, DrainStop<L>>
        ensures rounds { IfOk result (λ writes. Rounds L.bytes_of L.faults_of L.write_gives L.sync_gives L.read_gives writes self.old.kernel self.new.kernel) }
        ensures idle { OnOk result (IsIdle self.old.kernel.state.lives) }
        ensures done { OnOk result (all_pending self.new.kernel.state.lives ≡ 0) }
        ensures few { IfOk result (λ writes. writes ≤ all_pending self.old.kernel.state.lives) }
        ensures stopped { IfErr result (λ stop. stop.refusal ≡ Refusal.Device → IsIdle self.old.kernel.state.lives) }
        ensures err { IfErr result (λ stop.
            Refuses L.bytes_of L.faults_of L.write_gives L.sync_gives L.read_gives self.old.kernel stop.writes stop.ticket stop.refusal self.new.kernel) }
        ensures raised { AllRaised self.new }
    {
        let ended = self.kernel.drain();
        raise_all(&self.kernel, &self.floor, &mut self.publisher);
        ended
    }

    /// Writes all that is pending in waves, each synced before the next, as the kernel does, in one call. Whatever it answers, each word is then its
    /// file system's floor.
    pub fn flush(&mut self, alloc: Global) -> Result<u32, FlushStop<L>>
        ensures waves { IfOk result (λ waves. Waves L.bytes_of L.faults_of L.write_gives L.sync_gives L.read_gives waves self.old.kernel self.new.kernel) }
        ensures idle { OnOk result (IsIdle self.old.kernel.state.lives) }
        ensures rests { OnOk result (IsIdle self.new.kernel.state.lives) }
        ensures done { OnOk result (all_pending self.new.kernel.state.lives ≡ 0) }
        ensures few { IfOk result (λ waves. waves ≤ all_pending self.old.kernel.state.lives) }
        ensures err { IfErr result (λ stop. FlushRefuses L.bytes_of L.faults_of L.write_gives L.sync_gives L.read_gives self.old.kernel
            stop.waves stop.tickets.items stop.refusal self.new.kernel) }
        ensures raised { AllRaised self.new }
    {
        let ended = self.kernel.flush(alloc);
        raise_all(&self.kernel, &self.floor, &mut self.publisher);
        ended
    }
}

/// Raises each word to its file system's floor.
fn raise_all<L: Lane>(kernel: &Kernel<L>, floor: &Floor, publisher: &mut Publisher)
    requires floor { publisher.old.floor ≡ floor.now }
    requires below { NoWordAbove publisher.old.seen kernel.now.state }
    ensures floor { publisher.new.floor ≡ publisher.old.floor }
    ensures below { NoWordAbove publisher.new.seen kernel.now.state }
    ensures raised { (fs : ℕ) → fs < 32 → slice_index publisher.new.seen fs ≡ floor_of kernel.now.state fs }
{
    for number in 0..32 {
        let Some(fs) = Fs::new(number) else {
            unreachable!()
        };
        let to = kernel.floor(fs);
        floor.raise(publisher, number, to);
    }
}
