// Stores whose pending entries are written in waves.

ghost use Rattle.std.specs.Prelude.{◌≡◌, ◌<◌, ◌≤◌, IfErr, IfOk, MatchResult, OnOk, Ok, Err};
ghost use Rattle.xn_model.specs.Rules.{IsIdle};
ghost use Rattle.flush_store.specs.Written.{AllWritten};
ghost use Rattle.xn_kernel.specs.FlushedStates.{StateRefuses, StateWaves};

use disk::Lane;
use std::alloc::Global;
use xn_kernel::{FlushStop, Kernel, Refusal, Store};

/// A store on a disk that can be flushed. What a flush leaves of rules and newest bytes is said by the law `flushes_keep_newest`.
pub trait FlushStore: Store {
    /// Writes all that is pending in waves of up to 4,096 blocks, and answers how many that took; each block keeps its newest bytes. It is refused
    /// where a write is under way (`InFlight`) and for want of memory (`NoMemory`), which both do nothing, and stops with the wave in
    /// which a read, a write or a sync failed (`Device`): then the store may have blocks in flight that nothing finishes any more.
    fn flush(&mut self, alloc: Global) -> Result<u32, Refusal>
        ensures types { Self.types_of self.new ≡ Self.types_of self.old }
        ensures waves { IfOk result (λ waves. StateWaves waves (Self.state_of self.old) (Self.state_of self.new)) }
        ensures idle { OnOk result (IsIdle (Self.state_of self.old).lives × IsIdle (Self.state_of self.new).lives) }
        ensures done { OnOk result (AllWritten (Self.state_of self.new).lives) }
        ensures err { IfErr result (λ refusal. StateRefuses (Self.state_of self.old) refusal (Self.state_of self.new)) };

    /// Writes what is pending in so many waves at most, as `flush` does, and answers how many that took, fewer only where nothing is pending any
    /// more. It is refused, and stops, as `flush` is.
    fn flush_waves(&mut self, alloc: Global, most: u32) -> Result<u32, Refusal>
        ensures types { Self.types_of self.new ≡ Self.types_of self.old }
        ensures waves { IfOk result (λ waves. StateWaves waves (Self.state_of self.old) (Self.state_of self.new)) }
        ensures idle { OnOk result (IsIdle (Self.state_of self.old).lives × IsIdle (Self.state_of self.new).lives) }
        ensures few { IfOk result (λ waves. waves ≤ most) }
        ensures done { IfOk result (λ waves. waves < most → AllWritten (Self.state_of self.new).lives) }
        ensures err { IfErr result (λ refusal. StateRefuses (Self.state_of self.old) refusal (Self.state_of self.new)) };
}

/// What a flush answers. The lanes of blocks that could not be finished are given up.
fn waves_of<L: Lane + Drop>(flushed: Result<u32, FlushStop<L>>) -> Result<u32, Refusal>
    ensures { MatchResult flushed (λ waves. result ≡ Ok waves) (λ stop. result ≡ Err stop.refusal) }
{
    match flushed {
        Ok(waves) => Ok(waves),
        Err(stop) => {
            let FlushStop {
                waves: _,
                mut tickets,
                refusal,
            } = stop;
            while let Some(ticket) = tickets.pop() {
                let _lane = ticket.into_lane();
            }
            tickets.destroy_empty();
            Err(refusal)
        }
    }
}

impl<L: Lane + Drop> FlushStore for Kernel<L> {
    fn flush(&mut self, alloc: Global) -> Result<u32, Refusal> {
        self.keeps_rules();
        let flushed = Kernel::flush(self, alloc);
        waves_of(flushed)
    }

    fn flush_waves(&mut self, alloc: Global, most: u32) -> Result<u32, Refusal> {
        self.keeps_rules();
        let flushed = Kernel::flush_waves(self, alloc, most);
        waves_of(flushed)
    }
}
