// All that is pending is written.

ghost use Rattle.std.specs.Prelude.{◌≡◌, ◌≤◌, ◌<◌, ◌+◌, Some, None, is_some, IfOk, IfErr, OnOk};
ghost use Rattle.std.specs.List.{list_any};
ghost use Rattle.xn_model.specs.Lives.{alive_and};
ghost use Rattle.xn_model.specs.Calls.{pick_of};
ghost use Rattle.xn_model.specs.Rules.{IsIdle};
ghost use Rattle.xn_model.specs.Worlds.{all_pending};
ghost use Rattle.xn_model.specs.Lives.{StoreState};
ghost use Rattle.xn_kernel.specs.Kernels.{KernelValue};
ghost use Rattle.xn_kernel.specs.Drains.{Round, Rounds, StopsAtDevice, Refuses};

use crate::kernel::Kernel;
use crate::ticket::Ticket;
use disk::Lane;
use xn_state::Refusal;

/// A drain that stopped: how many writes it finished, why it stopped, and the ticket of a block that could not be synced or read back.
pub struct DrainStop<L: Lane> {
    pub writes: u32,
    pub ticket: Option<Ticket<L>>,
    pub refusal: Refusal,
}

impl<L: Lane> Kernel<L> {
    /// Writes the block that is picked, syncs it and reads it back. `Err` has the ticket where it could not be synced or read
    /// back; with none the write failed, and the block holds the old bytes.
    #[inline(always)]
    fn round(&mut self, block: u32) -> Result<(), Option<Ticket<L>>>
        requires picked { pick_of self.old.state ≡ Some block }
        ensures ok { OnOk result (Round L.bytes_of L.faults_of L.write_gives L.sync_gives L.read_gives self.old self.new) }
        ensures err { IfErr result (λ ticket. StopsAtDevice L.bytes_of L.faults_of L.write_gives L.sync_gives L.read_gives
            self.old ticket Refusal.Device self.new) }
    {
        self.keeps_rules();
        let Ok(mut ticket) = self.begin(block) else {
            unreachable!()
        };
        let _landed = ticket.land();
        let Ok(()) = ticket.sync() else {
            return Err(Some(ticket));
        };
        match self.finish(ticket) {
            Err((ticket, _)) => Err(Some(ticket)),
            Ok(landed) => {
                if landed.durable > 0 {
                    Ok(())
                } else {
                    Err(None)
                }
            }
        }
    }

    /// Writes the block that is picked, syncs it and reads it back, again and again, until nothing is pending: answers how many writes
    /// that took, at most as many as entries were pending. It takes no memory. With a write under way it is refused
    /// (`InFlight`) and does nothing. A lane that fails stops it (`Device`): where a write fails and the block holds the old
    /// bytes its entries stay pending; where a block can't be synced or read back it stays in flight, and the ticket is given out. A
    /// write that fails and leaves the new bytes is a good one. What was finished before stands.
    pub fn drain(&mut self) -> Result<u32, DrainStop<L>>
        ensures rounds { IfOk result (λ writes. Rounds L.bytes_of L.faults_of L.write_gives L.sync_gives L.read_gives writes self.old self.new) }
        ensures idle { OnOk result (IsIdle self.old.state.lives) }
        ensures done { OnOk result (all_pending self.new.state.lives ≡ 0) }
        ensures few { IfOk result (λ writes. writes ≤ all_pending self.old.state.lives) }
        ensures stopped { IfErr result (λ stop. stop.refusal ≡ Refusal.Device → IsIdle self.old.state.lives) }
        ensures err { IfErr result (λ stop. Refuses L.bytes_of L.faults_of L.write_gives L.sync_gives L.read_gives self.old stop.writes stop.ticket stop.refusal
            self.new) }
    {
        if self.state().is_any_in_flight() {
            return Err(DrainStop {
                writes: 0,
                ticket: None,
                refusal: Refusal::InFlight,
            });
        }
        let most = self.state().all_pending();
        for writes in 0..most {
            self.keeps_rules();
            let Some(block) = self.state().pick() else {
                return Ok(writes);
            };
            if let Err(ticket) = self.round(block) {
                return Err(DrainStop {
                    writes,
                    ticket,
                    refusal: Refusal::Device,
                });
            }
        }
        Ok(most)
    }
}
