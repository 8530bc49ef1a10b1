// All that is pending is written, many blocks at a time.

ghost use Rattle.std.specs.Prelude.{◌≡◌, ◌⊎◌, ◌≤◌, ◌<◌, ◌+◌, ℕ, List, [], None, Result, Ok, Err, IfOk, IfErr, OnOk, IsTrue, vec_len, vec_capacity};
ghost use Rattle.disk.specs.declared.lane.DeviceFault.{DeviceFault};
ghost use Rattle.xn_model.specs.Calls.{pick_of};
ghost use Rattle.xn_model.specs.Rules.{IsIdle};
ghost use Rattle.xn_model.specs.Worlds.{all_pending};
ghost use Rattle.xn_kernel.specs.Flushes.{IsUnderWay, HoldsOneOf, WriteEnds, WroteAll, Wave, Waves, FlushRefuses, wave_room};

use crate::kernel::Kernel;
use crate::ticket::Ticket;
use disk::Lane;
use std::alloc::Global;
use xn_state::Refusal;

/// The most blocks of a wave.
const WAVE_ROOM: u32 = 4096;

/// A flush that stopped: how many waves it finished, why it stopped, and the tickets of blocks that could not be synced or read back.
pub struct FlushStop<L: Lane> {
    pub waves: u32,
    pub tickets: Vec<Ticket<L>>,
    pub refusal: Refusal,
}

/// How many blocks a wave had, and of how many the entries are durable.
#[derive(Clone, Copy)]
struct WaveEnd {
    blocks: u32,
    durable: u32,
}

impl<L: Lane> Kernel<L> {
    /// Syncs a block that was written, and reads it back. Answers whether its entries are durable. The ticket of one that can't be
    /// synced or read back is put behind the failed ones.
    fn end_write(&mut self, mut ticket: Ticket<L>, failed: &mut Vec<Ticket<L>>) -> bool
        requires under_way { IsUnderWay L.bytes_of self.old ticket }
        requires room { vec_len failed.old < vec_capacity failed.old }
        ensures ends { (answer : Result (Unit {0}) DeviceFault) (home : L) → HoldsOneOf L.bytes_of answer home ticket →
            WriteEnds L.bytes_of L.faults_of L.sync_gives L.read_gives answer home ticket self.old failed.old.items result self.new failed.new.items }
        ensures length { (vec_len failed.old ≤ vec_len failed.new) × (vec_len failed.new ≤ vec_len failed.old + 1) }
        ensures stays { IsTrue result → vec_len failed.new ≡ vec_len failed.old }
        ensures capacity { vec_capacity failed.new ≡ vec_capacity failed.old }
    {
        let Ok(()) = ticket.sync() else {
            failed.push_reserved(ticket);
            return false;
        };
        match self.finish(ticket) {
            Ok(landed) => landed.durable > 0,
            Err((ticket, _)) => {
                failed.push_reserved(ticket);
                false
            }
        }
    }

    /// Begins and writes the blocks that are picked, one after another, so many at most. Answers how many, and leaves their tickets.
    fn begin_wave(&mut self, room: u32, tickets: &mut Vec<Ticket<L>>) -> u32
        requires empty { vec_len tickets.old ≡ 0 }
        requires room { room ≤ vec_capacity tickets.old }
        ensures written { WroteAll L.bytes_of L.crash_leaves L.faults_of L.write_gives result self.old tickets.new.items self.new }
        ensures few { result ≤ room }
        ensures most { (result ≡ room) ⊎ (pick_of self.new.state ≡ None) }
        ensures length { vec_len tickets.new ≡ result }
        ensures capacity { vec_capacity tickets.new ≡ vec_capacity tickets.old }
    {
        for blocks in 0..room {
            self.keeps_rules();
            let Some(block) = self.state().pick() else {
                return blocks;
            };
            let Ok(mut ticket) = self.begin(block) else {
                unreachable!()
            };
            let _landed = ticket.land();
            tickets.push_reserved(ticket);
        }
        room
    }

    /// A wave of so many blocks at most, which is room for all that is pending or for `WAVE_ROOM` blocks: begins and writes them, then
    /// syncs each and reads it back, the last one first. So where a sync settles all that was written before it, the first one does
    /// that for all. It leaves the tickets of those that could not be synced or read back.
    fn wave(&mut self, room: u32, tickets: &mut Vec<Ticket<L>>) -> WaveEnd
        requires empty { vec_len tickets.old ≡ 0 }
        requires room { room ≤ vec_capacity tickets.old }
        requires few { room ≤ wave_room }
        requires serves { (room ≡ wave_room) ⊎ (all_pending self.old.state.lives ≤ room) }
        ensures wave { Wave L.bytes_of L.faults_of L.write_gives L.sync_gives L.read_gives result.blocks wave_room result.durable
            self.old [] self.new tickets.new.items }
        ensures durable { result.durable ≤ result.blocks }
        ensures length { vec_len tickets.new + result.durable ≤ result.blocks }
        ensures capacity { vec_capacity tickets.new ≡ vec_capacity tickets.old }
    {
        let blocks = self.begin_wave(room, tickets);
        let mut durable = 0;
        for ended in 0..blocks {
            let ticket = tickets.remove((blocks - 1 - ended) as usize);
            if self.end_write(ticket, tickets) {
                durable += 1;
            }
        }
        WaveEnd { blocks, durable }
    }

    /// Writes all that is pending in waves: begins and writes up to 4,096 blocks, each as `pick` answers it, then syncs each and reads
    /// it back, again and again, until nothing is pending. Answers how many waves that took, at most as many as entries were pending.
    /// With a write under way it is refused (`InFlight`), and so it is where there is no memory for the tickets of a wave (`NoMemory`): as
    /// many as entries are pending, or 4,096; both do nothing. A wave in which a lane fails is the last one (`Device`): its other blocks
    /// end as they would otherwise; where a write fails and the block holds the old bytes its entries stay pending; where a block can't be
    /// synced or read back it stays in flight, and the ticket is given out. A write that fails and leaves the new bytes is a good one.
    /// What was finished stands.
    pub fn flush(&mut self, alloc: Global) -> Result<u32, FlushStop<L>>
        ensures waves { IfOk result (λ waves. Waves L.bytes_of L.faults_of L.write_gives L.sync_gives L.read_gives waves self.old self.new) }
        ensures idle { OnOk result (IsIdle self.old.state.lives) }
        ensures rests { OnOk result (IsIdle self.new.state.lives) }
        ensures done { OnOk result (all_pending self.new.state.lives ≡ 0) }
        ensures few { IfOk result (λ waves. waves ≤ all_pending self.old.state.lives) }
        ensures err { IfErr result (λ stop. FlushRefuses L.bytes_of L.faults_of L.write_gives L.sync_gives L.read_gives self.old
            stop.waves stop.tickets.items stop.refusal self.new) }
    {
        let most = self.state().all_pending();
        self.flush_waves(alloc, most)
    }

    /// Writes what is pending in waves as `flush` does, so many at most, with its refusals. Answers how many that took, which are fewer only
    /// where nothing is pending any more. After it nothing is in flight, and each wave made some entry durable.
    pub fn flush_waves(&mut self, alloc: Global, most: u32) -> Result<u32, FlushStop<L>>
        ensures waves { IfOk result (λ waves. Waves L.bytes_of L.faults_of L.write_gives L.sync_gives L.read_gives waves self.old self.new) }
        ensures idle { OnOk result (IsIdle self.old.state.lives) }
        ensures rests { OnOk result (IsIdle self.new.state.lives) }
        ensures few { IfOk result (λ waves. waves ≤ most) }
        ensures done { IfOk result (λ waves. waves < most → all_pending self.new.state.lives ≡ 0) }
        ensures less { IfOk result (λ waves. all_pending self.new.state.lives + waves ≤ all_pending self.old.state.lives) }
        ensures err { IfErr result (λ stop. FlushRefuses L.bytes_of L.faults_of L.write_gives L.sync_gives L.read_gives self.old
            stop.waves stop.tickets.items stop.refusal self.new) }
    {
        if self.state().is_any_in_flight() {
            return Err(FlushStop {
                waves: 0,
                tickets: Vec::new(alloc),
                refusal: Refusal::InFlight,
            });
        }
        let room = WAVE_ROOM.min(self.state().all_pending());
        let Ok(mut tickets) = Vec::with_capacity(alloc, room as usize) else {
            return Err(FlushStop {
                waves: 0,
                tickets: Vec::new(alloc),
                refusal: Refusal::NoMemory,
            });
        };
        for waves in 0..most {
            self.keeps_rules();
            let end = self.wave(room, &mut tickets);
            if end.blocks == 0 {
                tickets.destroy_empty();
                return Ok(waves);
            }
            if end.durable < end.blocks {
                return Err(FlushStop {
                    waves,
                    tickets,
                    refusal: Refusal::Device,
                });
            }
        }
        tickets.destroy_empty();
        Ok(most)
    }
}
