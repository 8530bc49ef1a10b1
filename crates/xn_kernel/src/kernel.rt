// A kernel over the lanes of a disk.

ghost use Rattle.std.specs.Prelude.{◌≡◌, ◌≢◌, ◌⊎◌, ◌<◌, ◌≤◌, ℕ, List, length, Option, Some, None, false, Result, Ok, Err, IsTrue, IfOk, OnOk, OnErr, IfErr};
ghost use Rattle.std.specs.Prelude.{IsErrAnd, slice_get, slice_set, unwrap_or, option_copied};
ghost use Rattle.disk.specs.Lanes.{CountsOne, AreSynced, LeavesNoMore};
ghost use Rattle.xn_model.specs.Results.{GivesExactly, result_map};
ghost use Rattle.xn_model.specs.Calls.{begun_of, settled_of};
ghost use Rattle.xn_model.specs.Worlds.{mounted_state};
ghost use Rattle.xn_model.specs.Images.{blocks_in};
ghost use Rattle.xn_model.specs.Lanes.{FitLives, HoldImage};
ghost use Rattle.xn_model.specs.Rules.{IsConsistent};
ghost use Rattle.templates.specs.Tables.{table_types};
ghost use Rattle.xn_state.specs.Mounts.{image_types, lives_in, AreFound};
ghost use Rattle.xn_model.specs.Lives.{StoreState};
ghost use Rattle.xn_state.specs.States.{own_types};
ghost use Rattle.xn_kernel.specs.Kernels.{KernelValue, TicketValue, IsKernel, is_in_flight, is_mine, other_unless, result_map_err};

use crate::ticket::Ticket;
use disk::{Lane, Lanes};
use std::alloc::Global;
use std::marker::Model;
use store_types::BLOCK_LEN;
use templates::Table;
use xn_state::{EditId, Found, Fs, Landed, Refusal, State};

mod call;
mod drain;
mod flush;
mod install;
mod store;

pub use drain::DrainStop;
pub use flush::FlushStop;

/// A store over the lanes of a disk.
pub struct Kernel<L: Lane> {
    id: u64,
    lanes: Lanes<L>,
    state: State,
    /// What a finish read back last, where that was not what it looked for: kept so that none is cleared for each finish.
    read_back: [u8; BLOCK_LEN],
}

impl<L: Lane> Model for Kernel<L> {
    ghost use Rattle.xn_kernel.specs.Kernels.{KernelValue, IsKernel};

    ghost Value = { KernelValue L };

    ghost view = { λ a. record { id = a.id; lanes = a.lanes; state = a.state } };

    ghost invariant = { λ a. IsKernel L.bytes_of L.crash_leaves a.lanes a.state };
}

/// Written by hand, so that a function that drops one calls this: a derived drop is proved anew in each such function.
impl<L: Lane + Drop> Drop for Kernel<L> {
    fn drop(self) {
        let Kernel {
            id: _,
            lanes: _,
            state: _,
            read_back: _,
        } = self;
    }
}

impl<L: Lane> Kernel<L> {
    ghost use Rattle.disk.specs.declared.lane.DeviceFault.{DeviceFault};

    /// A kernel over a disk whose lanes hold a sound image and no write that isn't synced, of which these are the reached blocks, each
    /// once, with the table that the image's catalogue names. Each of them has one state, the durable one, and entry numbers
    /// start at 1. `Err` gives the lanes back and comes only for want of memory.
    pub fn start(
        alloc: Global,
        lanes: Lanes<L>,
        id: u64,
        table: Table,
        image: &[u8],
        found: &[Found],
    ) -> Result<Kernel<L>, Lanes<L>>
        requires held { HoldImage L.bytes_of lanes (blocks_in image.now) }
        requires synced { AreSynced L.bytes_of L.crash_leaves lanes }
        requires own { table_types table ≡ image_types image.now }
        requires found { AreFound image.now found.now }
        ensures ok { IfOk result (λ kernel. kernel ≡ record {
          id = id;
          lanes = lanes;
          state = mounted_state (lives_in image.now found.now);
        }) }
        ensures err { IfErr result (λ back. back ≡ lanes) }
    {
        match State::new(alloc, table, image, found) {
            Ok(state) => Ok(Kernel {
                id,
                lanes,
                state,
                read_back: [0; BLOCK_LEN],
            }),
            Err(_) => Err(lanes),
        }
    }

    /// A kernel over lanes that fit a state, and hold no write that isn't synced.
    pub fn over(id: u64, lanes: Lanes<L>, state: State) -> Kernel<L>
        requires fit { FitLives L.bytes_of lanes state.lives }
        requires synced { AreSynced L.bytes_of L.crash_leaves lanes }
        ensures { result ≡ record { id = id; lanes = lanes; state = state } }
    {
        state.keeps_rules();
        Kernel {
            id,
            lanes,
            state,
            read_back: [0; BLOCK_LEN],
        }
    }

    /// Tells a caller that is generic in its lanes what is known of every kernel: the rules over all lives hold, a lane at home holds its
    /// block's durable bytes and no write that isn't synced, and a lane is away exactly while a write of its block is under way. It does
    /// nothing.
    pub fn keeps_rules(&self)
        ensures { IsKernel L.bytes_of L.crash_leaves self.now.lanes self.now.state }
    {
        let _id = self.id;
    }

    /// What it knows of blocks and types, to be asked: what would change it passes the lanes by.
    pub fn state(&self) -> &State
        ensures { result.now ≡ self.now.state }
    {
        &self.state
    }

    /// The lane of a block, for looking; `None` while a write of the block is under way, and past the
    /// end of the disk.
    pub fn lane(&self, block: u32) -> Option<&L>
        ensures { option_copied result ≡ unwrap_or (slice_get self.now.lanes block) None }
    {
        if (block as usize) < self.lanes.blocks() {
            self.lanes.lane(block)
        } else {
            None
        }
    }

    /// Its lanes, those that are at home.
    pub fn into_lanes(self) -> Lanes<L>
        ensures { result ≡ self.lanes }
    {
        let Kernel {
            id: _,
            lanes,
            state: _,
            read_back: _,
        } = self;
        lanes
    }

    /// Begins a write of a block: the ticket has its lane, and the bytes that its safe entries leave.
    #[inline(always)]
    pub fn begin(&mut self, block: u32) -> Result<Ticket<L>, Refusal>
        ensures state { GivesExactly (begun_of self.old.state block) self.old.state self.new.state
            (result_map (λ ticket. (ticket.bytes, ticket.count)) result) }
        ensures ticket { IfOk result (λ ticket. (ticket.kernel ≡ self.old.id) × (ticket.block ≡ block)
            × (slice_get self.old.lanes block ≡ Some (Some ticket.lane)) × (ticket.unsynced ≡ false)) }
        ensures lanes { OnOk result (self.new ≡ record self.old { lanes = slice_set self.old.lanes block None; state = self.new.state }) }
        ensures err { OnErr result (self.new ≡ self.old) }
    {
        let count = self.state.begun_count(block)?;
        let Some(lane) = self.lanes.take(block) else {
            unreachable!()
        };
        Ok(Ticket {
            kernel: self.id,
            block,
            count,
            bytes: self.state.begin_counted(block, count),
            lane,
            unsynced: false,
        })
    }

    /// Ends a write by what is read back: where the begun bytes stand there, the entries that it
    /// carries are durable. A refusal gives the ticket back, and the block stays in flight:
    /// `NotMine` where the ticket is of another kernel or its block isn't in flight here, `NotSynced`
    /// where it was written, well or not, since its last good sync, `Device` where the lane can't be
    /// read, and last `NotMine` where the block has a durable state and neither its bytes nor the begun
    /// ones stand there.
    #[inline(always)]
    pub fn finish(&mut self, mut ticket: Ticket<L>) -> Result<Landed, (Ticket<L>, Refusal)>
        ensures foreign { is_mine self.old ticket ≡ false → IsErrAnd result (λ back. (back.0 ≡ ticket) × (back.1 ≡ Refusal.NotMine)) }
        ensures unsynced { IsTrue (is_mine self.old ticket) → IsTrue ticket.unsynced →
            IsErrAnd result (λ back. (back.0 ≡ ticket) × (back.1 ≡ Refusal.NotSynced)) }
        ensures mine { IsTrue (is_mine self.old ticket) → ticket.unsynced ≡ false →
            GivesExactly (settled_of self.old.state ticket.block (L.bytes_of ticket.lane)) self.old.state self.new.state
            (result_map (λ landed. (landed.durable, landed.freed)) (result_map_err (λ back. back.1) result))
            ⊎ IsErrAnd result (λ back. (back.1 ≡ Refusal.Device) × CountsOne (L.faults_of ticket.lane) (L.faults_of back.0.lane)) }

        // The lane comes back with its bytes.
        ensures given { OnOk result ((lane : L) × (L.bytes_of lane ≡ L.bytes_of ticket.lane) × (L.faults_of lane ≡ L.faults_of ticket.lane)
            × L.read_gives ticket.lane (Ok tt) lane × (self.new ≡ record self.old {
              lanes = slice_set self.old.lanes ticket.block (Some lane);
              state = self.new.state;
            })) }

        // A refusal changes nothing but what the lane keeps beside its bytes.
        ensures err { OnErr result (self.new ≡ self.old) }
        ensures back { IfErr result (λ back. (back.0 ≡ record ticket { lane = back.0.lane }) × (L.bytes_of back.0.lane ≡ L.bytes_of ticket.lane)) }
        ensures unread { IfErr result (λ back. back.1 ≡ Refusal.Device → (fault : DeviceFault) × L.read_gives ticket.lane (Err fault) back.0.lane) }
        ensures crash { IfErr result (λ back. LeavesNoMore (L.crash_leaves ticket.lane) (L.crash_leaves back.0.lane)) }
        ensures faults { IfErr result (λ back. back.1 ≢ Refusal.Device → L.faults_of back.0.lane ≡ L.faults_of ticket.lane) }
    {
        if ticket.kernel != self.id || !self.state.is_in_flight(ticket.block) {
            return Err((ticket, Refusal::NotMine));
        }
        if ticket.unsynced {
            return Err((ticket, Refusal::NotSynced));
        }
        let Some(newest) = self.state.newest(ticket.block) else {
            unreachable!()
        };
        let Ok(same) = ticket.lane.compare(newest, &mut self.read_back) else {
            return Err((ticket, Refusal::Device));
        };
        match self
            .state
            .settled_unless(ticket.block, other_unless(same, &self.read_back))
        {
            Err(refusal) => Err((ticket, refusal)),
            Ok((durable, freed)) => match self.lanes.give(ticket.into_lane()) {
                Ok(()) => Ok(Landed { durable, freed }),
                Err(_lane) => unreachable!(),
            },
        }
    }
}

/// These bytes, unless they are the same as others.
#[inline(always)]
fn other_unless(same: bool, bytes: &[u8; BLOCK_LEN]) -> Option<&[u8; BLOCK_LEN]>
    ensures { option_copied result ≡ other_unless same bytes.now }
{
    if same { None } else { Some(bytes) }
}
