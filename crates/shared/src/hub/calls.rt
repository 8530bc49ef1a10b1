// The calls of a kernel that change it and that no store has, through a hub.

ghost use Rattle.std.specs.Prelude.{◌≡◌, ◌≢◌, Some, None, false, IfOk, OnOk, OnErr, slice_get, slice_set};
ghost use Rattle.xn_model.specs.Results.{Gives, GivesExactly, result_map};
ghost use Rattle.xn_model.specs.Calls.{drop_root_of, begun_of};
ghost use Rattle.xn_state.specs.declared.call.Call.TheVariants.{Drain};
ghost use Rattle.xn_state.specs.Answers.{StateAnswers};
ghost use Rattle.xn_model.specs.Lives.{StoreState};
ghost use Rattle.xn_state.specs.States.{own_types};
ghost use Rattle.xn_kernel.specs.Kernels.{KernelValue, TicketValue};
ghost use Rattle.shared.specs.Hubs.{HubValue, with_store};

use crate::hub::Hub;
use disk::Lane;
use durable_floor::Naming;
use xn_kernel::{Answer, Call, EditId, Fs, Refusal, Ticket};

impl<L: Lane, K: Naming> Hub<L, K> {
    /// Makes a call for a file system, any but `drain`.
    pub fn call(&mut self, fs: Fs, call: &Call) -> Answer
        requires { call.now ≢ Drain }
        ensures answer { StateAnswers (own_types self.old.kernel.state) self.old.kernel.state fs.number call.now self.new.kernel.state result }
        ensures rest { self.new ≡ with_store self.old self.new.kernel.state }
    {
        self.kernel.call(fs, call)
    }

    /// Empties the file system's root slot, in block 0.
    pub fn drop_root(&mut self, fs: Fs) -> Result<EditId, Refusal>
        ensures state { Gives (drop_root_of (own_types self.old.kernel.state) self.old.kernel.state fs.number) self.old.kernel.state self.new.kernel.state
            result }
        ensures rest { self.new ≡ with_store self.old self.new.kernel.state }
    {
        self.kernel.drop_root(fs)
    }

    /// Begins a write of a block: the ticket has its lane, and the bytes that its safe entries leave.
    pub fn begin(&mut self, block: u32) -> Result<Ticket<L>, Refusal>
        ensures state { GivesExactly (begun_of self.old.kernel.state block) self.old.kernel.state self.new.kernel.state
            (result_map (λ ticket. (ticket.bytes, ticket.count)) result) }
        ensures ticket { IfOk result (λ ticket. (ticket.kernel ≡ self.old.kernel.id) × (ticket.block ≡ block)
            × (slice_get self.old.kernel.lanes block ≡ Some (Some ticket.lane)) × (ticket.unsynced ≡ false)) }
        ensures lanes { OnOk result (self.new ≡ record self.old {
          kernel = record self.old.kernel {
            lanes = slice_set self.old.kernel.lanes block None;
            state = self.new.kernel.state;
          };
        }) }
        ensures err { OnErr result (self.new ≡ self.old) }
    {
        self.kernel.begin(block)
    }
}
