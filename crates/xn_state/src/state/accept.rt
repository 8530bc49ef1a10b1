// One more entry of a block.

ghost use Rattle.std.specs.Prelude.{◌≡◌, ◌<◌, ◌≤◌, ◌^◌, ◌-◌, length, is_some, IsTrue, Ok};
ghost use Rattle.xn_model.specs.Lives.{life_at};
ghost use Rattle.xn_model.specs.Results.{Gives};
ghost use Rattle.xn_model.specs.Calls.{accepts, life_bytes, life_pending, patched, pending_of};
ghost use Rattle.block_cache.specs.NewBytes.{AreWithinLimits, new_bytes};
ghost use Rattle.claims.specs.Owned.{MayClaim};
ghost use Rattle.claims.specs.Decided.{Decides};
ghost use Rattle.xn_state.specs.Proposals.{accepted_entry};
ghost use Rattle.xn_state.specs.States.{Continues, own_types};

use crate::state::State;
use block_cache::{Claim, NewBytes};
use edit_list::{EditId, Fs, Undo};
use store_types::Refusal;
use udf_run::ReadSet;

/// What an entry claims: the blocks that it adds, each with its type, those that it drops, and the entry that it comes after.
pub(crate) struct Claims<'a> {
    pub adds: &'a [(u32, u32)],
    pub drops: &'a [u32],
    pub after: Option<EditId>,
}

impl State {
    /// A block in use accepts an entry with these bytes and claims, after which the rules hold. What undoes it gives the newest
    /// bytes again. The chunks that decide what the bytes own are kept, where they are known. `NoMemory` changes nothing.
    #[inline(always)]
    pub(crate) fn accept(
        &mut self,
        fs: Fs,
        block: u32,
        bytes: NewBytes<'_>,
        reads: Option<ReadSet>,
        undo: Undo,
        claims: Claims<'_>,
    ) -> Result<EditId, Refusal>
        requires alive { IsTrue (is_some (life_at self.old.lives block)) }
        requires room { life_pending (life_at self.old.lives block) < 64 }
        requires few { pending_of self.old fs.number < 4096 }
        requires numbers { self.old.next < 2 ^ 64 - 1 }
        requires claims { MayClaim self.old.lives block claims.adds.now claims.drops.now }
        requires few_adds { length claims.adds.now ≤ 128 }
        requires small { length claims.drops.now ≤ 128 }
        requires reads { Decides (own_types self.old) self.old.lives block (new_bytes bytes (life_bytes (life_at self.old.lives block))) reads }
        requires undoes { patched (new_bytes bytes (life_bytes (life_at self.old.lives block))) undo ≡ life_bytes (life_at self.old.lives block) }
        requires leaves { AreWithinLimits bytes }
        requires continues { Continues self.old (accepts self.old block
            (accepted_entry self.old fs.number (new_bytes bytes (life_bytes (life_at self.old.lives block))) claims.adds.now claims.drops.now claims.after)).1 }
        ensures state { Gives (Ok (accepts self.old block (accepted_entry self.old fs.number (new_bytes bytes.entry (life_bytes (life_at self.old.lives block)))
            claims.entry.adds.now claims.entry.drops.now claims.entry.after))) self.old self.new result }
    {
        let Claims { adds, drops, after } = claims;
        let number = EditId(self.next);
        let Ok(claim) = Claim::copied(self.alloc, number, adds, drops, after, Some(fs)) else {
            return Err(Refusal::NoMemory);
        };
        let Ok(()) = self
            .lives
            .accept(Some(fs), block, claim, bytes, undo, adds, drops)
        else {
            return Err(Refusal::NoMemory);
        };
        self.reads.set(block as usize, reads);
        self.next += 1;
        Ok(number)
    }
}
