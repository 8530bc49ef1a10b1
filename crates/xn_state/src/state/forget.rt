// A client ends the life of a block that nobody owns.

ghost use Rattle.std.specs.Prelude.{◌≡◌};
ghost use Rattle.xn_model.specs.Results.{GivesExactly};
ghost use Rattle.xn_model.specs.Calls.{forget_of};
ghost use Rattle.xn_state.specs.Forgets.{forget_plan, are_untouched};
ghost use Rattle.xn_state.specs.States.{own_types};

use crate::state::State;
use block_cache::Facts;
use edit_list::Fs;
use store_types::Refusal;

impl State {
    /// Whether a block of the file system may be forgotten, or the first refusal of `forget` that applies.
    fn forgettable(&self, fs: Fs, block: u32) -> Result<(), Refusal>
        ensures { result ≡ forget_plan (own_types self.now) self.now fs.number block }
    {
        let facts = self.lives.own(fs, block)?.facts();
        if !facts.is_fresh() {
            return Err(Refusal::NotFresh);
        }
        if !self.is_empty(block) {
            return Err(Refusal::NotEmpty);
        }
        if !is_untouched(facts) {
            return Err(Refusal::TooManyPending);
        }
        if facts.begun.is_some() {
            return Err(Refusal::InFlight);
        }
        Ok(())
    }

    /// Ends the life of a block that no owner has ever named: the block is free, and its init, where that is still pending, counts
    /// no longer. It takes no memory, and a refusal changes nothing. Refused are, in this order, a block past the end of the disk
    /// (`NoSuchBlock`), a free or dropped one (`NotInUse`), one of another file system or of nobody (`NotYours`), one that has had an
    /// owner (`NotFresh`), one that points to another (`NotEmpty`), one with another entry pending than its init (`TooManyPending`),
    /// and one whose write is under way (`InFlight`).
    pub fn forget(&mut self, fs: Fs, block: u32) -> Result<(), Refusal>
        ensures state { GivesExactly (forget_of (own_types self.old) self.old fs.number block) self.old self.new result }
    {
        self.forgettable(fs, block)?;
        self.lives.forget(block);
        Ok(())
    }
}

/// Whether nothing is pending for a block but, where none of its states is known to be on the disk, its first entry.
fn is_untouched(facts: Facts) -> bool
    ensures { result ≡ are_untouched facts }
{
    facts.pending == 0 || (!facts.is_durable && facts.pending == 1)
}
