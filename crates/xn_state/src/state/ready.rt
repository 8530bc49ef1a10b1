// Which blocks may be written, and how many are free.

ghost use Rattle.std.specs.Prelude.{◌≡◌, is_some};
ghost use Rattle.xn_model.specs.Calls.{free_of, pick_of, tainted_of};
ghost use Rattle.xn_state.specs.Awaits.{awaited_of};

use crate::state::State;

impl State {
    /// Whether some pending entry of a block may not be written yet, as it waits for another block.
    pub fn tainted(&self, block: u32) -> bool
        ensures { result ≡ tainted_of self.now block }
    {
        self.lives.index.is_tainted(&self.lives.cache, block)
    }

    /// The block that the first entry of a block waits for that isn't safe: the first added one that has no state on the disk, or else the
    /// first dropped one whose newest state is not there, or else the one in which the entry is pending that it comes after, or else block 0,
    /// which lacks the type of an added one there. `None` where each entry is safe.
    pub fn awaited(&self, block: u32) -> Option<u32>
        ensures block { result ≡ awaited_of self.now block }
        ensures waits { is_some result ≡ tainted_of self.now block }
    {
        self.lives.index.awaited(&self.lives.cache, block)
    }

    /// How many blocks are free.
    pub fn free(&self) -> u32
        ensures { result ≡ free_of self.now }
    {
        self.lives.index.free()
    }

    /// The least block of which no write is under way, and some pending entry may be written.
    pub fn pick(&self) -> Option<u32>
        ensures { result ≡ pick_of self.now }
    {
        self.lives.index.pick(&self.lives.cache)
    }
}
