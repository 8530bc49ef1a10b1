// What a drain asks of a store before it begins.

ghost use Rattle.std.specs.Prelude.{◌≡◌, is_some};
ghost use Rattle.std.specs.List.{list_any};
ghost use Rattle.xn_model.specs.Lives.{alive_and};
ghost use Rattle.xn_model.specs.Worlds.{all_pending};

use crate::state::State;

impl State {
    /// Whether a write of some block is under way.
    pub fn is_any_in_flight(&self) -> bool
        ensures { result ≡ list_any (alive_and (λ l. is_some l.begun)) self.now.lives }
    {
        self.lives.cache.is_any_in_flight()
    }

    /// How many entries are pending, of all blocks and file systems.
    pub fn all_pending(&self) -> u32
        ensures { result ≡ all_pending self.now.lives }
    {
        self.lives.cache.all_pending() as u32
    }
}
