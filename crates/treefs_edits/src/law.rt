// What plans make of the bytes of a store.

ghost use Rattle.std.specs.Prelude.{◌≡◌, ℕ, List, Ok};
ghost use Rattle.xn_model.specs.Types.{Types};
ghost use Rattle.xn_model.specs.Lives.{StoreState};
ghost use Rattle.xn_model.specs.Calls.{latest};
ghost use Rattle.xn_model.specs.Rules.{IsConsistent};
ghost use Rattle.treefs_model.specs.Acts.{Act, Ran};
ghost use Rattle.treefs_edits.specs.Written.{all_written};

/// Once acts are made, the newest bytes of each block are those that it had, with the patches of its acts in their order.
pub fn acts_write_patches()
    ensures { (T : Types) (fs : ℕ) (acts : List Act) (old new : StoreState) → IsConsistent T old → Ran T fs acts old new (Ok tt) →
        IsConsistent T new × ((b : ℕ) → latest new.lives b ≡ all_written acts (latest old.lives) b) }
{}
