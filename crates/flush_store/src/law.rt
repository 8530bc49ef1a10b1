// What flushes keep.

ghost use Rattle.std.specs.Prelude.{ℕ};
ghost use Rattle.xn_model.specs.Types.{Types};
ghost use Rattle.xn_model.specs.Lives.{StoreState};
ghost use Rattle.xn_model.specs.Rules.{IsConsistent};
ghost use Rattle.store_types.specs.declared.refusal.Refusal.{Refusal};
ghost use Rattle.xn_kernel.specs.FlushedStates.{KeepsNewest, StateRefuses, StateWaves};

/// Waves keep the store's rules, and each block goes on with its newest bytes; and so it is where a flush is refused, or stops.
pub fn flushes_keep_newest()
    ensures waves { (T : Types) (n : ℕ) (old new : StoreState) → IsConsistent T old → StateWaves n old new →
        IsConsistent T new × KeepsNewest old.lives new.lives }
    ensures refused { (T : Types) (refusal : Refusal) (old new : StoreState) → IsConsistent T old → StateRefuses old refusal new →
        IsConsistent T new × KeepsNewest old.lives new.lives }
{}
