// What holds of every flush.

ghost use Rattle.std.specs.Prelude.{◌≡◌, ℕ, List, Some, false};
ghost use Rattle.xn_model.specs.Types.{Types};
ghost use Rattle.xn_model.specs.Lives.{Life, StoreState, current, is_dropped, life_at};
ghost use Rattle.xn_model.specs.Rules.{IsConsistent, IsIdle};
ghost use Rattle.xn_model.specs.Worlds.{all_pending};
ghost use Rattle.store_types.specs.declared.refusal.Refusal.{Refusal};
ghost use Rattle.xn_state.specs.States.{own_types};
ghost use Rattle.xn_kernel.specs.Kernels.{IsKernel, KernelValue};
ghost use Rattle.xn_kernel.specs.Flushes.{Waves};
ghost use Rattle.xn_kernel.specs.FlushedStates.{KeepsNewest, MayHold, StateRefuses, StateWaves};

use disk::Lane;

/// A flush leaves each block's newest bytes as they are, whether it ends, is refused or stops: what was written is read. Only dropped blocks may be free.
pub fn flush_keeps_newest()
    ensures ends { (T : Types) (old new : StoreState) (waves : ℕ) → IsConsistent T old → StateWaves waves old new → KeepsNewest old.lives new.lives }
    ensures stops { (T : Types) (old new : StoreState) (refusal : Refusal) → IsConsistent T old → StateRefuses old refusal new →
        KeepsNewest old.lives new.lives }
{}

/// What a flush told durable stands in every image: where it has left nothing under way or pending, each block that was in use before it and not
/// dropped has the newest bytes that it had then, in all that a crash may leave.
pub fn flushed_stands<L: Lane>()
    ensures { (old new : KernelValue L) (waves : ℕ) (image : ℕ → List ℕ) (block : ℕ) (life : Life) → IsConsistent (own_types old.state) old.state →
        Waves L.bytes_of L.faults_of L.write_gives L.sync_gives L.read_gives waves old new →
        IsKernel L.bytes_of L.crash_leaves new.lanes new.state → IsIdle new.state.lives → all_pending new.state.lives ≡ 0 →
        MayHold L.crash_leaves new.lanes image → life_at old.state.lives block ≡ Some life → is_dropped life.status ≡ false →
        image block ≡ current life }
{}
