// What closes and syncs of sessions promise beside what they do.

ghost use Rattle.std.specs.Prelude.{ℕ, List, Ok};
ghost use Rattle.xn_model.specs.Lives.{StoreState};
ghost use Rattle.xn_model.specs.Types.{Types};
ghost use Rattle.flush_store.specs.Written.{AllWritten};
ghost use Rattle.treefs.specs.declared.volume.Volume.{Volume};
ghost use Rattle.treefs_session.specs.Freeing.{Syncs};
ghost use Rattle.treefs_session.specs.Opening.{Closes};

/// Where a volume was closed, or synced, nothing is pending in its store any more: all that its calls did is on the disk.
pub fn closes_and_syncs_write()
    ensures closes { (T : Types) (old new : StoreState) (volume : Volume) → Closes T old new volume → AllWritten new.lives }
    ensures syncs { (T : Types) (held : List ℕ) (old new : StoreState) (volume volume' : Volume) →
        Syncs T held old new volume volume' (Ok tt) → AllWritten new.lives }
{}
