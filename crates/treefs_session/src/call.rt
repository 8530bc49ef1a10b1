// A call as a value.

ghost use Rattle.std.specs.Prelude.{◌≡◌, Result};
ghost use Rattle.xn_model.specs.Lives.{StoreState};
ghost use Rattle.xn_model.specs.Types.{Types};
ghost use Rattle.treefs.specs.declared.volume.Volume.{Volume};
ghost use Rattle.treefs_model.specs.declared.fault.Fault.{Fault};

use flush_store::FlushStore;
use std::alloc::Global;
use treefs::Volume;
use treefs_model::Fault;

/// A call that changes a volume, with what it is asked: so it can be made again.
pub trait Call {
    /// What it answers.
    type Answer;

    /// What it does to a store and to a volume, and what it answers.
    ghost does: { Self → Types → StoreState → StoreState → Volume → Volume → Result Self.Answer Fault → Type 0 };

    /// Makes the call once.
    fn make<S: FlushStore>(
        &self,
        alloc: Global,
        store: &mut S,
        volume: &mut Volume,
    ) -> Result<Self::Answer, Fault>
        ensures types { S.types_of store.new ≡ S.types_of store.old }
        ensures does { does self.now (S.types_of store.old) (S.state_of store.old) (S.state_of store.new) volume.old volume.new result };
}
