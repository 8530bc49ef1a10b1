// Bytes are written piece by piece.

ghost use Rattle.std.specs.Prelude.{◌≡◌};
ghost use Rattle.treefs_session.specs.Pieces.{WritesAll};

use crate::calls::bytes::{Target, Write};
use crate::session::Session;
use flush_store::FlushStore;
use std::alloc::Global;
use treefs_edits::fronts::behind;
use treefs_model::Fault;

impl<S: FlushStore> Session<S> {
    /// Writes bytes, all of them or up to a fault: one piece after another, each as `make` makes a call. `Full` comes also where a piece had no byte.
    pub fn write_all(
        &mut self,
        alloc: Global,
        held: &[u32],
        target: Target,
        bytes: &[u8],
    ) -> Result<(), Fault>
        ensures types { S.types_of self.new.store ≡ S.types_of self.old.store }
        ensures does { WritesAll (S.types_of self.old.store) held.now target bytes.now (S.state_of self.old.store) (S.state_of self.new.store)
            self.old.volume self.new.volume result }
    {
        let mut target = target;
        let mut left = bytes;
        while !left.is_empty() {
            let write = Write {
                target,
                bytes: left,
            };
            let taken = match self.make(alloc, held, &write) {
                Ok(taken) => taken,
                Err(fault) => return Err(fault),
            };
            if taken == 0 {
                return Err(Fault::Full);
            }
            target = target.advanced(taken);
            left = behind(left, taken);
        }
        Ok(())
    }
}
