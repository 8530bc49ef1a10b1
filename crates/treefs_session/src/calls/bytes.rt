// The call that writes bytes.

ghost use Rattle.std.specs.Prelude.{◌≡◌};
ghost use Rattle.treefs_session.specs.Pieces.{WritesPiece, advanced};

use crate::call::Call;
use flush_store::FlushStore;
use std::alloc::Global;
use treefs::Volume;
use treefs_model::Fault;
use treefs_puts::write_begun;

/// Where bytes are written.
#[derive(Clone, Copy)]
pub enum Target {
    /// In the inode that was begun and has this block, from a byte on.
    Begun(u32, u64),
    /// In the inode of a number, from a byte on.
    Numbered(u32, u64),
}

impl Target {
    /// Where those stand that follow so many bytes.
    pub fn advanced(self, taken: usize) -> Target
        ensures { result ≡ advanced self taken }
    {
        match self {
            Target::Begun(block, at) => Target::Begun(block, at.saturating_add(taken as u64)),
            Target::Numbered(number, at) => {
                Target::Numbered(number, at.saturating_add(taken as u64))
            }
        }
    }
}

/// Writes a piece of some bytes, and answers how many that are: by `write_begun` in an inode that was begun, and else by `write_some` of a volume.
#[derive(Clone, Copy)]
pub struct Write<'a> {
    pub target: Target,
    pub bytes: &'a [u8],
}

impl Call for Write<'_> {
    type Answer = usize;

    ghost does = { λ c T old new volume volume' result. WritesPiece T c.target c.bytes.now old new volume volume' result };

    fn make<S: FlushStore>(
        &self,
        alloc: Global,
        store: &mut S,
        volume: &mut Volume,
    ) -> Result<usize, Fault> {
        match self.target {
            Target::Begun(block, at) => { write_begun(alloc, store, volume, block, at, self.bytes) }
            Target::Numbered(number, at) => {
                volume.write_some(alloc, store, number, at, self.bytes)
            }
        }
    }
}
