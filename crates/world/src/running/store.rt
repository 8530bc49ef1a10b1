// A world that is up, as a store.

ghost use Rattle.std.specs.Prelude.{◌≡◌};
ghost use Rattle.xn_model.specs.Rules.{IsConsistent};
ghost use Rattle.xn_state.specs.States.{own_types};
ghost use Rattle.world.specs.Worlds.{WorldValue};

use crate::running::Running;
use std::alloc::Allocator;
use store_types::{BLOCK_LEN, Refusal};
use xn_state::{Edit, EditId, Fs, State, Store};

impl<A: Allocator> Store for Running<A> {
    ghost use Rattle.xn_state.specs.States.{own_types};

    ghost types_of = { λ running. own_types running.state };

    ghost state_of = { λ running. running.state };

    ghost with_state = { λ running state. record running { state = state } };

    fn init(&mut self, fs: Fs, ty: u32, bytes: &[u8; BLOCK_LEN]) -> Result<(u32, EditId), Refusal> {
        self.kernel.init(fs, ty, bytes)
    }

    fn propose(&mut self, fs: Fs, block: u32, edit: &Edit) -> Result<EditId, Refusal> {
        self.kernel.propose(fs, block, edit)
    }

    fn make_root(&mut self, fs: Fs, block: u32) -> Result<EditId, Refusal> {
        self.kernel.make_root(fs, block)
    }

    fn forget(&mut self, fs: Fs, block: u32) -> Result<(), Refusal> {
        self.kernel.forget(fs, block)
    }

    fn state(&self) -> &State {
        self.kernel.state()
    }
}
