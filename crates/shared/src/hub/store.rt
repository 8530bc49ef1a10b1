// A hub as a store, in which a library keeps its files.

ghost use Rattle.std.specs.Prelude.{◌≡◌};
ghost use Rattle.xn_model.specs.Rules.{IsConsistent};
ghost use Rattle.xn_state.specs.States.{own_types};
ghost use Rattle.shared.specs.Hubs.{with_store};

use crate::hub::Hub;
use disk::Lane;
use durable_floor::Naming;
use store_types::BLOCK_LEN;
use xn_kernel::{Edit, EditId, Fs, Refusal, Store};
use xn_state::State;

impl<L: Lane, K: Naming> Store for Hub<L, K> {
    ghost use Rattle.xn_state.specs.States.{own_types};

    ghost types_of = { λ hub. own_types hub.kernel.state };

    ghost state_of = { λ hub. hub.kernel.state };

    ghost with_state = { with_store };

    fn init(&mut self, fs: Fs, ty: u32, bytes: &[u8; BLOCK_LEN]) -> Result<(u32, EditId), Refusal> {
        self.kernel.init(fs, ty, bytes)
    }

    fn propose(&mut self, fs: Fs, block: u32, edit: &Edit) -> Result<EditId, Refusal> {
        self.kernel.propose(fs, block, edit)
    }

    fn make_root(&mut self, fs: Fs, block: u32) -> Result<EditId, Refusal> {
        self.kernel.make_root(fs, block)
    }

    fn forget(&mut self, fs: Fs, block: u32) -> Result<(), Refusal> {
        self.kernel.forget(fs, block)
    }

    fn state(&self) -> &State {
        self.kernel.state()
    }
}
