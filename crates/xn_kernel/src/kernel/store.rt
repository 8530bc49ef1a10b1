// A kernel as a store, in which a library keeps its files.

ghost use Rattle.std.specs.Prelude.{◌≡◌};
ghost use Rattle.xn_model.specs.Rules.{IsConsistent};
ghost use Rattle.xn_state.specs.States.{own_types};
ghost use Rattle.xn_kernel.specs.Kernels.{KernelValue};

use crate::kernel::Kernel;
use disk::Lane;
use store_types::BLOCK_LEN;
use xn_state::{Edit, EditId, Fs, Refusal, State, Store};

impl<L: Lane> Store for Kernel<L> {
    ghost use Rattle.xn_state.specs.States.{own_types};

    ghost types_of = { λ kernel. own_types kernel.state };

    ghost state_of = { λ kernel. kernel.state };

    ghost with_state = { λ kernel state. record kernel { state = state } };

    fn init(&mut self, fs: Fs, ty: u32, bytes: &[u8; BLOCK_LEN]) -> Result<(u32, EditId), Refusal> {
        let made = self.state.init(fs, ty, bytes);
        self.keeps_rules();
        made
    }

    fn propose(&mut self, fs: Fs, block: u32, edit: &Edit) -> Result<EditId, Refusal> {
        let made = self.state.propose(fs, block, edit);
        self.keeps_rules();
        made
    }

    fn make_root(&mut self, fs: Fs, block: u32) -> Result<EditId, Refusal> {
        let made = self.state.make_root(fs, block);
        self.keeps_rules();
        made
    }

    fn forget(&mut self, fs: Fs, block: u32) -> Result<(), Refusal> {
        let done = self.state.forget(fs, block);
        self.keeps_rules();
        done
    }

    fn state(&self) -> &State {
        &self.state
    }
}
