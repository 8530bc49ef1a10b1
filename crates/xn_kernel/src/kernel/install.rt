// A template is installed while the store runs.

ghost use Rattle.std.specs.Prelude.{◌≡◌, ◌+◌, IfOk};
ghost use Rattle.xn_model.specs.Results.{Gives, result_map};
ghost use Rattle.xn_model.specs.Calls.{install_of};
ghost use Rattle.templates.specs.Language.{language};
ghost use Rattle.xn_state.specs.Installs.{installed_of};
ghost use Rattle.xn_kernel.specs.Kernels.{KernelValue};

use crate::kernel::Kernel;
use disk::Lane;
use store_types::BLOCK_LEN;
use xn_state::{Installed, Refusal};

impl<L: Lane> Kernel<L> {
    /// Installs the template in a block: the lowest free block begins a life of nobody, of type 1, with these bytes, and the lowest empty
    /// place of block 0's catalogue names it, as two entries of nobody. The type that this makes can be used at once; an entry that
    /// adds a block of it waits until block 0 names the template on the disk. A template is never changed or removed. Refused are,
    /// in this order, a catalogue with 16 templates (`NoSlot`), 64 pending entries of block 0 (`TooManyPending`), fewer than two
    /// numbers left (`Exhausted`), no free block (`NoSpace`), bytes that are no template's block (`BadTemplate`), last
    /// `NoMemory`. A refusal changes nothing.
    pub fn install(&mut self, template: &[u8; BLOCK_LEN]) -> Result<Installed, Refusal>
        ensures state { Gives (install_of language self.old.state template.now) self.old.state self.new.state (result_map installed_of result) }
        ensures second { IfOk result (λ made. made.edits.1 ≡ made.edits.0 + 1) }
        ensures rest { self.new ≡ record self.old { state = self.new.state } }
    {
        self.state.install(template)
    }
}
