// The lives of a store with one more template.

ghost use Rattle.std.specs.Prelude.{◌≡◌, ℕ, ◌+◌, ◌^◌, ◌<◌, ◌≤◌, false, length, Some, IsTrue, OnOk, OnErr, is_some};
ghost use Rattle.xn_model.specs.Images.{most_blocks};
ghost use Rattle.xn_model.specs.Lives.{life_at, lowest_free};
ghost use Rattle.xn_model.specs.Calls.{life_bytes, life_pending, patched};
ghost use Rattle.dependencies.specs.Pending.{pends};
ghost use Rattle.xn_state.specs.Installs.{installed_lives};

use crate::lives::Lives;
use block_cache::{Claim, NewBytes};
use edit_list::{EditId, Undo};
use std::alloc::{AllocError, Global};
use store_types::BLOCK_LEN;
use templates::TEMPLATE_TYPE;

impl Lives {
    /// Starts a life of nobody with a template on the least free block, and lets block 0 name that block by these bytes: two entries
    /// in a row, of which the first has this number. What undoes block 0's gives its newest bytes again. Where memory is
    /// wanting, neither is made.
    pub fn install(
        &mut self,
        alloc: Global,
        block: u32,
        number: EditId,
        template: &[u8; BLOCK_LEN],
        root: &[u8; BLOCK_LEN],
        undo: Undo,
    ) -> Result<(), AllocError>
        requires free { lowest_free self.old ≡ Some block }
        requires alive { IsTrue (is_some (life_at self.old 0)) }
        requires room { life_pending (life_at self.old 0) < 64 }
        requires size { length self.old ≤ most_blocks }
        requires numbers { number + 1 < 2 ^ 64 }
        requires fresh { (n b : ℕ) → number ≤ n → pends n (life_at self.old b) ≡ false }
        requires undoes { patched root.now undo ≡ life_bytes (life_at self.old 0) }
        ensures ok { OnOk result (self.new ≡ installed_lives self.old block number template.now root.now) }
        ensures err { OnErr result (self.new ≡ self.old) }
    {
        let adds = [(block, TEMPLATE_TYPE)];
        let second = EditId(number.0 + 1);
        let claim = Claim::copied(alloc, second, &adds, &[], None, None)?;
        self.start(alloc, block, number, None, TEMPLATE_TYPE, template)?;
        match self.accept(None, 0, claim, NewBytes::Whole(root), undo, &adds, &[]) {
            Ok(()) => Ok(()),
            Err(error) => {
                self.forget(block);
                Err(error)
            }
        }
    }
}
