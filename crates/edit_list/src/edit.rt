// An edit, as a client asks for it.

ghost use Rattle.std.specs.Prelude.{◌≡◌, IfOk, IsTrue};
ghost use Rattle.xn_model.specs.Calls.{within_limits, patched};
ghost use Rattle.edit_list.specs.Undo.{undo_of};

use crate::edit_id::EditId;
use crate::patch::Patch;
use crate::patches::{are_within_limits, undo_of_any, undo_of_short};
use crate::undo::Undo;
use std::alloc::{AllocError, Global};
use std::marker::Model;
use store_types::BLOCK_LEN;

/// A change of a block: patches, which apply in order and may overlap; the blocks that it adds to those that the block
/// owns, each with its type; the blocks that it drops from them; and the entry that has to be durable before it.
///
/// Within the limits are 1 to 8 patches, none of them empty or past byte 511, together at most 512 bytes, and at most 16
/// adds and 128 drops.
#[derive(Debug)]
pub struct Edit {
    pub patches: Vec<Patch>,
    pub adds: Vec<(u32, u32)>,
    pub drops: Vec<u32>,
    pub after: Option<EditId>,
}

impl Model for Edit {
    ghost use Rattle.xn_model.specs.Calls as model;

    ghost Value = { model.Edit };

    ghost view = { λ a. record { patches = a.patches.items; adds = a.adds.items; drops = a.drops.items; after = a.after } };
}

/// Written by hand, so that a function that drops one calls this: a derived drop is proved anew in each such function.
impl Drop for Edit {
    fn drop(self) {
        let Edit {
            patches: _,
            adds: _,
            drops: _,
            after: _,
        } = self;
    }
}

impl Edit {
    /// The blocks that it adds, each with its type.
    pub fn adds(&self) -> &[(u32, u32)]
        ensures { result.now ≡ self.now.adds }
    {
        self.adds.as_slice()
    }

    /// The blocks that it drops.
    pub fn drops(&self) -> &[u32]
        ensures { result.now ≡ self.now.drops }
    {
        self.drops.as_slice()
    }

    /// The entry that has to be durable before it.
    pub fn after(&self) -> Option<EditId>
        ensures { result ≡ self.now.after }
    {
        self.after
    }

    /// Whether the edit is within the limits.
    pub fn is_within_limits(&self) -> bool
        ensures { result ≡ within_limits self.now }
    {
        are_within_limits(&self.patches) && self.adds.len() <= 16 && self.drops.len() <= 128
    }

    /// Writes its patches into a block, in their order.
    pub fn apply(&self, bytes: &mut [u8; BLOCK_LEN])
        requires { IsTrue (within_limits self.now) }
        ensures { bytes.new ≡ patched bytes.old self.now.patches }
    {
        for patch in self.patches.as_slice() {
            patch.apply(bytes);
        }
    }

    /// What undoes the edit of a block that has these bytes before it: for each of its patches, in their order, a piece at the
    /// same place, with the bytes that the block has there.
    pub fn undo_of(&self, alloc: Global, bytes: &[u8; BLOCK_LEN]) -> Result<Undo, AllocError>
        requires { IsTrue (within_limits self.now) }
        ensures pieces { IfOk result (λ undo. undo ≡ undo_of bytes.now self.now.patches) }
        ensures undone { IfOk result (λ undo. patched (patched bytes.now self.now.patches) undo ≡ bytes.now) }
    {
        let patches = self.patches.as_slice();
        if patches.len() == 1 && patches[0].is_short() {
            return Ok(undo_of_short(alloc, &patches[0], bytes));
        }
        undo_of_any(alloc, patches, bytes)
    }
}
