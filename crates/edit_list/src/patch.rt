// A patch of a block's bytes.

ghost use Rattle.std.specs.Prelude.{◌≡◌, ◌≤◌, ◌↔◌, length, IsTrue};
ghost use Rattle.xn_model.specs.Lists.{put};
ghost use Rattle.xn_model.specs.Calls.{is_patch};
ghost use Rattle.edit_list.specs.Undo.{undo_at};

use std::marker::Model;
use store_types::BLOCK_LEN;

/// Bytes that a block is to have from an offset on.
#[derive(Debug)]
pub struct Patch {
    pub offset: u16,
    pub bytes: Vec<u8>,
}

impl Model for Patch {
    ghost use Rattle.xn_model.specs.Calls as model;

    ghost Value = { model.Patch };

    ghost view = { λ a. record { offset = a.offset; bytes = a.bytes.items } };
}

/// Written by hand, so that a function that drops one calls this: a derived drop is proved anew in each such function.
impl Drop for Patch {
    fn drop(self) {
        let Patch {
            offset: _,
            bytes: _,
        } = self;
    }
}

impl Patch {
    /// Whether the patch has a byte, and none past byte 511 of the block.
    pub(crate) fn is_patch(&self) -> bool
        ensures { result ≡ is_patch self.now }
    {
        let length = self.bytes.len();
        0 < length && length <= BLOCK_LEN && usize::from(self.offset) + length <= BLOCK_LEN
    }

    /// Whether it has at most 16 bytes.
    pub(crate) fn is_short(&self) -> bool
        ensures { IsTrue result ↔ (length self.now.bytes ≤ 16) }
    {
        self.bytes.len() <= 16
    }

    /// Writes its bytes into a block.
    pub(crate) fn apply(&self, bytes: &mut [u8; BLOCK_LEN])
        requires { IsTrue (is_patch self.now) }
        ensures { bytes.new ≡ put bytes.old self.now.offset self.now.bytes }
    {
        let start = usize::from(self.offset);
        bytes[start..start + self.bytes.len()].copy_from_slice(&self.bytes);
    }

    /// The bytes of a block that it writes over.
    pub(crate) fn overwritten<'a>(&self, bytes: &'a [u8; BLOCK_LEN]) -> &'a [u8]
        requires { IsTrue (is_patch self.now) }
        ensures { result.now ≡ (undo_at bytes.now self.now).bytes }
    {
        let start = usize::from(self.offset);
        &bytes[start..start + self.bytes.len()]
    }
}
