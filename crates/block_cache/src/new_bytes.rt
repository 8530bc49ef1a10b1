// What an entry leaves of a block's bytes.

ghost use Rattle.std.specs.Prelude.{◌≡◌};
ghost use Rattle.block_cache.specs.NewBytes.{AreWithinLimits, new_bytes};

use edit_list::Edit;
use store_types::BLOCK_LEN;

/// What an entry leaves of a block's bytes.
#[derive(Clone, Copy)]
pub enum NewBytes<'a> {
    /// These.
    Whole(&'a [u8; BLOCK_LEN]),
    /// What the patches of an edit make of the newest ones, in place.
    Patched(&'a Edit),
}

impl NewBytes<'_> {
    /// Puts them in the place of the newest ones.
    pub(crate) fn put(self, current: &mut [u8; BLOCK_LEN])
        requires { AreWithinLimits self }
        ensures { current.new ≡ new_bytes self.entry current.old }
    {
        match self {
            NewBytes::Whole(bytes) => *current = *bytes,
            NewBytes::Patched(edit) => edit.apply(current),
        }
    }
}
