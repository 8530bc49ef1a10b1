// What a call asks of its store, one edit after another.

ghost use Rattle.std.specs.Prelude.{◌≡◌, IfOk};
ghost use Rattle.treefs_edits.specs.Kinds.{with_patch};
ghost use Rattle.treefs_model.specs.Acts.{Made, behind_of};

use edit_list::{Edit, EditId, Fs, Patch};
use std::alloc::AllocError;
use std::marker::Model;
use store_types::Refusal;
use xn_state::Store;

/// An edit of a block, behind all that is pending in another block when it is made.
pub struct Act {
    /// The block that it edits.
    pub block: u32,
    /// The edit. What it comes after is set when it is made.
    pub edit: Edit,
    /// The block behind which it stands, if it stands behind one.
    pub behind: Option<u32>,
}

impl Model for Act {
    ghost use Rattle.treefs_model.specs.Acts as model;

    ghost Value = { model.Act };

    ghost view = { λ a. record { block = a.block; edit = a.edit; behind = a.behind } };
}

/// Written by hand, so that a function that drops one calls this: a derived drop is proved anew in each such function.
impl Drop for Act {
    fn drop(self) {
        let Act {
            block: _,
            edit: _,
            behind: _,
        } = self;
    }
}

impl Act {
    /// Makes the edit, behind the newest pending entry of the block behind which it stands. A refusal changes nothing.
    pub fn make<S: Store>(self, store: &mut S, fs: Fs) -> Result<EditId, Refusal>
        ensures types { S.types_of store.new ≡ S.types_of store.old }
        ensures made { Made (S.types_of store.old) fs.number self (S.state_of store.old) (S.state_of store.new) result }
    {
        let Act {
            block,
            mut edit,
            behind,
        } = self;
        edit.after = newest_entry(store, behind);
        store.propose(fs, block, &edit)
    }

    /// With one more patch. `Err` comes only for want of memory.
    pub fn with_patch(self, patch: Patch) -> Result<Act, AllocError>
        ensures { IfOk result (λ act. act ≡ with_patch self patch) }
    {
        let Act {
            block,
            mut edit,
            behind,
        } = self;
        edit.patches.push(patch)?;
        Ok(Act {
            block,
            edit,
            behind,
        })
    }
}

/// The number of the newest pending entry of a block, if one is named.
fn newest_entry<S: Store>(store: &S, behind: Option<u32>) -> Option<EditId>
    ensures { result ≡ behind_of (S.state_of store.now) behind }
{
    match behind {
        Some(block) => store.newest_entry(block),
        None => None,
    }
}
