// The answers of a store that change nothing.

ghost use Rattle.std.specs.Prelude.{◌≡◌};
ghost use Rattle.xn_model.specs.Results.{Lends};
ghost use Rattle.std.specs.Option.{option_copied};
ghost use Rattle.xn_model.specs.Calls.{read_of, kind_of, root_of, pending_of};
ghost use Rattle.xn_model.specs.PendingIn.{newest_entry_of, pending_in_of};
ghost use Rattle.templates.specs.Tables.{TellsTemplate};
ghost use Rattle.xn_state.specs.States.{own_types};

use crate::state::State;
use edit_list::{EditId, Fs};
use store_types::{BLOCK_LEN, Refusal};
use templates::{Template, root_slot};

impl State {
    /// The current bytes of a block of the file system: those of its newest pending entry, or where none is pending the durable
    /// ones. Refused are, in this order, a block past the end of the disk (`NoSuchBlock`), a free or dropped one (`NotInUse`), and
    /// one of another file system or of nobody (`NotYours`).
    pub fn read(&self, fs: Fs, block: u32) -> Result<&[u8; BLOCK_LEN], Refusal>
        ensures { Lends (read_of self.now fs.number block) result }
    {
        Ok(self.lives.own(fs, block)?.current())
    }

    /// The type of a block of the file system, with the refusals of `read`.
    pub fn kind(&self, fs: Fs, block: u32) -> Result<u32, Refusal>
        ensures { result ≡ kind_of self.now fs.number block }
    {
        Ok(self.lives.own(fs, block)?.facts().ty)
    }

    /// The block in the file system's root slot, as block 0's newest state has it; `None` where the slot is empty.
    pub fn root(&self, fs: Fs) -> Option<u32>
        ensures { result ≡ root_of self.now fs.number }
    {
        let root = self.root_block();
        let slot = root_slot(root.current(), fs.index());
        if slot.block == 0 {
            None
        } else {
            Some(slot.block)
        }
    }

    /// The template of a type, or `None` where the type is not installed.
    pub fn template(&self, ty: u32) -> Option<&Template>
        ensures { TellsTemplate (own_types self.now) ty (option_copied result) }
    {
        self.types().get(ty)
    }

    /// How many pending entries of all blocks count for the file system.
    pub fn pending(&self, fs: Fs) -> u32
        ensures { result ≡ pending_of self.now fs.number }
    {
        self.lives.index.pending_for(fs)
    }

    /// How many entries of a block are pending.
    pub fn pending_in(&self, block: u32) -> u32
        ensures { result ≡ pending_in_of self.now block }
    {
        match self.lives.cache.live(block) {
            Some(life) => life.facts().pending as u32,
            None => 0,
        }
    }

    /// The number of the newest pending entry of a block, `None` where nothing is pending there.
    pub fn newest_entry(&self, block: u32) -> Option<EditId>
        ensures { result ≡ newest_entry_of self.now block }
    {
        let life = self.lives.cache.live(block)?;
        let count = life.facts().pending;
        if count == 0 {
            return None;
        }
        Some(life.claim(count - 1)?.entry())
    }
}
