// The calls by which a library keeps its files.

ghost use Rattle.std.specs.Prelude.{◌≡◌};
ghost use Rattle.xn_model.specs.Types.{Types};
ghost use Rattle.xn_model.specs.Lives.{StoreState};
ghost use Rattle.xn_model.specs.Results.{Gives, GivesExactly, Lends};
ghost use Rattle.std.specs.Option.{option_copied};
ghost use Rattle.xn_model.specs.Calls.{init_of, propose_of, make_root_of, forget_of, read_of, root_of, kind_of, pending_of, floor_of};
ghost use Rattle.xn_model.specs.PendingIn.{newest_entry_of, pending_in_of};
ghost use Rattle.xn_model.specs.Rules.{IsConsistent};
ghost use Rattle.templates.specs.Tables.{TellsTemplate};
ghost use Rattle.xn_state.specs.States.{own_types};

use crate::state::State;
use edit_list::{Edit, EditId, Fs};
use store_types::{BLOCK_LEN, Refusal};
use templates::Template;

/// A store, as a library sees it that keeps files in it. Every call keeps its types and its rules, and changes nothing but its lives and
/// the next entry number; a refusal changes nothing.
pub trait Store {
    /// The meaning of its types.
    ghost types_of: { Self → Types };

    /// The lives of its blocks, and the next entry number.
    ghost state_of: { Self → StoreState };

    /// The store with these lives and this number, and all else as it is.
    ghost with_state: { Self → StoreState → Self };

    /// Starts a life with these bytes on the lowest free block. Refused are, in this order, a type that is block 0's or a template's, or that
    /// isn't installed (`BadType`), 4,096 pending entries of the file system (`TooManyPending`), no number left (`Exhausted`), a byte past the
    /// size that is not zero (`SizeWrong`), bytes that point to a block (`ClaimWrong`), no free block (`NoSpace`), last `NoMemory`.
    fn init(&mut self, fs: Fs, ty: u32, bytes: &[u8; BLOCK_LEN]) -> Result<(u32, EditId), Refusal>
        ensures state { Gives (init_of (types_of self.old) (state_of self.old) fs.number ty bytes.now) (state_of self.old) (state_of self.new) result }
        ensures rest { self.new ≡ with_state self.old (state_of self.new) }
        ensures types { types_of self.new ≡ types_of self.old }
        ensures rules { IsConsistent (types_of self.new) (state_of self.new) };

    /// Edits a block of the file system: its patches are written into the newest bytes, and the blocks that it points to
    /// change exactly as the edit claims. Refused are, in this order, a block past the end of the disk (`NoSuchBlock`), a
    /// free or dropped one (`NotInUse`), one of another file system or of nobody (`NotYours`); too many pending entries
    /// (`TooManyPending`); no number left (`Exhausted`); an edit past the limits (`BadPatch`); an entry to come after that
    /// was never given (`BadAfter`); an added block that is not fresh, of that type and file system, or is named twice
    /// (`NotFresh`); one that is the block itself, or the fresh block at which its chain of owners ends (`Cycle`); a dropped
    /// block that this one does not own, or that is named twice (`NotOwned`), or that points to others (`NotEmpty`); a change
    /// of what the block points to that is not as claimed, or points somewhere twice (`ClaimWrong`); a byte past the size
    /// that is not zero (`SizeWrong`); last `NoMemory`. A refusal uses no number. An added block may own others, and comes with them.
    fn propose(&mut self, fs: Fs, block: u32, edit: &Edit) -> Result<EditId, Refusal>
        ensures state { Gives (propose_of (types_of self.old) (state_of self.old) fs.number block edit.now) (state_of self.old) (state_of self.new) result }
        ensures rest { self.new ≡ with_state self.old (state_of self.new) }
        ensures types { types_of self.new ≡ types_of self.old }
        ensures rules { IsConsistent (types_of self.new) (state_of self.new) };

    /// Sets the file system's root slot, in block 0, to a fresh block, which comes with all that it owns. Refused are, in this
    /// order, a block past the end of the disk (`NoSuchBlock`), a free or dropped one (`NotInUse`), one of another file system or
    /// of nobody (`NotYours`); a slot that is not empty (`RootTaken`), a block that has had an owner (`NotFresh`), too many
    /// pending entries (`TooManyPending`), no number left (`Exhausted`), last `NoMemory`.
    fn make_root(&mut self, fs: Fs, block: u32) -> Result<EditId, Refusal>
        ensures state { Gives (make_root_of (state_of self.old) fs.number block) (state_of self.old) (state_of self.new) result }
        ensures rest { self.new ≡ with_state self.old (state_of self.new) }
        ensures types { types_of self.new ≡ types_of self.old }
        ensures rules { IsConsistent (types_of self.new) (state_of self.new) };

    /// Ends the life of a block that no owner has ever named: the block is free, and its init, where that is still pending, counts
    /// no longer. It takes no memory. Refused are, in this order, a block past the end of the disk (`NoSuchBlock`), a free or dropped
    /// one (`NotInUse`), one of another file system or of nobody (`NotYours`), one that has had an owner (`NotFresh`), one that points
    /// to another (`NotEmpty`), one with another entry pending than its init (`TooManyPending`), and one whose write is under way
    /// (`InFlight`).
    fn forget(&mut self, fs: Fs, block: u32) -> Result<(), Refusal>
        ensures state { GivesExactly (forget_of (types_of self.old) (state_of self.old) fs.number block) (state_of self.old) (state_of self.new) result }
        ensures rest { self.new ≡ with_state self.old (state_of self.new) }
        ensures types { types_of self.new ≡ types_of self.old }
        ensures rules { IsConsistent (types_of self.new) (state_of self.new) };

    /// What it knows of blocks and types, to be asked.
    fn state(&self) -> &State
        ensures state { result.now ≡ state_of self.now }
        ensures types { own_types result.now ≡ types_of self.now };

    /// The current bytes of a block of the file system: those of its newest pending entry, or where none is pending the durable
    /// ones. Refused are, in this order, a block past the end of the disk (`NoSuchBlock`), a free or dropped one (`NotInUse`), and
    /// one of another file system or of nobody (`NotYours`).
    fn read(&self, fs: Fs, block: u32) -> Result<&[u8; BLOCK_LEN], Refusal>
        ensures bytes { Lends (read_of (state_of self.now) fs.number block) result }
        ensures rules { IsConsistent (types_of self.now) (state_of self.now) }
    {
        let state = self.state();
        state.keeps_rules();
        state.read(fs, block)
    }

    /// The block in the file system's root slot, as block 0's newest state has it; `None` where the slot is empty.
    fn root(&self, fs: Fs) -> Option<u32>
        ensures block { result ≡ root_of (state_of self.now) fs.number }
        ensures rules { IsConsistent (types_of self.now) (state_of self.now) }
    {
        let state = self.state();
        state.keeps_rules();
        state.root(fs)
    }

    /// The template of a type, or `None` where the type is not installed.
    fn template(&self, ty: u32) -> Option<&Template>
        ensures template { TellsTemplate (types_of self.now) ty (option_copied result) }
        ensures rules { IsConsistent (types_of self.now) (state_of self.now) }
    {
        let state = self.state();
        state.keeps_rules();
        state.template(ty)
    }

    /// How many pending entries of all blocks count for the file system.
    fn pending(&self, fs: Fs) -> u32
        ensures pending { result ≡ pending_of (state_of self.now) fs.number }
        ensures rules { IsConsistent (types_of self.now) (state_of self.now) }
    {
        let state = self.state();
        state.keeps_rules();
        state.pending(fs)
    }

    /// How many entries of a block are pending, those that a begun write carries included; 0 where it is free, or past the end of the disk.
    fn pending_in(&self, block: u32) -> u32
        ensures pending { result ≡ pending_in_of (state_of self.now) block }
        ensures rules { IsConsistent (types_of self.now) (state_of self.now) }
    {
        let state = self.state();
        state.keeps_rules();
        state.pending_in(block)
    }

    /// The number of the newest pending entry of a block, `None` where nothing is pending there. Entries of a block are durable in order: an
    /// edit that comes after this one stands behind all of the block as it is now.
    fn newest_entry(&self, block: u32) -> Option<EditId>
        ensures entry { result ≡ newest_entry_of (state_of self.now) block }
        ensures rules { IsConsistent (types_of self.now) (state_of self.now) }
    {
        let state = self.state();
        state.keeps_rules();
        state.newest_entry(block)
    }

    /// The least pending entry of the file system, or the next number to be given: all entries of it below are durable, or of lives that
    /// have ended.
    fn floor(&self, fs: Fs) -> u64
        ensures floor { result ≡ floor_of (state_of self.now) fs.number }
        ensures rules { IsConsistent (types_of self.now) (state_of self.now) }
    {
        let state = self.state();
        state.keeps_rules();
        state.floor(fs)
    }

    /// The type of a block of the file system, with the refusals of `read`.
    fn kind(&self, fs: Fs, block: u32) -> Result<u32, Refusal>
        ensures kind { result ≡ kind_of (state_of self.now) fs.number block }
        ensures rules { IsConsistent (types_of self.now) (state_of self.now) }
    {
        let state = self.state();
        state.keeps_rules();
        state.kind(fs, block)
    }
}
