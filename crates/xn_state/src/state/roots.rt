// The root slots of file systems.

ghost use Rattle.std.specs.Prelude.{◌≡◌, ℕ, ◌<◌, ◌^◌, ◌-◌, is_some, IsTrue, IfErr, IfOk};
ghost use Rattle.xn_model.specs.Lives.{life_at};
ghost use Rattle.xn_model.specs.Results.{Gives};
ghost use Rattle.xn_model.specs.Root.{with_slot};
ghost use Rattle.xn_model.specs.Calls.{drop_root_of, life_pending, make_root_of, patched, pending_of, root_now};
ghost use Rattle.xn_model.specs.Rules.{IsConsistent};
ghost use Rattle.xn_state.specs.Plans.{make_root_plan};
ghost use Rattle.xn_state.specs.Proposals.{drop_root_plan};
ghost use Rattle.xn_state.specs.States.{own_types};

use crate::root::slot_undo;
use crate::state::State;
use crate::state::accept::Claims;
use block_cache::NewBytes;
use edit_list::{EditId, Fs, Undo};
use store_types::{BLOCK_LEN, Refusal};
use templates::{root_slot, with_root_slot};
use udf_run::Pair;

impl State {
    /// Block 0's bytes with the root slot set to a fresh block of the file system, and that block's type.
    fn make_root_plan(&self, fs: Fs, block: u32) -> Result<([u8; BLOCK_LEN], u32), Refusal>
        ensures plan { result ≡ make_root_plan self.now fs.number block }
        ensures rules { IsConsistent (own_types self.now) self.now }
        ensures alive { IfOk result (λ plan. IsTrue (is_some (life_at self.now.lives 0))) }
        ensures room { IfOk result (λ plan. life_pending (life_at self.now.lives 0) < 64) }
        ensures few { IfOk result (λ plan. pending_of self.now fs.number < 4096) }
        ensures numbers { IfOk result (λ plan. self.now.next < 2 ^ 64 - 1) }
    {
        let facts = self.lives.own(fs, block)?.facts();
        let life = self.root_block();
        let root = life.current();
        if root_slot(root, fs.index()).block != 0 {
            return Err(Refusal::RootTaken);
        }
        if !facts.is_fresh() {
            return Err(Refusal::NotFresh);
        }
        if self.is_too_many(fs, life.facts().pending) {
            return Err(Refusal::TooManyPending);
        }
        if self.next == u64::MAX {
            return Err(Refusal::Exhausted);
        }
        let ty = facts.ty;
        Ok((with_root_slot(root, fs.index(), Pair { block, ty }), ty))
    }

    /// Sets the file system's root slot, in block 0, to a fresh block, which comes with all that it owns. Refused are, in this
    /// order, a block past the end of the disk (`NoSuchBlock`), a free or dropped one (`NotInUse`), one of another file system or
    /// of nobody (`NotYours`); a slot that is not empty (`RootTaken`), a block that has had an owner (`NotFresh`), too many
    /// pending entries (`TooManyPending`), no number left (`Exhausted`), last `NoMemory`. A refusal changes nothing.
    pub fn make_root(&mut self, fs: Fs, block: u32) -> Result<EditId, Refusal>
        ensures state { Gives (make_root_of self.old fs.number block) self.old self.new result }
    {
        let (bytes, ty) = self.make_root_plan(fs, block)?;
        let undo = self.slot_undo(fs)?;
        let claims = Claims {
            adds: &[(block, ty)],
            drops: &[],
            after: None,
        };
        self.accept(fs, 0, NewBytes::Whole(&bytes), None, undo, claims)
    }

    /// Block 0's bytes with the file system's root slot empty, and the block that stands there.
    fn drop_root_plan(&self, fs: Fs) -> Result<([u8; BLOCK_LEN], u32), Refusal>
        ensures plan { result ≡ drop_root_plan (own_types self.now) self.now fs.number }
        ensures rules { IsConsistent (own_types self.now) self.now }
        ensures alive { IfOk result (λ plan. IsTrue (is_some (life_at self.now.lives 0))) }
        ensures room { IfOk result (λ plan. life_pending (life_at self.now.lives 0) < 64) }
        ensures few { IfOk result (λ plan. pending_of self.now fs.number < 4096) }
        ensures numbers { IfOk result (λ plan. self.now.next < 2 ^ 64 - 1) }
    {
        let life = self.root_block();
        let root = life.current();
        let slot = root_slot(root, fs.index());
        if slot.block == 0 {
            return Err(Refusal::NotOwned);
        }
        if !self.is_empty(slot.block) {
            return Err(Refusal::NotEmpty);
        }
        if self.is_too_many(fs, life.facts().pending) {
            return Err(Refusal::TooManyPending);
        }
        if self.next == u64::MAX {
            return Err(Refusal::Exhausted);
        }
        let none = Pair { block: 0, ty: 0 };
        Ok((with_root_slot(root, fs.index(), none), slot.block))
    }

    /// Empties the file system's root slot, in block 0: the block that stood there is dropped. Refused are, in this order, an
    /// empty slot (`NotOwned`), a block that points to others (`NotEmpty`), too many pending entries (`TooManyPending`), no
    /// number left (`Exhausted`), last `NoMemory`. A refusal changes nothing.
    pub fn drop_root(&mut self, fs: Fs) -> Result<EditId, Refusal>
        ensures state { Gives (drop_root_of (own_types self.old) self.old fs.number) self.old self.new result }
    {
        let (bytes, block) = self.drop_root_plan(fs)?;
        let undo = self.slot_undo(fs)?;
        let claims = Claims {
            adds: &[],
            drops: &[block],
            after: None,
        };
        self.accept(fs, 0, NewBytes::Whole(&bytes), None, undo, claims)
    }

    /// What undoes a change of the file system's root slot, in block 0.
    fn slot_undo(&self, fs: Fs) -> Result<Undo, Refusal>
        ensures ok { IfOk result (λ undo. (root : ℕ × ℕ) → patched (with_slot (root_now self.now) fs.number root) undo ≡ root_now self.now) }
        ensures err { IfErr result (λ refusal. refusal ≡ Refusal.NoMemory) }
    {
        let root = self.root_block().current();
        match slot_undo(self.alloc, root, fs) {
            Ok(undo) => Ok(undo),
            Err(_) => Err(Refusal::NoMemory),
        }
    }
}
