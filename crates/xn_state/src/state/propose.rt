// A file system edits one of its blocks.

ghost use Rattle.std.specs.Prelude.{◌≡◌, ◌<◌, ◌≤◌, ◌&&◌, ◌^◌, ◌-◌, [], length, is_some, IsTrue, IfErr, IfOk, IfSome, Ok, OnOk, Some};
ghost use Rattle.std.specs.List.{list_all};
ghost use Rattle.xn_model.specs.Lists.{blocks_of, distinct, has_number};
ghost use Rattle.xn_model.specs.Types.{named_once};
ghost use Rattle.xn_model.specs.Lives.{Life, chain_end, current, life_at};
ghost use Rattle.xn_model.specs.Results.{Gives, result_map};
ghost use Rattle.xn_model.specs.Calls.{is_empty, life_bytes, life_pending, may_add, may_drop, patched, pending_of, propose_of, was_given, within_limits};
ghost use Rattle.xn_model.specs.Rules.{IsConsistent};
ghost use Rattle.claims.specs.Owners.{is_claimed, owned_count};
ghost use Rattle.templates.specs.Decided.{DecidesOwned};
ghost use Rattle.templates.specs.Filled.{Inserts};
ghost use Rattle.claims.specs.Decided.{Decides, Leaves, newest_at};
ghost use Rattle.xn_state.specs.Proposals.{IsEditOf, IsLeftBy, edited_with, proposed_of};
ghost use Rattle.udf_run.specs.Safe.{IsBlock};
ghost use Rattle.xn_state.specs.States.{own_types};

use crate::state::accept::Claims;
use crate::state::{State, is_within_size};
use block_cache::{Facts, NewBytes};
use claims::{are_apart, are_blocks_distinct, are_distinct, chain_end, leaves, names, owned_pairs};
use edit_list::{Edit, EditId, Fs, Undo};
use std::alloc::Global;
use store_types::{BLOCK_LEN, DATA_TYPE, Refusal};
use udf_run::ReadSet;

/// What an edit is made of that only want of memory could still refuse: the chunks that decide what the bytes own that it leaves, where they
/// are known, and the newest bytes of its block.
struct Proposed<'a> {
    reads: Option<ReadSet>,
    old: &'a [u8; BLOCK_LEN],
}

impl State {
    /// Whether an entry of this number was given, where one is named.
    fn was_given(&self, after: Option<EditId>) -> bool
        ensures { result ≡ was_given self.now after }
    {
        match after {
            Some(entry) => 0 < entry.0 && entry.0 < self.next,
            None => true,
        }
    }

    /// Whether a block is fresh, and of this type and file system.
    fn may_add(&self, fs: Fs, add: (u32, u32)) -> bool
        ensures { result ≡ may_add self.now fs.number add }
    {
        match self.lives.cache.live(add.0) {
            Some(life) => {
                let facts = life.facts();
                facts.is_fresh() && facts.ty == add.1 && life.is_for(fs)
            }
            None => false,
        }
    }

    /// Whether a block is owned by another.
    fn may_drop(&self, owner: u32, block: u32) -> bool
        ensures { result ≡ may_drop self.now owner block }
    {
        match self.lives.cache.live(block) {
            Some(life) => life.facts().is_owned_by(owner),
            None => false,
        }
    }

    /// Whether a block is in use and points to no other.
    pub(crate) fn is_empty(&self, block: u32) -> bool
        ensures { result ≡ is_empty (own_types self.now) self.now block }
    {
        let lives = &self.lives;
        lives.cache.live(block).is_some() && lives.owned.count(block) == 0
    }

    /// Whether each of these blocks may be added.
    fn may_add_each(&self, fs: Fs, adds: &[(u32, u32)]) -> bool
        ensures { result ≡ list_all (may_add self.now fs.number) adds.now }
    {
        adds.iter().all(|add| self.may_add(fs, *add))
    }

    /// Whether each of these blocks may be added, and none stands twice.
    #[inline(always)]
    fn may_add_all(&self, fs: Fs, adds: &[(u32, u32)]) -> bool
        requires { length adds.now ≤ 128 }
        ensures { result ≡ (list_all (may_add self.now fs.number) adds.now && distinct (blocks_of adds.now)) }
    {
        adds.is_empty() || self.may_add_listed(fs, adds)
    }

    /// The same, where there are some.
    fn may_add_listed(&self, fs: Fs, adds: &[(u32, u32)]) -> bool
        requires { length adds.now ≤ 128 }
        ensures { result ≡ (list_all (may_add self.now fs.number) adds.now && distinct (blocks_of adds.now)) }
    {
        self.may_add_each(fs, adds) && are_blocks_distinct(adds)
    }

    /// Whether one of these blocks is the one at which a block's chain of owners ends.
    fn closes_cycle(&self, block: u32, adds: &[(u32, u32)]) -> bool
        ensures { result ≡ has_number (blocks_of adds.now) (chain_end self.now.lives block) }
    {
        !adds.is_empty() && names(adds, chain_end(&self.lives.cache, block))
    }

    /// Whether each of these blocks may be dropped.
    fn may_drop_each(&self, owner: u32, drops: &[u32]) -> bool
        ensures { result ≡ list_all (may_drop self.now owner) drops.now }
    {
        drops.iter().all(|block| self.may_drop(owner, *block))
    }

    /// Whether each of these blocks may be dropped, and none stands twice.
    #[inline(always)]
    fn may_drop_all(&self, owner: u32, drops: &[u32]) -> bool
        ensures { result ≡ (list_all (may_drop self.now owner) drops.now && distinct drops.now) }
    {
        drops.is_empty() || self.may_drop_listed(owner, drops)
    }

    /// The same, where there are some.
    fn may_drop_listed(&self, owner: u32, drops: &[u32]) -> bool
        ensures { result ≡ (list_all (may_drop self.now owner) drops.now && distinct drops.now) }
    {
        self.may_drop_each(owner, drops) && are_distinct(drops)
    }

    /// Whether each of these blocks is in use and points to no other.
    #[inline(always)]
    fn are_empty(&self, blocks: &[u32]) -> bool
        ensures { result ≡ list_all (is_empty (own_types self.now) self.now) blocks.now }
    {
        blocks.is_empty() || self.are_each_empty(blocks)
    }

    /// The same, where there are some.
    fn are_each_empty(&self, blocks: &[u32]) -> bool
        ensures { result ≡ list_all (is_empty (own_types self.now) self.now) blocks.now }
    {
        blocks.iter().all(|block| self.is_empty(*block))
    }

    /// The chunks that decide what a block owns, where an edit writes into none of them, and adds and drops nothing.
    fn kept_reads(&self, block: u32, edit: &Edit) -> Option<ReadSet>
        requires limits { IsTrue (within_limits edit.now) }
        ensures decides { (l : Life) → life_at self.now.lives block ≡ Some l →
            IfSome result (λ reads. DecidesOwned (own_types self.now) l.ty (current l) reads.chunks) }
        ensures leaves { IfSome result (λ reads. Leaves reads.chunks edit.now) }
        ensures rules { IsConsistent (own_types self.now) self.now }
    {
        let reads = self.reads.item(block as usize)?;
        if leaves(reads, edit) {
            Some(reads)
        } else {
            None
        }
    }

    /// The chunks that decide what a block owns that an edit leaves, where its first patch puts just the blocks that it adds into slots that named none, the
    /// others write into none of those chunks, and it drops nothing. It takes no run, and no look at the block's other pointers.
    fn filled(&self, ty: u32, old: &[u8; BLOCK_LEN], edit: &Edit) -> Option<ReadSet>
        requires limits { IsTrue (within_limits edit.now) }
        ensures no_drops { IfSome result (λ reads. edit.now.drops ≡ []) }
        ensures inserts { IfSome result (λ reads. Inserts (own_types self.now) ty old.now edit.now.adds (patched old.now edit.now.patches)) }
        ensures reads { IfSome result (λ reads. DecidesOwned (own_types self.now) ty (patched old.now edit.now.patches) reads.chunks) }
    {
        if edit.adds().is_empty() || !edit.drops().is_empty() {
            return None;
        }
        let [first, others @ ..] = edit.patches.as_slice() else {
            return None;
        };
        are_bytes(old, edit);
        let at = usize::from(first.offset);
        let reads = self.types().filled(ty, old, at, &first.bytes, edit.adds())?;
        if are_apart(reads, others) {
            Some(reads)
        } else {
            None
        }
    }

    /// The chunks that decide what a block of these bytes owns, where that has changed exactly as an edit claims, and each block
    /// is named once. It takes a run only where the edit claims something or writes into a chunk that decides it, or where these chunks are not known.
    fn claimed(&self, block: u32, ty: u32, new: &[u8; BLOCK_LEN], edit: &Edit) -> Option<ReadSet>
        requires alive { IsTrue (is_some (life_at self.now.lives block)) }
        requires installed { IsTrue ((own_types self.now).installed ty) }
        requires newest { (l : Life) → life_at self.now.lives block ≡ Some l → (l.ty ≡ ty) × (patched (current l) edit.now.patches ≡ new.now) ×
            (length (current l) ≡ 512) }
        requires limits { IsTrue (within_limits edit.now) }
        ensures claimed { is_some result ≡
            (is_claimed self.now.lives block (owned_count self.now.lives block) ((own_types self.now).owned ty new.now) edit.now.adds edit.now.drops
            && named_once (own_types self.now) ty new.now) }
        ensures reads { IfSome result (λ reads. DecidesOwned (own_types self.now) ty new.now reads.chunks) }
    {
        if let Some(reads) = self.kept_reads(block, edit) {
            return Some(reads);
        }
        let (pairs, reads) = owned_pairs(self.types(), ty, new);
        let pairs = pairs.as_slice();
        let is_claimed = self
            .lives
            .is_claimed(block, pairs, edit.adds(), edit.drops());
        if is_claimed && are_blocks_distinct(pairs) {
            Some(reads)
        } else {
            None
        }
    }

    /// The chunks that decide what a block owns that an edit leaves, or the first of the last two refusals that applies. A block of data may
    /// have any bytes and owns nothing, so an edit of it that claims nothing takes no look at them, and the chunks stay unknown.
    #[inline(always)]
    fn left_by(
        &self,
        block: u32,
        ty: u32,
        old: &[u8; BLOCK_LEN],
        edit: &Edit,
    ) -> Result<Option<ReadSet>, Refusal>
        requires { IsEditOf (own_types self.now) self.now block ty old.now edit.now }
        ensures { IsLeftBy (own_types self.now) self.now block edit.now ty (patched old.now edit.now.patches) result }
    {
        if ty == DATA_TYPE && edit.adds().is_empty() && edit.drops().is_empty() {
            self.keeps_rules();
            return Ok(None);
        }
        self.left_by_run(block, ty, old, edit)
    }

    /// The same, by runs of the programs. Mostly the type may use all bytes, and the edit leaves what decides which blocks this one owns, or only fills empty
    /// slots with what it adds: then no look at the new bytes is needed.
    #[inline(never)]
    fn left_by_run(
        &self,
        block: u32,
        ty: u32,
        old: &[u8; BLOCK_LEN],
        edit: &Edit,
    ) -> Result<Option<ReadSet>, Refusal>
        requires { IsEditOf (own_types self.now) self.now block ty old.now edit.now }
        ensures { IsLeftBy (own_types self.now) self.now block edit.now ty (patched old.now edit.now.patches) result }
    {
        if self.types().may_use_all(ty) {
            if let Some(reads) = self.kept_reads(block, edit) {
                are_bytes(old, edit);
                return Ok(Some(reads));
            }
            if let Some(reads) = self.filled(ty, old, edit) {
                return Ok(Some(reads));
            }
        }
        self.left_by_copy(block, ty, old, edit)
    }

    /// The same, by a copy of the newest bytes that is edited.
    fn left_by_copy(
        &self,
        block: u32,
        ty: u32,
        old: &[u8; BLOCK_LEN],
        edit: &Edit,
    ) -> Result<Option<ReadSet>, Refusal>
        requires { IsEditOf (own_types self.now) self.now block ty old.now edit.now }
        ensures { IsLeftBy (own_types self.now) self.now block edit.now ty (patched old.now edit.now.patches) result }
    {
        let mut bytes = *old;
        edit.apply(&mut bytes);
        let Some(reads) = self.claimed(block, ty, &bytes, edit) else {
            return Err(Refusal::ClaimWrong);
        };
        if !is_within_size(self.types(), ty, &bytes) {
            return Err(Refusal::SizeWrong);
        }
        Ok(Some(reads))
    }

    /// The chunks that decide what a block with these bytes owns once it is edited, or the first refusal that applies.
    fn edited(
        &self,
        fs: Fs,
        block: u32,
        facts: Facts,
        old: &[u8; BLOCK_LEN],
        edit: &Edit,
    ) -> Result<Option<ReadSet>, Refusal>
        requires alive { IsTrue (is_some (life_at self.now.lives block)) }
        requires installed { IsTrue ((own_types self.now).installed facts.ty) }
        requires newest { newest_at self.now.lives block ≡ Some (facts.ty, old.now) }
        ensures plan { result_map (λ reads. patched old.now edit.now.patches) result ≡
            edited_with (own_types self.now) self.now fs.number block edit.now facts old.now }
        ensures reads { IfOk result (λ reads. IfSome reads (λ set. DecidesOwned (own_types self.now) facts.ty (patched old.now edit.now.patches) set.chunks)) }
        ensures room { OnOk result (facts.pending < 64) }
        ensures few { OnOk result (pending_of self.now fs.number < 4096) }
        ensures numbers { OnOk result (self.now.next < 2 ^ 64 - 1) }
        ensures limits { OnOk result (IsTrue (within_limits edit.now)) }
    {
        if self.is_too_many(fs, facts.pending) {
            return Err(Refusal::TooManyPending);
        }
        if self.next == u64::MAX {
            return Err(Refusal::Exhausted);
        }
        if !edit.is_within_limits() {
            return Err(Refusal::BadPatch);
        }
        if !self.was_given(edit.after()) {
            return Err(Refusal::BadAfter);
        }
        if !self.may_add_all(fs, edit.adds()) {
            return Err(Refusal::NotFresh);
        }
        if self.closes_cycle(block, edit.adds()) {
            return Err(Refusal::Cycle);
        }
        if !self.may_drop_all(block, edit.drops()) {
            return Err(Refusal::NotOwned);
        }
        if !self.are_empty(edit.drops()) {
            return Err(Refusal::NotEmpty);
        }
        self.left_by(block, facts.ty, old, edit)
    }

    /// An edit that only want of memory could still refuse, or the first refusal that applies.
    fn proposed(&self, fs: Fs, block: u32, edit: &Edit) -> Result<Proposed<'_>, Refusal>
        ensures plan { result_map (λ proposed. patched (life_bytes (life_at self.now.lives block)) edit.now.patches) result ≡
            proposed_of (own_types self.now) self.now fs.number block edit.now }
        ensures reads { IfOk result (λ proposed. Decides (own_types self.now) self.now.lives block
            (patched (life_bytes (life_at self.now.lives block)) edit.now.patches) proposed.reads) }
        ensures old { IfOk result (λ proposed. proposed.old.now ≡ life_bytes (life_at self.now.lives block)) }
        ensures rules { IsConsistent (own_types self.now) self.now }
        ensures alive { OnOk result (IsTrue (is_some (life_at self.now.lives block))) }
        ensures room { OnOk result (life_pending (life_at self.now.lives block) < 64) }
        ensures few { OnOk result (pending_of self.now fs.number < 4096) }
        ensures numbers { OnOk result (self.now.next < 2 ^ 64 - 1) }
        ensures limits { OnOk result (IsTrue (within_limits edit.now)) }
    {
        let life = self.lives.own(fs, block)?;
        let old = life.current();
        let reads = self.edited(fs, block, life.facts(), old, edit)?;
        Ok(Proposed { reads, old })
    }

    /// Edits a block of the file system: its patches are written into the newest bytes, and the blocks that it points to
    /// change exactly as the edit claims. Refused are, in this order, a block past the end of the disk (`NoSuchBlock`), a
    /// free or dropped one (`NotInUse`), one of another file system or of nobody (`NotYours`); too many pending entries
    /// (`TooManyPending`); no number left (`Exhausted`); an edit past the limits (`BadPatch`); an entry to come after that
    /// was never given (`BadAfter`); an added block that is not fresh, of that type and file system, or is named twice
    /// (`NotFresh`); one that is the block itself, or the fresh block at which its chain of owners ends (`Cycle`); a dropped
    /// block that this one does not own, or that is named twice (`NotOwned`), or that points to others (`NotEmpty`); a change
    /// of what the block points to that is not as claimed, or points somewhere twice (`ClaimWrong`); a byte past the size
    /// that is not zero (`SizeWrong`); last `NoMemory`. A refusal changes nothing and uses no number. An added block may own
    /// others, and comes with them.
    pub fn propose(&mut self, fs: Fs, block: u32, edit: &Edit) -> Result<EditId, Refusal>
        ensures state { Gives (propose_of (own_types self.old) self.old fs.number block edit.now) self.old self.new result }
    {
        let Proposed { reads, old } = self.proposed(fs, block, edit)?;
        let undo = undo_of(self.alloc, old, edit)?;
        let claims = Claims {
            adds: edit.adds(),
            drops: edit.drops(),
            after: edit.after(),
        };
        self.accept(fs, block, NewBytes::Patched(edit), reads, undo, claims)
    }
}

/// What undoes an edit of a block with these newest bytes.
fn undo_of(alloc: Global, old: &[u8; BLOCK_LEN], edit: &Edit) -> Result<Undo, Refusal>
    requires { IsTrue (within_limits edit.now) }
    ensures ok { IfOk result (λ undo. patched (patched old.now edit.now.patches) undo ≡ old.now) }
    ensures err { IfErr result (λ refusal. refusal ≡ Refusal.NoMemory) }
{
    match edit.undo_of(alloc, old) {
        Ok(undo) => Ok(undo),
        Err(_) => Err(Refusal::NoMemory),
    }
}

/// What an edit leaves of a block are bytes. A caller learns only that, so the compiler leaves the copy out.
fn are_bytes(old: &[u8; BLOCK_LEN], edit: &Edit)
    requires { IsTrue (within_limits edit.now) }
    ensures { IsBlock (patched old.now edit.now.patches) }
{
    let mut left = *old;
    edit.apply(&mut left);
    is_block(&left);
}

/// The bytes of a block are bytes. It does nothing.
fn is_block(bytes: &[u8; BLOCK_LEN])
    ensures { IsBlock bytes.now }
{
    let _first = bytes[0];
}
