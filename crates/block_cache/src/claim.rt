// What an entry says beside the bytes that it leaves.

ghost use Rattle.std.specs.Prelude.{◌≡◌, ◌≤◌, ◌&&◌, ◌==◌, length, is_none, IfOk};
ghost use Rattle.xn_model.specs.Lives.{is_for};
ghost use Rattle.block_cache.specs.Claims.{first_claim};
ghost use Rattle.block_cache.specs.Rest.{rest_adds, rest_drops, rest_after};
ghost use Rattle.block_cache.specs.Systems.{system_of};

use edit_list::{EditId, Fs};
use smallvec::SmallVec;
use std::alloc::{AllocError, Global};
use std::marker::Model;

/// What an entry says beside its number and its file system.
#[derive(Drop)]
enum Rest {
    /// It adds and drops no block, and comes after no entry.
    Nothing,
    /// It adds and drops no block, and comes after this entry.
    After(EditId),
    /// Any other.
    Lists(Box<Lists>),
}

/// The blocks that an entry adds and drops, and the entry that it comes after. Few blocks stay in place.
struct Lists {
    adds: SmallVec<(u32, u32), 2>,
    drops: SmallVec<u32, 4>,
    after: Option<EditId>,
}

/// Written by hand, so that a function that drops one calls this: a derived drop is proved anew in each such function.
impl Drop for Lists {
    fn drop(self) {
        let Lists {
            adds: _,
            drops: _,
            after: _,
        } = self;
    }
}

/// What an entry says beside the bytes that it leaves: its number, the blocks that it adds, each with its type, those that
/// it drops, at most 128, the entry that it comes after, and the file system for which it counts, if it is not nobody's.
pub struct Claim {
    entry: EditId,
    fs: Option<Fs>,
    rest: Rest,
}

impl Model for Claim {
    ghost use Rattle.std.specs.Prelude.{◌≤◌, length};
    ghost use Rattle.block_cache.specs.Systems.{system_of};
    ghost use Rattle.block_cache.specs.Claims.{ClaimValue};
    ghost use Rattle.block_cache.specs.Rest.{rest_adds, rest_drops, rest_after};

    ghost Value = { ClaimValue };

    ghost view = { λ a. record {
      entry = a.entry;
      adds = rest_adds a.rest;
      drops = rest_drops a.rest;
      after = rest_after a.rest;
      fs = system_of a.fs;
    } };

    ghost invariant = { λ a. length (rest_drops a.rest) ≤ 128 };
}

/// Written by hand, so that a function that drops one calls this: a derived drop is proved anew in each such function.
impl Drop for Claim {
    fn drop(self) {
        let Claim {
            entry: _,
            fs: _,
            rest: _,
        } = self;
    }
}

impl Claim {
    /// That of the first entry of a life, which adds, drops and waits for nothing.
    pub fn first(entry: EditId, fs: Option<Fs>) -> Claim
        ensures { result ≡ first_claim entry (system_of fs) }
    {
        Claim {
            entry,
            fs,
            rest: Rest::Nothing,
        }
    }

    /// That of an edit, with copies of its lists.
    #[inline(always)]
    pub fn copied(
        alloc: Global,
        entry: EditId,
        adds: &[(u32, u32)],
        drops: &[u32],
        after: Option<EditId>,
        fs: Option<Fs>,
    ) -> Result<Claim, AllocError>
        requires { length drops.now ≤ 128 }
        ensures { IfOk result (λ claim. claim ≡ record { entry = entry; adds = adds.now; drops = drops.now; after = after; fs = system_of fs }) }
    {
        let rest = rest_of(alloc, adds, drops, after)?;
        Ok(Claim { entry, fs, rest })
    }

    /// The entry's number.
    pub fn entry(&self) -> EditId
        ensures { result ≡ self.now.entry }
    {
        self.entry
    }

    /// The blocks that it adds, each with its type.
    pub fn adds(&self) -> &[(u32, u32)]
        ensures { result.now ≡ self.now.adds }
    {
        match &self.rest {
            Rest::Nothing => &[],
            Rest::After(_) => &[],
            Rest::Lists(lists) => lists.adds.as_slice(),
        }
    }

    /// The blocks that it drops, at most 128.
    pub fn drops(&self) -> &[u32]
        ensures drops { result.now ≡ self.now.drops }
        ensures few { length self.now.drops ≤ 128 }
    {
        match &self.rest {
            Rest::Nothing => &[],
            Rest::After(_) => &[],
            Rest::Lists(lists) => lists.drops.as_slice(),
        }
    }

    /// The entry that has to be durable before it.
    pub fn after(&self) -> Option<EditId>
        ensures { result ≡ self.now.after }
    {
        match &self.rest {
            Rest::Nothing => None,
            Rest::After(entry) => Some(*entry),
            Rest::Lists(lists) => lists.after,
        }
    }

    /// Whether it adds and drops no block, and comes after no entry.
    pub fn claims_nothing(&self) -> bool
        ensures { result ≡ (length self.now.adds == 0 && (length self.now.drops == 0 && is_none self.now.after)) }
    {
        match &self.rest {
            Rest::Nothing => true,
            Rest::After(_) => false,
            Rest::Lists(lists) => {
                lists.adds.is_empty() && lists.drops.is_empty() && lists.after.is_none()
            }
        }
    }

    /// The file system for which it counts, or `None` where it is nobody's.
    pub fn fs(&self) -> Option<Fs>
        ensures { self.now.fs ≡ system_of result }
    {
        self.fs
    }

    /// Whether it counts for a file system.
    pub fn is_for(&self, fs: Fs) -> bool
        ensures { result ≡ is_for fs.number self.now.fs }
    {
        match self.fs {
            Some(system) => system.number() == fs.number(),
            None => false,
        }
    }
}

/// What an entry with these lists says, which are copied where there is any block.
#[inline(always)]
fn rest_of(
    alloc: Global,
    adds: &[(u32, u32)],
    drops: &[u32],
    after: Option<EditId>,
) -> Result<Rest, AllocError>
    ensures adds { IfOk result (λ rest. rest_adds rest ≡ adds.now) }
    ensures drops { IfOk result (λ rest. rest_drops rest ≡ drops.now) }
    ensures after { IfOk result (λ rest. rest_after rest ≡ after) }
{
    if adds.is_empty() && drops.is_empty() {
        return Ok(match after {
            None => Rest::Nothing,
            Some(entry) => Rest::After(entry),
        });
    }
    listed(alloc, adds, drops, after)
}

/// The same, with copies of the lists.
#[inline(never)]
fn listed(
    alloc: Global,
    adds: &[(u32, u32)],
    drops: &[u32],
    after: Option<EditId>,
) -> Result<Rest, AllocError>
    ensures adds { IfOk result (λ rest. rest_adds rest ≡ adds.now) }
    ensures drops { IfOk result (λ rest. rest_drops rest ≡ drops.now) }
    ensures after { IfOk result (λ rest. rest_after rest ≡ after) }
{
    let lists = Lists {
        adds: SmallVec::from_slice(alloc, adds)?,
        drops: SmallVec::from_slice(alloc, drops)?,
        after,
    };
    Ok(Rest::Lists(Box::new(alloc, lists)?))
}
