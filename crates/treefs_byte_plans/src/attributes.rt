// Attributes of an inode are set.

ghost use Rattle.std.specs.Prelude.{◌≡◌, ◌∷◌, ◌++◌, [], IfOk, map};
ghost use Rattle.treefs_byte_plans.specs.Attributes.{attributes_act, attributes_planned, mode_parts, owner_parts, set_times};
ghost use Rattle.treefs_format.specs.Fields.{changes_patch};

use crate::patches::{patch_act, push_changes, push_times};
use edit_list::Patch;
use std::alloc::{AllocError, Global};
use treefs_edits::{Act, ActsAlone, Memory, Times, Tree, has_room};
use treefs_format::{Change, Fields};
use treefs_lookup::find_inode;
use treefs_model::Fault;
use xn_state::Store;

/// The user and the group of an inode.
#[derive(Clone, Copy, Debug)]
pub struct Owner {
    pub uid: u32,
    pub gid: u32,
}

/// What of an inode a call sets.
#[derive(Clone, Copy, Debug)]
pub struct Attributes {
    /// The permissions: of a number its lowest 12 bits.
    pub permissions: Option<u16>,
    /// The user and the group.
    pub owner: Option<Owner>,
    /// When the content changed, in nanoseconds since 1970.
    pub mtime: Option<i64>,
}

/// Attributes of an inode are set, by one edit.
#[derive(Clone, Copy)]
pub struct AttributesPlan {
    /// The inode's block.
    pub block: u32,
    /// Its mode from then on, where that changes.
    pub mode: Option<u16>,
    /// Its user and group from then on, where they change.
    pub owner: Option<Owner>,
    /// Its times from then on.
    pub times: Times,
}

impl ActsAlone for AttributesPlan {
    ghost acts_of = { λ p. attributes_act p ∷ [] };

    fn push_alone(&self, alloc: Global, acts: &mut Vec<Act>) -> Result<(), AllocError> {
        let mut patches = Vec::new(alloc);
        self.push_patches(alloc, &mut patches)?;
        acts.push(patch_act(alloc, self.block, patches, None))?;
        Ok(())
    }
}

impl AttributesPlan {
    /// Adds the patches.
    fn push_patches(&self, alloc: Global, patches: &mut Vec<Patch>) -> Result<(), AllocError>
        ensures { IfOk result (λ _. patches.new.items ≡ patches.old.items ++ (attributes_act self.now).edit.patches) }
    {
        push_mode(alloc, patches, self.mode)?;
        push_owner(alloc, patches, self.owner)?;
        push_times(alloc, patches, self.times)
    }
}

/// Adds the patch of a mode, if one is told.
fn push_mode(alloc: Global, patches: &mut Vec<Patch>, mode: Option<u16>) -> Result<(), AllocError>
    ensures { IfOk result (λ _. patches.new.items ≡ patches.old.items ++ map changes_patch (mode_parts mode)) }
{
    match mode {
        Some(mode) => push_changes(alloc, patches, &[Change::Mode(mode)]),
        None => Ok(()),
    }
}

/// Adds the patch of an owner, if one is told.
fn push_owner(
    alloc: Global,
    patches: &mut Vec<Patch>,
    owner: Option<Owner>,
) -> Result<(), AllocError>
    ensures { IfOk result (λ _. patches.new.items ≡ patches.old.items ++ map changes_patch (owner_parts owner)) }
{
    match owner {
        Some(owner) => push_changes(
            alloc,
            patches,
            &[Change::Uid(owner.uid), Change::Gid(owner.gid)],
        ),
        None => Ok(()),
    }
}

/// The times of an inode that changes itself now, and whose content changed when a call says.
fn set_times(memory: &Memory, number: u32, fields: &Fields, mtime: Option<i64>) -> Times
    ensures { result ≡ set_times memory.now number fields.now mtime }
{
    match mtime {
        Some(mtime) => Times {
            mtime,
            ctime: memory.clock,
        },
        None => {
            let times = Times {
                mtime: fields.mtime,
                ctime: fields.ctime,
            };
            memory.newest_times(number, times)
        }
    }
}

/// What it takes to set attributes of an inode. The faults are `NoEntry`, and `Full` where there is no room.
pub fn plan_attributes<S: Store>(
    store: &S,
    tree: Tree,
    memory: &Memory,
    number: u32,
    attributes: Attributes,
) -> Result<AttributesPlan, Fault>
    ensures { result ≡ attributes_planned (S.state_of store.now) tree memory.now number attributes }
{
    let found = find_inode(store, tree.fs, tree.top, number)?;
    if !has_room(store, tree.fs, memory.touched.len(), 1, &[(found.block, 1)]) {
        return Err(Fault::Full);
    }
    Ok(AttributesPlan {
        block: found.block,
        mode: attributes
            .permissions
            .map(|permissions| found.kind.mode(permissions % 4096)),
        owner: attributes.owner,
        times: set_times(memory, number, &found.fields, attributes.mtime),
    })
}
