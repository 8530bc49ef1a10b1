// How a name's move is carried out.

ghost use Rattle.std.specs.Prelude.{◌≡◌, ◌≤◌, ◌++◌, length, IfOk};
ghost use Rattle.treefs_name_plans.specs.RenamePlans.{apart_acts, both_act, moving_acts, naming_patches, rename_plan};

use crate::addition::Addition;
use crate::name_end::push_number;
use crate::naming::Naming;
use crate::rename_plan::{LinksBetween, Moving, RenamePlan};
use edit_list::{Edit, Patch};
use std::alloc::{AllocError, Global};
use treefs_edits::{Act, Planned, Start};
use treefs_format::records::append_record;

/// A name moves.
#[derive(Clone, Copy)]
pub struct Renaming<'a> {
    /// What it takes.
    pub plan: RenamePlan,
    /// The new name.
    pub name: &'a [u8],
    ghost short: { length name.now ≤ 255 },
}

impl Naming {
    /// Adds the patch that makes a name lead to an inode, where its record stands in a block that is there.
    fn push_patches(
        &self,
        alloc: Global,
        patches: &mut Vec<Patch>,
        number: u32,
        name: &[u8],
    ) -> Result<(), AllocError>
        requires { length name.now ≤ 255 }
        ensures { IfOk result (λ _. patches.new.items ≡ patches.old.items ++ naming_patches self.now (record { number = number; name = name.now })) }
    {
        let mut bytes = Vec::new(alloc);
        let offset = match self {
            Naming::Added(Addition::Made(_)) => return Ok(()),
            Naming::Added(Addition::Behind(_, offset)) => {
                append_record(&mut bytes, number, name)?;
                *offset
            }
            Naming::Added(Addition::Rewritten(old)) => {
                append_record(&mut bytes, number, name)?;
                old.offset
            }
            Naming::Replaced(end) => {
                bytes.extend_from_slice(&number.to_le_bytes())?;
                end.offset
            }
        };
        patches.push(Patch { offset, bytes })?;
        Ok(())
    }
}

impl RenamePlan {
    /// Adds the patches of the number in the old record, and of the new one.
    fn push_both(
        &self,
        alloc: Global,
        patches: &mut Vec<Patch>,
        name: &[u8],
    ) -> Result<(), AllocError>
        requires { length name.now ≤ 255 }
        ensures { IfOk result (λ _. patches.new.items ≡ patches.old.items
            ++ (both_act self.now (record { number = self.now.number; name = name.now })).edit.patches) }
    {
        let bytes = 0u32.to_le_bytes().to_vec(alloc)?;
        patches.push(Patch {
            offset: self.offset,
            bytes,
        })?;
        self.naming.push_patches(alloc, patches, self.number, name)
    }

    /// The act that takes the one name for the other.
    fn both(&self, alloc: Global, name: &[u8]) -> Result<Act, AllocError>
        requires { length name.now ≤ 255 }
        ensures { IfOk result (λ act. act ≡ both_act self.now (record { number = self.now.number; name = name.now })) }
    {
        let mut patches = Vec::with_capacity(alloc, 2)?;
        self.push_both(alloc, &mut patches, name)?;
        Ok(Act {
            block: self.block,
            edit: Edit {
                patches,
                adds: Vec::new(alloc),
                drops: Vec::new(alloc),
                after: None,
            },
            behind: Some(self.inode),
        })
    }

    /// Adds the acts by which the inode has both names for a while.
    fn push_apart(
        &self,
        alloc: Global,
        acts: &mut Vec<Act>,
        links: &LinksBetween,
        begun: &[u32],
        name: &[u8],
    ) -> Result<(), AllocError>
        requires { length name.now ≤ 255 }
        ensures { IfOk result (λ _. acts.new.items
            ≡ acts.old.items ++ apart_acts self.now links.now begun.now (record { number = self.now.number; name = name.now })) }
    {
        links.more.push_act(alloc, acts, links.behind)?;
        self.naming
            .push_acts(alloc, acts, begun, self.number, name, self.inode)?;
        let behind = Some(self.naming.block(begun));
        push_number(alloc, acts, self.block, self.offset, 0, behind)?;
        links.less.push_act(alloc, acts, self.block)
    }

    /// Adds the acts by which the one name is taken for the other.
    fn push_moving(
        &self,
        alloc: Global,
        acts: &mut Vec<Act>,
        begun: &[u32],
        name: &[u8],
    ) -> Result<(), AllocError>
        requires { length name.now ≤ 255 }
        ensures { IfOk result (λ _. acts.new.items
            ≡ acts.old.items ++ moving_acts self.now self.now.moving begun.now (record { number = self.now.number; name = name.now })) }
    {
        match &self.moving {
            Moving::Together(_) => {
                acts.push(self.both(alloc, name)?)?;
                Ok(())
            }
            Moving::Apart(links) => self.push_apart(alloc, acts, links, begun, name),
        }
    }
}

impl<'a> Planned for Renaming<'a> {
    ghost plan = { λ renaming. rename_plan renaming.name.now renaming.plan };

    fn push_starts(&self, starts: &mut Vec<Start>) -> Result<(), AllocError> {
        self.plan.naming.push_starts(starts)
    }

    fn push_acts(
        &self,
        alloc: Global,
        acts: &mut Vec<Act>,
        begun: &[u32],
    ) -> Result<(), AllocError> {
        self.plan.naming.push_rewriting(alloc, acts)?;
        self.plan.push_moving(alloc, acts, begun, self.name)?;
        self.plan.naming.push_ends(alloc, acts)
    }
}
