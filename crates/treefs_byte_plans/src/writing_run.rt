// How a run of missing leaves is carried out.

ghost use Rattle.std.specs.Prelude.{◌≡◌, ◌+◌, ◌-◌, ◌*◌, ◌^◌, ◌<◌, ◌≤◌, ◌∷◌, ◌++◌, [], length, IfOk};
ghost use Rattle.xn_model.specs.BareDisks.{zeros};
ghost use Rattle.treefs_byte_plans.specs.Runs.{IsRun, attach_acts, holder_acts, leaf_of, leaf_starts, own_act, run_acts_of, run_path, run_plan, run_waits};

use crate::fields::{push_raise, size_patch};
use crate::run_plan::RunPlan;
use arrayvec::ArrayVec;
use std::alloc::{AllocError, Global};
use store_types::BLOCK_LEN;
use treefs_edits::fronts::{behind, front};
use treefs_edits::missing::missing_path;
use treefs_edits::nodes::{last_or_owner, push_node_acts, push_node_starts};
use treefs_edits::{Act, Planned, Start, kinds};
use treefs_format::sizes::LEAF_LEN;
use treefs_format::types::LEAF_TYPE;
use treefs_lookup::pointer_offset;

/// How many pointers to leaves stand in an inode.
const OWN_LEAVES: u32 = 16;

/// How many pointers an edit sets at most.
const POINTERS: u32 = 16;

/// A run of missing leaves, with its bytes.
#[derive(Clone, Copy)]
pub struct WritingRun<'a> {
    /// What it takes.
    pub plan: RunPlan,
    /// The bytes, and perhaps more behind them.
    pub bytes: &'a [u8],
    ghost is: { IsRun plan },
}

/// Copies bytes into a leaf from a place on, which was all zeros.
fn copy_to(leaf: &mut [u8; BLOCK_LEN], place: usize, bytes: &[u8])
    requires fits { place + length bytes.now ≤ 512 }
    requires blank { leaf.old ≡ zeros 512 }
    ensures { leaf.new ≡ leaf_of place bytes.now }
{
    leaf[place..place + bytes.len()].copy_from_slice(bytes);
}

/// Adds a leaf with some bytes from a place on, and zeros. The bytes are copied to where the leaf stands then, so that no leaf is moved.
fn push_leaf_start(starts: &mut Vec<Start>, place: usize, bytes: &[u8]) -> Result<(), AllocError>
    requires { place + length bytes.now ≤ 512 }
    ensures { IfOk result (λ _. starts.new.items ≡ starts.old.items ++ record { ty = 2; bytes = leaf_of place bytes.now } ∷ []) }
{
    starts.push(Start {
        ty: u32::from(LEAF_TYPE),
        bytes: [0; BLOCK_LEN],
    })?;
    if let Some(start) = starts.last_mut() {
        copy_to(&mut start.bytes, place, bytes);
    }
    Ok(())
}

/// Adds so many leaves of some bytes, of which the first stands at a place of the first leaf.
fn push_leaf_starts(
    starts: &mut Vec<Start>,
    count: u32,
    place: usize,
    bytes: &[u8],
) -> Result<(), AllocError>
    requires { place ≤ 512 }
    ensures { IfOk result (λ _. starts.new.items ≡ starts.old.items ++ leaf_starts count place bytes.now) }
{
    let mut left = count;
    let mut place = place;
    let mut rest = bytes;
    while left > 0 {
        push_leaf_start(starts, place, front(rest, BLOCK_LEN - place))?;
        rest = behind(rest, BLOCK_LEN - place);
        place = 0;
        left -= 1;
    }
    Ok(())
}

/// Adds so many edits that attach leaves, each up to 16, from an offset of a block on.
fn push_attach_acts(
    alloc: Global,
    acts: &mut Vec<Act>,
    edits: u32,
    holder: u32,
    offset: u16,
    leaves: &[u32],
) -> Result<(), AllocError>
    requires { offset + 64 * edits < 2 ^ 16 }
    ensures { IfOk result (λ _. acts.new.items ≡ acts.old.items ++ attach_acts edits holder offset leaves.now) }
{
    let mut left = edits;
    let mut offset = offset;
    let mut rest = leaves;
    while left > 0 {
        let some = front(rest, POINTERS as usize);
        acts.push(kinds::attach(alloc, holder, offset, u32::from(LEAF_TYPE), some, None)?)?;
        rest = behind(rest, POINTERS as usize);
        offset += 64;
        left -= 1;
    }
    Ok(())
}

impl RunPlan {
    /// The edit that attaches leaves to the inode itself, and raises the size too.
    fn own_act(
        &self,
        alloc: Global,
        holder: u32,
        offset: u16,
        leaves: &[u32],
    ) -> Result<Act, AllocError>
        ensures { IfOk result (λ act. act ≡ own_act self.now holder offset leaves.now) }
    {
        let ty = u32::from(LEAF_TYPE);
        let act = kinds::attach(alloc, holder, offset, ty, leaves, None)?;
        match self.size {
            Some(size) => act.with_patch(size_patch(alloc, size, self.times)?),
            None => Ok(act),
        }
    }

    /// Adds the wait of the inode for the block with the pointers, where there is one.
    fn push_wait(&self, alloc: Global, acts: &mut Vec<Act>, holder: u32) -> Result<(), AllocError>
        ensures { IfOk result (λ _. acts.new.items ≡ acts.old.items ++ run_waits self.now holder) }
    {
        if self.waits {
            acts.push(kinds::wait(alloc, self.inode, self.first, holder)?)?;
        }
        Ok(())
    }

    /// Adds the acts by which leaves are attached, and the size rises.
    fn push_holder_acts(
        &self,
        alloc: Global,
        acts: &mut Vec<Act>,
        holder: u32,
        offset: u16,
        leaves: &[u32],
    ) -> Result<(), AllocError>
        requires few { self.now.count ≤ 127 }
        requires within { offset ≤ 512 }
        ensures { IfOk result (λ _. acts.new.items ≡ acts.old.items ++ holder_acts self.now holder offset leaves.now) }
    {
        if self.leaf < OWN_LEAVES {
            acts.push(self.own_act(alloc, holder, offset, leaves)?)?;
            return Ok(());
        }
        let edits = self.count.div_ceil(POINTERS);
        push_attach_acts(alloc, acts, edits, holder, offset, leaves)?;
        push_raise(alloc, acts, self.inode, self.size, self.times, holder)?;
        self.push_wait(alloc, acts, holder)
    }

    /// Adds the acts, where these nodes and leaves were begun.
    fn push_acts(
        &self,
        alloc: Global,
        acts: &mut Vec<Act>,
        nodes: &[u32],
        leaves: &[u32],
    ) -> Result<(), AllocError>
        requires { IsRun self.now }
        ensures { IfOk result (λ _. acts.new.items ≡ acts.old.items ++ run_acts_of self.now nodes.now leaves.now) }
    {
        let offsets = missing_path(self.leaf, self.missing);
        let count = self.missing.saturating_sub(1);
        let holder = last_or_owner(self.owner, nodes);
        push_node_acts(
            alloc,
            acts,
            self.node_type,
            LEAF_TYPE,
            self.owner,
            front(offsets.as_slice(), count),
            nodes,
        )?;
        let offset = pointer_offset(self.leaf);
        self.push_holder_acts(alloc, acts, holder, offset, leaves)
    }
}

impl<'a> Planned for WritingRun<'a> {
    ghost plan = { λ writing. run_plan writing.bytes.now writing.plan };

    fn push_starts(&self, starts: &mut Vec<Start>) -> Result<(), AllocError> {
        let plan = &self.plan;
        let offsets = missing_path(plan.leaf, plan.missing);
        let nodes = front(offsets.as_slice(), plan.missing.saturating_sub(1));
        starts.reserve_exact(nodes.len() + plan.count as usize)?;
        push_node_starts(starts, plan.node_type, LEAF_TYPE, nodes)?;
        let place = (plan.at % LEAF_LEN) as usize;
        push_leaf_starts(starts, plan.count, place, self.bytes)
    }

    fn push_acts(
        &self,
        alloc: Global,
        acts: &mut Vec<Act>,
        begun: &[u32],
    ) -> Result<(), AllocError> {
        let plan = &self.plan;
        let offsets = missing_path(plan.leaf, plan.missing);
        let nodes = front(offsets.as_slice(), plan.missing.saturating_sub(1)).len();
        plan.push_acts(alloc, acts, front(begun, nodes), behind(begun, nodes))
    }
}
