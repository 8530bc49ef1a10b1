// How pointers in the trees of an inode are dropped.

ghost use Rattle.std.specs.Prelude.{◌≡◌};
ghost use Rattle.treefs_byte_plans.specs.Drops.{IsDropPlanned, drop_acts, dropped};
ghost use Rattle.treefs_lookup.specs.Readable.{readable};

use crate::cuts::{POINTERS, child, next_cut};
use crate::drop_plan::DropPlan;
use arrayvec::ArrayVec;
use edit_list::Fs;
use std::alloc::{AllocError, Global};
use treefs_edits::{Act, ActsAlone, Memory, Tree, has_room, kinds};
use treefs_model::Fault;
use xn_state::Store;

impl ActsAlone for DropPlan {
    ghost acts_of = { drop_acts };

    fn push_alone(&self, alloc: Global, acts: &mut Vec<Act>) -> Result<(), AllocError> {
        let place = u16::from(self.place);
        let act = kinds::drop_blocks(
            alloc,
            self.block,
            4 + 4 * place,
            127u16.saturating_sub(place),
            self.blocks.as_slice(),
            Some(self.inode),
        )?;
        acts.push(act)?;
        Ok(())
    }
}

/// The blocks to which a node points from a place on.
fn dropped<S: Store>(store: &S, fs: Fs, block: u32, place: u32) -> ArrayVec<u32, 127>
    ensures { result.items ≡ dropped (readable (S.state_of store.now) fs.number) block place }
{
    let mut blocks = ArrayVec::new();
    for other in place..POINTERS {
        let below = child(store, fs, block, other);
        if below == 0 {
            continue;
        }
        blocks.push(below);
    }
    blocks
}

/// What the next drop takes in the trees of an inode that keeps so many leaves, if there is one. The fault is `Full` where there is no room.
pub fn plan_drop<S: Store>(
    store: &S,
    tree: Tree,
    memory: &Memory,
    inode: u32,
    keep: u32,
) -> Result<Option<DropPlan>, Fault>
    ensures { IsDropPlanned (S.state_of store.now) tree.fs.number memory.now inode keep result }
{
    let Some(cut) = next_cut(store, tree.fs, inode, keep) else {
        return Ok(None);
    };
    if !has_room(store, tree.fs, memory.touched.len(), 10, &[(cut.block, 1)]) {
        return Err(Fault::Full);
    }
    Ok(Some(DropPlan {
        block: cut.block,
        place: cut.place,
        blocks: dropped(store, tree.fs, cut.block, u32::from(cut.place)),
        inode,
    }))
}
