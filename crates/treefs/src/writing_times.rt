// The times of inodes that no edit has written yet are written.

ghost use Rattle.std.specs.Prelude.{◌≡◌, ◌∷◌, ◌<◌, Ok, vec_len};
ghost use Rattle.treefs.specs.WritingTimes.{WritesOne, WritesTimes, times_planned};

use std::alloc::Global;
use store_types::MAX_PENDING_IN_BLOCK;
use treefs_byte_plans::AttributesPlan;
use treefs_edits::{Touched, Tree, carry_out};
use treefs_lookup::find_inode;
use treefs_model::Fault;
use xn_state::Store;

/// What it takes to write the times of an inode; nothing where it is not there any more. The fault is `Full` where its block has 64 pending entries.
fn plan_times<S: Store>(
    store: &S,
    tree: Tree,
    touch: Touched,
) -> Result<Option<AttributesPlan>, Fault>
    ensures { result ≡ times_planned (S.state_of store.now) tree touch }
{
    match find_inode(store, tree.fs, tree.top, touch.number) {
        Ok(found) => {
            if (store.pending_in(found.block) as usize) < MAX_PENDING_IN_BLOCK {
                Ok(Some(AttributesPlan {
                    block: found.block,
                    mode: None,
                    owner: None,
                    times: touch.times,
                }))
            } else {
                Err(Fault::Full)
            }
        }
        Err(_) => Ok(None),
    }
}

/// Writes the times of an inode, if it is there.
fn write_one<S: Store>(
    alloc: Global,
    store: &mut S,
    tree: Tree,
    touch: Touched,
) -> Result<(), Fault>
    ensures types { S.types_of store.new ≡ S.types_of store.old }
    ensures does { WritesOne (S.types_of store.old) tree touch (S.state_of store.old) (S.state_of store.new) result }
{
    match plan_times(store, tree, touch)? {
        Some(plan) => carry_out(alloc, store, tree.fs, &plan),
        None => Ok(()),
    }
}

/// Writes the times of inodes, one after another, and takes out those that are written.
pub fn write_all<S: Store>(
    alloc: Global,
    store: &mut S,
    tree: Tree,
    touched: &mut Vec<Touched>,
) -> Result<(), Fault>
    ensures types { S.types_of store.new ≡ S.types_of store.old }
    ensures does { WritesTimes (S.types_of store.old) tree touched.old.items touched.new.items (S.state_of store.old) (S.state_of store.new) result }
{
    while !touched.is_empty() {
        let touch = touched[0];
        if let Err(fault) = write_one(alloc, store, tree, touch) {
            return Err(fault);
        }
        let _ = touched.remove(0);
    }
    Ok(())
}
