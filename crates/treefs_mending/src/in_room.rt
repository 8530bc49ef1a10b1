// Acts that are made one after another, each where there is room for it.

ghost use Rattle.std.specs.Prelude.{◌≡◌, length};
ghost use Rattle.treefs_mending.specs.InRoom.{MakesAllInRoom, MakesInRoom};

use std::collections::VecDeque;
use treefs_edits::{Act, Memory, Tree, has_room};
use treefs_model::Fault;
use xn_state::Store;

/// Makes an act where there is room for one more edit, and for one more entry in its block; else the fault is `Full`. All other faults are the
/// kernel's. Then nothing is done.
#[tactic(auto, unfolding(crate::specs::InRoom::MakesInRoom))]
fn make_in_room<S: Store>(store: &mut S, tree: Tree, memory: &Memory, act: Act) -> Result<(), Fault>
    ensures types { S.types_of store.new ≡ S.types_of store.old }
    ensures makes { MakesInRoom (S.types_of store.old) tree.fs.number (length memory.now.touched) act (S.state_of store.old) (S.state_of store.new) result }
{
    let touched = memory.touched.len();
    if !has_room(store, tree.fs, touched, 1, &[(act.block, 1)]) {
        return Err(Fault::Full);
    }
    match act.make(store, tree.fs) {
        Ok(_) => Ok(()),
        Err(reason) => Err(Fault::Kernel(reason)),
    }
}

/// Makes acts, one after another, each where there is room for one more edit, and for one more entry in its block; else the fault is `Full`. All
/// other faults are the kernel's. Then the acts before it stand.
pub fn make_all_in_room<S: Store>(
    store: &mut S,
    tree: Tree,
    memory: &Memory,
    acts: Vec<Act>,
) -> Result<(), Fault>
    ensures types { S.types_of store.new ≡ S.types_of store.old }
    ensures makes { MakesAllInRoom (S.types_of store.old) tree.fs.number (length memory.now.touched) acts.items (S.state_of store.old) (S.state_of store.new)
        result }
{
    let mut rest = VecDeque::from(acts);
    while let Some(act) = rest.pop_front() {
        make_in_room(store, tree, memory, act)?;
    }
    Ok(())
}
