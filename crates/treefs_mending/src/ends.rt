// Names that are one too many end.

ghost use Rattle.std.specs.Prelude.{◌≡◌, IfOk, length};
ghost use Rattle.treefs_lookup.specs.Readable.{readable};
ghost use Rattle.treefs_mending.specs.Ends.{MendsNames, end_acts};
ghost use Rattle.treefs_mending.specs.Surveys.{survey_of};

use crate::in_room::make_all_in_room;
use crate::names::Name;
use crate::survey::survey_names;
use std::alloc::{AllocError, Global};
use treefs_edits::{Act, Memory, Tree, kinds, lacks_memory};
use treefs_model::Fault;
use xn_state::Store;

/// The acts by which names end, one each: the number in the record becomes 0. `Err` comes only for want of memory.
pub fn plan_ends(alloc: Global, names: &[Name]) -> Result<Vec<Act>, AllocError>
    ensures { IfOk result (λ acts. acts.items ≡ end_acts names.now) }
{
    let mut acts = Vec::new(alloc);
    for name in names {
        acts.push(kinds::set_number(alloc, name.block, name.offset, 0, None)?)?;
    }
    Ok(acts)
}

/// The acts by which all names end that are one too many. `Err` comes only for want of memory.
fn plan_all_ends<S: Store>(alloc: Global, store: &S, tree: Tree) -> Result<Vec<Act>, AllocError>
    ensures { IfOk result (λ acts. acts.items ≡ end_acts (survey_of (readable (S.state_of store.now) tree.fs.number) tree.top).surplus) }
{
    let survey = survey_names(alloc, store, tree)?;
    plan_ends(alloc, &survey.surplus)
}

/// Ends each name that is one too many, as the volume stands. `Full` comes where one has no room, `Kernel` for want of memory, or where the store
/// refuses an edit; then those before it are ended. It is called again once all is flushed.
pub fn mend_names<S: Store>(
    alloc: Global,
    store: &mut S,
    tree: Tree,
    memory: &Memory,
) -> Result<(), Fault>
    ensures types { S.types_of store.new ≡ S.types_of store.old }
    ensures mends { MendsNames (S.types_of store.old) tree (length memory.now.touched) (S.state_of store.old) (S.state_of store.new) result }
{
    match plan_all_ends(alloc, store, tree) {
        Ok(acts) => make_all_in_room(store, tree, memory, acts),
        Err(error) => Err(lacks_memory(error)),
    }
}
