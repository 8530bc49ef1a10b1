// Makes acts, one after another.

ghost use Rattle.std.specs.Prelude.{◌≡◌};
ghost use Rattle.treefs_model.specs.Acts.{Ran};

use crate::act::Act;
use edit_list::Fs;
use std::collections::VecDeque;
use store_types::Refusal;
use xn_state::Store;

/// Makes acts, one after another. Where one is refused, those before it stand.
pub fn run<S: Store>(store: &mut S, fs: Fs, acts: Vec<Act>) -> Result<(), Refusal>
    ensures types { S.types_of store.new ≡ S.types_of store.old }
    ensures ran { Ran (S.types_of store.old) fs.number acts.items (S.state_of store.old) (S.state_of store.new) result }
{
    let mut rest = VecDeque::from(acts);
    while let Some(act) = rest.pop_front() {
        let _ = act.make(store, fs)?;
    }
    Ok(())
}
