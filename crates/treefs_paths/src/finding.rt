// Where a path leads.

ghost use Rattle.std.specs.Prelude.{◌≡◌, ◌⊎◌, Err};
ghost use Rattle.store_types.specs.declared.refusal.Refusal.TheVariants.{NoMemory};
ghost use Rattle.treefs_lookup.specs.Readable.{readable};
ghost use Rattle.treefs_model.specs.declared.fault.Fault.TheVariants.{Kernel};
ghost use Rattle.treefs_paths.specs.Ways.{Leads, first_way};

use crate::names::start_of;
use crate::steps::step;
use crate::way::Way;
use std::alloc::Global;
use treefs_edits::{Tree, lacks_memory};
use treefs_model::Fault;
use xn_state::Store;

/// How many symbolic links a path may go through.
const MOST_LINKS: u32 = 40;

/// The number of the inode to which a path leads: from inode 1 on where it begins with a slash, else from a directory on. A symbolic link at its end is
/// followed where that is told; all others are. The faults are, at the first name that has one, those of the directory (`NoEntry`, `NotDir`, `NoEntry`
/// where it has no link), `BadName`, `NoEntry`; `Cycle` at the 41st symbolic link, and `TooLarge` where one has more than 4,096 bytes. `Kernel` comes only
/// for want of memory.
pub fn find_path<S: Store>(
    alloc: Global,
    store: &S,
    tree: Tree,
    directory: u32,
    path: &[u8],
    is_last_followed: bool,
) -> Result<u32, Fault>
    ensures { (result ≡ Err (Kernel NoMemory))
        ⊎ Leads (readable (S.state_of store.now) tree.fs.number) tree.top is_last_followed (first_way directory path.now) result }
{
    let rest = match path.to_vec(alloc) {
        Ok(rest) => rest,
        Err(error) => return Err(lacks_memory(error)),
    };
    let mut way = Way {
        number: start_of(directory, path),
        rest,
        links: MOST_LINKS,
    };
    while !way.rest.is_empty() {
        way = match step(alloc, store, tree, &way, is_last_followed) {
            Ok(next) => next,
            Err(fault) => return Err(fault),
        };
    }
    Ok(way.number)
}
