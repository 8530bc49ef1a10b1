// Whether there is room for the edits of a call.

ghost use Rattle.std.specs.Prelude.{◌≡◌};
ghost use Rattle.std.specs.List.{list_all};
ghost use Rattle.treefs_edits.specs.Rooms.{has_room, has_room_in};

use edit_list::Fs;
use store_types::MAX_PENDING;
use xn_state::Store;

/// How many entries of a file system and of a block are pending at most once a call is done. The store takes 4,096 and 64.
const MOST_PENDING: usize = MAX_PENDING as usize;

const MOST_IN_BLOCK: u64 = 62;

/// Whether there is room for so many more edits, where so many inodes have times that no edit has written; and in each of some blocks
/// for so many entries. A call that has no room is `Full`, before its first edit.
pub fn has_room<S: Store>(
    store: &S,
    fs: Fs,
    touched: usize,
    edits: u32,
    parts: &[(u32, u32)],
) -> bool
    ensures { result ≡ has_room (S.state_of store.now) fs.number touched edits parts.now }
{
    if touched > MOST_PENDING {
        return false;
    }
    let pending = store.pending(fs) as usize + touched + edits as usize + 2;
    pending <= MOST_PENDING && have_room(store, parts)
}

/// Whether there is room in each of some blocks for so many more entries.
pub fn have_room<S: Store>(store: &S, parts: &[(u32, u32)]) -> bool
    ensures { result ≡ list_all (has_room_in (S.state_of store.now)) parts.now }
{
    parts.iter().all(|part| has_room_in(store, part.0, part.1))
}

/// Whether so many more entries may be pending in a block.
fn has_room_in<S: Store>(store: &S, block: u32, more: u32) -> bool
    ensures { result ≡ has_room_in (S.state_of store.now) (block, more) }
{
    u64::from(store.pending_in(block)) + u64::from(more) <= MOST_IN_BLOCK
}
