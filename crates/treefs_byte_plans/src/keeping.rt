// What is trimmed before a size changes.

ghost use Rattle.std.specs.Prelude.{◌≡◌, ◌≤◌};
ghost use Rattle.treefs_byte_plans.specs.Kept.{HasFewLeaves, IsUntrimmed, kept_of, kept_up_to};
ghost use Rattle.treefs_format.specs.Paths.{leaf_count};
ghost use Rattle.treefs_lookup.specs.Readable.{readable};

use crate::kept::Kept;
use edit_list::Fs;
use treefs_format::sizes::{GREATEST_SIZE, leaves_kept};
use treefs_lookup::{Found, is_trimmed};
use xn_state::Store;

/// What is kept of an inode up to a size.
pub fn kept_up_to(inode: u32, size: u64) -> Kept
    ensures kept { result ≡ kept_up_to inode size }
    ensures few { result.keep ≤ leaf_count }
{
    let end = size.min(GREATEST_SIZE);
    Kept {
        inode,
        keep: leaves_kept(end),
        size: Some(end),
    }
}

/// What is kept of a file where something stands past its size.
pub fn find_untrimmed<S: Store>(store: &S, fs: Fs, file: &Found) -> Option<Kept>
    ensures kept { IsUntrimmed (readable (S.state_of store.now) fs.number) file.now result }
    ensures few { HasFewLeaves result }
{
    if is_trimmed(store, fs, file) {
        return None;
    }
    Some(kept_up_to(file.block, file.fields.size))
}
