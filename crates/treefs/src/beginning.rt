// One block is begun.

ghost use Rattle.std.specs.Prelude.{◌≡◌};
ghost use Rattle.treefs.specs.Committing.{BeginsOne};

use edit_list::Fs;
use store_types::BLOCK_LEN;
use treefs_edits::start_fault;
use treefs_model::Fault;
use xn_state::Store;

/// Begins a block of a type with these bytes, and answers it. The fault is `NoSpace` where no block is free; all others are the kernel's.
pub fn begin_one<S: Store>(
    store: &mut S,
    fs: Fs,
    ty: u8,
    bytes: &[u8; BLOCK_LEN],
) -> Result<u32, Fault>
    ensures types { S.types_of store.new ≡ S.types_of store.old }
    ensures begins { BeginsOne (S.types_of store.old) fs.number (record { ty = ty; bytes = bytes.now }) (S.state_of store.old) (S.state_of store.new) result }
{
    match store.init(fs, u32::from(ty), bytes) {
        Ok((block, _)) => Ok(block),
        Err(reason) => Err(start_fault(reason)),
    }
}
