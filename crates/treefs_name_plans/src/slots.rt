// Where records stand in blocks.

ghost use Rattle.std.specs.Prelude.{◌≡◌, ◌≤◌, ◌+◌, ℕ, List, Ok, length};
ghost use Rattle.treefs_lookup.specs.Readable.{readable};
ghost use Rattle.treefs_lookup.specs.Names.{entry_found};
ghost use Rattle.treefs_lookup.specs.declared.names.Slot.{Slot};
ghost use Rattle.treefs_name_plans.specs.Ends.{IsWithin};

use edit_list::Fs;
use store_types::BLOCK_LEN;
use treefs_lookup::read_block;
use xn_state::Store;

/// The record of a name that is found begins within its block.
pub fn slots_are_within()
    ensures { (content : ℕ → List ℕ) (top d : ℕ) (name : List ℕ) (slot : Slot) → entry_found content top d name ≡ Ok slot → IsWithin content slot }
{}

/// A block that may be read has 512 bytes, and none of another is read.
fn is_short<S: Store>(store: &S, fs: Fs, block: u32)
    ensures { length (readable (S.state_of store.now) fs.number block) ≤ 512 }
{
    if let Some(bytes) = read_block(store, fs, block) {
        is_block(bytes);
    }
}

/// A block has 512 bytes.
fn is_block(bytes: &[u8; BLOCK_LEN])
    ensures { length bytes.now ≡ 512 }
{
    let _ = bytes;
}

/// The byte of a block at which a record begins.
pub fn narrow<S: Store>(store: &S, fs: Fs, block: u32, offset: usize) -> u16
    requires { offset ≤ 128 + length (readable (S.state_of store.now) fs.number block) }
    ensures { result ≡ offset }
{
    is_short(store, fs, block);
    offset as u16
}
