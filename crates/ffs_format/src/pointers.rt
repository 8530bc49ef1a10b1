// Pointers to blocks, in the root block of a file system and in an indirect block.

ghost use Rattle.std.specs.Prelude.{◌≡◌, ◌<◌, ◌^◌};
ghost use Rattle.std.specs.Int.{w32, to_le_bytes, from_le_bytes};
ghost use Rattle.ffs_model.specs.Library.{pointer_word};

use byteorder::{ByteOrder, LittleEndian};
use store_types::BLOCK_LEN;

/// The pointer at a place, 0 to 127, of a block of pointers; 0 for none. A root block has 16.
#[tactic(auto, unfolding(xn_model::specs::Root::word_at))]
pub fn pointer(block: &[u8; BLOCK_LEN], place: usize) -> u32
    requires { place < 128 }
    ensures { result ≡ pointer_word block.now place }
{
    let at = 4 * place;
    LittleEndian::read_u32(&block[at..at + 4])
}

/// The four bytes of a pointer.
pub fn pointer_bytes(block: u32) -> [u8; 4]
    ensures bytes { result ≡ to_le_bytes w32 block }
    ensures read { from_le_bytes w32 result ≡ block }
{
    let mut bytes = [0; 4];
    LittleEndian::write_u32(&mut bytes, block);
    bytes
}
