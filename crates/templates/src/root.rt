// Block 0: a mark, the count of blocks, 16 pointers to templates and 32 root slots. Numbers are four bytes, the lowest
// byte first.

ghost use Rattle.std.specs.Prelude.{IfSome, ◌≡◌, ◌+◌, ◌*◌, ◌<◌, ◌≤◌, ◌&&◌, ◌==◌, ℕ};
ghost use Rattle.std.specs.Int.{w32, to_le_bytes};
ghost use Rattle.xn_model.specs.Root.{word_at, marked, pointer, slot, with_pointer, with_slot};
ghost use Rattle.xn_model.specs.Calls.{empty_place};
ghost use Rattle.templates.specs.Meaning.{numbers_of_pair};
ghost use Rattle.templates.specs.RootFields.{has_mark, slot_bytes};

use byteorder::{ByteOrder, LittleEndian};
use store_types::BLOCK_LEN;
use udf_run::Pair;

/// How many templates a catalogue has room for.
pub const CATALOGUE_PLACES: usize = 16;

/// How many root slots block 0 has, one for each file system.
pub const ROOT_SLOTS: usize = 32;

/// The first bytes of block 0.
pub(crate) const MARK: [u8; 4] = [0x58, 0x4e, 0x39, 0x37];

/// The byte at which the count of blocks stands.
const COUNT_START: usize = 4;

/// The byte at which the first pointer stands; each has four.
const POINTERS_START: usize = 8;

/// The byte at which the first root slot stands; each has eight.
const SLOTS_START: usize = 72;

/// The number in the four bytes from a place on.
fn word_at(block: &[u8; BLOCK_LEN], at: usize) -> u32
    requires { at + 4 ≤ 512 }
    ensures { result ≡ word_at block.now at }
{
    LittleEndian::read_u32(&block[at..at + 4])
}

/// Whether the block begins with block 0's mark.
pub fn mark_is_right(block: &[u8; BLOCK_LEN]) -> bool
    ensures value { result ≡ has_mark block.now }
    // So, with the count, it is marked.
    ensures marked { (count : ℕ) → marked count block.now ≡ (result && word_at block.now 4 == count) }
{
    &block[..MARK.len()] == MARK.as_slice()
}

/// How many blocks the disk has, as block 0 says.
pub fn count_of(block: &[u8; BLOCK_LEN]) -> u32
    ensures { result ≡ word_at block.now 4 }
{
    word_at(block, COUNT_START)
}

/// The block of template `i`, from 0 to 15, or 0 where that place of the catalogue is empty.
pub fn pointer(block: &[u8; BLOCK_LEN], i: usize) -> u32
    requires { i < 16 }
    ensures { result ≡ pointer block.now i }
{
    word_at(block, pointer_start(i))
}

/// The lowest place of the catalogue that names no template.
pub fn empty_place(block: &[u8; BLOCK_LEN]) -> Option<usize>
    ensures place { result ≡ empty_place block.now }
    ensures few { IfSome result (λ place. place < 16) }
{
    for place in 0..CATALOGUE_PLACES {
        if pointer(block, place) == 0 {
            return Some(place);
        }
    }
    None
}

/// The byte at which the pointer of template `i`, from 0 to 15, stands.
pub fn pointer_start(i: usize) -> usize
    requires { i < 16 }
    ensures { result ≡ 8 + 4 * i }
{
    POINTERS_START + 4 * i
}

/// The block with the pointer of template `i`, from 0 to 15, set.
pub fn with_pointer(block: &[u8; BLOCK_LEN], i: usize, pointer: u32) -> [u8; BLOCK_LEN]
    requires { i < 16 }
    ensures { result ≡ with_pointer block.now i pointer }
{
    let mut bytes = *block;
    let at = pointer_start(i);
    bytes[at..at + 4].copy_from_slice(&number_bytes(pointer));
    bytes
}

/// The byte at which the root slot of file system `i`, from 0 to 31, stands.
pub fn slot_start(i: usize) -> usize
    requires { i < 32 }
    ensures { result ≡ 72 + 8 * i }
{
    SLOTS_START + 8 * i
}

/// The root of file system `i`, from 0 to 31, with its type; the slot is empty where the block is 0.
pub fn root_slot(block: &[u8; BLOCK_LEN], i: usize) -> Pair
    requires { i < 32 }
    ensures { numbers_of_pair result ≡ slot block.now i }
{
    let at = slot_start(i);
    Pair {
        block: word_at(block, at),
        ty: word_at(block, at + 4),
    }
}

/// The block with the root of file system `i`, from 0 to 31, set.
pub fn with_root_slot(block: &[u8; BLOCK_LEN], i: usize, root: Pair) -> [u8; BLOCK_LEN]
    requires { i < 32 }
    ensures { result ≡ with_slot block.now i (numbers_of_pair root) }
{
    let mut bytes = *block;
    let at = slot_start(i);
    bytes[at..at + 8].copy_from_slice(&root_bytes(root));
    bytes
}

/// A root slot as its eight bytes.
pub fn root_bytes(root: Pair) -> [u8; 8]
    ensures { result ≡ slot_bytes (numbers_of_pair root) }
{
    let mut bytes = [0u8; 8];
    LittleEndian::write_u32(&mut bytes, root.block);
    LittleEndian::write_u32(&mut bytes[4..], root.ty);
    bytes
}

/// A number as its four bytes.
pub(crate) fn number_bytes(number: u32) -> [u8; 4]
    ensures { result ≡ to_le_bytes w32 number }
{
    let mut bytes = [0u8; 4];
    LittleEndian::write_u32(&mut bytes, number);
    bytes
}
