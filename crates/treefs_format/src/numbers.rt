// Numbers in the bytes of a block, all with the lowest byte first.

ghost use Rattle.std.specs.Prelude.{◌≡◌, ◌+◌, ◌≤◌, length};
ghost use Rattle.std.specs.Int.{w16, w64};
ghost use Rattle.xn_model.specs.Root.{word_at};
ghost use Rattle.treefs_format.specs.Numbers.{number_at, signed_at};

use byteorder::{ByteOrder, LittleEndian};
use store_types::BLOCK_LEN;

/// The number in two bytes.
#[tactic(auto, unfolding(crate::specs::Numbers::number_at))]
pub(crate) fn half_at(block: &[u8; BLOCK_LEN], at: usize) -> u16
    requires { at + 2 ≤ 512 }
    ensures { result ≡ number_at w16 block.now at }
{
    LittleEndian::read_u16(&block[at..at + 2])
}

/// The number in four bytes.
#[tactic(auto, unfolding(xn_model::specs::Root::word_at))]
pub fn word_at(block: &[u8; BLOCK_LEN], at: usize) -> u32
    requires { at + 4 ≤ 512 }
    ensures { result ≡ word_at block.now at }
{
    LittleEndian::read_u32(&block[at..at + 4])
}

/// The number in eight bytes.
#[tactic(auto, unfolding(crate::specs::Numbers::number_at))]
pub(crate) fn long_at(block: &[u8; BLOCK_LEN], at: usize) -> u64
    requires { at + 8 ≤ 512 }
    ensures { result ≡ number_at w64 block.now at }
{
    LittleEndian::read_u64(&block[at..at + 8])
}

/// The number in eight bytes, in two's complement.
pub(crate) fn signed_at(block: &[u8; BLOCK_LEN], at: usize) -> i64
    requires { at + 8 ≤ 512 }
    ensures { result ≡ signed_at block.now at }
{
    long_at(block, at).cast_signed()
}
