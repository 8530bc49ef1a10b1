// Entries of directories, of which a block has sixteen.

ghost use Rattle.std.specs.Prelude.{◌≡◌, ◌+◌, ◌-◌, ◌*◌, ◌<◌, ◌≤◌, ◌++◌, length, replicate, IsTrue};
ghost use Rattle.ffs_model.specs.Library.{half_at};
ghost use Rattle.ffs_format.specs.Entries.{entry_of, is_name, name_in};

use byteorder::{ByteOrder, LittleEndian};
use store_types::BLOCK_LEN;

/// How many entries a block of a directory has.
pub const ENTRIES: usize = 16;

/// How many bytes an entry has.
pub const ENTRY_LEN: usize = 32;

/// How many bytes a name has at most.
pub const NAME_LEN: usize = 28;

/// The inode that the entry at a place, 0 to 15, of a directory's block names; 0 for none.
#[tactic(auto, unfolding(ffs_model::specs::Library::half_at))]
pub fn entry_inode(block: &[u8; BLOCK_LEN], place: usize) -> u16
    requires { place < 16 }
    ensures { result ≡ half_at block.now (32 * place) }
{
    let at = ENTRY_LEN * place;
    LittleEndian::read_u16(&block[at..at + 2])
}

/// The name of the entry at a place, 0 to 15, of a directory's block; of a length above 28, which no entry of a library's
/// directory has, the first 28 bytes.
pub fn entry_name(block: &[u8; BLOCK_LEN], place: usize) -> &[u8]
    requires { place < 16 }
    ensures { result.now ≡ name_in block.now (32 * place) }
{
    let at = ENTRY_LEN * place;
    let length = usize::from(block[at + 2]).min(NAME_LEN);
    &block[at + 4..at + 4 + length]
}

/// The 32 bytes of the entry that names an inode. What is read of them is said by the law `entries_are_read_back`.
pub fn entry_bytes(inode: u16, name: &[u8]) -> [u8; 32]
    requires { IsTrue (is_name name.now) }
    ensures bytes { result ≡ entry_of inode name.now }
    ensures whole { length result ≡ 32 }
{
    let mut bytes = [0; 32];
    LittleEndian::write_u16(&mut bytes[..2], inode);
    bytes[2] = name.len() as u8;
    bytes[4..].copy_from_slice(&padded(name));
    bytes
}

/// A name with zeros behind it.
fn padded(name: &[u8]) -> [u8; 28]
    requires { length name.now ≤ 28 }
    ensures { result ≡ name.now ++ replicate (28 - length name.now) 0 }
{
    let mut bytes = [0; 28];
    bytes[..name.len()].copy_from_slice(name);
    bytes
}
