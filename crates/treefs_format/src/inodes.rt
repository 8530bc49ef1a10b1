// Inode blocks: the fields, 20 pointers, and the first 384 bytes of the content.

ghost use Rattle.std.specs.Prelude.{◌≡◌, ◌+◌, ◌-◌, ◌≤◌, ◌++◌, length, IfOk};
ghost use Rattle.xn_model.specs.BareDisks.{zeros};
ghost use Rattle.treefs_format.specs.Inodes.{content_of, content_patch, inode_bytes};

use crate::fields::Fields;
use edit_list::Patch;
use std::alloc::{AllocError, Global};
use store_types::BLOCK_LEN;

/// The byte of an inode block from which on the content stands.
pub const CONTENT: usize = 128;

/// How many bytes of the content stand in the inode block.
pub const CONTENT_LEN: usize = 384;

/// The block of a new inode, which has no pointers, with the beginning of its content; zeros follow. What is read of it is said by
/// the law `inodes_are_read_back`.
pub fn new_inode(fields: &Fields, head: &[u8]) -> [u8; BLOCK_LEN]
    requires { length head.now ≤ 384 }
    ensures { result ≡ inode_bytes fields.now head.now }
{
    let mut block = [0; BLOCK_LEN];
    block[..48].copy_from_slice(&fields.bytes());
    block[CONTENT..].copy_from_slice(&padded(head));
    block
}

/// The beginning of a content, with zeros behind it.
fn padded(head: &[u8]) -> [u8; 384]
    requires { length head.now ≤ 384 }
    ensures { result ≡ head.now ++ zeros (384 - length head.now) }
{
    let mut bytes = [0; 384];
    bytes[..head.len()].copy_from_slice(head);
    bytes
}

/// The first 384 bytes of the content; of a directory its bucket 0.
pub fn content(block: &[u8; BLOCK_LEN]) -> &[u8]
    ensures content { result.now ≡ content_of block.now }
    ensures long { length result.now ≡ 384 }
{
    &block[CONTENT..]
}

/// The patch that writes bytes into the first 384 of the content, from a place on. `Err` comes only for want of memory.
pub fn write_content(alloc: Global, at: usize, bytes: &[u8]) -> Result<Patch, AllocError>
    requires { at + length bytes.now ≤ 384 }
    ensures { IfOk result (λ patch. patch ≡ content_patch at bytes.now) }
{
    Ok(Patch {
        offset: (CONTENT + at) as u16,
        bytes: bytes.to_vec(alloc)?,
    })
}
