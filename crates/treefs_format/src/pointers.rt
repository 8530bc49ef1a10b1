// Pointers in inodes and nodes.

ghost use Rattle.std.specs.Prelude.{◌≡◌, ◌+◌, ◌*◌, ◌≤◌, length, IfOk};
ghost use Rattle.treefs_format.specs.Nodes.{pointers_patch};

use edit_list::Patch;
use std::alloc::{AllocError, Global};

/// The pointer that begins at a byte of an inode or a node; 0 for none.
pub use crate::numbers::word_at as pointer_at;

/// The patch that sets pointers which stand side by side, the first of them at a byte of an inode or a node. `Err` comes only for want
/// of memory.
pub fn set_pointers(alloc: Global, offset: usize, blocks: &[u32]) -> Result<Patch, AllocError>
    requires { offset + 4 * length blocks.now ≤ 512 }
    ensures { IfOk result (λ patch. patch ≡ pointers_patch offset blocks.now) }
{
    let mut bytes = Vec::new(alloc);
    for block in blocks {
        bytes.extend_from_slice(&block.to_le_bytes())?;
    }
    Ok(Patch {
        offset: offset as u16,
        bytes,
    })
}
