// What a client asks of a store.

use edit_list::Edit;
use store_types::BLOCK_LEN;

/// A call of a store, for a file system.
#[derive(Debug, Drop)]
pub enum Call {
    /// A fresh block of this type with these bytes.
    Init { ty: u32, bytes: [u8; BLOCK_LEN] },
    /// An edit of a block.
    Propose { block: u32, edit: Edit },
    /// The file system's root slot set to a fresh block.
    MakeRoot { block: u32 },
    /// The file system's root slot emptied.
    DropRoot,
    /// The end of a fresh block.
    Forget { block: u32 },
    /// The current bytes of a block.
    Read { block: u32 },
    /// The block in the file system's root slot.
    Root,
    /// The type of a block.
    Kind { block: u32 },
    /// Whether a block has a pending entry that isn't safe.
    Tainted { block: u32 },
    /// How many pending entries count for the file system.
    Pending,
    /// The least pending entry of the file system, or the next number to be given.
    Floor,
    /// How many blocks are free.
    Free,
    /// The least block that may be written.
    Pick,
    /// The writes of all blocks, until nothing is pending.
    Drain,
}
