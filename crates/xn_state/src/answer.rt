// What a store answers.

use edit_list::EditId;
use store_types::{BLOCK_LEN, Refusal};

/// What a finished write did: how many of its entries are durable, and how many blocks are free.
#[derive(Clone, Copy, Debug, PartialEq, Eq)]
pub struct Landed {
    pub durable: u32,
    pub freed: u32,
}

/// A drain that stopped: how many writes it finished, and why it stopped.
#[derive(Clone, Copy, Debug, PartialEq, Eq)]
pub struct Stopped {
    pub writes: u32,
    pub refusal: Refusal,
}

/// The answer to a call: each variant holds what the call of its name answers.
#[derive(Clone, Copy, Debug, PartialEq, Eq)]
pub enum Answer {
    /// The block of the new life, and its entry.
    Init(Result<(u32, EditId), Refusal>),
    /// The entry of the edit.
    Propose(Result<EditId, Refusal>),
    /// The entry of block 0.
    MakeRoot(Result<EditId, Refusal>),
    /// The entry of block 0.
    DropRoot(Result<EditId, Refusal>),
    Forget(Result<(), Refusal>),
    /// A copy of the current bytes.
    Read(Result<[u8; BLOCK_LEN], Refusal>),
    /// The block in the root slot, or `None` where it is empty.
    Root(Option<u32>),
    /// The type of the block.
    Kind(Result<u32, Refusal>),
    Tainted(bool),
    Pending(u32),
    Floor(u64),
    Free(u32),
    /// The block, or `None` where nothing may be written.
    Pick(Option<u32>),
    /// How many writes it took.
    Drain(Result<u32, Stopped>),
}
