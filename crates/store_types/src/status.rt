// What the owners of blocks say of a block.

/// Whether a block is named by an owner, or was until a drop that is not durable yet.
#[derive(Clone, Copy, Debug, PartialEq, Eq)]
pub enum Status {
    /// Never named by any owner.
    Fresh,
    /// The newest state of this block names it.
    Owned(u32),
    /// The newest state of this block has dropped it, and that drop isn't durable yet.
    Dropped(u32),
}
