// Bytes of a block become 0.

/// All bytes of a block from one on become 0.
#[derive(Clone, Copy)]
pub struct BlankPlan {
    /// The block.
    pub block: u32,
    /// The first of the bytes.
    pub offset: u16,
    /// The block behind which that stands, if it stands behind one.
    pub behind: Option<u32>,
}
