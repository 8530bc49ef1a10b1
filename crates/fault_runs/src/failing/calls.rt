// What two file systems do: blocks that own others are started, attached, edited and dropped, and types are installed.

use std::alloc::{AllocError, Global};
use store_types::BLOCK_LEN;
use xn_kernel::{Edit, Patch};

/// A call of a file system, or the writing of all that is pending.
#[derive(Clone, Copy)]
pub enum Step {
    /// Installs a type whose blocks own at most one block, of this type.
    Install(u8),
    /// Starts a block of this type, of which each byte is this one.
    Init(u32, u8),
    /// Writes this number into the first four bytes of a block, which then owns the second block, of data, or no longer the third.
    Edit(u32, u32, Option<u32>, Option<u32>),
    /// Roots this block.
    MakeRoot(u32),
    /// Gives up the root.
    DropRoot,
    /// Writes all that is pending.
    Settle,
}

/// All steps, each with its file system. The installed types are in blocks 1 and 3.
pub static STEPS: [(u8, Step); 20] = [
    // Block 2, which owns block 3, is rooted, and so is block 4.
    (0, Step::Install(2)),
    (0, Step::Init(3, 0)),
    (0, Step::Init(2, 0x41)),
    (0, Step::Edit(2, 3, Some(3), None)),
    (0, Step::MakeRoot(2)),
    (1, Step::Init(2, 0x42)),
    (1, Step::MakeRoot(4)),
    (0, Step::Settle),
    // Block 5 comes in the place of block 3, and block 4 is edited twice.
    (0, Step::Edit(2, 0, None, Some(3))),
    (0, Step::Init(2, 0x43)),
    (0, Step::Edit(2, 5, Some(5), None)),
    (1, Step::Edit(4, 7, None, None)),
    (1, Step::Edit(4, 8, None, None)),
    (0, Step::Settle),
    // Block 6, whose blocks own blocks of the first type, is rooted in the place of block 4. Block 7 is forgotten.
    (1, Step::Install(3)),
    (1, Step::DropRoot),
    (1, Step::Init(4, 0)),
    (1, Step::Init(2, 0x44)),
    (1, Step::MakeRoot(6)),
    (0, Step::Settle),
];

/// A template's bytes: its blocks own at most one block, of the type that stands behind `SET 2`, which their first four bytes name.
static CHAIN: [u8; 28] = [
    0x58, 0x54, 0x05, 0x01, 0x0c, 0x01, 0x00, 0x00, 0x0e, 0x00, 0x01, 0x00, 0x01, 0x02, 0x03, 0x00,
    0x0d, 0x01, 0x02, 0x00, 0x11, 0x00, 0x00, 0x00, 0x01, 0x00, 0x04, 0x00,
];

/// The block of that template, whose blocks own blocks of this type.
pub fn template_of(ty: u8) -> [u8; BLOCK_LEN] {
    let mut block = [0; BLOCK_LEN];
    block[..CHAIN.len()].copy_from_slice(&CHAIN);
    block[14] = ty;
    block
}

/// The edit of a block's first four bytes, which adds and drops these blocks. Those that it adds are of data.
pub fn edit_of(
    alloc: Global,
    first: u32,
    add: Option<u32>,
    drop: Option<u32>,
) -> Result<Edit, AllocError> {
    let bytes = Vec::from_slice(alloc, &first.to_le_bytes())?;
    let mut adds = Vec::new(alloc);
    if let Some(added) = add {
        adds.push((added, 2))?;
    }
    let mut drops = Vec::new(alloc);
    if let Some(dropped) = drop {
        drops.push(dropped)?;
    }
    Ok(Edit {
        patches: Vec::from_array(alloc, [Patch { offset: 0, bytes }])?,
        adds,
        drops,
        after: None,
    })
}
