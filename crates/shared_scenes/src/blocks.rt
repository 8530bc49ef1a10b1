// The bytes of blocks, edits of them, and an image of blocks.

use crate::lanes::{SceneLane, image_of};
use crash_check::check;
use disk::Lanes;
use std::alloc::{AllocError, Global};
use std::fmt::Debug;
use std::process::Abort;
use std::thread::Threads;
use store_types::BLOCK_LEN;
use xn_kernel::{Edit, Patch};

/// Ends the test, and says what was not so.
pub fn is(rt: &impl Abort, what: &str, holds: bool) {
    assert!(rt; holds, "{what}");
}

/// Ends the test where what came is not what is wanted, and tells both.
pub fn same<T: PartialEq + Debug + Drop>(rt: &impl Abort, what: &str, came: T, wanted: T) {
    assert!(rt; came == wanted, "{what}: {came:?}, and not {wanted:?}");
}

/// A block that begins with `ABC`.
pub fn letters() -> [u8; BLOCK_LEN] {
    let mut bytes = [0; BLOCK_LEN];
    bytes[0] = 0x41;
    bytes[1] = 0x42;
    bytes[2] = 0x43;
    bytes
}

/// The edit of some bytes.
pub fn edit_of(alloc: Global, offset: u16, bytes: &[u8]) -> Result<Edit, AllocError> {
    let bytes = Vec::from_slice(alloc, bytes)?;
    let patches = Vec::from_array(alloc, [Patch { offset, bytes }])?;
    Ok(Edit {
        patches,
        adds: Vec::new(alloc),
        drops: Vec::new(alloc),
        after: None,
    })
}

/// How many blocks of a sound image are reached, and how many are free.
fn counts<R: Threads + Abort + Sync>(rt: &R, alloc: Global, image: &[u8]) -> (usize, usize) {
    match check(rt, alloc, image) {
        Ok(report) => (report.reached.len(), report.free.len()),
        Err(fault) => panic!(rt; "an image: {fault}"),
    }
}

/// These lanes hold a sound image of 32 blocks, with block 0 and a block of each of so many file systems reached, whose bytes are these.
pub fn is_on_disk<R: Threads + Abort + Sync>(
    rt: &R,
    alloc: Global,
    lanes: Lanes<SceneLane>,
    systems: usize,
    bytes: &[u8; BLOCK_LEN],
) {
    let image = image_of(alloc, lanes).expect(rt, "memory");
    let wanted = (systems.saturating_add(1), 31usize.saturating_sub(systems));
    same(
        rt,
        "reached and free blocks",
        counts(rt, alloc, &image),
        wanted,
    );
    let (blocks, _) = image.as_chunks::<BLOCK_LEN>();
    for at in 0..systems {
        let is_right = blocks.get(at.saturating_add(1)) == Some(bytes);
        same(rt, "a block on the disk", (at, is_right), (at, true));
    }
}
