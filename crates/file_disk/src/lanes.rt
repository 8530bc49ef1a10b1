// The lanes of a file that was just opened, or made.
ghost use Rattle.std.specs.Prelude.{◌≡◌, ◌≤◌, ◌+◌, ◌*◌, length, IfOk};
ghost use Rattle.disk.specs.Images.{HoldsBytes, block_of_image};
ghost use Rattle.file_disk.specs.File.{fresh_block};
ghost use Rattle.file_disk.specs.Opened.{AreOpened};

use crate::fault::FileFault;
use crate::found_block::{FoundBlock, FoundImage};
use crate::kept_block::KeptBlock;
use crate::lane::FileLane;
use crate::shared_file::{GoodSync, Shared, SharedFile};
use disk::Lanes;
use std::alloc::Global;
use std::fs::File;
use std::sync::Arc;

/// Makes a lane for each block of a settled file, all at home, which share the file, of the image that it brought or took. The lanes take the memory
/// of the image over, from the last block down.
pub(crate) fn lanes_of(
    alloc: Global,
    file: &Shared,
    opened: &GoodSync,
    mut image: FoundImage,
    blocks: u32,
) -> Result<Lanes<FileLane>, FileFault>
    requires { length image.bytes.items ≡ 512 * blocks }
    ensures opened { IfOk result (λ lanes. AreOpened blocks lanes) }
    ensures image { IfOk result (λ lanes. HoldsBytes (λ lane. lane.bytes) lanes image.bytes.items) }
{
    let mut lanes = Lanes::new(alloc, blocks)?;
    for done in 0..blocks {
        let block = blocks - 1 - done;
        let lane = lane_of(alloc, file, opened, &image.block(block))?;
        lanes.put(lane);
        image.keep(block);
    }
    Ok(lanes)
}

/// A file, to be shared by its lanes.
pub(crate) fn share(alloc: Global, file: File) -> Result<Shared, FileFault> {
    match Arc::new(alloc, SharedFile::new(file)) {
        Ok(file) => Ok(file),
        Err(_) => Err(FileFault::NoMemory),
    }
}

/// The lane of a block of a file that is settled.
pub(crate) fn lane_of(
    alloc: Global,
    file: &Shared,
    opened: &GoodSync,
    found: &FoundBlock,
) -> Result<FileLane, FileFault>
    ensures { IfOk result (λ lane. lane ≡ fresh_block found.now.number found.now.bytes) }
{
    let block = KeptBlock::new(alloc, found, opened)?;
    let file = Arc::try_clone(file)?;
    Ok(FileLane::new(file, block))
}
