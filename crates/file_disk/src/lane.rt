// A block of a file.
ghost use Rattle.std.specs.Prelude.{◌≡◌};
ghost use Rattle.file_disk.specs.File.{FileBlock, KeptBytes, file_block, file_leaves, file_read, file_write, file_sync};

use crate::kept_block::KeptBlock;
use crate::shared_file::SharedFile;
use disk::{DeviceFault, Lane};
use std::alloc::Global;
use std::marker::Model;
use std::sync::Arc;
use store_types::BLOCK_LEN;

/// A block of a file. It keeps a copy of the bytes that the block has, and a read answers them only where the file brings
/// exactly these: what somebody else wrote into the file is a fault, and never an answer.
pub struct FileLane {
    file: Arc<SharedFile, Global>,
    block: KeptBlock,
    faults: u64,
}

impl Model for FileLane {
    ghost use Rattle.file_disk.specs.File.{FileBlock, file_block};

    ghost Value = { FileBlock };

    ghost view = { λ a. file_block a.block a.faults };
}

/// Written by hand, so that a function that drops one calls this.
impl Drop for FileLane {
    fn drop(self) {
        let FileLane {
            file: _,
            block: _,
            faults: _,
        } = self;
    }
}

impl FileLane {
    /// The lane of a block, which has never failed.
    pub(crate) fn new(file: Arc<SharedFile, Global>, block: KeptBlock) -> FileLane
        ensures { result ≡ file_block block 0 }
    {
        FileLane {
            file,
            block,
            faults: 0,
        }
    }
}

impl Lane for FileLane {
    ghost number_of = { λ lane. lane.number };

    ghost bytes_of = { λ lane. lane.bytes };

    ghost faults_of = { λ lane. lane.faults };

    ghost crash_leaves = { file_leaves };

    ghost read_gives = { file_read };

    ghost write_gives = { file_write };

    ghost sync_gives = { file_sync };

    fn number(&self) -> u32 {
        self.block.number()
    }

    fn faults(&self) -> u64 {
        self.faults
    }

    /// Fails where the system does, where the file is too short, and where it brings other bytes than the block has.
    fn read(&mut self, into: &mut [u8; BLOCK_LEN]) -> Result<(), DeviceFault> {
        if self.file.read_block(&mut self.block, into) {
            return Ok(());
        }
        self.faults = self.faults.wrapping_add(1);
        Err(DeviceFault)
    }

    /// Fails where the system does, and the block is read back then. Where that brings the new bytes, the block has them from
    /// here on; else it has those from before. Where neither come, nothing is known of the block but that the device broke its
    /// promise: then each read and each sync is a fault until the file brings the bytes from before, or a write is done. A crash
    /// may leave the new bytes in any case.
    fn write(&mut self, from: &[u8; BLOCK_LEN]) -> Result<(), DeviceFault> {
        if self.file.write_block(&mut self.block, from).is_ok() {
            return Ok(());
        }
        self.file.read_back(&mut self.block, from);
        self.faults = self.faults.wrapping_add(1);
        Err(DeviceFault)
    }

    /// Makes no call of the system where a good sync of any lane began after the newest write of this one. Fails where the
    /// sync does, where one of this file failed before and the block has a write since the last good one, and where a write
    /// failed and the file still doesn't bring the block's bytes.
    fn sync(&mut self) -> Result<(), DeviceFault> {
        if self.block.is_in_doubt() {
            self.file.read_block(&mut self.block, &mut [0; BLOCK_LEN]);
        }
        if !self.block.is_in_doubt()
            && let Some(good) = self.file.settle(self.block.settled_by())
        {
            self.block.settle(&good);
            return Ok(());
        }
        self.faults = self.faults.wrapping_add(1);
        Err(DeviceFault)
    }
}
