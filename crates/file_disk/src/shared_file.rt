// What all lanes of a file share: its handle, and which of its syncs were good.
//
// No clause can say what an atomic holds, nor when a sync ran. So two things about this module are to be read, and not proved: a
// `GoodSync` of a number is made only where the sync of that number was good, or the one by which the file was opened; and the number
// that a write is given is that of a sync that begins after the write.
ghost use Rattle.std.specs.Prelude.{◌≡◌, ◌≤◌, ◌*◌, ◌⊎◌, length, false, IsTrue, IfSome, IfOk, OnOk, OnErr};
ghost use Rattle.file_disk.specs.File.{with_found, with_given};

use crate::found_block::FoundBlock;
use crate::kept_block::KeptBlock;
use std::alloc::Global;
use std::fs::File;
use std::sync::atomic::{AtomicBool, AtomicU64, Ordering};
use std::sync::{Arc, Mutex};
use std::{io, thread};
use store_types::BLOCK_LEN;

/// An open file, and the count of its syncs. Syncs are numbered from 1 on in the order in which they begin, and no two run at a
/// time: the system tells of a write that it lost to one sync alone, so a sync that ran beside that one could be good and yet
/// settle less than it says.
pub(crate) struct SharedFile {
    file: File,
    /// The number of the newest sync that has begun.
    begun: AtomicU64,
    /// The number of the newest sync that was good; 0 where none was since the file was opened.
    good: AtomicU64,
    /// Set by the first sync that fails, and never taken back: the system may have dropped what it held then, and a later
    /// sync would say nothing of it.
    failed: AtomicBool,
    /// The system's number of the first error of a read, a write or a sync; 0 where there was none.
    error: AtomicU64,
    /// Held while a sync runs.
    turn: Mutex<()>,
}

/// Written by hand, so that a function that drops one calls this.
impl Drop for SharedFile {
    fn drop(self) {
        let SharedFile {
            file: _,
            begun: _,
            good: _,
            failed: _,
            error: _,
            turn: _,
        } = self;
    }
}

/// A file that is settled, as its lanes share it.
pub(crate) type Shared = Arc<SharedFile, Global>;

/// What the system answers to the calls of a disk's lanes. It keeps the file open, as a lane does.
#[derive(Drop)]
pub struct SystemFault {
    pub(crate) file: Shared,
}

impl SystemFault {
    /// The first error that the system answered to a read, a write or a sync of the file, if there was one.
    pub fn first(&self) -> Option<io::Error> {
        match i32::try_from(self.file.error.load(Ordering::SeqCst)) {
            Ok(0) | Err(_) => None,
            Ok(number) => Some(io::Error::from_raw_os_error(number)),
        }
    }
}

/// A sync that was good, by its number. What was written before it began is settled.
#[derive(Drop)]
pub(crate) struct GoodSync {
    number: u64,
}

impl GoodSync {
    /// Settles what the system holds of a file that is opened.
    pub(crate) fn first(file: &File) -> io::Result<GoodSync> {
        file.sync_all()?;
        Ok(GoodSync { number: 0 })
    }

    pub(crate) fn number(&self) -> u64
        ensures { result ≡ self.now.number }
    {
        self.number
    }
}

impl SharedFile {
    /// No sync of this file has begun but the one by which it was opened.
    pub(crate) fn new(file: File) -> SharedFile {
        SharedFile {
            file,
            begun: AtomicU64::new(0),
            good: AtomicU64::new(0),
            failed: AtomicBool::new(false),
            error: AtomicU64::new(0),
            turn: Mutex::new(()),
        }
    }

    /// Reads the place of a block.
    fn find_block(&self, number: u32) -> io::Result<FoundBlock>
        ensures { IfOk result (λ found. found.number ≡ number) }
    {
        let found = FoundBlock::read(&self.file, number);
        if let Err(error) = &found {
            self.note(error);
        }
        found
    }

    /// Reads a block. Answers whether the file brings the bytes that the block has: then `into` has them, and the block is in no doubt.
    pub(crate) fn read_block(&self, block: &mut KeptBlock, into: &mut [u8; BLOCK_LEN]) -> bool
        ensures read { IsTrue result → into.new ≡ block.old.bytes }
        ensures found { IsTrue result → block.new ≡ with_found block.old block.old.bytes }
        ensures other { result ≡ false → block.new ≡ block.old }
    {
        if let Ok(found) = self.find_block(block.number())
            && *found.bytes() == *block.bytes()
        {
            *into = *found.bytes();
            block.find(&found);
            return true;
        }
        false
    }

    /// Writes a block, and gives these bytes to its open writes. After an `Err` the block is in doubt.
    pub(crate) fn write_block(
        &self,
        block: &mut KeptBlock,
        from: &[u8; BLOCK_LEN],
    ) -> io::Result<()>
        ensures ok { OnOk result (block.new ≡ with_found (with_given block.old from.now block.new.writes.settled_by) from.now) }
        ensures err { OnErr result (block.new ≡ with_given block.old from.now block.new.writes.settled_by) }
    {
        let written = FoundBlock::write(&self.file, block.number(), from);
        block.give(from, self.next_sync());
        if let Err(error) = &written {
            self.note(error);
        }
        block.find(&written?);
        Ok(())
    }

    /// Reads a block back whose write of these bytes failed. Where the file brings them the block has them from here on, and where it
    /// brings those from before it has these; else it stays in doubt.
    pub(crate) fn read_back(&self, block: &mut KeptBlock, from: &[u8; BLOCK_LEN])
        ensures { (block.new ≡ block.old) ⊎ ((block.new ≡ with_found block.old block.old.bytes) ⊎ (block.new ≡ with_found block.old from.now)) }
    {
        if let Ok(found) = self.find_block(block.number())
            && (*found.bytes() == *from || *found.bytes() == *block.bytes())
        {
            block.find(&found);
        }
    }

    /// Keeps the number of an error, where it is the first.
    fn note(&self, error: &io::Error) {
        if let Some(number) = error.raw_os_error()
            && self.error.load(Ordering::SeqCst) == 0
        {
            let number = u64::try_from(number).unwrap_or(0);
            self.error.store(number, Ordering::SeqCst);
        }
    }

    /// The number of the first sync that has not begun.
    fn next_sync(&self) -> u64 {
        self.begun.load(Ordering::SeqCst).saturating_add(1)
    }

    /// A good sync of this number or a later one. Where there is none yet it waits for the sync that runs, without sleep, as a
    /// lane has no leave to sleep; where none runs it makes one. `None`: that one failed, or one failed before.
    pub(crate) fn settle(&self, wanted: u64) -> Option<GoodSync>
        ensures { IfSome result (λ good. wanted ≤ good.number) }
    {
        for _ in 0..u64::MAX {
            if let Some(good) = self.good_sync(wanted) {
                return Some(good);
            }
            if self.failed.load(Ordering::SeqCst) {
                return None;
            }
            if let Some(_turn) = self.turn.try_lock() {
                return self.settle_in_turn(wanted);
            }
            thread::yield_now();
        }
        None
    }

    /// The same, by one who has the turn, so that no sync runs.
    fn settle_in_turn(&self, wanted: u64) -> Option<GoodSync>
        ensures { IfSome result (λ good. wanted ≤ good.number) }
    {
        if let Some(good) = self.good_sync(wanted) {
            return Some(good);
        }
        if self.failed.load(Ordering::SeqCst) {
            return None;
        }
        let good = self.sync_in_turn()?;
        if good.number < wanted {
            return None;
        }
        Some(good)
    }

    /// The newest good sync, if this number is not beyond it.
    fn good_sync(&self, wanted: u64) -> Option<GoodSync>
        ensures { IfSome result (λ good. wanted ≤ good.number) }
    {
        let number = self.good.load(Ordering::SeqCst);
        if number < wanted {
            return None;
        }
        Some(GoodSync { number })
    }

    /// Makes a sync. It has its number before it begins, and is told good or failed before the turn is given up. No sync has
    /// the last number, so that a write which was answered that one is never taken for settled.
    fn sync_in_turn(&self) -> Option<GoodSync> {
        let begun = self.begun.load(Ordering::SeqCst);
        if begun >= u64::MAX - 1 {
            return None;
        }
        let number = begun + 1;
        self.begun.store(number, Ordering::SeqCst);
        if let Err(error) = self.file.sync_data() {
            self.note(&error);
            self.failed.store(true, Ordering::SeqCst);
            return None;
        }
        self.good.store(number, Ordering::SeqCst);
        Some(GoodSync { number })
    }
}
