// Two file systems beside each other on a store. Each call of `Files` stands here once, so that all others know only a `Pair`.

use crate::plain::Plain;
use crate::scan::{block_of, scan};
use ffs_lib::{FfsFault, Fs, Repairs};
use std::alloc::{AllocError, Global};
use std::thread::Threads;
use store_types::BLOCK_LEN;
use volume_pair::{Action, Disk, Files};
use world::Running;
use xn_state::Store;

/// What is asked of the volume of a file system, and of the store.
#[derive(Clone, Copy)]
pub enum Step<'a> {
    /// The volume is made.
    Make,
    Open,
    Call(Action<'a>),
    /// Into a file, at an offset, as many of these bytes as the store takes now.
    WriteSome(u16, u32, &'a [u8]),
    /// All that is pending is written.
    Drain,
    /// How many blocks are free.
    Free,
    /// The floor of the file system.
    Floor,
}

/// The number that a step answers: an inode, how many bytes, writes or blocks there are, a floor, or 0.
pub type Told = Result<u64, FfsFault>;

/// Takes a step. `NoEntry` where there is no store, and where a drain is refused.
pub fn take<S: Disk + Drop>(files: &mut Files<S>, alloc: Global, fs: Fs, step: &Step) -> Told {
    match step {
        Step::Make => {
            files.make(alloc, fs)?;
            Ok(0)
        }
        Step::Open => {
            files.open(fs)?;
            Ok(0)
        }
        Step::Call(action) => Ok(u64::from(files.call(alloc, fs, action)?)),
        Step::WriteSome(inode, offset, bytes) => {
            Ok(files.write_some(alloc, fs, *inode, *offset, bytes)? as u64)
        }
        Step::Drain => Ok(u64::from(files.drain().ok_or(FfsFault::NoEntry)?)),
        Step::Free => Ok(u64::from(files.store().ok_or(FfsFault::NoEntry)?.free())),
        Step::Floor => Ok(files.store().ok_or(FfsFault::NoEntry)?.floor(fs)),
    }
}

/// What the device does, and an installation.
#[derive(Clone, Copy)]
pub enum Event {
    Begin(u32),
    Land(u32),
    /// A begun write fails, and the new bytes stay or not.
    Fail(u32, bool),
    Sync(u32),
    FailSync(u32),
    Finish(u32),
    /// A write from its begin to its end.
    Write(u32),
    Install([u8; BLOCK_LEN]),
}

/// Two file systems in a world.
pub struct Pair {
    alloc: Global,
    files: Files<Running>,
}

impl Drop for Pair {
    fn drop(self) {
        let Pair { alloc: _, files: _ } = self;
    }
}

impl Pair {
    /// On a fresh disk of so many blocks.
    pub fn format(
        rt: &(impl Threads + Sync),
        alloc: Global,
        blocks: u32,
        systems: [Fs; 2],
    ) -> Result<Pair, AllocError> {
        let [first, second] = systems;
        match Files::format(rt, alloc, blocks, first, second) {
            Ok(files) => Ok(Pair { alloc, files }),
            Err(fault) => Err(fault),
        }
    }

    /// On one without templates, on which the library's types are just installed.
    pub fn bare(
        rt: &(impl Threads + Sync),
        alloc: Global,
        blocks: u32,
        systems: [Fs; 2],
    ) -> Result<Pair, AllocError> {
        let [first, second] = systems;
        match Files::bare(rt, alloc, blocks, first, second) {
            Ok(files) => Ok(Pair { alloc, files }),
            Err(fault) => Err(fault),
        }
    }

    /// Takes a step.
    pub fn take(&mut self, fs: Fs, step: &Step) -> Told {
        take(&mut self.files, self.alloc, fs, step)
    }

    /// Makes a call.
    pub fn call(&mut self, fs: Fs, action: Action) -> Told {
        self.take(fs, &Step::Call(action))
    }

    /// Takes steps, whatever they answer.
    pub fn take_all(&mut self, fs: Fs, steps: &[Step]) {
        for step in steps {
            let _ = self.take(fs, step);
        }
    }

    /// Writes all that is pending; how many blocks are free then.
    pub fn free(&mut self, fs: Fs) -> u64 {
        let _ = self.take(fs, &Step::Drain);
        self.take(fs, &Step::Free).unwrap_or(0)
    }

    /// Whether an event was done.
    pub fn happens(&mut self, event: Event) -> bool {
        let files = &mut self.files;
        match event {
            Event::Begin(block) => files.begin(block),
            Event::Land(block) => files.land(block),
            Event::Fail(block, new_bytes_stay) => files.fail(block, new_bytes_stay),
            Event::Sync(block) => files.sync(block),
            Event::FailSync(block) => files.fail_sync(block),
            Event::Finish(block) => files.finish(block),
            Event::Write(block) => files.write(block),
            Event::Install(template) => files.install(&template),
        }
    }

    /// The least block that may be written.
    pub fn pick(&self) -> Option<u32> {
        self.files.pick()
    }

    /// Reads from a file, and answers how many bytes there were.
    pub fn read(
        &mut self,
        fs: Fs,
        inode: u16,
        offset: u32,
        bytes: &mut [u8],
    ) -> Result<usize, FfsFault> {
        self.files.read(fs, inode, offset, bytes)
    }

    /// The names in a directory, and their inodes.
    pub fn list(&mut self, fs: Fs, directory: u16) -> Result<Vec<(Vec<u8>, u16)>, FfsFault> {
        self.files.list(self.alloc, fs, directory)
    }

    /// Does with each inode what it needs.
    pub fn reclaim(&mut self, fs: Fs) -> Result<Repairs, FfsFault> {
        self.files.reclaim(self.alloc, fs)
    }

    /// A crash that keeps the open writes of these blocks; how many blocks the mount reached.
    pub fn crash(&mut self, rt: &(impl Threads + Sync), kept: &[u32]) -> Option<u32> {
        let kept = Vec::from_slice(self.alloc, kept).ok()?;
        let (reached, _) = self.files.crash(rt, self.alloc, kept)?;
        Some(reached)
    }

    /// A crash that keeps the open writes of these blocks; whether the disk is mounted then, and the volume opened.
    pub fn is_open_after(&mut self, rt: &(impl Threads + Sync), fs: Fs, kept: &[u32]) -> bool {
        self.crash(rt, kept).is_some() && self.take(fs, &Step::Open).is_ok()
    }

    /// Takes all that stands in a volume's blocks. Whether each name is one of the known ones.
    pub fn scan(&self, fs: Fs, plain: &mut Plain) -> bool {
        match self.files.store() {
            Some(store) => scan(store, fs, plain),
            None => false,
        }
    }

    /// The first block of a directory.
    pub fn first_block(&self, fs: Fs, directory: u16) -> Option<u32> {
        block_of(self.files.store()?, fs, directory, 0)
    }
}
