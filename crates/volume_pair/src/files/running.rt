// File systems on a world: its events, and its crashes.

ghost use Rattle.volume_pair.specs.Kept.{IsDevice};

use crate::files::Files;
use crate::kernels::are_templates;
use crate::library::with_library;
use ffs_format::law::templates_are_the_librarys;
use ffs_format::templates;
use ffs_lib::Fs;
use std::alloc::{AllocError, Global};
use std::thread::Threads;
use store_types::BLOCK_LEN;
use world::{Event, Reply, Running, World};

impl Files<Running> {
    /// Two file systems on a fresh disk of so many blocks.
    pub fn format(
        rt: &(impl Threads + Sync),
        alloc: Global,
        blocks: u32,
        first: Fs,
        second: Fs,
    ) -> Result<Files<Running>, AllocError> {
        let templates = templates(alloc)?;
        templates_are_the_librarys();
        are_templates(&templates);
        match World::format(rt, alloc, blocks, &templates) {
            Ok(world) => match world.into_running() {
                Ok(running) => {
                    running.rules();
                    Ok(Files::new(running, first, second))
                }
                Err(_) => Err(AllocError),
            },
            Err(_) => Err(AllocError),
        }
    }

    /// Two file systems on a fresh disk of so many blocks without templates. The library's types are installed while it runs, and are
    /// not on the disk yet.
    pub fn bare(
        rt: &(impl Threads + Sync),
        alloc: Global,
        blocks: u32,
        first: Fs,
        second: Fs,
    ) -> Result<Files<Running>, AllocError> {
        let Ok(world) = World::format(rt, alloc, blocks, &[]) else {
            return Err(AllocError);
        };
        let Ok(running) = world.into_running() else {
            return Err(AllocError);
        };
        running.rules();
        match with_library(alloc, running) {
            Some(running) => Ok(Files::new(running, first, second)),
            None => Err(AllocError),
        }
    }

    /// Installs a template; whether that was done.
    pub fn install(&mut self, template: &[u8; BLOCK_LEN]) -> bool {
        matches!(self.step(&Event::Install(*template)), Reply::Installed(_))
    }

    /// The write of a block begins.
    pub fn begin(&mut self, block: u32) -> bool {
        matches!(self.step(&Event::Begin(block)), Reply::Begun { .. })
    }

    /// The begun write of a block is carried out.
    pub fn land(&mut self, block: u32) -> bool {
        matches!(self.step(&Event::Land(block)), Reply::Landed)
    }

    /// The begun write of a block fails.
    pub fn fail(&mut self, block: u32, new_bytes_stay: bool) -> bool {
        matches!(self.step(&Event::Fail(block, new_bytes_stay)), Reply::Fault)
    }

    /// A block is synced.
    pub fn sync(&mut self, block: u32) -> bool {
        matches!(self.step(&Event::Sync(block)), Reply::Synced)
    }

    /// The sync of a block fails.
    pub fn fail_sync(&mut self, block: u32) -> bool {
        matches!(self.step(&Event::FailSync(block)), Reply::Fault)
    }

    /// The begun write of a block ends. It is refused where the block was written, well or not, since its last good sync.
    pub fn finish(&mut self, block: u32) -> bool {
        matches!(self.step(&Event::Finish(block)), Reply::Finished(_))
    }

    /// A write of a block, from its begin to its end.
    pub fn write(&mut self, block: u32) -> bool {
        self.begin(block) && self.land(block) && self.sync(block) && self.finish(block)
    }

    /// The least block that may be written.
    pub fn pick(&self) -> Option<u32> {
        self.store()?.pick()
    }

    /// One event of the device, or an installation.
    fn step(&mut self, event: &Event) -> Reply
        requires { IsDevice event.now }
    {
        match &mut self.store {
            Some(store) => store.step(event),
            None => Reply::Down,
        }
    }

    /// All that isn't on the disk is lost, and the disk is mounted anew; no volume is open then. Each of these blocks has the last
    /// bytes that were given to a write since its last good sync, where there are such, and every other one its settled bytes.
    /// The library's types that block 0 hasn't on the disk then are installed anew.
    /// Answers how many blocks the mount reached, and how many are free; `None` where it found no memory, or where a type could not
    /// be installed.
    pub fn crash(
        &mut self,
        rt: &(impl Threads + Sync),
        alloc: Global,
        kept: Vec<u32>,
    ) -> Option<(u32, u32)> {
        let (store, reached, free) = self.store.take()?.crash(rt, alloc, kept)?;
        self.volume = None;
        self.store = Some(store);
        Some((reached, free))
    }
}
