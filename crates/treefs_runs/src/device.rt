// The disk below a store: waves of writes, and drains.

use crate::recorder::Recorder;
use disk::Lane;
use flush_store::FlushStore;
use std::alloc::Global;
use store_types::Refusal;
use xn_kernel::{DrainStop, Kernel};
use xn_state::Store;

/// As many blocks as the largest disk has.
const BLOCKS: u32 = 32_768;

impl<L: Lane + Drop> Recorder<Kernel<L>> {
    /// Writes each block that may be written. Notes these blocks.
    pub fn wave(&mut self, alloc: Global) -> Result<(), Refusal> {
        self.note("  wave >");
        let mut is_idle = true;
        for block in 0..BLOCKS {
            if self.store.state().begun_count(block).is_ok() {
                self.note_number(" ", block);
                is_idle = false;
            }
        }
        self.note(if is_idle { " \n" } else { "\n" });
        let _waves = FlushStore::flush_waves(&mut self.store, alloc, 1)?;
        Ok(())
    }

    /// Writes all that is pending, and answers how many waves that took.
    pub fn flush(&mut self, alloc: Global) -> Result<u32, Refusal> {
        FlushStore::flush(&mut self.store, alloc)
    }

    /// Writes block after block, the least that may be written first, until nothing is pending. Notes how many writes that took.
    pub fn drain(&mut self) {
        let writes = match self.store.drain() {
            Ok(writes) => writes,
            Err(stop) => {
                let DrainStop {
                    writes,
                    ticket,
                    refusal: _,
                } = stop;
                if let Some(ticket) = ticket {
                    let _lane = ticket.into_lane();
                }
                writes
            }
        };
        self.note_number("  drain > writes ", writes);
        self.note("\n");
    }
}
