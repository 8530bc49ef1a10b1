// Writes that are under way.

use crate::held::Bytes;
use disk::MemLane;
use xn_kernel::{DrainStop, Kernel, Landed, Refusal, Ticket};

/// A write that is under way, beside what the rules say of it. Where it is dropped, the write is given up.
pub struct Write {
    ticket: Ticket<MemLane>,
    /// What the block's safe entries left when it was begun.
    pub bytes: Bytes,
    /// Whether it was written, well or not, since its last good sync.
    pub is_unsynced: bool,
}

impl Drop for Write {
    fn drop(self) {
        let _lane = self.into_lane();
    }
}

impl Write {
    /// Begins a write of a block, to which the rules give these bytes; how many entries it carries.
    pub fn begin(
        kernel: &mut Kernel<MemLane>,
        block: u32,
        bytes: Bytes,
    ) -> Result<(Write, u32), Refusal> {
        let ticket = kernel.begin(block)?;
        let count = ticket.count();
        let is_unsynced = false;
        Ok((
            Write {
                ticket,
                bytes,
                is_unsynced,
            },
            count,
        ))
    }

    /// The block that is written.
    pub fn block(&self) -> u32 {
        self.ticket.block()
    }

    /// The bytes that its lane reads.
    pub fn newest(&self) -> &Bytes {
        self.ticket.lane().bytes()
    }

    /// Whether the ticket says what the rules say of it.
    pub fn is_right(&self) -> bool {
        self.ticket.is_unsynced() == self.is_unsynced
    }

    /// Carries the write out, well or not; where it fails, the new bytes stay or the old ones. Whether it answers well.
    pub fn land(&mut self, fails: bool, stays: bool) -> bool {
        if fails {
            self.ticket.fail_next_write(stays);
        }
        self.is_unsynced = true;
        self.ticket.land().is_ok()
    }

    /// Settles the block, well or not. Whether it answers well.
    pub fn sync(&mut self, fails: bool) -> bool {
        if fails {
            self.ticket.fail_next_sync();
        } else {
            self.is_unsynced = false;
        }
        self.ticket.sync().is_ok()
    }

    /// Ends the write. `Err` gives it back.
    pub fn finish(self, kernel: &mut Kernel<MemLane>) -> Result<Landed, (Write, Refusal)> {
        let Write {
            ticket,
            bytes,
            is_unsynced,
        } = self;
        match kernel.finish(ticket) {
            Ok(landed) => Ok(landed),
            Err((ticket, refusal)) => {
                let write = Write {
                    ticket,
                    bytes,
                    is_unsynced,
                };
                Err((write, refusal))
            }
        }
    }

    /// Gives the write up; the block's lane.
    pub fn into_lane(self) -> MemLane {
        let Write {
            ticket,
            bytes: _,
            is_unsynced: _,
        } = self;
        ticket.into_lane()
    }
}

/// Writes all that is pending; how many writes that took.
pub fn drain(kernel: &mut Kernel<MemLane>) -> Result<u32, Refusal> {
    match kernel.drain() {
        Ok(writes) => Ok(writes),
        Err(
            DrainStop {
                writes: _,
                ticket,
                refusal,
            },
        ) => {
            if let Some(ticket) = ticket {
                let _lane = ticket.into_lane();
            }
            Err(refusal)
        }
    }
}
