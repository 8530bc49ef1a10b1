// What a world answers.

use crate::answer::{Answer, Landed};
use crate::installed::Installed;
use store_types::Refusal;

/// The reply to an event.
#[derive(Clone, Copy, Debug, PartialEq, Eq)]
pub enum Reply {
    /// The answer to a client's call.
    Answered(Answer),
    /// The template was installed.
    Installed(Installed),
    /// How many entries the begun write carries.
    Begun { entries: u32 },
    /// The write was carried out.
    Landed,
    /// The block is synced.
    Synced,
    /// The write or the sync failed.
    Fault,
    /// What the write did.
    Finished(Landed),
    /// How many blocks the mount after a crash reached, and how many are free.
    Mounted { reached: u32, free: u32 },
    /// No write of the block is under way.
    NoTicket,
    /// The last crash's mount found no memory; only another crash is taken.
    Down,
    /// The template or the begin of the write was refused.
    Refused(Refusal),
}
