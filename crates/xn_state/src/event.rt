// What may happen to a world.

use crate::call::Call;
use edit_list::Fs;
use store_types::BLOCK_LEN;

/// One step of a world. Tickets are named by their block.
#[derive(Debug, Drop)]
pub enum Event {
    /// A client's call, for its file system.
    Call(Fs, Call),
    /// The template in these bytes is installed.
    Install([u8; BLOCK_LEN]),
    /// A write of the block begins.
    Begin(u32),
    /// The begun write of the block is carried out.
    Land(u32),
    /// The begun write of the block fails; the block then holds the new bytes (`true`) or the old ones.
    Fail(u32, bool),
    /// The block is synced.
    Sync(u32),
    /// The sync of the block fails.
    FailSync(u32),
    /// The block is read back, and the write ends.
    Finish(u32),
    /// All that isn't on the disk is lost, and the disk is mounted anew. Each of these blocks has the last bytes that were given
    /// to a write since its last good sync, where there are such, and every other one its settled bytes.
    Crash(Vec<u32>),
}
