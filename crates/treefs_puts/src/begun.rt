// Inodes that were begun, by their blocks.

ghost use Rattle.std.specs.Prelude.{◌≡◌};
ghost use Rattle.treefs_lookup.specs.Readable.{readable};
ghost use Rattle.treefs_puts.specs.Begun.{begun_file, written_begun};

use edit_list::Fs;
use treefs_format::Kind;
use treefs_format::sizes::GREATEST_SIZE;
use treefs_lookup::{Found, find_block};
use treefs_model::Fault;
use xn_state::Store;

/// The file or symbolic link that a block is the inode of. The faults are `NoEntry` and `IsDir`.
fn find_begun<S: Store>(store: &S, fs: Fs, inode: u32) -> Result<Found, Fault>
    ensures { result ≡ begun_file (readable (S.state_of store.now) fs.number) inode }
{
    let found = find_block(store, fs, inode)?;
    match found.kind {
        Kind::Directory => Err(Fault::IsDir),
        Kind::File | Kind::SymbolicLink => Ok(found),
    }
}

/// The same, in which bytes from one on may be written. The faults are `NoEntry`, `IsDir`, and `TooLarge` at or past the greatest size.
pub fn find_written<S: Store>(store: &S, fs: Fs, inode: u32, at: u64) -> Result<Found, Fault>
    ensures { result ≡ written_begun (readable (S.state_of store.now) fs.number) inode at }
{
    let file = find_begun(store, fs, inode)?;
    if at >= GREATEST_SIZE {
        return Err(Fault::TooLarge);
    }
    Ok(file)
}
