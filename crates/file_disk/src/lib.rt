//! A disk in a file of the operating system, changed in place: one open handle, locked, and a lane for each block.
//!
//! It is proved that a `FileLane` meets the contract of `disk::Lane`; that none of its reads and syncs answers Ok while its block is in
//! doubt, which a write begins, and nothing ends but bytes that the file brought or took; and that a file which is made or opened gives
//! a lane for each of its blocks, settled, in no doubt, and with no fault. No clause can say what a file holds, nor what an atomic
//! does. So these are to be read, and not proved:
//!
//! - in `found_block`, that a `FoundBlock` is made only where the file brought all of its bytes from the place of the block of its number,
//!   or took all of them there; that a `FoundImage` is made only where the file brought or took the whole image, each byte at its own
//!   place; and that an image which is made is written with block 0 last, after a sync of the others, and with zeros behind its first bytes;
//! - in `shared_file`, that each read of a block asks the file; that what is found is used before the block is written again; that a
//!   `GoodSync` is made only where the sync of that number was good, or the one by which the file was opened; and that the number which
//!   a write is given is that of a sync which begins after it;
//! - in `kept_block`, that the list of what a crash may leave, which no memory holds, is changed by its functions alone;
//! - in `lanes`, that all lanes have one file;
//! - in `opening`, that the sync by which a file is opened is of that file, and comes before its blocks are read; that a file is made only
//!   where nothing has its name (`create_new`) and its lock is taken before it is written; that a file that is there is locked, and its name
//!   looked at again behind that, before it is read (`system_files`); that a disk has as many blocks as its file is long; that of a file
//!   which is made the folder is synced, and the image written before the sync by which it is opened; and that what is removed where
//!   that fails is the file that was made.
//!
//! What is trusted of the system and of the drive stands in `docs/HEADLINE.md`.
//! May touch: memory, threads, files.
#![tactic(auto)]

mod fault;
mod found_block;
mod kept_block;
mod lane;
mod lanes;
mod opening;
mod shared_file;

pub use fault::FileFault;
pub use lane::FileLane;
pub use opening::{FileDisk, FileImage};
pub use shared_file::SystemFault;
pub use system_files::Access;

#[cfg(test)]
mod tests;
