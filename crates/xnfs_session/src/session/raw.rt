// What stands in a volume byte for byte, also where no call of the library leaves it so.

ghost use Rattle.std.specs.Prelude.{◌≤◌};

use crate::session::Session;
use ffs_format::entries::{ENTRIES, ENTRY_LEN, NAME_LEN};
use ffs_format::inodes::{DIRECT_POINTERS, MOST_INODES};
use ffs_format::{Inode, entry_inode, entry_name, home, pointer};
use ffs_lib::Fs;
use ffs_lookup::{FfsFault, find_directory, inode_block, is_library, read_block, root_block};
use flush_store::FlushStore;
use std::alloc::{AllocError, Global};
use store_types::BLOCK_LEN;
use xn_kernel::Store;

/// How many pointers a block of them has.
const POINTERS: usize = 128;

/// What an inode says, also one that is not in use.
#[derive(Clone, Copy, Debug, PartialEq, Eq)]
pub struct Facts {
    /// 0 where it is free, 1 of a file, 2 of a directory; other programs may have left others.
    pub mode: u16,
    pub links: u16,
    pub size: u32,
    /// Whether all its bytes are zeros.
    pub is_blank: bool,
    /// How many bytes its pointers reach: 512 for each up to the last that leads to a block.
    pub reach: u32,
}

/// An entry of a directory.
#[derive(Debug, Drop)]
pub struct Entry {
    /// Of a name that says to be too long its first 28 bytes.
    pub name: Vec<u8>,
    pub inode: u16,
    pub is_too_long: bool,
}

/// Whether a file system of a store has a volume, good or not.
pub fn has_volume<S: Store>(store: &S, fs: Fs) -> bool {
    is_library(store) && root_block(store, fs).is_ok()
}

/// The place behind the last of an inode's own pointers that leads to a block.
fn direct_end(inode: &Inode) -> u32 {
    let mut end = 0;
    for at in 0..DIRECT_POINTERS {
        if inode.direct(at) != 0 {
            end = at as u32 + 1;
        }
    }
    end
}

/// The place behind the last pointer of a block that leads to another one.
fn pointers_end(block: &[u8; BLOCK_LEN]) -> u32 {
    let mut end = 0;
    for place in 0..POINTERS {
        if pointer(block, place) != 0 {
            end = place as u32 + 1;
        }
    }
    end
}

/// Whether an entry says that its name has more bytes than a name has.
fn is_too_long(block: &[u8; BLOCK_LEN], place: usize) -> bool
    requires { place ≤ 15 }
{
    usize::from(block[ENTRY_LEN * place + 2]) > NAME_LEN
}

/// Adds the entries of a directory's block.
fn add_entries(
    alloc: Global,
    block: &[u8; BLOCK_LEN],
    entries: &mut Vec<Entry>,
) -> Result<(), AllocError> {
    for place in 0..ENTRIES {
        let inode = entry_inode(block, place);
        if inode != 0 {
            entries.push(Entry {
                name: Vec::from_slice(alloc, entry_name(block, place))?,
                inode,
                is_too_long: is_too_long(block, place),
            })?;
        }
    }
    Ok(())
}

impl<S: FlushStore + Drop> Session<S> {
    /// How many bytes an inode's pointers reach.
    fn reach(&self, inode: &Inode) -> Result<u32, FfsFault> {
        let own = DIRECT_POINTERS as u32;
        let blocks = match inode.indirect() {
            0 => direct_end(inode),
            block => match pointers_end(read_block(&self.store, self.fs, block)?) {
                0 => direct_end(inode),
                end => end.saturating_add(own),
            },
        };
        Ok(blocks.saturating_mul(BLOCK_LEN as u32))
    }

    /// What the inode of a number says; `NoEntry` where there is none.
    pub fn facts(&self, number: u16) -> Result<Facts, FfsFault> {
        if number == 0 || number > MOST_INODES {
            return Err(FfsFault::NoEntry);
        }
        let (index, place) = home(number);
        let block = inode_block(&self.store, self.fs, index)?;
        let inode = Inode::read(read_block(&self.store, self.fs, block)?, place);
        Ok(Facts {
            mode: inode.mode(),
            links: inode.links(),
            size: inode.size(),
            is_blank: inode.is_free(),
            reach: self.reach(&inode)?,
        })
    }

    /// The entries of a directory, whatever their names are, in the order of its blocks.
    pub fn entries(&self, alloc: Global, directory: u16) -> Result<Vec<Entry>, FfsFault> {
        let found = find_directory(&self.store, self.fs, directory)?;
        let mut entries = Vec::new(alloc);
        for at in 0..DIRECT_POINTERS {
            let block = found.inode.direct(at);
            if block == 0 {
                continue;
            }
            add_entries(
                alloc,
                read_block(&self.store, self.fs, block)?,
                &mut entries,
            )?;
        }
        Ok(entries)
    }
}
