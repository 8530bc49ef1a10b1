// Inodes by their numbers.

ghost use Rattle.std.specs.Prelude.{◌≡◌, Ok};
ghost use Rattle.treefs_lookup.specs.Inodes.{directory_found, file_found, found_block, inode_found, link_found};
ghost use Rattle.treefs_lookup.specs.Readable.{readable};
ghost use Rattle.treefs_model.specs.Reading.{inode_block};

use crate::blocks::read_block;
use crate::paths::leaf_block;
use edit_list::Fs;
use treefs_format::paths::LEAVES;
use treefs_format::{Fields, Kind, roots};
use treefs_model::Fault;
use xn_state::Store;

/// An inode that is in use.
#[derive(Clone, Copy, Debug)]
pub struct Found {
    /// Its block.
    pub block: u32,
    /// What it is.
    pub kind: Kind,
    /// Its fields.
    pub fields: Fields,
}

/// The block of the inode of a number; 0 for a number that is free, or none. `top` is the block of inode 0.
pub fn inode_block<S: Store>(store: &S, fs: Fs, top: u32, number: u32) -> u32
    ensures { result ≡ inode_block (readable (S.state_of store.now) fs.number) top number }
{
    if number == 0 || number > LEAVES {
        return 0;
    }
    leaf_block(store, fs, top, roots::inode_leaf(number))
}

/// The inode that a block is. The fault is `NoEntry`.
pub fn find_block<S: Store>(store: &S, fs: Fs, block: u32) -> Result<Found, Fault>
    ensures { result ≡ found_block (readable (S.state_of store.now) fs.number) block }
{
    if block == 0 {
        return Err(Fault::NoEntry);
    }
    let Some(bytes) = read_block(store, fs, block) else {
        return Err(Fault::NoEntry);
    };
    let fields = Fields::read(bytes);
    match Kind::of_mode(fields.mode) {
        Some(kind) => Ok(Found {
            block,
            kind,
            fields,
        }),
        None => Err(Fault::NoEntry),
    }
}

/// The inode of a number. The fault is `NoEntry`.
#[tactic(auto, unfolding(crate::specs::Inodes::inode_found))]
pub fn find_inode<S: Store>(store: &S, fs: Fs, top: u32, number: u32) -> Result<Found, Fault>
    ensures { result ≡ inode_found (readable (S.state_of store.now) fs.number) top number }
{
    let block = inode_block(store, fs, top, number);
    find_block(store, fs, block)
}

/// The directory of a number. The faults are `NoEntry` where there is no inode, `NotDir`, and `NoEntry` where it has no link any more.
pub fn find_directory<S: Store>(store: &S, fs: Fs, top: u32, number: u32) -> Result<Found, Fault>
    ensures { result ≡ directory_found (readable (S.state_of store.now) fs.number) top number }
{
    let found = find_inode(store, fs, top, number)?;
    match found.kind {
        Kind::Directory if found.fields.links == 0 => Err(Fault::NoEntry),
        Kind::Directory => Ok(found),
        Kind::File | Kind::SymbolicLink => Err(Fault::NotDir),
    }
}

/// The file or symbolic link of a number. The faults are `NoEntry` and `IsDir`.
pub fn find_file<S: Store>(store: &S, fs: Fs, top: u32, number: u32) -> Result<Found, Fault>
    ensures { result ≡ file_found (readable (S.state_of store.now) fs.number) top number }
{
    let found = find_inode(store, fs, top, number)?;
    match found.kind {
        Kind::Directory => Err(Fault::IsDir),
        Kind::File | Kind::SymbolicLink => Ok(found),
    }
}

/// The symbolic link of a number. The faults are `NoEntry` and `NotLink`.
pub fn find_link<S: Store>(store: &S, fs: Fs, top: u32, number: u32) -> Result<Found, Fault>
    ensures { result ≡ link_found (readable (S.state_of store.now) fs.number) top number }
{
    let found = find_inode(store, fs, top, number)?;
    match found.kind {
        Kind::SymbolicLink => Ok(found),
        Kind::Directory | Kind::File => Err(Fault::NotLink),
    }
}
