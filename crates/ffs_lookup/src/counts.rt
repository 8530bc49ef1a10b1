// How many entries of directories name an inode, and whether it has links for them.

ghost use Rattle.std.specs.Prelude.{◌≡◌, ◌≤◌, ◌-◌, ◌++◌, ℕ, List, [], Some, Ok, IsOk, OnOk, IfOk, slice_index};
ghost use Rattle.xn_model.specs.Rules.{IsConsistent};
ghost use Rattle.ffs_model.specs.Cuts.{latest};
ghost use Rattle.ffs_model.specs.Library.{IsLibrary};
ghost use Rattle.ffs_lookup.specs.Newest.{slots_of};
ghost use Rattle.ffs_lookup.specs.Counts.{AreCounts, least_with, links_in, named, named_numbers, numbers_in, numbers_of, open_in, over_named};
ghost use Rattle.ffs_lookup.specs.Places.{IsDirectory};

use crate::fault::FfsFault;
use crate::places::{Found, find_directory, find_inode, inode_block, read_block};
use edit_list::Fs;
use ffs_format::inodes::{DIRECT_POINTERS, MOST_INODES};
use ffs_format::{ENTRIES, entry_inode};
use store_types::BLOCK_LEN;
use xn_state::Store;

/// How many inodes a volume has at most, as an index.
const INODES: usize = MOST_INODES as usize;

/// How many entries name each inode, by its number less 1, cut off at 2^32 - 1; and the least number past 128 that is named.
#[derive(Drop)]
pub struct NameCounts {
    each: [u32; 128],
    past: Option<u16>,
}

impl NameCounts {
    /// Of no entries.
    fn none() -> NameCounts
        ensures { AreCounts [] result }
    {
        NameCounts {
            each: [0; 128],
            past: None,
        }
    }

    /// How many entries name the inode with a number.
    pub fn of(&self, number: u16) -> u32
        requires low { 1 ≤ number }
        requires high { number ≤ 128 }
        ensures { result ≡ slice_index self.now.each (number - 1) }
    {
        self.each[usize::from(number - 1)]
    }

    /// Counts an entry with this inode number; an entry with 0 is none.
    fn add(&mut self, inode: u16)
        ensures { (numbers : List ℕ) → AreCounts numbers self.old → AreCounts (numbers ++ named inode) self.new }
    {
        if inode == 0 {
            return;
        }
        let at = usize::from(inode - 1);
        if at < INODES {
            self.each[at] = self.each[at].saturating_add(1);
        } else {
            self.past = Some(least_of(self.past, inode));
        }
    }

    /// Counts the entries of a directory's block.
    fn add_block(&mut self, block: &[u8; BLOCK_LEN])
        ensures { (numbers : List ℕ) → AreCounts numbers self.old → AreCounts (numbers ++ numbers_in block.now) self.new }
    {
        for place in 0..ENTRIES {
            self.add(entry_inode(block, place));
        }
    }

    /// Counts the entries of a directory.
    fn add_directory<S: Store>(
        &mut self,
        store: &S,
        fs: Fs,
        number: u16,
        directory: &Found,
    ) -> Result<(), FfsFault>
        requires { IsDirectory (S.state_of store.now) fs.number number directory.now }
        ensures done { IsLibrary (S.types_of store.now) → IsOk result }
        ensures counts { OnOk result ((numbers : List ℕ) → AreCounts numbers self.old →
            AreCounts (numbers ++ numbers_of (slots_of (latest (S.state_of store.now).lives) directory.now.inode)) self.new) }
    {
        for i in 0..DIRECT_POINTERS {
            let block = directory.inode.direct(i);
            if block == 0 {
                continue;
            }
            self.add_block(read_block(store, fs, block)?);
        }
        Ok(())
    }
}

/// The lesser of a number, if there is one, and another.
fn least_of(least: Option<u16>, inode: u16) -> u16
    ensures { Some result ≡ least_with inode least }
{
    match least {
        Some(least) => least.min(inode),
        None => inode,
    }
}

/// Counts the entries of all directories of a file system.
pub fn count_names<S: Store>(store: &S, fs: Fs) -> Result<NameCounts, FfsFault>
    ensures done { IsLibrary (S.types_of store.now) → IsOk result }
    ensures counts { IsLibrary (S.types_of store.now) → IfOk result (AreCounts (named_numbers (latest (S.state_of store.now).lives) fs.number)) }
{
    let mut counts = NameCounts::none();
    for at in 0..INODES {
        let number = at as u16 + 1;
        let Ok(directory) = find_directory(store, fs, number) else {
            continue;
        };
        counts.add_directory(store, fs, number, &directory)?;
    }
    Ok(counts)
}

/// The links of an inode, 0 where none with this number is in use.
fn links_of<S: Store>(store: &S, fs: Fs, number: u16) -> u16
    ensures { IsLibrary (S.types_of store.now) → result ≡ links_in (latest (S.state_of store.now).lives) fs.number number }
{
    match find_inode(store, fs, number) {
        Ok(found) => found.inode.links(),
        Err(_) => 0,
    }
}

/// The least inode that more entries name than it has links.
pub fn find_over_named<S: Store>(store: &S, fs: Fs) -> Result<Option<u16>, FfsFault>
    ensures { IsLibrary (S.types_of store.now) → result ≡ Ok (over_named (latest (S.state_of store.now).lives) fs.number) }
{
    let counts = count_names(store, fs)?;
    for at in 0..INODES {
        let number = at as u16 + 1;
        if counts.each[at] > u32::from(links_of(store, fs, number)) {
            return Ok(Some(number));
        }
    }
    Ok(counts.past)
}

/// Looks for a volume whose names are good: nothing of the file system is pending, its root block points to a block of inodes at
/// index 0, and each inode has links for all entries that name it.
pub fn look_up_volume<S: Store>(store: &S, fs: Fs) -> Result<(), FfsFault>
    ensures exact { IsLibrary (S.types_of store.now) → result ≡ open_in (S.state_of store.now) fs.number }
    ensures rules { IsConsistent (S.types_of store.now) (S.state_of store.now) }
{
    if store.pending(fs) > 0 {
        return Err(FfsFault::Pending);
    }
    let _ = inode_block(store, fs, 0)?;
    match find_over_named(store, fs)? {
        Some(inode) => Err(FfsFault::Unsound(inode)),
        None => Ok(()),
    }
}
