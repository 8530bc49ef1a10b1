// What stands in the blocks of a volume.

use crate::plain::{BYTES, LAST_WRITTEN, Node, PLACES, Place, Plain, name_number};
use ffs_format::{Inode, entry_inode, entry_name, home, pointer};
use ffs_lib::Fs;
use xn_state::Store;

/// How many blocks of a file are read.
const FILE_BLOCKS: usize = BYTES / 512;

/// A block, unless it is 0.
fn some_block(block: u32) -> Option<u32> {
    if block == 0 { None } else { Some(block) }
}

/// An inode of a volume.
fn inode_of<S: Store>(store: &S, fs: Fs, number: u16) -> Option<Inode> {
    if number == 0 || number > 128 {
        return None;
    }
    let (index, place) = home(number);
    let root = store.read(fs, store.root(fs)?).ok()?;
    let block = some_block(pointer(root, index))?;
    Some(Inode::read(store.read(fs, block).ok()?, place))
}

/// A block of an inode, 0 to 139.
pub fn block_of<S: Store>(store: &S, fs: Fs, number: u16, index: usize) -> Option<u32> {
    let inode = inode_of(store, fs, number)?;
    if index < 12 {
        some_block(inode.direct(index))
    } else if index < 140 {
        let pointers = store.read(fs, some_block(inode.indirect())?).ok()?;
        some_block(pointer(pointers, index - 12))
    } else {
        None
    }
}

/// Takes the entries of a directory's first block. Whether each has one of the known names.
fn scan_entries<S: Store>(store: &S, fs: Fs, number: u16, plain: &mut Plain) -> bool {
    let Some(block) = block_of(store, fs, number, 0) else {
        return true;
    };
    let Ok(bytes) = store.read(fs, block) else {
        return false;
    };
    let mut known = true;
    for place in 0..PLACES {
        let inode = entry_inode(bytes, place);
        let name = name_number(entry_name(bytes, place));
        if inode != 0 {
            known = known && name.is_some();
            let name = name.unwrap_or(0);
            plain.set_place(number, place, Place { inode, name });
        }
    }
    known
}

/// Takes the bytes of a file.
fn scan_bytes<S: Store>(store: &S, fs: Fs, number: u16, plain: &mut Plain) {
    for index in 0..FILE_BLOCKS {
        if let Some(block) = block_of(store, fs, number, index)
            && let Ok(bytes) = store.read(fs, block)
        {
            plain.set_bytes(number, 512 * index, bytes);
        }
    }
}

/// Takes all that stands in a volume's blocks. Whether each name is one of the known ones.
pub fn scan<S: Store>(store: &S, fs: Fs, plain: &mut Plain) -> bool {
    plain.clear();
    let mut known = true;
    for number in 1..=128u16 {
        let Some(inode) = inode_of(store, fs, number) else {
            continue;
        };
        let (mode, links, size) = (inode.mode(), inode.links(), inode.size());
        plain.set_node(number, Node { mode, links, size });
        match mode {
            1 if number <= LAST_WRITTEN => scan_bytes(store, fs, number, plain),
            2 => known = scan_entries(store, fs, number, plain) && known,
            _ => {}
        }
    }
    known
}
