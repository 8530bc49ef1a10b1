// Which volume a file system of a disk has.

use crate::fault::DiskFault;
use edit_list::Fs;
use std::alloc::{AllocError, Global};
use templates::ROOT_SLOTS;
use tree_lines::BlockTypes;
use treefs_format::types::are_tree_templates;
use xn_state::Store;
use xnfs_session::has_volume;

/// The bytes of inode 0 that say the types of inodes and of nodes.
const INODE_TYPE: usize = 0;

const NODE_TYPE: usize = 1;

/// Which library file system's a volume is.
#[derive(Clone, Copy, Debug)]
pub enum VolumeKind {
    /// A volume of trees, whose blocks are of these types.
    Trees(BlockTypes),
    /// A volume of the first library file system.
    First,
}

/// Whether these types are those of nodes and of inodes of trees.
fn are_tree_types<S: Store>(store: &S, types: BlockTypes) -> bool {
    let node = store.template(u32::from(types.node));
    let inode = store.template(u32::from(types.inode));
    match (node, inode) {
        (Some(node), Some(inode)) => are_tree_templates(node, inode),
        _ => false,
    }
}

/// The types of the blocks of a file system's volume of trees, as its inode 0 says them; `None` where it has no such volume.
fn types_of<S: Store>(store: &S, fs: Fs) -> Option<BlockTypes> {
    let root = store.root(fs)?;
    let (Ok(ty), Ok(block)) = (store.kind(fs, root), store.read(fs, root)) else {
        return None;
    };
    let types = BlockTypes {
        node: block[NODE_TYPE],
        inode: block[INODE_TYPE],
    };
    (are_tree_types(store, types) && u32::from(types.inode) == ty).then_some(types)
}

/// Which volume a file system has; `None` where it has none that is known.
fn kind_of<S: Store>(store: &S, fs: Fs) -> Option<VolumeKind> {
    match types_of(store, fs) {
        Some(types) => Some(VolumeKind::Trees(types)),
        None if has_volume(store, fs) => Some(VolumeKind::First),
        None => None,
    }
}

/// Which file systems have a volume, as it is told.
fn told_volumes<S: Store>(alloc: Global, store: &S) -> Result<String, AllocError> {
    let mut told = String::new(alloc);
    for number in 0..ROOT_SLOTS as u8 {
        if let Some(fs) = Fs::new(number)
            && kind_of(store, fs).is_some()
        {
            let comma = if told.is_empty() { "" } else { ", " };
            told.push_str(&format!(in alloc; "{comma}{number}")?)?;
        }
    }
    if told.is_empty() {
        String::from_str(alloc, "the disk has none")
    } else {
        format!(in alloc; "there is that of {told}")
    }
}

/// Which volume a file system of a disk has. The fault is `NoVolume`, with those that have one, or `NoMemory`.
pub fn find_volume<S: Store>(alloc: Global, store: &S, fs: Fs) -> Result<VolumeKind, DiskFault> {
    match kind_of(store, fs) {
        Some(kind) => Ok(kind),
        None => Err(DiskFault::NoVolume {
            fs: fs.number(),
            others: told_volumes(alloc, store)?,
        }),
    }
}
