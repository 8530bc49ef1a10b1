// An open volume of the first library file system is looked at: its permissions, owners and times are made up, as it has none.

ghost use Rattle.std.specs.Prelude.{◌≡◌, IfOk, ⊤};

use crate::reasons::seen;
use crate::volume::FirstVolume;
use ffs_format::entries::NAME_LEN;
use ffs_format::inodes::DIRECT_POINTERS;
use flush_store::FlushStore;
use std::alloc::Global;
use store_types::BLOCK_LEN;
use tree_lines::{Named, Node, Reason, Stretch, TOP, Usage, View, block_count};
use treefs_format::Kind;
use xnfs_session::{MOST_BYTES, MOST_INODES, Session};

/// The inode of a number; none has a greater one.
fn inode_of(number: u32) -> Result<u16, Reason> {
    match u16::try_from(number) {
        Ok(inode) => Ok(inode),
        Err(_) => Err(Reason::Missing),
    }
}

/// The file of a number.
fn file_of<S: FlushStore + Drop>(volume: &FirstVolume<S>, number: u32) -> Result<Node, Reason> {
    let node = volume.node(number)?;
    if node.is_folder() {
        Err(Reason::Folder)
    } else {
        Ok(node)
    }
}

/// The names of a folder as they stand there.
fn listed<S: FlushStore + Drop>(
    session: &Session<S>,
    alloc: Global,
    folder: u32,
) -> Result<Vec<(Vec<u8>, u16)>, Reason> {
    let inode = inode_of(folder)?;
    seen(session.volume().list(alloc, session.store(), inode))
}

/// Whether a folder has a name that leads to a number.
fn has_number<S: FlushStore + Drop>(
    session: &Session<S>,
    alloc: Global,
    folder: u32,
    number: u32,
) -> Result<bool, Reason> {
    match listed(session, alloc, folder) {
        Ok(names) => Ok(names.iter().any(|(_, inode)| u32::from(*inode) == number)),
        Err(Reason::NoMemory) => Err(Reason::NoMemory),
        Err(_) => Ok(false),
    }
}

/// The folder in which a folder stands: the first one that has a name for it.
fn parent_of<S: FlushStore + Drop>(
    session: &Session<S>,
    alloc: Global,
    number: u32,
) -> Result<u32, Reason> {
    if number == TOP {
        return Ok(TOP);
    }
    for folder in 1..=u32::from(MOST_INODES) {
        if has_number(session, alloc, folder, number)? {
            return Ok(folder);
        }
    }
    Err(Reason::Missing)
}

/// Where a name between the slashes of a path leads from a number.
fn step_of<S: FlushStore + Drop>(
    volume: &FirstVolume<S>,
    alloc: Global,
    number: u32,
    name: &[u8],
) -> Result<u32, Reason> {
    if !volume.node(number)?.is_folder() {
        return Err(Reason::NoFolder);
    }
    if name.is_empty() || name == b".".as_slice() {
        return Ok(number);
    }
    if name == b"..".as_slice() {
        return parent_of(&volume.session, alloc, number);
    }
    let inode = seen(volume.session.look_up(inode_of(number)?, name))?;
    Ok(u32::from(inode))
}

impl<S: FlushStore + Drop> View for FirstVolume<S> {
    // nothing is said of the names of folders there, and of where names and paths lead
    ghost leads = { λ s folder path last result. ⊤ };

    ghost names_number = { λ s folder name result. ⊤ };

    ghost lists = { λ s folder result. ⊤ };

    ghost shows = { λ s number result. IfOk result (λ node. node.number ≡ number) };

    // nor of bytes
    ghost reads = { λ s number at old new result. ⊤ };

    ghost points = { λ s number result. ⊤ };

    ghost stretches = { λ s number at most result. ⊤ };

    fn node(&self, number: u32) -> Result<Node, Reason> {
        let found = seen(self.session.node(inode_of(number)?))?;
        let (kind, permissions) = if found.is_directory {
            (Kind::Directory, 0o755)
        } else {
            (Kind::File, 0o644)
        };
        Ok(Node {
            number,
            kind,
            permissions,
            links: u32::from(found.links),
            uid: 0,
            gid: 0,
            size: u64::from(found.size),
            modified: 0,
            changed: 0,
        })
    }

    fn look_up(&self, folder: u32, name: &[u8]) -> Result<u32, Reason> {
        let inode = seen(self.session.look_up(inode_of(folder)?, name))?;
        Ok(u32::from(inode))
    }

    fn names(&self, alloc: Global, folder: u32) -> Result<Vec<Named>, Reason> {
        let mut names = Vec::new(alloc);
        for (name, inode) in listed(&self.session, alloc, folder)? {
            names.push(Named {
                name,
                number: u32::from(inode),
            })?;
        }
        names.sort_unstable();
        Ok(names)
    }

    fn read(&self, number: u32, at: u64, bytes: &mut [u8]) -> Result<usize, Reason> {
        let file = file_of(self, number)?;
        match u32::try_from(at) {
            Ok(at) if u64::from(at) < file.size => seen(
                self.session
                    .volume()
                    .read(self.session.store(), inode_of(number)?, at, bytes),
            ),
            _ => Ok(0),
        }
    }

    fn target(&self, _alloc: Global, number: u32) -> Result<Vec<u8>, Reason> {
        let _node = self.node(number)?;
        Err(Reason::NoLink)
    }

    fn stretch(&self, number: u32, at: u64, most: u64) -> Result<Option<Stretch>, Reason> {
        let length = file_of(self, number)?.size.saturating_sub(at).min(most);
        Ok(if length == 0 {
            None
        } else {
            Some(Stretch { at, length })
        })
    }

    fn blocks_held(&self, number: u32) -> Result<u64, Reason> {
        let blocks = self.node(number)?.size.div_ceil(BLOCK_LEN as u64);
        Ok(if blocks > DIRECT_POINTERS as u64 {
            blocks.saturating_add(1)
        } else {
            blocks
        })
    }

    fn find(
        &self,
        alloc: Global,
        folder: u32,
        path: &[u8],
        _is_followed: bool,
    ) -> Result<u32, Reason> {
        let mut number = if path.first() == Some(&b'/') {
            TOP
        } else {
            folder
        };
        for name in path.split(|byte| *byte == b'/') {
            number = step_of(self, alloc, number, name)?;
        }
        Ok(number)
    }

    fn usage(&self) -> Usage {
        let usage = self.session.usage();
        Usage {
            free_blocks: usage.free_blocks,
            blocks: block_count(self.session.store(), self.session.fs()),
            numbers: Some((u32::from(usage.used_inodes), u32::from(MOST_INODES))),
            longest_name: NAME_LEN as u32,
            largest_file: u64::from(MOST_BYTES),
        }
    }
}
