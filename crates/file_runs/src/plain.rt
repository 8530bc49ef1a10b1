// A plain model of a volume: what its calls should answer and leave.

use crate::pair::Told;
use ffs_lib::FfsFault;
use std::alloc::{AllocError, Global};
use volume_pair::Action;

/// How many inodes there are.
pub const INODES: usize = 128;

/// How many places of a directory are kept here: there are fewer names.
pub const PLACES: usize = 16;

/// The last inode of which bytes are kept here: no other file is written.
pub const LAST_WRITTEN: u16 = 8;

/// How many bytes of each such file are kept here: no more are written.
pub const BYTES: usize = 7168;

/// The names that are used; what is none of them counts as no name.
pub static NAMES: [&[u8]; 10] = [
    b"a",
    b"b",
    b"c",
    b"d",
    b"e",
    b"f",
    b"name",
    b"other",
    b"more",
    b"a name of twenty-eight bytes",
];

/// What is no name.
pub static BAD_NAMES: [&[u8]; 4] = [b"", b"a/b", b"..", b"a name of twenty-nine bytes..."];

/// The mode of a file's inode, and of a directory's.
const FILE: u16 = 1;

const DIRECTORY: u16 = 2;

/// An inode without its pointers.
#[derive(Clone, Copy, PartialEq, Eq)]
pub struct Node {
    pub mode: u16,
    pub links: u16,
    pub size: u32,
}

/// A place of a directory: the inode that it names, or 0, and which name.
#[derive(Clone, Copy, PartialEq, Eq)]
pub struct Place {
    pub inode: u16,
    pub name: u16,
}

/// A volume: its inodes from 1 on, with the places of each directory, and the bytes of some files.
#[derive(Drop)]
pub struct Plain {
    nodes: Vec<Node>,
    places: Vec<Place>,
    bytes: Vec<u8>,
}

const FREE: Node = Node {
    mode: 0,
    links: 0,
    size: 0,
};

const GAP: Place = Place { inode: 0, name: 0 };

/// Which of the names these bytes are.
pub fn name_number(name: &[u8]) -> Option<u16> {
    for place in 0..NAMES.len() {
        if NAMES[place] == name {
            return Some(place as u16);
        }
    }
    None
}

/// The index of an inode's first place or byte, of so many.
fn start(inode: u16, count: usize) -> usize {
    usize::from(inode).wrapping_sub(1).wrapping_mul(count)
}

impl Plain {
    /// A volume without any inode.
    pub fn new(alloc: Global) -> Result<Plain, AllocError> {
        Ok(Plain {
            nodes: vec![in alloc; FREE; INODES]?,
            places: vec![in alloc; GAP; INODES * PLACES]?,
            bytes: vec![in alloc; 0u8; LAST_WRITTEN as usize * BYTES]?,
        })
    }

    /// Without any inode again.
    pub fn clear(&mut self) {
        self.nodes.as_mut_slice().fill(FREE);
        self.places.as_mut_slice().fill(GAP);
        self.bytes.as_mut_slice().fill(0);
    }

    /// Whether two are the same.
    pub fn is(&self, other: &Plain) -> bool {
        self.nodes.as_slice() == other.nodes.as_slice()
            && self.places.as_slice() == other.places.as_slice()
            && self.bytes.as_slice() == other.bytes.as_slice()
    }

    /// An inode; a free one where there is none of this number.
    pub fn node(&self, inode: u16) -> Node {
        match self.nodes.get(start(inode, 1)) {
            Some(node) => *node,
            None => FREE,
        }
    }

    /// Sets an inode.
    pub fn set_node(&mut self, inode: u16, node: Node) {
        if let Some(place) = self.nodes.get_mut(start(inode, 1)) {
            *place = node;
        }
    }

    /// A place of a directory.
    fn place(&self, directory: u16, place: usize) -> Place {
        match self
            .places
            .get(start(directory, PLACES).wrapping_add(place))
        {
            Some(entry) => *entry,
            None => GAP,
        }
    }

    /// Sets a place of a directory.
    pub fn set_place(&mut self, directory: u16, place: usize, entry: Place) {
        if let Some(at) = self
            .places
            .get_mut(start(directory, PLACES).wrapping_add(place))
        {
            *at = entry;
        }
    }

    /// Sets bytes of a file.
    pub fn set_bytes(&mut self, inode: u16, at: usize, bytes: &[u8]) {
        let mut at = start(inode, BYTES).wrapping_add(at);
        for byte in bytes {
            if let Some(place) = self.bytes.get_mut(at) {
                *place = *byte;
            }
            at = at.wrapping_add(1);
        }
    }

    /// The first place of a directory with a name, or without any.
    fn find(&self, directory: u16, name: Option<u16>) -> Option<usize> {
        for place in 0..PLACES {
            let entry = self.place(directory, place);
            let is_it = match name {
                Some(name) => entry.inode != 0 && entry.name == name,
                None => entry.inode == 0,
            };
            if is_it {
                return Some(place);
            }
        }
        None
    }

    /// Whether a directory has a name.
    pub fn has_name(&self, directory: u16, name: &[u8]) -> bool {
        match name_number(name) {
            Some(name) => self.find(directory, Some(name)).is_some(),
            None => false,
        }
    }

    /// How many names an inode has.
    fn count_names(&self, inode: u16) -> u16 {
        let mut count = 0u16;
        for entry in &self.places {
            if entry.inode == inode {
                count = count.saturating_add(1);
            }
        }
        count
    }

    /// Whether each name has an inode in use, with links enough.
    pub fn is_sound(&self) -> bool {
        for entry in &self.places {
            let node = self.node(entry.inode);
            if entry.inode != 0 && (node.mode == 0 || node.links < self.count_names(entry.inode)) {
                return false;
            }
        }
        true
    }

    /// The inode of a mode, or why there is none.
    fn check(&self, inode: u16, mode: u16) -> Result<Node, FfsFault> {
        let node = self.node(inode);
        match (node.mode, mode) {
            (0, _) => Err(FfsFault::NoEntry),
            (FILE, DIRECTORY) => Err(FfsFault::NotDir),
            (DIRECTORY, FILE) => Err(FfsFault::IsDir),
            _ => Ok(node),
        }
    }

    /// A directory's place with a name, and the inode there, or why there is none.
    fn check_name(&self, directory: u16, name: &[u8]) -> Result<(usize, u16), FfsFault> {
        let _ = self.check(directory, DIRECTORY)?;
        let name = name_number(name).ok_or(FfsFault::BadName)?;
        let place = self.find(directory, Some(name)).ok_or(FfsFault::NoEntry)?;
        Ok((place, self.place(directory, place).inode))
    }

    /// The number of a name to which one moves from a directory into another, or why it can't.
    fn check_move(&self, directory: u16, other: u16, new_name: &[u8]) -> Result<u16, FfsFault> {
        if self.node(directory).mode == 0 || self.node(other).mode == 0 {
            return Err(FfsFault::NoEntry);
        }
        let _ = self.check(directory, DIRECTORY)?;
        let _ = self.check(other, DIRECTORY)?;
        name_number(new_name).ok_or(FfsFault::BadName)
    }

    /// A call.
    pub fn call(&mut self, action: &Action) -> Told {
        match action {
            Action::Create(directory, name) => self.make(*directory, name, FILE),
            Action::Mkdir(directory, name) => self.make(*directory, name, DIRECTORY),
            Action::Write(inode, offset, bytes) => self.write(*inode, *offset, bytes),
            Action::Unlink(directory, name) => self.unlink(*directory, name),
            Action::Rmdir(directory, name) => self.rmdir(*directory, name),
            Action::Rename(directory, name, other, new_name) => {
                self.rename(*directory, name, *other, new_name)
            }
            Action::Replace(directory, name, other, other_name) => {
                self.replace(*directory, name, *other, other_name)
            }
        }
    }

    /// The first free inode.
    fn free_inode(&self) -> Option<u16> {
        for inode in 1..=128u16 {
            if self.node(inode).mode == 0 {
                return Some(inode);
            }
        }
        None
    }

    fn make(&mut self, directory: u16, name: &[u8], mode: u16) -> Told {
        let _ = self.check(directory, DIRECTORY)?;
        let name = name_number(name).ok_or(FfsFault::BadName)?;
        if self.find(directory, Some(name)).is_some() {
            return Err(FfsFault::Exists);
        }
        let inode = self.free_inode().ok_or(FfsFault::NoInode)?;
        let place = self.find(directory, None).ok_or(FfsFault::TooLarge)?;
        let node = Node {
            mode,
            links: 1,
            size: 0,
        };
        self.set_node(inode, node);
        self.enter(directory, place, Place { inode, name });
        Ok(u64::from(inode))
    }

    /// Sets a place, and the directory's size.
    fn enter(&mut self, directory: u16, place: usize, entry: Place) {
        self.set_place(directory, place, entry);
        let mut node = self.node(directory);
        let size = (place / 16).wrapping_add(1).wrapping_mul(512);
        node.size = node.size.max((size & 0xffff) as u32);
        self.set_node(directory, node);
    }

    fn write(&mut self, inode: u16, offset: u32, bytes: &[u8]) -> Told {
        let mut node = self.check(inode, FILE)?;
        let end = (offset as usize).wrapping_add(bytes.len());
        if end > 71_680 {
            return Err(FfsFault::TooLarge);
        }
        if !bytes.is_empty() {
            for at in node.size..offset {
                self.set_bytes(inode, at as usize, &[0]);
            }
            node.size = node.size.max(end as u32);
        }
        self.set_bytes(inode, offset as usize, bytes);
        self.set_node(inode, node);
        Ok(0)
    }

    /// Takes a name, and the inode with its last link.
    fn remove(&mut self, directory: u16, place: usize) {
        let inode = self.place(directory, place).inode;
        self.set_place(directory, place, GAP);
        let mut node = self.node(inode);
        if node.links > 1 {
            node.links -= 1;
            self.set_node(inode, node);
        } else {
            self.set_node(inode, FREE);
            self.set_bytes(inode, 0, &[0; BYTES]);
        }
    }

    fn unlink(&mut self, directory: u16, name: &[u8]) -> Told {
        let (place, inode) = self.check_name(directory, name)?;
        let _ = self.check(inode, FILE)?;
        self.remove(directory, place);
        Ok(0)
    }

    fn rmdir(&mut self, directory: u16, name: &[u8]) -> Told {
        let (place, inode) = self.check_name(directory, name)?;
        let _ = self.check(inode, DIRECTORY)?;
        for entry in 0..PLACES {
            if self.place(inode, entry).inode != 0 {
                return Err(FfsFault::DirNotEmpty);
            }
        }
        self.remove(directory, place);
        Ok(0)
    }

    fn rename(&mut self, directory: u16, name: &[u8], other: u16, new_name: &[u8]) -> Told {
        let number = self.check_move(directory, other, new_name)?;
        let (place, inode) = self.check_name(directory, name)?;
        if self.find(other, Some(number)).is_some() {
            return Err(FfsFault::Exists);
        }
        if self.node(inode).mode == DIRECTORY && directory != other {
            return Err(FfsFault::IsDir);
        }
        let gap = self.find(other, None).ok_or(FfsFault::TooLarge)?;
        let entry = Place {
            inode,
            name: number,
        };
        self.enter(other, gap, entry);
        self.set_place(directory, place, GAP);
        Ok(0)
    }

    fn replace(&mut self, directory: u16, name: &[u8], other: u16, other_name: &[u8]) -> Told {
        let number = self.check_move(directory, other, other_name)?;
        let (from, inode) = self.check_name(directory, name)?;
        let (to, former) = self.check_name(other, other_name)?;
        let _ = self.check(inode, FILE)?;
        let _ = self.check(former, FILE)?;
        if directory == other && from == to {
            return Ok(0);
        }
        if inode == former {
            self.remove(directory, from);
            return Ok(0);
        }
        self.remove(other, to);
        let entry = Place {
            inode,
            name: number,
        };
        self.set_place(other, to, entry);
        self.set_place(directory, from, GAP);
        Ok(0)
    }

    /// Whether a read of a file should give this.
    pub fn is_read(
        &self,
        inode: u16,
        offset: usize,
        bytes: &[u8],
        answer: Result<usize, FfsFault>,
    ) -> bool {
        match self.check(inode, FILE) {
            Err(fault) => answer == Err(fault),
            Ok(node) => {
                let length = (node.size as usize).saturating_sub(offset).min(bytes.len());
                let first = start(inode, BYTES).wrapping_add(offset);
                let wanted = self.bytes.get(first..first.wrapping_add(length));
                answer == Ok(length) && wanted == bytes.get(..length)
            }
        }
    }

    /// Whether a list of a directory should give this.
    pub fn is_list(&self, directory: u16, answer: &Result<Vec<(Vec<u8>, u16)>, FfsFault>) -> bool {
        match (self.check(directory, DIRECTORY), answer) {
            (Err(wanted), Err(fault)) => wanted == *fault,
            (Ok(_), Ok(names)) => self.are_names(directory, names),
            _ => false,
        }
    }

    /// Whether these are the names in a directory, in their order.
    fn are_names(&self, directory: u16, names: &[(Vec<u8>, u16)]) -> bool {
        let mut count = 0usize;
        for place in 0..PLACES {
            let entry = self.place(directory, place);
            if entry.inode != 0 {
                match names.get(count) {
                    Some((name, inode))
                        if *inode == entry.inode && name_number(name) == Some(entry.name) => {
                        count = count.wrapping_add(1);
                    }
                    _ => return false,
                }
            }
        }
        count == names.len()
    }
}
