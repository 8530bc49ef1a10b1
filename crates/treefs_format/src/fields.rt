// The fields of an inode before its pointers: its 48 first bytes.

ghost use Rattle.std.specs.Prelude.{◌≡◌, ◌++◌, ◌+◌, ◌≤◌, ◌≢◌, [], drop, length, IfOk, IsTrue};
ghost use Rattle.std.specs.Int.{w16, w32, w64, to_le_bytes};
ghost use Rattle.xn_model.specs.Lists.{put};
ghost use Rattle.treefs_format.specs.Fields.{time_bytes};

use crate::numbers::{half_at, long_at, signed_at, word_at};
use edit_list::Patch;
use std::alloc::{AllocError, Global};
use store_types::BLOCK_LEN;

/// Writes a number into two bytes, from a place on.
#[inline(always)]
fn put_half(bytes: &mut [u8; 48], at: usize, number: u16)
    requires { at + 2 ≤ 48 }
    ensures { bytes.new ≡ put bytes.old at (to_le_bytes w16 number) }
{
    bytes[at..at + 2].copy_from_slice(&number.to_le_bytes());
}

/// Writes a number into four bytes, from a place on.
#[inline(always)]
fn put_word(bytes: &mut [u8; 48], at: usize, number: u32)
    requires { at + 4 ≤ 48 }
    ensures { bytes.new ≡ put bytes.old at (to_le_bytes w32 number) }
{
    bytes[at..at + 4].copy_from_slice(&number.to_le_bytes());
}

/// Writes a number into eight bytes, from a place on.
#[inline(always)]
fn put_long(bytes: &mut [u8; 48], at: usize, number: u64)
    requires { at + 8 ≤ 48 }
    ensures { bytes.new ≡ put bytes.old at (to_le_bytes w64 number) }
{
    bytes[at..at + 8].copy_from_slice(&number.to_le_bytes());
}

/// Writes a time into eight bytes, from a place on.
#[inline(always)]
fn put_time(bytes: &mut [u8; 48], at: usize, time: i64)
    requires { at + 8 ≤ 48 }
    ensures { bytes.new ≡ put bytes.old at (time_bytes time) }
{
    bytes[at..at + 8].copy_from_slice(&time.to_le_bytes());
}

/// The fields of an inode.
#[derive(Clone, Copy, Debug)]
pub struct Fields {
    /// The type of the blocks of its content; in inode 0 the type of inodes.
    pub leaf_type: u8,
    /// The type of nodes.
    pub node_type: u8,
    /// Its kind and 12 permission bits; 0 in inode 0.
    pub mode: u16,
    /// How many names lead to it.
    pub links: u32,
    /// Its user.
    pub uid: u32,
    /// Its group.
    pub gid: u32,
    /// How many bytes a file or a symbolic link has; 0 of a directory.
    pub size: u64,
    /// When its content changed, in nanoseconds since 1970.
    pub mtime: i64,
    /// When it changed itself, in nanoseconds since 1970.
    pub ctime: i64,
    /// Of a directory the inode in which it stands; of any other 0.
    pub parent: u32,
    /// What tells it from an earlier inode of its number.
    pub generation: u32,
}

impl Fields {
    ghost use Rattle.treefs_format.specs.Fields.{field_bytes, fields_of};

    /// Those that an inode block says.
    pub fn read(block: &[u8; BLOCK_LEN]) -> Fields
        ensures { result ≡ fields_of block.now }
    {
        Fields {
            leaf_type: block[0],
            node_type: block[1],
            mode: half_at(block, 2),
            links: word_at(block, 4),
            uid: word_at(block, 8),
            gid: word_at(block, 12),
            size: long_at(block, 16),
            mtime: signed_at(block, 24),
            ctime: signed_at(block, 32),
            parent: word_at(block, 40),
            generation: word_at(block, 44),
        }
    }

    /// Their 48 bytes. What is read of them is said by the law `inodes_are_read_back`.
    pub fn bytes(&self) -> [u8; 48]
        ensures { result ≡ field_bytes self.now }
    {
        let mut bytes = [0; 48];
        bytes[0] = self.leaf_type;
        bytes[1] = self.node_type;
        put_half(&mut bytes, 2, self.mode);
        put_word(&mut bytes, 4, self.links);
        put_word(&mut bytes, 8, self.uid);
        put_word(&mut bytes, 12, self.gid);
        put_long(&mut bytes, 16, self.size);
        put_time(&mut bytes, 24, self.mtime);
        put_time(&mut bytes, 32, self.ctime);
        put_word(&mut bytes, 40, self.parent);
        put_word(&mut bytes, 44, self.generation);
        bytes
    }
}

/// What one of the fields is to be. What is read once it is written is said by the law `changes_are_made`.
#[derive(Clone, Copy)]
pub enum Change {
    Mode(u16),
    Links(u32),
    Uid(u32),
    Gid(u32),
    Size(u64),
    Mtime(i64),
    Ctime(i64),
    Parent(u32),
}

impl Change {
    ghost use Rattle.treefs_format.specs.Fields.{are_adjoining, change_bytes, change_offset, changes_patch};

    /// The byte of an inode block from which on the field stands.
    pub fn offset(&self) -> u16
        ensures { result ≡ change_offset self.now }
    {
        match self {
            Change::Mode(_) => 2,
            Change::Links(_) => 4,
            Change::Uid(_) => 8,
            Change::Gid(_) => 12,
            Change::Size(_) => 16,
            Change::Mtime(_) => 24,
            Change::Ctime(_) => 32,
            Change::Parent(_) => 40,
        }
    }

    /// Writes the bytes of the field behind others.
    fn append(&self, bytes: &mut Vec<u8>) -> Result<(), AllocError>
        ensures { IfOk result (λ _. bytes.new.items ≡ bytes.old.items ++ change_bytes self.now) }
    {
        match *self {
            Change::Mode(mode) => bytes.extend_from_slice(&mode.to_le_bytes()),
            Change::Links(links) => bytes.extend_from_slice(&links.to_le_bytes()),
            Change::Uid(uid) => bytes.extend_from_slice(&uid.to_le_bytes()),
            Change::Gid(gid) => bytes.extend_from_slice(&gid.to_le_bytes()),
            Change::Size(size) => bytes.extend_from_slice(&size.to_le_bytes()),
            Change::Mtime(time) => bytes.extend_from_slice(&time.to_le_bytes()),
            Change::Ctime(time) => bytes.extend_from_slice(&time.to_le_bytes()),
            Change::Parent(parent) => bytes.extend_from_slice(&parent.to_le_bytes()),
        }
    }

    /// The patch that makes these changes, of fields that stand side by side. `Err` comes only for want of memory.
    pub fn patch(alloc: Global, changes: &[Change]) -> Result<Patch, AllocError>
        requires some { changes.now ≢ [] }
        requires adjoining { IsTrue (are_adjoining changes.now) }
        ensures { IfOk result (λ patch. patch ≡ changes_patch changes.now) }
    {
        let mut bytes = Vec::with_capacity(alloc, 8 * changes.len())?;
        for change in changes {
            change.append(&mut bytes)?;
        }
        Ok(Patch {
            offset: changes[0].offset(),
            bytes,
        })
    }
}
