// Inodes, of which an inode block has eight.

ghost use Rattle.std.specs.Prelude.{◌≡◌, ◌+◌, ◌*◌, ◌-◌, ◌/◌, ◌%◌, ◌<◌, ◌≤◌, bytes_eq, length, replicate, slice_set};
ghost use Rattle.std.specs.Int.{w16, w32, to_le_bytes};
ghost use Rattle.xn_model.specs.Lists.{put};
ghost use Rattle.ffs_model.specs.Library.{inode_at};
ghost use Rattle.ffs_format.specs.Fields.{direct_in, fields_of};

use byteorder::{ByteOrder, LittleEndian};
use std::marker::Model;
use store_types::BLOCK_LEN;

/// How many inodes a volume has at most.
pub const MOST_INODES: u16 = 128;

/// How many inodes a block has.
pub const INODES: usize = 8;

/// How many bytes an inode has.
pub const INODE_LEN: usize = 64;

/// How many blocks of data an inode points to itself.
pub const DIRECT_POINTERS: usize = 12;

/// The byte of an inode at which its count of links stands.
const LINKS: usize = 2;

/// The byte of an inode at which its size stands.
const SIZE: usize = 4;

/// The byte of an inode at which its first pointer stands; each has four.
const DIRECT: usize = 8;

/// The byte of an inode at which the pointer to its indirect block stands.
const INDIRECT: usize = 56;

/// An inode: its mode, its links, its size and its pointers, as the 64 bytes that stand in a block.
#[derive(Drop)]
pub struct Inode {
    bytes: [u8; 64],
}

impl Model for Inode {
    ghost use Rattle.std.specs.Prelude.{List, ℕ};

    ghost Value = { List ℕ };

    ghost view = { λ a. a.bytes };
}

/// Where inode `number`, from 1 on, stands: which of the root block's inode blocks, and its place there.
pub fn home(number: u16) -> (usize, usize)
    requires { 1 ≤ number }
    ensures { result ≡ ((number - 1) / 8, (number - 1) % 8) }
{
    let at = usize::from(number - 1);
    (at / INODES, at % INODES)
}

impl Inode {
    /// A free inode, which is all zeros.
    pub fn free() -> Inode
        ensures { result ≡ replicate 64 0 }
    {
        Inode { bytes: [0; 64] }
    }

    /// Whether it is free: all zeros.
    pub fn is_free(&self) -> bool
        ensures { result ≡ bytes_eq self.now (replicate 64 0) }
    {
        self.bytes == [0; 64]
    }

    /// The inode at a place of an inode block, 0 to 7.
    pub fn read(block: &[u8; BLOCK_LEN], place: usize) -> Inode
        requires { place < 8 }
        ensures { result ≡ inode_at block.now place }
    {
        let mut bytes = [0; 64];
        let at = INODE_LEN * place;
        bytes.copy_from_slice(&block[at..at + INODE_LEN]);
        Inode { bytes }
    }

    /// Its bytes.
    pub fn bytes(&self) -> &[u8; 64]
        ensures bytes { result.now ≡ self.now }
        ensures whole { length self.now ≡ 64 }
    {
        &self.bytes
    }

    /// 0 where it is free, 1 for a file and 2 for a directory.
    #[tactic(auto, unfolding(ffs_model::specs::Library::half_at))]
    pub fn mode(&self) -> u16
        ensures { result ≡ (fields_of self.now).mode }
    {
        LittleEndian::read_u16(&self.bytes[..LINKS])
    }

    /// How many entries name it, at most.
    #[tactic(auto, unfolding(ffs_model::specs::Library::half_at))]
    pub fn links(&self) -> u16
        ensures { result ≡ (fields_of self.now).links }
    {
        LittleEndian::read_u16(&self.bytes[LINKS..SIZE])
    }

    /// How many bytes its file has.
    #[tactic(auto, unfolding(xn_model::specs::Root::word_at))]
    pub fn size(&self) -> u32
        ensures { result ≡ (fields_of self.now).size }
    {
        LittleEndian::read_u32(&self.bytes[SIZE..DIRECT])
    }

    /// One of the 12 blocks of data to which it points itself, or 0.
    #[tactic(auto, unfolding(xn_model::specs::Root::word_at))]
    pub fn direct(&self, i: usize) -> u32
        requires { i < 12 }
        ensures { result ≡ direct_in self.now i }
    {
        let at = DIRECT + 4 * i;
        LittleEndian::read_u32(&self.bytes[at..at + 4])
    }

    /// The block of pointers to the rest of its blocks, or 0.
    #[tactic(auto, unfolding(xn_model::specs::Root::word_at))]
    pub fn indirect(&self) -> u32
        ensures { result ≡ (fields_of self.now).indirect }
    {
        LittleEndian::read_u32(&self.bytes[INDIRECT..INDIRECT + 4])
    }

    /// Sets the mode. Nothing else changes.
    #[tactic(auto, using(crate::proofs::Written::mode_written))]
    pub fn set_mode(&mut self, mode: u16)
        ensures bytes { self.new ≡ put self.old 0 (to_le_bytes w16 mode) }
        ensures fields { fields_of self.new ≡ record (fields_of self.old) { mode = mode } }
    {
        LittleEndian::write_u16(&mut self.bytes[..LINKS], mode);
    }

    /// Sets the count of links. Nothing else changes.
    #[tactic(auto, using(crate::proofs::Written::links_written))]
    pub fn set_links(&mut self, links: u16)
        ensures bytes { self.new ≡ put self.old 2 (to_le_bytes w16 links) }
        ensures fields { fields_of self.new ≡ record (fields_of self.old) { links = links } }
    {
        LittleEndian::write_u16(&mut self.bytes[LINKS..SIZE], links);
    }

    /// Sets the size. Nothing else changes.
    #[tactic(auto, using(crate::proofs::Written::size_written))]
    pub fn set_size(&mut self, size: u32)
        ensures bytes { self.new ≡ put self.old 4 (to_le_bytes w32 size) }
        ensures fields { fields_of self.new ≡ record (fields_of self.old) { size = size } }
    {
        LittleEndian::write_u32(&mut self.bytes[SIZE..DIRECT], size);
    }

    /// Sets one of the 12 blocks of data to which it points itself. Nothing else changes.
    #[tactic(auto, using(crate::proofs::Written::direct_written))]
    pub fn set_direct(&mut self, i: usize, block: u32)
        requires { i < 12 }
        ensures bytes { self.new ≡ put self.old (8 + 4 * i) (to_le_bytes w32 block) }
        ensures fields { fields_of self.new ≡ record (fields_of self.old) { direct = slice_set (fields_of self.old).direct i block } }
    {
        let at = DIRECT + 4 * i;
        LittleEndian::write_u32(&mut self.bytes[at..at + 4], block);
    }

    /// Sets the block of pointers to the rest of its blocks. Nothing else changes.
    #[tactic(auto, using(crate::proofs::Written::indirect_written))]
    pub fn set_indirect(&mut self, block: u32)
        ensures bytes { self.new ≡ put self.old 56 (to_le_bytes w32 block) }
        ensures fields { fields_of self.new ≡ record (fields_of self.old) { indirect = block } }
    {
        LittleEndian::write_u32(&mut self.bytes[INDIRECT..INDIRECT + 4], block);
    }
}
