// A piece of a block with few bytes.

ghost use Rattle.std.specs.Prelude.{◌≡◌, ◌+◌, ◌≤◌, length};
ghost use Rattle.xn_model.specs.Lists.{put};

use std::marker::Model;
use store_types::BLOCK_LEN;

/// A piece of a block with at most 16 bytes, which lie in place.
#[derive(Drop)]
pub struct ShortPiece {
    offset: u16,
    length: u16,
    bytes: [u8; 16],
}

impl Model for ShortPiece {
    ghost use Rattle.std.specs.Prelude.{◌+◌, ◌≤◌, take};
    ghost use Rattle.xn_model.specs.Calls.{Patch as PatchValue};

    ghost Value = { PatchValue };

    ghost view = { λ a. record { offset = a.offset; bytes = take a.length a.bytes } };

    ghost invariant = { λ a. (a.length ≤ 16) × (a.offset + a.length ≤ 512) };
}

impl ShortPiece {
    /// The piece with these bytes.
    pub fn new(offset: u16, bytes: &[u8]) -> ShortPiece
        requires short { length bytes.now ≤ 16 }
        requires within { offset + length bytes.now ≤ 512 }
        ensures { result ≡ record { offset = offset; bytes = bytes.now } }
    {
        let mut place = [0; 16];
        place[..bytes.len()].copy_from_slice(bytes);
        ShortPiece {
            offset,
            length: bytes.len() as u16,
            bytes: place,
        }
    }

    /// Where it starts.
    pub fn offset(&self) -> u16
        ensures { result ≡ self.now.offset }
    {
        self.offset
    }

    /// Its bytes, none of which is past byte 511 of the block.
    pub fn bytes(&self) -> &[u8]
        ensures bytes { result.now ≡ self.now.bytes }
        ensures short { length self.now.bytes ≤ 16 }
        ensures within { self.now.offset + length self.now.bytes ≤ 512 }
    {
        &self.bytes[..self.length as usize]
    }

    /// Puts its bytes back over a block's.
    pub fn put_back(&self, block: &mut [u8; BLOCK_LEN])
        ensures { block.new ≡ put block.old self.now.offset self.now.bytes }
    {
        let start = self.offset() as usize;
        let bytes = self.bytes();
        block[start..start + bytes.len()].copy_from_slice(bytes);
    }
}
