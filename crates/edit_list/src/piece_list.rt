// Pieces of a block.

ghost use Rattle.std.specs.Prelude.{◌≡◌, ◌+◌, ◌<◌, ◌≤◌, [], ◌∷◌, ◌++◌, length, sum_by, IfOk, OnOk};
ghost use Rattle.xn_model.specs.Calls.{patched};

use arrayvec::ArrayVec;
use smallvec::SmallVec;
use std::alloc::{AllocError, Global};
use std::marker::Model;
use store_types::BLOCK_LEN;

/// A piece of a block: where it starts, and how many bytes it has.
#[derive(Clone, Copy, Default)]
struct Piece {
    offset: u16,
    length: u16,
}

/// At most 8 pieces of a block, together at most 512 bytes.
pub struct PieceList {
    pieces: ArrayVec<Piece, 8>,
    // The pieces' bytes, one piece behind the other; few stay in place.
    bytes: SmallVec<u8, 64>,
}

impl Model for PieceList {
    ghost use Rattle.std.specs.Prelude.{List};
    ghost use Rattle.xn_model.specs.Calls.{Patch as PatchValue};
    ghost use Rattle.edit_list.specs.Pieces.{pieces_of, ArePieces};

    ghost Value = { List PatchValue };

    ghost view = { λ a. pieces_of a.pieces.items a.bytes.items };

    ghost invariant = { λ a. ArePieces a.pieces.items a.bytes.items };
}

/// Written by hand, so that a function that drops one calls this: a derived drop is proved anew in each such function.
impl Drop for PieceList {
    fn drop(self) {
        let PieceList {
            pieces: _,
            bytes: _,
        } = self;
    }
}

impl PieceList {
    /// No piece yet, with room for so many bytes.
    pub fn with_capacity(alloc: Global, bytes: usize) -> Result<PieceList, AllocError>
        ensures { IfOk result (λ pieces. pieces ≡ []) }
    {
        Ok(PieceList {
            pieces: ArrayVec::new(),
            bytes: SmallVec::with_capacity(alloc, bytes)?,
        })
    }

    /// One more piece.
    pub fn push(&mut self, offset: u16, bytes: &[u8]) -> Result<(), AllocError>
        requires few { length self.old < 8 }
        requires within { offset + length bytes.now ≤ 512 }
        requires short { sum_by (λ p. length p.bytes) self.old + length bytes.now ≤ 512 }
        ensures { OnOk result (self.new ≡ self.old ++ record { offset = offset; bytes = bytes.now } ∷ []) }
    {
        self.bytes.extend_from_slice(bytes)?;
        self.pieces.push(Piece {
            offset,
            length: bytes.len() as u16,
        });
        Ok(())
    }

    /// Puts the bytes back over a block's.
    pub fn put_back(&self, block: &mut [u8; BLOCK_LEN])
        ensures { block.new ≡ patched block.old self.now }
    {
        let mut rest = self.bytes.as_slice();
        for piece in self.pieces.as_slice() {
            let start = piece.offset as usize;
            let (bytes, behind) = rest.split_at(piece.length as usize);
            block[start..start + bytes.len()].copy_from_slice(bytes);
            rest = behind;
        }
    }
}
