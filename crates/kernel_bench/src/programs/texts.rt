// The programs that are run, and the block that they read.

ghost use Rattle.std.specs.Prelude.{◌<◌, ℕ, slice_index};

use std::alloc::{AllocError, Global};
use store_types::BLOCK_LEN;

/// The owns program of block 0: 391 steps and 48 pairs on a block whose pointers are all set.
pub const CATALOGUE: &str = "\
SET 1 4\nSET 2 8\nSET 3 1\nFOR 4 16\nMUL 5 4 1\nADD 5 5 2\nLD4 6 5\nIFEQ 6 0\nELSE\n\
EMIT 6 3\nEND\nEND\nSET 1 8\nSET 2 72\nFOR 4 32\nMUL 5 4 1\nADD 5 5 2\nLD4 6 5\n\
IFEQ 6 0\nELSE\nSET 3 4\nADD 5 5 3\nLD4 7 5\nEMIT 6 7\nEND\nEND\n";

/// The owns program of a block of inodes: 647 steps and 104 pairs on a block whose pointers are all set.
pub const INODES: &str = "\
SET 1 64\nSET 2 4\nSET 3 8\nSET 4 2\nSET 5 5\nSET 6 56\nFOR 7 8\nMUL 8 7 1\nADD 9 8 3\n\
FOR 10 12\nMUL 11 10 2\nADD 11 11 9\nLD4 12 11\nIFLT 0 12\nEMIT 12 4\nEND\nEND\n\
ADD 9 8 6\nLD4 12 9\nIFLT 0 12\nEMIT 12 5\nEND\nEND\n";

/// What the long program begins with: seven words.
const BEGINNING: &str = "SET 1 4\nSET 2 2\nSET 3 8\nSET 7 7\nSET 8 8\nSET 9 9\nSET 10 10\n";

/// What then stands in it fifteen times: eight words.
const LOOP: &str = "FOR 4 8\nMUL 5 4 1\nADD 5 5 3\nLD4 6 5\nIFLT 0 6\nEMIT 6 2\nEND\nEND\n";

/// An owns program of 127 words, as many as there may be.
pub fn long_text(alloc: Global) -> Result<String, AllocError> {
    let mut text = String::from_str(alloc, BEGINNING)?;
    for _ in 0..15 {
        text.push_str(LOOP)?;
    }
    Ok(text)
}

/// A block none of whose bytes is zero.
pub fn full_block() -> [u8; BLOCK_LEN]
    ensures { (i : ℕ) → i < 512 → 0 < slice_index result i }
{
    let mut block = [0; BLOCK_LEN];
    for i in 0..512 {
        block[i] = (i % 251 + 1) as u8;
    }
    block
}
