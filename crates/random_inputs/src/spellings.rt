// Pseudo-random bytes, texts and blocks are read, and what is read is written again.

ghost use Rattle.std.specs.Prelude.{◌+◌, ◌≤◌, length};

use arrayvec::ArrayVec;
use pseudo_random::Numbers;
use std::alloc::{AllocError, Global};
use store_types::BLOCK_LEN;
use templates::{Template, read_block, write_block};
use udf_asm::{assemble, print};
use udf_code::{decode, encode};
use udf_run::{Pair, owns, size};

/// How many of each kind are tried.
const TRIES: u32 = 2000;

/// How many were read, and how many of these are written as they were.
#[derive(Drop)]
pub struct Spellings {
    pub read: usize,
    pub same: usize,
}

impl Spellings {
    fn note(&mut self, is_same: bool) {
        self.read = self.read.wrapping_add(1);
        if is_same {
            self.same = self.same.wrapping_add(1);
        }
    }
}

/// Up to seven words whose codes and operands are mostly in range, and sometimes a few bytes more.
fn some_bytes(alloc: Global, numbers: &mut Numbers) -> Result<Vec<u8>, AllocError> {
    let mut bytes = Vec::new(alloc);
    for _ in 0..numbers.byte(8) {
        bytes.push(numbers.byte(21))?;
        bytes.push(numbers.byte(17))?;
        bytes.push(numbers.byte(17))?;
        let third = numbers.byte(32);
        bytes.push(if third < 17 { 0 } else { third - 17 })?;
    }
    for _ in 0..numbers.byte(16).saturating_sub(13) {
        bytes.push(numbers.byte(256))?;
    }
    Ok(bytes)
}

/// Bytes that are decoded and encoded.
pub fn try_bytes(alloc: Global) -> Result<Spellings, AllocError> {
    let mut numbers = Numbers { state: 1 };
    let mut spellings = Spellings { read: 0, same: 0 };
    for _ in 0..TRIES {
        let bytes = some_bytes(alloc, &mut numbers)?;
        if let Ok(words) = decode(alloc, &bytes) {
            let again = encode(alloc, &words)?;
            spellings.note(again.as_slice() == bytes.as_slice());
        }
    }
    Ok(spellings)
}

/// Up to four lines, of which most are words.
fn some_text(alloc: Global, numbers: &mut Numbers) -> Result<String, AllocError> {
    let lines = [
        "SET 1 2\n",
        "ADD 0 1 2\n",
        "FOR 3 4\n",
        "END\n",
        "KEEP 1 9\n",
        "IFLT 1 2\n",
        "ELSE\n",
        "LD1 1",
        " 2\n",
        "\n",
    ];
    let mut text = String::new(alloc);
    for _ in 0..numbers.byte(5) {
        let at = numbers.byte(10) as usize;
        if at < lines.len() {
            text.push_str(lines[at])?;
        }
    }
    Ok(text)
}

/// Texts that are assembled and printed.
pub fn try_texts(alloc: Global) -> Result<Spellings, AllocError> {
    let mut numbers = Numbers { state: 1 };
    let mut spellings = Spellings { read: 0, same: 0 };
    for _ in 0..TRIES {
        let text = some_text(alloc, &mut numbers)?;
        if let Ok(words) = assemble(alloc, text.as_str()) {
            let again = print(alloc, &words)?;
            spellings.note(again.as_str() == text.as_str());
        }
    }
    Ok(spellings)
}

const SIZE_64: [u8; 4] = [0x01, 0x00, 0x40, 0x00];

const SIZE_512: [u8; 4] = [0x01, 0x00, 0x00, 0x02];

/// A file system's root block: 16 pointers to inode blocks, of type 4.
const INODE_BLOCKS: [u8; 32] = [
    0x01, 0x01, 0x04, 0x00, 0x12, 0x02, 0x10, 0x00, 0x05, 0x03, 0x02, 0x01, 0x0c, 0x04, 0x03, 0x00,
    0x0e, 0x00, 0x04, 0x00, 0x0d, 0x04, 0x01, 0x00, 0x11, 0x00, 0x00, 0x00, 0x11, 0x00, 0x00, 0x00,
];

/// A block of 8 inodes, each with 12 pointers to data, of type 2, and one to a block of pointers, of type 5.
const INODES: [u8; 92] = [
    0x01, 0x01, 0x40, 0x00, 0x01, 0x02, 0x04, 0x00, 0x01, 0x03, 0x08, 0x00, 0x01, 0x04, 0x02, 0x00,
    0x01, 0x05, 0x05, 0x00, 0x01, 0x06, 0x38, 0x00, 0x12, 0x07, 0x08, 0x00, 0x05, 0x08, 0x07, 0x01,
    0x03, 0x09, 0x08, 0x03, 0x12, 0x0a, 0x0c, 0x00, 0x05, 0x0b, 0x0a, 0x02, 0x03, 0x0b, 0x0b, 0x09,
    0x0c, 0x0c, 0x0b, 0x00, 0x0e, 0x00, 0x0c, 0x00, 0x0d, 0x0c, 0x04, 0x00, 0x11, 0x00, 0x00, 0x00,
    0x11, 0x00, 0x00, 0x00, 0x03, 0x09, 0x08, 0x06, 0x0c, 0x0c, 0x09, 0x00, 0x0e, 0x00, 0x0c, 0x00,
    0x0d, 0x0c, 0x05, 0x00, 0x11, 0x00, 0x00, 0x00, 0x11, 0x00, 0x00, 0x00,
];

/// A block of 128 pointers to data, of type 2.
const POINTERS: [u8; 36] = [
    0x01, 0x01, 0x04, 0x00, 0x01, 0x02, 0x02, 0x00, 0x12, 0x03, 0x80, 0x00, 0x05, 0x04, 0x03, 0x01,
    0x0c, 0x05, 0x04, 0x00, 0x0e, 0x00, 0x05, 0x00, 0x0d, 0x05, 0x02, 0x00, 0x11, 0x00, 0x00, 0x00,
    0x11, 0x00, 0x00, 0x00,
];

/// The block of two programs with this code.
fn spelled(owns_code: &[u8], size_code: &[u8]) -> [u8; BLOCK_LEN]
    requires { length owns_code.now + length size_code.now ≤ 508 }
{
    let mut block = [0u8; BLOCK_LEN];
    block[0] = 0x58;
    block[1] = 0x54;
    block[2] = (owns_code.len() / 4) as u8;
    block[3] = (size_code.len() / 4) as u8;
    let end = 4 + owns_code.len();
    block[4..end].copy_from_slice(owns_code);
    block[end..end + size_code.len()].copy_from_slice(size_code);
    block
}

/// A template's block, real or of random words, with up to three bytes changed.
fn damaged_block(numbers: &mut Numbers) -> [u8; BLOCK_LEN] {
    let mut block = match numbers.byte(4) {
        0 => spelled(&INODE_BLOCKS, &SIZE_64),
        1 => spelled(&INODES, &SIZE_512),
        2 => spelled(&POINTERS, &SIZE_512),
        _ => random_words(numbers),
    };
    for _ in 0..numbers.byte(4) {
        let at = numbers.byte(128) as usize;
        block[at] = numbers.byte(32);
    }
    block
}

/// A block with the mark, two short programs of words whose codes and operands are mostly in range, and zeros.
fn random_words(numbers: &mut Numbers) -> [u8; BLOCK_LEN] {
    let mut block = [0u8; BLOCK_LEN];
    block[0] = 0x58;
    block[1] = 0x54;
    block[2] = numbers.byte(3);
    block[3] = numbers.byte(3);
    let count = block[2] as usize + block[3] as usize;
    for i in 0..count.min(4) {
        block[4 + 4 * i] = numbers.byte(20);
        block[5 + 4 * i] = numbers.byte(17);
        block[6 + 4 * i] = numbers.byte(17);
        let third = numbers.byte(32);
        block[7 + 4 * i] = if third < 17 { 0 } else { third - 17 };
    }
    block
}

/// How many pairs the owns program of a template emits on a block, after its size program has run on it.
fn pairs_on(template: &Template, block: &[u8; BLOCK_LEN]) -> usize {
    let mut out = ArrayVec::<Pair, 128>::new();
    let _size = size(template.size(), block);
    owns(template.owns(), block, &mut out);
    out.len()
}

/// Template blocks that are read and written, and how many pairs their owns programs emit on zeros and on themselves.
pub fn try_blocks(alloc: Global) -> Result<(Spellings, usize), AllocError> {
    let mut numbers = Numbers { state: 1 };
    let mut spellings = Spellings { read: 0, same: 0 };
    let mut pairs: usize = 0;
    for _ in 0..TRIES {
        let block = damaged_block(&mut numbers);
        if let Ok(template) = read_block(alloc, &block) {
            spellings.note(write_block(&template).as_slice() == block.as_slice());
            for bytes in [[0; BLOCK_LEN], block] {
                pairs = pairs.wrapping_add(pairs_on(&template, &bytes));
            }
        }
    }
    Ok((spellings, pairs))
}
