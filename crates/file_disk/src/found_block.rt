// What a file brought from the place of a block, or took there.
//
// No clause can say what a file holds. So this module is to be read, and not only proved: a `FoundBlock` is made only where the file
// brought all of these bytes from the place of the block of that number, or took all of them there; and a `FoundImage` only where it brought or
// took each of these bytes at its own place.
ghost use Rattle.std.specs.Prelude.{◌≡◌, ◌≤◌, ◌+◌, ◌*◌, ◌%◌, length, take, IfOk};
ghost use Rattle.disk.specs.Images.{block_of_image};

use crate::fault::FileFault;
use std::alloc::Global;
use std::fs::File;
use std::io;
use std::os::unix::fs::FileExt;
use store_types::BLOCK_LEN;

/// How many bytes are read or written by one call at most.
const PIECE_LEN: usize = 1 << 20;

/// Each time that so many blocks more of an image are done with, their memory is given back.
const GIVEN_BACK: u32 = 1 << 10;

/// The bytes that the file brought from the place of the block of this number, or took there.
#[derive(Drop)]
pub(crate) struct FoundBlock {
    number: u32,
    bytes: [u8; BLOCK_LEN],
}

impl FoundBlock {
    /// Reads the place of a block.
    pub(crate) fn read(file: &File, number: u32) -> io::Result<FoundBlock>
        ensures { IfOk result (λ found. found.number ≡ number) }
    {
        let mut bytes = [0; BLOCK_LEN];
        file.read_exact_at(&mut bytes, offset(number))?;
        Ok(FoundBlock { number, bytes })
    }

    /// Writes these bytes to the place of a block.
    pub(crate) fn write(file: &File, number: u32, from: &[u8; BLOCK_LEN]) -> io::Result<FoundBlock>
        ensures { IfOk result (λ found. found ≡ record { number = number; bytes = from.now }) }
    {
        file.write_all_at(from, offset(number))?;
        Ok(FoundBlock {
            number,
            bytes: *from,
        })
    }

    pub(crate) fn number(&self) -> u32
        ensures { result ≡ self.now.number }
    {
        self.number
    }

    pub(crate) fn bytes(&self) -> &[u8; BLOCK_LEN]
        ensures { result.now ≡ self.now.bytes }
    {
        &self.bytes
    }
}

/// An image that a file brought whole, or took: each block from its own place, or there.
#[derive(Drop)]
pub(crate) struct FoundImage {
    bytes: Vec<u8>,
}

impl FoundImage {
    /// Reads so many blocks, a piece after another.
    pub(crate) fn read(alloc: Global, file: &File, blocks: u32) -> Result<FoundImage, FileFault>
        ensures { IfOk result (λ found. length found.bytes.items ≡ 512 * blocks) }
    {
        let len = BLOCK_LEN * blocks as usize;
        let mut bytes = vec![in alloc; 0; len]?;
        for piece in 0..len.div_ceil(PIECE_LEN) {
            let start = PIECE_LEN * piece;
            let end = len.min(start + PIECE_LEN);
            file.read_exact_at(&mut bytes[start..end], start as u64)?;
        }
        Ok(FoundImage { bytes })
    }

    /// Writes an image, as `write_blocks` does.
    pub(crate) fn write(alloc: Global, file: &File, image: &[u8]) -> Result<FoundImage, FileFault>
        requires whole { length image.now % 512 ≡ 0 }
        requires least { 512 ≤ length image.now }
        ensures { IfOk result (λ found. found.bytes.items ≡ image.now) }
    {
        let bytes = Vec::from_slice(alloc, image)?;
        write_blocks(alloc, file, image, image.len())?;
        Ok(FoundImage { bytes })
    }

    /// Its bytes, block after block.
    pub(crate) fn bytes(&self) -> &[u8]
        ensures { result.now ≡ self.now.bytes.items }
    {
        &self.bytes
    }

    /// A block of it.
    pub(crate) fn block(&self, number: u32) -> FoundBlock
        requires { 512 * number + 512 ≤ length self.now.bytes.items }
        ensures { result ≡ record { number = number; bytes = block_of_image self.now.bytes.items number } }
    {
        let start = BLOCK_LEN * number as usize;
        match self.bytes[start..start + BLOCK_LEN].as_array() {
            Some(bytes) => FoundBlock {
                number,
                bytes: *bytes,
            },
            None => unreachable!(),
        }
    }

    /// Keeps the first blocks, and gives memory back now and then.
    pub(crate) fn keep(&mut self, blocks: u32)
        ensures { self.new.bytes.items ≡ take (512 * blocks) self.old.bytes.items }
    {
        self.bytes.truncate(BLOCK_LEN * blocks as usize);
        if blocks % GIVEN_BACK == 0 {
            self.bytes.shrink_to_fit();
        }
    }
}

/// Writes these bytes, and zeros behind them up to so many, a piece after another: block 0 last, once the others are settled.
pub(crate) fn write_blocks(
    alloc: Global,
    file: &File,
    head: &[u8],
    len: usize,
) -> Result<(), FileFault>
    requires { 512 ≤ length head.now }
{
    let (first, rest) = head.split_at(BLOCK_LEN);
    file.write_all_at(rest, BLOCK_LEN as u64)?;
    let zeros = vec![in alloc; 0; PIECE_LEN]?;
    let mut start = head.len();
    while start < len {
        let piece = (len - start).min(PIECE_LEN);
        file.write_all_at(&zeros[..piece], start as u64)?;
        start += piece;
    }
    file.sync_all()?;
    file.write_all_at(first, 0)?;
    Ok(())
}

/// Where a block begins in the file.
fn offset(block: u32) -> u64
    ensures { result ≡ 512 * block }
{
    BLOCK_LEN as u64 * u64::from(block)
}
