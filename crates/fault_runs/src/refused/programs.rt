// Calls of the language, of templates and of block 0 that take no memory. What they need is made before them.

use crate::refused::tally::count;
use arrayvec::ArrayVec;
use std::alloc::Global;
use store_types::BLOCK_LEN;
use templates::{
    Table, Template, count_of, empty_place, format_image, mark_is_right, pointer, root_slot,
    with_pointer, with_root_slot, write_block,
};
use udf_asm::assemble;
use udf_code::{Word, decode_into, encode, well_formed};
use udf_run::{Pair, owns, size};
use udf_verify::{Checked, Role, judge, verify};

/// What the calls of the language and of templates need.
#[derive(Drop)]
pub struct Programs {
    words: Vec<Word>,
    bytes: Vec<u8>,
    owns: Checked,
    size: Checked,
    table: Table,
    root: [u8; BLOCK_LEN],
}

impl Programs {
    /// Makes them. `None` here and below: there was no memory.
    pub fn new(alloc: Global) -> Option<Programs> {
        let words = assemble(alloc, "LD4 1 0\nSET 2 3\nEMIT 1 2\n").ok()?;
        let bytes = encode(alloc, &words).ok()?;
        let answer = assemble(alloc, "SET 0 4\n").ok()?;
        if well_formed(&words).is_err() || well_formed(&answer).is_err() {
            return None;
        }
        let image = format_image(alloc, 32, &[]).ok()?;
        let (blocks, _) = image.as_chunks::<BLOCK_LEN>();
        Some(Programs {
            root: *blocks.first()?,
            owns: verify(alloc, &words, Role::Owns).ok()?,
            size: verify(alloc, &answer, Role::Size).ok()?,
            table: Table::new(alloc).ok()?,
            words,
            bytes,
        })
    }

    /// How many of 4 calls of the language do what they should.
    pub fn language(&self) -> u32 {
        let (Role::Owns, Role::Size) = (self.owns.role(), self.size.role()) else {
            return 0;
        };
        let mut words = ArrayVec::<Word, 127>::new();
        let is_read = decode_into(&self.bytes, &mut words).is_ok()
            && words.as_slice() == self.words.as_slice();
        let is_judged = well_formed(&self.words).is_ok() && judge(&self.words, Role::Owns).is_ok();
        let mut pairs = ArrayVec::<Pair, 128>::new();
        owns(&self.owns, &[1; BLOCK_LEN], &mut pairs);
        let pair = Pair {
            block: 0x0101_0101,
            ty: 3,
        };
        let is_owner = pairs.as_slice() == [pair].as_slice();
        let end = size(&self.size, &[1; BLOCK_LEN]);
        count(&[is_read, is_judged, is_owner, end == 4])
    }

    /// How many of 4 readers and writers of block 0 do what they should.
    pub fn root_block(&self) -> u32 {
        let block = &self.root;
        let named = with_pointer(block, 1, 9);
        let root = Pair { block: 8, ty: 2 };
        let rooted = with_root_slot(block, 2, root);
        count(&[
            mark_is_right(block) && count_of(block) == 32,
            empty_place(block) == Some(0) && pointer(&named, 1) == 9,
            root_slot(&rooted, 2) == root,
            root_slot(block, 2).block == 0,
        ])
    }

    /// How many of 4 calls of templates do what they should.
    pub fn templates(self) -> u32 {
        let Programs {
            owns,
            size,
            mut table,
            ..
        } = self;
        let Some(template) = Template::new(owns, size) else {
            return 0;
        };
        let block = write_block(&template);
        let is_free = table.get(3).is_none();
        if is_free {
            table.put(3, template);
        }
        let is_there = match table.get(3) {
            Some(template) => write_block(template) == block,
            None => false,
        };
        count(&[block[0] == 88, block[2] == 3, is_free, is_there])
    }
}
