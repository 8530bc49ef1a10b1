// The answers of the whole language are counted.

ghost use Rattle.std.specs.Prelude.{◌≡◌, IsOk, IfOk, IfSome};
ghost use Rattle.udf_code.specs.Structure.{structure_of};

use arrayvec::ArrayVec;
use std::alloc::{AllocError, Global};
use std::fmt;
use store_types::BLOCK_LEN;
use udf_asm::{assemble, print};
use udf_code::{Word, decode, encode, well_formed};
use udf_run::{Pair, owns, size};
use udf_verify::{Checked, Role, verify};

/// On how many blocks each accepted program is run: three of them with a pattern, and 16 with random bytes.
pub const BLOCKS: usize = 3 + 16;

/// What was answered so far: how many bytes and texts, how many of them are programs, how many of these are accepted in a role,
/// how many pairs, and a hash of all; and how many programs had another spelling than the one that was read.
#[derive(Drop)]
pub struct Answers {
    pub codes: usize,
    pub texts: usize,
    pub programs: usize,
    pub accepted: usize,
    pub pairs: usize,
    pub hash: u64,
    pub respelled: usize,
}

impl Answers {
    fn note(&mut self, bytes: &[u8]) {
        for byte in bytes {
            self.hash = (self.hash ^ u64::from(*byte)).wrapping_mul(0x100000001b3);
        }
    }

    fn note_shown(&mut self, alloc: Global, shown: &impl fmt::Display) -> Result<(), AllocError> {
        let text = format!(in alloc; "{shown}")?;
        self.note(text.as_bytes());
        Ok(())
    }

    fn note_pairs(&mut self, pairs: &[Pair]) {
        self.pairs = self.pairs.wrapping_add(pairs.len());
        for pair in pairs {
            self.note(&pair.block.to_le_bytes());
            self.note(&pair.ty.to_le_bytes());
        }
    }

    /// Verifies a program in both roles, and runs it on each block where it is accepted.
    fn note_program(
        &mut self,
        alloc: Global,
        words: &[Word],
        blocks: &[[u8; BLOCK_LEN]; BLOCKS],
    ) -> Result<(), AllocError>
        requires { IsOk (structure_of words.now) }
    {
        self.programs = self.programs.wrapping_add(1);
        if let Some(checked) = self.note_verdict(alloc, words, Role::Owns)? {
            let mut out = ArrayVec::<Pair, 128>::new();
            for block in blocks {
                owns(&checked, block, &mut out);
                self.note_pairs(out.as_slice());
            }
        }
        if let Some(checked) = self.note_verdict(alloc, words, Role::Size)? {
            for block in blocks {
                self.note(&size(&checked, block).to_le_bytes());
            }
        }
        Ok(())
    }

    /// The program, where it is accepted.
    fn note_verdict(
        &mut self,
        alloc: Global,
        words: &[Word],
        role: Role,
    ) -> Result<Option<Checked>, AllocError>
        requires { IsOk (structure_of words.now) }
        ensures { IfOk result (λ accepted. IfSome accepted (λ checked. checked.role ≡ role)) }
    {
        match verify(alloc, words, role) {
            Ok(checked) => {
                self.accepted = self.accepted.wrapping_add(1);
                self.note_shown(alloc, &checked.cost())?;
                self.note_shown(alloc, &checked.emits())?;
                Ok(Some(checked))
            }
            Err(fault) => {
                self.note_shown(alloc, &fault)?;
                Ok(None)
            }
        }
    }

    /// Takes words, which were spelled as they are now or not.
    fn note_words(
        &mut self,
        alloc: Global,
        words: &[Word],
        is_spelled_again: bool,
        blocks: &[[u8; BLOCK_LEN]; BLOCKS],
    ) -> Result<(), AllocError> {
        if !is_spelled_again {
            self.respelled = self.respelled.wrapping_add(1);
        }
        if well_formed(words).is_ok() {
            self.note_program(alloc, words, blocks)?;
        }
        Ok(())
    }

    /// Decodes bytes, and takes the program that they are.
    pub fn note_bytes(
        &mut self,
        alloc: Global,
        bytes: &[u8],
        blocks: &[[u8; BLOCK_LEN]; BLOCKS],
    ) -> Result<(), AllocError> {
        self.codes = self.codes.wrapping_add(1);
        match decode(alloc, bytes) {
            Ok(words) => {
                let again = encode(alloc, &words)?;
                self.note_words(alloc, &words, again.as_slice() == bytes, blocks)
            }
            Err(fault) => self.note_shown(alloc, &fault),
        }
    }

    /// Assembles a text, and takes the program that it is.
    pub fn note_text(
        &mut self,
        alloc: Global,
        text: &str,
        blocks: &[[u8; BLOCK_LEN]; BLOCKS],
    ) -> Result<(), AllocError> {
        self.texts = self.texts.wrapping_add(1);
        match assemble(alloc, text) {
            Ok(words) => {
                let again = print(alloc, &words)?;
                self.note_words(alloc, &words, again.as_str() == text, blocks)
            }
            Err(fault) => self.note_shown(alloc, &fault),
        }
    }
}
