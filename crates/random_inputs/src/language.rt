// Pseudo-random bytes and texts through the whole language: decoded or assembled, verified in both roles, and run where they
// are accepted. The counts and the hash of all answers are those of another implementation, `bench/reference.py`, which was
// written from the rules of the language alone.

use crate::answers::{Answers, BLOCKS};
use crate::programs::{changed, random_bytes, random_program};
use pseudo_random::Numbers;
use std::alloc::{AllocError, Global};
use std::str;
use store_types::BLOCK_LEN;
use udf_asm::assemble;
use udf_code::encode;

/// The owns program of block 0.
const CATALOGUE: &str = "\
SET 1 4\nSET 2 8\nSET 3 1\nFOR 4 16\nMUL 5 4 1\nADD 5 5 2\nLD4 6 5\nIFEQ 6 0\nELSE\n\
EMIT 6 3\nEND\nEND\nSET 1 8\nSET 2 72\nFOR 4 32\nMUL 5 4 1\nADD 5 5 2\nLD4 6 5\n\
IFEQ 6 0\nELSE\nSET 3 4\nADD 5 5 3\nLD4 7 5\nEMIT 6 7\nEND\nEND\n";

/// The owns program of a block of inodes.
const INODES: &str = "\
SET 1 64\nSET 2 4\nSET 3 8\nSET 4 2\nSET 5 5\nSET 6 56\nFOR 7 8\nMUL 8 7 1\nADD 9 8 3\n\
FOR 10 12\nMUL 11 10 2\nADD 11 11 9\nLD4 12 11\nIFLT 0 12\nEMIT 12 4\nEND\nEND\n\
ADD 9 8 6\nLD4 12 9\nIFLT 0 12\nEMIT 12 5\nEND\nEND\n";

/// How often each kind of bytes and texts is taken.
const TURNS: usize = 10_000;

/// Zeros, 0xff, a counting pattern, and blocks of random bytes.
fn some_blocks(numbers: &mut Numbers) -> [[u8; BLOCK_LEN]; BLOCKS] {
    let mut blocks = [[0; BLOCK_LEN]; BLOCKS];
    blocks[1] = [0xff; BLOCK_LEN];
    for at in 0..512 {
        blocks[2][at] = (at % 256) as u8;
    }
    for place in 3..BLOCKS {
        for at in 0..512 {
            blocks[place][at] = numbers.byte(256);
        }
    }
    blocks
}

/// The bytes of a program's text, and none where it is no program.
fn code_of(alloc: Global, text: &str) -> Result<Vec<u8>, AllocError> {
    match assemble(alloc, text) {
        Ok(words) => encode(alloc, &words).map_err(|_| AllocError),
        Err(_) => Ok(Vec::new(alloc)),
    }
}

/// Takes one set of bytes and texts.
fn take_turn(
    alloc: Global,
    numbers: &mut Numbers,
    answers: &mut Answers,
    text: &str,
    blocks: &[[u8; BLOCK_LEN]; BLOCKS],
) -> Result<(), AllocError> {
    let small = [
        0, 1, 2, 3, 4, 5, 6, 7, 8, 9, 10, 11, 12, 13, 14, 15, 16, 17, 18, 19,
    ];
    let code = code_of(alloc, text)?;
    let code = changed(alloc, numbers, &code, &small)?;
    answers.note_bytes(alloc, &code, blocks)?;
    let program = random_program(alloc, numbers)?;
    answers.note_bytes(alloc, &program, blocks)?;
    let letters = b"0123456789 \nADEFIKLMNORSTX";
    let line = changed(alloc, numbers, text.as_bytes(), letters)?;
    if let Ok(line) = str::from_utf8(&line) {
        answers.note_text(alloc, line, blocks)?;
    }
    let bytes = random_bytes(alloc, numbers)?;
    answers.note_bytes(alloc, &bytes, blocks)
}

/// The answers to all pseudo-random bytes and texts.
pub fn answer_all(alloc: Global) -> Result<Answers, AllocError> {
    let mut numbers = Numbers { state: 1 };
    let blocks = some_blocks(&mut numbers);
    let mut answers = Answers {
        codes: 0,
        texts: 0,
        programs: 0,
        accepted: 0,
        pairs: 0,
        hash: 0xcbf29ce484222325,
        respelled: 0,
    };
    for turn in 0..TURNS {
        let text = if turn % 2 == 0 { CATALOGUE } else { INODES };
        take_turn(alloc, &mut numbers, &mut answers, text, &blocks)?;
    }
    Ok(answers)
}
