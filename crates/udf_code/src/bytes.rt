// Words as bytes: four bytes a word.

ghost use Rattle.std.specs.Prelude.{◌≡◌, ◌⊎◌, ◌%◌, ◌/◌, ◌≤◌, List, [], length, slice_index, false, Ok, Err, IsOk, IfOk, IfErr, OnOk, OnErr, MatchResult};
ghost use Rattle.udf_code.specs.declared.word.Word.{Word};
ghost use Rattle.udf_code.specs.declared.fault.CodeFault.TheVariants.{NoMemory};
ghost use Rattle.udf_code.specs.Bytes.{IsCode, encoded};
ghost use Rattle.udf_code.specs.Structure.{place};
ghost use Rattle.udf_code.specs.Decoding.{decoded, decoded_from, decoded_word};

use crate::fault::CodeFault;
use crate::op::Op;
use crate::opening::Opening;
use crate::operands;
use crate::structure::{MAX_WORDS, after};
use crate::word::Word;
use arrayvec::ArrayVec;
use std::alloc::{AllocError, Global};

/// A word takes four bytes.
pub const WORD_LEN: usize = 4;

/// The bytes of words, four a word: the code, the operands, then zeros. A register or shift is one byte, a number two,
/// the low one first. All memory is taken at the start.
pub fn encode(alloc: Global, words: &[Word]) -> Result<Vec<u8>, AllocError>
    ensures { IfOk result (λ bytes. bytes.items ≡ encoded words.now) }
{
    let mut bytes = Vec::with_capacity(alloc, words.len().saturating_mul(WORD_LEN))?;
    for word in words {
        bytes.extend_from_slice(&word.bytes())?;
    }
    Ok(bytes)
}

/// The words that bytes are. The faults are those of `decode_into`. Memory is taken last, for the words of a program
/// alone, so `NoMemory` hides no fault of the bytes.
pub fn decode(alloc: Global, bytes: &[u8]) -> Result<Vec<Word>, CodeFault>
    // The bytes are accepted exactly if they are the bytes of a program, with these words.
    ensures accepted { IfOk result (λ words. IsCode words.items bytes.now) }
    ensures refused { IfErr result (λ fault. ((fault ≡ NoMemory) × ((words : List Word) × IsCode words bytes.now))
        ⊎ ((words : List Word) → ¬ (IsCode words bytes.now))) }

    // Which words or which fault it is.
    ensures exact { MatchResult result
        (λ words. decoded bytes.now ≡ Ok words.items)
        (λ fault. ((fault ≡ NoMemory) × IsOk (decoded bytes.now)) ⊎ (decoded bytes.now ≡ Err fault)) }
{
    let mut words = ArrayVec::<Word, 127>::new();
    decode_into(bytes, &mut words)?;
    let Ok(kept) = Vec::from_slice(alloc, words.as_slice()) else {
        return Err(CodeFault::NoMemory);
    };
    Ok(kept)
}

/// Leaves in `words` the words that bytes are, whatever stood there. No memory is taken. The faults come in this order:
/// `OddLength`, `TooLong`, then word by word `BadOp`, `BadOperand` and the faults of `well_formed`, last `Unmatched`
/// where a block is still open.
pub fn decode_into(bytes: &[u8], words: &mut ArrayVec<Word, 127>) -> Result<(), CodeFault>
    // The bytes are accepted exactly if they are the bytes of a program, with these words.
    ensures accepted { OnOk result (IsCode words.new.items bytes.now) }
    ensures refused { OnErr result ((words : List Word) → ¬ (IsCode words bytes.now)) }

    // Which words or which fault it is.
    ensures exact { MatchResult result (λ done. decoded bytes.now ≡ Ok words.new.items) (λ fault. decoded bytes.now ≡ Err fault) }
{
    let rest = bytes.len() % WORD_LEN;
    if rest != 0 {
        return Err(CodeFault::OddLength(bytes.len() - rest));
    }
    if bytes.len() / WORD_LEN > MAX_WORDS {
        return Err(CodeFault::TooLong);
    }
    words.clear();
    read_words(bytes, words)?;
    Ok(())
}

/// Reads bytes of whole words into `words`, which has room for them.
fn read_words(bytes: &[u8], words: &mut ArrayVec<Word, 127>) -> Result<(), CodeFault>
    requires whole { length bytes.now % 4 ≡ 0 }
    requires empty { words.old.items ≡ [] }
    requires room { length bytes.now / 4 ≤ 127 }
    ensures { MatchResult result
        (λ _. decoded_from 0 bytes.now (place [] false) ≡ Ok words.new.items)
        (λ fault. decoded_from 0 bytes.now (place [] false) ≡ Err fault) }
{
    let count = bytes.len() / WORD_LEN;
    let mut blocks = ArrayVec::<Opening, 8>::new();
    let mut may_claim = false;
    for at in 0..count {
        let start = at * WORD_LEN;
        let word = read_word(at, &bytes[start..start + WORD_LEN])?;
        may_claim = after(at, &word, &mut blocks, may_claim)?;
        words.push(word);
    }
    if blocks.is_empty() {
        Ok(())
    } else {
        Err(CodeFault::Unmatched(count))
    }
}

/// The word in four bytes, the `at`th of a program.
fn read_word(at: usize, bytes: &[u8]) -> Result<Word, CodeFault>
    requires { length bytes.now ≡ 4 }
    ensures { result ≡ decoded_word at (slice_index bytes.now 0) (slice_index bytes.now 1) (slice_index bytes.now 2) (slice_index bytes.now 3) }
{
    let op = Op::of_code(bytes[0]).ok_or(CodeFault::BadOp(at))?;
    operands::read(op, bytes[1], bytes[2], bytes[3]).ok_or(CodeFault::BadOperand(at))
}
