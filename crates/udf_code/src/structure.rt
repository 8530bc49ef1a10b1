// Which lists of words are programs.

ghost use Rattle.std.specs.Prelude.{◌≡◌, ◌↔◌, IsOk, reverse, Ok, Err, MatchResult};
ghost use Rattle.udf_code.specs.Tree.{Tree, Spells};
ghost use Rattle.udf_code.specs.Structure.{structure_of, after_word, opened, place};

use crate::fault::CodeFault;
use crate::opening::Opening;
use crate::word::Word;
use arrayvec::ArrayVec;

/// A program has at most this many words.
pub const MAX_WORDS: usize = 127;

/// Whether words are a program: at most 127 words, each ELSE, END and KEEP in its place, at most eight blocks deep.
pub fn well_formed(words: &[Word]) -> Result<(), CodeFault>
    // The words are a program exactly if there is no fault.
    ensures program { IsOk result ↔ ((tree : Tree) × Spells tree words.now) }
    // Which fault it is.
    ensures exact { result ≡ structure_of words.now }
{
    first_fault(words)
}

fn first_fault(words: &[Word]) -> Result<(), CodeFault>
    ensures { result ≡ structure_of words.now }
{
    if words.len() > MAX_WORDS {
        return Err(CodeFault::TooLong);
    }
    let mut blocks = ArrayVec::<Opening, 8>::new();
    let mut may_claim = false;
    for (at, word) in words.iter().enumerate() {
        may_claim = after(at, word, &mut blocks, may_claim)?;
    }
    if blocks.is_empty() {
        Ok(())
    } else {
        Err(CodeFault::Unmatched(words.len()))
    }
}

/// Takes one word, and says whether a KEEP may follow it.
pub(crate) fn after(
    at: usize,
    word: &Word,
    blocks: &mut ArrayVec<Opening, 8>,
    may_claim: bool,
) -> Result<bool, CodeFault>
    ensures { MatchResult result
        (λ claim. after_word at word.now (place (reverse blocks.old.items) may_claim) ≡ Ok (place (reverse blocks.new.items) claim))
        (λ fault. after_word at word.now (place (reverse blocks.old.items) may_claim) ≡ Err fault) }
{
    match *word {
        Word::IfLess(_, _) => open(at, Opening::First, blocks, false),
        Word::IfEqual(_, _) => open(at, Opening::First, blocks, false),
        Word::For(_, _) => open(at, Opening::Turn, blocks, true),
        Word::Else => {
            prove!(blocks.len() <= 8);
            match blocks.pop() {
                Some(Opening::First) => {
                    blocks.push(Opening::Other);
                    Ok(false)
                }
                _ => Err(CodeFault::Unmatched(at)),
            }
        }
        Word::End => match blocks.pop() {
            Some(_) => Ok(false),
            None => Err(CodeFault::Unmatched(at)),
        },
        Word::Keep(_, _) => {
            if may_claim {
                Ok(true)
            } else {
                Err(CodeFault::MisplacedKeep(at))
            }
        }
        _ => Ok(false),
    }
}

fn open(
    at: usize,
    opening: Opening,
    blocks: &mut ArrayVec<Opening, 8>,
    may_claim: bool,
) -> Result<bool, CodeFault>
    ensures { MatchResult result
        (λ claim. opened at (reverse blocks.old.items) opening may_claim ≡ Ok (place (reverse blocks.new.items) claim))
        (λ fault. opened at (reverse blocks.old.items) opening may_claim ≡ Err fault) }
{
    if blocks.is_full() {
        return Err(CodeFault::TooDeep(at));
    }
    blocks.push(opening);
    Ok(may_claim)
}
