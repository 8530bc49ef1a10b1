// Texts to words.

ghost use Rattle.std.specs.Prelude.{◌≡◌, ◌⊎◌, ◌+◌, ◌<◌, ◌≤◌, ◌^◌, List, [], length, take, Ok, Err, IsOk, IfOk, IfErr, MatchResult};
ghost use Rattle.std.specs.List.{slice_split};
ghost use Rattle.std.specs.Result.{result_map_both};
ghost use Rattle.udf_code.specs.declared.word.Word.{Word};
ghost use Rattle.udf_code.specs.Structure.{structure_of};
ghost use Rattle.udf_asm.specs.Assembly.{assembled, code_fault, is_newline, line_of, lines_read, no_memory};
ghost use Rattle.udf_asm.specs.Printing.{IsText};

use crate::fault::{AsmFault, AsmKind};
use crate::line;
use crate::line::cut;
use arrayvec::ArrayVec;
use std::alloc::Global;
use udf_code::{CodeFault, MAX_WORDS, Word, well_formed};

/// The words that a text is. Each line is an operation's name and its operands in decimal, each after one space, and
/// ends with a newline. The faults come in this order: line by line `BadLine`, `BadName`, `BadCount` and `BadNumber`, then
/// `Code` with the fault of all words; the lines past 127 are looked at and not kept. Memory is taken last, for the words
/// of a program alone, so `NoMemory`, at line 1, hides no fault of the text.
pub fn assemble(alloc: Global, text: &str) -> Result<Vec<Word>, AsmFault>
    // The text is accepted exactly if it is the text of a program, with these words.
    ensures accepted { IfOk result (λ words. IsText words.items text.now) }
    ensures refused { IfErr result (λ fault. ((fault ≡ no_memory) × ((words : List Word) × IsText words text.now))
        ⊎ ((words : List Word) → ¬ (IsText words text.now))) }

    // Which words or which fault it is.
    ensures exact { MatchResult result
        (λ words. assembled text.now ≡ Ok words.items)
        (λ fault. ((fault ≡ no_memory) × IsOk (assembled text.now)) ⊎ (assembled text.now ≡ Err fault)) }
{
    let mut words = ArrayVec::<Word, 127>::new();
    let count = read_lines(text.as_bytes(), &mut words)?;
    check(count, words.as_slice())?;
    let Ok(kept) = Vec::from_slice(alloc, words.as_slice()) else {
        return Err(AsmFault {
            line: 1,
            kind: AsmKind::NoMemory,
        });
    };
    Ok(kept)
}

/// Whether so many words, of which at most 127 stand here, are a program.
fn check(count: usize, words: &[Word]) -> Result<(), AsmFault>
    requires { count + 1 < 2 ^ 64 }
    ensures { (all : List Word) → length all ≡ count → words.now ≡ take 127 all → result ≡ result_map_both (λ x. x) (code_fault count) (structure_of all) }
{
    if count > MAX_WORDS {
        return Err(code_fault(count, CodeFault::TooLong));
    }
    match well_formed(words) {
        Ok(()) => Ok(()),
        Err(fault) => Err(code_fault(count, fault)),
    }
}

/// A fault of the words of so many lines. Its line is that of the word, or the line after the last.
fn code_fault(count: usize, fault: CodeFault) -> AsmFault
    requires { line_of count fault < 2 ^ 64 }
    ensures { result ≡ code_fault count fault }
{
    let line = match fault {
        CodeFault::Unmatched(at) | CodeFault::MisplacedKeep(at) | CodeFault::TooDeep(at) => at + 1,
        _ => count + 1,
    };
    AsmFault {
        line,
        kind: AsmKind::Code(fault),
    }
}

/// Reads the lines of a text into `words`, which has room for 127: the words past these are looked at and not kept. It
/// answers how many lines there are.
fn read_lines(text: &[u8], words: &mut ArrayVec<Word, 127>) -> Result<usize, AsmFault>
    requires empty { words.old.items ≡ [] }
    ensures words { MatchResult result
        (λ count. (all : List Word) × (lines_read 1 (slice_split is_newline text.now) ≡ Ok all) × (length all ≡ count) × (words.new.items ≡ take 127 all))
        (λ fault. lines_read 1 (slice_split is_newline text.now) ≡ Err fault) }
    ensures small { IfOk result (λ count. count + 1 < 2 ^ 64) }
{
    let mut rest = text;
    let mut count: usize = 0;
    while !rest.is_empty() {
        let line = count + 1;
        let (bytes, more) = cut(rest, b'\n');
        let Some(more) = more else {
            return Err(AsmFault {
                line,
                kind: AsmKind::BadLine,
            });
        };
        let word = match line::word(bytes) {
            Ok(word) => word,
            Err(kind) => return Err(AsmFault { line, kind }),
        };
        if count < MAX_WORDS {
            words.push(word);
        }
        count = line;
        rest = more;
    }
    Ok(count)
}
