// The word of a line.

ghost use Rattle.std.specs.Prelude.{◌≡◌, ◌+◌, ◌<◌, ◌≤◌, ◌==◌, ◌∷◌, length, MatchOption, IfSome, Some, None, count_by, position};
ghost use Rattle.std.specs.List.{slice_split};
ghost use Rattle.std.specs.Option.{option_copied};
ghost use Rattle.udf_asm.specs.Numbers.{numbers_of_all};
ghost use Rattle.udf_asm.specs.Assembly.{is_space, line_read, operands_read, parts_after};

use crate::fault::AsmKind;
use crate::name::op_named;
use crate::number::number;
use crate::operands;
use crate::operands::Operands;
use udf_code::{Op, Word};

/// The word of a line without its newline: a name and operands, cut at every space.
pub(crate) fn word(line: &[u8]) -> Result<Word, AsmKind>
    ensures { result ≡ line_read line.now }
{
    if line.is_empty() {
        return Err(AsmKind::BadLine);
    }
    let (name, operands) = cut(line, b' ');
    let op = op_named(name).ok_or(AsmKind::BadName)?;
    word_of(op, operands)
}

/// The word of an operation, with the operands that stand behind the first space of its line.
fn word_of(op: Op, operands: Option<&[u8]>) -> Result<Word, AsmKind>
    ensures { result ≡ operands_read op (parts_after is_space (option_copied operands.entry)) }
{
    if count(operands) != operands::count(op) {
        return Err(AsmKind::BadCount);
    }
    let numbers = all_numbers(operands).ok_or(AsmKind::BadNumber)?;
    operands::word(op, &numbers).ok_or(AsmKind::BadNumber)
}

/// How many operands there are.
fn count(operands: Option<&[u8]>) -> usize
    ensures { result ≡ length (parts_after is_space (option_copied operands.entry)) }
{
    match operands {
        Some(operands) => spaces(operands) + 1,
        None => 0,
    }
}

/// How many spaces there are.
fn spaces(bytes: &[u8]) -> usize
    ensures { result ≡ count_by is_space bytes.now }
{
    bytes.iter().filter(|byte| **byte == b' ').count()
}

/// The numbers of the operands that stand behind the first space of a line, or `None` where one is no number.
fn all_numbers(operands: Option<&[u8]>) -> Option<Operands>
    requires { length (parts_after is_space (option_copied operands)) ≤ 3 }
    ensures { MatchOption result
        (numbers_of_all (parts_after is_space (option_copied operands.entry)) ≡ None)
        (λ numbers. numbers_of_all (parts_after is_space (option_copied operands.entry)) ≡ Some numbers.items) }
{
    match operands {
        Some(operands) => numbers(operands),
        None => Some(Operands::new()),
    }
}

/// The numbers of at most three operands, which are cut at every space, or `None` where one is no number.
fn numbers(operands: &[u8]) -> Option<Operands>
    requires { length (slice_split is_space operands.now) ≤ 3 }
    ensures { MatchOption result
        (numbers_of_all (slice_split is_space operands.now) ≡ None)
        (λ numbers. numbers_of_all (slice_split is_space operands.now) ≡ Some numbers.items) }
{
    let mut numbers = Operands::new();
    let mut rest = operands;
    loop {
        let (operand, more) = cut(rest, b' ');
        numbers.push(number(operand)?);
        match more {
            Some(more) => rest = more,
            None => return Some(numbers),
        }
    }
}

/// The bytes before the first `at`, and those after it, or all bytes where there is no `at`.
pub(crate) fn cut(bytes: &[u8], at: u8) -> (&[u8], Option<&[u8]>)
    ensures parts { slice_split (λ byte. byte == at) bytes.now ≡ result.0.now ∷ parts_after (λ byte. byte == at) (option_copied result.1) }
    ensures lengths { MatchOption result.1 (length result.0.now ≡ length bytes.now) (λ rest. length result.0.now + length rest.now + 1 ≡ length bytes.now) }
{
    match first(bytes, at) {
        Some(end) => (&bytes[..end], Some(&bytes[end + 1..])),
        None => (bytes, None),
    }
}

/// The place of the first `byte`.
fn first(bytes: &[u8], byte: u8) -> Option<usize>
    ensures place { result ≡ position (λ x. x == byte) bytes.now }
    ensures inside { IfSome result (λ place. place < length bytes.now) }
{
    bytes.iter().position(|x| *x == byte)
}
