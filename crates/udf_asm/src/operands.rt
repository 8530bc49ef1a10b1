// The operands of a word, as numbers.

ghost use Rattle.std.specs.Prelude.{◌≡◌, ◌≤◌, ◌&&◌, [], ◌∷◌, nat_le, nat_lt};
ghost use Rattle.udf_code.specs.Decoding.{is_register, when};
ghost use Rattle.udf_asm.specs.Operands.{bare_word, operand_count, operands_of, word_of_three, word_of_two, word_with};

use arrayvec::ArrayVec;
use udf_code::{Op, Register, Shift, Turns, Word};

/// The operands of a line, at most three.
pub(crate) type Operands = ArrayVec<u16, 3>;

/// How many operands the operation takes.
pub(crate) fn count(op: Op) -> usize
    ensures value { result ≡ operand_count op }
    ensures small { result ≤ 3 }
{
    match op {
        Op::Else | Op::End => 0,
        Op::Set
        | Op::Mov
        | Op::Load1
        | Op::Load2
        | Op::Load4
        | Op::Emit
        | Op::IfLess
        | Op::IfEqual
        | Op::For
        | Op::Keep => 2,
        Op::Add | Op::Sub | Op::Mul | Op::Div | Op::Rem | Op::And | Op::Shr => 3,
    }
}

/// The word of an operation with these operands, or `None` where they are too few or too many, or one is out of range.
pub(crate) fn word(op: Op, operands: &[u16]) -> Option<Word>
    ensures { result ≡ word_with op operands.now }
{
    match operands {
        [] => bare_word(op),
        [a, b] => word_of_two(op, *a, *b),
        [a, b, c] => word_of_three(op, *a, *b, *c),
        _ => None,
    }
}

fn bare_word(op: Op) -> Option<Word>
    ensures { result ≡ bare_word op }
{
    match op {
        Op::Else => Some(Word::Else),
        Op::End => Some(Word::End),
        _ => None,
    }
}

fn word_of_two(op: Op, a: u16, b: u16) -> Option<Word>
    ensures { result ≡ word_of_two op a b }
{
    match op {
        Op::Set => register(a).map(|a| Word::Set(a, b)),
        Op::Mov => two_registers(a, b).map(|(a, b)| Word::Mov(a, b)),
        Op::Load1 => two_registers(a, b).map(|(a, b)| Word::Load1(a, b)),
        Op::Load2 => two_registers(a, b).map(|(a, b)| Word::Load2(a, b)),
        Op::Load4 => two_registers(a, b).map(|(a, b)| Word::Load4(a, b)),
        Op::Emit => two_registers(a, b).map(|(a, b)| Word::Emit(a, b)),
        Op::IfLess => two_registers(a, b).map(|(a, b)| Word::IfLess(a, b)),
        Op::IfEqual => two_registers(a, b).map(|(a, b)| Word::IfEqual(a, b)),
        Op::For => register_and_turns(a, b).map(|(a, n)| Word::For(a, n)),
        Op::Keep => register(a).map(|a| Word::Keep(a, b)),
        _ => None,
    }
}

fn word_of_three(op: Op, a: u16, b: u16, c: u16) -> Option<Word>
    ensures { result ≡ word_of_three op a b c }
{
    match op {
        Op::Add => three_registers(a, b, c).map(|(a, b, c)| Word::Add(a, b, c)),
        Op::Sub => three_registers(a, b, c).map(|(a, b, c)| Word::Sub(a, b, c)),
        Op::Mul => three_registers(a, b, c).map(|(a, b, c)| Word::Mul(a, b, c)),
        Op::Div => three_registers(a, b, c).map(|(a, b, c)| Word::Div(a, b, c)),
        Op::Rem => three_registers(a, b, c).map(|(a, b, c)| Word::Rem(a, b, c)),
        Op::And => three_registers(a, b, c).map(|(a, b, c)| Word::And(a, b, c)),
        Op::Shr => shifted_register(a, b, c).map(|(a, b, k)| Word::Shr(a, b, k)),
        _ => None,
    }
}

fn register(number: u16) -> Option<Register>
    ensures { result ≡ when (is_register number) number }
{
    Register::new(u8::try_from(number).ok()?)
}

fn two_registers(a: u16, b: u16) -> Option<(Register, Register)>
    ensures { result ≡ when (is_register a && is_register b) (a, b) }
{
    Some((register(a)?, register(b)?))
}

fn three_registers(a: u16, b: u16, c: u16) -> Option<(Register, Register, Register)>
    ensures { result ≡ when (is_register a && is_register b && is_register c) (a, b, c) }
{
    Some((register(a)?, register(b)?, register(c)?))
}

fn shifted_register(a: u16, b: u16, k: u16) -> Option<(Register, Register, Shift)>
    ensures { result ≡ when (is_register a && is_register b && nat_lt k 32) (a, b, k) }
{
    let (a, b) = two_registers(a, b)?;
    Some((a, b, Shift::new(u8::try_from(k).ok()?)?))
}

fn register_and_turns(a: u16, n: u16) -> Option<(Register, Turns)>
    ensures { result ≡ when (is_register a && nat_le 1 n && nat_le n 512) (a, n) }
{
    Some((register(a)?, Turns::new(n)?))
}

/// The operands of a word, in the order in which they are written.
pub(crate) fn of_word(word: &Word) -> Operands
    ensures { result.items ≡ operands_of word.now }
{
    match *word {
        Word::Set(a, n) | Word::Keep(a, n) => two(u16::from(a.number()), n),
        Word::For(a, n) => two(u16::from(a.number()), n.count()),
        Word::Mov(a, b)
        | Word::Load1(a, b)
        | Word::Load2(a, b)
        | Word::Load4(a, b)
        | Word::Emit(a, b)
        | Word::IfLess(a, b)
        | Word::IfEqual(a, b) => two(u16::from(a.number()), u16::from(b.number())),
        Word::Add(a, b, c)
        | Word::Sub(a, b, c)
        | Word::Mul(a, b, c)
        | Word::Div(a, b, c)
        | Word::Rem(a, b, c)
        | Word::And(a, b, c) => three(a, b, u16::from(c.number())),
        Word::Shr(a, b, k) => three(a, b, u16::from(k.number())),
        Word::Else | Word::End => Operands::new(),
    }
}

fn two(first: u16, second: u16) -> Operands
    ensures { result.items ≡ first ∷ second ∷ [] }
{
    let mut operands = Operands::new();
    operands.push(first);
    operands.push(second);
    operands
}

fn three(a: Register, b: Register, third: u16) -> Operands
    ensures { result.items ≡ a ∷ b ∷ third ∷ [] }
{
    let mut operands = two(u16::from(a.number()), u16::from(b.number()));
    operands.push(third);
    operands
}
