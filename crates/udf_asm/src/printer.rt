// Words to text.

ghost use Rattle.std.specs.Prelude.{◌≡◌, ◌++◌, IfOk, OnOk};
ghost use Rattle.std.specs.String.{string_bytes};
ghost use Rattle.udf_asm.specs.Printing.{line_text, operand_text, text_of};

use crate::name::name;
use crate::operands;
use std::alloc::{AllocError, Global};
use udf_code::Word;

/// The text of words: a line for each, with the operation's name, each operand in decimal after one space, and a
/// newline.
pub fn print(alloc: Global, words: &[Word]) -> Result<String, AllocError>
    ensures { IfOk result (λ text. string_bytes text ≡ text_of words.now) }
{
    let mut text = String::new(alloc);
    for word in words {
        push_line(&mut text, word)?;
    }
    Ok(text)
}

fn push_line(text: &mut String, word: &Word) -> Result<(), AllocError>
    ensures { OnOk result (string_bytes text.new ≡ string_bytes text.old ++ line_text word.now) }
{
    text.push_str(name(word.op()))?;
    for operand in operands::of_word(word).as_slice() {
        push_operand(text, *operand)?;
    }
    text.push_str("\n")
}

fn push_operand(text: &mut String, operand: u16) -> Result<(), AllocError>
    ensures { OnOk result (string_bytes text.new ≡ string_bytes text.old ++ operand_text operand) }
{
    write!(text, " {operand}")
}
