// The template that two programs make, read from their code.

ghost use Rattle.std.specs.Prelude.{◌≡◌, ◌+◌, ◌*◌, ◌≤◌, length, Ok, Err, IsOk, IfOk, OnOk, MatchResult};
ghost use Rattle.udf_code.specs.Reading.{tree_of};
ghost use Rattle.udf_code.specs.Structure.{structure_of};
ghost use Rattle.udf_verify.specs.Verdict.{IsAccepted};
ghost use Rattle.templates.specs.Reading.{words_of_code, program_of_words, template_of_code};
ghost use Rattle.templates.specs.Judged.{MakeTemplate, template_of_words};

use crate::fault::TemplateFault;
use crate::template::Template;
use arrayvec::ArrayVec;
use std::alloc::{AllocError, Global};
use udf_code::{Word, decode_into};
use udf_verify::{Checked, Role, judge, verify};

/// Leaves in `words` the words that code is.
fn read_words(code: &[u8], words: &mut ArrayVec<Word, 127>) -> Result<(), TemplateFault>
    ensures exact { MatchResult result
        (λ done. words_of_code code.now ≡ Ok words.new.items)
        (λ fault. words_of_code code.now ≡ Err fault) }
    ensures program { OnOk result (IsOk (structure_of words.new.items)) }
    ensures length { OnOk result (4 * length words.new.items ≡ length code.now) }
{
    match decode_into(code, words) {
        Ok(()) => Ok(()),
        Err(_) => Err(TemplateFault::BadCode),
    }
}

/// Whether the verifier accepts words for a role.
fn judge_words(words: &[Word], role: Role) -> Result<(), TemplateFault>
    requires { IsOk (structure_of words.now) }
    ensures exact { MatchResult result
        (λ done. program_of_words role words.now ≡ Ok (record { words = words.now; role = role }))
        (λ fault. program_of_words role words.now ≡ Err fault) }
    ensures accepted { OnOk result (IsAccepted role (tree_of words.now)) }
{
    match judge(words, role) {
        Ok(_) => Ok(()),
        Err(_) => Err(TemplateFault::NotVerified),
    }
}

/// Leaves the words of two programs with this code, at most 508 bytes together, where they make a template. No memory is
/// taken.
pub(crate) fn read_programs(
    owns_code: &[u8],
    size_code: &[u8],
    owns: &mut ArrayVec<Word, 127>,
    size: &mut ArrayVec<Word, 127>,
) -> Result<(), TemplateFault>
    requires { length owns_code.now + length size_code.now ≤ 508 }
    ensures exact { MatchResult result
        (λ done. template_of_code owns_code.now size_code.now ≡ Ok (template_of_words owns.new.items size.new.items))
        (λ fault. template_of_code owns_code.now size_code.now ≡ Err fault) }
    ensures good { OnOk result (MakeTemplate owns.new.items size.new.items) }
{
    read_words(owns_code, owns)?;
    read_words(size_code, size)?;
    judge_words(owns.as_slice(), Role::Owns)?;
    judge_words(size.as_slice(), Role::Size)?;
    Ok(())
}

/// The template of these words. `Err` comes only for want of memory.
pub(crate) fn keep_programs(
    alloc: Global,
    owns: &[Word],
    size: &[Word],
) -> Result<Template, AllocError>
    requires { MakeTemplate owns.now size.now }
    ensures { IfOk result (λ template. template ≡ template_of_words owns.now size.now) }
{
    let owns = keep_words(alloc, owns, Role::Owns)?;
    let size = keep_words(alloc, size, Role::Size)?;
    match Template::new(owns, size) {
        Some(template) => Ok(template),
        None => unreachable!(),
    }
}

/// The program of accepted words. `Err` comes only for want of memory.
fn keep_words(alloc: Global, words: &[Word], role: Role) -> Result<Checked, AllocError>
    requires program { IsOk (structure_of words.now) }
    requires accepted { IsAccepted role (tree_of words.now) }
    ensures { IfOk result (λ checked. checked ≡ record { words = words.now; role = role }) }
{
    match verify(alloc, words, role) {
        Ok(checked) => Ok(checked),
        Err(_) => Err(AllocError),
    }
}
