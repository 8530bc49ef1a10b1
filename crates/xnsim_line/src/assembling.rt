// A template is made of two texts.

ghost use Rattle.std.specs.Prelude.{length, IfErr, IfOk, OnOk};
ghost use Rattle.std.specs.Io.KnownBytes.{Appends};
ghost use Rattle.xnsim_line.specs.Assembling.{template_line, IsTemplateFault, IsTemplateOf};

use crate::Fault;
use crate::program::read_program;
use std::alloc::Global;
use std::io;
use std::io::Write;
use templates::Template;
use udf_verify::Role;

/// The template whose two programs have these texts. A fault of the owns text or its program comes before those of the size
/// text, and `TooManyWords` last.
pub fn make_template<'a>(alloc: Global, owns: &str, size: &str) -> Result<Template, Fault<'a>>
    ensures template { IfOk result (IsTemplateOf owns.now size.now) }
    ensures fault { IfErr result (IsTemplateFault owns.now size.now) }
{
    let owns = match read_program(alloc, owns, Role::Owns) {
        Ok(program) => program,
        Err(fault) => return Err(Fault::Owns(fault)),
    };
    let size = match read_program(alloc, size, Role::Size) {
        Ok(program) => program,
        Err(fault) => return Err(Fault::Size(fault)),
    };
    Template::new(owns, size).ok_or(Fault::TooManyWords)
}

/// Prints the counts of words.
fn print_counts<W: Write>(out: &mut W, owns: usize, size: usize) -> io::Result<()>
    ensures { OnOk result (Appends (W.contents out.old) (W.contents out.new) (template_line owns size)) }
{
    writeln!(out, "template owns {owns} size {size}")
}

/// Says what was made, with the counts of words.
pub fn print_template<W: Write>(out: &mut W, template: &Template) -> io::Result<()>
    ensures { OnOk result (Appends (W.contents out.old) (W.contents out.new)
        (template_line (length template.now.owns.words) (length template.now.size.words))) }
{
    print_counts(
        out,
        template.owns().words().len(),
        template.size().words().len(),
    )
}
