// The text of a program is verified.

ghost use Rattle.std.specs.Prelude.{◌≡◌, IfErr, IfOk, OnOk};
ghost use Rattle.std.specs.Io.KnownBytes.{Appends};
ghost use Rattle.xnsim_line.specs.Programs.{accepted_line, IsProgramFault, IsProgramOf, IsTextFault, PrintsAccepted};

use crate::{Fault, ProgramFault};
use std::alloc::Global;
use std::io;
use std::io::Write;
use udf_asm::assemble;
use udf_verify::{Checked, Role, verify};

/// The program of a text, verified for a role. A fault of the text comes before those of the program.
pub fn read_program(alloc: Global, text: &str, role: Role) -> Result<Checked, ProgramFault>
    ensures accepted { IfOk result (IsProgramOf text.now role) }
    ensures fault { IfErr result (IsProgramFault text.now role) }
{
    let words = assemble(alloc, text)?;
    let program = verify(alloc, words.as_slice(), role)?;
    Ok(program)
}

/// Verifies the program of a text for a role, and prints what it comes to. A fault of the text comes before those of the
/// program, and `Stream` last.
pub fn verify_text<'a, W: Write>(
    alloc: Global,
    text: &str,
    role: Role,
    out: &mut W,
) -> Result<(), Fault<'a>>
    ensures accepted { OnOk result (PrintsAccepted text.now role (W.contents out.old) (W.contents out.new)) }
    ensures fault { IfErr result (IsTextFault text.now role) }
{
    let program = read_program(alloc, text, role)?;
    print_accepted(out, program.cost(), program.emits())?;
    Ok(())
}

/// Prints what an accepted program comes to.
fn print_accepted<W: Write>(out: &mut W, cost: u32, emits: u32) -> io::Result<()>
    ensures { OnOk result (Appends (W.contents out.old) (W.contents out.new) (accepted_line cost emits)) }
{
    writeln!(out, "accepted cost {cost} emits {emits}")
}
