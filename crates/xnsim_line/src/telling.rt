// Faults are told, and the program's status answers for them.

ghost use Rattle.std.specs.Prelude.{◌≡◌, ◌≤◌, ◌⊎◌, OnOk};
ghost use Rattle.std.specs.Io.KnownBytes.{Keeps};
ghost use Rattle.xnsim_line.specs.Faults.{status_of, IsTold};

use crate::fault::Fault;
use std::io;
use std::io::Write;

/// Writes out what `out` holds back, and answers 0, or 1 where that fails.
pub fn flush_status<W: Write>(out: &mut W) -> u8
    ensures kept { Keeps (W.contents out.old) (W.contents out.new) }
    ensures status { result ≤ 1 }
{
    if out.flush().is_ok() { 0 } else { 1 }
}

/// Prints a fault's line on `err`, behind all that `out` held back.
fn print_beside<W: Write, E: Write>(fault: &Fault, out: &mut W, err: &mut E) -> io::Result<()>
    ensures { Keeps (W.contents out.old) (W.contents out.new) }
{
    let flushed = out.flush();
    writeln!(err, "{fault}")?;
    err.flush()?;
    flushed
}

/// Prints a fault's line: those of programs, templates and images on `out`, and every other on `err`. A fault of a standard stream has
/// no line.
fn print_fault<W: Write, E: Write>(fault: &Fault, out: &mut W, err: &mut E) -> io::Result<()>
    ensures { OnOk result (IsTold fault.now (W.contents out.old) (W.contents out.new)) }
{
    match fault {
        Fault::Program(found) => writeln!(out, "{found}"),
        Fault::Owns(found) => writeln!(out, "owns {found}"),
        Fault::Size(found) => writeln!(out, "size {found}"),
        Fault::Template { place, fault } => writeln!(out, "template {place}: {fault}"),
        Fault::Image(found) => writeln!(out, "fault {found}"),
        Fault::TooManyTemplates => writeln!(out, "too many templates"),
        Fault::TooManyWords => writeln!(out, "too many words"),
        Fault::Stream => out.flush(),
        _ => print_beside(fault, out, err),
    }
}

/// Tells a fault, with all that was printed before it.
fn tell<W: Write, E: Write>(fault: &Fault, out: &mut W, err: &mut E) -> io::Result<()>
    ensures { OnOk result (IsTold fault.now (W.contents out.old) (W.contents out.new)) }
{
    print_fault(fault, out, err)?;
    out.flush()
}

/// Tells a fault, and answers the status with which the program ends: that of the fault, or 1 where it can't be told.
pub fn end<W: Write, E: Write>(fault: &Fault, out: &mut W, err: &mut E) -> u8
    ensures { (result ≡ status_of fault.now) ⊎ (result ≡ 1) }
{
    if tell(fault, out, err).is_err() {
        1
    } else {
        fault.status()
    }
}
