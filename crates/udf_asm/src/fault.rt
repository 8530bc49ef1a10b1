// Why a text is no program.

use std::error::Error;
use std::fmt;
use udf_code::CodeFault;

/// Why a text is no program, and the line, from 1, at which that is so.
#[derive(Clone, Copy, Debug, Drop, PartialEq, Eq)]
pub struct AsmFault {
    pub line: usize,
    pub kind: AsmKind,
}

/// What is wrong with a line, or with the words of all lines.
#[derive(Clone, Copy, Debug, Drop, PartialEq, Eq)]
pub enum AsmKind {
    /// No memory for the words. The line is 1.
    NoMemory,
    /// The line is empty, or no newline ends it.
    BadLine,
    /// The line begins with no operation's name.
    BadName,
    /// The operation takes another number of operands.
    BadCount,
    /// An operand is no decimal without leading zeros, or is out of its range.
    BadNumber,
    /// The words are no program. Where the fault names no word, the line is the one after the last.
    Code(CodeFault),
}

impl AsmKind {
    ghost use Rattle.std.specs.Prelude.{◌≡◌};
    ghost use Rattle.udf_asm.specs.Faults.{kind_name};

    /// Its name. That of a fault of the words stands without its place, which the line tells.
    pub fn name(self) -> &'static str
        ensures { result.now ≡ kind_name self }
    {
        match self {
            AsmKind::NoMemory => "NoMemory",
            AsmKind::BadLine => "BadLine",
            AsmKind::BadName => "BadName",
            AsmKind::BadCount => "BadCount",
            AsmKind::BadNumber => "BadNumber",
            AsmKind::Code(fault) => fault.name(),
        }
    }
}

/// Its name.
impl fmt::Display for AsmKind {
    ghost use Rattle.std.specs.Prelude.{Some};
    ghost use Rattle.udf_asm.specs.Faults.{kind_name};

    ghost output = { λ kind. Some (kind_name kind) };

    fn fmt<W: fmt::Write>(&self, f: &mut fmt::Formatter<W>) -> fmt::Result {
        f.write_str(self.name())
    }
}

/// The line, and what is wrong with it.
impl fmt::Display for AsmFault {
    ghost use Rattle.std.specs.Prelude.{Some};
    ghost use Rattle.udf_asm.specs.Faults.{asm_fault_text};

    ghost output = { λ fault. Some (asm_fault_text fault) };

    fn fmt<W: fmt::Write>(&self, f: &mut fmt::Formatter<W>) -> fmt::Result {
        write!(f, "line {}: {}", self.line, self.kind)
    }
}

impl Error for AsmFault {}
