use std::fmt;
use udf_asm::AsmFault;
use udf_verify::VerifyFault;

/// Why a text is no program, or the program is refused.
#[derive(Clone, Copy, Debug, PartialEq, Eq)]
pub enum ProgramFault {
    Text(AsmFault),
    Rule(VerifyFault),
}

/// The line that tells the fault, without its newline.
impl fmt::Display for ProgramFault {
    ghost use Rattle.std.specs.Prelude.{Some};
    ghost use Rattle.xnsim_line.specs.ProgramFaults.{program_fault_text};

    ghost output = { λ fault. Some (program_fault_text fault) };

    fn fmt<W: fmt::Write>(&self, f: &mut fmt::Formatter<W>) -> fmt::Result {
        match self {
            ProgramFault::Text(fault) => write!(f, "{fault}"),
            ProgramFault::Rule(fault) => write!(f, "refused {fault}"),
        }
    }
}

impl From<AsmFault> for ProgramFault {
    ghost use Rattle.std.specs.Prelude.{◌≡◌};
    ghost use Rattle.xnsim_line.specs.declared.program_fault.ProgramFault.TheVariants.{Text};

    ghost from_gives = { λ fault given. given ≡ Text fault };

    fn from(fault: AsmFault) -> ProgramFault {
        ProgramFault::Text(fault)
    }
}

impl From<VerifyFault> for ProgramFault {
    ghost use Rattle.std.specs.Prelude.{◌≡◌};
    ghost use Rattle.xnsim_line.specs.declared.program_fault.ProgramFault.TheVariants.{Rule};

    ghost from_gives = { λ fault given. given ≡ Rule fault };

    fn from(fault: VerifyFault) -> ProgramFault {
        ProgramFault::Rule(fault)
    }
}
