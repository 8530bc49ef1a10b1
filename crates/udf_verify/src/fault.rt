// What a program is for, and why it is refused.

use std::error::Error;
use std::fmt;

/// What a program is for.
#[derive(Clone, Copy, Debug, PartialEq, Eq)]
pub enum Role {
    /// It emits the blocks that a block owns.
    Owns,
    /// It answers how many bytes of a block are in use.
    Size,
}

/// The rule that a program breaks, or want of memory.
#[derive(Clone, Copy, Debug, PartialEq, Eq)]
pub enum FaultKind {
    /// The program is accepted, but there was no memory for the copy that a `Checked` keeps.
    NoMemory,
    /// A load may read past the block.
    Load,
    /// A sum may be above 2^32 - 1.
    Sum,
    /// A difference may be below 0.
    Difference,
    /// A product may be above 2^32 - 1.
    Product,
    /// A divisor may be 0.
    Divisor,
    /// The body of a FOR writes its counter.
    Counter,
    /// An IF compares a register with itself.
    SameRegister,
    /// One branch of an IF can never run.
    DeadBranch,
    /// A KEEP is of its FOR's counter, or stands twice, or does not hold at the FOR or at the end of a turn.
    Keep,
    /// More than 128 pairs may be emitted, or one by a size program.
    Emits,
    /// A run may take too many steps: above 8,192 for an owns program, above 1,024 for a size program.
    Cost,
    /// A size program may answer more than 512.
    SizeAnswer,
}

impl FaultKind {
    ghost use Rattle.std.specs.Prelude.{◌≡◌};
    ghost use Rattle.udf_verify.specs.Names.{fault_kind_name};

    /// Its name.
    pub fn name(self) -> &'static str
        ensures { result.now ≡ fault_kind_name self }
    {
        match self {
            FaultKind::NoMemory => "NoMemory",
            FaultKind::Load => "Load",
            FaultKind::Sum => "Sum",
            FaultKind::Difference => "Difference",
            FaultKind::Product => "Product",
            FaultKind::Divisor => "Divisor",
            FaultKind::Counter => "Counter",
            FaultKind::SameRegister => "SameRegister",
            FaultKind::DeadBranch => "DeadBranch",
            FaultKind::Keep => "Keep",
            FaultKind::Emits => "Emits",
            FaultKind::Cost => "Cost",
            FaultKind::SizeAnswer => "SizeAnswer",
        }
    }
}

/// Its name.
impl fmt::Display for FaultKind {
    ghost use Rattle.std.specs.Prelude.{Some};
    ghost use Rattle.udf_verify.specs.Names.{fault_kind_name};

    ghost output = { λ kind. Some (fault_kind_name kind) };

    fn fmt<W: fmt::Write>(&self, f: &mut fmt::Formatter<W>) -> fmt::Result {
        f.write_str(self.name())
    }
}

/// The first word that breaks a rule, and the rule. The number of words stands for the end.
#[derive(Clone, Copy, Debug, Drop, PartialEq, Eq)]
pub struct VerifyFault {
    pub at: usize,
    pub kind: FaultKind,
}

/// The rule, and the word that breaks it.
impl fmt::Display for VerifyFault {
    ghost use Rattle.std.specs.Prelude.{Some};
    ghost use Rattle.udf_verify.specs.Names.{verify_fault_text};

    ghost output = { λ fault. Some (verify_fault_text fault) };

    fn fmt<W: fmt::Write>(&self, f: &mut fmt::Formatter<W>) -> fmt::Result {
        write!(f, "{} at {}", self.kind, self.at)
    }
}

impl Error for VerifyFault {}
