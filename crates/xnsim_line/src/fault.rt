ghost use Rattle.std.specs.Prelude.{◌≡◌};

use crate::invocation::LineFault;
use crate::program_fault::ProgramFault;
use script::ScriptFault;
use std::alloc::{AllocError, AllocFailed};
use std::io;
use store_types::ImageFault;
use templates::TemplateFault;
use thiserror::Error;

/// Why a run ends with a status other than 0. The text of a fault is the line that tells it.
#[derive(Debug, Drop, Error)]
pub enum Fault<'a> {
    #[error("usage: xnsim format|run|check|asm|verify")]
    Usage,
    #[error("cannot read {0}")]
    CannotRead(&'a str),
    #[error("script line {line}: unreadable")]
    Unreadable { line: u64 },
    #[error("fault {0}")]
    Image(ImageFault),
    #[error("cannot write {0}")]
    CannotWrite(&'a str),
    #[error("no memory")]
    NoMemory,
    #[error("{0}")]
    Program(ProgramFault),
    #[error("owns {0}")]
    Owns(ProgramFault),
    #[error("size {0}")]
    Size(ProgramFault),
    #[error("template {place}: {fault}")]
    Template { place: usize, fault: TemplateFault },
    #[error("too many templates")]
    TooManyTemplates,
    #[error("too many words")]
    TooManyWords,
    #[error("a standard stream failed")]
    Stream,
}

impl<'a> Fault<'a> {
    ghost use Rattle.xnsim_line.specs.Faults.{status_of};

    /// The status with which the program ends.
    pub fn status(&self) -> u8
        ensures { result ≡ status_of self.now }
    {
        match self {
            Fault::Usage => 2,
            _ => 1,
        }
    }
}

impl<'a> From<LineFault> for Fault<'a> {
    ghost use Rattle.xnsim_line.specs.Faults.{of_line};

    ghost from_gives = { λ fault given. given ≡ of_line fault };

    fn from(fault: LineFault) -> Fault<'a> {
        match fault {
            LineFault::Usage => Fault::Usage,
            LineFault::NoMemory => Fault::NoMemory,
        }
    }
}

impl<'a> From<ScriptFault> for Fault<'a> {
    ghost use Rattle.xnsim_line.specs.Faults.{of_script};

    ghost from_gives = { λ fault given. given ≡ of_script fault };

    fn from(fault: ScriptFault) -> Fault<'a> {
        match fault {
            ScriptFault::Unreadable { line } => Fault::Unreadable { line },
            ScriptFault::NoMemory => Fault::NoMemory,
        }
    }
}

impl<'a> From<ProgramFault> for Fault<'a> {
    ghost use Rattle.xnsim_line.specs.declared.fault.Fault.TheVariants.{Program};

    ghost from_gives = { λ fault given. given ≡ Program fault };

    fn from(fault: ProgramFault) -> Fault<'a> {
        Fault::Program(fault)
    }
}

impl<'a> From<AllocError> for Fault<'a> {
    ghost use Rattle.xnsim_line.specs.declared.fault.Fault.TheVariants.{NoMemory};

    ghost from_gives = { λ _ fault. fault ≡ NoMemory };

    fn from(_error: AllocError) -> Fault<'a> {
        Fault::NoMemory
    }
}

impl<'a, T: Drop> From<AllocFailed<T>> for Fault<'a> {
    ghost use Rattle.xnsim_line.specs.declared.fault.Fault.TheVariants.{NoMemory};

    ghost from_gives = { λ _ fault. fault ≡ NoMemory };

    fn from(_error: AllocFailed<T>) -> Fault<'a> {
        Fault::NoMemory
    }
}

impl<'a> From<io::Error> for Fault<'a> {
    ghost use Rattle.xnsim_line.specs.declared.fault.Fault.TheVariants.{Stream};

    ghost from_gives = { λ _ fault. fault ≡ Stream };

    fn from(_error: io::Error) -> Fault<'a> {
        Fault::Stream
    }
}
