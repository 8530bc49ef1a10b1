// Why a block is no template, and why no image is made.

use std::alloc::AllocError;
use std::{error, fmt};

/// Why a block is no template. The faults are found in the order `BadMark`, `BadCode`, `NotVerified`, `BytesAfter`.
#[derive(Clone, Copy, Debug, Drop, PartialEq, Eq)]
pub enum TemplateFault {
    /// No memory for the programs.
    NoMemory = 1,
    /// The block doesn't begin with the two bytes 58 54.
    BadMark = 2,
    /// More than 127 words together, or bytes that are no program.
    BadCode = 3,
    /// The verifier refuses one of the two programs.
    NotVerified = 4,
    /// A byte behind the words isn't zero.
    BytesAfter = 5,
}

impl TemplateFault {
    ghost use Rattle.std.specs.Prelude.{◌≡◌};
    ghost use Rattle.templates.specs.Faults.{template_fault_name, template_fault_number};

    /// Its number.
    pub fn number(self) -> u8
        ensures { result ≡ template_fault_number self }
    {
        self as u8
    }

    /// Its name.
    pub fn name(self) -> &'static str
        ensures { result.now ≡ template_fault_name self }
    {
        match self {
            TemplateFault::NoMemory => "NoMemory",
            TemplateFault::BadMark => "BadMark",
            TemplateFault::BadCode => "BadCode",
            TemplateFault::NotVerified => "NotVerified",
            TemplateFault::BytesAfter => "BytesAfter",
        }
    }
}

/// Its name.
impl fmt::Display for TemplateFault {
    ghost use Rattle.std.specs.Prelude.{Some};
    ghost use Rattle.templates.specs.Faults.{template_fault_name};

    ghost output = { λ fault. Some (template_fault_name fault) };

    fn fmt<W: fmt::Write>(&self, f: &mut fmt::Formatter<W>) -> fmt::Result {
        f.write_str(self.name())
    }
}

impl error::Error for TemplateFault {}

/// Why no image is made. The faults are found in the order `BadCount`, `TooManyTemplates`, `NoMemory`.
#[derive(Clone, Copy, Debug, Drop, PartialEq, Eq)]
pub enum FormatFault {
    /// No memory for the image.
    NoMemory = 1,
    /// Fewer than 32 blocks, or more than 32,768.
    BadCount = 2,
    /// More than 16 templates.
    TooManyTemplates = 3,
}

impl FormatFault {
    ghost use Rattle.std.specs.Prelude.{◌≡◌};
    ghost use Rattle.templates.specs.Faults.{format_name, format_number};

    /// Its number.
    pub fn number(self) -> u8
        ensures { result ≡ format_number self }
    {
        self as u8
    }

    /// Its name.
    pub fn name(self) -> &'static str
        ensures { result.now ≡ format_name self }
    {
        match self {
            FormatFault::NoMemory => "NoMemory",
            FormatFault::BadCount => "BadCount",
            FormatFault::TooManyTemplates => "TooManyTemplates",
        }
    }
}

/// Its name.
impl fmt::Display for FormatFault {
    ghost use Rattle.std.specs.Prelude.{Some};
    ghost use Rattle.templates.specs.Faults.{format_name};

    ghost output = { λ fault. Some (format_name fault) };

    fn fmt<W: fmt::Write>(&self, f: &mut fmt::Formatter<W>) -> fmt::Result {
        f.write_str(self.name())
    }
}

impl error::Error for FormatFault {}

impl From<AllocError> for FormatFault {
    ghost use Rattle.std.specs.Prelude.{◌≡◌};
    ghost use Rattle.templates.specs.declared.fault.FormatFault.TheVariants.{NoMemory};

    ghost from_gives = { λ _ fault. fault ≡ NoMemory };

    fn from(_error: AllocError) -> FormatFault {
        FormatFault::NoMemory
    }
}
