// Why bytes or words are no program.

use std::error::Error;
use std::fmt;

/// Why bytes or words are no program. A place is a word's number from 0; that of `OddLength` is the byte, from 0, at
/// which the cut word begins.
#[derive(Clone, Copy, Debug, Drop, PartialEq, Eq)]
pub enum CodeFault {
    /// No memory for the words.
    NoMemory,
    /// The bytes end within a word.
    OddLength(usize),
    /// No operation has this code.
    BadOp(usize),
    /// An operand is out of range, or a byte that no operand takes isn't zero.
    BadOperand(usize),
    /// An ELSE where the innermost open word isn't an IF without ELSE, an END where nothing is open, or, at the number
    /// of words, an IF or FOR that no END closes.
    Unmatched(usize),
    /// A KEEP that stands neither after its FOR nor after another KEEP of that FOR.
    MisplacedKeep(usize),
    /// An IF or FOR inside of eight others.
    TooDeep(usize),
    /// More than 127 words.
    TooLong,
}

impl CodeFault {
    ghost use Rattle.std.specs.Prelude.{◌≡◌};
    ghost use Rattle.udf_code.specs.Faults.{fault_name, fault_place};

    /// Its name, without its place.
    pub fn name(self) -> &'static str
        ensures { result.now ≡ fault_name self }
    {
        match self {
            CodeFault::NoMemory => "NoMemory",
            CodeFault::OddLength(_) => "OddLength",
            CodeFault::BadOp(_) => "BadOp",
            CodeFault::BadOperand(_) => "BadOperand",
            CodeFault::Unmatched(_) => "Unmatched",
            CodeFault::MisplacedKeep(_) => "MisplacedKeep",
            CodeFault::TooDeep(_) => "TooDeep",
            CodeFault::TooLong => "TooLong",
        }
    }

    /// Its place, where it has one.
    pub fn place(self) -> Option<usize>
        ensures { result ≡ fault_place self }
    {
        match self {
            CodeFault::NoMemory => None,
            CodeFault::OddLength(at) => Some(at),
            CodeFault::BadOp(at) => Some(at),
            CodeFault::BadOperand(at) => Some(at),
            CodeFault::Unmatched(at) => Some(at),
            CodeFault::MisplacedKeep(at) => Some(at),
            CodeFault::TooDeep(at) => Some(at),
            CodeFault::TooLong => None,
        }
    }
}

/// Its name, and its place in brackets where it has one.
impl fmt::Display for CodeFault {
    ghost use Rattle.std.specs.Prelude.{Some};
    ghost use Rattle.udf_code.specs.Faults.{fault_text};

    ghost output = { λ fault. Some (fault_text fault) };

    fn fmt<W: fmt::Write>(&self, f: &mut fmt::Formatter<W>) -> fmt::Result {
        let name = self.name();
        match self.place() {
            Some(at) => write!(f, "{name}({at})"),
            None => f.write_str(name),
        }
    }
}

impl Error for CodeFault {}
