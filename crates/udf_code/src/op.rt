// The operations that words name.

/// The operation of a word. Its code is the first byte of the word.
#[derive(Clone, Copy, Debug, PartialEq, Eq)]
pub enum Op {
    Set = 0x01,
    Mov = 0x02,
    Add = 0x03,
    Sub = 0x04,
    Mul = 0x05,
    Div = 0x06,
    Rem = 0x07,
    And = 0x08,
    Shr = 0x09,
    Load1 = 0x0a,
    Load2 = 0x0b,
    Load4 = 0x0c,
    Emit = 0x0d,
    IfLess = 0x0e,
    IfEqual = 0x0f,
    Else = 0x10,
    End = 0x11,
    For = 0x12,
    Keep = 0x13,
}

impl Op {
    ghost use Rattle.std.specs.Prelude.{◌≡◌, ◌≢◌, MatchOption};
    ghost use Rattle.udf_code.specs.declared.op.Op.{Op};
    ghost use Rattle.udf_code.specs.Codes.{code_of, op_of_code};

    /// The byte that stands for the operation.
    pub fn code(self) -> u8
        ensures { result ≡ code_of self }
    {
        self as u8
    }

    /// The operation that a byte stands for, or `None` where it stands for none.
    pub fn of_code(code: u8) -> Option<Op>
        ensures exact { result ≡ op_of_code code }
        ensures inverse { MatchOption result ((op : Op) → code_of op ≢ code) (λ op. code_of op ≡ code) }
    {
        match code {
            0x01 => Some(Op::Set),
            0x02 => Some(Op::Mov),
            0x03 => Some(Op::Add),
            0x04 => Some(Op::Sub),
            0x05 => Some(Op::Mul),
            0x06 => Some(Op::Div),
            0x07 => Some(Op::Rem),
            0x08 => Some(Op::And),
            0x09 => Some(Op::Shr),
            0x0a => Some(Op::Load1),
            0x0b => Some(Op::Load2),
            0x0c => Some(Op::Load4),
            0x0d => Some(Op::Emit),
            0x0e => Some(Op::IfLess),
            0x0f => Some(Op::IfEqual),
            0x10 => Some(Op::Else),
            0x11 => Some(Op::End),
            0x12 => Some(Op::For),
            0x13 => Some(Op::Keep),
            _ => None,
        }
    }
}
