// The names of the operations.

ghost use Rattle.std.specs.Prelude.{◌≡◌};
ghost use Rattle.udf_asm.specs.Names.{name_of, op_named};

use udf_code::Op;

/// The name of an operation, in a line of a program.
pub fn name(op: Op) -> &'static str
    ensures { result.now ≡ name_of op }
{
    match op {
        Op::Set => "SET",
        Op::Mov => "MOV",
        Op::Add => "ADD",
        Op::Sub => "SUB",
        Op::Mul => "MUL",
        Op::Div => "DIV",
        Op::Rem => "REM",
        Op::And => "AND",
        Op::Shr => "SHR",
        Op::Load1 => "LD1",
        Op::Load2 => "LD2",
        Op::Load4 => "LD4",
        Op::Emit => "EMIT",
        Op::IfLess => "IFLT",
        Op::IfEqual => "IFEQ",
        Op::Else => "ELSE",
        Op::End => "END",
        Op::For => "FOR",
        Op::Keep => "KEEP",
    }
}

/// The operation of this name, or `None` where there is none.
pub fn op_named(name: &[u8]) -> Option<Op>
    ensures { result ≡ op_named name.now }
{
    match name {
        b"SET" => Some(Op::Set),
        b"MOV" => Some(Op::Mov),
        b"ADD" => Some(Op::Add),
        b"SUB" => Some(Op::Sub),
        b"MUL" => Some(Op::Mul),
        b"DIV" => Some(Op::Div),
        b"REM" => Some(Op::Rem),
        b"AND" => Some(Op::And),
        b"SHR" => Some(Op::Shr),
        b"LD1" => Some(Op::Load1),
        b"LD2" => Some(Op::Load2),
        b"LD4" => Some(Op::Load4),
        b"EMIT" => Some(Op::Emit),
        b"IFLT" => Some(Op::IfLess),
        b"IFEQ" => Some(Op::IfEqual),
        b"ELSE" => Some(Op::Else),
        b"END" => Some(Op::End),
        b"FOR" => Some(Op::For),
        b"KEEP" => Some(Op::Keep),
        _ => None,
    }
}
