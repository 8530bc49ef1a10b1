// The nineteen words, with their operands in range by their types.

ghost use Rattle.std.specs.Prelude.{◌≡◌, ◌<◌, ◌≤◌, SomeIff};

use crate::op::Op;
use std::marker::Model;

/// A register, r0 to r15.
#[derive(Clone, Copy, Debug, PartialEq, Eq)]
pub struct Register {
    number: u8,
}

impl Model for Register {
    ghost use Rattle.std.specs.Prelude.{ℕ, ◌<◌};

    ghost Value = { ℕ };

    ghost view = { λ r. r.number };

    ghost invariant = { λ r. r.number < 16 };

    ghost inverse = { λ n. record { number = n } };
}

impl Register {
    /// The register of this number, or `None` where there is none.
    pub fn new(number: u8) -> Option<Register>
        ensures { SomeIff result (number < 16) number }
    {
        if number < 16 {
            Some(Register { number })
        } else {
            None
        }
    }

    /// The register's number.
    pub fn number(self) -> u8
        ensures value { result ≡ self }
        ensures in_range { self < 16 }
    {
        self.number
    }

    /// The register's number, as the index of its place among the sixteen.
    pub fn index(self) -> usize
        ensures value { result ≡ self }
        ensures in_range { self < 16 }
    {
        self.number as usize
    }
}

/// A distance to shift by, 0 to 31.
#[derive(Clone, Copy, Debug, PartialEq, Eq)]
pub struct Shift {
    distance: u8,
}

impl Model for Shift {
    ghost use Rattle.std.specs.Prelude.{ℕ, ◌<◌};

    ghost Value = { ℕ };

    ghost view = { λ s. s.distance };

    ghost invariant = { λ s. s.distance < 32 };

    ghost inverse = { λ n. record { distance = n } };
}

impl Shift {
    /// A shift by so many bits, or `None` where they are more than 31.
    pub fn new(distance: u8) -> Option<Shift>
        ensures { SomeIff result (distance < 32) distance }
    {
        if distance < 32 {
            Some(Shift { distance })
        } else {
            None
        }
    }

    /// The distance, as the byte that stands for it.
    pub fn number(self) -> u8
        ensures value { result ≡ self }
        ensures in_range { self < 32 }
    {
        self.distance
    }

    /// The distance, in bits.
    pub fn distance(self) -> u32
        ensures value { result ≡ self }
        ensures in_range { self < 32 }
    {
        self.distance as u32
    }
}

/// How often a loop runs its body, 1 to 512.
#[derive(Clone, Copy, Debug, PartialEq, Eq)]
pub struct Turns {
    count: u16,
}

impl Model for Turns {
    ghost use Rattle.std.specs.Prelude.{ℕ, ◌≤◌};

    ghost Value = { ℕ };

    ghost view = { λ t. t.count };

    ghost invariant = { λ t. (1 ≤ t.count) × (t.count ≤ 512) };

    ghost inverse = { λ n. record { count = n } };
}

impl Turns {
    /// So many turns, or `None` where they are none or more than 512.
    pub fn new(count: u16) -> Option<Turns>
        ensures { SomeIff result ((1 ≤ count) × (count ≤ 512)) count }
    {
        if 1 <= count && count <= 512 {
            Some(Turns { count })
        } else {
            None
        }
    }

    /// How many turns.
    pub fn count(self) -> u16
        ensures value { result ≡ self }
        ensures in_range { (1 ≤ self) × (self ≤ 512) }
    {
        self.count
    }
}

/// A word of a program.
#[derive(Clone, Copy, Debug, Default, PartialEq, Eq)]
pub enum Word {
    Set(Register, u16),
    Mov(Register, Register),
    Add(Register, Register, Register),
    Sub(Register, Register, Register),
    Mul(Register, Register, Register),
    Div(Register, Register, Register),
    Rem(Register, Register, Register),
    And(Register, Register, Register),
    Shr(Register, Register, Shift),
    Load1(Register, Register),
    Load2(Register, Register),
    Load4(Register, Register),
    Emit(Register, Register),
    IfLess(Register, Register),
    IfEqual(Register, Register),
    Else,
    #[default]
    End,
    For(Register, Turns),
    Keep(Register, u16),
}

impl Word {
    ghost use Rattle.udf_code.specs.Codes.{op_of};
    ghost use Rattle.udf_code.specs.Words.{destination};

    /// The operation that the word names.
    pub fn op(self) -> Op
        ensures { result ≡ op_of self }
    {
        match self {
            Word::Set(_, _) => Op::Set,
            Word::Mov(_, _) => Op::Mov,
            Word::Add(_, _, _) => Op::Add,
            Word::Sub(_, _, _) => Op::Sub,
            Word::Mul(_, _, _) => Op::Mul,
            Word::Div(_, _, _) => Op::Div,
            Word::Rem(_, _, _) => Op::Rem,
            Word::And(_, _, _) => Op::And,
            Word::Shr(_, _, _) => Op::Shr,
            Word::Load1(_, _) => Op::Load1,
            Word::Load2(_, _) => Op::Load2,
            Word::Load4(_, _) => Op::Load4,
            Word::Emit(_, _) => Op::Emit,
            Word::IfLess(_, _) => Op::IfLess,
            Word::IfEqual(_, _) => Op::IfEqual,
            Word::Else => Op::Else,
            Word::End => Op::End,
            Word::For(_, _) => Op::For,
            Word::Keep(_, _) => Op::Keep,
        }
    }

    /// The register that the word writes.
    pub fn destination(self) -> Option<Register>
        ensures { result ≡ destination self }
    {
        match self {
            Word::Set(a, _) => Some(a),
            Word::Mov(a, _) => Some(a),
            Word::Add(a, _, _) => Some(a),
            Word::Sub(a, _, _) => Some(a),
            Word::Mul(a, _, _) => Some(a),
            Word::Div(a, _, _) => Some(a),
            Word::Rem(a, _, _) => Some(a),
            Word::And(a, _, _) => Some(a),
            Word::Shr(a, _, _) => Some(a),
            Word::Load1(a, _) => Some(a),
            Word::Load2(a, _) => Some(a),
            Word::Load4(a, _) => Some(a),
            Word::For(a, _) => Some(a),
            _ => None,
        }
    }
}
