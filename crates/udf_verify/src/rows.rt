// The rows of the plain words.

ghost use Rattle.std.specs.Prelude.{◌≡◌, ◌≤◌, ◌/◌, ◌^◌, nat_le, slice_set, Ok, Err, MatchResult};
ghost use Rattle.udf_verify.specs.declared.fault.FaultKind.TheVariants as kind;
ghost use Rattle.udf_verify.specs.Intervals.{between, high_of};
ghost use Rattle.udf_verify.specs.Bounds.{plain_row, unless_counter, placed, is_among, demand};
ghost use Rattle.udf_code.specs.Words.{destination, IsPlain};

use crate::fault::{FaultKind, Role, VerifyFault};
use crate::interval::Interval;
use udf_code::word::{Register, Shift, Word};

/// Checks one plain word, and gives its destination its new interval.
pub fn check_word(
    at: usize,
    word: Word,
    role: Role,
    counters: &[bool; 16],
    intervals: &mut [Interval; 16],
) -> Result<(), VerifyFault>
    requires { IsPlain word }
    ensures { MatchResult result
        (λ done. placed at (unless_counter counters.now word (plain_row role word intervals.old)) ≡ Ok intervals.new)
        (λ fault. placed at (unless_counter counters.now word (plain_row role word intervals.old)) ≡ Err fault) }
{
    if writes_one(counters, word) {
        return Err(VerifyFault {
            at,
            kind: FaultKind::Counter,
        });
    }
    let checked = row(role, &word, intervals);
    match checked {
        Ok(()) => Ok(()),
        Err(kind) => Err(VerifyFault { at, kind }),
    }
}

fn writes_one(registers: &[bool; 16], word: Word) -> bool
    ensures { result ≡ is_among registers.now (destination word) }
{
    match word.destination() {
        Some(a) => registers[a.index()],
        None => false,
    }
}

fn row(role: Role, word: &Word, intervals: &mut [Interval; 16]) -> Result<(), FaultKind>
    requires { IsPlain word.now }
    ensures { MatchResult result
        (λ done. plain_row role word.now intervals.old ≡ Ok intervals.new)
        (λ kind. plain_row role word.now intervals.old ≡ Err kind) }
{
    match *word {
        Word::Set(a, n) => {
            intervals[a.index()] = Interval::new(n as u32, n as u32);
            Ok(())
        }
        Word::Mov(a, b) => {
            intervals[a.index()] = intervals[b.index()];
            Ok(())
        }
        Word::Add(a, b, c) => {
            let x = intervals[b.index()];
            let y = intervals[c.index()];
            let high = x.high() as u64 + y.high() as u64;
            if high > 4294967295 {
                return Err(FaultKind::Sum);
            }
            intervals[a.index()] = Interval::new(x.low() + y.low(), high as u32);
            Ok(())
        }
        Word::Sub(a, b, c) => {
            let x = intervals[b.index()];
            let y = intervals[c.index()];
            if y.high() > x.low() {
                return Err(FaultKind::Difference);
            }
            intervals[a.index()] = Interval::new(x.low() - y.high(), x.high() - y.low());
            Ok(())
        }
        Word::Mul(a, b, c) => {
            let x = intervals[b.index()];
            let y = intervals[c.index()];
            let high = x.high() as u64 * y.high() as u64;
            if high > 4294967295 {
                return Err(FaultKind::Product);
            }
            let low = x.low() as u64 * y.low() as u64;
            intervals[a.index()] = Interval::new(low as u32, high as u32);
            Ok(())
        }
        Word::Div(a, b, c) => {
            let x = intervals[b.index()];
            let y = intervals[c.index()];
            if y.low() == 0 {
                return Err(FaultKind::Divisor);
            }
            intervals[a.index()] = quotient(x, y);
            Ok(())
        }
        Word::Rem(a, b, c) => {
            let x = intervals[b.index()];
            let y = intervals[c.index()];
            if y.low() == 0 {
                return Err(FaultKind::Divisor);
            }
            intervals[a.index()] = Interval::new(0, x.high().min(y.high() - 1));
            Ok(())
        }
        Word::And(a, b, c) => {
            let x = intervals[b.index()];
            let y = intervals[c.index()];
            intervals[a.index()] = Interval::new(0, x.high().min(y.high()));
            Ok(())
        }
        Word::Shr(a, b, distance) => {
            let x = intervals[b.index()];
            intervals[a.index()] = shifted(x, distance);
            Ok(())
        }
        Word::Load1(a, b) => load(a, b, 511, 255, intervals),
        Word::Load2(a, b) => load(a, b, 510, 65535, intervals),
        Word::Load4(a, b) => load(a, b, 508, 4294967295, intervals),
        Word::Emit(_, _) => match role {
            Role::Owns => Ok(()),
            Role::Size => Err(FaultKind::Emits),
        },
        _ => unreachable!(),
    }
}

/// The quotients of two intervals, the second without 0.
fn quotient(x: Interval, y: Interval) -> Interval
    requires { 1 ≤ y.low }
    ensures { result ≡ between (x.low / y.high) (x.high / y.low) }
{
    Interval::new(x.low() / y.high(), x.high() / y.low())
}

/// An interval shifted right.
fn shifted(x: Interval, distance: Shift) -> Interval
    ensures { result ≡ between (x.low / 2 ^ distance) (x.high / 2 ^ distance) }
{
    Interval::new(
        x.low() >> distance.distance(),
        x.high() >> distance.distance(),
    )
}

/// A load from an offset of at most `last`, of a number of at most `most`.
fn load(
    a: Register,
    b: Register,
    last: u32,
    most: u32,
    intervals: &mut [Interval; 16],
) -> Result<(), FaultKind>
    ensures { MatchResult result
        (λ done. demand (nat_le (high_of intervals.old b) last) kind.Load (slice_set intervals.old a (between 0 most)) ≡ Ok intervals.new)
        (λ fault. demand (nat_le (high_of intervals.old b) last) kind.Load (slice_set intervals.old a (between 0 most)) ≡ Err fault) }
{
    if intervals[b.index()].high() > last {
        return Err(FaultKind::Load);
    }
    intervals[a.index()] = Interval::new(0, most);
    Ok(())
}
