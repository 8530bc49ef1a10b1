// What an IF's test says of two registers.

ghost use Rattle.std.specs.Prelude.{◌≡◌, Ok, Err, MatchResult, MatchOption, IsTrue};
ghost use Rattle.udf_code.specs.Tree.{Less, Equal};
ghost use Rattle.udf_verify.specs.Intervals.{apart, is_empty_interval};
ghost use Rattle.udf_verify.specs.Bounds.{split_row};

use crate::fault::FaultKind;
use crate::interval::Interval;
use udf_code::word::Register;

/// The intervals where the first register is not below the second, and in place of the old ones those where it is.
pub fn split_less(
    a: Register,
    b: Register,
    intervals: &mut [Interval; 16],
) -> Result<[Interval; 16], FaultKind>
    ensures { MatchResult result
        (λ other. split_row Less a b intervals.old ≡ Ok (record { first = intervals.new; other = other }))
        (λ kind. split_row Less a b intervals.old ≡ Err kind) }
{
    let i = a.index();
    let j = b.index();
    if i == j {
        return Err(FaultKind::SameRegister);
    }
    let x = intervals[i];
    let y = intervals[j];
    if y.high() <= x.low() || x.high() < y.low() {
        return Err(FaultKind::DeadBranch);
    }
    let mut other = *intervals;
    other[i] = Interval::new(x.low().max(y.low()), x.high());
    other[j] = Interval::new(y.low(), y.high().min(x.high()));
    intervals[i] = Interval::new(x.low(), x.high().min(y.high() - 1));
    intervals[j] = Interval::new(y.low().max(x.low() + 1), y.high());
    Ok(other)
}

/// The intervals where two registers differ, and in place of the old ones those where they are equal.
pub fn split_equal(
    a: Register,
    b: Register,
    intervals: &mut [Interval; 16],
) -> Result<[Interval; 16], FaultKind>
    ensures { MatchResult result
        (λ other. split_row Equal a b intervals.old ≡ Ok (record { first = intervals.new; other = other }))
        (λ kind. split_row Equal a b intervals.old ≡ Err kind) }
{
    let i = a.index();
    let j = b.index();
    if j == i {
        return Err(FaultKind::SameRegister);
    }
    let x = intervals[i];
    let y = intervals[j];
    let low = x.low().max(y.low());
    let high = x.high().min(y.high());
    if high < low {
        return Err(FaultKind::DeadBranch);
    }
    let Some(p) = apart_from(x, y) else {
        return Err(FaultKind::DeadBranch);
    };
    let Some(q) = apart_from(y, x) else {
        return Err(FaultKind::DeadBranch);
    };
    let mut other = *intervals;
    other[i] = p;
    other[j] = q;
    intervals[i] = Interval::new(low, high);
    intervals[j] = Interval::new(low, high);
    Ok(other)
}

/// An interval without the one number of another, if the other has one number.
fn apart_from(x: Interval, y: Interval) -> Option<Interval>
    ensures { MatchOption result (IsTrue (is_empty_interval (apart x y))) (λ z. z ≡ apart x y) }
{
    let v = y.low();
    if v != y.high() {
        return Some(x);
    }
    if x.low() == v {
        if x.high() == v {
            return None;
        }
        return Some(Interval::new(v + 1, x.high()));
    }
    if x.high() == v {
        return Some(Interval::new(x.low(), v - 1));
    }
    Some(x)
}
