// Intervals of all registers.

ghost use Rattle.std.specs.Prelude.{◌≡◌};
ghost use Rattle.udf_verify.specs.Intervals.{merge};

use crate::interval::Interval;

/// The least intervals that hold both.
pub fn merge_into(intervals: &mut [Interval; 16], other: &[Interval; 16])
    ensures { intervals.new ≡ merge intervals.old other.now }
{
    for r in 0..16 {
        let x = intervals[r];
        let y = other[r];
        intervals[r] = Interval::new(x.low().min(y.low()), x.high().max(y.high()));
    }
}
