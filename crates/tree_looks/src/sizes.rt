// How sizes are told.

use std::alloc::{AllocError, Global};
use std::fmt;

/// The units in which people read sizes, each 1,024 of the one before.
const UNITS: [(u64, char); 6] = [
    (1_024, 'K'),
    (1_048_576, 'M'),
    (1_073_741_824, 'G'),
    (1_099_511_627_776, 'T'),
    (1_125_899_906_842_624, 'P'),
    (1_152_921_504_606_846_976, 'E'),
];

/// How often a unit fits into a number, rounded up.
fn rounded_up(number: u64, unit: u64) -> u64 {
    let above = number.saturating_add(unit.saturating_sub(1));
    above.checked_div(unit).unwrap_or(0)
}

/// A number of bytes as people read it, `512`, `1.5K`, `64M`: rounded up, with a tenth below ten, as `ls -h` tells it.
#[derive(Clone, Copy, Debug)]
struct Human(u64);

impl fmt::Display for Human {
    fn fmt<W: fmt::Write>(&self, f: &mut fmt::Formatter<W>) -> fmt::Result {
        let bytes = self.0;
        if bytes < 1_024 {
            return write!(f, "{bytes}");
        }
        for (unit, letter) in UNITS {
            let tenths = rounded_up(bytes.saturating_mul(10), unit);
            if tenths < 100 {
                let (whole, tenth) = (tenths / 10, tenths % 10);
                return write!(f, "{whole}.{tenth}{letter}");
            }
            let whole = rounded_up(bytes, unit);
            if whole < 1_024 {
                return write!(f, "{whole}{letter}");
            }
        }
        write!(f, "{bytes}")
    }
}

/// A number of bytes as it is told: as people read it where that is asked.
pub fn told_size(alloc: Global, bytes: u64, is_human: bool) -> Result<String, AllocError> {
    if is_human {
        let human = Human(bytes);
        format!(in alloc; "{human}")
    } else {
        format!(in alloc; "{bytes}")
    }
}
