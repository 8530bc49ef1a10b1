// Numbers in decimal.

ghost use Rattle.std.specs.Prelude.{◌≡◌};
ghost use Rattle.udf_asm.specs.Numbers.{number_of, digits_from};

/// The number below 65,536 that a decimal without leading zeros is, or `None` where the bytes are no such decimal.
pub(crate) fn number(digits: &[u8]) -> Option<u16>
    ensures { result ≡ number_of digits.now }
{
    match digits {
        [] => None,
        [b'0', _, ..] => None,
        _ => value(digits),
    }
}

/// The value of decimal digits, or `None` where a byte is no digit or the value doesn't fit.
fn value(digits: &[u8]) -> Option<u16>
    ensures { result ≡ digits_from 0 digits.now }
{
    let mut number: u16 = 0;
    for digit in digits {
        if *digit < b'0' || *digit > b'9' {
            return None;
        }
        number = number
            .checked_mul(10)?
            .checked_add(u16::from(*digit - b'0'))?;
    }
    Some(number)
}
