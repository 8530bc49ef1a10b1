// How times are told.

use jiff::Timestamp;
use jiff::civil::DateTime;
use jiff::tz::Offset;
use std::fmt;

/// The date and the time of a moment in UTC, told in nanoseconds since 1970.
fn datetime_of(nanoseconds: i64) -> DateTime {
    match Timestamp::from_nanosecond(i128::from(nanoseconds)) {
        Ok(moment) => Offset::UTC.to_datetime(moment),
        Err(_) => Offset::UTC.to_datetime(Timestamp::UNIX_EPOCH),
    }
}

/// A moment in nanoseconds since 1970, told to the minute in UTC: `2026-11-29 12:00`.
#[derive(Clone, Copy, Debug)]
pub struct Minutes(pub i64);

impl fmt::Display for Minutes {
    fn fmt<W: fmt::Write>(&self, f: &mut fmt::Formatter<W>) -> fmt::Result {
        let at = datetime_of(self.0);
        let (year, month, day) = (at.year(), at.month(), at.day());
        let (hour, minute) = (at.hour(), at.minute());
        write!(f, "{year:04}-{month:02}-{day:02} {hour:02}:{minute:02}")
    }
}

/// A moment in nanoseconds since 1970, told exactly in UTC: `2026-11-29T12:00:00.000000000Z`.
#[derive(Clone, Copy, Debug)]
pub struct Exact(pub i64);

impl fmt::Display for Exact {
    fn fmt<W: fmt::Write>(&self, f: &mut fmt::Formatter<W>) -> fmt::Result {
        let at = datetime_of(self.0);
        let (year, month, day) = (at.year(), at.month(), at.day());
        let (hour, minute, second) = (at.hour(), at.minute(), at.second());
        let nanosecond = at.subsec_nanosecond();
        write!(
            f,
            "{year:04}-{month:02}-{day:02}T{hour:02}:{minute:02}:{second:02}.{nanosecond:09}Z"
        )
    }
}
