// Dates as they are told on a line.

ghost use Rattle.std.specs.Prelude.{◌≡◌, option_copied};
ghost use Rattle.tree_changes.specs.Cuts.{IsTold};
ghost use Rattle.tree_changes.specs.DateTexts.{IsCivil, IsClock, IsClockTold, IsDay, IsDigits, IsFraction, IsInstant, IsMoment};
ghost use Rattle.tree_changes.specs.DateTexts.{IsTime, day_and_clock, without_zone};

use crate::cuts::cut;
use crate::numbers::read_number;
use jiff::civil::DateTime;
use jiff::tz::Offset;

/// How many nanoseconds a second has.
const SECOND: i64 = 1_000_000_000;

/// A day of the calendar.
#[derive(Clone, Copy, Debug)]
struct Day {
    year: u32,
    month: u32,
    day: u32,
}

/// A time of a day.
#[derive(Clone, Copy, Debug)]
struct Clock {
    hour: u32,
    minute: u32,
    second: u32,
}

/// Where a day begins.
const MIDNIGHT: Clock = Clock {
    hour: 0,
    minute: 0,
    second: 0,
};

/// A number of digits alone, at most so many.
fn read_digits(text: &str, most: usize) -> Option<u32>
    ensures { IsTold (IsDigits most text.now) result }
{
    if text.len() > most {
        return None;
    }
    read_number(text, 10)
}

/// Nanoseconds of the digits behind a point, at most nine.
fn read_fraction(text: Option<&str>) -> Option<u64>
    ensures { IsTold (IsFraction (option_copied text.entry)) result }
{
    let Some(text) = text else {
        return Some(0);
    };
    let digits = read_digits(text, 9)?;
    let missing = 9 - text.len() as u32;
    Some(u64::from(digits) * 10u64.pow(missing))
}

/// A time of a day: hours, minutes and seconds of `HH:MM` or `HH:MM:SS`.
fn read_clock(text: &str) -> Option<Clock>
    ensures { IsTold (IsClock text.now) result }
{
    let (hour, rest) = cut(text, ':');
    let (minute, second) = cut(rest?, ':');
    let second = match second {
        Some(second) => read_digits(second, 2)?,
        None => 0,
    };
    Some(Clock {
        hour: read_digits(hour, 2)?,
        minute: read_digits(minute, 2)?,
        second,
    })
}

/// A time of a day, with nanoseconds; midnight where none is told.
fn read_time(text: Option<&str>) -> Option<(Clock, u64)>
    ensures { IsTold (λ told. IsClockTold (option_copied text.entry) told.0 told.1) result }
{
    let Some(text) = text else {
        return Some((MIDNIGHT, 0));
    };
    let (clock, fraction) = cut(text, '.');
    Some((read_clock(clock)?, read_fraction(fraction)?))
}

/// A day: year, month and day of `YYYY-MM-DD`.
fn read_day(text: &str) -> Option<Day>
    ensures { IsTold (IsDay text.now) result }
{
    let (year, rest) = cut(text, '-');
    let (month, day) = cut(rest?, '-');
    Some(Day {
        year: read_digits(year, 4)?,
        month: read_digits(month, 2)?,
        day: read_digits(day?, 2)?,
    })
}

/// A day and a time of it.
fn moment_of(day: Day, clock: Clock, nanoseconds: u64) -> Option<DateTime>
    ensures { IsTold (IsCivil day clock nanoseconds) result }
{
    let moment = DateTime::new(
        i16::try_from(day.year).ok()?,
        i8::try_from(day.month).ok()?,
        i8::try_from(day.day).ok()?,
        i8::try_from(clock.hour).ok()?,
        i8::try_from(clock.minute).ok()?,
        i8::try_from(clock.second).ok()?,
        i32::try_from(nanoseconds).ok()?,
    );
    match moment {
        Ok(moment) => Some(moment),
        Err(_) => None,
    }
}

/// Nanoseconds from 1970 to a moment in UTC.
fn nanoseconds_to(moment: DateTime) -> Option<i64>
    ensures { IsTold (IsInstant moment) result }
{
    let moment = Offset::UTC.to_timestamp(moment).ok()?;
    i64::try_from(moment.as_nanosecond()).ok()
}

/// What a text tells of a day, and of a time of it, if it tells one.
fn day_and_clock(text: &str) -> (&str, Option<&str>)
    ensures day { result.0.now ≡ (day_and_clock text.now).0 }
    ensures clock { option_copied result.1 ≡ (day_and_clock text.now).1 }
{
    match cut(text, 'T') {
        (day, Some(clock)) => (day, Some(clock)),
        (_, None) => cut(text, ' '),
    }
}

/// Nanoseconds from 1970 to a moment that is told in UTC.
fn read_moment(text: &str) -> Option<i64>
    ensures { IsTold (IsMoment text.now) result }
{
    let (day, clock) = day_and_clock(text);
    let (clock, nanoseconds) = read_time(clock)?;
    nanoseconds_to(moment_of(read_day(day)?, clock, nanoseconds)?)
}

/// A text without a `Z` at its end.
fn without_zone(text: &str) -> &str
    ensures { result.now ≡ without_zone text.now }
{
    match cut(text, 'Z') {
        (before, Some(behind)) if behind.is_empty() => before,
        _ => text,
    }
}

/// A moment in nanoseconds since 1970: told in seconds, or in UTC as `YYYY-MM-DD`, behind which a blank or a `T` and `HH:MM`, `HH:MM:SS` or
/// `HH:MM:SS.fffffffff` may stand, and a `Z` last. `None` where the text is none of these, or the moment is before 1678 or past 2261.
pub fn read_date(text: &str) -> Option<i64>
    ensures { IsTold (IsTime text.now) result }
{
    match text.parse::<i64>() {
        Ok(seconds) => seconds.checked_mul(SECOND),
        Err(_) => read_moment(without_zone(text)),
    }
}
