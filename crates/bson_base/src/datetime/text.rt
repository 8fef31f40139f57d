//! Date texts.

ghost use Rattle.std.specs.Prelude.{◌≡◌, ◌≢◌, ◌<◌, ◌∷◌, ◌*ℤ◌, ◌+ℤ◌, pos, List, ℕ, IfOk, IfSome, IsSome, IsTrue, Some, Err, ◌↔◌, string_bytes};
ghost use Rattle.std.specs.Fmt.{WritesOnOk, WritesStyledOnOk, DisplaysOnOk, DisplaysStyledOnOk};
ghost use Rattle.jiff_core.specs.Calendar.{IsCivilDate, days_from_civil};
ghost use Rattle.bson_base.specs.Answer.{result_map};
ghost use Rattle.bson_base.specs.DateText.{date_of, fraction_text, has_date_text, IsDateText, moment_text, WritesDate, two as two_of};
ghost use Rattle.bson_base.specs.Dates.{shown_date};
ghost use Rattle.bson_base.specs.Scalars.{millis_of};

use super::calendar::{CivilDay, civil_day};
use super::parse::read_moment;
use super::{DateTime, Error, Result};
use crate::plain::write_plainly;
use std::alloc::Global;
use std::{fmt, str};

/// Writes ASCII bytes as a text. `fmt::Error` if the formatter's writer fails, or if the bytes aren't UTF-8.
fn write_bytes<W: fmt::Write>(f: &mut fmt::Formatter<W>, bytes: &[u8]) -> fmt::Result
    ensures { WritesOnOk W.write_str_gives f.old result bytes.now f.new }
{
    match str::from_utf8(bytes) {
        Ok(text) => f.write_str(text),
        Err(_) => Err(fmt::Error),
    }
}

/// A number that is shown by two digits.
#[derive(Clone, Copy)]
struct TwoDigits {
    number: u32,
    ghost small: { number < 100 },
}

impl fmt::Display for TwoDigits {
    ghost output = { λ n. Some (two_of n.number) };

    fn fmt<W: fmt::Write>(&self, f: &mut fmt::Formatter<W>) -> fmt::Result {
        let tens = b'0' + (self.number / 10) as u8;
        let ones = b'0' + (self.number % 10) as u8;
        write_bytes(f, &[tens, ones])
    }
}

/// A number below 100, to be shown with a leading zero if it is below 10, as the fields of a date text are (RFC 3339,
/// section 5.6).
fn two(number: u32) -> TwoDigits
    requires { number < 100 }
    ensures { result.number ≡ number }
{
    TwoDigits { number }
}

/// Milliseconds, shown without trailing zeros after a dot.
#[derive(Clone, Copy)]
struct Fraction {
    millis: u32,
    ghost small: { millis < 1000 },
}

impl fmt::Display for Fraction {
    ghost output = { λ n. Some (fraction_text n.millis) };

    /// Prints a dot and one to three digits, or nothing at all for 0 milliseconds.
    fn fmt<W: fmt::Write>(&self, f: &mut fmt::Formatter<W>) -> fmt::Result {
        let millis = self.millis;
        let first = b'0' + (millis / 100) as u8;
        if millis == 0 {
            f.write_str("")
        } else if millis % 100 == 0 {
            write_bytes(f, &[b'.', first])
        } else if millis % 10 == 0 {
            let digits = two(millis / 10);
            write!(f, ".{digits}")
        } else {
            let digits = two(millis % 100);
            write_three(f, first, digits)
        }
    }
}

/// Writes a dot and three digits of milliseconds: `first` is the ASCII digit of the hundreds, `digits` the other two.
fn write_three<W: fmt::Write>(
    f: &mut fmt::Formatter<W>,
    first: u8,
    digits: TwoDigits,
) -> fmt::Result
    ensures { WritesOnOk W.write_str_gives f.old result (46 ∷ first ∷ two_of digits.number) f.new }
{
    let tens = b'0' + (digits.number / 10) as u8;
    let ones = b'0' + (digits.number % 10) as u8;
    write_bytes(f, &[b'.', first, tens, ones])
}

/// A day of the calendar from the year 0 to 9999, and a millisecond of that day.
#[derive(Clone, Copy)]
struct Moment {
    year: u32,
    month: u8,
    day: u8,
    clock: u32,
    ghost civil: { IsCivilDate (pos year) month day },
    ghost within: { clock < 86_400_000 },
}

impl fmt::Display for Moment {
    ghost output = { λ m. Some (moment_text m.year m.month m.day m.clock) };

    /// Prints `YYYY-MM-DDThh:mm:ssZ`, with milliseconds before the `Z` if they aren't 0 (RFC 3339, section 5.6).
    fn fmt<W: fmt::Write>(&self, f: &mut fmt::Formatter<W>) -> fmt::Result {
        let (century, year) = (two(self.year / 100), two(self.year % 100));
        let (month, day) = (two(self.month as u32), two(self.day as u32));
        let hour = two(self.clock / 3_600_000);
        let minute = two(self.clock / 60_000 % 60);
        let second = two(self.clock / 1000 % 60);
        let millis = Fraction {
            millis: self.clock % 1000,
        };
        write!(
            f,
            "{century}{year}-{month}-{day}T{hour}:{minute}:{second}{millis}Z"
        )
    }
}

/// The moment of milliseconds since 1970, in the years 0 to 9999.
fn moment_of(millis: i64) -> Option<Moment>
    ensures at { IfSome result (λ m. days_from_civil (pos m.year) m.month m.day *ℤ pos 86_400_000 +ℤ pos m.clock ≡ millis) }
    ensures found { IsSome result ↔ IsTrue (has_date_text millis) }
{
    let (number, clock) = day_and_clock(millis);
    let CivilDay { year, month, day } = civil_day(number)?;
    Some(Moment {
        year,
        month,
        day,
        clock,
    })
}

/// The number of the day, and the millisecond of the day.
fn day_and_clock(millis: i64) -> (i64, u32)
    ensures at { result.0 *ℤ pos 86_400_000 +ℤ pos result.1 ≡ millis }
    ensures within { result.1 < 86_400_000 }
{
    let clock = millis.rem_euclid(86_400_000) as u32;
    (millis.div_euclid(86_400_000), clock)
}

impl DateTime {
    /// The date text of RFC 3339 in UTC, with milliseconds if they aren't 0. `CannotFormat` outside the years 0000
    /// to 9999, `Memory` if a growth was refused.
    pub fn try_to_rfc3339_string(self, alloc: Global) -> Result<String>
        ensures text { IfOk result (λ text. IsDateText (millis_of self) (string_bytes text)) }
        ensures refused { IsTrue (has_date_text (millis_of self)) → result ≢ Err Error.CannotFormat }
        ensures outside { ¬ IsTrue (has_date_text (millis_of self)) → result ≡ Err Error.CannotFormat }
        ensures others { result ≢ Err Error.InvalidTimestamp }
    {
        match moment_of(self.0) {
            Some(moment) => match moment.to_string(alloc) {
                Ok(text) => Ok(text),
                Err(_) => Err(Error::Memory),
            },
            None => Err(Error::CannotFormat),
        }
    }

    /// The moment of a date text of RFC 3339: a four-digit year, a real day, `T` or `t`, hours, minutes and seconds
    /// without leap seconds, optionally a dot and digits (nine of them count), and `Z`, `z` or an offset. Nanoseconds
    /// become milliseconds by truncation towards zero. Any other text is refused by `InvalidTimestamp`.
    pub fn parse_rfc3339_str(text: &str) -> Result<DateTime>
        ensures { result_map millis_of result ≡ date_of text.now }
    {
        match read_moment(text.as_bytes()) {
            Some(millis) => Ok(DateTime::from_millis(millis)),
            None => Err(Error::InvalidTimestamp),
        }
    }
}

/// Writes the date text in UTC (RFC 3339, section 5.6), whatever width, fill or precision the formatter has.
fn write_moment<W: fmt::Write>(f: &mut fmt::Formatter<W>, moment: Moment) -> fmt::Result
    ensures { WritesStyledOnOk W.write_str_gives f.old result (moment_text moment.year moment.month moment.day moment.clock) f.new }
{
    write_plainly(f, moment)
}

/// Writes the date text of milliseconds since 1970, or, outside the years 0000 to 9999, the milliseconds in decimal.
fn write_date<W: fmt::Write>(f: &mut fmt::Formatter<W>, millis: i64) -> fmt::Result
    ensures { WritesDate W.write_str_gives f.old result millis f.new }
{
    match moment_of(millis) {
        Some(moment) => write_moment(f, moment),
        None => write_plainly(f, millis),
    }
}

/// The date text, or the milliseconds in decimal if there is none.
impl fmt::Display for DateTime {
    ghost output = { λ t. Some (shown_date (millis_of t)) };

    ghost styled_output = { λ t s. Some (shown_date (millis_of t)) };

    fn fmt<W: fmt::Write>(&self, f: &mut fmt::Formatter<W>) -> fmt::Result
        ensures writes { DisplaysOnOk W.write_str_gives f.old result (Some (shown_date (millis_of self.now))) f.new }
        ensures styled { DisplaysStyledOnOk W.write_str_gives f.old result (Some (shown_date (millis_of self.now))) f.new }
        ensures dated { WritesDate W.write_str_gives f.old result (millis_of self.now) f.new }
    {
        write_date(f, self.0)
    }
}
