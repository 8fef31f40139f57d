//! Days of the calendar.

ghost use Rattle.std.specs.Prelude.{◌≡◌, ◌↔◌, ◌≤ℤ◌, pos, IfSome, IsSome, is_some};
ghost use Rattle.jiff_core.specs.Calendar.{days_from_civil, IsCivilDate, IsEpochDay};
ghost use Rattle.jiff_core.specs.Date.{epoch_day};
ghost use Rattle.bson_base.specs.DateText.{day_number as day_number_of, is_day, IsTextDay};

use jiff_core::civil::Date;

/// The number of a day from 1970-01-01, if the calendar has that day in a year from -9999 to 9999.
#[tactic(auto, unfolding(crate::specs::DateText::day_number))]
pub(crate) fn day_number(year: i32, month: u8, day: u8) -> Option<i64>
    ensures value { result ≡ day_number_of year month day }
    ensures bound { IfSome result IsEpochDay }
{
    match date(year, month, day) {
        Some(date) => Some(number_of(date)),
        None => None,
    }
}

/// The day of the Gregorian calendar, with months and days counted from 1. None if the calendar has no such day, or if
/// the year is outside -9999 to 9999.
fn date(year: i32, month: u8, day: u8) -> Option<Date>
    ensures year { IfSome result (λ d. d.year ≡ year) }
    ensures month { IfSome result (λ d. d.month ≡ month) }
    ensures day { IfSome result (λ d. d.day ≡ day) }
    ensures real { is_some result ≡ is_day year month day }
{
    if year < -9999 || year > 9999 || month > 12 || day > 31 {
        return None;
    }
    Date::new(year as i16, month as i8, day as i8).ok()
}

/// How many days after 1970-01-01 a day is, negative before it.
fn number_of(date: Date) -> i64
    ensures value { result ≡ epoch_day date }
    ensures bound { IsEpochDay result }
{
    date.to_unix_epoch_day() as i64
}

/// A day from the year 0 on.
#[derive(Clone, Copy)]
pub(crate) struct CivilDay {
    pub(crate) year: u32,
    pub(crate) month: u8,
    pub(crate) day: u8,
}

/// The day of the calendar with a number from 1970-01-01, if it lies in the years 0 to 9999.
pub(crate) fn civil_day(number: i64) -> Option<CivilDay>
    ensures civil { IfSome result (λ d. IsCivilDate (pos d.year) d.month d.day) }
    ensures at { IfSome result (λ d. days_from_civil (pos d.year) d.month d.day ≡ number) }
    ensures found { IsSome result ↔ IsTextDay number }
{
    let date = date_at(number)?;
    let year = year_of(date)?;
    Some(CivilDay {
        year,
        month: date.month,
        day: date.day,
    })
}

/// The day that is `number` days after 1970-01-01, or None if it lies outside the years -9999 to 9999.
fn date_at(number: i64) -> Option<Date>
    ensures at { IfSome result (λ d. epoch_day d ≡ number) }
    ensures found { IsSome result ↔ IsEpochDay number }
{
    Date::from_unix_epoch_day(number).ok()
}

/// The year, or None if it is below 0, since a date text has no sign for it (RFC 3339, section 5.6).
fn year_of(date: Date) -> Option<u32>
    ensures value { IfSome result (λ y. pos y ≡ date.year) }
    ensures found { IsSome result ↔ (pos 0 ≤ℤ date.year) }
{
    if date.year < 0 {
        None
    } else {
        Some(date.year as u32)
    }
}
