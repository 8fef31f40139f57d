//! Moments made of a year, a month, a day and a time of day.

ghost use Rattle.std.specs.Prelude.{◌≡◌, ◌<◌, IfSome};
ghost use Rattle.bson_base.specs.Answer.{result_map};
ghost use Rattle.bson_base.specs.Builder.{built, clock_of, IsEmptyBuilder, with_day, with_hour, with_millisecond, with_minute, with_month, with_second, with_year};
ghost use Rattle.bson_base.specs.Scalars.{millis_of};

use super::calendar::day_number;
use super::{DateTime, Error, Result};

/// Makes a [`DateTime`] of its parts. The year, the month and the day have to be given, once each, in any order; of the
/// other parts the last that is given counts, and one that isn't given is 0.
#[derive(Clone, Copy, Debug)]
pub struct DateTimeBuilder<Y = NoYear, M = NoMonth, D = NoDay> {
    year: Y,
    month: M,
    day: D,
    hour: Option<u8>,
    minute: Option<u8>,
    second: Option<u8>,
    millisecond: Option<u16>,
}

/// The year was given.
#[derive(Clone, Copy, Debug)]
pub struct Year(i32);

/// The year wasn't given yet.
#[derive(Clone, Copy, Debug)]
pub struct NoYear;

/// The month was given.
#[derive(Clone, Copy, Debug)]
pub struct Month(u8);

/// The month wasn't given yet.
#[derive(Clone, Copy, Debug)]
pub struct NoMonth;

/// The day was given.
#[derive(Clone, Copy, Debug)]
pub struct Day(u8);

/// The day wasn't given yet.
#[derive(Clone, Copy, Debug)]
pub struct NoDay;

impl Default for DateTimeBuilder<NoYear, NoMonth, NoDay> {
    ghost is_default = { λ b. IsEmptyBuilder b };

    fn default() -> DateTimeBuilder<NoYear, NoMonth, NoDay> {
        DateTimeBuilder {
            year: NoYear,
            month: NoMonth,
            day: NoDay,
            hour: None,
            minute: None,
            second: None,
            millisecond: None,
        }
    }
}

impl<M, D> DateTimeBuilder<NoYear, M, D> {
    /// Gives the year, from -9999 to 9999.
    pub fn year(self, year: i32) -> DateTimeBuilder<Year, M, D>
        ensures { result ≡ with_year self year }
    {
        DateTimeBuilder {
            year: Year(year),
            month: self.month,
            day: self.day,
            hour: self.hour,
            minute: self.minute,
            second: self.second,
            millisecond: self.millisecond,
        }
    }
}

impl<Y, D> DateTimeBuilder<Y, NoMonth, D> {
    /// Gives the month, from 1 for January to 12.
    pub fn month(self, month: u8) -> DateTimeBuilder<Y, Month, D>
        ensures { result ≡ with_month self month }
    {
        DateTimeBuilder {
            year: self.year,
            month: Month(month),
            day: self.day,
            hour: self.hour,
            minute: self.minute,
            second: self.second,
            millisecond: self.millisecond,
        }
    }
}

impl<Y, M> DateTimeBuilder<Y, M, NoDay> {
    /// Gives the day of the month, from 1.
    pub fn day(self, day: u8) -> DateTimeBuilder<Y, M, Day>
        ensures { result ≡ with_day self day }
    {
        DateTimeBuilder {
            year: self.year,
            month: self.month,
            day: Day(day),
            hour: self.hour,
            minute: self.minute,
            second: self.second,
            millisecond: self.millisecond,
        }
    }
}

impl<Y, M, D> DateTimeBuilder<Y, M, D> {
    /// Gives the hour, from 0 to 23.
    pub fn hour(mut self, hour: u8) -> DateTimeBuilder<Y, M, D>
        ensures { result ≡ with_hour self hour }
    {
        self.hour = Some(hour);
        self
    }

    /// Gives the minute, from 0 to 59.
    pub fn minute(mut self, minute: u8) -> DateTimeBuilder<Y, M, D>
        ensures { result ≡ with_minute self minute }
    {
        self.minute = Some(minute);
        self
    }

    /// Gives the second, from 0 to 59.
    pub fn second(mut self, second: u8) -> DateTimeBuilder<Y, M, D>
        ensures { result ≡ with_second self second }
    {
        self.second = Some(second);
        self
    }

    /// Gives the millisecond, from 0 to 999.
    pub fn millisecond(mut self, millisecond: u16) -> DateTimeBuilder<Y, M, D>
        ensures { result ≡ with_millisecond self millisecond }
    {
        self.millisecond = Some(millisecond);
        self
    }
}

impl DateTimeBuilder<Year, Month, Day> {
    /// The moment, or `InvalidTimestamp` if the calendar has no such day or a part is out of its range.
    pub fn build(self) -> Result<DateTime>
        ensures { result_map millis_of result ≡ built self }
    {
        let Some(day) = day_number(self.year.0, self.month.0, self.day.0) else {
            return Err(Error::InvalidTimestamp);
        };
        let hour = self.hour.unwrap_or(0);
        let minute = self.minute.unwrap_or(0);
        let second = self.second.unwrap_or(0);
        match clock(hour, minute, second, self.millisecond.unwrap_or(0)) {
            Some(clock) => Ok(DateTime::from_millis(day * 86_400_000 + clock as i64)),
            None => Err(Error::InvalidTimestamp),
        }
    }
}

/// The millisecond of the day.
#[tactic(auto, unfolding(crate::specs::Builder::clock_of))]
fn clock(hour: u8, minute: u8, second: u8, millisecond: u16) -> Option<u32>
    ensures value { result ≡ clock_of hour minute second millisecond }
    ensures bound { IfSome result (λ t. t < 86_400_000) }
{
    if hour < 24 && minute < 60 && second < 60 && millisecond < 1000 {
        let minutes = hour as u32 * 60 + minute as u32;
        Some((minutes * 60 + second as u32) * 1000 + millisecond as u32)
    } else {
        None
    }
}

impl DateTime {
    /// A builder that was given nothing.
    pub fn builder() -> DateTimeBuilder<NoYear, NoMonth, NoDay>
        ensures { IsEmptyBuilder result }
    {
        DateTimeBuilder::default()
    }
}
