//! Moments in time.

ghost use Rattle.std.specs.Prelude.{◌≡◌, unsigned_abs, ◌-◌, ◌*◌, ◌/◌, ◌^◌, ◌<◌, ◌≤◌, ◌↔◌, pos, ◌+ℤ◌, ◌-ℤ◌, ◌<ℤ◌, ◌≤ℤ◌, IfSome, IsNone};
ghost use Rattle.std.specs.Int.{w64, saturate_signed};
ghost use Rattle.std.specs.Duration.{as_nanos};

pub mod builder;
mod calendar;
mod parse;
mod text;

pub use builder::DateTimeBuilder;
use std::time::Duration;
use thiserror::Error;

/// Why a moment was refused.
#[derive(Clone, Copy, Debug, PartialEq, Eq, Error)]
pub enum Error {
    /// The parts or the text name no moment that a `DateTime` can hold.
    #[error("the timestamp is invalid")]
    InvalidTimestamp,
    /// The moment lies outside the years 0000 to 9999 and has no date text.
    #[error("the moment has no date text")]
    CannotFormat,
    /// A growth of memory was refused.
    #[error("out of memory")]
    Memory,
}

/// What a call of this module returns.
pub type Result<T> = std::result::Result<T, Error>;

/// Milliseconds since 1970-01-01T00:00:00Z, a signed number of 64 bits (bsonspec.org 1.1, element type 09).
#[derive(Clone, Copy, Debug, PartialEq, Eq, PartialOrd, Ord, Hash)]
pub struct DateTime(pub(crate) i64);

impl DateTime {
    ghost use Rattle.bson_base.specs.Scalars.{millis_of};

    /// The latest moment that a `DateTime` can hold.
    pub const MAX: DateTime = DateTime(i64::MAX);

    /// The earliest moment that a `DateTime` can hold.
    pub const MIN: DateTime = DateTime(i64::MIN);

    /// The moment `millis` milliseconds after 1970-01-01T00:00:00Z.
    pub fn from_millis(millis: i64) -> DateTime
        ensures { millis_of result ≡ millis }
    {
        DateTime(millis)
    }

    /// How many milliseconds after 1970-01-01T00:00:00Z it is.
    pub fn timestamp_millis(self) -> i64
        ensures { result ≡ millis_of self }
    {
        self.0
    }

    /// The moment `millis` milliseconds later, or the nearest that a `DateTime` can hold.
    pub fn saturating_add_millis(self, millis: i64) -> DateTime
        ensures { millis_of result ≡ saturate_signed w64 (millis_of self +ℤ millis) }
    {
        DateTime(self.0.saturating_add(millis))
    }

    /// The moment that much later, counted in whole milliseconds, or `MAX` if that passes it. A duration of more than
    /// 9223372036854775807 milliseconds gives `MAX` from any moment.
    pub fn saturating_add_duration(self, duration: Duration) -> DateTime
        ensures within { let millis = as_nanos duration / 1_000_000 in
            millis < 2 ^ 63 → millis_of result ≡ saturate_signed w64 (millis_of self +ℤ pos millis) }
        ensures past { 2 ^ 63 ≤ as_nanos duration / 1_000_000 → millis_of result ≡ pos (2 ^ 63 - 1) }
    {
        match i64::try_from(duration.as_millis()) {
            Ok(millis) => self.saturating_add_millis(millis),
            Err(_) => DateTime::MAX,
        }
    }

    /// How much later it is than `earlier`, exactly, or None if `earlier` is the later one.
    pub fn checked_duration_since(self, earlier: DateTime) -> Option<Duration>
        ensures none { IsNone result ↔ (millis_of self <ℤ millis_of earlier) }
        ensures value { IfSome result (λ d. as_nanos d ≡ unsigned_abs (millis_of self -ℤ millis_of earlier) * 1_000_000) }
    {
        if self.0 < earlier.0 {
            return None;
        }
        Some(Duration::from_millis(self.0.abs_diff(earlier.0)))
    }

    /// How much later it is than `earlier`, exactly, or zero if `earlier` is the later one.
    pub fn saturating_duration_since(self, earlier: DateTime) -> Duration
        ensures later { millis_of earlier ≤ℤ millis_of self → as_nanos result ≡ unsigned_abs (millis_of self -ℤ millis_of earlier) * 1_000_000 }
        ensures earlier { millis_of self <ℤ millis_of earlier → as_nanos result ≡ 0 }
    {
        self.checked_duration_since(earlier)
            .unwrap_or(Duration::ZERO)
    }
}
