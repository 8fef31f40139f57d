//! A date text as it is read, from the front.

ghost use Rattle.std.specs.Prelude.{◌≡◌, ◌+◌, ◌*◌, ◌<◌, ◌≤◌, ℕ, pos, ◌+ℤ◌, ◌*ℤ◌, int_div, true, length, option_map, IfSome};
ghost use Rattle.bson_base.specs.Decimal.{all_digits};
ghost use Rattle.jiff_core.specs.Calendar.{IsEpochDay, IsWithin};
ghost use Rattle.bson_base.specs.DateText.{at_end as ended, behind as behind_of, digit as digit_of, digit_run, digits_worth as worth_of, four_digits as four_digits_of, read_ahead as ahead_of, read_late as late_of, next_two as next_two_of, read_clock as clock_of, read_day as day_of, read_fraction as fraction_of, read_minutes as minutes_of, read_moment as moment_read, read_offset as offset_of, some_digits as some_digits_of, two_digits as two_digits_of, utc_second as utc_second_of};

use super::calendar::day_number;

/// The value of the decimal digit at the front, and what follows it. None if no digit is at the front.
fn digit(text: &[u8]) -> Option<(u32, &[u8])>
    ensures value { option_map (λ p. (p.0, p.1.now)) result ≡ digit_of text.now }
    ensures bound { IfSome result (λ p. p.0 < 10) }
{
    let (c, rest) = text.split_first()?;
    if c.is_ascii_digit() {
        Some(((*c - b'0') as u32, rest))
    } else {
        None
    }
}

/// The number that the two decimal digits at the front make, and what follows them. None if there are fewer.
#[tactic(auto, unfolding(crate::specs::DateText::two_digits))]
fn two_digits(text: &[u8]) -> Option<(u32, &[u8])>
    ensures value { option_map (λ p. (p.0, p.1.now)) result ≡ two_digits_of text.now }
    ensures bound { IfSome result (λ p. p.0 < 100) }
{
    let (first, rest) = digit(text)?;
    let (second, rest) = digit(rest)?;
    Some((first * 10 + second, rest))
}

/// The number that the four decimal digits at the front make, and what follows them. None if there are fewer.
#[tactic(auto, unfolding(crate::specs::DateText::four_digits))]
fn four_digits(text: &[u8]) -> Option<(u32, &[u8])>
    ensures value { option_map (λ p. (p.0, p.1.now)) result ≡ four_digits_of text.now }
    ensures bound { IfSome result (λ p. p.0 < 10000) }
{
    let (first, rest) = two_digits(text)?;
    let (second, rest) = two_digits(rest)?;
    Some((first * 100 + second, rest))
}

/// What follows one of two characters.
#[tactic(auto, unfolding(crate::specs::DateText::behind))]
fn behind(text: &[u8], mark: u8, other: u8) -> Option<&[u8]>
    ensures { option_map (λ s. s.now) result ≡ behind_of mark other text.now }
{
    let (c, rest) = text.split_first()?;
    if *c == mark || *c == other {
        Some(rest)
    } else {
        None
    }
}

/// A character and two digits below a limit.
#[tactic(auto, unfolding(crate::specs::DateText::next_two))]
fn next_two(text: &[u8], mark: u8, limit: u32) -> Option<(u32, &[u8])>
    ensures value { option_map (λ p. (p.0, p.1.now)) result ≡ next_two_of mark limit text.now }
    ensures bound { IfSome result (λ p. p.0 < limit) }
    ensures small { IfSome result (λ p. p.0 < 100) }
{
    let rest = behind(text, mark, mark)?;
    let (number, rest) = two_digits(rest)?;
    if number < limit {
        Some((number, rest))
    } else {
        None
    }
}

/// The number of the day, from 1970-01-01.
#[tactic(auto, unfolding(crate::specs::DateText::read_day))]
fn read_day(text: &[u8]) -> Option<(i64, &[u8])>
    ensures value { option_map (λ p. (p.0, p.1.now)) result ≡ day_of text.now }
    ensures bound { IfSome result (λ p. IsEpochDay p.0) }
{
    let (year, rest) = four_digits(text)?;
    let (month, rest) = next_two(rest, b'-', 100)?;
    let (day, rest) = next_two(rest, b'-', 100)?;
    let number = day_number(year as i32, month as u8, day as u8)?;
    Some((number, rest))
}

/// Hours and minutes, as minutes.
#[tactic(auto, unfolding(crate::specs::DateText::read_minutes))]
fn read_minutes(text: &[u8]) -> Option<(u32, &[u8])>
    ensures value { option_map (λ p. (p.0, p.1.now)) result ≡ minutes_of text.now }
    ensures bound { IfSome result (λ p. p.0 < 1440) }
{
    let (hour, rest) = two_digits(text)?;
    let (minute, rest) = next_two(rest, b':', 60)?;
    if hour < 24 {
        Some((hour * 60 + minute, rest))
    } else {
        None
    }
}

/// The second of the day, after a `T`.
#[tactic(auto, unfolding(crate::specs::DateText::read_clock))]
fn read_clock(text: &[u8]) -> Option<(u32, &[u8])>
    ensures value { option_map (λ p. (p.0, p.1.now)) result ≡ clock_of text.now }
    ensures bound { IfSome result (λ p. p.0 < 86400) }
{
    let rest = behind(text, b'T', b't')?;
    let (minutes, rest) = read_minutes(rest)?;
    let (second, rest) = next_two(rest, b':', 60)?;
    Some((minutes * 60 + second, rest))
}

/// The digits at the front, and what follows them.
fn split_digits(text: &[u8]) -> (&[u8], &[u8])
    ensures { (result.0.now, result.1.now) ≡ digit_run text.now }
{
    for (i, c) in text.iter().enumerate() {
        if !c.is_ascii_digit() {
            return (&text[..i], &text[i..]);
        }
    }
    (text, &text[text.len()..])
}

/// What digits are worth: the first one counts 100000000, and each one a tenth of the one before.
fn digits_worth(digits: &[u8]) -> u32
    requires { all_digits digits.now ≡ true }
    ensures value { result ≡ worth_of 100_000_000 digits.now }
    ensures bound { result ≤ 1_000_000_000 }
{
    let mut sum = 0;
    let mut worth = 100_000_000;
    for c in digits {
        sum += (*c - b'0') as u32 * worth;
        worth /= 10;
    }
    sum
}

/// Nanoseconds after a dot, or 0 if there is none.
#[tactic(auto, unfolding(crate::specs::DateText::read_fraction))]
fn read_fraction(text: &[u8]) -> Option<(u32, &[u8])>
    ensures value { option_map (λ p. (p.0, p.1.now)) result ≡ fraction_of text.now }
    ensures bound { IfSome result (λ p. p.0 ≤ 1_000_000_000) }
{
    match behind(text, b'.', b'.') {
        Some(rest) => some_digits(rest),
        None => Some((0, text)),
    }
}

/// The nanoseconds that the digits after a dot make, of which only the first nine count, and what follows them. None if
/// there is no digit (RFC 3339, section 5.6, `time-secfrac`).
fn some_digits(text: &[u8]) -> Option<(u32, &[u8])>
    ensures value { option_map (λ p. (p.0, p.1.now)) result ≡ some_digits_of (digit_run text.now) }
    ensures bound { IfSome result (λ p. p.0 ≤ 1_000_000_000) }
{
    let (digits, rest) = split_digits(text);
    if digits.is_empty() {
        return None;
    }
    Some((digits_worth(digits), rest))
}

/// `value` if nothing of the text is left, else None: a date text ends with its offset (RFC 3339, section 5.6).
fn at_end(value: i64, rest: &[u8]) -> Option<i64>
    ensures { result ≡ ended value rest.now }
{
    if rest.is_empty() { Some(value) } else { None }
}

/// The offset in minutes that `hh:mm` means after a `+` (RFC 3339, section 5.6, `time-numoffset`). None if the text is
/// anything else, or if the hours are over 23 or the minutes over 59.
fn ahead(text: &[u8]) -> Option<i64>
    ensures value { result ≡ ahead_of text.now }
    ensures bound { IfSome result (IsWithin 1439) }
{
    let (minutes, rest) = read_minutes(text)?;
    at_end(minutes as i64, rest)
}

/// The offset in minutes, at most 0, that `hh:mm` means after a `-`; `-00:00` counts as UTC (RFC 3339, section 4.3).
/// None for the same texts as in `ahead`.
fn late(text: &[u8]) -> Option<i64>
    ensures value { result ≡ late_of text.now }
    ensures bound { IfSome result (IsWithin 1439) }
{
    let (minutes, rest) = read_minutes(text)?;
    at_end(-(minutes as i64), rest)
}

/// The minutes by which the text is ahead of UTC.
#[tactic(auto, unfolding(crate::specs::DateText::read_offset))]
fn read_offset(text: &[u8]) -> Option<i64>
    ensures value { result ≡ offset_of text.now }
    ensures bound { IfSome result (IsWithin 1439) }
{
    let (c, rest) = text.split_first()?;
    if *c == b'Z' || *c == b'z' {
        at_end(0, rest)
    } else if *c == b'+' {
        ahead(rest)
    } else if *c == b'-' {
        late(rest)
    } else {
        None
    }
}

/// The seconds since 1970 in UTC, negative before it, of a day numbered from 1970-01-01 and a second of that day, both
/// in a local time that is `offset` minutes ahead of UTC.
fn utc_second(day: i64, second: u32, offset: i64) -> i64
    requires day { IsEpochDay day }
    requires second { second < 86400 }
    requires offset { IsWithin 1439 offset }
    ensures value { result ≡ utc_second_of day second offset }
    ensures bound { IsWithin 400_000_000_000 result }
{
    day * 86_400 + second as i64 - offset * 60
}

/// The nanoseconds since 1970, negative before it, of a second since 1970 and the nanoseconds after that second.
fn nanoseconds(seconds: i64, nanos: u32) -> i128
    requires seconds { IsWithin 400_000_000_000 seconds }
    requires nanos { nanos ≤ 1_000_000_000 }
    ensures value { result ≡ seconds *ℤ pos 1_000_000_000 +ℤ pos nanos }
    ensures bound { IsWithin 500_000_000_000_000_000_000 result }
{
    seconds as i128 * 1_000_000_000 + nanos as i128
}

/// The whole milliseconds of nanoseconds since 1970, truncated towards zero, so a moment before 1970 can become later.
fn milliseconds(nanos: i128) -> i64
    requires { IsWithin 500_000_000_000_000_000_000 nanos }
    ensures { result ≡ int_div nanos (pos 1_000_000) }
{
    (nanos / 1_000_000) as i64
}

/// The milliseconds since 1970 of a date text.
#[tactic(auto, unfolding(crate::specs::DateText::read_moment))]
pub(crate) fn read_moment(text: &[u8]) -> Option<i64>
    ensures { result ≡ moment_read text.now }
{
    let (day, rest) = read_day(text)?;
    let (second, rest) = read_clock(rest)?;
    let (nanos, rest) = read_fraction(rest)?;
    let offset = read_offset(rest)?;
    Some(milliseconds(nanoseconds(utc_second(day, second, offset), nanos)))
}
