//! A decimal's text as it is read, step by step.

ghost use Rattle.std.specs.Prelude.{◌≡◌, ◌<◌, ◌≤◌, ◌^◌, ◌+◌, ◌-◌, ℕ, Bool, true, min, length, option_map, IfOk, replicate};
ghost use Rattle.std.specs.Str.{str_to_ascii_lowercase};
ghost use Rattle.bson_base.specs.Answer.{result_map};
ghost use Rattle.bson_base.specs.Decimal.{all_digits as are_digits, append_zeros as appended, checked_digits as checked, cut, digit_limit, downward as downward_of, drop_last as without_last, drop_tail as without_tail, finite as finite_of, fit as fitted, greatest_in_range, in_range as ranged, is_dot, is_e, is_named as is_named_by, least_in_range, lift as lifted, lower as lowered, marks, pack, raise as raised, read, read_coefficient as coefficient_of, read_cut as read_of_cut, read_exponent as exponent_of, read_number as number_read, read_unsigned_decimal as unsigned_read, shorten as shortened, strip as stripped, upward as upward_of, value as number_of, value_after as value_behind, with_places as placed};
ghost use Rattle.bson_base.specs.DecimalParts.{digits_of, IsFinite, IsPackable, IsShortened, decimal_of_parts, bits_of_parts};

use super::ParseError;
use super::digits::Digits;
use super::parts::{DIGITS, GREATEST_EXPONENT, Parts};
use crate::texts::{all_digits, cut_at, is_named};

/// What is added to an exponent while a text is read, so that none is under 0.
const READING_BIAS: u32 = 65536;
/// The least exponent of a decimal, with that bias.
const LEAST_IN_RANGE: u32 = 59360;
/// The greatest exponent of a decimal, with that bias.
const GREATEST_IN_RANGE: u32 = 71647;

type Shortened<'a> = Result<(Digits<'a>, u32), ParseError>;

/// The value of digits, or 100000 if it is more.
fn small_value(digits: &[u8]) -> u32
    requires { are_digits digits.now ≡ true }
    ensures { result ≡ min (number_of digits.now) 100000 }
{
    let mut n = 0u32;
    for c in digits {
        n = (n * 10 + (*c - b'0') as u32).min(100_000);
    }
    n
}

/// The exponent that digits without a minus sign make, plus `READING_BIAS`. `InvalidExponent` if there is no digit, if
/// there is anything but digits, or if the number is over 32767.
fn upward(digits: &[u8]) -> Result<u32, ParseError>
    ensures { result ≡ upward_of digits.now }
{
    if digits.is_empty() || !all_digits(digits) {
        return Err(ParseError::InvalidExponent);
    }
    let n = small_value(digits);
    if n <= 32767 {
        Ok(READING_BIAS + n)
    } else {
        Err(ParseError::InvalidExponent)
    }
}

/// The exponent that the digits after a minus sign make, plus `READING_BIAS`. `InvalidExponent` if there is no digit,
/// if there is anything but digits, or if the number is over 32768.
fn downward(digits: &[u8]) -> Result<u32, ParseError>
    ensures { result ≡ downward_of digits.now }
{
    if digits.is_empty() || !all_digits(digits) {
        return Err(ParseError::InvalidExponent);
    }
    let n = small_value(digits);
    if n <= 32768 {
        Ok(READING_BIAS - n)
    } else {
        Err(ParseError::InvalidExponent)
    }
}

/// The exponent plus `READING_BIAS`, from what follows the `e`; None means that there is no `e`, and counts as 0.
/// `EmptyExponent` if nothing follows it, `InvalidExponent` if it is no whole number from -32768 to 32767.
fn read_exponent(text: Option<&[u8]>) -> Result<u32, ParseError>
    ensures value { result ≡ exponent_of (option_map (λ s. s.now) text.entry) }
    ensures bound { IfOk result (λ x. x < 98304) }
{
    match text {
        None => Ok(READING_BIAS),
        Some([]) => Err(ParseError::EmptyExponent),
        Some([b'+', rest @ ..]) => upward(rest),
        Some([b'-', rest @ ..]) => downward(rest),
        Some(whole) => upward(whole),
    }
}

/// The digits of a coefficient, and how many of them are after the dot.
fn read_coefficient(text: &[u8]) -> Result<(Digits<'_>, usize), ParseError>
    ensures value { result_map (λ p. (digits_of p.0, p.1)) result ≡ coefficient_of (cut is_dot text.now) }
    ensures digits { IfOk result (λ p. are_digits (digits_of p.0) ≡ true) }
{
    match cut_at(text, b'.', b'.') {
        (whole, None) => check(Digits { whole, part: b"" }, 0),
        (whole, Some(part)) => check(Digits { whole, part }, part.len()),
    }
}

/// The digits of a coefficient and the number of them that are after the dot, both unchanged. `InvalidCoefficient` if
/// there is no digit or anything but digits.
fn check(digits: Digits<'_>, places: usize) -> Result<(Digits<'_>, usize), ParseError>
    ensures value { result_map (λ p. (digits_of p.0, p.1)) result ≡ checked (digits_of digits.entry) places }
    ensures digits { IfOk result (λ p. are_digits (digits_of p.0) ≡ true) }
{
    if digits.len() > 0 && digits.all_digits() {
        Ok((digits, places))
    } else {
        Err(ParseError::InvalidCoefficient)
    }
}

/// The first `kept` digits, with an exponent (plus `READING_BIAS`) raised by one for each digit dropped, whichever
/// these are. `Overflow` if more than 32767 are dropped or the exponent gets over 32767.
fn lift(digits: Digits<'_>, kept: usize, exponent: u32) -> Shortened<'_>
    requires long { kept < length (digits_of digits) }
    requires all { are_digits (digits_of digits) ≡ true }
    requires low { exponent < 98304 }
    ensures value { result_map (λ p. (digits_of p.0, p.1)) result ≡ lifted kept (digits_of digits.entry) exponent }
    ensures digits { IfOk result (λ p. IsShortened kept (digits_of p.0) p.1) }
{
    let dropped = digits.len() - kept;
    if dropped > 32767 || exponent as usize + dropped > 98303 {
        return Err(ParseError::Overflow);
    }
    Ok((digits.first(kept), exponent + dropped as u32))
}

/// The same number in its first `kept` digits, with the exponent (plus `READING_BIAS`) raised to match.
/// `InexactRounding` if a digit other than 0 would be dropped, else the `Overflow` of `lift`.
#[tactic(auto, unfolding(crate::specs::Decimal::drop_tail))]
fn drop_tail(digits: Digits<'_>, kept: usize, exponent: u32) -> Shortened<'_>
    requires long { kept < length (digits_of digits) }
    requires all { are_digits (digits_of digits) ≡ true }
    requires low { exponent < 98304 }
    ensures value { result_map (λ p. (digits_of p.0, p.1)) result ≡ without_tail kept (digits_of digits.entry) exponent }
    ensures digits { IfOk result (λ p. IsShortened kept (digits_of p.0) p.1) }
{
    if !digits.are_zeros_from(kept) {
        return Err(ParseError::InexactRounding);
    }
    lift(digits, kept, exponent)
}

/// The same number in at most 34 digits, with the exponent (plus `READING_BIAS`) raised by one for each zero dropped.
/// The errors are those of `drop_tail`.
fn shorten(digits: Digits<'_>, exponent: u32) -> Shortened<'_>
    requires all { are_digits (digits_of digits) ≡ true }
    requires low { exponent < 98304 }
    ensures value { result_map (λ p. (digits_of p.0, p.1)) result ≡ shortened (digits_of digits.entry) exponent }
    ensures digits { IfOk result (λ p. IsShortened digit_limit (digits_of p.0) p.1) }
{
    if digits.len() <= DIGITS {
        return Ok((digits, exponent));
    }
    drop_tail(digits, DIGITS, exponent)
}

/// The parts of a decimal with a coefficient of at most 34 digits and an exponent that has the bias 6176 of the 128
/// bits (IEEE 754-2008, 3.5.2), not that of reading.
fn finite(negative: bool, coefficient: u128, exponent: u16) -> Parts
    requires coefficient { coefficient < 10 ^ 34 }
    requires exponent { exponent < 12288 }
    ensures value { decimal_of_parts result ≡ finite_of negative coefficient exponent }
    ensures finite { IsFinite result }
{
    Parts::Finite {
        negative,
        coefficient,
        exponent,
    }
}

/// Without the last digits, which have to be zeros.
fn drop_last(negative: bool, digits: Digits<'_>, missing: usize) -> Result<Parts, ParseError>
    requires few { length (digits_of digits) ≤ digit_limit }
    requires all { are_digits (digits_of digits) ≡ true }
    ensures value { result_map decimal_of_parts result ≡ without_last negative (digits_of digits.entry) missing }
    ensures finite { IfOk result IsFinite }
{
    if digits.len() < missing {
        return Err(ParseError::Underflow);
    }
    let kept = digits.len() - missing;
    if digits.are_zeros_from(kept) {
        Ok(finite(negative, digits.first(kept).value(), 0))
    } else {
        Err(ParseError::InexactRounding)
    }
}

/// The decimal of digits whose exponent is below the least: zeros at their end are dropped to raise it, and 0 gets the
/// least exponent. `Underflow` if fewer digits are there than must be dropped, `InexactRounding` if one isn't 0.
fn raise(negative: bool, digits: Digits<'_>, exponent: u32) -> Result<Parts, ParseError>
    requires few { length (digits_of digits) ≤ digit_limit }
    requires all { are_digits (digits_of digits) ≡ true }
    requires low { exponent < least_in_range }
    ensures value { result_map decimal_of_parts result ≡ raised negative (digits_of digits.entry) exponent }
    ensures finite { IfOk result IsFinite }
{
    if digits.value() == 0 {
        Ok(finite(negative, 0, 0))
    } else {
        drop_last(negative, digits, (LEAST_IN_RANGE - exponent) as usize)
    }
}

/// A number of `before` digits with `zeros` zeros after it, at most 34 digits in all.
fn times_ten(start: u128, before: usize, zeros: usize) -> u128
    requires few { before + zeros ≤ digit_limit }
    requires low { start < 10 ^ before }
    ensures value { result ≡ value_behind start (replicate zeros 48) }
    ensures bound { result < 10 ^ 34 }
{
    let mut n = start;
    for done in 0..zeros {
        n = n * 10;
    }
    n
}

/// The decimal of digits with `zeros` zeros after them, at the greatest exponent. `Overflow` if that makes more than 34
/// digits.
fn append_zeros(negative: bool, digits: Digits<'_>, zeros: usize) -> Result<Parts, ParseError>
    requires few { length (digits_of digits) ≤ digit_limit }
    requires low { zeros < 2 ^ 20 }
    requires all { are_digits (digits_of digits) ≡ true }
    ensures value { result_map decimal_of_parts result ≡ appended negative (digits_of digits.entry) zeros }
    ensures finite { IfOk result IsFinite }
{
    if digits.len() + zeros <= DIGITS {
        let coefficient = times_ten(digits.value(), digits.len(), zeros);
        Ok(finite(negative, coefficient, GREATEST_EXPONENT))
    } else {
        Err(ParseError::Overflow)
    }
}

/// The decimal of digits whose exponent is over the greatest: zeros are appended to lower it, and 0 gets the greatest
/// exponent. `Overflow` if the digits and zeros are more than 34.
fn lower(negative: bool, digits: Digits<'_>, exponent: u32) -> Result<Parts, ParseError>
    requires few { length (digits_of digits) ≤ digit_limit }
    requires all { are_digits (digits_of digits) ≡ true }
    requires high { greatest_in_range < exponent }
    requires fits { exponent < 98304 }
    ensures value { result_map decimal_of_parts result ≡ lowered negative (digits_of digits.entry) exponent }
    ensures finite { IfOk result IsFinite }
{
    if digits.value() == 0 {
        Ok(finite(negative, 0, GREATEST_EXPONENT))
    } else {
        append_zeros(negative, digits, (exponent - GREATEST_IN_RANGE) as usize)
    }
}

/// The decimal of at most 34 digits, with an exponent (given plus `READING_BIAS`) brought into -6176 to 6111 if the
/// value can stay the same. The errors are those of `raise` below that range and of `lower` above it.
fn in_range(negative: bool, digits: Digits<'_>, exponent: u32) -> Result<Parts, ParseError>
    requires few { length (digits_of digits) ≤ digit_limit }
    requires all { are_digits (digits_of digits) ≡ true }
    requires fits { exponent < 98304 }
    ensures value { result_map decimal_of_parts result ≡ ranged negative (digits_of digits.entry, exponent) }
    ensures finite { IfOk result IsFinite }
{
    if exponent < LEAST_IN_RANGE {
        raise(negative, digits, exponent)
    } else if GREATEST_IN_RANGE < exponent {
        lower(negative, digits, exponent)
    } else {
        Ok(finite(negative, digits.value(), (exponent - LEAST_IN_RANGE) as u16))
    }
}

/// The decimal with exactly the value of digits and an exponent (plus `READING_BIAS`), in at most 34 digits and with an
/// exponent from -6176 to 6111. The errors are those of `shorten` and of `in_range`.
fn fit(negative: bool, digits: Digits<'_>, exponent: u32) -> Result<Parts, ParseError>
    requires all { are_digits (digits_of digits) ≡ true }
    requires fits { exponent < 98304 }
    ensures value { result_map decimal_of_parts result ≡ fitted negative (digits_of digits.entry) exponent }
    ensures finite { IfOk result IsFinite }
{
    let (digits, exponent) = shorten(digits, exponent)?;
    in_range(negative, digits, exponent)
}

/// The decimal of digits, the last `places` of them after the dot, with the exponent of the text (plus `READING_BIAS`).
/// `Underflow` if `places` is over 32767 or the exponent of the last digit below -32768, else the errors of `fit`.
fn with_places(
    negative: bool,
    exponent: u32,
    digits: Digits<'_>,
    places: usize,
) -> Result<Parts, ParseError>
    requires all { are_digits (digits_of digits) ≡ true }
    requires fits { exponent < 98304 }
    ensures value { result_map decimal_of_parts result ≡ placed negative exponent (digits_of digits.entry, places) }
    ensures finite { IfOk result IsFinite }
{
    if places > 32767 || (exponent as usize) < places + 32768 {
        return Err(ParseError::Underflow);
    }
    fit(negative, digits.strip(), exponent - places as u32)
}

/// The decimal of a text without a sign: digits with at most one dot, and optionally `e` or `E` and an exponent. An
/// error of the exponent is returned before one of the coefficient, and that before those of `with_places`.
fn read_number(negative: bool, text: &[u8]) -> Result<Parts, ParseError>
    ensures value { result_map decimal_of_parts result ≡ number_read negative text.now }
    ensures finite { IfOk result IsFinite }
{
    let (front, behind) = cut_at(text, b'e', b'E');
    let exponent = read_exponent(behind)?;
    let (digits, places) = read_coefficient(front)?;
    with_places(negative, exponent, digits, places)
}

/// The decimal of what follows the sign: `nan`, `snan`, `inf` or `infinity` in any case, or else a number. Any other
/// text has the errors of `read_number`.
fn read_unsigned(negative: bool, text: &[u8]) -> Result<Parts, ParseError>
    ensures value { result_map bits_of_parts result ≡ unsigned_read negative text.now }
    ensures packable { IfOk result IsPackable }
{
    // The sign of a NaN and whether it signals are kept, as in the Rust crate; the normal form makes all of them one.
    if is_named(text, b"nan") {
        let signalling = false;
        return Ok(Parts::NotANumber {
            negative,
            signalling,
        });
    }
    if is_named(text, b"snan") {
        let signalling = true;
        return Ok(Parts::NotANumber {
            negative,
            signalling,
        });
    }
    if is_named(text, b"inf") || is_named(text, b"infinity") {
        return Ok(Parts::Infinite { negative });
    }
    read_number(negative, text)
}

/// The parts of the decimal that a text reads as.
pub(crate) fn read_decimal(text: &str) -> Result<Parts, ParseError>
    ensures value { result_map bits_of_parts result ≡ read text.now }
    ensures packable { IfOk result IsPackable }
{
    match text.as_bytes() {
        [b'+', rest @ ..] => read_unsigned(false, rest),
        [b'-', rest @ ..] => read_unsigned(true, rest),
        rest => read_unsigned(false, rest),
    }
}
