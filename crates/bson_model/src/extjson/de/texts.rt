//! The texts in Extended JSON that no scalar has by itself: whole numbers, doubles, and a byte in hexadecimal.
ghost use Rattle.std.specs.Prelude.{◌≡◌, ◌++◌, option_map};
ghost use Rattle.bson_base.specs.Decimal.{all_digits as are_digits, all_zeros as are_zeros, cut, is_dot, is_e, is_named as is_named_by, marks};
ghost use Rattle.bson_model.specs.JsonTexts.{byte_of, double_of, int_of, is_digits as digits_alone, is_exponent as exponent_of, long_of, read_numeral as numeral_read, read_unsigned_double as unsigned_of, double_sign_bit as bit_of, sign_and_rest, without_dot};

use super::{Error, Result};
use bson_base::texts::{all_digits, all_zeros, cut_at, is_named};
use hex::FromHex;

const SIGN: u64 = 0x8000_0000_0000_0000;

const NAN: u64 = 0x7FF8_0000_0000_0000;

const INFINITY: u64 = 0x7FF0_0000_0000_0000;

/// The number of a text under `$numberInt`: an optional sign, and digits, in the range of 32 bits.
#[tactic(auto, unfolding(crate::specs::JsonTexts::int_of))]
pub fn read_int(text: &str) -> Option<i32>
    ensures { result ≡ int_of text.now }
{
    match text.parse::<i32>() {
        Ok(n) => Some(n),
        Err(_) => None,
    }
}

/// The number of a text under `$numberLong`: an optional sign, and digits, in the range of 64 bits.
#[tactic(auto, unfolding(crate::specs::JsonTexts::long_of))]
pub fn read_long(text: &str) -> Option<i64>
    ensures { result ≡ long_of text.now }
{
    match text.parse::<i64>() {
        Ok(n) => Some(n),
        Err(_) => None,
    }
}

/// Whether a minus is in front, and what follows the sign, if there is one.
fn split_sign(text: &[u8]) -> (bool, &[u8])
    ensures { (result.0, result.1.now) ≡ sign_and_rest text.now }
{
    match text {
        [b'+', rest @ ..] => (false, rest),
        [b'-', rest @ ..] => (true, rest),
        rest => (false, rest),
    }
}

/// Whether a text is one or more decimal digits. The empty text isn't.
fn is_digits(text: &[u8]) -> bool
    ensures { result ≡ digits_alone text.now }
{
    !text.is_empty() && all_digits(text)
}

/// Whether what follows an `e` or `E` is one or more digits, perhaps after a sign; true if there was no such letter.
fn is_exponent(text: Option<&[u8]>) -> bool
    ensures { result ≡ exponent_of (option_map (λ s. s.now) text.entry) }
{
    match text {
        Some(text) => is_digits(split_sign(text).1),
        None => true,
    }
}

/// The highest of the 64 bits (IEEE 754, binary64): set if `negative`, all others zero.
fn sign_bit(negative: bool) -> u64
    ensures { result ≡ bit_of negative }
{
    if negative { SIGN } else { 0 }
}

/// What is before the first dot, and what is behind it; of a text without one all is before.
fn split_dot(text: &[u8]) -> (&[u8], &[u8])
    ensures { result.0.now ++ result.1.now ≡ without_dot text.now }
{
    match cut_at(text, b'.', b'.') {
        (whole, None) => (whole, b""),
        (whole, Some(part)) => (whole, part),
    }
}

/// Whether nothing but decimal digits is before and after a dot. Either side, or both, may be empty.
fn both_digits(whole: &[u8], part: &[u8]) -> bool
    ensures { result ≡ are_digits (whole.now ++ part.now) }
{
    all_digits(whole) && all_digits(part)
}

/// Whether nothing but the digit 0 is before and after a dot. Either side, or both, may be empty.
fn both_zeros(whole: &[u8], part: &[u8]) -> bool
    ensures { result ≡ are_zeros (whole.now ++ part.now) }
{
    all_zeros(whole) && all_zeros(part)
}

/// Whether nothing but decimal digits is before and after a dot, with at least one of them on either side.
fn some_digits(whole: &[u8], part: &[u8]) -> bool
    ensures { result ≡ digits_alone (whole.now ++ part.now) }
{
    whole.len() + part.len() > 0 && both_digits(whole, part)
}

/// A double after its sign.
fn read_unsigned(negative: bool, text: &[u8]) -> Result<u64>
    ensures { result ≡ unsigned_of (negative, text.now) }
{
    if is_named(text, b"nan") {
        return Ok(sign_bit(negative) + NAN);
    }
    if is_named(text, b"inf") || is_named(text, b"infinity") {
        return Ok(sign_bit(negative) + INFINITY);
    }
    let (front, behind) = cut_at(text, b'e', b'E');
    read_numeral(negative, front, behind)
}

/// The 64 bits of a numeral that is zero: `front` is what is between its sign and an `e` or `E`, `behind` what follows
/// that letter. `DeserializationError` if it is no numeral, `FiniteDouble` if a digit in `front` isn't 0.
fn read_numeral(negative: bool, front: &[u8], behind: Option<&[u8]>) -> Result<u64>
    ensures { result ≡ numeral_read negative (front.now, option_map (λ s. s.now) behind.entry) }
{
    let (whole, part) = split_dot(front);
    if !some_digits(whole, part) || !is_exponent(behind) {
        return Err(Error::DeserializationError);
    }
    if both_zeros(whole, part) {
        Ok(sign_bit(negative))
    } else {
        Err(Error::FiniteDouble)
    }
}

/// The pattern of a text under `$numberDouble`.
#[tactic(auto, unfolding(crate::specs::JsonTexts::double_of))]
pub(super) fn read_double(text: &str) -> Result<u64>
    ensures { result ≡ double_of text.now }
{
    let (negative, rest) = split_sign(text.as_bytes());
    read_unsigned(negative, rest)
}

/// The byte that two hexadecimal digits spell.
pub fn read_byte(text: &str) -> Option<u8>
    ensures { result ≡ byte_of text.now }
{
    match <[u8; 1]>::from_hex(text) {
        Ok(bytes) => Some(bytes[0]),
        Err(_) => None,
    }
}
