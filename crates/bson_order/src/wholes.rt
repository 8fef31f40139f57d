//! Whole numbers of 64 bits.

ghost use Rattle.std.specs.Prelude.{◌≡◌, ◌*◌, ◌/◌, ◌^◌, ◌<◌, ◌≤◌, ◌+◌};
ghost use Rattle.bson_order.specs.Line.{least_double, one_whole};
ghost use Rattle.bson_order.specs.Sizes.{IsNumber, IsSize, place_of, size_of};
ghost use Rattle.bson_order.specs.Wholes.{in_64_bits, signed as with_sign, small, whole_at as whole_at_place, whole_part as whole_part_at};

use crate::numbers::{Number, compare_numbers, whole};
use crate::sizes::{Size, WHOLE_TENS, WHOLE_TWOS};

/// The number without its fraction, as it is cut off toward zero: -1.5 gives -1. None if 64 bits have no room for it, and
/// of an infinity and what is no number.
pub fn whole_part(number: Number) -> Option<i64>
    requires { IsNumber number }
    ensures { result ≡ whole_part_at (place_of number) }
{
    match number {
        Number::NotANumber => None,
        Number::Sized(negative, size) => match whole_size(size) {
            Some(whole) => signed(negative, whole),
            None => None,
        },
    }
}

/// The whole number that a number is. None if it has a fraction, or 64 bits have no room for it.
pub fn whole_at(number: Number) -> Option<i64>
    requires { IsNumber number }
    ensures { result ≡ whole_at_place (place_of number) }
{
    match whole_part(number) {
        Some(part) => {
            if compare_numbers(whole(part), number).is_eq() {
                Some(part)
            } else {
                None
            }
        }
        None => None,
    }
}

/// A size with its sign, if 64 bits have room for it.
fn signed(negative: bool, size: u64) -> Option<i64>
    ensures { result ≡ in_64_bits (with_sign negative size) }
{
    if !negative {
        i64::try_from(size).ok()
    } else if size == 1 << 63 {
        Some(i64::MIN)
    } else {
        match i64::try_from(size) {
            Ok(whole) => Some(-whole),
            Err(_) => None,
        }
    }
}

/// A size without its fraction, if 64 bits have room for it.
fn whole_size(size: Size) -> Option<u64>
    requires { IsSize size }
    ensures { result ≡ small (size_of size / one_whole) }
{
    match size {
        Size::Infinite => None,
        Size::Tens(coefficient, exponent) => whole_tens(coefficient, exponent),
        Size::Twos(significand, exponent) => whole_twos(significand, exponent),
    }
}

/// `c` times 10^`e`, counted in the least decimal, 10^-6176, without its fraction. None if 64 bits have no room for it.
fn whole_tens(c: u128, e: u32) -> Option<u64>
    requires { c < 10 ^ 34 }
    ensures { result ≡ small (c * 10 ^ e / one_whole) }
{
    if e < WHOLE_TENS {
        cut(c, 10, WHOLE_TENS - e, 34)
    } else {
        grown(c, 10, e - WHOLE_TENS, 19)
    }
}

/// `s` times 2^`x`, counted in the least double, 2^-1074, without its fraction. None if 64 bits have no room for it.
fn whole_twos(s: u128, x: u32) -> Option<u64>
    requires { s < 2 ^ 53 }
    ensures { result ≡ small (s * 2 ^ x * least_double / one_whole) }
{
    if x < WHOLE_TWOS {
        cut(s, 2, WHOLE_TWOS - x, 53)
    } else {
        grown(s, 2, x - WHOLE_TWOS, 63)
    }
}

/// `a` divided by `base`^`k`. No power from the `most`th on is less than it.
fn cut(a: u128, base: u128, k: u32, most: u32) -> Option<u64>
    requires some { 0 < base }
    requires first { a < base ^ most }
    requires room { base ^ most < 2 ^ 128 }
    ensures { result ≡ small (a / base ^ k) }
{
    if k >= most {
        Some(0)
    } else {
        u64::try_from(a / base.pow(k)).ok()
    }
}

/// `a` times `base`^`k`. No power from the one after the `most`th on is in 64 bits.
fn grown(a: u128, base: u128, k: u32, most: u32) -> Option<u64>
    requires some { 0 < base }
    requires room { base ^ most < 2 ^ 64 }
    requires beyond { 2 ^ 64 ≤ base ^ (most + 1) }
    ensures { result ≡ small (a * base ^ k) }
{
    if a == 0 {
        return Some(0);
    }
    if k > most {
        return None;
    }
    match u64::try_from(a) {
        Ok(size) => u64::try_from(size as u128 * base.pow(k)).ok(),
        Err(_) => None,
    }
}
