//! Quotients of decimals.

ghost use Rattle.std.specs.Prelude.{◌≡◌, ◌+◌, ◌-◌, ◌*◌, ◌/◌, ◌%◌, ◌^◌, ◌<◌, ◌≤◌};
ghost use Rattle.bson_decimal.specs.Arithmetic.{IsDecimal, divide, quotient, zeros_to_divide};
ghost use Rattle.bson_decimal.specs.Wides.{IsWide, number_of_wide};

use crate::decimal::{Decimal, infinity_times, signs_differ};
use crate::rounding::{BIAS, OFFSET, decimal_of};
use crate::sticky::sticky;
use crate::wide::{LIMIT, wide_of};

/// How many zeros behind the dividend are enough: with them any quotient but 0 has more than 34 digits.
const MOST_ZEROS: u32 = 68;

/// The quotient of two decimals (IEEE 754-2008, 5.4.1, division): the exact one, if it has at most 34 digits, with the
/// difference of the exponents or, if it has more digits behind that, with as many of them as it needs; and else the
/// decimal nearest to it, the even one at a tie. A quotient that is too great is an infinity, one that is too small a
/// zero. A quotient with NaN is NaN, and so are zero by zero and an infinity by an infinity. Any other number by zero is
/// an infinity, an infinity by a number is one, too, and a number by an infinity is a zero with the least exponent. The
/// sign, also of a zero, is negative if the signs differ.
pub fn divide(a: Decimal, b: Decimal) -> Decimal
    requires first { IsDecimal a }
    requires second { IsDecimal b }
    ensures equal { result ≡ divide a b }
    ensures decimal { IsDecimal result }
{
    match a {
        Decimal::NotANumber => Decimal::NotANumber,
        Decimal::Infinite(s) => match b {
            Decimal::NotANumber => Decimal::NotANumber,
            Decimal::Infinite(_) => Decimal::NotANumber,
            Decimal::Finite(t, _, _) => Decimal::Infinite(signs_differ(s, t)),
        },
        Decimal::Finite(s, c, e) => match b {
            Decimal::NotANumber => Decimal::NotANumber,
            Decimal::Infinite(t) => Decimal::Finite(signs_differ(s, t), 0, 0),
            Decimal::Finite(t, d, f) => quotient(signs_differ(s, t), c, d, e + OFFSET + BIAS - f),
        },
    }
}

/// The quotient of two coefficients times 10^`exponent`.
fn quotient(negative: bool, c: u128, d: u128, exponent: u32) -> Decimal
    requires first { c < 10 ^ 34 }
    requires second { d < 10 ^ 34 }
    requires least { 68 ≤ exponent }
    requires range { exponent < 36864 }
    ensures equal { result ≡ quotient negative c d exponent }
    ensures decimal { IsDecimal result }
{
    if d == 0 {
        return infinity_times(negative, c);
    }
    let Division { whole, rest, zeros } = long_division(c, d);
    decimal_of(negative, wide_of(sticky(whole, rest)), exponent - zeros)
}

/// A division of numbers, of which the first has zeros appended.
struct Division {
    whole: u128,
    rest: u128,
    zeros: u32,
}

/// Divides with as many zeros as it takes for nothing to be left, or for more than 34 digits.
fn long_division(c: u128, d: u128) -> Division
    requires first { c < 10 ^ 34 }
    requires some { 0 < d }
    requires second { d < 10 ^ 34 }
    ensures whole { result.whole ≡ c * 10 ^ result.zeros / d }
    ensures rest { result.rest ≡ c * 10 ^ result.zeros % d }
    ensures small { result.whole < 10 ^ 36 }
    ensures few { result.zeros ≤ zeros_to_divide c d }
    ensures most { result.zeros ≤ 68 }
    ensures exact { result.rest ≡ 0 → result.zeros ≡ zeros_to_divide c d }
    ensures digits { 0 < result.rest → 10 ^ 34 ≤ result.whole }
{
    let mut whole = c / d;
    let mut rest = c % d;
    for zeros in 0..MOST_ZEROS {
        if rest == 0 || whole >= LIMIT {
            return Division { whole, rest, zeros };
        }
        whole = 10 * whole + 10 * rest / d;
        rest = 10 * rest % d;
    }
    Division {
        whole,
        rest,
        zeros: MOST_ZEROS,
    }
}
