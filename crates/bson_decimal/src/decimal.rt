//! Decimals, and what changes their sign alone.

ghost use Rattle.std.specs.Prelude.{◌≡◌, ◌+◌, ◌*◌, ◌^◌, ◌<◌};
ghost use Rattle.bson_decimal.specs.Arithmetic.{IsDecimal, absolute, infinity_times, negate, of_integer, signs_differ};

use crate::rounding::BIAS;

/// A decimal of 128 bits (IEEE 754-2008, 3.5.2), taken apart. Every function wants one of at most 34 digits, with an
/// exponent below 12288, and returns one.
#[derive(Clone, Copy)]
pub enum Decimal {
    /// A NaN; neither its sign nor whether it signals is kept.
    NotANumber,
    /// An infinity: whether it is negative.
    Infinite(bool),
    /// Whether it is negative, its coefficient, and its exponent with the bias 6176. Decimals of equal value may differ
    /// in their exponents, as 1.0 and 1.00 do, and a zero has a sign.
    Finite(bool, u128, u32),
}

/// The decimal of a whole number, exactly, with the exponent 0 (IEEE 754-2008, 5.4.1, convertFromInt).
pub fn from_integer(value: i64) -> Decimal
    ensures equal { result ≡ of_integer value }
    ensures decimal { IsDecimal result }
{
    Decimal::Finite(value < 0, value.unsigned_abs() as u128, BIAS)
}

/// The decimal with the other sign, also of a zero and of an infinity (IEEE 754-2008, 5.5.1, negate). A NaN stays one.
pub fn negate(a: Decimal) -> Decimal
    requires { IsDecimal a }
    ensures equal { result ≡ negate a }
    ensures decimal { IsDecimal result }
{
    match a {
        Decimal::NotANumber => Decimal::NotANumber,
        Decimal::Infinite(s) => Decimal::Infinite(!s),
        Decimal::Finite(s, c, e) => Decimal::Finite(!s, c, e),
    }
}

/// The decimal without its sign, also of a zero and of an infinity (IEEE 754-2008, 5.5.1, abs). A NaN stays one.
pub fn absolute(a: Decimal) -> Decimal
    requires { IsDecimal a }
    ensures equal { result ≡ absolute a }
    ensures decimal { IsDecimal result }
{
    match a {
        Decimal::NotANumber => Decimal::NotANumber,
        Decimal::Infinite(_) => Decimal::Infinite(false),
        Decimal::Finite(_, c, e) => Decimal::Finite(false, c, e),
    }
}

/// Whether two signs differ, which is the sign of a product and of a quotient.
pub(crate) fn signs_differ(s: bool, t: bool) -> bool
    ensures { result ≡ signs_differ s t }
{
    if s { !t } else { t }
}

/// An infinity times a coefficient, and a coefficient divided by zero: NaN of 0, an infinity of any other one.
pub(crate) fn infinity_times(negative: bool, c: u128) -> Decimal
    ensures equal { result ≡ infinity_times negative c }
    ensures decimal { IsDecimal result }
{
    if c == 0 {
        Decimal::NotANumber
    } else {
        Decimal::Infinite(negative)
    }
}
