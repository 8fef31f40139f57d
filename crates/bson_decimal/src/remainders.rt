//! Remainders of decimals.

ghost use Rattle.std.specs.Prelude.{◌≡◌, ◌+◌, ◌-◌, ◌*◌, ◌/◌, ◌%◌, ◌^◌, ◌<◌, ◌≤◌, min};
ghost use Rattle.bson_decimal.specs.Arithmetic.{IsDecimal, remainder};

use crate::decimal::Decimal;
use crate::wide::power_of_ten;

/// What is left of the first decimal if the second one is taken away as often as it goes into it, cut off toward zero as
/// fmod does. It is exact and has the sign of the first one, also as a zero, and the lesser of both exponents. Of NaN, of
/// an infinity, by NaN and by zero it is NaN; by an infinity it is the first decimal as it is.
pub fn remainder(a: Decimal, b: Decimal) -> Decimal
    requires first { IsDecimal a }
    requires second { IsDecimal b }
    ensures equal { result ≡ remainder a b }
    ensures decimal { IsDecimal result }
{
    match a {
        Decimal::NotANumber => Decimal::NotANumber,
        Decimal::Infinite(_) => Decimal::NotANumber,
        Decimal::Finite(s, c, e) => match b {
            Decimal::NotANumber => Decimal::NotANumber,
            Decimal::Infinite(_) => Decimal::Finite(s, c, e),
            Decimal::Finite(_, d, f) => finite_remainder(s, c, e, d, f),
        },
    }
}

/// The same of two finite ones.
fn finite_remainder(negative: bool, c: u128, e: u32, d: u128, f: u32) -> Decimal
    requires first { c < 10 ^ 34 }
    requires least { e < 12288 }
    requires second { d < 10 ^ 34 }
    requires range { f < 12288 }
    ensures equal { result ≡ remainder (Decimal.Finite negative c e) (Decimal.Finite negative d f) }
    ensures decimal { IsDecimal result }
{
    if d == 0 {
        Decimal::NotANumber
    } else if f <= e {
        Decimal::Finite(negative, rest_with_zeros(c, e - f, d), f)
    } else {
        Decimal::Finite(negative, rest_by_zeros(c, d, f - e), e)
    }
}

/// What is left of a coefficient with `k` zeros behind it.
fn rest_with_zeros(c: u128, k: u32, d: u128) -> u128
    requires some { 0 < d }
    requires second { d < 10 ^ 34 }
    ensures equal { result ≡ c * 10 ^ k % d }
    ensures small { result < d }
{
    let mut rest = c % d;
    for _zeros in 0..k {
        rest = 10 * rest % d;
    }
    rest
}

/// What is left of a coefficient by one with `k` zeros behind it.
fn rest_by_zeros(c: u128, d: u128, k: u32) -> u128
    requires first { c < 10 ^ 34 }
    requires some { 0 < d }
    ensures equal { result ≡ c % (d * 10 ^ k) }
    ensures small { result ≤ c }
{
    if 34 < k {
        return c;
    }
    let power = power_of_ten(k);
    if c / power < d { c } else { c % (d * power) }
}
