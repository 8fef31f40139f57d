//! Sums and differences of decimals.

ghost use Rattle.std.specs.Prelude.{◌≡◌, ◌+◌, ◌-◌, ◌*◌, ◌^◌, ◌<◌, ◌≤◌};
ghost use Rattle.bson_decimal.specs.Arithmetic.{IsDecimal, add, negate, signed_sum};
ghost use Rattle.bson_decimal.specs.Wides.{IsWide, number_of_wide};

use crate::decimal::{Decimal, negate, signs_differ};
use crate::rounding::{OFFSET, decimal_of, zeros_for};
use crate::sticky::sticky_quotient;
use crate::wide::{Wide, compare_wides, difference, power_of_ten, sum, with_zeros};
use std::cmp::Ordering;

/// The sum of two decimals (IEEE 754-2008, 5.4.1, addition): the exact one, with the lesser of both exponents if it has
/// room there, and else the decimal nearest to it, the even one at a tie. A sum that is too great is an infinity. A sum
/// with NaN is NaN, and so is that of infinities with different signs; any other sum with an infinity is that infinity.
/// If nothing is left the sum is 0, and -0 only of two numbers that are negative.
pub fn add(a: Decimal, b: Decimal) -> Decimal
    requires first { IsDecimal a }
    requires second { IsDecimal b }
    ensures equal { result ≡ add a b }
    ensures decimal { IsDecimal result }
{
    match a {
        Decimal::NotANumber => Decimal::NotANumber,
        Decimal::Infinite(s) => match b {
            Decimal::NotANumber => Decimal::NotANumber,
            Decimal::Infinite(t) => {
                if signs_differ(s, t) {
                    Decimal::NotANumber
                } else {
                    Decimal::Infinite(s)
                }
            }
            Decimal::Finite(_, _, _) => Decimal::Infinite(s),
        },
        Decimal::Finite(s, c, e) => match b {
            Decimal::NotANumber => Decimal::NotANumber,
            Decimal::Infinite(t) => Decimal::Infinite(t),
            Decimal::Finite(t, d, f) => {
                if f <= e {
                    align(s, c, e - f, t, d, f)
                } else {
                    align(t, d, f - e, s, c, e)
                }
            }
        },
    }
}

/// The difference of two decimals (IEEE 754-2008, 5.4.1, subtraction): the sum of the first and the second with the other
/// sign. So infinity minus infinity is NaN, and a number minus itself is 0.
pub fn subtract(a: Decimal, b: Decimal) -> Decimal
    requires first { IsDecimal a }
    requires second { IsDecimal b }
    ensures equal { result ≡ add a (negate b) }
    ensures decimal { IsDecimal result }
{
    add(a, negate(b))
}

/// The sum of two numbers in the same unit.
fn signed_sum(s: bool, m: Wide, t: bool, n: Wide, exponent: u32) -> Decimal
    requires first { IsWide m }
    requires second { IsWide n }
    requires room { number_of_wide m + number_of_wide n < 10 ^ 68 }
    requires range { exponent < 36864 }
    ensures equal { result ≡ signed_sum s (number_of_wide m) t (number_of_wide n) exponent }
    ensures decimal { IsDecimal result }
{
    if !signs_differ(s, t) {
        return decimal_of(s, sum(m, n), exponent);
    }
    match compare_wides(m, n) {
        Ordering::Less => decimal_of(t, difference(n, m), exponent),
        Ordering::Equal => decimal_of(false, Wide { high: 0, low: 0 }, exponent),
        Ordering::Greater => decimal_of(s, difference(m, n), exponent),
    }
}

/// The sum of two finite decimals, of which the first has the greater exponent, greater by `k`.
pub(crate) fn align(s: bool, c: u128, k: u32, t: bool, d: u128, f: u32) -> Decimal
    requires first { c < 10 ^ 34 }
    requires second { d < 10 ^ 34 }
    requires range { f + k < 12288 }
    ensures equal { result ≡ signed_sum s (c * 10 ^ k) t d (f + 12352) }
    ensures decimal { IsDecimal result }
{
    if c == 0 {
        return signed_sum(
            s,
            Wide { high: 0, low: 0 },
            t,
            Wide { high: 0, low: d },
            f + OFFSET,
        );
    }
    if k <= 34 {
        return signed_sum(s, with_zeros(c, k), t, Wide { high: 0, low: d }, f + OFFSET);
    }
    align_far(s, c, k, t, d, f)
}

/// The same, greater by more than 34: zeros are appended to the first coefficient, up to 34 digits.
fn align_far(s: bool, c: u128, k: u32, t: bool, d: u128, f: u32) -> Decimal
    requires first { c < 10 ^ 34 }
    requires some { 0 < c }
    requires second { d < 10 ^ 34 }
    requires range { f + k < 12288 }
    requires many { 34 < k }
    ensures equal { result ≡ signed_sum s (c * 10 ^ k) t d (f + 12352) }
    ensures decimal { IsDecimal result }
{
    let zeros = zeros_for(c);
    let full = c * power_of_ten(zeros);
    if k <= zeros + 34 {
        signed_sum(
            s,
            with_zeros(full, k - zeros),
            t,
            Wide { high: 0, low: d },
            f + OFFSET,
        )
    } else {
        align_beyond(s, full, k - zeros - 34, t, d, f)
    }
}

/// The same, of a coefficient of 34 digits that is greater by 34 and `m` more: of the other one, what is below the unit
/// decides how it is rounded and no more.
fn align_beyond(s: bool, c: u128, m: u32, t: bool, d: u128, f: u32) -> Decimal
    requires first { c < 10 ^ 34 }
    requires full { 10 ^ 33 ≤ c }
    requires second { d < 10 ^ 34 }
    requires range { f + m < 12288 }
    requires some { 0 < m }
    ensures equal { result ≡ signed_sum s (c * 10 ^ 34 * 10 ^ m) t d (f + 12352) }
    ensures decimal { IsDecimal result }
{
    signed_sum(
        s,
        Wide { high: c, low: 0 },
        t,
        Wide {
            high: 0,
            low: sticky_quotient(d, m),
        },
        f + m + OFFSET,
    )
}
