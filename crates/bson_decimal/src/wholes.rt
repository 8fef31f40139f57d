//! Decimals that are rounded to a multiple of a power of ten.

ghost use Rattle.std.specs.Prelude.{◌≡◌, ◌+◌, ◌-◌, ◌*◌, ◌^◌, ◌<◌, ◌≤◌};
ghost use Rattle.bson_decimal.specs.Arithmetic.{IsDecimal, next_unless_exact, round, whole};
ghost use Rattle.bson_decimal.specs.Wides.{round_parts};

use crate::decimal::Decimal;
use crate::rounding::half_even;
use crate::sums::align;
use crate::wide::power_of_ten;
use std::cmp::Ordering;

/// Which one of the two multiples beside it a number between them becomes (IEEE 754-2008, 4.3).
#[derive(Clone, Copy)]
pub enum Rounding {
    /// The nearer one, and of two that are equally near the even one (roundTiesToEven).
    TiesToEven,
    /// The one nearer to zero: what is behind is cut off (roundTowardZero).
    TowardZero,
    /// The lesser one (roundTowardNegative).
    TowardNegative,
    /// The greater one (roundTowardPositive).
    TowardPositive,
}

/// A decimal rounded to a multiple of 10^`unit`, where `unit` is an exponent with the bias 6176: 6176 makes it a whole
/// number, 6174 leaves two places behind the dot, 6178 makes it a multiple of a hundred. The result has this exponent,
/// as if by quantize of IEEE 754-2008, 5.3.2; but a number whose own exponent is greater, and which has no room for so
/// many zeros, keeps its value, with as many of them as it has room for, and doesn't become a NaN. NaN stays NaN, an
/// infinity stays as it is, and a number that becomes zero keeps its sign.
pub fn round(a: Decimal, unit: u32, rounding: Rounding) -> Decimal
    requires operand { IsDecimal a }
    requires range { unit < 12288 }
    ensures equal { result ≡ round rounding unit a }
    ensures decimal { IsDecimal result }
{
    match a {
        Decimal::NotANumber => Decimal::NotANumber,
        Decimal::Infinite(s) => Decimal::Infinite(s),
        Decimal::Finite(s, c, e) => {
            if unit <= e {
                align(s, c, e - unit, s, 0, unit)
            } else {
                Decimal::Finite(s, whole(rounding, s, c, unit - e), unit)
            }
        }
    }
}

/// A coefficient without its last `k` digits.
fn whole(rounding: Rounding, negative: bool, c: u128, k: u32) -> u128
    requires coefficient { c < 10 ^ 34 }
    requires some { 0 < k }
    ensures equal { result ≡ whole rounding negative c (10 ^ k) }
    ensures small { result < 10 ^ 34 }
{
    if 34 < k {
        return round_parts(rounding, negative, 0, c, Ordering::Less);
    }
    let power = power_of_ten(k);
    let rest = c % power;
    round_parts(rounding, negative, c / power, rest, (2 * rest).cmp(&power))
}

/// A quotient, or the next number, by what is left and by how twice of it compares with the divisor.
fn round_parts(
    rounding: Rounding,
    negative: bool,
    quotient: u128,
    rest: u128,
    half: Ordering,
) -> u128
    requires { quotient ≤ 10 ^ 33 }
    ensures equal { result ≡ round_parts rounding negative quotient rest half }
    ensures small { result < 10 ^ 34 }
{
    match rounding {
        Rounding::TiesToEven => half_even(quotient, half),
        Rounding::TowardZero => quotient,
        Rounding::TowardNegative => {
            if negative {
                next_unless_exact(quotient, rest)
            } else {
                quotient
            }
        }
        Rounding::TowardPositive => {
            if negative {
                quotient
            } else {
                next_unless_exact(quotient, rest)
            }
        }
    }
}

/// A quotient, or the next number if something is left.
fn next_unless_exact(quotient: u128, rest: u128) -> u128
    requires { quotient ≤ 10 ^ 33 }
    ensures { result ≡ next_unless_exact quotient rest }
{
    if rest == 0 { quotient } else { quotient + 1 }
}
