//! The decimal that is nearest to a number.

ghost use Rattle.std.specs.Prelude.{◌≡◌, ◌+◌, ◌-◌, ◌*◌, ◌%◌, ◌^◌, ◌<◌, ◌≤◌, ℕ};
ghost use Rattle.std.specs.Ordering.{match_ordering, nat_cmp};
ghost use Rattle.bson_decimal.specs.Arithmetic.{IsDecimal, clamp, decimal_of, fold_down, nearest};
ghost use Rattle.bson_decimal.specs.Wides.{IsWide, number_of_wide};

use crate::decimal::Decimal;
use crate::wide::{LIMIT, Wide, power_of_ten};
use std::cmp::Ordering;

/// The greatest exponent, with its bias.
const GREATEST_EXPONENT: u32 = 12287;

/// What is added to an exponent, beside its bias, until it is known to be in range: so none is under 0.
pub(crate) const OFFSET: u32 = 12352;

/// The bias of an exponent.
pub(crate) const BIAS: u32 = 6176;

/// A quotient, or the next number, by how twice the remainder compares with the divisor.
pub(crate) fn half_even(quotient: u128, half: Ordering) -> u128
    requires { quotient < 10 ^ 34 }
    ensures equal { result ≡ quotient + match_ordering half 0 (quotient % 2) 1 }
    ensures small { result ≤ 10 ^ 34 }
{
    match half {
        Ordering::Less => quotient,
        Ordering::Equal => quotient + quotient % 2,
        Ordering::Greater => quotient + 1,
    }
}

/// A number without its `k` last digits, of 34 at most.
fn nearest_low(number: Wide, k: u32) -> u128
    requires wide { IsWide number }
    requires few { k ≤ 34 }
    requires room { number.high < 10 ^ k }
    ensures equal { result ≡ nearest (number_of_wide number) (10 ^ k) }
    ensures small { result ≤ 10 ^ 34 }
{
    let power = power_of_ten(k);
    let zeros = power_of_ten(34 - k);
    let rest = number.low % power;
    half_even(
        number.high * zeros + number.low / power,
        (2 * rest).cmp(&power),
    )
}

/// A number without its lower digit, and without `k` more of 34.
fn nearest_high(number: Wide, k: u32) -> u128
    requires wide { IsWide number }
    requires some { 0 < k }
    requires few { k ≤ 34 }
    ensures equal { result ≡ nearest (number_of_wide number) (10 ^ (k + 34)) }
    ensures small { result ≤ 10 ^ 34 }
{
    let power = power_of_ten(k);
    let rest = number.high % power;
    half_even(
        number.high / power,
        (2 * rest).cmp(&power).then(number.low.cmp(&0)),
    )
}

/// A number without its `k` last digits.
fn nearest(number: Wide, k: u32) -> u128
    requires wide { IsWide number }
    requires room { number.high < 10 ^ k }
    ensures equal { result ≡ nearest (number_of_wide number) (10 ^ k) }
    ensures small { result ≤ 10 ^ 34 }
{
    if k <= 34 {
        nearest_low(number, k)
    } else if k <= 68 {
        nearest_high(number, k - 34)
    } else {
        0
    }
}

/// How many digits a number has.
fn digits(number: u128) -> u32
    ensures below { number < 10 ^ result }
    ensures least { 0 < result → 10 ^ (result - 1) ≤ number }
    ensures few { result ≤ 39 }
{
    match number.checked_ilog10() {
        Some(log) => log + 1,
        None => 0,
    }
}

/// How many zeros a coefficient has room for.
pub(crate) fn zeros_for(c: u128) -> u32
    requires first { c < 10 ^ 34 }
    requires some { 0 < c }
    ensures few { result < 34 }
    ensures room { c * 10 ^ result < 10 ^ 34 }
    ensures full { 10 ^ 33 ≤ c * 10 ^ result }
{
    34 - digits(c)
}

/// With an exponent above the greatest one zeros are appended, if there is room.
fn clamp(negative: bool, coefficient: u128, exponent: u32) -> Decimal
    requires { coefficient < 10 ^ 34 }
    ensures equal { result ≡ clamp negative coefficient exponent }
    ensures decimal { IsDecimal result }
{
    if exponent <= GREATEST_EXPONENT {
        Decimal::Finite(negative, coefficient, exponent)
    } else {
        fold_down_far(negative, coefficient, exponent - GREATEST_EXPONENT)
    }
}

/// Appends `k` zeros, if there is room.
fn fold_down_far(negative: bool, coefficient: u128, k: u32) -> Decimal
    requires { coefficient < 10 ^ 34 }
    ensures equal { result ≡ fold_down negative coefficient k }
    ensures decimal { IsDecimal result }
{
    if coefficient == 0 {
        Decimal::Finite(negative, 0, GREATEST_EXPONENT)
    } else if 34 < k {
        Decimal::Infinite(negative)
    } else {
        fold_down(negative, coefficient, k)
    }
}

/// Appends at most 34 zeros, if there is room.
fn fold_down(negative: bool, coefficient: u128, k: u32) -> Decimal
    requires few { k ≤ 34 }
    ensures equal { result ≡ fold_down negative coefficient k }
    ensures decimal { IsDecimal result }
{
    if coefficient < power_of_ten(34 - k) {
        Decimal::Finite(negative, coefficient * power_of_ten(k), GREATEST_EXPONENT)
    } else {
        Decimal::Infinite(negative)
    }
}

/// How many digits have to be cut off, so that the exponent isn't too low.
fn least_cut(exponent: u32) -> u32
    ensures { result ≡ 12352 - exponent }
{
    if exponent < OFFSET {
        OFFSET - exponent
    } else {
        0
    }
}

/// How many digits are cut off at least: so many that the exponent isn't too low, and the rest has room.
fn cut_of(high: u128, exponent: u32) -> u32
    ensures enough { 12352 - exponent ≤ result }
    ensures below { high < 10 ^ result }
    ensures few { result ≤ 12352 - exponent + 39 }
    ensures least { (i : ℕ) → 12352 - exponent + i < result → 10 ^ (12352 - exponent + i) ≤ high }
{
    let needed = digits(high);
    let least = least_cut(exponent);
    if needed < least { least } else { needed }
}

/// The decimal that is nearest to a number times 10^`exponent`. The exponent has the bias twice.
pub(crate) fn decimal_of(negative: bool, number: Wide, exponent: u32) -> Decimal
    requires wide { IsWide number }
    requires range { exponent < 36864 }
    ensures equal { result ≡ decimal_of negative (number_of_wide number) exponent }
    ensures decimal { IsDecimal result }
{
    let cut = cut_of(number.high, exponent);
    let coefficient = nearest(number, cut);
    if coefficient < LIMIT {
        clamp(negative, coefficient, exponent + cut - OFFSET)
    } else {
        clamp(
            negative,
            nearest(number, cut + 1),
            exponent + (cut + 1) - OFFSET,
        )
    }
}
