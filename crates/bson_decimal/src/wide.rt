//! Numbers below 10^68.

ghost use Rattle.std.specs.Prelude.{◌≡◌, ◌+◌, ◌-◌, ◌*◌, ◌^◌, ◌<◌, ◌≤◌};
ghost use Rattle.std.specs.Ordering.{nat_cmp};
ghost use Rattle.bson_decimal.specs.Wides.{IsWide, number_of_wide};

use std::cmp::Ordering;

/// 10^34, which no coefficient reaches.
pub(crate) const LIMIT: u128 = 10_000_000_000_000_000_000_000_000_000_000_000;

/// 10^17.
const HALF: u128 = 100_000_000_000_000_000;

/// A number by its digits to the base 10^34.
#[derive(Clone, Copy)]
pub(crate) struct Wide {
    pub(crate) high: u128,
    pub(crate) low: u128,
}

/// A number by its digits.
pub(crate) fn wide_of(number: u128) -> Wide
    requires { number < 10 ^ 68 }
    ensures equal { number_of_wide result ≡ number }
    ensures wide { IsWide result }
{
    Wide {
        high: number / LIMIT,
        low: number % LIMIT,
    }
}

/// A power of ten.
pub(crate) fn power_of_ten(k: u32) -> u128
    requires { k ≤ 34 }
    ensures equal { result ≡ 10 ^ k }
    ensures some { 0 < result }
    ensures small { result ≤ 10 ^ 34 }
    ensures under { k < 34 → result < 10 ^ 34 }
{
    10u128.pow(k)
}

/// The product of two digits to the base 10^17.
fn small_product(a: u128, b: u128) -> u128
    requires first { a < 10 ^ 17 }
    requires second { b < 10 ^ 17 }
    ensures equal { result ≡ a * b }
    ensures small { result ≤ (10 ^ 17 - 1) * (10 ^ 17 - 1) }
{
    a * b
}

/// The product of two coefficients.
pub(crate) fn product(c: u128, d: u128) -> Wide
    requires first { c < 10 ^ 34 }
    requires second { d < 10 ^ 34 }
    ensures equal { number_of_wide result ≡ c * d }
    ensures wide { IsWide result }
{
    let crossed = small_product(c / HALF, d % HALF) + small_product(c % HALF, d / HALF);
    let low = small_product(c % HALF, d % HALF) + crossed % HALF * HALF;
    let high = small_product(c / HALF, d / HALF) + crossed / HALF + low / LIMIT;
    Wide {
        high,
        low: low % LIMIT,
    }
}

/// A coefficient with `k` zeros behind it.
pub(crate) fn with_zeros(c: u128, k: u32) -> Wide
    requires coefficient { c < 10 ^ 34 }
    requires few { k ≤ 34 }
    ensures equal { number_of_wide result ≡ c * 10 ^ k }
    ensures wide { IsWide result }
{
    if k == 34 {
        Wide { high: c, low: 0 }
    } else {
        product(c, power_of_ten(k))
    }
}

/// Compares two numbers.
pub(crate) fn compare_wides(a: Wide, b: Wide) -> Ordering
    requires first { IsWide a }
    requires second { IsWide b }
    ensures { result ≡ nat_cmp (number_of_wide a) (number_of_wide b) }
{
    a.high.cmp(&b.high).then(a.low.cmp(&b.low))
}

/// The sum of two numbers, if there is room for it.
pub(crate) fn sum(a: Wide, b: Wide) -> Wide
    requires first { IsWide a }
    requires second { IsWide b }
    requires room { number_of_wide a + number_of_wide b < 10 ^ 68 }
    ensures equal { number_of_wide result ≡ number_of_wide a + number_of_wide b }
    ensures wide { IsWide result }
{
    let low = a.low + b.low;
    if low < LIMIT {
        Wide {
            high: a.high + b.high,
            low,
        }
    } else {
        Wide {
            high: a.high + b.high + 1,
            low: low - LIMIT,
        }
    }
}

/// What is left of a number if a lesser one is taken away.
pub(crate) fn difference(a: Wide, b: Wide) -> Wide
    requires first { IsWide a }
    requires second { IsWide b }
    requires greater { number_of_wide b ≤ number_of_wide a }
    ensures equal { number_of_wide result ≡ number_of_wide a - number_of_wide b }
    ensures wide { IsWide result }
{
    if b.low <= a.low {
        Wide {
            high: a.high - b.high,
            low: a.low - b.low,
        }
    } else {
        Wide {
            high: a.high - b.high - 1,
            low: a.low + LIMIT - b.low,
        }
    }
}
