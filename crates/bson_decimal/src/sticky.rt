//! Whole parts that stand for more than they are: rounded they give what the exact number gives.

ghost use Rattle.std.specs.Prelude.{◌≡◌, ◌+◌, ◌^◌, ◌<◌, ◌≤◌};
ghost use Rattle.bson_decimal.specs.Wides.{sticky, sticky_quotient};

use crate::wide::power_of_ten;

/// What a coefficient of `m` digits less is beside a much greater number: not at a tie, unless it is exactly there.
pub(crate) fn sticky_quotient(d: u128, m: u32) -> u128
    requires second { d < 10 ^ 34 }
    requires digits { 0 < m }
    ensures equal { result ≡ sticky_quotient d (10 ^ m) }
    ensures small { result < 10 ^ 34 }
{
    if 34 < m {
        if d == 0 { 0 } else { 1 }
    } else {
        sticky_quotient_by(d, power_of_ten(m))
    }
}

/// The same, by the power of ten.
fn sticky_quotient_by(d: u128, power: u128) -> u128
    requires some { 1 < power }
    requires second { d < 10 ^ 34 }
    ensures equal { result ≡ sticky_quotient d power }
    ensures small { result < 10 ^ 34 }
{
    sticky(d / power, d % power)
}

/// A whole part of which `rest` was cut off: with 1 more if that brings it past a tie, or past a multiple of ten.
pub(crate) fn sticky(whole: u128, rest: u128) -> u128
    requires { whole < 10 ^ 36 }
    ensures equal { result ≡ sticky whole rest }
    ensures least { whole ≤ result }
    ensures most { result ≤ whole + 1 }
{
    if rest == 0 {
        whole
    } else if whole % 5 == 0 {
        whole + 1
    } else {
        whole
    }
}
