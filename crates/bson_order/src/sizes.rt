//! The sizes of numbers: what they are without their signs, compared exactly.

ghost use Rattle.std.specs.Prelude.{◌≡◌, ◌*◌, ◌+◌, ◌^◌, ◌<◌, ◌≤◌, ◌==◌, IsTrue, ◌↔◌, if◌then◌else◌};
ghost use Rattle.std.specs.Ordering.{nat_cmp, match_ordering};
ghost use Rattle.std.specs.declared.cmp.Ordering.TheVariants.{Less, Equal, Greater};
ghost use Rattle.bson_order.specs.Line.{least_double};
ghost use Rattle.bson_order.specs.Sizes.{size_of, IsSize};

use crate::digits::compare_grown;
use std::cmp::Ordering;

/// The exponent of ten of a whole number: sizes are counted in the least decimal, 10^-6176.
pub(crate) const WHOLE_TENS: u32 = 6176;

/// The exponent of two of a whole number, counted in the least double, 2^-1074.
pub(crate) const WHOLE_TWOS: u32 = 1074;

/// The size of a number.
#[derive(Clone, Copy)]
pub enum Size {
    Infinite,
    /// A coefficient below 10^34, times a power of ten.
    Tens(u128, u32),
    /// A significand below 2^53, times a power of two.
    Twos(u128, u32),
}

impl Size {
    ghost use Rattle.bson_order.specs.Sizes.{size_of};

    /// Whether it is exactly 0, whatever the exponent.
    pub(crate) fn is_zero(self) -> bool
        ensures { IsTrue result ↔ (size_of self ≡ 0) }
    {
        match self {
            Size::Infinite => false,
            Size::Tens(coefficient, _) => coefficient == 0,
            Size::Twos(significand, _) => significand == 0,
        }
    }
}

/// Compares two sizes.
pub(crate) fn compare_sizes(size: Size, other: Size) -> Ordering
    requires first { IsSize size }
    requires second { IsSize other }
    ensures { result ≡ nat_cmp (size_of size) (size_of other) }
{
    match size {
        Size::Infinite => match other {
            Size::Infinite => Ordering::Equal,
            Size::Tens(_, _) => Ordering::Greater,
            Size::Twos(_, _) => Ordering::Greater,
        },
        Size::Tens(c, e) => match other {
            Size::Infinite => Ordering::Less,
            Size::Tens(d, f) => compare_tens(c, e, d, f),
            Size::Twos(s, x) => compare_mixed(c, e, s, x),
        },
        Size::Twos(s, x) => match other {
            Size::Infinite => Ordering::Less,
            Size::Tens(c, e) => compare_mixed(c, e, s, x).reverse(),
            Size::Twos(t, y) => compare_doubles(s, x, t, y),
        },
    }
}

/// Compares `a` times `factor` with `b`.
fn compare_product(a: u128, factor: u128, b: u128) -> Ordering
    requires { 0 < factor }
    ensures { result ≡ nat_cmp (a * factor) b }
{
    through_quotient(a.cmp(&(b / factor)), b % factor)
}

/// How a product compares with a number, if one factor compares so with the quotient of the number by the other factor,
/// and this is what is left.
fn through_quotient(quotient: Ordering, left: u128) -> Ordering
    ensures { result ≡ match_ordering quotient Less (if left == 0 then Equal else Less) Greater }
{
    match quotient {
        Ordering::Equal => {
            if left == 0 {
                Ordering::Equal
            } else {
                Ordering::Less
            }
        }
        apart => apart,
    }
}

/// Compares `c` times 10^`e` with `d` times 10^`f`.
fn compare_tens(c: u128, e: u32, d: u128, f: u32) -> Ordering
    requires first { c < 10 ^ 34 }
    requires second { d < 10 ^ 34 }
    ensures { result ≡ nat_cmp (c * 10 ^ e) (d * 10 ^ f) }
{
    if e == f {
        c.cmp(&d)
    } else if e < f {
        lift_tens(d, f - e, c).reverse()
    } else {
        lift_tens(c, e - f, d)
    }
}

/// Compares `c` times 10^`k` with `d`.
fn lift_tens(c: u128, k: u32, d: u128) -> Ordering
    requires { d < 10 ^ 34 }
    ensures { result ≡ nat_cmp (c * 10 ^ k) d }
{
    if k <= 34 {
        compare_product(c, 10u128.pow(k), d)
    } else if c == 0 {
        0u128.cmp(&d)
    } else {
        Ordering::Greater
    }
}

/// Compares `s` times 2^`x` with `t` times 2^`y`, both counted in the least double, 2^-1074.
fn compare_doubles(s: u128, x: u32, t: u128, y: u32) -> Ordering
    requires first { s < 2 ^ 53 }
    requires second { t < 2 ^ 53 }
    ensures { result ≡ nat_cmp (s * 2 ^ x * least_double) (t * 2 ^ y * least_double) }
{
    compare_twos(s, x, t, y)
}

/// Compares `s` times 2^`x` with `t` times 2^`y`.
fn compare_twos(s: u128, x: u32, t: u128, y: u32) -> Ordering
    requires first { s < 2 ^ 113 }
    requires second { t < 2 ^ 113 }
    ensures { result ≡ nat_cmp (s * 2 ^ x) (t * 2 ^ y) }
{
    if x < y {
        lift_twos(t, y - x, s).reverse()
    } else {
        lift_twos(s, x - y, t)
    }
}

/// Compares `s` times 2^`k` with `t`.
fn lift_twos(s: u128, k: u32, t: u128) -> Ordering
    requires { t < 2 ^ 113 }
    ensures { result ≡ nat_cmp (s * 2 ^ k) t }
{
    if k < 113 {
        compare_product(s, 2u128.pow(k), t)
    } else if s == 0 {
        0u128.cmp(&t)
    } else {
        Ordering::Greater
    }
}

/// Compares a decimal with a double. With ten as two times five the power of five goes to one side, and the powers of two
/// to the other.
fn compare_mixed(c: u128, e: u32, s: u128, x: u32) -> Ordering
    requires first { c < 10 ^ 34 }
    requires power { e < 12288 }
    requires second { s < 2 ^ 53 }
    requires exponent { x < 2046 }
    ensures { result ≡ nat_cmp (c * 10 ^ e) (s * 2 ^ x * least_double) }
{
    if c == 0 {
        return 0u128.cmp(&s);
    }
    if s == 0 {
        return Ordering::Greater;
    }
    if e < WHOLE_TENS {
        let j = WHOLE_TENS - e;
        compare_fives(s, j, x + j, c, WHOLE_TWOS).reverse()
    } else {
        let i = e - WHOLE_TENS;
        compare_fives(c, i, i + WHOLE_TWOS, s, x)
    }
}

/// Compares `a` times 5^`n` times 2^`x` with `b` times 2^`y`. Where there are very many fives, it is greater.
fn compare_fives(a: u128, n: u32, x: u32, b: u128, y: u32) -> Ordering
    requires some { 0 < a }
    requires first { a < 2 ^ 113 }
    requires second { b < 2 ^ 113 }
    requires twos { n ≤ x }
    requires few { y + n ≤ x + 1074 }
    ensures { result ≡ nat_cmp (a * 5 ^ n * 2 ^ x) (b * 2 ^ y) }
{
    if n >= 360 {
        Ordering::Greater
    } else if x < y {
        compare_grown_or_twos(a, n, b, y - x)
    } else {
        lift_fives(a, n, x - y, b)
    }
}

/// Compares `a` times 5^`n` with `b` times 2^`k`.
fn compare_grown_or_twos(a: u128, n: u32, b: u128, k: u32) -> Ordering
    requires first { a < 2 ^ 113 }
    requires second { b < 2 ^ 113 }
    requires fives { n < 360 }
    requires twos { k ≤ 1074 }
    ensures { result ≡ nat_cmp (a * 5 ^ n) (b * 2 ^ k) }
{
    if n == 0 {
        lift_twos(b, k, a).reverse()
    } else {
        compare_grown(a, n, b, k)
    }
}

/// Compares `a` times 5^`n` times 2^`k` with `b`.
fn lift_fives(a: u128, n: u32, k: u32, b: u128) -> Ordering
    requires some { 0 < a }
    requires second { b < 2 ^ 113 }
    ensures { result ≡ nat_cmp (a * 5 ^ n * 2 ^ k) b }
{
    if n > 55 {
        return Ordering::Greater;
    }
    let factor = 5u128.pow(n);
    through_quotient(lift_twos(a, k, b / factor), b % factor)
}
