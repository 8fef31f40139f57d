//! Numbers of many digits, for decimals beside doubles that are far from whole.

ghost use Rattle.std.specs.Prelude.{◌≡◌, ◌*◌, ◌+◌, ◌^◌, ◌<◌, ◌≤◌, ◌/◌, length};
ghost use Rattle.std.specs.Ordering.{nat_cmp};
ghost use Rattle.bson_order.specs.Digits.{number_of_digits};

use std::cmp::Ordering;

/// How many digits of 32 bits the numbers have here.
const DIGITS: usize = 40;

/// Compares `a` times 5^`n` with `b` times 2^`k`.
pub(crate) fn compare_grown(a: u128, n: u32, b: u128, k: u32) -> Ordering
    requires first { a < 2 ^ 113 }
    requires second { b < 2 ^ 113 }
    requires fives { n < 360 }
    requires twos { k ≤ 1074 }
    ensures { result ≡ nat_cmp (a * 5 ^ n) (b * 2 ^ k) }
{
    let grown = grow(a, 5, n);
    let other = grow(b, 2, k);
    compare_digits(&grown, &other)
}

/// The digits of `a` times `factor`^`times`, the lowest first.
fn grow(a: u128, factor: u32, times: u32) -> [u32; 40]
    requires some { 0 < factor }
    requires room { a * factor ^ times < 2 ^ 1280 }
    ensures { number_of_digits result ≡ a * factor ^ times }
{
    let mut digits = split(a);
    for _time in 0..times {
        multiply(&mut digits, factor);
    }
    digits
}

/// The digits of a number.
fn split(a: u128) -> [u32; 40]
    ensures { number_of_digits result ≡ a }
{
    let mut digits = [0u32; 40];
    digits[0] = (a % (1 << 32)) as u32;
    digits[1] = (a / (1 << 32) % (1 << 32)) as u32;
    digits[2] = (a / (1 << 64) % (1 << 32)) as u32;
    digits[3] = (a / (1 << 96)) as u32;
    digits
}

/// Multiplies a number by a factor, if there is room for it.
fn multiply(digits: &mut [u32; 40], factor: u32)
    requires { number_of_digits digits.old * factor < 2 ^ 1280 }
    ensures { number_of_digits digits.new ≡ number_of_digits digits.old * factor }
{
    let mut carry = 0u64;
    for i in 0..DIGITS {
        let product = digits[i] as u64 * factor as u64 + carry;
        digits[i] = (product % (1 << 32)) as u32;
        carry = product / (1 << 32);
    }
}

/// Compares two numbers of as many digits: by their lowest digits, unless the ones above decide it.
fn compare_digits(digits: &[u32; 40], others: &[u32; 40]) -> Ordering
    ensures { result ≡ nat_cmp (number_of_digits digits.now) (number_of_digits others.now) }
{
    let mut order = Ordering::Equal;
    for i in 0..DIGITS {
        order = digits[i].cmp(&others[i]).then(order);
    }
    order
}
