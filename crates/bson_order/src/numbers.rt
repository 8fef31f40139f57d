//! Numbers with their signs.

ghost use Rattle.std.specs.Prelude.{◌≡◌, false};
ghost use Rattle.bson_base.specs.Doubles.{is_nan};
ghost use Rattle.std.specs.Ordering.{nat_cmp};
ghost use Rattle.bson_base.specs.Scalars.{decimal_bytes};
ghost use Rattle.bson_base.specs.Decimal.{unpack};
ghost use Rattle.bson_order.specs.Line.{whole_place, double_place, double_size, decimal_place, unpacked_place, on_line};
ghost use Rattle.bson_order.specs.Sizes.{place_of, IsNumber, size_of, IsSize};

use crate::sizes::{Size, WHOLE_TENS, compare_sizes};
use bson_base::decimal128::{limited, number_of_bytes};
use bson_base::{Decimal128, DoubleBits};
use std::cmp::Ordering;

/// A number, whatever its kind.
#[derive(Clone, Copy)]
pub enum Number {
    NotANumber,
    /// Whether it is negative, and its size.
    Sized(bool, Size),
}

impl Number {
    ghost use Rattle.std.specs.Prelude.{◌==◌};
    ghost use Rattle.bson_order.specs.Sizes.{place_of, IsNumber};

    /// Whether it is none of the numbers and infinities.
    pub fn is_nan(self) -> bool
        requires { IsNumber self }
        ensures { result ≡ (place_of self == 0) }
    {
        match self {
            Number::NotANumber => true,
            Number::Sized(_, _) => false,
        }
    }
}

/// A whole number.
pub fn whole(number: i64) -> Number
    ensures place { place_of result ≡ whole_place number }
    ensures sized { IsNumber result }
{
    Number::Sized(
        number.is_negative(),
        Size::Tens(number.unsigned_abs() as u128, WHOLE_TENS),
    )
}

/// The number of a double.
pub fn double(double: DoubleBits) -> Number
    ensures place { place_of result ≡ double_place double.0 }
    ensures sized { IsNumber result }
{
    if double.is_nan() {
        Number::NotANumber
    } else {
        Number::Sized(double.is_negative(), size_of_double(double))
    }
}

/// The size of a double that isn't NaN (IEEE 754-2008, 3.4). The power of two is counted in the least double, 2^-1074.
fn size_of_double(double: DoubleBits) -> Size
    requires { is_nan double.0 ≡ false }
    ensures size { size_of result ≡ double_size double.0 }
    ensures sized { IsSize result }
{
    let bits = double.to_bits();
    let exponent = bits / (1 << 52) % (1 << 11);
    let fraction = bits % (1 << 52);
    if double.is_infinite() {
        Size::Infinite
    } else if exponent == 0 {
        Size::Twos(fraction as u128, 0)
    } else {
        Size::Twos((fraction + (1 << 52)) as u128, (exponent - 1) as u32)
    }
}

/// The number of a decimal (IEEE 754-2008, 3.5.2, binary encoding).
pub fn decimal(decimal: &Decimal128) -> Number
    ensures place { place_of result ≡ decimal_place (decimal_bytes decimal.now) }
    ensures sized { IsNumber result }
{
    number_of_bits(number_of_bytes(&decimal.bytes()))
}

/// The number of the 128 bits of a decimal (IEEE 754-2008, 3.5.2, binary encoding). A coefficient over 10^34 - 1 counts
/// as 0.
#[tactic(auto, unfolding(bson_base::specs::Decimal::unpack))]
fn number_of_bits(bits: u128) -> Number
    ensures place { place_of result ≡ unpacked_place (unpack bits) }
    ensures sized { IsNumber result }
{
    let negative = bits / (1 << 127) == 1;
    if bits / (1 << 123) % 16 == 15 {
        if bits / (1 << 122) % 2 == 1 {
            Number::NotANumber
        } else {
            Number::Sized(negative, Size::Infinite)
        }
    } else if bits / (1 << 125) % 4 == 3 {
        Number::Sized(
            negative,
            Size::Tens(0, (bits / (1 << 111) % (1 << 14)) as u32),
        )
    } else {
        let exponent = (bits / (1 << 113) % (1 << 14)) as u32;
        Number::Sized(negative, Size::Tens(limited(bits % (1 << 113)), exponent))
    }
}

/// Compares two numbers. What is no number is less than every number, and equal to what is none either.
pub fn compare_numbers(number: Number, other: Number) -> Ordering
    requires first { IsNumber number }
    requires second { IsNumber other }
    ensures { result ≡ nat_cmp (place_of number) (place_of other) }
{
    match number {
        Number::NotANumber => match other {
            Number::NotANumber => Ordering::Equal,
            Number::Sized(_, _) => Ordering::Less,
        },
        Number::Sized(negative, size) => match other {
            Number::NotANumber => Ordering::Greater,
            Number::Sized(below, measure) => compare_signed(negative, size, below, measure),
        },
    }
}

/// Compares two sizes with their signs.
fn compare_signed(negative: bool, size: Size, below: bool, measure: Size) -> Ordering
    requires first { IsSize size }
    requires second { IsSize measure }
    ensures { result ≡ nat_cmp (on_line negative (size_of size)) (on_line below (size_of measure)) }
{
    if negative == below {
        if negative {
            compare_sizes(measure, size)
        } else {
            compare_sizes(size, measure)
        }
    } else if size.is_zero() && measure.is_zero() {
        Ordering::Equal
    } else if negative {
        Ordering::Less
    } else {
        Ordering::Greater
    }
}
