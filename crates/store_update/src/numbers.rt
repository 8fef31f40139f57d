//! Sums and products of numbers.

ghost use Rattle.std.specs.Prelude.{◌≡◌, ◌+ℤ◌, ◌*ℤ◌, ◌&&◌, ℤ, pos, to_bits};
ghost use Rattle.std.specs.Float.{binary64};
ghost use Rattle.std.specs.Float.Ieee.{add, div, mul, of_int};
ghost use Rattle.bson_base.specs.Value.{double, scalar};
ghost use Rattle.bson_model.specs.View.{view};
ghost use Rattle.store_update.specs.Answer.{checked, viewed};
ghost use Rattle.store_update.specs.Number.{computed, divided, fits_32, is_narrow, is_number, nearest, number_as, number_of, together};

use crate::doubles::{double_of, pattern_of};
use crate::error::UpdateError;
use bson_base::DoubleBits;
use bson_model::Bson;
use std::num::{nearest_i64_to_f64, nearest_usize_to_f64};

/// A number that is computed with.
#[derive(Clone, Copy)]
pub(crate) enum Number {
    Whole(i64),
    /// By its pattern.
    Double(u64),
}

/// The number that a value is.
fn number_of(value: &Bson) -> Result<Number, UpdateError>
    ensures { result ≡ number_of (view value.now) }
{
    match value {
        Bson::Int32(number) => Ok(Number::Whole(i64::from(*number))),
        Bson::Int64(number) => Ok(Number::Whole(*number)),
        Bson::Double(double) => Ok(Number::Double(double.to_bits())),
        Bson::Decimal128(_) => Err(UpdateError::Decimal),
        _ => Err(UpdateError::NotANumber),
    }
}

/// Whether a value is a number, of any kind.
pub fn is_number(value: &Bson) -> bool
    ensures { result ≡ is_number (view value.now) }
{
    matches!(
        value,
        Bson::Int32(_) | Bson::Int64(_) | Bson::Double(_) | Bson::Decimal128(_)
    )
}

/// Whether a value is an integer of 32 bits.
fn is_narrow(value: &Bson) -> bool
    ensures { result ≡ is_narrow (view value.now) }
{
    matches!(value, Bson::Int32(_))
}

/// Whether a number fits in 32 bits.
fn fits_narrow(number: i64) -> bool
    ensures { result ≡ fits_32 number }
{
    -2147483648 <= number && number <= 2147483647
}

/// A number that was computed: of 32 bits, if it fits and `narrow` says so, else of 64.
fn number_as(narrow: bool, number: Option<i64>) -> Result<Bson, UpdateError>
    ensures { (z : ℤ) → (number ≡ checked z) → viewed result ≡ number_as narrow z }
{
    match number {
        Some(number) => {
            if narrow && fits_narrow(number) {
                return Ok(Bson::Int32(number as i32));
            }
            Ok(Bson::Int64(number))
        }
        None => Err(UpdateError::Overflow),
    }
}

/// Whether two values are integers of 32 bits.
fn are_narrow(one: &Bson, other: &Bson) -> bool
    ensures { result ≡ (is_narrow (view one.now) && is_narrow (view other.now)) }
{
    is_narrow(one) && is_narrow(other)
}

/// The sum, if it fits.
fn checked_sum(x: i64, y: i64) -> Option<i64>
    ensures { result ≡ checked (x +ℤ y) }
{
    x.checked_add(y)
}

/// The product, if it fits.
fn checked_product(x: i64, y: i64) -> Option<i64>
    ensures { result ≡ checked (x *ℤ y) }
{
    x.checked_mul(y)
}

/// The double that a number is, or that is nearest to it.
fn nearest(number: Number) -> f64
    ensures { result ≡ nearest number }
{
    match number {
        Number::Whole(integer) => nearest_i64_to_f64(integer),
        Number::Double(pattern) => double_of(pattern),
    }
}

/// A double as a value.
fn value_of(number: f64) -> Bson
    ensures { view result ≡ scalar (double (to_bits binary64 number)) }
{
    Bson::Double(DoubleBits::from_bits(pattern_of(number)))
}

/// A number by a count, as a double.
fn near_quotient(number: Number, count: usize) -> Bson
    ensures { view result ≡ scalar (double (to_bits binary64 (div binary64 (nearest number) (of_int binary64 (pos count))))) }
{
    value_of(nearest(number) / nearest_usize_to_f64(count))
}

/// The sum of two numbers that aren't both integers.
fn near_sum(x: Number, y: Number) -> Bson
    ensures { view result ≡ scalar (double (to_bits binary64 (add binary64 (nearest x) (nearest y)))) }
{
    value_of(nearest(x) + nearest(y))
}

/// The product of two numbers that aren't both integers.
fn near_product(x: Number, y: Number) -> Bson
    ensures { view result ≡ scalar (double (to_bits binary64 (mul binary64 (nearest x) (nearest y)))) }
{
    value_of(nearest(x) * nearest(y))
}

/// The sum of two numbers, of 32 bits if `narrow` says so and it fits.
fn sum_as(narrow: bool, x: Number, y: Number) -> Result<Bson, UpdateError>
    ensures { viewed result ≡ together (λ x y. x +ℤ y) (add binary64) narrow x y }
{
    match x {
        Number::Whole(first) => match y {
            Number::Whole(second) => number_as(narrow, checked_sum(first, second)),
            Number::Double(_) => Ok(near_sum(x, y)),
        },
        Number::Double(_) => Ok(near_sum(x, y)),
    }
}

/// The product of two numbers, of 32 bits if `narrow` says so and it fits.
fn product_as(narrow: bool, x: Number, y: Number) -> Result<Bson, UpdateError>
    ensures { viewed result ≡ together (λ x y. x *ℤ y) (mul binary64) narrow x y }
{
    match x {
        Number::Whole(first) => match y {
            Number::Whole(second) => number_as(narrow, checked_product(first, second)),
            Number::Double(_) => Ok(near_product(x, y)),
        },
        Number::Double(_) => Ok(near_product(x, y)),
    }
}

/// The sum of two numbers: `NotANumber` if one of them is none, `Decimal` if one is a decimal, or `Overflow` if both are
/// integers and the sum doesn't fit in 64 bits.
pub fn sum(one: &Bson, other: &Bson) -> Result<Bson, UpdateError>
    ensures { viewed result ≡ computed (λ x y. x +ℤ y) (add binary64) (view one.now) (view other.now) }
{
    let x = number_of(one)?;
    let y = number_of(other)?;
    sum_as(are_narrow(one, other), x, y)
}

/// The product of two numbers.
pub(crate) fn product(one: &Bson, other: &Bson) -> Result<Bson, UpdateError>
    ensures { viewed result ≡ computed (λ x y. x *ℤ y) (mul binary64) (view one.now) (view other.now) }
{
    let x = number_of(one)?;
    let y = number_of(other)?;
    product_as(are_narrow(one, other), x, y)
}

/// A number by a count, as a double: `NotANumber` if it is none, or `Decimal` if it is a decimal.
pub fn quotient(number: &Bson, count: usize) -> Result<Bson, UpdateError>
    ensures { viewed result ≡ divided count (view number.now) }
{
    let number = number_of(number)?;
    Ok(near_quotient(number, count))
}
