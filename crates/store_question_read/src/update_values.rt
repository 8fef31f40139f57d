//! Values under an operator `name` at a path, which an error names.

ghost use Rattle.std.specs.Prelude.{◌≡◌, map, nat_abs};
ghost use Rattle.bson_model.specs.View.{view};
ghost use Rattle.json.specs.Value.{items_view, value_view as data_of};
ghost use Rattle.store_question_read.specs.UpdateOutcome.{Gives};
ghost use Rattle.store_question_read.specs.Read.{each_value as each_value_at, end_of, integer as integer_at, integer_of, is_condition, is_number, number as number_at, place_of, value as value_at, values as values_at};

use crate::update_error::{ReadError, Reason, at};
use bson_json_read::{Error, bson_of};
use bson_model::Bson;
use json::Value;
use std::alloc::Global;
use store_update::{End, Place};

/// The value of a tree.
pub(crate) fn value(
    alloc: Global,
    name: &str,
    path: &str,
    tree: &Value<'_>,
) -> Result<Bson, ReadError>
    ensures { Gives view result (value_at name.now path.now (data_of tree.now)) }
{
    match bson_of(alloc, tree) {
        Ok(value) => Ok(value),
        Err(Error::Memory) => Err(ReadError::Memory),
        Err(_) => Err(at(alloc, Reason::Operand, name, path)),
    }
}

/// The values that these items spell, in their order. `At` by Operand for the first that spells none, and `Memory` if
/// a growth was refused.
fn each_value(
    alloc: Global,
    name: &str,
    path: &str,
    items: &[Value<'_>],
) -> Result<Vec<Bson>, ReadError>
    ensures { Gives (λ v. map view v.items) result (each_value_at name.now path.now (items_view items.now)) }
{
    let mut values = Vec::new(alloc);
    for item in items {
        values.push(value(alloc, name, path, item)?)?;
    }
    Ok(values)
}

/// The values of an array.
pub(crate) fn values(
    alloc: Global,
    name: &str,
    path: &str,
    tree: &Value<'_>,
) -> Result<Vec<Bson>, ReadError>
    ensures { Gives (λ v. map view v.items) result (values_at name.now path.now (data_of tree.now)) }
{
    match tree {
        Value::Array(items) => each_value(alloc, name, path, items.as_slice()),
        _ => Err(at(alloc, Reason::Operand, name, path)),
    }
}

/// Whether `$inc` and `$mul` take a value: a double, a decimal of 128 bits, or an integer of 32 or 64 bits.
fn is_number(value: &Bson) -> bool
    ensures { result ≡ is_number (view value.now) }
{
    match value {
        Bson::Int32(_) => true,
        Bson::Int64(_) => true,
        Bson::Double(_) => true,
        Bson::Decimal128(_) => true,
        _ => false,
    }
}

/// The integer that a value of 32 or 64 bits holds. None for any other kind, also for a double without a fraction.
fn integer_of(value: &Bson) -> Option<i64>
    ensures { result ≡ integer_of (view value.now) }
{
    match value {
        Bson::Int32(number) => Some(i64::from(*number)),
        Bson::Int64(number) => Some(*number),
        _ => None,
    }
}

/// Whether `$pull` takes a value for a condition.
pub(crate) fn is_condition(value: &Bson) -> bool
    ensures { result ≡ is_condition (view value.now) }
{
    match value {
        Bson::RegularExpression(_) => true,
        Bson::Document(_) => true,
        _ => false,
    }
}

/// A number of any kind.
pub(crate) fn number(
    alloc: Global,
    name: &str,
    path: &str,
    tree: &Value<'_>,
) -> Result<Bson, ReadError>
    ensures { Gives view result (number_at name.now path.now (data_of tree.now)) }
{
    let value = value(alloc, name, path, tree)?;
    if is_number(&value) {
        Ok(value)
    } else {
        Err(at(alloc, Reason::Operand, name, path))
    }
}

/// An integer.
pub(crate) fn integer(
    alloc: Global,
    name: &str,
    path: &str,
    tree: &Value<'_>,
) -> Result<i64, ReadError>
    ensures { Gives (λ z. z) result (integer_at name.now path.now (data_of tree.now)) }
{
    let value = value(alloc, name, path, tree)?;
    match integer_of(&value) {
        Some(number) => Ok(number),
        None => Err(at(alloc, Reason::Operand, name, path)),
    }
}

/// A place from the front, or from the back if it is negative.
pub(crate) fn place_of(number: i64) -> Place
    ensures { result ≡ place_of number }
{
    if number < 0 {
        Place::FromLast(number.unsigned_abs() as usize)
    } else {
        Place::FromFirst(number.unsigned_abs() as usize)
    }
}

/// The last item by 1, the first one by -1.
pub(crate) fn end_of(number: i64) -> Option<End>
    ensures { result ≡ end_of number }
{
    if number == 1 {
        Some(End::Last)
    } else if number == -1 {
        Some(End::First)
    } else {
        None
    }
}
