//! What becomes of the values of a group.

ghost use Rattle.std.specs.Prelude.{◌≡◌, ◌∷◌, [], Ok as Fine, length, map, not, unwrap_or, None as Nothing};
ghost use Rattle.std.specs.List.{filter};
ghost use Rattle.bson_base.specs.Value.{array, scalar, null};
ghost use Rattle.bson_model.specs.View.{items_of, view};
ghost use Rattle.store_pipeline.specs.Groups.{accumulated, average_of, is_null, sum_from, sum_of};
ghost use Rattle.store_pipeline.specs.Order.{best, better};
ghost use Rattle.store_update.specs.Answer.{lent, viewed};
ghost use Rattle.store_update.specs.Arrays.{with_each as each_with};
ghost use Rattle.store_update.specs.Number.{is_number};
ghost use Rattle.store_update.specs.Update.{Tells};

use crate::stage::Accumulator;
use bson_model::Bson;
use bson_order::compare_trees;
use std::alloc::Global;
use store_update::{UpdateError, is_number, quotient, sum, with_each};

/// What becomes of the values that the documents of a group have for a field.
///
/// Of a sum or an average: `Decimal` if a number is a decimal, or `Overflow` if integers don't fit in 64 bits. `Memory`
/// if a growth was refused.
pub(crate) fn accumulated(
    alloc: Global,
    accumulator: Accumulator,
    values: Vec<Bson>,
) -> Result<Bson, UpdateError>
    ensures { Tells (accumulated accumulator (map view values.items)) (viewed result) }
{
    match accumulator {
        Accumulator::Sum => sum_of(values.as_slice()),
        Accumulator::Average => average_of(values.as_slice()),
        Accumulator::Least => copied(alloc, best(false, values.as_slice())),
        Accumulator::Greatest => copied(alloc, best(true, values.as_slice())),
        Accumulator::First => copied(alloc, values.as_slice().first()),
        Accumulator::Last => copied(alloc, values.as_slice().last()),
        Accumulator::Push => Ok(Bson::Array(values)),
        Accumulator::Include => each_once(alloc, values.as_slice()),
    }
}

/// A copy of a value, or null if there is none. The error is a refused growth.
fn copied(alloc: Global, value: Option<&Bson>) -> Result<Bson, UpdateError>
    ensures { Tells (Fine (unwrap_or (lent value.entry) (scalar null))) (viewed result) }
{
    match value {
        Some(value) => Ok(value.try_clone(alloc)?),
        None => Ok(Bson::Null),
    }
}

/// The array of those of the values that are equal to none before them. The error is a refused growth.
fn each_once(alloc: Global, values: &[Bson]) -> Result<Bson, UpdateError>
    ensures { Tells (Fine (array (items_of (each_with (map view values.now) [])))) (viewed result) }
{
    Ok(Bson::Array(with_each(alloc, values, Vec::new(alloc))?))
}

/// A sum with one more value, if that is a number.
fn added(total: Bson, value: &Bson) -> Result<Bson, UpdateError>
    ensures { viewed result ≡ sum_from (view total) (filter is_number (view value.now ∷ [])) }
{
    if is_number(value) {
        sum(&total, value)
    } else {
        Ok(total)
    }
}

/// The sum of those of the values that are numbers.
fn sum_of(values: &[Bson]) -> Result<Bson, UpdateError>
    ensures { viewed result ≡ sum_of (filter is_number (map view values.now)) }
{
    let mut total = Bson::Int32(0);
    for value in values {
        total = added(total, value)?;
    }
    Ok(total)
}

/// How many of the values are numbers.
fn count_numbers(values: &[Bson]) -> usize
    ensures { result ≡ length (filter is_number (map view values.now)) }
{
    let mut count = 0;
    for value in values {
        if is_number(value) {
            count += 1;
        }
    }
    count
}

/// The average of those of the values that are numbers, or null if none is.
fn average_of(values: &[Bson]) -> Result<Bson, UpdateError>
    ensures { viewed result ≡ average_of (filter is_number (map view values.now)) }
{
    let count = count_numbers(values);
    if count == 0 {
        return Ok(Bson::Null);
    }
    let total = sum_of(values)?;
    quotient(&total, count)
}

/// Whether a value is null, or undefined, which stands for it.
pub(crate) fn is_null(value: &Bson) -> bool
    ensures { result ≡ is_null (view value.now) }
{
    matches!(value, Bson::Null | Bson::Undefined)
}

/// The value, if it is less than the one that was met, or greater if that is asked for; else the one that was met.
fn better<'a>(greatest: bool, met: Option<&'a Bson>, value: &'a Bson) -> &'a Bson
    ensures { view result.now ≡ better greatest (lent met.entry) (view value.now) }
{
    let Some(met) = met else {
        return value;
    };
    let order = compare_trees(value, met);
    let order = if greatest { order.reverse() } else { order };
    if order.is_lt() { value } else { met }
}

/// The least of the values that aren't null, or the greatest.
fn best(greatest: bool, values: &[Bson]) -> Option<&Bson>
    ensures { lent result ≡ best greatest Nothing (filter (λ v. not (is_null v)) (map view values.now)) }
{
    let mut met = None;
    for value in values {
        if !is_null(value) {
            met = Some(better(greatest, met, value));
        }
    }
    met
}
