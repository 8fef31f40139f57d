//! Filters at one path.

ghost use Rattle.std.specs.Int.{w64};
ghost use Rattle.std.specs.Prelude.{◌≡◌, ℕ, map, FitsSigned, None, Option as Maybe, Some, IfOk};
ghost use Rattle.bson_base.specs.Kinds.{IsSound};
ghost use Rattle.bson_base.specs.Scalars.{decimal_bytes};
ghost use Rattle.bson_base.specs.Value.{Value, scalar, decimal as as_decimal_value, double as as_double_value};
ghost use Rattle.bson_model.specs.View.{view};
ghost use Rattle.bson_order.specs.Wholes.{whole_of};
ghost use Rattle.bson_raw.specs.Convert.{SpellsRawValue};
ghost use Rattle.bson_raw.specs.Raw.{ref_value};
ghost use Rattle.store_question.specs.Filters.{filter_of, path_of, tests_of};
ghost use Rattle.store_model.specs.Filter.{equals, exists, is_of, no, all_of, no_filters};
ghost use Rattle.store_question.specs.Asked.{lies};
ghost use Rattle.store_question.specs.Plain.{arrays_on};
ghost use Rattle.store_asked.specs.Front.{IsDoubleAt, Meets, Reaches, double_at, either as Either, integers_at, nothing_at, texts_at};

use bson_base::{Decimal128, DoubleBits, ElementType};
use bson_meaning::laws::soundness;
use bson_model::Bson;
use bson_order::{decimal, double as number_of_double, double_of, whole_at};
use bson_raw::RawBsonRef;
use std::alloc::{AllocError, Global};
use store_question::{Comparison, Filter};

/// Every document: a conjunction of no filters.
pub(crate) fn everything(alloc: Global) -> Filter
    ensures { filter_of result ≡ all_of no_filters }
{
    Filter::And(Vec::new(alloc))
}

/// One of the two filters selects the document. The error is a refused growth.
pub(crate) fn either(alloc: Global, first: Filter, second: Filter) -> Result<Filter, AllocError>
    ensures { IfOk result (λ f. filter_of f ≡ Either (filter_of first) (filter_of second)) }
{
    let filters = Vec::from_array(alloc, [first, second])?;
    Ok(Filter::Or(filters))
}

/// The error, for which a filter is let go.
fn given_up(filter: Filter, error: AllocError) -> AllocError
    ensures { result ≡ error }
{
    drop(filter);
    error
}

/// A copy of a path for a filter or a range to own. The error is a refused growth.
pub(crate) fn copied(alloc: Global, path: &[String]) -> Result<Vec<String>, AllocError>
    ensures { IfOk result (λ v. path_of v.items ≡ path_of path.now) }
{
    let mut copy = Vec::new(alloc);
    for key in path {
        copy.push(String::from_str(alloc, key.as_str())?)?;
    }
    Ok(copy)
}

/// One of the path's beginnings leads to an array.
pub(crate) fn arrays(alloc: Global, path: &[String]) -> Result<Vec<Filter>, AllocError>
    ensures { IfOk result (λ fs. tests_of (map filter_of fs.items) ≡ arrays_on (path_of path.now)) }
{
    let mut filters = Vec::new(alloc);
    for keys in 0..path.len() {
        let beginning = of_kind(alloc, &path[..keys + 1], ElementType::Array)?;
        filters.push(beginning)?;
    }
    Ok(filters)
}

/// The value at the path means the same as this one, whose numbers are in their ranges.
fn same(alloc: Global, path: &[String], value: Bson) -> Result<Filter, AllocError>
    ensures told { IfOk result (λ f. filter_of f ≡ equals (path_of path.now) (view value)) }
    ensures sound { IsSound (view value) }
{
    soundness(&value);
    match copied(alloc, path) {
        Ok(path) => Ok(Filter::Eq(path, value)),
        Err(error) => {
            drop(value);
            Err(error)
        }
    }
}

/// The path leads to a value of exactly this element type. The error is a refused growth.
pub(crate) fn of_kind(
    alloc: Global,
    path: &[String],
    kind: ElementType,
) -> Result<Filter, AllocError>
    ensures { IfOk result (λ f. filter_of f ≡ is_of (path_of path.now) kind) }
{
    let path = copied(alloc, path)?;
    Ok(Filter::Kind(path, kind))
}

/// The path leads to a value, which may be null. The error is a refused growth.
pub(crate) fn there(alloc: Global, path: &[String]) -> Result<Filter, AllocError>
    ensures { IfOk result (λ f. filter_of f ≡ exists (path_of path.now)) }
{
    let path = copied(alloc, path)?;
    Ok(Filter::Exists(path))
}

/// The value at the path is equal to this one.
fn equal(alloc: Global, path: &[String], value: RawBsonRef<'_>) -> Result<Filter, AllocError>
    ensures { IfOk result (λ f. (w : Value) → SpellsRawValue (ref_value value.entry) w
        → Reaches (path_of path.now) w (filter_of f)) }
{
    match value {
        RawBsonRef::Double(number) => doubles(alloc, path, number),
        RawBsonRef::Int32(number) => wholes(alloc, path, number as i64),
        RawBsonRef::Int64(number) => wholes(alloc, path, number),
        RawBsonRef::String(text) => texts(alloc, path, text),
        RawBsonRef::Symbol(text) => texts(alloc, path, text),
        RawBsonRef::Null => nothing(alloc, path),
        RawBsonRef::ObjectId(id) => same(alloc, path, Bson::ObjectId(id)),
        RawBsonRef::Boolean(truth) => same(alloc, path, Bson::Boolean(truth)),
        RawBsonRef::DateTime(moment) => same(alloc, path, Bson::DateTime(moment)),
        RawBsonRef::Decimal128(number) => decimals(alloc, path, &number),
        _ => Ok(everything(alloc)),
    }
}

/// The value at the path lies so to this one; if it needn't be equal, that is every document.
pub(crate) fn compared(
    alloc: Global,
    path: &[String],
    comparison: Comparison,
    value: RawBsonRef<'_>,
) -> Result<Filter, AllocError>
    ensures { IfOk result (λ f. (w : Value) → SpellsRawValue (ref_value value.entry) w
        → Meets (path_of path.now) (lies comparison w) (filter_of f)) }
{
    match comparison {
        Comparison::Equal => equal(alloc, path, value),
        _ => Ok(everything(alloc)),
    }
}

/// The value at the path is this text, as a string or as a symbol. The error is a refused growth.
fn texts(alloc: Global, path: &[String], text: &str) -> Result<Filter, AllocError>
    ensures { IfOk result (λ f. filter_of f ≡ texts_at (path_of path.now) text.now) }
{
    let symbol = String::from_str(alloc, text)?;
    let plain = same(alloc, path, Bson::String(String::from_str(alloc, text)?))?;
    match same(alloc, path, Bson::Symbol(symbol)) {
        Ok(symbol) => either(alloc, plain, symbol),
        Err(error) => Err(given_up(plain, error)),
    }
}

/// The filter doesn't select the document. The error is a refused growth.
fn not(alloc: Global, filter: Filter) -> Result<Filter, AllocError>
    ensures { IfOk result (λ f. filter_of f ≡ no (filter_of filter)) }
{
    let inner = Box::new(alloc, filter)?;
    Ok(Filter::Not(inner))
}

/// The value is null, or there is none.
fn nothing(alloc: Global, path: &[String]) -> Result<Filter, AllocError>
    ensures { IfOk result (λ f. filter_of f ≡ nothing_at (path_of path.now)) }
{
    let absent = not(alloc, there(alloc, path)?)?;
    match same(alloc, path, Bson::Null) {
        Ok(null) => either(alloc, null, absent),
        Err(error) => Err(given_up(absent, error)),
    }
}

/// A whole number as an integer, of each kind that has room for it.
fn integers(alloc: Global, path: &[String], whole: i64) -> Result<Filter, AllocError>
    ensures { IfOk result (λ f. filter_of f ≡ integers_at (path_of path.now) whole) }
{
    match i32::try_from(whole) {
        Ok(small) => {
            let short = same(alloc, path, Bson::Int32(small))?;
            match same(alloc, path, Bson::Int64(whole)) {
                Ok(long) => either(alloc, short, long),
                Err(error) => Err(given_up(short, error)),
            }
        }
        Err(_) => same(alloc, path, Bson::Int64(whole)),
    }
}

/// A whole number as a double, if it is one.
fn as_double(alloc: Global, path: &[String], whole: i64) -> Result<Filter, AllocError>
    ensures { IfOk result (λ f. (o : Maybe ℕ) × IsDoubleAt whole o
        × (filter_of f ≡ double_at (path_of path.now) o)) }
{
    match double_of(whole) {
        Some(double) => same(alloc, path, Bson::Double(double)),
        None => Ok(Filter::Or(Vec::new(alloc))),
    }
}

/// A whole number as a double, if it is one, or as a decimal.
fn as_fraction(alloc: Global, path: &[String], whole: i64) -> Result<Filter, AllocError>
    ensures { IfOk result (λ f. (o : Maybe ℕ) × IsDoubleAt whole o
        × (filter_of f ≡ Either (double_at (path_of path.now) o) (is_of (path_of path.now) ElementType.Decimal128))) }
{
    let double = as_double(alloc, path, whole)?;
    match of_kind(alloc, path, ElementType::Decimal128) {
        Ok(decimals) => either(alloc, double, decimals),
        Err(error) => Err(given_up(double, error)),
    }
}

/// A whole number, in each kind that can hold it.
fn wholes(alloc: Global, path: &[String], whole: i64) -> Result<Filter, AllocError>
    ensures reached { IfOk result (λ f. (w : Value) → whole_of w ≡ Some whole
        → Reaches (path_of path.now) w (filter_of f)) }
    ensures fits { FitsSigned w64 whole }
{
    let integers = integers(alloc, path, whole)?;
    match as_fraction(alloc, path, whole) {
        Ok(others) => either(alloc, integers, others),
        Err(error) => Err(given_up(integers, error)),
    }
}

/// A double that is no whole number of 64 bits; NaN is equal to NaN of either sign and of a decimal.
fn fractions(alloc: Global, path: &[String], double: DoubleBits) -> Result<Filter, AllocError>
    ensures { IfOk result (λ f. whole_of (scalar (as_double_value double.0)) ≡ None
        → Reaches (path_of path.now) (scalar (as_double_value double.0)) (filter_of f)) }
{
    if double.is_nan() {
        return Ok(everything(alloc));
    }
    let nearest = same(alloc, path, Bson::Double(double))?;
    match of_kind(alloc, path, ElementType::Decimal128) {
        Ok(decimals) => either(alloc, nearest, decimals),
        Err(error) => Err(given_up(nearest, error)),
    }
}

/// The value at the path is equal to this double, in each kind that can hold it. The error is a refused growth.
fn doubles(alloc: Global, path: &[String], double: DoubleBits) -> Result<Filter, AllocError>
    ensures { IfOk result (λ f. Reaches (path_of path.now) (scalar (as_double_value double.0)) (filter_of f)) }
{
    match whole_at(number_of_double(double)) {
        Some(whole) => wholes(alloc, path, whole),
        None => fractions(alloc, path, double),
    }
}

/// A decimal that is a whole number of 64 bits; of others every document is looked at.
fn decimals(alloc: Global, path: &[String], number: &Decimal128) -> Result<Filter, AllocError>
    ensures { IfOk result (λ f. Reaches (path_of path.now) (scalar (as_decimal_value (decimal_bytes number.now)))
        (filter_of f)) }
{
    match whole_at(decimal(number)) {
        Some(whole) => wholes(alloc, path, whole),
        None => Ok(everything(alloc)),
    }
}
