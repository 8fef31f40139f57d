//! Values under a path or an operator. `key` is what an error names.

ghost use Rattle.std.specs.Prelude.{◌≡◌, option_map, MatchResult, Ok};
ghost use Rattle.bson_base.specs.Scalars.{decimal_bytes};
ghost use Rattle.bson_base.specs.Value.{Value as Tree};
ghost use Rattle.bson_json_read.specs.Reading.{read as read_tree};
ghost use Rattle.bson_model.specs.View.{view};
ghost use Rattle.bson_order.specs.Wholes.{whole_of as whole_seen};
ghost use Rattle.bson_raw.specs.Convert.{SpellsRawValue};
ghost use Rattle.bson_raw.specs.Raw.{ref_value};
ghost use Rattle.json.specs.Value.{value_view as data_of};
ghost use Rattle.store_question_read.specs.Outcome.{Fails, Gives, Same, Spells};
ghost use Rattle.store_question_read.specs.Query.{number as number_under, only_if, part as part_under, plain_value as plain_value_under, value as value_under};
ghost use Rattle.store_question_read.specs.Values.{Readable, can_be_held, decimal_in, is_expression as expression_seen, is_not_zero as not_zero, numeral_in as numeral_seen, truth_of as truth_seen};

use crate::error::{QueryError, operand};
use bson_base::Decimal128;
use bson_frame::ErrorKind;
use bson_json_read::{Error, bson_of};
use bson_meaning::laws::soundness;
use bson_model::Bson;
use bson_model::extjson::de::read_long;
use bson_order::{decimal, double, whole, whole_at, whole_part_of};
use bson_raw::{RawBson, RawBsonRef};
use json::Value;
use std::alloc::Global;

/// The value of a tree.
fn read(alloc: Global, key: &str, tree: &Value<'_>) -> Result<Bson, QueryError>
    ensures { MatchResult result (λ b. read_tree (data_of tree.now) ≡ Ok (view b))
        (λ e. Fails e (value_under key.now (data_of tree.now))) }
{
    match bson_of(alloc, tree) {
        Ok(value) => Ok(value),
        Err(error) => match error {
            Error::Memory => Err(QueryError::Memory),
            _ => Err(operand(alloc, key)),
        },
    }
}

/// The value as it is held.
fn held(alloc: Global, key: &str, value: Bson) -> Result<RawBson, QueryError>
    ensures { Readable (view value)
        → Gives Spells result (only_if (can_be_held (view value)) key.now (view value)) }
{
    soundness(&value);
    match RawBson::from_bson(alloc, value) {
        Ok(held) => Ok(held),
        Err(error) => match error.kind {
            ErrorKind::MalformedValue => Err(operand(alloc, key)),
            _ => Err(QueryError::Memory),
        },
    }
}

/// The value of a tree.
pub(crate) fn value(alloc: Global, key: &str, tree: &Value<'_>) -> Result<RawBson, QueryError>
    ensures { Gives Spells result (value_under key.now (data_of tree.now)) }
{
    let value = read(alloc, key, tree)?;
    held(alloc, key, value)
}

/// A value that is no regular expression.
pub(crate) fn plain_value(alloc: Global, key: &str, tree: &Value<'_>) -> Result<RawBson, QueryError>
    ensures { Gives Spells result (plain_value_under key.now (data_of tree.now)) }
{
    let value = value(alloc, key, tree)?;
    if is_expression(value.as_raw_bson_ref()) {
        Err(operand(alloc, key))
    } else {
        Ok(value)
    }
}

/// Whether a value is a regular expression, which `plain_value` refuses.
fn is_expression(value: RawBsonRef<'_>) -> bool
    ensures { (v : Tree) → SpellsRawValue (ref_value value.entry) v → result ≡ expression_seen v }
{
    match value {
        RawBsonRef::RegularExpression(_) => true,
        _ => false,
    }
}

/// The whole number that a value is, whatever its kind. None of a number with a fraction, and where 64 bits have no room.
pub(crate) fn whole_of(value: RawBsonRef<'_>) -> Option<i64>
    ensures { (v : Tree) → SpellsRawValue (ref_value value.entry) v → result ≡ whole_seen v }
{
    match value {
        RawBsonRef::Double(x) => whole_at(double(x)),
        RawBsonRef::Int32(x) => whole_at(whole(x as i64)),
        RawBsonRef::Int64(x) => whole_at(whole(x)),
        RawBsonRef::Decimal128(x) => whole_at(decimal(&x)),
        _ => None,
    }
}

/// A whole number.
pub(crate) fn number(alloc: Global, key: &str, tree: &Value<'_>) -> Result<i64, QueryError>
    ensures { Gives Same result (number_under key.now (data_of tree.now)) }
{
    let value = value(alloc, key, tree)?;
    match whole_of(value.as_raw_bson_ref()) {
        Some(number) => Ok(number),
        None => Err(operand(alloc, key)),
    }
}

/// A number, cut off toward zero.
pub(crate) fn part(alloc: Global, key: &str, tree: &Value<'_>) -> Result<i64, QueryError>
    ensures { Gives Same result (part_under key.now (data_of tree.now)) }
{
    let value = value(alloc, key, tree)?;
    match whole_part_of(value.as_raw_bson_ref()) {
        Some(part) => Ok(part),
        None => Err(operand(alloc, key)),
    }
}

/// Whether a number stands for true: all but 0 do.
fn is_not_zero(number: i64) -> bool
    ensures { result ≡ not_zero number }
{
    match number {
        0 => false,
        _ => true,
    }
}

/// The truth that a number stands for. None if there is no number.
fn truth_by(number: Option<i64>) -> Option<bool>
    ensures { result ≡ option_map not_zero number }
{
    match number {
        Some(number) => Some(is_not_zero(number)),
        None => None,
    }
}

/// Whether a value stands for true, if it stands for true or false.
pub(crate) fn truth_of(value: RawBsonRef<'_>) -> Option<bool>
    ensures { (v : Tree) → SpellsRawValue (ref_value value.entry) v → result ≡ truth_seen v }
{
    match value {
        RawBsonRef::Boolean(truth) => Some(truth),
        _ => truth_by(whole_of(value)),
    }
}

/// A number without a wrapper that isn't written as a whole one of 64 bits.
pub(crate) fn numeral_in<'a>(tree: &Value<'a>) -> Option<&'a str>
    ensures { option_map (λ t. t.now) result ≡ numeral_seen (data_of tree.now) }
{
    match tree {
        Value::Number(text) => match read_long(*text) {
            Some(_) => None,
            None => Some(*text),
        },
        _ => None,
    }
}

/// The decimal that a numeral is, if one is.
#[tactic(auto, unfolding(crate::specs::Values::decimal_in))]
pub(crate) fn exact(numeral: &str) -> Option<Decimal128>
    ensures { option_map decimal_bytes result ≡ decimal_in numeral.now }
{
    numeral.parse::<Decimal128>().ok()
}
