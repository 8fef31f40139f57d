//! What is asked of a path, by one operator that has no operators inside.

ghost use Rattle.std.specs.Prelude.{◌≡◌, map, option_map};
ghost use Rattle.json.specs.Json.{array, item, no_items};
ghost use Rattle.json.specs.Value.{items_view, value_view as data_of};
ghost use Rattle.store_question.specs.Asked.{Askeds};
ghost use Rattle.store_question_read.specs.Outcome.{AskEach, Asks, Gives, Same};
ghost use Rattle.store_question_read.specs.Query.{compared as compared_at, differs as differs_at, divided as divided_at, divisor as divisor_under, equal as equal_at, exactly as exactly_at, existing as existing_at, filled as filled_under, found_by as found_at, is_text_of_options as text_of_options, with_options as with_options_under, near as near_at, of_kind as of_kind_at, of_size as of_size_at};

use crate::error::{QueryError, operand};
use crate::kinds::{is_number, kind_of};
use crate::made;
use crate::patterns::{are_options, asked_of};
use crate::values::{exact, number, numeral_in, part, plain_value, truth_of, value};
use json::Value;
use std::alloc::Global;
use store_question::{Comparison, Question};

/// The value at the path lies so to a numeral.
fn near(
    alloc: Global,
    path: &[&str],
    key: &str,
    comparison: Comparison,
    numeral: &str,
) -> Result<Question, QueryError>
    ensures { Gives Asks result (near_at (map (λ x. x.now) path.now) key.now comparison numeral.now) }
{
    match bson_json_read::double_text::read(numeral) {
        Some(double) => Ok(made::near(alloc, path, comparison, double, exact(numeral))?),
        None => Err(operand(alloc, key)),
    }
}

/// The value at the path is this one, whatever it is.
pub(crate) fn exactly(
    alloc: Global,
    path: &[&str],
    key: &str,
    tree: &Value<'_>,
) -> Result<Question, QueryError>
    ensures { Gives Asks result (exactly_at (map (λ x. x.now) path.now) key.now (data_of tree.now)) }
{
    match numeral_in(tree) {
        Some(numeral) => near(alloc, path, key, Comparison::Equal, numeral),
        None => {
            let value = value(alloc, key, tree)?;
            Ok(made::lies(alloc, path, Comparison::Equal, value)?)
        }
    }
}

/// The value at the path lies so to this one, which is no regular expression.
pub(crate) fn lies(
    alloc: Global,
    path: &[&str],
    key: &str,
    comparison: Comparison,
    tree: &Value<'_>,
) -> Result<Question, QueryError>
    ensures { Gives Asks result (compared_at (map (λ x. x.now) path.now) key.now comparison (data_of tree.now)) }
{
    match numeral_in(tree) {
        Some(numeral) => near(alloc, path, key, comparison, numeral),
        None => {
            let value = plain_value(alloc, key, tree)?;
            Ok(made::lies(alloc, path, comparison, value)?)
        }
    }
}

/// The value at the path is this one, which is no regular expression.
pub(crate) fn equals(
    alloc: Global,
    path: &[&str],
    key: &str,
    tree: &Value<'_>,
) -> Result<Question, QueryError>
    ensures { Gives Asks result (equal_at (map (λ x. x.now) path.now) key.now (data_of tree.now)) }
{
    lies(alloc, path, key, Comparison::Equal, tree)
}

/// The value at the path isn't this one.
pub(crate) fn differs(
    alloc: Global,
    path: &[&str],
    key: &str,
    tree: &Value<'_>,
) -> Result<Question, QueryError>
    ensures { Gives Asks result (differs_at (map (λ x. x.now) path.now) key.now (data_of tree.now)) }
{
    let same = equals(alloc, path, key, tree)?;
    Ok(made::not(alloc, same)?)
}

/// There is a value at the path, or there is none.
pub(crate) fn there(
    alloc: Global,
    path: &[&str],
    key: &str,
    tree: &Value<'_>,
) -> Result<Question, QueryError>
    ensures { Gives Asks result (existing_at (map (λ x. x.now) path.now) key.now (data_of tree.now)) }
{
    let value = value(alloc, key, tree)?;
    match truth_of(value.as_raw_bson_ref()) {
        Some(wanted) => Ok(made::there(alloc, path, wanted)?),
        None => Err(operand(alloc, key)),
    }
}

/// The value at the path is of a kind, which has a name and a number.
pub(crate) fn of_kind(
    alloc: Global,
    path: &[&str],
    key: &str,
    tree: &Value<'_>,
) -> Result<Question, QueryError>
    ensures { Gives Asks result (of_kind_at (map (λ x. x.now) path.now) key.now (data_of tree.now)) }
{
    let value = value(alloc, key, tree)?;
    let meant = value.as_raw_bson_ref();
    let asked = if is_number(meant) {
        made::is_a_number(alloc, path)
    } else {
        match kind_of(meant) {
            Some(kind) => made::has_kind(alloc, path, kind),
            None => return Err(operand(alloc, key)),
        }
    };
    Ok(asked?)
}

/// The value at the path is an array of so many items.
pub(crate) fn sized(
    alloc: Global,
    path: &[&str],
    key: &str,
    tree: &Value<'_>,
) -> Result<Question, QueryError>
    ensures { Gives Asks result (of_size_at (map (λ x. x.now) path.now) key.now (data_of tree.now)) }
{
    let count = number(alloc, key, tree)?;
    match u64::try_from(count) {
        Ok(count) => Ok(made::sized(alloc, path, count)?),
        Err(_) => Err(operand(alloc, key)),
    }
}

/// The value at the path leaves a remainder, if it is divided: both are in an array.
pub(crate) fn divided(
    alloc: Global,
    path: &[&str],
    key: &str,
    tree: &Value<'_>,
) -> Result<Question, QueryError>
    ensures { Gives Asks result (divided_at (map (λ x. x.now) path.now) key.now (data_of tree.now)) }
{
    match tree {
        Value::Array(items) => divided_by(alloc, path, key, items.as_slice()),
        _ => Err(operand(alloc, key)),
    }
}

/// The items under `$mod` are a divisor and a remainder: `Operand` if they aren't exactly two.
fn divided_by(
    alloc: Global,
    path: &[&str],
    key: &str,
    items: &[Value<'_>],
) -> Result<Question, QueryError>
    ensures { Gives Asks result (divided_at (map (λ x. x.now) path.now) key.now (array (items_view items.now))) }
{
    match items {
        [divisor, rest] => by_parts(alloc, path, key, divisor, rest),
        _ => Err(operand(alloc, key)),
    }
}

/// The question of `$mod`, with both numbers cut off toward zero. `Operand` if one of them is no number, or has no room
/// in 64 bits, or if the divisor is 0.
fn by_parts(
    alloc: Global,
    path: &[&str],
    key: &str,
    divisor: &Value<'_>,
    rest: &Value<'_>,
) -> Result<Question, QueryError>
    ensures { Gives Asks result (divided_at (map (λ x. x.now) path.now) key.now
        (array (item (data_of divisor.now) (item (data_of rest.now) no_items)))) }
{
    let divisor = divisor_of(alloc, key, divisor)?;
    let rest = part(alloc, key, rest)?;
    Ok(made::leaves(alloc, path, divisor, rest)?)
}

/// A divisor, which isn't zero.
fn divisor_of(alloc: Global, key: &str, tree: &Value<'_>) -> Result<i64, QueryError>
    ensures { Gives Same result (divisor_under key.now (data_of tree.now)) }
{
    let divisor = part(alloc, key, tree)?;
    if divisor == 0 {
        Err(operand(alloc, key))
    } else {
        Ok(divisor)
    }
}

/// The value at the path is a text in which a pattern, under the options beside it, finds something. `Operand` if it is no
/// pattern that is taken.
pub(crate) fn found(
    alloc: Global,
    path: &[&str],
    options: &str,
    key: &str,
    tree: &Value<'_>,
) -> Result<Question, QueryError>
    ensures { Gives Asks result (found_at (map (λ x. x.now) path.now) options.now key.now (data_of tree.now)) }
{
    let value = value(alloc, key, tree)?;
    let asked = asked_of(alloc, options, value.as_raw_bson_ref())?;
    match asked {
        Some(question) => Ok(made::at(alloc, path, question)?),
        None => Err(operand(alloc, key)),
    }
}

/// Whether a tree is a text of options.
fn is_text_of_options(tree: &Value<'_>) -> bool
    ensures { result ≡ text_of_options (data_of tree.now) }
{
    match tree {
        Value::String(text) => are_options(*text),
        _ => false,
    }
}

/// The options of a pattern ask nothing by themselves. `Operand` if they are no options.
pub(crate) fn with_options(
    alloc: Global,
    key: &str,
    tree: &Value<'_>,
) -> Result<Question, QueryError>
    ensures { Gives Asks result (with_options_under key.now (data_of tree.now)) }
{
    if is_text_of_options(tree) {
        Ok(made::all(Vec::new(alloc)))
    } else {
        Err(operand(alloc, key))
    }
}

/// A list with one question at least.
pub(crate) fn filled(
    alloc: Global,
    key: &str,
    list: Vec<Question>,
) -> Result<Vec<Question>, QueryError>
    ensures { (ts : Askeds) → AskEach list ts → Gives AskEach result (filled_under key.now ts) }
{
    if list.is_empty() {
        Err(operand(alloc, key))
    } else {
        Ok(list)
    }
}
