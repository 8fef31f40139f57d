//! Queries.

ghost use Rattle.std.specs.Prelude.{◌≡◌, map, []};
ghost use Rattle.json.specs.Value.{members_view, value_view as data_of};
ghost use Rattle.store_question_read.specs.Outcome.{AskEach, Asks, Gives, IsQuery};
ghost use Rattle.store_question_read.specs.Query.{condition as condition_at, entries as entries_at, entry as entry_at, items as items_at, joining_of, kind_or_kinds, listed as listed_at, match_alone as match_alone_at, matching as matching_at, one_at_least, operator_of, operators as operators_at, options_in as options_among, query, test as test_at, tests as tests_at, together as together_at};

use crate::conditions::{
    differs, divided, equals, exactly, filled, found, lies, of_kind, sized, there, with_options,
};
use crate::error::{QueryError, operand, operator};
use crate::made;
use crate::words::{
    Joining, Listed, Operator, are_of_items, are_operators, begins_with_dollar, has_lone_options,
    has_operators, joining_named, operator_named, options_in,
};
use json::{MAX_DEPTH, Reader, Scratch, Value};
use std::alloc::{AllocError, Global};
use store_question::Question;

/// The question of a query, an object of MongoDB's query language: `{"customer.city":"Ulm","price":{"$gte":10}}`. All of
/// its entries are asked, both if a tree has two of one key. `Query` if it, or what `$and`, `$or` or `$nor` joins, is no
/// object, `Operator` for a key that is no operator at its place, `Operand` for a value that doesn't belong under its
/// path or operator, which is named, and `Memory` if a growth was refused, or a value has more than 1000 levels. It is
/// the first of these faults in the order of the text.
#[cycle(query)]
pub fn query_of(alloc: Global, tree: &Value<'_>) -> Result<Question, QueryError>
    ensures { Gives Asks result (query (data_of tree.now)) }
{
    let Value::Object(members) = tree else {
        return Err(QueryError::Query);
    };
    let list = entries(alloc, members.as_slice())?;
    Ok(made::all(list))
}

/// One question for each member of a query, in their order. The error is that of the first member at fault.
#[cycle(query)]
fn entries(alloc: Global, members: &[(&str, Value<'_>)]) -> Result<Vec<Question>, QueryError>
    ensures { Gives AskEach result (entries_at (members_view members.now)) }
{
    let mut questions = Vec::new(alloc);
    for (key, body) in members {
        let question = entry(alloc, *key, body)?;
        questions.push(question)?;
    }
    Ok(questions)
}

/// The question of one member of a query: queries that are joined, or what is asked of the path `key`, operators or
/// that it has a value. `$comment` asks nothing. `Operator` for any other key that begins with `$`.
#[cycle(query)]
fn entry(alloc: Global, key: &str, body: &Value<'_>) -> Result<Question, QueryError>
    ensures { Gives Asks result (entry_at key.now (joining_of key.now) (items_at [] key.now Listed.Queries (data_of body.now)) (condition_at key.now (data_of body.now))) }
{
    match joining_named(key) {
        Some(Joining::And) => {
            let list = queries(alloc, key, body)?;
            Ok(made::all(list))
        }
        Some(Joining::Or) => {
            let list = queries(alloc, key, body)?;
            Ok(made::any(list))
        }
        Some(Joining::Nor) => {
            let list = queries(alloc, key, body)?;
            Ok(made::none(alloc, list)?)
        }
        Some(Joining::Comment) => Ok(made::all(Vec::new(alloc))),
        None if begins_with_dollar(key) => Err(operator(alloc, key)),
        None => {
            let pieces = made::pieces(alloc, key)?;
            if has_operators(body) {
                operators(alloc, pieces.as_slice(), key, body)
            } else {
                equals(alloc, pieces.as_slice(), key, body)
            }
        }
    }
}

/// The queries that a key joins, one at least.
#[cycle(query)]
fn queries(alloc: Global, key: &str, body: &Value<'_>) -> Result<Vec<Question>, QueryError>
    ensures { Gives AskEach result (one_at_least key.now (items_at [] key.now Listed.Queries (data_of body.now))) }
{
    let list = items(alloc, &[], key, Listed::Queries, body)?;
    filled(alloc, key, list)
}

/// The operators under a path, all of which have to hold. `Operand`, which names `key`, if `body` is no object, there
/// are none, or the first key is for no operator.
#[cycle(query)]
fn operators(
    alloc: Global,
    path: &[&str],
    key: &str,
    body: &Value<'_>,
) -> Result<Question, QueryError>
    ensures { Gives Asks result (operators_at (map (λ x. x.now) path.now) key.now (data_of body.now)) }
{
    let Value::Object(object) = body else {
        return Err(operand(alloc, key));
    };
    let members = object.as_slice();
    if are_operators(members) {
        let list = tests(alloc, path, members)?;
        Ok(made::all(list))
    } else {
        Err(operand(alloc, key))
    }
}

/// One question for each operator under a path, in their order. `Operand`, which names `$options`, if it is there
/// without `$regex`, whatever else is at fault; else the error is that of the first one at fault.
#[cycle(query)]
fn tests(
    alloc: Global,
    path: &[&str],
    members: &[(&str, Value<'_>)],
) -> Result<Vec<Question>, QueryError>
    ensures { Gives AskEach result (together_at (members_view members.now)
        (tests_at (map (λ x. x.now) path.now) (options_among (members_view members.now)) (members_view members.now))) }
{
    if has_lone_options(members) {
        return Err(operand(alloc, "$options"));
    }
    let options = options_in(members);
    let mut questions = Vec::new(alloc);
    for (key, body) in members {
        let question = test(alloc, path, options, *key, body)?;
        questions.push(question)?;
    }
    Ok(questions)
}

/// What the operator `key` with the operand `body` asks of a path, with the options of a pattern beside it. `Operator` if
/// none has this name, and `Operand` if the operand doesn't belong under it.
#[cycle(query)]
fn test(
    alloc: Global,
    path: &[&str],
    options: &str,
    key: &str,
    body: &Value<'_>,
) -> Result<Question, QueryError>
    ensures { Gives Asks result (test_at (map (λ x. x.now) path.now) options.now key.now (operator_of key.now) (data_of body.now) (λ l. items_at (map (λ x. x.now) path.now) key.now l (data_of body.now)) (operators_at (map (λ x. x.now) path.now) key.now (data_of body.now)) (matching_at (map (λ x. x.now) path.now) key.now (data_of body.now))) }
{
    let Some(wanted) = operator_named(key) else {
        return Err(operator(alloc, key));
    };
    match wanted {
        Operator::Eq => exactly(alloc, path, key, body),
        Operator::Ne => differs(alloc, path, key, body),
        Operator::Lies(comparison) => lies(alloc, path, key, comparison, body),
        Operator::Size => sized(alloc, path, key, body),
        Operator::Exists => there(alloc, path, key, body),
        Operator::Mod => divided(alloc, path, key, body),
        Operator::Regex => found(alloc, path, options, key, body),
        Operator::Options => with_options(alloc, key, body),
        Operator::ElementMatch => matching(alloc, path, key, body),
        Operator::Not => {
            let inner = operators(alloc, path, key, body)?;
            Ok(made::not(alloc, inner)?)
        }
        Operator::In => {
            let list = items(alloc, path, key, Listed::Values, body)?;
            Ok(made::any(list))
        }
        Operator::Nin => {
            let list = items(alloc, path, key, Listed::Values, body)?;
            Ok(made::none(alloc, list)?)
        }
        Operator::All => {
            let list = items(alloc, path, key, Listed::Parts, body)?;
            Ok(made::every(list))
        }
        Operator::Kind => of_kinds(alloc, path, key, body),
    }
}

/// The value at the path is of a kind, or of one of several.
#[cycle(query)]
fn of_kinds(
    alloc: Global,
    path: &[&str],
    key: &str,
    body: &Value<'_>,
) -> Result<Question, QueryError>
    ensures { Gives Asks result (kind_or_kinds (map (λ x. x.now) path.now) key.now (data_of body.now)
        (items_at (map (λ x. x.now) path.now) key.now Listed.Kinds (data_of body.now))) }
{
    match body {
        Value::Array(_) => {
            let list = items(alloc, path, key, Listed::Kinds, body)?;
            let kinds = filled(alloc, key, list)?;
            Ok(made::any(kinds))
        }
        _ => of_kind(alloc, path, key, body),
    }
}

/// Asks for an array at the path with an item that answers: operators are asked of the item itself, and other members
/// are a query, which only an item that is a document or an array can answer.
#[cycle(query)]
fn matching(
    alloc: Global,
    path: &[&str],
    key: &str,
    body: &Value<'_>,
) -> Result<Question, QueryError>
    ensures { Gives Asks result (matching_at (map (λ x. x.now) path.now) key.now (data_of body.now)) }
{
    let Value::Object(object) = body else {
        return Err(operand(alloc, key));
    };
    let members = object.as_slice();
    if are_of_items(members) {
        let list = tests(alloc, &[], members)?;
        Ok(made::item(alloc, path, made::all(list))?)
    } else {
        let list = entries(alloc, members)?;
        Ok(made::item(alloc, path, made::holds(alloc, list)?)?)
    }
}

/// What an object under `$all` asks if `$elemMatch` is its only member; else `Operand`, which names `key`.
#[cycle(query)]
fn match_alone(
    alloc: Global,
    path: &[&str],
    key: &str,
    body: &Value<'_>,
) -> Result<Question, QueryError>
    ensures { Gives Asks result (match_alone_at (map (λ x. x.now) path.now) key.now (data_of body.now)) }
{
    let Value::Object(members) = body else {
        return Err(operand(alloc, key));
    };
    match members.as_slice() {
        [(name, wanted)] if *name == "$elemMatch" => matching(alloc, path, *name, wanted),
        _ => Err(operand(alloc, key)),
    }
}

/// One question for each item of an array under the operator `key`, in their order. `Operand`, which names `key`, if
/// `body` is no array; else the error is that of the first item at fault.
#[cycle(query)]
fn items(
    alloc: Global,
    path: &[&str],
    key: &str,
    listed: Listed,
    body: &Value<'_>,
) -> Result<Vec<Question>, QueryError>
    ensures { Gives AskEach result (items_at (map (λ x. x.now) path.now) key.now listed (data_of body.now)) }
{
    let Value::Array(array) = body else {
        return Err(operand(alloc, key));
    };
    let items = array.as_slice();
    let mut questions = Vec::new(alloc);
    for item in items {
        let question = one(alloc, path, key, listed, item)?;
        questions.push(question)?;
    }
    Ok(questions)
}

/// What one item of an array under the operator `key` asks. `Operand`, which names `key`, for an object of operators
/// among the values of `$in` and `$nin`.
#[cycle(query)]
fn one(
    alloc: Global,
    path: &[&str],
    key: &str,
    listed: Listed,
    item: &Value<'_>,
) -> Result<Question, QueryError>
    ensures { Gives Asks result (listed_at (map (λ x. x.now) path.now) key.now listed (data_of item.now) (query (data_of item.now)) (match_alone_at (map (λ x. x.now) path.now) key.now (data_of item.now))) }
{
    match listed {
        Listed::Queries => query_of(alloc, item),
        Listed::Values => {
            if has_operators(item) {
                Err(operand(alloc, key))
            } else {
                equals(alloc, path, key, item)
            }
        }
        Listed::Parts => {
            if has_operators(item) {
                match_alone(alloc, path, key, item)
            } else {
                equals(alloc, path, key, item)
            }
        }
        Listed::Kinds => of_kind(alloc, path, key, item),
    }
}

/// The byte at which a text is seen to be no JSON.
fn fault_in(text: &str, scratch: &mut Scratch) -> Result<usize, AllocError> {
    let mut reader = Reader::new(text, scratch)?;
    let _passed = reader.skip_value(MAX_DEPTH);
    Ok(reader.offset())
}

/// The question of a text of JSON (RFC 8259). `scratch` is room that is kept from text to text. `Json` if the text is no
/// JSON or nests deeper than 128 levels, with the byte, `RepeatedKey` if an object in it has a key twice; else the
/// errors are those of `query_of`.
pub fn read_query(alloc: Global, text: &str, scratch: &mut Scratch) -> Result<Question, QueryError>
    ensures { IsQuery text.now result }
{
    match Value::parse_strict(alloc, text, scratch) {
        Ok(tree) => return query_of(alloc, &tree),
        Err(json::Error::OutOfMemory) => return Err(QueryError::Memory),
        Err(json::Error::DuplicateKey) => return Err(QueryError::RepeatedKey),
        Err(_) => {}
    }
    Err(QueryError::Json(fault_in(text, scratch)?))
}
