//! Filters as JSON texts.

ghost use Rattle.std.specs.Prelude.{◌≡◌, List, ℕ, MatchOption, codes, string_bytes};
ghost use Rattle.serde_json.specs.Data.{Data, string};
ghost use Rattle.serde_json.specs.View.{view as data_of};
ghost use Rattle.bson_base.specs.declared.spec.ElementType.{ElementType as AnyKind};
ghost use Rattle.cli_commands.specs.Filters.{AnswersFilter, AnswersPath, AnswersTree, AnswersTrees, kind_json, one, two};

use crate::word_texts::{TextError, parse_json};
use bson_model::{Bson, ElementType};
use serde_json::Value;
use std::alloc::Global;
use store_question::Filter;

/// The filter of a JSON text, an object with one key: `{"eq":[path,value]}`, `{"exists":path}`, `{"kind":[path,tag]}`,
/// `{"not":filter}`, `{"and":[filter,..]}` or `{"or":[filter,..]}`. A path is an array of texts, a value Extended JSON,
/// and a tag the number of an element type (bsonspec.org 1.1, "element").
pub fn read_filter(alloc: Global, text: &str) -> Result<Filter, TextError>
    ensures { AnswersFilter text.now result }
{
    let tree = parse_json(alloc, text)?;
    filter_of_json(alloc, tree)
}

/// The filter that a tree stands for.
#[cycle(filter)]
fn filter_of_json(alloc: Global, tree: Value) -> Result<Filter, TextError>
    ensures { AnswersTree (data_of tree) result }
{
    let Value::Object(members) = tree else {
        return Err(TextError::Unreadable);
    };
    let mut entries = members.into_iter();
    let Some((key, body)) = entries.next() else {
        return Err(TextError::Unreadable);
    };
    match entries.next() {
        None => filter_under(alloc, key.as_str(), body),
        Some(_) => Err(TextError::Unreadable),
    }
}

/// The filter that the object with this key and this tree stands for.
#[cycle(filter)]
fn filter_under(alloc: Global, key: &str, body: Value) -> Result<Filter, TextError>
    ensures { AnswersTree (one key.now (data_of body)) result }
{
    match key {
        "eq" => equality_of(alloc, body),
        "exists" => existence_of(alloc, body),
        "kind" => kind_test_of(alloc, body),
        "not" => {
            let filter = filter_of_json(alloc, body)?;
            Ok(Filter::Not(Box::new(alloc, filter)?))
        }
        "and" => Ok(Filter::And(filters_of(alloc, body)?)),
        "or" => Ok(Filter::Or(filters_of(alloc, body)?)),
        _ => Err(TextError::Unreadable),
    }
}

/// The filters of an array.
#[cycle(filter)]
fn filters_of(alloc: Global, tree: Value) -> Result<Vec<Filter>, TextError>
    ensures { AnswersTrees (data_of tree) result }
{
    let Value::Array(items) = tree else {
        return Err(TextError::Unreadable);
    };
    let mut filters = Vec::new(alloc);
    for item in items {
        filters.push(filter_of_json(alloc, item)?)?;
    }
    Ok(filters)
}

/// The test for a value at a path.
fn equality_of(alloc: Global, body: Value) -> Result<Filter, TextError>
    ensures { AnswersTree (one (codes "eq") (data_of body)) result }
{
    let Some((path, value)) = pair_of(body) else {
        return Err(TextError::Unreadable);
    };
    let path = path_of(alloc, path)?;
    let value = Bson::try_from_value(alloc, value)?;
    Ok(Filter::Eq(path, value))
}

/// The test whether there is something at a path.
fn existence_of(alloc: Global, body: Value) -> Result<Filter, TextError>
    ensures { AnswersTree (one (codes "exists") (data_of body)) result }
{
    let path = path_of(alloc, body)?;
    Ok(Filter::Exists(path))
}

/// The test for a kind at a path.
fn kind_test_of(alloc: Global, body: Value) -> Result<Filter, TextError>
    ensures { AnswersTree (one (codes "kind") (data_of body)) result }
{
    let Some((path, tag)) = pair_of(body) else {
        return Err(TextError::Unreadable);
    };
    let path = path_of(alloc, path)?;
    match kind_of(&tag) {
        Some(kind) => Ok(Filter::Kind(path, kind)),
        None => Err(TextError::Unreadable),
    }
}

/// The items of an array of two.
fn pair_of(tree: Value) -> Option<(Value, Value)>
    ensures { MatchOption result ((first second : Data) → data_of tree ≡ two first second → ⊥) (λ p. data_of tree ≡ two (data_of p.0) (data_of p.1)) }
{
    let Value::Array(items) = tree else {
        return None;
    };
    let mut items = items.into_iter();
    let first = items.next()?;
    let second = items.next()?;
    match items.next() {
        None => Some((first, second)),
        Some(_) => None,
    }
}

/// The text that a tree is.
fn text_of(tree: Value) -> Option<String>
    ensures { MatchOption result ((text : List ℕ) → data_of tree ≡ string text → ⊥) (λ text. data_of tree ≡ string (string_bytes text)) }
{
    match tree {
        Value::String(text) => Some(text),
        _ => None,
    }
}

/// The path of an array of texts.
fn path_of(alloc: Global, tree: Value) -> Result<Vec<String>, TextError>
    ensures { AnswersPath (data_of tree) result }
{
    let Value::Array(items) = tree else {
        return Err(TextError::Unreadable);
    };
    let mut path = Vec::new(alloc);
    for item in items {
        let Some(key) = text_of(item) else {
            return Err(TextError::Unreadable);
        };
        path.push(key)?;
    }
    Ok(path)
}

/// The element type of a number.
fn kind_of(tree: &Value) -> Option<ElementType>
    ensures { MatchOption result ((kind : AnyKind) → data_of tree.now ≡ kind_json kind → ⊥) (λ kind. data_of tree.now ≡ kind_json kind) }
{
    let number = tree.as_u64()?;
    let tag = u8::try_from(number).ok()?;
    ElementType::from(tag)
}
