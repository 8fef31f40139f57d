//! Extended JSON v2 as it is read (MongoDB Extended JSON v2, "Parsing").
ghost use Rattle.std.specs.Prelude.{◌≡◌, ◌<◌, length, map, string_bytes};
ghost use Rattle.std.specs.Option.{option_map};
ghost use Rattle.serde_json.specs.View.{view as data_of, number_view, items_view, members_view};
ghost use Rattle.bson_model.specs.View.{view, items_of, content};
ghost use Rattle.bson_model.specs.JsonKeys.{any_reserved};
ghost use Rattle.bson_model.specs.JsonRead.{GivesReading, read as value_of, read_items as items_read, read_members as members_read, read_typed as typed_of, read_scope as scope_of, text_of as spec_text, whole, code_and_scope as spec_scoped, integer as integer_of};
ghost use Rattle.bson_model.specs.JsonScoped.{scoped_parts as parts_of};
ghost use Rattle.serde_json.specs.Find.{as_i64};

mod bodies;
mod keys;
mod texts;

use crate::bson::{Bson, JavaScriptCodeWithScope};
use crate::document::Document;
use crate::levels::{STACK_LEVELS, levels_inside};
use bodies::{pair, read_wrapped, text_of};
use bson_base::oid;
pub use keys::{Wrapper, is_reserved_key, wrapper_of};
use serde_json::{Map, Number, Value};
use std::alloc::{AllocError, AllocFailed, Global};
pub use texts::{read_byte, read_int, read_long};
use thiserror::Error as ThisError;

/// Why a JSON tree was refused.
#[derive(Clone, Copy, Debug, PartialEq, ThisError)]
pub enum Error {
    /// The text under `$oid` is no object id.
    #[error("the text is no object id")]
    InvalidObjectId(oid::Error),
    /// A wrapper has another key, its body has another form, or a key of the body is absent or unknown.
    #[error("the tree is no Extended JSON")]
    DeserializationError,
    /// A double that is finite and not zero: a number that is no signed integer of 64 bits, or a numeral under
    /// `$numberDouble` with a digit other than 0.
    #[error("the number is a finite double")]
    FiniteDouble,
    /// A growth of memory was refused, or more than 1000 levels are nested in each other.
    #[error("out of memory")]
    Memory,
}

/// What a call of this module returns.
pub type Result<T> = std::result::Result<T, Error>;

impl From<AllocError> for Error {
    ghost use Rattle.bson_model.specs.declared.extjson.de.Error.TheVariants.{Memory as memory};

    ghost from_gives = { λ _ e. e ≡ memory };

    fn from(_: AllocError) -> Error {
        Error::Memory
    }
}

impl<T: Drop> From<AllocFailed<T>> for Error {
    ghost use Rattle.bson_model.specs.declared.extjson.de.Error.TheVariants.{Memory as memory};

    ghost from_gives = { λ _ e. e ≡ memory };

    /// What could not be stored is dropped.
    fn from(failed: AllocFailed<T>) -> Error {
        drop(failed);
        Error::Memory
    }
}

impl From<oid::Error> for Error {
    ghost use Rattle.bson_model.specs.JsonRead.{of_object_id};

    ghost from_gives = { λ x e. e ≡ of_object_id x };

    /// `Memory` stays `Memory`; any other fault of an object id becomes `InvalidObjectId`.
    fn from(error: oid::Error) -> Error {
        match error {
            oid::Error::Memory => Error::Memory,
            other => Error::InvalidObjectId(other),
        }
    }
}

/// Whether an object is read as a typed value: one reserved key anywhere among its keys is enough. `$scope` is none.
fn has_reserved(members: &Map<String, Value>) -> bool
    ensures { result ≡ any_reserved (members_view members.now.entries) }
{
    for (key, _) in members {
        if is_reserved_key(key) {
            return true;
        }
    }
    false
}

/// The value of a whole number without a wrapper: an Int32 if it fits, else an Int64.
pub fn integer(n: i64) -> Bson
    ensures { view result ≡ integer_of n }
{
    if i32::MIN as i64 <= n && n <= i32::MAX as i64 {
        Bson::Int32(n as i32)
    } else {
        Bson::Int64(n)
    }
}

/// The value of a JSON number outside a wrapper: an Int32 if it fits, else an Int64. `FiniteDouble` if it is no signed
/// integer of 64 bits, as a double or a larger unsigned integer.
fn read_number(n: Number) -> Result<Bson>
    ensures { GivesReading view result (whole (as_i64 (number_view n))) }
{
    match n.as_i64() {
        Some(n) => Ok(integer(n)),
        None => Err(Error::FiniteDouble),
    }
}

/// Code, with a scope if there is one.
pub fn with_scope(code: String, scope: Option<Document>) -> Bson
    ensures { view result ≡ spec_scoped (string_bytes code) (option_map (λ d. content d) scope) }
{
    match scope {
        Some(scope) => Bson::JavaScriptCodeWithScope(JavaScriptCodeWithScope { code, scope }),
        None => Bson::JavaScriptCode(code),
    }
}

/// The value of an object with one member at the most. `DeserializationError` if it has none, or if its key isn't a
/// reserved one, else the error of its body.
// What it keeps on the stack stays out of the frames of `read`, which calls itself for each level.
#[inline(never)]
fn read_alone(alloc: Global, members: Map<String, Value>) -> Result<Bson>
    requires { length members.entries < 2 }
    ensures { GivesReading view result (typed_of (members_view members.entries)) }
{
    match members.into_iter().next() {
        Some((key, value)) => read_wrapped(alloc, &key, value),
        None => Err(Error::DeserializationError),
    }
}

/// The code and the scope of an object with these two keys alone. `DeserializationError` if it has other keys, or if
/// the code is no text.
// What it keeps on the stack stays out of the frames of `read`, too.
#[inline(never)]
fn scoped_parts(members: Map<String, Value>) -> Result<(String, Value)>
    ensures { GivesReading (λ p. (string_bytes p.0, data_of p.1)) result (parts_of (members_view members.entries)) }
{
    let (code, scope) = pair(members, "$code", "$scope")?;
    match text_of(code) {
        Ok(code) => Ok((code, scope)),
        Err(error) => Err(given_up(scope, error)),
    }
}

/// The error, for which the tree is let go.
fn given_up(tree: Value, error: Error) -> Error
    ensures { result ≡ error }
{
    drop(tree);
    error
}

/// The value of a JSON tree, which may have `levels` levels.
#[cycle(read)]
fn read(alloc: Global, value: Value, levels: u32) -> Result<Bson>
    ensures { GivesReading view result (value_of (data_of value)) }
{
    match value {
        Value::Null => Ok(Bson::Null),
        Value::Bool(truth) => Ok(Bson::Boolean(truth)),
        Value::Number(n) => read_number(n),
        Value::String(text) => Ok(Bson::String(text)),
        Value::Array(items) => {
            Ok(Bson::Array(read_items(alloc, items, levels_inside(levels)?)?))
        }
        Value::Object(members) => {
            if has_reserved(&members) {
                read_typed(alloc, members, levels)
            } else {
                Ok(Bson::Document(read_members(alloc, members, levels_inside(levels)?)?))
            }
        }
    }
}

/// The values of a JSON array, each of which may have `levels` levels. The first element with a fault decides the
/// error.
#[cycle(read)]
fn read_items(alloc: Global, items: Vec<Value>, levels: u32) -> Result<Vec<Bson>>
    ensures { GivesReading (λ v. items_of (map view v.items)) result (items_read (items_view items.items)) }
{
    let mut values = Vec::new(alloc);
    for item in items {
        values.push(read(alloc, item, levels)?)?;
    }
    Ok(values)
}

/// The document of the members of an object, in the order of their keys; no key of its own counts as reserved. Each
/// value may have `levels` levels. The first member with a fault decides the error.
#[cycle(read)]
fn read_members(alloc: Global, members: Map<String, Value>, levels: u32) -> Result<Document>
    ensures { GivesReading (λ d. content d) result (members_read (members_view members.entries)) }
{
    let mut document = Document::new(alloc);
    for (key, value) in members {
        document.put(key, read(alloc, value, levels)?)?;
    }
    Ok(document)
}

/// The value of an object with a reserved key, a scope with at most `levels` levels. `DeserializationError` if the
/// object has no form of a value, else the error of its body.
#[cycle(read)]
fn read_typed(alloc: Global, members: Map<String, Value>, levels: u32) -> Result<Bson>
    ensures { GivesReading view result (typed_of (members_view members.entries)) }
{
    if members.len() < 2 {
        return read_alone(alloc, members);
    }
    let (code, scope) = scoped_parts(members)?;
    Ok(with_scope(code, read_scope(alloc, scope, levels)?))
}

/// The scope beside a `$code`, none if it is null. `DeserializationError` if it is neither null nor an object; `Memory`
/// if `levels` is less than 2, for a scope takes two levels.
#[cycle(read)]
fn read_scope(alloc: Global, scope: Value, levels: u32) -> Result<Option<Document>>
    ensures { GivesReading (λ o. option_map (λ d. content d) o) result (scope_of (data_of scope)) }
{
    match scope {
        Value::Null => Ok(None),
        Value::Object(members) => {
            // The object around it is a level of its own.
            let inside = levels_inside(levels_inside(levels)?)?;
            Ok(Some(read_members(alloc, members, inside)?))
        }
        _ => Err(Error::DeserializationError),
    }
}

impl Bson {
    ghost use Rattle.std.specs.Prelude.{◌≡◌};
    ghost use Rattle.serde_json.specs.View.{view as data_of, members_view};
    ghost use Rattle.serde_json.specs.Data.{object};
    ghost use Rattle.bson_model.specs.View.{view};
    ghost use Rattle.bson_model.specs.JsonRead.{GivesReading, read};

    /// The value that a JSON tree stands for (MongoDB Extended JSON v2, "Parsing"). `InvalidObjectId` reports a text
    /// under `$oid` that is no object id, `FiniteDouble` a number that is no signed integer of 64 bits or a numeral
    /// under `$numberDouble` that is not zero, `DeserializationError` any other fault of a typed value, `Memory` a
    /// refused growth, and more than 1000 documents, arrays and scopes inside each other, which it doesn't enter; a
    /// scope counts twice, as an object in an object. Of several faults the first one in the order of keys is reported,
    /// a further key before the fault of a body.
    pub fn try_from_value(alloc: Global, json: Value) -> Result<Bson>
        ensures { GivesReading view result (read (data_of json)) }
    {
        read(alloc, json, STACK_LEVELS)
    }

    /// The value that a JSON object stands for: a typed value if it has a reserved key, else a document. The errors
    /// are those of `try_from_value`.
    pub fn try_from_map(alloc: Global, map: Map<String, Value>) -> Result<Bson>
        ensures { GivesReading view result (read (object (members_view map.entries))) }
    {
        read(alloc, Value::Object(map), STACK_LEVELS)
    }
}

impl Document {
    ghost use Rattle.std.specs.Prelude.{◌≡◌};
    ghost use Rattle.serde_json.specs.View.{members_view};
    ghost use Rattle.bson_model.specs.JsonRead.{GivesReading, read_members};

    /// The document of a JSON object, whose own keys are never taken for reserved ones; those of the objects below are.
    /// The errors are those of `Bson::try_from_value`.
    pub fn try_from_map(alloc: Global, map: Map<String, Value>) -> Result<Document>
        ensures { GivesReading (λ d. content d) result (read_members (members_view map.entries)) }
    {
        read_members(alloc, map, STACK_LEVELS - 1)
    }
}
