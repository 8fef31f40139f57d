//! Values and documents.
ghost use Rattle.std.specs.Prelude.{◌≡◌, map, string_bytes};
ghost use Rattle.std.specs.Option.{option_map};
ghost use Rattle.json.specs.Value.{value_view as data_of, items_view, members_view};
ghost use Rattle.bson_base.specs.Value.{no_members};
ghost use Rattle.bson_model.specs.View.{view, items_of, content};
ghost use Rattle.bson_json_read.specs.Outcome.{GivesReading};
ghost use Rattle.bson_json_read.specs.Reading.{any_reserved, Adds, ParsesText, read as value_of, read_items as items_read, read_members as members_read, read_scope as scope_of, read_top, read_typed as typed_of, ReadsText, ReadsValueText};

use crate::bodies::{own_text, pair, read_wrapped};
use crate::error::{Error, Result};
use crate::texts::read_number;
use bson_model::extjson::de::{is_reserved_key, with_scope};
use bson_model::{Bson, Document, STACK_LEVELS, levels_inside};
use json::{MAX_DEPTH, Reader, Scratch, Value};
use std::alloc::Global;

/// Whether one of the keys is reserved, so that the object stands for a typed value and not for a document.
fn has_reserved(members: &[(&str, Value<'_>)]) -> bool
    ensures { result ≡ any_reserved (members_view members.now) }
{
    for (key, _) in members {
        if is_reserved_key(*key) {
            return true;
        }
    }
    false
}

/// Puts a value under a new key.
fn add(document: &mut Document, key: String, value: Bson) -> Result<()>
    ensures { Adds (content document.old) (string_bytes key) (view value) (content document.new) result }
{
    match document.insert(key, value)? {
        Some(before) => {
            drop(before);
            Err(Error::RepeatedKey)
        }
        None => Ok(()),
    }
}

/// The value of a JSON tree, which may have `levels` levels.
#[cycle(read)]
fn read(alloc: Global, value: &Value<'_>, levels: u32) -> Result<Bson>
    ensures { GivesReading view result (value_of (data_of value.now)) }
{
    match value {
        Value::Null => Ok(Bson::Null),
        Value::Bool(truth) => Ok(Bson::Boolean(*truth)),
        Value::Number(text) => read_number(*text),
        Value::String(text) => Ok(Bson::String(String::from_str(alloc, *text)?)),
        Value::Array(items) => {
            Ok(Bson::Array(read_items(alloc, items.as_slice(), levels_inside(levels)?)?))
        }
        Value::Object(members) => {
            let members = members.as_slice();
            if has_reserved(members) {
                read_typed(alloc, members, levels)
            } else {
                Ok(Bson::Document(read_members(alloc, members, levels_inside(levels)?)?))
            }
        }
    }
}

/// The items of an array, in their order. Each may have `levels` levels; `Memory` if one has more.
#[cycle(read)]
fn read_items(alloc: Global, items: &[Value<'_>], levels: u32) -> Result<Vec<Bson>>
    ensures { GivesReading (λ v. items_of (map view v.items)) result (items_read (items_view items.now)) }
{
    let mut values = Vec::new(alloc);
    for item in items {
        values.push(read(alloc, item, levels)?)?;
    }
    Ok(values)
}

/// The document of an object whose own keys are never taken for reserved ones. Each value may have `levels` levels.
/// `RepeatedKey` if a key comes twice, `Memory` if there are more levels.
#[cycle(read)]
fn read_members(alloc: Global, members: &[(&str, Value<'_>)], levels: u32) -> Result<Document>
    ensures { GivesReading (λ d. content d) result (members_read (members_view members.now) no_members) }
{
    let mut document = Document::new(alloc);
    for (key, value) in members {
        let key = String::from_str(alloc, *key)?;
        add(&mut document, key, read(alloc, value, levels)?)?;
    }
    Ok(document)
}

/// The value of an object with a reserved key, a scope with at most `levels` levels. `NotExtendedJson` if the object
/// has no form of a value, else the error of its body.
#[cycle(read)]
fn read_typed<'a>(alloc: Global, members: &[(&'a str, Value<'a>)], levels: u32) -> Result<Bson>
    ensures { GivesReading view result (typed_of (members_view members.now)) }
{
    match members {
        [] => Err(Error::NotExtendedJson),
        [(key, value)] => read_wrapped(alloc, *key, value),
        [_, _, ..] => {
            let (code, scope) = pair(members, "$code", "$scope")?;
            let code = own_text(alloc, code)?;
            let scope = read_scope(alloc, scope, levels)?;
            Ok(with_scope(code, scope))
        }
    }
}

/// The scope of a code, whose own keys are never taken for reserved ones. None of `null`: the code then has no scope.
/// `NotExtendedJson` if it is no object either. The object around the scope counts as one of the `levels`.
#[cycle(read)]
fn read_scope(alloc: Global, scope: &Value<'_>, levels: u32) -> Result<Option<Document>>
    ensures { GivesReading (λ o. option_map (λ d. content d) o) result (scope_of (data_of scope.now)) }
{
    match scope {
        Value::Null => Ok(None),
        Value::Object(members) => {
            // The object around it is a level of its own.
            let inside = levels_inside(levels_inside(levels)?)?;
            Ok(Some(read_members(alloc, members.as_slice(), inside)?))
        }
        _ => Err(Error::NotExtendedJson),
    }
}

/// The value of a JSON tree. The errors are those of `document_of`.
pub fn bson_of(alloc: Global, value: &Value<'_>) -> Result<Bson>
    ensures { GivesReading view result (value_of (data_of value.now)) }
{
    read(alloc, value, STACK_LEVELS)
}

/// The document of a JSON object, whose own keys are never taken for reserved ones; those of the objects below are.
/// `NotExtendedJson` if it is no object, or no Extended JSON, `NumberOutOfRange` for a number that is whole and not in
/// the range of 64 bits, or too large for a double, `InvalidObjectId` for a text under `$oid` that is no object id,
/// `RepeatedKey` for a document with a key twice, `Memory` if a growth was refused, and for more than 1000 levels.
pub fn document_of(alloc: Global, value: &Value<'_>) -> Result<Document>
    ensures { GivesReading (λ d. content d) result (read_top (data_of value.now)) }
{
    match value {
        Value::Object(members) => read_members(alloc, members.as_slice(), STACK_LEVELS - 1),
        _ => Err(Error::NotExtendedJson),
    }
}

/// The tree of a text.
fn parse<'a>(alloc: Global, text: &'a str, scratch: &'a mut Scratch) -> Result<Value<'a>>
    ensures { ParsesText text.now result }
{
    let mut reader = Reader::new(text, scratch)?;
    match Value::read(alloc, &mut reader, MAX_DEPTH) {
        Ok(value) => {
            let end = reader.offset();
            if reader.next().is_some() {
                Err(Error::NotJson(end))
            } else {
                Ok(value)
            }
        }
        Err(json::Error::OutOfMemory) => Err(Error::Memory),
        Err(_) => Err(Error::NotJson(reader.offset())),
    }
}

/// The document of a text of JSON (RFC 8259), with its keys in their order. `scratch` is room that is kept from text to
/// text. `NotJson` if the text is no JSON or nests deeper than 128 levels, with the byte; else the errors are those of
/// `document_of`.
pub fn document_of_text(alloc: Global, text: &str, scratch: &mut Scratch) -> Result<Document>
    ensures { ReadsText text.now result }
{
    let value = parse(alloc, text, scratch)?;
    document_of(alloc, &value)
}

/// The value of a text of JSON (RFC 8259), with the keys of documents in their order. `scratch` is room that is kept from
/// text to text. `NotJson` if the text is no JSON or nests deeper than 128 levels, with the byte; else the errors are
/// those of `bson_of`.
pub fn bson_of_text(alloc: Global, text: &str, scratch: &mut Scratch) -> Result<Bson>
    ensures { ReadsValueText text.now result }
{
    let value = parse(alloc, text, scratch)?;
    bson_of(alloc, &value)
}
