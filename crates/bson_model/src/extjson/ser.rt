//! Extended JSON as it is written (MongoDB Extended JSON v2). One writer serves both forms: they differ in integers and
//! dates alone.

ghost use Rattle.std.specs.Prelude.{◌≡◌, true, string_bytes, map, option_map, IfOk, OnOk};
ghost use Rattle.serde_json.specs.Data as json;
ghost use Rattle.serde_json.specs.Data.{no_members, object, put};
ghost use Rattle.serde_json.specs.View.{view as data_of, items_view, members_view};
ghost use Rattle.bson_base.specs.Decimal.{decimal_text};
ghost use Rattle.bson_base.specs.Scalars.{id_bytes, millis_of, decimal_bytes};
ghost use Rattle.bson_base.specs.Tags.{subtype_byte};
ghost use Rattle.bson_base.specs.Dates.{date_text as date_text_of};
ghost use Rattle.bson_model.specs.JsonKeys as keys;
ghost use Rattle.bson_model.specs.JsonWrite.{WritesForm, date_body as body_of, double_text as double_text_of, is_relaxed_date as is_relaxed, with_scope as with_scope_of, text_wrapper as wrapped_text_of, write, write_binary as binary_of, write_date as date_of, write_double as double_written, write_id as id_of, write_integer, write_items as items_of, write_members as members_written, write_millis as millis_of_date, write_pointer as pointer_of, write_regex as regex_of, write_timestamp as timestamp_of};
ghost use Rattle.bson_model.specs.View.{view, items_of as trees_of, content};

use super::de::Error;
use crate::bson::{Bson, JavaScriptCodeWithScope};
use crate::document::Document;
use base64::engine::general_purpose::STANDARD;
use bson_base::{Binary, DateTime, DbPointer, Decimal128, DoubleBits, ObjectId, Regex, Timestamp};
use serde_json::{Map, Value};
use std::alloc::{AllocError, Global};

/// The two forms of Extended JSON.
#[derive(Clone, Copy, Debug, PartialEq, Eq)]
pub enum Mode {
    /// Every number keeps its kind.
    Canonical,
    /// Integers are plain numbers, and dates from 1970 to 9999 are date texts.
    Relaxed,
}

impl Bson {
    /// The tree in canonical Extended JSON. `FiniteDouble` if a finite double other than the zeros is in the value,
    /// `Memory` if a growth was refused.
    pub fn into_canonical_extjson(self, alloc: Global) -> Result<Value, Error>
        ensures { WritesForm data_of result (write Mode.Canonical (view self)) }
    {
        write_value(alloc, self, Mode::Canonical)
    }

    /// The tree in relaxed Extended JSON. `FiniteDouble` if a finite double other than the zeros is in the value,
    /// `Memory` if a growth was refused.
    pub fn into_relaxed_extjson(self, alloc: Global) -> Result<Value, Error>
        ensures { WritesForm data_of result (write Mode.Relaxed (view self)) }
    {
        write_value(alloc, self, Mode::Relaxed)
    }
}

/// The tree of a value and of all values inside it (MongoDB Extended JSON v2, "Conversion table"). `FiniteDouble` if
/// one of them is a finite double other than the zeros, `Memory` if a growth was refused.
#[cycle(write)]
fn write_value(alloc: Global, value: Bson, mode: Mode) -> Result<Value, Error>
    ensures { WritesForm data_of result (write mode (view value)) }
{
    let written = match value {
        Bson::Double(double) => return write_double(alloc, double),
        Bson::String(text) => Ok(Value::String(text)),
        Bson::Array(items) => Ok(Value::Array(write_items(alloc, items, mode)?)),
        Bson::Document(document) => Ok(Value::Object(write_members(alloc, document, mode)?)),
        Bson::Boolean(truth) => Ok(Value::Bool(truth)),
        Bson::Null => Ok(Value::Null),
        Bson::RegularExpression(regex) => write_regex(alloc, regex),
        Bson::JavaScriptCode(code) => wrapped_text(alloc, "$code", code),
        Bson::JavaScriptCodeWithScope(code) => {
            let scope = write_members(alloc, code.scope, mode)?;
            with_scope(alloc, code.code, scope)
        }
        Bson::Int32(number) => write_i32(alloc, number, mode),
        Bson::Int64(number) => write_i64(alloc, number, mode),
        Bson::Timestamp(timestamp) => write_timestamp(alloc, timestamp),
        Bson::Binary(binary) => write_binary(alloc, binary),
        Bson::ObjectId(id) => write_id(alloc, id),
        Bson::DateTime(moment) => write_date(alloc, moment, mode),
        Bson::Symbol(text) => wrapped_text(alloc, "$symbol", text),
        Bson::Decimal128(decimal) => write_decimal(alloc, decimal),
        Bson::Undefined => wrapped(alloc, "$undefined", Value::Bool(true)),
        Bson::MaxKey => wrapped(alloc, "$maxKey", Value::from(1u32)),
        Bson::MinKey => wrapped(alloc, "$minKey", Value::from(1u32)),
        Bson::DbPointer(pointer) => write_pointer(alloc, pointer),
    };
    Ok(written?)
}

/// The trees of an array's elements, in their order. The errors are those of `write_value`.
#[cycle(write)]
fn write_items(alloc: Global, items: Vec<Bson>, mode: Mode) -> Result<Vec<Value>, Error>
    ensures { WritesForm (λ v. items_view v.items) result (items_of mode (trees_of (map view items.items))) }
{
    let mut values = Vec::new(alloc);
    for item in items {
        values.push(write_value(alloc, item, mode)?)?;
    }
    Ok(values)
}

/// The members for a document's pairs, which a `Map` keeps in the order of their keys instead of the document's. The
/// errors are those of `write_value`.
#[cycle(write)]
fn write_members(alloc: Global, document: Document, mode: Mode) -> Result<Map<String, Value>, Error>
    ensures { WritesForm (λ m. members_view m.entries) result (members_written mode (content document) no_members) }
{
    let mut members = Map::new(alloc);
    for (key, value) in document.pairs.into_iter() {
        put_member(&mut members, key, write_value(alloc, value, mode)?)?;
    }
    Ok(members)
}

/// Puts a member where its key belongs in the order of keys; a value already under that key is dropped. The error is a
/// refused growth.
fn put_member(members: &mut Map<String, Value>, key: String, value: Value) -> Result<(), AllocError>
    ensures { OnOk result (members_view members.new.entries ≡ put (string_bytes key) (data_of value) (members_view members.old.entries)) }
{
    drop(members.insert(key, value)?);
    Ok(())
}

/// An object of one member. The error is a refused growth.
fn wrapped(alloc: Global, key: &str, value: Value) -> Result<Value, AllocError>
    ensures { IfOk result (λ v. data_of v ≡ object (json.member key.now (data_of value) no_members)) }
{
    let mut members = Map::new(alloc);
    serde_json::put(&mut members, alloc, key, value)?;
    Ok(Value::Object(members))
}

/// An object of one member whose value is a text. The error is a refused growth.
fn wrapped_text(alloc: Global, key: &str, text: String) -> Result<Value, AllocError>
    ensures { IfOk result (λ v. data_of v ≡ object (json.member key.now (json.string (string_bytes text)) no_members)) }
{
    wrapped(alloc, key, Value::String(text))
}

/// `{"$code": code, "$scope": scope}`. The error is a refused growth.
fn with_scope(alloc: Global, code: String, scope: Map<String, Value>) -> Result<Value, AllocError>
    ensures { IfOk result (λ v. data_of v ≡ with_scope_of (string_bytes code) (members_view scope.entries)) }
{
    let mut members = Map::new(alloc);
    serde_json::put(&mut members, alloc, "$code", Value::String(code))?;
    serde_json::put(&mut members, alloc, "$scope", Value::Object(scope))?;
    Ok(Value::Object(members))
}

/// Canonical: the decimal digits, with a minus if negative, under `$numberInt`; relaxed: a plain number (MongoDB
/// Extended JSON v2, "Conversion table"). The error is a refused growth.
fn write_i32(alloc: Global, number: i32, mode: Mode) -> Result<Value, AllocError>
    ensures { IfOk result (λ v. data_of v ≡ write_integer mode keys.of_int number) }
{
    match mode {
        Mode::Canonical => wrapped_text(alloc, "$numberInt", number.to_string(alloc)?),
        Mode::Relaxed => Ok(Value::from(number)),
    }
}

/// Canonical: the decimal digits, with a minus if negative, under `$numberLong`; relaxed: a plain number (MongoDB
/// Extended JSON v2, "Conversion table"). The error is a refused growth.
fn write_i64(alloc: Global, number: i64, mode: Mode) -> Result<Value, AllocError>
    ensures { IfOk result (λ v. data_of v ≡ write_integer mode keys.of_long number) }
{
    match mode {
        Mode::Canonical => wrapped_text(alloc, "$numberLong", number.to_string(alloc)?),
        Mode::Relaxed => Ok(Value::from(number)),
    }
}

/// What is under `$numberDouble` for a NaN, an infinity or a zero; None for any other double. A negative zero loses its
/// sign, and a NaN keeps nothing but its sign (MongoDB Extended JSON v2, "Conversion table").
pub fn double_text(double: DoubleBits) -> Option<&'static str>
    ensures { option_map (λ s. s.now) result ≡ double_text_of double.0 }
{
    let negative = double.is_negative();
    if double.is_nan() {
        Some(if negative { "-NaN" } else { "NaN" })
    } else if double.is_infinite() {
        Some(if negative { "-Infinity" } else { "Infinity" })
    } else if double.is_zero() {
        Some("0.0")
    } else {
        None
    }
}

/// The double under `$numberDouble`, in both modes. `FiniteDouble` if it is finite and not zero, `Memory` if a growth
/// was refused.
fn write_double(alloc: Global, double: DoubleBits) -> Result<Value, Error>
    ensures { WritesForm data_of result (double_written double.0) }
{
    match double_text(double) {
        Some(text) => Ok(wrapped_text(alloc, "$numberDouble", String::from_str(alloc, text)?)?),
        None => Err(Error::FiniteDouble),
    }
}

/// The 24 hexadecimal digits in lower case, under `$oid`. The error is a refused growth.
fn write_id(alloc: Global, id: ObjectId) -> Result<Value, AllocError>
    ensures { IfOk result (λ v. data_of v ≡ id_of (id_bytes id)) }
{
    wrapped_text(alloc, "$oid", id.to_hex(alloc)?)
}

/// The decimal text under `$numberDecimal`, in both modes. The error is a refused growth.
fn write_decimal(alloc: Global, decimal: Decimal128) -> Result<Value, AllocError>
    ensures { IfOk result (λ v. data_of v ≡ wrapped_text_of keys.of_decimal (decimal_text (decimal_bytes decimal))) }
{
    wrapped_text(alloc, "$numberDecimal", decimal.to_string(alloc)?)
}

/// The increment (`i`) and the seconds (`t`), both plain unsigned numbers of 32 bits, under `$timestamp`. The error is
/// a refused growth.
fn write_timestamp(alloc: Global, timestamp: Timestamp) -> Result<Value, AllocError>
    ensures { IfOk result (λ v. data_of v ≡ timestamp_of timestamp.time timestamp.increment) }
{
    let mut body = Map::new(alloc);
    serde_json::put(&mut body, alloc, "i", Value::from(timestamp.increment))?;
    serde_json::put(&mut body, alloc, "t", Value::from(timestamp.time))?;
    wrapped(alloc, "$timestamp", Value::Object(body))
}

/// The bytes in Base64 with padding (`base64`) and the subtype as two hexadecimal digits in lower case (`subType`),
/// under `$binary`; a UUID too is written so, never under `$uuid`. The error is a refused growth.
fn write_binary(alloc: Global, binary: Binary) -> Result<Value, AllocError>
    ensures { IfOk result (λ v. data_of v ≡ binary_of (subtype_byte binary.subtype) binary.bytes.items) }
{
    let subtype = hex::encode(alloc, &[u8::from(binary.subtype)][..])?;
    let text = STANDARD.encode(alloc, &binary.bytes)?;
    let mut body = Map::new(alloc);
    serde_json::put(&mut body, alloc, "base64", Value::String(text))?;
    serde_json::put(&mut body, alloc, "subType", Value::String(subtype))?;
    wrapped(alloc, "$binary", Value::Object(body))
}

/// The pattern, and the options sorted by their characters, under `$regularExpression`. The error is a refused growth.
fn write_regex(alloc: Global, regex: Regex) -> Result<Value, AllocError>
    ensures { IfOk result (λ v. data_of v ≡ regex_of (string_bytes regex.pattern) (string_bytes regex.options)) }
{
    let Regex { pattern, options } = Regex::new(alloc, regex.pattern, regex.options)?;
    let mut body = Map::new(alloc);
    serde_json::put(&mut body, alloc, "options", Value::String(options))?;
    serde_json::put(&mut body, alloc, "pattern", Value::String(pattern))?;
    wrapped(alloc, "$regularExpression", Value::Object(body))
}

/// The object id (`$id`, itself under `$oid`) and the namespace (`$ref`), under `$dbPointer`. The error is a refused
/// growth.
fn write_pointer(alloc: Global, pointer: DbPointer) -> Result<Value, AllocError>
    ensures { IfOk result (λ v. data_of v ≡ pointer_of (string_bytes pointer.namespace) (id_bytes pointer.id)) }
{
    let id = write_id(alloc, pointer.id)?;
    let mut body = Map::new(alloc);
    serde_json::put(&mut body, alloc, "$id", id)?;
    serde_json::put(&mut body, alloc, "$ref", Value::String(pointer.namespace))?;
    wrapped(alloc, "$dbPointer", Value::Object(body))
}

/// The body of a date that isn't a date text: milliseconds since 1970 in decimal, under `$numberLong`. The error is a
/// refused growth.
fn write_millis(alloc: Global, millis: i64) -> Result<Value, AllocError>
    ensures { IfOk result (λ v. data_of v ≡ millis_of_date millis) }
{
    wrapped_text(alloc, "$numberLong", millis.to_string(alloc)?)
}

/// Whether relaxed form has a moment as a text: from 1970 to 9999.
pub fn is_relaxed_date(millis: i64) -> bool
    ensures { result ≡ is_relaxed millis }
{
    0 <= millis && millis <= 253_402_300_799_999
}

/// The date text of a moment that relaxed form has as one. It fails only if a growth of memory was refused.
pub fn date_text(alloc: Global, moment: DateTime) -> Result<String, AllocError>
    requires { is_relaxed (millis_of moment) ≡ true }
    ensures { IfOk result (λ t. string_bytes t ≡ date_text_of (millis_of moment)) }
{
    match moment.try_to_rfc3339_string(alloc) {
        Ok(text) => Ok(text),
        Err(_) => Err(AllocError),
    }
}

/// What is under `$date`: a text of RFC 3339 in relaxed mode from 1970 to 9999, else the milliseconds since 1970 under
/// `$numberLong` (MongoDB Extended JSON v2, "Conversion table"). The error is a refused growth.
fn date_body(alloc: Global, moment: DateTime, mode: Mode) -> Result<Value, AllocError>
    ensures { IfOk result (λ v. data_of v ≡ body_of mode (millis_of moment)) }
{
    let millis = moment.timestamp_millis();
    if mode == Mode::Relaxed && is_relaxed_date(millis) {
        Ok(Value::String(date_text(alloc, moment)?))
    } else {
        write_millis(alloc, millis)
    }
}

/// A moment under `$date`, in the form that `date_body` chooses. The error is a refused growth.
fn write_date(alloc: Global, moment: DateTime, mode: Mode) -> Result<Value, AllocError>
    ensures { IfOk result (λ v. data_of v ≡ date_of mode (millis_of moment)) }
{
    let body = date_body(alloc, moment, mode)?;
    wrapped(alloc, "$date", body)
}
