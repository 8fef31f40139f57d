//! The bodies under reserved keys, except for the scope of a code.
ghost use Rattle.std.specs.Prelude.{◌≡◌, if◌then◌else◌, string_bytes, Ok, Err};
ghost use Rattle.serde_json.specs.Find.{as_i64};
ghost use Rattle.serde_json.specs.View.{view as data_of, number_view, members_view};
ghost use Rattle.bson_base.specs.DateText.{date_of};
ghost use Rattle.bson_base.specs.Scalars.{id_bytes, millis_of, decimal_bytes};
ghost use Rattle.bson_base.specs.Value.{binary};
ghost use Rattle.bson_model.specs.View.{view};
ghost use Rattle.bson_model.specs.JsonKeys.{reserved_of};
ghost use Rattle.bson_model.specs.JsonWrappers.{reserved_key};
ghost use Rattle.bson_model.specs.declared.extjson.de.Error.TheVariants.{DeserializationError};
ghost use Rattle.bson_model.specs.JsonRead.{ok_or_error, GivesReading, base64_body, binary_body, bodies_under as both_of, byte_body as byte_of, read_date_body, decimal_body, double_body as double_of, id_body, int_body as int_of, is_one as one_of, is_true as true_of, long_body as long_of, bodies_in, pointer_body, read_body as body_read, read_wrapped as wrapped_of, regex_body, scalar_of, single, text_of as spec_text, timestamp_body, u32_from, u32_of, under as under_of, uuid_body, some_or_error};

use super::keys::{Wrapper, wrapper_of};
use super::texts::{read_byte, read_double, read_int, read_long};
use super::{Error, Result};
use crate::bson::Bson;
use bson_base::{
    Binary, BinarySubtype, DateTime, DbPointer, Decimal128, DoubleBits, ObjectId, Regex, Timestamp,
    Uuid, binary,
};
use serde_json::{Map, Number, Value};
use std::alloc::Global;

/// The text that a tree is; `DeserializationError` if it is anything but a JSON string.
pub(super) fn text_of(value: Value) -> Result<String>
    ensures { GivesReading (λ t. string_bytes t) result (spec_text (data_of value)) }
{
    match value {
        Value::String(text) => Ok(text),
        _ => Err(Error::DeserializationError),
    }
}

/// The body of an object with this key alone; `DeserializationError` if it has other keys or none.
fn single(members: Map<String, Value>, key: &str) -> Result<Value>
    ensures { GivesReading (λ v. data_of v) result (single key.now (members_view members.entries)) }
{
    let mut entries = members.into_iter();
    let Some((first, value)) = entries.next() else {
        return Err(Error::DeserializationError);
    };
    if entries.next().is_some() {
        return Err(Error::DeserializationError);
    }
    if first.as_str() == key {
        Ok(value)
    } else {
        Err(Error::DeserializationError)
    }
}

/// The body of a tree that is an object with this key alone; `DeserializationError` if it is anything else.
fn under(value: Value, key: &str) -> Result<Value>
    ensures { GivesReading (λ v. data_of v) result (under_of key.now (data_of value)) }
{
    match value {
        Value::Object(members) => single(members, key),
        _ => Err(Error::DeserializationError),
    }
}

/// The bodies of an object with these two keys alone, the first one below the second; `DeserializationError` if it has
/// other keys.
pub(super) fn pair(members: Map<String, Value>, first: &str, second: &str) -> Result<(Value, Value)>
    ensures { GivesReading (λ p. (data_of p.0, data_of p.1)) result (bodies_in first.now second.now (members_view members.entries)) }
{
    let mut entries = members.into_iter();
    let Some((key, value)) = entries.next() else {
        return Err(Error::DeserializationError);
    };
    let Some((other_key, other)) = entries.next() else {
        return Err(Error::DeserializationError);
    };
    if entries.next().is_some() {
        return Err(Error::DeserializationError);
    }
    if key.as_str() == first && other_key.as_str() == second {
        Ok((value, other))
    } else {
        Err(Error::DeserializationError)
    }
}

/// The bodies of a tree that is an object with these two keys alone, the first one below the second in the order of
/// keys; `DeserializationError` if it is anything else.
fn both(value: Value, first: &str, second: &str) -> Result<(Value, Value)>
    ensures { GivesReading (λ p. (data_of p.0, data_of p.1)) result (both_of first.now second.now (data_of value)) }
{
    match value {
        Value::Object(members) => pair(members, first, second),
        _ => Err(Error::DeserializationError),
    }
}

/// The body of `$oid`: 24 hexadecimal digits in either case. `DeserializationError` if it is no text, `InvalidObjectId`
/// if the text is no object id.
fn object_id(value: Value) -> Result<ObjectId>
    ensures { GivesReading (λ i. id_bytes i) result (id_body (data_of value)) }
{
    let text = text_of(value)?;
    Ok(ObjectId::parse_str(&text)?)
}

/// The body of `$regularExpression`: the texts `options`, which are sorted by their characters, and `pattern`.
/// `DeserializationError` if it has another form, `Memory` if a growth was refused.
fn regex(alloc: Global, value: Value) -> Result<Regex>
    ensures { GivesReading (λ r. (string_bytes r.pattern, string_bytes r.options)) result (regex_body (data_of value)) }
{
    let (options, pattern) = both(value, "options", "pattern")?;
    let options = text_of(options)?;
    let pattern = text_of(pattern)?;
    Ok(Regex::new(alloc, pattern, options)?)
}

/// The body of `$numberInt`: a text of decimal digits, perhaps after a sign. `DeserializationError` if it is anything
/// else, also a plain number, or out of the range of 32 signed bits.
fn int(value: Value) -> Result<i32>
    ensures { GivesReading (λ z. z) result (int_of (data_of value)) }
{
    let text = text_of(value)?;
    read_int(&text).ok_or(Error::DeserializationError)
}

/// The body of `$numberLong`: a text of decimal digits, perhaps after a sign. `DeserializationError` if it is anything
/// else, also a plain number, or out of the range of 64 signed bits.
fn long(value: Value) -> Result<i64>
    ensures { GivesReading (λ z. z) result (long_of (data_of value)) }
{
    let text = text_of(value)?;
    read_long(&text).ok_or(Error::DeserializationError)
}

/// The body of `$numberDouble`: a NaN, an infinity or a zero, as its 64 bits (IEEE 754, binary64). `FiniteDouble` if it
/// is a numeral other than zero, `DeserializationError` if it is anything else.
fn double(value: Value) -> Result<u64>
    ensures { GivesReading (λ n. n) result (double_of (data_of value)) }
{
    let text = text_of(value)?;
    read_double(&text)
}

/// The body of `$numberDecimal`. `DeserializationError` if it is no text, or none that `Decimal128` reads.
fn decimal(value: Value) -> Result<Decimal128>
    ensures { GivesReading (λ d. decimal_bytes d) result (decimal_body (data_of value)) }
{
    let text = text_of(value)?;
    text.parse::<Decimal128>()
        .ok()
        .ok_or(Error::DeserializationError)
}

/// The subtype of a `$binary`: a text of exactly two hexadecimal digits, else `DeserializationError`.
fn byte(value: Value) -> Result<u8>
    ensures { GivesReading (λ b. b) result (byte_of (data_of value)) }
{
    let text = text_of(value)?;
    read_byte(&text).ok_or(Error::DeserializationError)
}

/// The bytes of a tree that is a text in Base64 with padding (RFC 4648, section 4). `DeserializationError` if it is
/// none, `Memory` if a growth was refused.
fn bytes(alloc: Global, value: Value, subtype: BinarySubtype) -> Result<Binary>
    ensures { GivesReading (λ b. binary b.subtype b.bytes.items) result (base64_body subtype (data_of value)) }
{
    let text = text_of(value)?;
    match Binary::from_base64(alloc, &text, Some(subtype)) {
        Ok(binary) => Ok(binary),
        Err(binary::Error::Memory) => Err(Error::Memory),
        Err(_) => Err(Error::DeserializationError),
    }
}

/// The body of `$binary`: `base64` and `subType`, of which the subtype is judged first. `DeserializationError` if it
/// has another form, `Memory` if a growth was refused.
fn binary_value(alloc: Global, value: Value) -> Result<Binary>
    ensures { GivesReading (λ b. binary b.subtype b.bytes.items) result (binary_body (data_of value)) }
{
    let (base64, subtype) = both(value, "base64", "subType")?;
    let subtype = BinarySubtype::from(byte(subtype)?);
    bytes(alloc, base64, subtype)
}

/// The body of `$uuid`, as 16 bytes of subtype 04: any text that `Uuid::parse_str` reads. `DeserializationError` if it
/// is none, `Memory` if a growth was refused.
fn uuid(alloc: Global, value: Value) -> Result<Binary>
    ensures { GivesReading (λ b. binary b.subtype b.bytes.items) result (uuid_body (data_of value)) }
{
    let text = text_of(value)?;
    let uuid = Uuid::parse_str(&text)
        .ok()
        .ok_or(Error::DeserializationError)?;
    Ok(Binary::from_uuid(alloc, uuid)?)
}

/// The number in 32 unsigned bits; None for a negative number, a larger one and any double.
fn u32_from(n: Number) -> Option<u32>
    ensures { result ≡ u32_from (number_view n) }
{
    let n = n.as_u64()?;
    if n <= u32::MAX as u64 {
        Some(n as u32)
    } else {
        None
    }
}

/// A part of a `$timestamp`: a plain JSON number that fits 32 unsigned bits, else `DeserializationError`.
fn unsigned(value: Value) -> Result<u32>
    ensures { GivesReading (λ n. n) result (u32_of (data_of value)) }
{
    let Value::Number(n) = value else {
        return Err(Error::DeserializationError);
    };
    u32_from(n).ok_or(Error::DeserializationError)
}

/// The body of `$timestamp`: the increment (`i`) and the seconds (`t`), plain unsigned numbers of 32 bits.
/// `DeserializationError` if it has another form.
fn timestamp(value: Value) -> Result<Timestamp>
    ensures { GivesReading (λ t. (t.time, t.increment)) result (timestamp_body (data_of value)) }
{
    let (increment, time) = both(value, "i", "t")?;
    let increment = unsigned(increment)?;
    let time = unsigned(time)?;
    Ok(Timestamp { time, increment })
}

/// The moment of a date text (RFC 3339), cut to milliseconds; `DeserializationError` if the text is none.
fn date_of_text(text: &str) -> Result<DateTime>
    ensures { GivesReading (λ d. millis_of d) result (ok_or_error (date_of text.now)) }
{
    DateTime::parse_rfc3339_str(text)
        .ok()
        .ok_or(Error::DeserializationError)
}

/// The moment of a plain number of milliseconds since 1970; `DeserializationError` if the number is no signed integer
/// of 64 bits.
fn date_of_number(n: Number) -> Result<DateTime>
    ensures { GivesReading (λ d. millis_of d) result (some_or_error (as_i64 (number_view n))) }
{
    match n.as_i64() {
        Some(millis) => Ok(DateTime::from_millis(millis)),
        None => Err(Error::DeserializationError),
    }
}

/// The body of `$date`: a date text (RFC 3339), or milliseconds since 1970 as a plain number or under `$numberLong`.
/// `DeserializationError` if it has another form.
fn date(value: Value) -> Result<DateTime>
    ensures { GivesReading (λ d. millis_of d) result (read_date_body (data_of value)) }
{
    match value {
        Value::String(text) => date_of_text(&text),
        Value::Number(n) => date_of_number(n),
        Value::Object(members) => {
            let millis = long(single(members, "$numberLong")?)?;
            Ok(DateTime::from_millis(millis))
        }
        _ => Err(Error::DeserializationError),
    }
}

/// The body of `$dbPointer`: the object id (`$id`, itself under `$oid`), and the namespace (`$ref`). `InvalidObjectId`
/// if the text under `$oid` is no object id, `DeserializationError` if the body has another form.
fn pointer(value: Value) -> Result<DbPointer>
    ensures { GivesReading (λ p. (string_bytes p.namespace, id_bytes p.id)) result (pointer_body (data_of value)) }
{
    let (id, namespace) = both(value, "$id", "$ref")?;
    let id = object_id(under(id, "$oid")?)?;
    let namespace = text_of(namespace)?;
    Ok(DbPointer::new(namespace, id))
}

/// Whether the body of `$minKey` or `$maxKey` is right: the integer 1; 1.0 isn't.
fn is_one(value: Value) -> bool
    ensures { result ≡ one_of (data_of value) }
{
    match value {
        Value::Number(n) => n.as_u64() == Some(1),
        _ => false,
    }
}

/// Whether the body of `$undefined` is right: it must be true.
fn is_true(value: Value) -> bool
    ensures { result ≡ true_of (data_of value) }
{
    match value {
        Value::Bool(truth) => truth,
        _ => false,
    }
}

/// The value of a key that stands for one value alone, if its body is right; `DeserializationError` if it isn't.
fn constant(is_right: bool, constant: Bson) -> Result<Bson>
    ensures { GivesReading view result (if is_right then Ok (view constant) else Err DeserializationError) }
{
    if is_right {
        Ok(constant)
    } else {
        Err(Error::DeserializationError)
    }
}

/// The value of a body under the key of `wrapper`, which is the only key of its object (MongoDB Extended JSON v2,
/// "Conversion table"). The errors are `InvalidObjectId`, `FiniteDouble`, `Memory` and, for any other form,
/// `DeserializationError`.
fn read_body(alloc: Global, wrapper: Wrapper, value: Value) -> Result<Bson>
    ensures { GivesReading view result (scalar_of (body_read (reserved_key wrapper) (data_of value))) }
{
    match wrapper {
        Wrapper::Oid => Ok(Bson::ObjectId(object_id(value)?)),
        Wrapper::Symbol => Ok(Bson::Symbol(text_of(value)?)),
        Wrapper::RegularExpression => Ok(Bson::RegularExpression(regex(alloc, value)?)),
        Wrapper::NumberInt => Ok(Bson::Int32(int(value)?)),
        Wrapper::NumberLong => Ok(Bson::Int64(long(value)?)),
        Wrapper::NumberDouble => Ok(Bson::Double(DoubleBits::from_bits(double(value)?))),
        Wrapper::NumberDecimal => Ok(Bson::Decimal128(decimal(value)?)),
        Wrapper::Binary => Ok(Bson::Binary(binary_value(alloc, value)?)),
        Wrapper::Uuid => Ok(Bson::Binary(uuid(alloc, value)?)),
        Wrapper::Code => Ok(Bson::JavaScriptCode(text_of(value)?)),
        Wrapper::Timestamp => Ok(Bson::Timestamp(timestamp(value)?)),
        Wrapper::Date => Ok(Bson::DateTime(date(value)?)),
        Wrapper::MinKey => constant(is_one(value), Bson::MinKey),
        Wrapper::MaxKey => constant(is_one(value), Bson::MaxKey),
        Wrapper::DbPointer => Ok(Bson::DbPointer(pointer(value)?)),
        Wrapper::Undefined => constant(is_true(value), Bson::Undefined),
    }
}

/// The value of a wrapper with one key.
// What it keeps on the stack stays out of the frames of `read`, which calls itself for each level.
#[inline(never)]
pub(super) fn read_wrapped(alloc: Global, key: &str, value: Value) -> Result<Bson>
    ensures { GivesReading view result (wrapped_of (reserved_of key.now) (data_of value)) }
{
    match wrapper_of(key) {
        Some(wrapper) => read_body(alloc, wrapper, value),
        None => Err(Error::DeserializationError),
    }
}
