//! Values read from payloads.

ghost use Rattle.std.specs.Prelude.{◌≡◌, MatchResult};
ghost use Rattle.bson_base.specs.declared.spec.ElementType.TheVariants as kinds;
ghost use Rattle.bson_frame.specs.Payload.{IsEnvelope};
ghost use Rattle.bson_frame.specs.declared.error.ErrorKind.TheVariants.{MalformedValue};
ghost use Rattle.bson_raw.specs.ReadValue.{Decodes};
ghost use Rattle.bson_raw.specs.View.{bytes_of};

use crate::array::RawArray;
use crate::bson_ref::{
    RawBinaryRef, RawBsonRef, RawDbPointerRef, RawJavaScriptCodeWithScopeRef, RawRegexRef,
};
use crate::document::RawDocument;
use bson_base::{
    BinarySubtype, DateTime, Decimal128, DoubleBits, ElementType, ObjectId, Timestamp,
};
use bson_frame::{ErrorKind, name_at, text_at};

/// Eight bytes, little endian: the bits of a double (BSON specification 1.1, "double"; IEEE 754-2008, binary64).
/// `MalformedValue` for another number of bytes.
fn double(payload: &[u8]) -> Result<RawBsonRef<'_>, ErrorKind>
    ensures { Decodes kinds.Double payload.now result }
{
    let bytes = <[u8; 8]>::try_from(payload)
        .ok()
        .ok_or(ErrorKind::MalformedValue)?;
    Ok(RawBsonRef::Double(DoubleBits::from_bits(u64::from_le_bytes(bytes))))
}

/// A text: its length in four bytes, little endian, which counts the 00 at its end, then the text and the 00 (BSON
/// specification 1.1, "string"). `MalformedValue` if the length is 0, negative or more than is there, or the 00 is
/// missing; `Utf8EncodingError` if the text isn't UTF-8.
fn string(payload: &[u8]) -> Result<RawBsonRef<'_>, ErrorKind>
    ensures { Decodes kinds.String payload.now result }
{
    let (text, _) = text_at(payload)?;
    Ok(RawBsonRef::String(text))
}

/// Code without a scope, laid out as a string is, with the errors of `string`.
fn javascript(payload: &[u8]) -> Result<RawBsonRef<'_>, ErrorKind>
    ensures { Decodes kinds.JavaScriptCode payload.now result }
{
    let (text, _) = text_at(payload)?;
    Ok(RawBsonRef::JavaScriptCode(text))
}

/// A symbol, laid out as a string is, with the errors of `string`.
fn symbol(payload: &[u8]) -> Result<RawBsonRef<'_>, ErrorKind>
    ensures { Decodes kinds.Symbol payload.now result }
{
    let (text, _) = text_at(payload)?;
    Ok(RawBsonRef::Symbol(text))
}

/// The document that a payload is, or the kind of its fault.
fn document_at(payload: &[u8]) -> Result<RawDocument<'_>, ErrorKind>
    ensures { MatchResult result (λ d. bytes_of d ≡ payload.now) (λ k. (IsEnvelope payload.now → ⊥) × (k ≡ MalformedValue)) }
{
    RawDocument::from_bytes(payload).map_err(|e| e.kind)
}

/// A document, whose elements aren't looked at. `MalformedValue` if the payload isn't at least 5 bytes, doesn't declare
/// its own number of bytes or doesn't end in 00 (BSON specification 1.1, "document").
fn document(payload: &[u8]) -> Result<RawBsonRef<'_>, ErrorKind>
    ensures { Decodes kinds.EmbeddedDocument payload.now result }
{
    Ok(RawBsonRef::Document(document_at(payload)?))
}

/// An array, laid out as a document is, with the errors of `document`. Its keys, which should be 0, 1, 2 and so on in
/// decimal, aren't looked at (BSON specification 1.1, "element").
fn array(payload: &[u8]) -> Result<RawBsonRef<'_>, ErrorKind>
    ensures { Decodes kinds.Array payload.now result }
{
    let document = document_at(payload)?;
    Ok(RawBsonRef::Array(RawArray { document }))
}

/// One byte: 00 for false, 01 for true (BSON specification 1.1, "element"). `MalformedValue` for anything else.
fn boolean(payload: &[u8]) -> Result<RawBsonRef<'_>, ErrorKind>
    ensures { Decodes kinds.Boolean payload.now result }
{
    match payload {
        [0] => Ok(RawBsonRef::Boolean(false)),
        [1] => Ok(RawBsonRef::Boolean(true)),
        _ => Err(ErrorKind::MalformedValue),
    }
}

/// The 12 bytes of an object id, in their order. `MalformedValue` for another number of bytes.
fn object_id(payload: &[u8]) -> Result<RawBsonRef<'_>, ErrorKind>
    ensures { Decodes kinds.ObjectId payload.now result }
{
    let bytes = <[u8; 12]>::try_from(payload)
        .ok()
        .ok_or(ErrorKind::MalformedValue)?;
    Ok(RawBsonRef::ObjectId(ObjectId::from_bytes(bytes)))
}

/// The 16 bytes of a decimal, little endian, kept as they are (BSON specification 1.1, "decimal128"). `MalformedValue`
/// for another number of bytes.
fn decimal128(payload: &[u8]) -> Result<RawBsonRef<'_>, ErrorKind>
    ensures { Decodes kinds.Decimal128 payload.now result }
{
    let bytes = <[u8; 16]>::try_from(payload)
        .ok()
        .ok_or(ErrorKind::MalformedValue)?;
    Ok(RawBsonRef::Decimal128(Decimal128::from_bytes(bytes)))
}

/// A signed number in four bytes, little endian (BSON specification 1.1, "int32"). `MalformedValue` for another number
/// of bytes.
fn int32(payload: &[u8]) -> Result<RawBsonRef<'_>, ErrorKind>
    ensures { Decodes kinds.Int32 payload.now result }
{
    let bytes = <[u8; 4]>::try_from(payload)
        .ok()
        .ok_or(ErrorKind::MalformedValue)?;
    Ok(RawBsonRef::Int32(i32::from_le_bytes(bytes)))
}

/// A signed number in eight bytes, little endian (BSON specification 1.1, "int64"). `MalformedValue` for another number
/// of bytes.
fn int64(payload: &[u8]) -> Result<RawBsonRef<'_>, ErrorKind>
    ensures { Decodes kinds.Int64 payload.now result }
{
    let bytes = <[u8; 8]>::try_from(payload)
        .ok()
        .ok_or(ErrorKind::MalformedValue)?;
    Ok(RawBsonRef::Int64(i64::from_le_bytes(bytes)))
}

/// Milliseconds since 1970-01-01 00:00 UTC, signed, in eight bytes, little endian (BSON specification 1.1, "element").
/// `MalformedValue` for another number of bytes.
fn date_time(payload: &[u8]) -> Result<RawBsonRef<'_>, ErrorKind>
    ensures { Decodes kinds.DateTime payload.now result }
{
    let bytes = <[u8; 8]>::try_from(payload)
        .ok()
        .ok_or(ErrorKind::MalformedValue)?;
    let millis = i64::from_le_bytes(bytes);
    Ok(RawBsonRef::DateTime(DateTime::from_millis(millis)))
}

/// The increment in the first four bytes and the seconds in the last four, both unsigned and little endian (BSON
/// specification 1.1, "element"). `MalformedValue` for any number of bytes but eight.
fn timestamp(payload: &[u8]) -> Result<RawBsonRef<'_>, ErrorKind>
    ensures { Decodes kinds.Timestamp payload.now result }
{
    let [a, b, c, d, e, f, g, h] = payload else {
        return Err(ErrorKind::MalformedValue);
    };
    Ok(RawBsonRef::Timestamp(Timestamp {
        increment: u32::from_le_bytes([*a, *b, *c, *d]),
        time: u32::from_le_bytes([*e, *f, *g, *h]),
    }))
}

/// A namespace, laid out as a string is, with the errors of `string`, and the 12 bytes of an object id.
/// `MalformedValue` if another number of bytes follows the namespace.
fn db_pointer(payload: &[u8]) -> Result<RawBsonRef<'_>, ErrorKind>
    ensures { Decodes kinds.DbPointer payload.now result }
{
    let (namespace, rest) = text_at(payload)?;
    let bytes = <[u8; 12]>::try_from(rest)
        .ok()
        .ok_or(ErrorKind::MalformedValue)?;
    let id = ObjectId::from_bytes(bytes);
    Ok(RawBsonRef::DbPointer(RawDbPointerRef { namespace, id }))
}

/// The bytes after four of length, which aren't looked at, and one of subtype; those of an old binary (02) without
/// their inner length of four bytes, little endian (BSON specification 1.1, "binary"). `MalformedValue` if the payload
/// has fewer than 5 bytes, and if the inner length isn't there or isn't the number of bytes after it.
fn binary(payload: &[u8]) -> Result<RawBsonRef<'_>, ErrorKind>
    ensures { Decodes kinds.Binary payload.now result }
{
    // Four bytes of length, and one of the subtype.
    if payload.len() < 5 {
        return Err(ErrorKind::MalformedValue);
    }
    let (front, bytes) = payload.split_at(5);
    let subtype = BinarySubtype::from(front[4]);
    // The old binary has its length once more inside, in four bytes.
    if front[4] != 2 {
        return Ok(RawBsonRef::Binary(RawBinaryRef { subtype, bytes }));
    }
    let [a, b, c, d, ..] = bytes else {
        return Err(ErrorKind::MalformedValue);
    };
    let (_, inside) = bytes.split_at(4);
    if u32::from_le_bytes([*a, *b, *c, *d]) as usize != inside.len() {
        return Err(ErrorKind::MalformedValue);
    }
    Ok(RawBsonRef::Binary(RawBinaryRef {
        subtype,
        bytes: inside,
    }))
}

/// Code and the bytes of its scope, after four bytes of length, which aren't looked at (BSON specification 1.1,
/// "code_w_s"). `MalformedValue` for fewer than 14 bytes; else the errors of `string` for the code, and of `document`
/// for the scope.
fn code_with_scope(payload: &[u8]) -> Result<RawBsonRef<'_>, ErrorKind>
    ensures { Decodes kinds.JavaScriptCodeWithScope payload.now result }
{
    // Its length, the length and the 00 of a text without a byte, and a document without an element: 4, 5 and 5 bytes.
    if payload.len() < 14 {
        return Err(ErrorKind::MalformedValue);
    }
    let (_, parts) = payload.split_at(4);
    let (code, scope) = text_at(parts)?;
    let scope = document_at(scope)?;
    Ok(RawBsonRef::JavaScriptCodeWithScope(RawJavaScriptCodeWithScopeRef { code, scope }))
}

/// A pattern and its options, which keep their order, each ended by a 00 (BSON specification 1.1, "cstring").
/// `Utf8EncodingError` if one isn't UTF-8, `MalformedValue` if a 00 is missing.
fn regex(payload: &[u8]) -> Result<RawBsonRef<'_>, ErrorKind>
    ensures { Decodes kinds.RegularExpression payload.now result }
{
    bson_frame::laws::one_name();
    let (pattern, rest) = match name_at(payload) {
        Ok(parts) => parts,
        Err(kind) => return Err(kind),
    };
    match name_at(rest) {
        Ok((options, _)) => Ok(RawBsonRef::RegularExpression(RawRegexRef { pattern, options })),
        Err(kind) => Err(kind),
    }
}

/// The value of a payload, or the kind of its fault.
pub(crate) fn value_of(tag: ElementType, payload: &[u8]) -> Result<RawBsonRef<'_>, ErrorKind>
    ensures { Decodes tag payload.now result }
{
    match tag {
        ElementType::Double => double(payload),
        ElementType::String => string(payload),
        ElementType::EmbeddedDocument => document(payload),
        ElementType::Array => array(payload),
        ElementType::Binary => binary(payload),
        ElementType::Undefined => Ok(RawBsonRef::Undefined),
        ElementType::ObjectId => object_id(payload),
        ElementType::Boolean => boolean(payload),
        ElementType::DateTime => date_time(payload),
        ElementType::Null => Ok(RawBsonRef::Null),
        ElementType::RegularExpression => regex(payload),
        ElementType::DbPointer => db_pointer(payload),
        ElementType::JavaScriptCode => javascript(payload),
        ElementType::Symbol => symbol(payload),
        ElementType::JavaScriptCodeWithScope => code_with_scope(payload),
        ElementType::Int32 => int32(payload),
        ElementType::Timestamp => timestamp(payload),
        ElementType::Int64 => int64(payload),
        ElementType::Decimal128 => decimal128(payload),
        ElementType::MaxKey => Ok(RawBsonRef::MaxKey),
        ElementType::MinKey => Ok(RawBsonRef::MinKey),
    }
}
