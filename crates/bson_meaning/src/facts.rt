//! Facts: that values are sound, as their numbers and texts are those of their kinds, and no key occurs twice. The
//! contracts are the facts. `soundness` and what it calls go through the value when they run; the others do nothing.

ghost use Rattle.std.specs.Prelude.{◌≡◌, ◌<◌, ◌^◌, map, length, FitsSigned, IsUtf8};
ghost use Rattle.std.specs.Int.{w32, w64};
ghost use Rattle.bson_base.specs.Kinds.{AreBytes, IsRangedScalar, IsSound};
ghost use Rattle.bson_base.specs.Value.{document as tree, EachItem, EachMember, EachPart};
ghost use Rattle.bson_meaning.specs.Sames.{IsScalar};
ghost use Rattle.bson_model.specs.View.{view, items_of, content};

use bson_model::{Bson, Document};

/// A value is sound. It goes through the whole value.
pub fn soundness(value: &Bson)
    ensures { IsSound (view value.now) }
{
    bson_model::laws::distinct_keys(value);
    ranged_value(value);
}

/// A document is sound. It goes through the whole document.
pub fn soundness_of_document(document: &Document)
    ensures { IsSound (tree (content document.now)) }
{
    bson_model::laws::distinct_keys_of_document(document);
    ranged_members(document);
}

/// Each number in a value fits the width of its kind, and each key and text is UTF-8. It goes through the whole value.
#[cycle(ranged)]
fn ranged_value(value: &Bson)
    ensures { EachPart IsUtf8 IsRangedScalar (view value.now) }
{
    match value {
        Bson::Array(items) => ranged_items(items.as_slice()),
        Bson::Document(document) => ranged_members(document),
        Bson::JavaScriptCodeWithScope(code) => {
            is_utf8(code.code.as_str());
            ranged_members(&code.scope);
        }
        _ => ranged_scalar(value),
    }
}

/// What `ranged_value` says holds for each item of an array.
#[cycle(ranged)]
fn ranged_items(items: &[Bson])
    ensures { EachItem IsUtf8 IsRangedScalar (items_of (map view items.now)) }
{
    for item in items {
        ranged_value(item);
    }
}

/// The keys of a document are UTF-8, and what `ranged_value` says holds for each of its values.
#[cycle(ranged)]
fn ranged_members(document: &Document)
    ensures { EachMember IsUtf8 IsRangedScalar (content document.now) }
{
    for (key, value) in document {
        is_utf8(key.as_str());
        ranged_value(value);
    }
}

/// What `ranged_value` says holds for a value that is no array, document or code with scope.
pub(crate) fn ranged_scalar(value: &Bson)
    requires { IsScalar (view value.now) }
    ensures { EachPart IsUtf8 IsRangedScalar (view value.now) }
{
    match value {
        Bson::Double(x) => fits_64_bits(x.to_bits()),
        Bson::String(x) | Bson::JavaScriptCode(x) | Bson::Symbol(x) => is_utf8(x.as_str()),
        Bson::Int32(x) => fits_signed_32_bits(*x),
        Bson::Int64(x) => fits_signed_64_bits(*x),
        Bson::DateTime(x) => fits_signed_64_bits(x.timestamp_millis()),
        Bson::Timestamp(x) => {
            fits_32_bits(x.time);
            fits_32_bits(x.increment);
        }
        Bson::Binary(x) => {
            fits_8_bits(u8::from(x.subtype));
            are_bytes(x.bytes.as_slice());
        }
        Bson::ObjectId(x) => are_12_bytes(x.bytes()),
        Bson::Decimal128(x) => are_16_bytes(x.bytes()),
        Bson::RegularExpression(x) => {
            is_utf8(x.pattern.as_str());
            is_utf8(x.options.as_str());
        }
        Bson::DbPointer(x) => {
            is_utf8(x.namespace.as_str());
            are_12_bytes(x.id.bytes());
        }
        _ => (),
    }
}

/// A text is UTF-8. It does nothing when it runs.
pub(crate) fn is_utf8(text: &str)
    ensures { IsUtf8 text.now }
{
    let _ = text;
}

/// A 64-bit unsigned number is under 2⁶⁴.
fn fits_64_bits(bits: u64)
    ensures { bits < 2 ^ 64 }
{
    let _ = bits;
}

/// A 32-bit unsigned number is under 2³².
fn fits_32_bits(number: u32)
    ensures { number < 2 ^ 32 }
{
    let _ = number;
}

/// A byte is under 256.
fn fits_8_bits(byte: u8)
    ensures { byte < 256 }
{
    let _ = byte;
}

/// A 32-bit signed number is at least -2³¹ and under 2³¹.
fn fits_signed_32_bits(number: i32)
    ensures { FitsSigned w32 number }
{
    let _ = number;
}

/// A 64-bit signed number is at least -2⁶³ and under 2⁶³.
fn fits_signed_64_bits(number: i64)
    ensures { FitsSigned w64 number }
{
    let _ = number;
}

/// Each number of a slice of bytes is under 256.
fn are_bytes(bytes: &[u8])
    ensures { AreBytes bytes.now }
{
    let _ = bytes;
}

/// The bytes of an object id are 12, each under 256.
fn are_12_bytes(id: [u8; 12])
    ensures length { length id ≡ 12 }
    ensures bytes { AreBytes id }
{
    are_bytes(&id);
}

/// The bytes of a decimal are 16, each under 256.
fn are_16_bytes(decimal: [u8; 16])
    ensures length { length decimal ≡ 16 }
    ensures bytes { AreBytes decimal }
{
    are_bytes(&decimal);
}
