//! Values with nothing inside.

ghost use Rattle.std.specs.Prelude.{ℕ, IfErr, IfOk, IsTrue, OnOk};
ghost use Rattle.bson_base.specs.Scalars.{id_bytes};
ghost use Rattle.bson_base.specs.Value.{Value, db_pointer, double as double_of, regex as regex_of, timestamp as timestamp_of};
ghost use Rattle.bson_raw.specs.Convert.{SpellsRawValue};
ghost use Rattle.bson_raw.specs.Raw.{ref_value};
ghost use Rattle.bson_json.specs.Added.{AddsLeaf, AddsScalar};
ghost use Rattle.bson_json.specs.Settling.{IsNoRegex, ShowsSettled};
ghost use Rattle.bson_json.specs.Straight.{IfUnseen, IsLeaf, IsStraight, IsStraightScalar};

use crate::parts::wrap_text;
use crate::scalars::{
    print_binary, print_bound, print_date, print_decimal, print_double, print_id, print_int,
    print_long, print_pointer, print_regex, print_timestamp, print_undefined,
};
use crate::stored;
use crate::style::Style;
use crate::unwritten::Unwritten;
use bson_model::{DoubleBits, Timestamp};
use bson_raw::{RawBsonRef, RawDbPointerRef, RawRegexRef};
use json::Writer;
use std::alloc::{AllocError, Global};

/// Writes a double. `Unseen` of one that has no text in this style.
fn print_double_in(out: &mut Writer, double: DoubleBits, style: Style) -> Result<(), Unwritten>
    ensures form { OnOk result (AddsScalar style (double_of double.0) out.old out.new) }
    ensures seen { IfErr result (IfUnseen (IsStraightScalar style (double_of double.0) → ⊥)) }
{
    match style {
        Style::Stored => stored::print_double(out, double),
        Style::Full(mode) => Ok(print_double(out, double, mode)?),
    }
}

/// Writes a regular expression.
fn print_regex_in(
    alloc: Global,
    out: &mut Writer,
    regex: RawRegexRef<'_>,
    style: Style,
) -> Result<(), AllocError>
    ensures { OnOk result (AddsScalar style (regex_of regex.entry.pattern.now regex.entry.options.now) out.old out.new) }
{
    match style {
        Style::Stored => stored::print_regex(alloc, out, regex.pattern, regex.options),
        Style::Full(_) => print_regex(alloc, out, regex.pattern, regex.options),
    }
}

/// Writes a timestamp.
fn print_timestamp_in(
    out: &mut Writer,
    timestamp: Timestamp,
    style: Style,
) -> Result<(), AllocError>
    ensures { OnOk result (AddsScalar style (timestamp_of timestamp.time timestamp.increment) out.old out.new) }
{
    match style {
        Style::Stored => stored::print_timestamp(out, timestamp),
        Style::Full(_) => print_timestamp(out, timestamp),
    }
}

/// Writes a pointer to a document of a collection.
fn print_pointer_in(
    out: &mut Writer,
    pointer: RawDbPointerRef<'_>,
    style: Style,
) -> Result<(), AllocError>
    ensures { OnOk result (AddsScalar style (db_pointer pointer.entry.namespace.now (id_bytes pointer.entry.id)) out.old out.new) }
{
    match style {
        Style::Stored => stored::print_pointer(out, pointer.namespace, &pointer.id),
        Style::Full(_) => print_pointer(out, pointer.namespace, &pointer.id),
    }
}

/// Writes a value with nothing inside. `Unseen` of a double that has no text in this style.
fn print_leaf(
    alloc: Global,
    value: RawBsonRef<'_>,
    style: Style,
    out: &mut Writer,
) -> Result<(), Unwritten>
    requires leaf { IsLeaf (ref_value value) }
    ensures form { OnOk result (AddsLeaf style (ref_value value.entry) out.old out.new) }
    ensures seen { IfErr result (IfUnseen ((inner : ℕ) (v : Value) → SpellsRawValue (ref_value value.entry) v
        → IsStraight style inner v → ⊥)) }
{
    let printed = match value {
        RawBsonRef::Double(double) => return print_double_in(out, double, style),
        RawBsonRef::String(text) => out.string(text),
        RawBsonRef::Boolean(truth) => out.boolean(truth),
        RawBsonRef::Null => out.null(),
        RawBsonRef::RegularExpression(regex) => print_regex_in(alloc, out, regex, style),
        RawBsonRef::JavaScriptCode(code) => wrap_text(out, "$code", code),
        RawBsonRef::Int32(number) => print_int(out, number, style.mode()),
        RawBsonRef::Int64(number) => print_long(out, number, style.mode()),
        RawBsonRef::Timestamp(timestamp) => print_timestamp_in(out, timestamp, style),
        RawBsonRef::Binary(bytes) => print_binary(alloc, out, &bytes.to_binary(alloc)?),
        RawBsonRef::ObjectId(id) => print_id(out, &id),
        RawBsonRef::DateTime(moment) => print_date(alloc, out, moment, style.mode()),
        RawBsonRef::Symbol(text) => wrap_text(out, "$symbol", text),
        RawBsonRef::Decimal128(decimal) => print_decimal(alloc, out, &decimal),
        RawBsonRef::Undefined => print_undefined(out),
        RawBsonRef::MaxKey => print_bound(out, "$maxKey"),
        RawBsonRef::MinKey => print_bound(out, "$minKey"),
        RawBsonRef::DbPointer(pointer) => print_pointer_in(out, pointer, style),
        RawBsonRef::Document(_) | RawBsonRef::Array(_) | RawBsonRef::JavaScriptCodeWithScope(_) => {
            unreachable!()
        }
    };
    Ok(printed?)
}

/// Whether a value is no regular expression, whose options may be out of order.
fn is_no_regex(value: &RawBsonRef<'_>) -> bool
    ensures { IsTrue result → IsNoRegex value.now }
{
    !matches!(value, RawBsonRef::RegularExpression(_))
}

/// Writes a value with nothing inside, and returns whether it is known that nothing of it is to be settled. `Unseen` of
/// a double that has no text in this style.
pub(crate) fn print_settled_leaf(
    alloc: Global,
    value: RawBsonRef<'_>,
    style: Style,
    out: &mut Writer,
) -> Result<bool, Unwritten>
    requires leaf { IsLeaf (ref_value value) }
    ensures form { OnOk result (AddsLeaf style (ref_value value.entry) out.old out.new) }
    ensures settled { IfOk result (λ is_settled. IsTrue is_settled → ShowsSettled (ref_value value.entry)) }
    ensures seen { IfErr result (IfUnseen ((inner : ℕ) (v : Value) → SpellsRawValue (ref_value value.entry) v
        → IsStraight style inner v → ⊥)) }
{
    match print_leaf(alloc, value, style, out) {
        Ok(()) => Ok(is_no_regex(&value)),
        Err(unwritten) => Err(unwritten),
    }
}
