//! The kinds of values that a getter may ask for.

ghost use Rattle.std.specs.Prelude.{Option};
ghost use Rattle.bson_raw.specs.ReadValue.{as_f64, as_str, as_document, as_array, as_binary, as_object_id, as_bool, as_datetime, as_regex, as_timestamp, as_i32, as_i64};
ghost use Rattle.bson_raw.specs.declared.bson_ref.RawBsonRef.{RawBsonRef as AnyValue};

use crate::array::RawArray;
use crate::bson_ref::{RawBinaryRef, RawRegexRef};
use crate::document::RawDocument;
use bson_base::{DateTime, DoubleBits, ObjectId, Timestamp};

/// What a value of one kind holds.
pub(crate) trait OfKind {
    ghost as_kind: { AnyValue → Option Self };
}

impl OfKind for DoubleBits {
    ghost as_kind = { as_f64 };
}

impl OfKind for &str {
    ghost as_kind = { as_str };
}

impl OfKind for RawDocument<'_> {
    ghost as_kind = { as_document };
}

impl OfKind for RawArray<'_> {
    ghost as_kind = { as_array };
}

impl OfKind for RawBinaryRef<'_> {
    ghost as_kind = { as_binary };
}

impl OfKind for ObjectId {
    ghost as_kind = { as_object_id };
}

impl OfKind for bool {
    ghost as_kind = { as_bool };
}

impl OfKind for DateTime {
    ghost as_kind = { as_datetime };
}

impl OfKind for RawRegexRef<'_> {
    ghost as_kind = { as_regex };
}

impl OfKind for Timestamp {
    ghost as_kind = { as_timestamp };
}

impl OfKind for i32 {
    ghost as_kind = { as_i32 };
}

impl OfKind for i64 {
    ghost as_kind = { as_i64 };
}
