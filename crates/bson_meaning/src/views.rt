//! Whether a view of raw bytes means the same as a tree.

ghost use Rattle.std.specs.Prelude.{◌≡◌, ◌↔◌, ◌≤◌, drop, map, Some, None, IsTrue, MatchOption};
ghost use Rattle.bson_base.specs.Value.{HasDistinctKeys, ItemsHaveDistinctKeys, MembersHaveDistinctKeys, Items, levels, look_up, Members, members_levels, scalar, Value};
ghost use Rattle.bson_bytes.specs.Spells.{SpellsItems, SpellsMembers};
ghost use Rattle.bson_model.specs.Equal.{SameKeys};
ghost use Rattle.bson_model.specs.View.{view, items_of, content};
ghost use Rattle.bson_raw.specs.Convert.{SpellsRawValue};
ghost use Rattle.bson_raw.specs.Raw.{ref_value};
ghost use Rattle.bson_raw.specs.View.{bytes_of, array_bytes, parts_of};
ghost use Rattle.bson_meaning.specs.Meaning.{Same, SameItems, SameUnder};
ghost use Rattle.bson_meaning.specs.Views.{ComparesPayload, view_scalar, ShowsFixed, ShowsNumber, ShowsScalar};

use crate::options::same_options;
use crate::scalars::{Zeros, normal_decimal, normal_double, normal_subtype};
use bson_model::{Bson, Document};
use bson_raw::{RawArray, RawBsonRef, RawDocument, RawElement};

/// Whether a view means the same as a value, if the view has no fault and no key twice at any level; for other views
/// the result means nothing. Each key is looked up in the index of its document. Takes no memory.
#[cycle(views)]
pub fn same_as_raw(raw: RawBsonRef<'_>, value: &Bson) -> bool
    ensures { (v : Value) → SpellsRawValue (ref_value raw.entry) v → HasDistinctKeys v → IsTrue result ↔ Same v (view value.now) }
{
    match raw {
        RawBsonRef::Array(array) => match value {
            Bson::Array(items) => same_elements(array, items.as_slice()),
            _ => false,
        },
        RawBsonRef::Document(document) => match value {
            Bson::Document(other) => same_members(document, other),
            _ => false,
        },
        RawBsonRef::JavaScriptCodeWithScope(code) => match value {
            Bson::JavaScriptCodeWithScope(other) => {
                code.code == other.code.as_str() && same_members(code.scope, &other.scope)
            }
            _ => false,
        },
        scalar => same_scalar_view(scalar, value),
    }
}

/// Whether the document of a view has the same keys as a tree, in any order, and under each a value that means the
/// same. For a view with a fault or with a key twice at any level, the result means nothing.
#[cycle(views)]
fn same_members(raw: RawDocument<'_>, document: &Document) -> bool
    ensures { (ms : Members) → SpellsMembers (drop 4 (bytes_of raw.entry)) ms → MembersHaveDistinctKeys ms
        → IsTrue result ↔ SameKeys ms (content document.now) × SameUnder ms (content document.now) }
{
    bson_model::laws::distinct_keys_of_level(document);
    let mut left = document.len();
    for item in raw.iter_elements() {
        let Ok(element) = item else {
            return false;
        };
        let Some(value) = value_under(document, element.key()) else {
            return false;
        };
        if left == 0 {
            return false;
        }
        if !same_element(&element, value) {
            return false;
        }
        left -= 1;
    }
    left == 0
}

/// Whether an array of a view has as many values as there are items, and each means the same as the item at its place;
/// the keys of its elements aren't compared. For a view with a fault or with a key twice at any level, the result means
/// nothing.
#[cycle(views)]
fn same_elements(raw: RawArray<'_>, items: &[Bson]) -> bool
    ensures { (vs : Items) → SpellsItems (drop 4 (array_bytes raw.entry)) vs → ItemsHaveDistinctKeys vs
        → IsTrue result ↔ SameItems vs (items_of (map view items.now)) }
{
    let Ok(document) = RawDocument::from_bytes(raw.as_bytes()) else {
        return false;
    };
    let mut left = items;
    for item in document.iter_elements() {
        let Ok(element) = item else {
            return false;
        };
        let Some((value, others)) = left.split_first() else {
            return false;
        };
        if !same_element(&element, value) {
            return false;
        }
        left = others;
    }
    left.is_empty()
}

/// Whether an element's value means the same as a value, as `same_as_raw` says; false if the payload is faulty. The key
/// isn't compared.
#[cycle(views)]
fn same_element(element: &RawElement<'_>, value: &Bson) -> bool
    ensures { ComparesPayload (parts_of element.now) (view value.now) result }
{
    bson_raw::laws::payload_of_an_element(element);
    match element.value_or_kind() {
        Ok(raw) => same_as_raw(raw, value),
        Err(_) => false,
    }
}

/// The value under a key.
fn value_under<'a>(document: &'a Document, key: &str) -> Option<&'a Bson>
    ensures { MatchOption result (look_up key.now (content document.now) ≡ None)
        (λ v. (look_up key.now (content document.now) ≡ Some (view v.now))
        × (levels (view v.now) ≤ members_levels (content document.now))) }
{
    match document.get(key) {
        Some(value) => Some(value),
        None => None,
    }
}

/// As `same_as_raw`, for a view that is no array, document or code with scope. Values of different kinds never mean the
/// same, not even an int32 and an int64 of one number.
fn same_scalar_view(raw: RawBsonRef<'_>, value: &Bson) -> bool
    requires { ShowsScalar raw }
    ensures { IsTrue result ↔ Same (scalar (view_scalar raw.entry)) (view value.now) }
{
    match raw {
        RawBsonRef::Double(x) => match value {
            Bson::Double(y) => {
                normal_double(Zeros::Joined, x) == normal_double(Zeros::Joined, *y)
            }
            _ => false,
        },
        RawBsonRef::RegularExpression(x) => match value {
            Bson::RegularExpression(y) => {
                x.pattern == y.pattern.as_str() && same_options(x.options, y.options.as_str())
            }
            _ => false,
        },
        RawBsonRef::Binary(x) => match value {
            Bson::Binary(y) => {
                normal_subtype(x.subtype) == normal_subtype(y.subtype)
                    && x.bytes == y.bytes.as_slice()
            }
            _ => false,
        },
        RawBsonRef::Decimal128(x) => match value {
            Bson::Decimal128(y) => normal_decimal(&x) == normal_decimal(y),
            _ => false,
        },
        fixed => same_text_view(fixed, value),
    }
}

/// As `same_scalar_view`, for the kinds that have no normal form but themselves: texts, pointers, and those of
/// `same_number_view`.
fn same_text_view(raw: RawBsonRef<'_>, value: &Bson) -> bool
    requires { ShowsFixed raw }
    ensures { IsTrue result ↔ Same (scalar (view_scalar raw.entry)) (view value.now) }
{
    match raw {
        RawBsonRef::String(x) => match value {
            Bson::String(y) => x == y.as_str(),
            _ => false,
        },
        RawBsonRef::JavaScriptCode(x) => match value {
            Bson::JavaScriptCode(y) => x == y.as_str(),
            _ => false,
        },
        RawBsonRef::Symbol(x) => match value {
            Bson::Symbol(y) => x == y.as_str(),
            _ => false,
        },
        RawBsonRef::DbPointer(x) => match value {
            Bson::DbPointer(y) => x.namespace == y.namespace.as_str() && x.id == y.id,
            _ => false,
        },
        number => same_number_view(number, value),
    }
}

/// As `same_scalar_view`, for booleans, integers, times, object ids, and the kinds that have one value only. False for
/// a view of any other kind.
fn same_number_view(raw: RawBsonRef<'_>, value: &Bson) -> bool
    requires { ShowsNumber raw }
    ensures { IsTrue result ↔ Same (scalar (view_scalar raw.entry)) (view value.now) }
{
    match raw {
        RawBsonRef::Boolean(x) => matches!(value, Bson::Boolean(y) if x == *y),
        RawBsonRef::Null => matches!(value, Bson::Null),
        RawBsonRef::Int32(x) => matches!(value, Bson::Int32(y) if x == *y),
        RawBsonRef::Int64(x) => matches!(value, Bson::Int64(y) if x == *y),
        RawBsonRef::Timestamp(x) => matches!(value, Bson::Timestamp(y) if x == *y),
        RawBsonRef::ObjectId(x) => matches!(value, Bson::ObjectId(y) if x == *y),
        RawBsonRef::DateTime(x) => matches!(value, Bson::DateTime(y) if x == *y),
        RawBsonRef::Undefined => matches!(value, Bson::Undefined),
        RawBsonRef::MaxKey => matches!(value, Bson::MaxKey),
        RawBsonRef::MinKey => matches!(value, Bson::MinKey),
        _ => false,
    }
}
