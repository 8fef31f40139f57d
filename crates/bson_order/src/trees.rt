//! Values as trees.

ghost use Rattle.std.specs.Prelude.{◌≡◌, ◌∷◌, ◌++◌, suc, map};
ghost use Rattle.std.specs.Ordering.{nat_cmp};
ghost use Rattle.std.specs.Cmp.Lexicographic.{slice_cmp};
ghost use Rattle.bson_base.specs.Value.{value_kind};
ghost use Rattle.bson_meaning.specs.Sames.{IsScalar};
ghost use Rattle.bson_meaning.specs.Views.{view_scalar};
ghost use Rattle.bson_model.specs.View.{content, items_of, view};
ghost use Rattle.bson_order.specs.Order.{ended, inside, items_inside, members_inside, order, rank as rank_spec};
ghost use Rattle.bson_order.specs.Shown.{LiesInside, leaf_of};

use crate::ranks::rank;
use crate::scalars::compare_scalars;
use bson_model::{Bson, Document};
use bson_raw::{RawBinaryRef, RawBsonRef, RawDbPointerRef, RawRegexRef};
use std::cmp::Ordering;

/// The order of two values, as `compare` has it of their written forms, however deep they are. Takes no memory.
#[cycle(trees)]
pub fn compare_trees(value: &Bson, other: &Bson) -> Ordering
    ensures { result ≡ order (view value.now) (view other.now) }
{
    match compare_kinds(value, other) {
        Ordering::Less => Ordering::Less,
        Ordering::Equal => compare_contents(value, other),
        Ordering::Greater => Ordering::Greater,
    }
}

/// Compares the ranks of the two kinds, whatever the values hold.
fn compare_kinds(value: &Bson, other: &Bson) -> Ordering
    ensures { result ≡ nat_cmp (rank_spec (value_kind (view value.now))) (rank_spec (value_kind (view other.now))) }
{
    rank(value.element_type()).cmp(&rank(other.element_type()))
}

/// Two values of one rank.
#[cycle(trees)]
fn compare_contents(value: &Bson, other: &Bson) -> Ordering
    ensures { LiesInside (view value.now) (view other.now) result }
{
    match value {
        Bson::Array(items) => match other {
            Bson::Array(others) => compare_lists(items.as_slice(), others.as_slice()),
            _ => Ordering::Equal,
        },
        Bson::Document(document) => match other {
            Bson::Document(second) => compare_documents(document, second),
            _ => Ordering::Equal,
        },
        Bson::JavaScriptCodeWithScope(code) => match other {
            Bson::JavaScriptCodeWithScope(second) => {
                let codes = compare_texts(code.code.as_str(), second.code.as_str());
                codes.then(compare_documents(&code.scope, &second.scope))
            }
            _ => Ordering::Equal,
        },
        _ => compare_leaves(value, other),
    }
}

/// Two texts by their bytes.
fn compare_texts(text: &str, other: &str) -> Ordering
    ensures { result ≡ slice_cmp nat_cmp text.now other.now }
{
    text.as_bytes().cmp(other.as_bytes())
}

/// Two values with nothing inside.
fn compare_leaves(value: &Bson, other: &Bson) -> Ordering
    requires { IsScalar (view value.now) }
    ensures { LiesInside (view value.now) (view other.now) result }
{
    compare_scalars(leaf(value), leaf(other))
}

/// A value that has nothing inside, as a view; null for all others.
fn leaf(value: &Bson) -> RawBsonRef<'_>
    ensures { view_scalar result ≡ leaf_of (view value.now) }
{
    match value {
        Bson::Double(x) => RawBsonRef::Double(*x),
        Bson::String(x) => RawBsonRef::String(x.as_str()),
        Bson::Array(_) => RawBsonRef::Null,
        Bson::Document(_) => RawBsonRef::Null,
        Bson::Boolean(x) => RawBsonRef::Boolean(*x),
        Bson::Null => RawBsonRef::Null,
        Bson::RegularExpression(x) => RawBsonRef::RegularExpression(RawRegexRef {
            pattern: x.pattern.as_str(),
            options: x.options.as_str(),
        }),
        Bson::JavaScriptCode(x) => RawBsonRef::JavaScriptCode(x.as_str()),
        Bson::JavaScriptCodeWithScope(_) => RawBsonRef::Null,
        Bson::Int32(x) => RawBsonRef::Int32(*x),
        Bson::Int64(x) => RawBsonRef::Int64(*x),
        Bson::Timestamp(x) => RawBsonRef::Timestamp(*x),
        Bson::Binary(x) => RawBsonRef::Binary(RawBinaryRef {
            subtype: x.subtype,
            bytes: x.bytes.as_slice(),
        }),
        Bson::ObjectId(x) => RawBsonRef::ObjectId(*x),
        Bson::DateTime(x) => RawBsonRef::DateTime(*x),
        Bson::Symbol(x) => RawBsonRef::Symbol(x.as_str()),
        Bson::Decimal128(x) => RawBsonRef::Decimal128(*x),
        Bson::Undefined => RawBsonRef::Undefined,
        Bson::MaxKey => RawBsonRef::MaxKey,
        Bson::MinKey => RawBsonRef::MinKey,
        Bson::DbPointer(x) => RawBsonRef::DbPointer(RawDbPointerRef {
            namespace: x.namespace.as_str(),
            id: x.id,
        }),
    }
}

/// Item by item, in their order. The list that ends first is less.
#[cycle(trees)]
fn compare_lists(items: &[Bson], others: &[Bson]) -> Ordering
    ensures { result ≡ slice_cmp nat_cmp (items_inside (items_of (map view items.now))) (items_inside (items_of (map view others.now))) }
{
    let mut left = others;
    for item in items {
        let Some((other, rest)) = left.split_first() else {
            return Ordering::Greater;
        };
        match compare_trees(item, other) {
            Ordering::Less => return Ordering::Less,
            Ordering::Equal => {}
            Ordering::Greater => return Ordering::Greater,
        }
        left = rest;
    }
    if left.is_empty() {
        Ordering::Equal
    } else {
        Ordering::Less
    }
}

/// Element by element, in their order: by its rank, its key and its value. The document that ends first is less.
#[cycle(trees)]
fn compare_documents(document: &Document, other: &Document) -> Ordering
    ensures { result ≡ slice_cmp nat_cmp (members_inside (content document.now)) (members_inside (content other.now)) }
{
    let mut others = other.iter();
    for (key, value) in document {
        let Some((name, found)) = others.next() else {
            return Ordering::Greater;
        };
        match compare_pairs(key.as_str(), value, name.as_str(), found) {
            Ordering::Less => return Ordering::Less,
            Ordering::Equal => {}
            Ordering::Greater => return Ordering::Greater,
        }
    }
    match others.next() {
        Some(_) => Ordering::Less,
        None => Ordering::Equal,
    }
}

/// By the ranks, then by the keys, then by what is inside.
#[cycle(trees)]
fn compare_pairs(key: &str, value: &Bson, name: &str, other: &Bson) -> Ordering
    ensures { result ≡ slice_cmp nat_cmp (suc (rank_spec (value_kind (view value.now))) ∷ (ended key.now ++ inside (view value.now)))
        (suc (rank_spec (value_kind (view other.now))) ∷ (ended name.now ++ inside (view other.now))) }
{
    let heads = compare_kinds(value, other);
    match heads.then(compare_texts(key, name)) {
        Ordering::Less => Ordering::Less,
        Ordering::Equal => compare_contents(value, other),
        Ordering::Greater => Ordering::Greater,
    }
}
