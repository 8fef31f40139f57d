//! Whether two trees mean the same.

ghost use Rattle.std.specs.Prelude.{◌≡◌, ◌↔◌, map, IsTrue};
ghost use Rattle.bson_model.specs.View.{view, items_of, content};
ghost use Rattle.bson_model.specs.Equal.{SameKeys};
ghost use Rattle.bson_model.specs.Trees.{regex_tree, binary_tree};
ghost use Rattle.bson_meaning.specs.Meaning.{Same, SameItems, SameUnder};
ghost use Rattle.bson_meaning.specs.Sames.{IsScalar};

use crate::options::same_options;
use crate::scalars::{Zeros, normal_decimal, normal_double, normal_subtype};
use bson_model::{Binary, Bson, Document, Regex};

/// Whether two values mean the same: their normal forms are equal, with documents compared as maps at every depth.
///
/// The keys of a document are compared as they ascend, so their order costs nothing, and no key is looked up.
#[cycle(same)]
pub fn same_meaning(value: &Bson, other: &Bson) -> bool
    ensures { IsTrue result ↔ Same (view value.now) (view other.now) }
{
    match value {
        Bson::Array(items) => match other {
            Bson::Array(others) => same_items(items.as_slice(), others.as_slice()),
            _ => false,
        },
        Bson::Document(document) => match other {
            Bson::Document(other) => same_documents(document, other),
            _ => false,
        },
        Bson::JavaScriptCodeWithScope(code) => match other {
            Bson::JavaScriptCodeWithScope(other) => {
                code.code == other.code && same_documents(&code.scope, &other.scope)
            }
            _ => false,
        },
        _ => same_scalar(value, other),
    }
}

/// Whether there are as many items as others, and each means the same as the one at its place.
#[cycle(same)]
fn same_items(items: &[Bson], others: &[Bson]) -> bool
    ensures { IsTrue result ↔ SameItems (items_of (map view items.now)) (items_of (map view others.now)) }
{
    let mut left = others;
    for item in items {
        let [other, rest @ ..] = left else {
            return false;
        };
        if !same_meaning(item, other) {
            return false;
        }
        left = rest;
    }
    left.is_empty()
}

/// Both documents are walked with their keys ascending, pair beside pair. It takes no memory.
#[cycle(same)]
fn same_documents(document: &Document, other: &Document) -> bool
    ensures { IsTrue result ↔ SameKeys (content document.now) (content other.now) × SameUnder (content document.now) (content other.now) }
{
    bson_model::laws::distinct_keys_of_level(document);
    let mut others = other.ascending();
    for (key, value) in document.ascending() {
        let Some((name, found)) = others.next() else {
            return false;
        };
        if key.as_str() != name.as_str() {
            return false;
        }
        if !same_meaning(value, found) {
            return false;
        }
    }
    others.next().is_none()
}

/// Whether a value that is no array, document or code with scope means the same as another. Values of different kinds
/// never do, not even an int32 and an int64 of one number.
fn same_scalar(value: &Bson, other: &Bson) -> bool
    requires { IsScalar (view value.now) }
    ensures { IsTrue result ↔ Same (view value.now) (view other.now) }
{
    if value.element_type() != other.element_type() {
        return false;
    }
    match value {
        Bson::Double(double) => match other {
            Bson::Double(other) => {
                normal_double(Zeros::Joined, *double) == normal_double(Zeros::Joined, *other)
            }
            _ => false,
        },
        Bson::RegularExpression(regex) => match other {
            Bson::RegularExpression(other) => same_regex(regex, other),
            _ => false,
        },
        Bson::Binary(binary) => match other {
            Bson::Binary(other) => same_binary(binary, other),
            _ => false,
        },
        Bson::Decimal128(decimal) => match other {
            Bson::Decimal128(other) => normal_decimal(decimal) == normal_decimal(other),
            _ => false,
        },
        _ => bson_model::laws::equality_of_trees(value, other),
    }
}

/// Whether the patterns are equal, and the options too, whatever their order.
fn same_regex(regex: &Regex, other: &Regex) -> bool
    ensures { IsTrue result ↔ Same (regex_tree regex.now) (regex_tree other.now) }
{
    regex.pattern == other.pattern && same_options(regex.options.as_str(), other.options.as_str())
}

/// Whether the bytes are equal, and the subtypes have the same byte: `Reserved(2)` counts as `BinaryOld`.
fn same_binary(binary: &Binary, other: &Binary) -> bool
    ensures { IsTrue result ↔ Same (binary_tree binary.now) (binary_tree other.now) }
{
    normal_subtype(binary.subtype) == normal_subtype(other.subtype) && binary.bytes == other.bytes
}
