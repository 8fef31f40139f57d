//! How many bytes the normal form of a tree is written as, without making it.

ghost use Rattle.std.specs.Prelude.{◌≡◌, ◌^◌, ◌-◌, decimal, length, map, min, string_bytes, IsUtf8};
ghost use Rattle.bson_base.specs.Kinds.{IsRangedScalar, IsSound};
ghost use Rattle.bson_base.specs.Value.{binary as with_subtype, document as tree, regex as expression, EachItem, EachMember, EachPart, HasDistinctKeys, ItemsHaveDistinctKeys, MembersHaveDistinctKeys};
ghost use Rattle.bson_bytes.specs.Encode.{items_size, members_size, scalar_size, size, value_size};
ghost use Rattle.bson_model.specs.View.{view, items_of, content};
ghost use Rattle.bson_meaning.specs.Keys.{alone};
ghost use Rattle.bson_meaning.specs.Meaning.{norm, norm_items, norm_members, normal_scalar};
ghost use Rattle.bson_meaning.specs.Sames.{IsScalar};

use crate::facts;
use crate::scalars::normal_subtype;
use bson_model::{Binary, BinarySubtype, Bson, Document, Regex};
use itoa::Buffer;

/// How many bytes the normal form of a document is written as (bsonspec.org 1.1, "document"). No tree that fits into a
/// machine takes more than `usize::MAX`; it would be returned for such. Takes no memory. As it goes through the whole
/// document, it shows that the document is sound.
pub(crate) fn normal_length(document: &Document) -> usize
    ensures length { result ≡ min (size (norm_members (content document.now))) (2 ^ 64 - 1) }
    ensures sound { IsSound (tree (content document.now)) }
{
    length_of_members(document).saturating_add(5)
}

/// How many bytes the normal form of the document that has this element alone is written as. Says of the value what
/// `normal_length` says of a document.
pub(crate) fn normal_length_of_element(name: &str, value: &Bson) -> usize
    ensures length { result ≡ min (size (norm_members (alone name.now (view value.now)))) (2 ^ 64 - 1) }
    ensures sound { IsSound (tree (alone name.now (view value.now))) }
{
    facts::is_utf8(name);
    length_of_value(value)
        .saturating_add(name.len())
        .saturating_add(7)
}

/// How many bytes the payload of a value's normal form takes, without the byte of its kind and the key before it;
/// `usize::MAX` if it takes more. As it goes through the whole value, it shows that the value is sound.
#[cycle(lengths)]
fn length_of_value(value: &Bson) -> usize
    ensures length { result ≡ min (value_size (norm (view value.now))) (2 ^ 64 - 1) }
    ensures ranged { EachPart IsUtf8 IsRangedScalar (view value.now) }
    ensures distinct { HasDistinctKeys (view value.now) }
{
    match value {
        Bson::Array(items) => length_of_items(items.as_slice()).saturating_add(5),
        Bson::Document(document) => length_of_members(document).saturating_add(5),
        Bson::JavaScriptCodeWithScope(code) => {
            facts::is_utf8(code.code.as_str());
            length_of_members(&code.scope)
                .saturating_add(code.code.len())
                .saturating_add(14)
        }
        scalar => {
            facts::ranged_scalar(scalar);
            length_of_scalar(scalar)
        }
    }
}

/// How many bytes the elements of the normal form take, without the four bytes of length before them and the 00 after
/// them; `usize::MAX` if they take more. As it goes through the whole document, it shows that the document is sound.
#[cycle(lengths)]
fn length_of_members(document: &Document) -> usize
    ensures length { result ≡ min (members_size (norm_members (content document.now))) (2 ^ 64 - 1) }
    ensures ranged { EachMember IsUtf8 IsRangedScalar (content document.now) }
    ensures distinct { MembersHaveDistinctKeys (content document.now) }
{
    bson_model::laws::distinct_keys_of_level(document);
    let mut length: usize = 0;
    for (key, value) in document {
        facts::is_utf8(key.as_str());
        let element = length_of_value(value)
            .saturating_add(key.len())
            .saturating_add(2);
        length = length.saturating_add(element);
    }
    length
}

/// The keys of an array are the places in decimal.
#[cycle(lengths)]
fn length_of_items(items: &[Bson]) -> usize
    ensures length { result ≡ min (items_size 0 (norm_items (items_of (map view items.now)))) (2 ^ 64 - 1) }
    ensures ranged { EachItem IsUtf8 IsRangedScalar (items_of (map view items.now)) }
    ensures distinct { ItemsHaveDistinctKeys (items_of (map view items.now)) }
{
    let mut length: usize = 0;
    for i in 0..items.len() {
        let element = length_of_value(&items[i])
            .saturating_add(length_of_place(i))
            .saturating_add(2);
        length = length.saturating_add(element);
    }
    length
}

/// How many bytes the key of an item of an array has: its place in decimal, without the 00 after it.
fn length_of_place(place: usize) -> usize
    ensures { result ≡ length (decimal place) }
{
    Buffer::new().format(place).len()
}

/// How many bytes the payload of the normal form takes, for a value that is no array, document or code with scope: 0
/// for the kinds that have one value only (BSON specification 1.1, "element"); `usize::MAX` if it takes more.
fn length_of_scalar(value: &Bson) -> usize
    requires { IsScalar (view value.now) }
    ensures { result ≡ min (value_size (norm (view value.now))) (2 ^ 64 - 1) }
{
    match value {
        Bson::Double(_) | Bson::DateTime(_) | Bson::Timestamp(_) | Bson::Int64(_) => 8,
        Bson::String(text) | Bson::JavaScriptCode(text) | Bson::Symbol(text) => text.len() + 5,
        Bson::Binary(binary) => length_of_binary(binary),
        Bson::RegularExpression(regex) => length_of_regex(regex),
        Bson::DbPointer(pointer) => pointer
            .namespace
            .len()
            .saturating_add(pointer.id.bytes().len())
            .saturating_add(5),
        Bson::ObjectId(id) => id.bytes().len(),
        Bson::Decimal128(_) => 16,
        Bson::Int32(_) => 4,
        Bson::Boolean(_) => 1,
        _ => 0,
    }
}

/// An old binary has its length a second time (bsonspec.org 1.1, "subtype").
fn length_of_binary(binary: &Binary) -> usize
    ensures { result ≡ scalar_size (normal_scalar (with_subtype binary.now.subtype binary.now.bytes.items)) }
{
    if normal_subtype(binary.subtype) == BinarySubtype::BinaryOld {
        binary.bytes.len() + 9
    } else {
        binary.bytes.len() + 5
    }
}

/// Options in order take as many bytes as they took.
fn length_of_regex(regex: &Regex) -> usize
    ensures { result ≡ min (scalar_size (normal_scalar (expression (string_bytes regex.now.pattern) (string_bytes regex.now.options)))) (2 ^ 64 - 1) }
{
    regex
        .pattern
        .len()
        .saturating_add(regex.options.len())
        .saturating_add(2)
}
