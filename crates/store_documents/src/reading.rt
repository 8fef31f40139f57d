//! Values and documents.

ghost use Rattle.std.specs.Prelude.{◌≡◌, ◌++◌, ◌∷◌, [], map, IfOk, OnOk};
ghost use Rattle.std.specs.List.{list_any};
ghost use Rattle.json.specs.Json.{object as object_tree};
ghost use Rattle.json.specs.Tree.{HasNumbers, ItemsHaveNumbers, MembersHaveNumbers};
ghost use Rattle.json.specs.Value.{value_view, items_view, members_view};
ghost use Rattle.serde_json.specs.Read.{of_json, read as data_of_text};
ghost use Rattle.bson_model.specs.JsonKeys.{is_reserved};
ghost use Rattle.bson_model.specs.View.{view, items_of, content, pairs_of};
ghost use Rattle.store_documents.specs.Reads.{AreInOrder, ReadsDocument, ReadsItems, ReadsJson, ReadsPairs};

use crate::key_order::put;
use crate::scalars::{number, wrapped};
use crate::unread::Unread;
use bson_model::extjson::de::is_reserved_key;
use bson_model::{Bson, Document};
use json::{Reader, Scratch, Value};
use std::alloc::Global;

/// What the kit's reader of whole trees allows, and the levels that are gone into here.
const MOST_LEVELS: usize = 127;

/// The members with their keys ascending. `Unseen` if a key comes twice, or if there are very many.
fn pairs_of_members<'v, 'a>(
    alloc: Global,
    members: &'v [(&'a str, Value<'a>)],
) -> Result<Vec<(&'a str, &'v Value<'a>)>, Unread>
    ensures { IfOk result (λ pairs. MembersHaveNumbers (members_view members.now) → AreInOrder (members_view members.now) pairs.items) }
{
    let mut pairs = Vec::new(alloc);
    for (key, value) in members {
        if !put(&mut pairs, *key, value)? {
            return Err(Unread::Unseen);
        }
    }
    Ok(pairs)
}

/// Whether one of the keys is reserved.
fn has_reserved<'v, 'a>(pairs: &[(&'a str, &'v Value<'a>)]) -> bool
    ensures { result ≡ list_any (λ r. is_reserved r.0.now) pairs.now }
{
    for pair in pairs {
        if is_reserved_key(pair.0) {
            return true;
        }
    }
    false
}

/// Puts a value under a key that isn't there.
fn add(alloc: Global, document: &mut Document, key: &str, value: Bson) -> Result<(), Unread>
    ensures { OnOk result (pairs_of document.new ≡ pairs_of document.old ++ (key.now, view value) ∷ []) }
{
    let key = String::from_str(alloc, key)?;
    match document.insert(key, value)? {
        Some(before) => {
            drop(before);
            Err(Unread::Unseen)
        }
        None => Ok(()),
    }
}

/// The value of a tree, of at most `inner` levels.
#[cycle(read)]
fn read(alloc: Global, value: &Value<'_>, inner: usize) -> Result<Bson, Unread>
    ensures { IfOk result (λ b. HasNumbers (value_view value.now) → ReadsJson (value_view value.now) (view b)) }
{
    match value {
        Value::Null => Ok(Bson::Null),
        Value::Bool(truth) => Ok(Bson::Boolean(*truth)),
        Value::Number(text) => number(alloc, *text),
        Value::String(text) => Ok(Bson::String(String::from_str(alloc, *text)?)),
        Value::Array(items) => Ok(Bson::Array(read_items(alloc, items.as_slice(), inner)?)),
        Value::Object(members) => read_object(alloc, members.as_slice(), inner),
    }
}

/// The items of an array, in their order. At most `inner` levels may be nested, the array among them; else `Unseen`.
#[cycle(read)]
fn read_items(alloc: Global, items: &[Value<'_>], inner: usize) -> Result<Vec<Bson>, Unread>
    ensures { IfOk result (λ v. ItemsHaveNumbers (items_view items.now) → ReadsItems (items_view items.now) (items_of (map view v.items))) }
{
    if inner == 0 {
        return Err(Unread::Unseen);
    }
    let mut values = Vec::new(alloc);
    for item in items {
        values.push(read(alloc, item, inner - 1)?)?;
    }
    Ok(values)
}

/// The value of an object: a wrapper if it has a reserved key, else a document.
#[cycle(read)]
fn read_object<'v, 'a>(
    alloc: Global,
    members: &'v [(&'a str, Value<'a>)],
    inner: usize,
) -> Result<Bson, Unread>
    ensures { IfOk result (λ b. MembersHaveNumbers (members_view members.now) → ReadsJson (object_tree (members_view members.now)) (view b)) }
{
    if let [(key, value)] = members
        && is_reserved_key(*key)
    {
        return wrapped(alloc, *key, value);
    }
    let pairs = pairs_of_members(alloc, members)?;
    if has_reserved(pairs.as_slice()) {
        return Err(Unread::Unseen);
    }
    let document = read_pairs(alloc, pairs.as_slice(), inner)?;
    Ok(Bson::Document(document))
}

/// The document of pairs in their order.
#[cycle(read)]
fn read_pairs<'v, 'a>(
    alloc: Global,
    pairs: &[(&'a str, &'v Value<'a>)],
    inner: usize,
) -> Result<Document, Unread>
    ensures { IfOk result (λ d. ReadsPairs pairs.now (pairs_of d)) }
{
    if inner == 0 {
        return Err(Unread::Unseen);
    }
    let mut document = Document::new(alloc);
    for pair in pairs {
        let value = read(alloc, pair.1, inner - 1)?;
        add(alloc, &mut document, pair.0, value)?;
    }
    Ok(document)
}

/// The tree of a text.
fn parse<'a>(alloc: Global, text: &'a str, scratch: &'a mut Scratch) -> Result<Value<'a>, Unread>
    ensures { IfOk result (λ v. HasNumbers (value_view v) × (data_of_text text.now ≡ of_json (value_view v))) }
{
    let mut reader = Reader::new(text, scratch)?;
    let Ok(value) = Value::read(alloc, &mut reader, MOST_LEVELS) else {
        return Err(Unread::Unseen);
    };
    if reader.next().is_some() {
        return Err(Unread::Unseen);
    }
    Ok(value)
}

/// The document of a JSON object.
fn document_of(alloc: Global, value: &Value<'_>) -> Result<Document, Unread>
    ensures { IfOk result (λ d. HasNumbers (value_view value.now) → ReadsDocument (of_json (value_view value.now)) (content d)) }
{
    let Value::Object(members) = value else {
        return Err(Unread::Unseen);
    };
    let pairs = pairs_of_members(alloc, members.as_slice())?;
    read_pairs(alloc, pairs.as_slice(), MOST_LEVELS)
}

/// The document that a text of JSON (RFC 8259) stands for, as `Document::try_from_map` reads it of the text's tree. No
/// tree with memory of its own is made. `scratch` is room that is kept from text to text.
///
/// `Unseen` if it has to be read by that tree: if it can't be read, if an object has a key twice or more than 64 of
/// them, if it has a wrapper for a double, a code with its scope, a pointer, undefined, or a least or greatest key, a
/// date that is a number, or a number that is no whole one of 64 bits. `Memory` if a growth was refused.
pub fn document_of_text(
    alloc: Global,
    text: &str,
    scratch: &mut Scratch,
) -> Result<Document, Unread>
    ensures { IfOk result (λ d. ReadsDocument (data_of_text text.now) (content d)) }
{
    let value = parse(alloc, text, scratch)?;
    document_of(alloc, &value)
}
