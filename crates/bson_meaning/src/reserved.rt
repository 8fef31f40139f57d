//! Reserved keys below the top of a document, where Extended JSON would be read as typed values.

ghost use Rattle.std.specs.Prelude.{◌≡◌, ◌++◌, codes, is_some, map, option_map, string_bytes, IfOk};
ghost use Rattle.bson_meaning.specs.JsonReserved.{first_reserved, has_reserved, reserved_in, reserved_in_items, reserved_path, reserved_path_below as path_of_members, reserved_path_in_items, some_reserved};
ghost use Rattle.bson_model.specs.View.{view, items_of, content};

use bson_model::extjson::is_reserved_key;
use bson_model::{Bson, Document};
use std::alloc::{AllocError, Global};

/// Whether one of the keys is reserved.
fn has_reserved_key(document: &Document) -> bool
    ensures { result ≡ some_reserved (content document.now) }
{
    for (key, _) in document {
        if is_reserved_key(key.as_str()) {
            return true;
        }
    }
    false
}

/// Whether a document in the value has a reserved key. The keys of a scope are free, those of the documents in it
/// aren't.
#[cycle(reserved)]
fn has_reserved_inside(value: &Bson) -> bool
    ensures { result ≡ reserved_in (view value.now) }
{
    match value {
        Bson::Array(items) => have_reserved_inside(items.as_slice()),
        Bson::Document(document) => has_reserved_key(document) || has_reserved_below(document),
        Bson::JavaScriptCodeWithScope(code) => has_reserved_below(&code.scope),
        _ => false,
    }
}

/// Whether `has_reserved_inside` is true of one of the items.
#[cycle(reserved)]
fn have_reserved_inside(items: &[Bson]) -> bool
    ensures { result ≡ reserved_in_items (items_of (map view items.now)) }
{
    for item in items {
        if has_reserved_inside(item) {
            return true;
        }
    }
    false
}

/// Whether a document below this one has a reserved key: Extended JSON has no text of it then that reads as the same
/// document. Its own keys are free.
#[cycle(reserved)]
pub fn has_reserved_below(document: &Document) -> bool
    ensures { result ≡ has_reserved (content document.now) }
{
    for (_, value) in document {
        if has_reserved_inside(value) {
            return true;
        }
    }
    false
}

/// The first reserved key of a document.
fn reserved_key_of(document: &Document) -> Option<&str>
    ensures { option_map (λ k. k.now) result ≡ first_reserved (content document.now) }
{
    for (key, _) in document {
        if is_reserved_key(key.as_str()) {
            return Some(key.as_str());
        }
    }
    None
}

/// A path with one step more before it, and a dot between the two. The error is a refused growth.
fn join(alloc: Global, step: &str, path: &str) -> Result<String, AllocError>
    ensures { IfOk result (λ t. string_bytes t ≡ step.now ++ codes "." ++ path.now) }
{
    format!(in alloc; "{step}.{path}")
}

/// The path to the first reserved key of a document in the value.
#[cycle(path)]
fn path_inside(alloc: Global, value: &Bson) -> Result<Option<String>, AllocError>
    ensures { IfOk result (λ o. option_map (λ t. string_bytes t) o ≡ reserved_path (view value.now)) }
{
    match value {
        Bson::Array(items) => path_in_items(alloc, items.as_slice()),
        Bson::Document(document) => match reserved_key_of(document) {
            Some(key) => Ok(Some(String::from_str(alloc, key)?)),
            None => path_below(alloc, document),
        },
        Bson::JavaScriptCodeWithScope(code) => path_below(alloc, &code.scope),
        _ => Ok(None),
    }
}

/// What `path_inside` finds in the first item that has a reserved key, after the item's place, counted from 0 in
/// decimal; None if no item has one. The error is a refused growth.
#[cycle(path)]
fn path_in_items(alloc: Global, items: &[Bson]) -> Result<Option<String>, AllocError>
    ensures { IfOk result (λ o. option_map (λ t. string_bytes t) o ≡ reserved_path_in_items 0 (items_of (map view items.now))) }
{
    for (place, item) in items.iter().enumerate() {
        if let Some(path) = path_inside(alloc, item)? {
            let step = place.to_string(alloc)?;
            return Ok(Some(join(alloc, step.as_str(), path.as_str())?));
        }
    }
    Ok(None)
}

/// What `path_inside` finds in the first value of a document that has a reserved key, after the key of that value; None
/// if no value has one. The document's own keys are free. The error is a refused growth.
#[cycle(path)]
fn path_below(alloc: Global, document: &Document) -> Result<Option<String>, AllocError>
    ensures { IfOk result (λ o. option_map (λ t. string_bytes t) o ≡ path_of_members (content document.now)) }
{
    for (key, value) in document {
        if let Some(path) = path_inside(alloc, value)? {
            return Ok(Some(join(alloc, key.as_str(), path.as_str())?));
        }
    }
    Ok(None)
}

/// The path to the first reserved key below the top, if there is one: keys, and places in arrays, with dots between
/// them. It fails only if a growth of memory was refused.
pub fn reserved_path_below(alloc: Global, document: &Document) -> Result<Option<String>, AllocError>
    ensures path { IfOk result (λ o. option_map (λ t. string_bytes t) o ≡ path_of_members (content document.now)) }
    ensures reserved { IfOk result (λ o. is_some o ≡ has_reserved (content document.now)) }
{
    path_below(alloc, document)
}
