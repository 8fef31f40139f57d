//! The keys of an index: values that mean the same have one.

ghost use Rattle.std.specs.Prelude.{◌≡◌, ◌↔◌, drop, length, take, None, Some, IfOk, IfSome, IsTrue, MatchOption};
ghost use Rattle.bson_base.specs.Value.{Members};
ghost use Rattle.bson_bytes.specs.Encode.{encode};
ghost use Rattle.bson_model.specs.View.{view};
ghost use Rattle.store_question.specs.Filters.{path_of};
ghost use Rattle.store_model.specs.State.{IsKept};
ghost use Rattle.bson_store.specs.Keys.{KeyAt, value_key};

use bson_meaning::KeyError;
use bson_model::Bson;
use bson_raw::RawDocument;
use std::alloc::{AllocError, Global};
use store_documents::key_of_id;
use store_question::look_up;

/// How many bytes of a document come before the value of its `_id`: its length, the value's kind and the name.
const HEAD: usize = 9;

/// The key without its head. It is nearly the same in all keys, and these are compared from their first byte.
fn without_head(alloc: Global, key: &[u8]) -> Result<Vec<u8>, AllocError>
    ensures { IfOk result (λ rest. rest.items ≡ drop 9 key.now) }
{
    let start = HEAD.min(key.len());
    Vec::from_slice(alloc, &key[start..])
}

/// The key of a value. None if it can't be written.
pub(crate) fn key_of_value(alloc: Global, value: &Bson) -> Result<Option<Vec<u8>>, AllocError>
    ensures { IfOk result (λ o. IfSome o (λ k. k.items ≡ value_key (view value.now))) }
{
    match key_of_id(alloc, value) {
        Ok(key) => Ok(Some(without_head(alloc, key.as_slice())?)),
        Err(KeyError::NotPlain) => Ok(None),
        Err(KeyError::TooLong) => Ok(None),
        Err(KeyError::Memory) => Err(AllocError),
    }
}

/// Whether two paths have the same keys.
pub fn is_same_path(a: &[String], b: &[String]) -> bool
    ensures { IsTrue result ↔ (path_of a.now ≡ path_of b.now) }
{
    a == b
}

/// Whether a path is a beginning of another one.
pub(crate) fn is_beginning(a: &[String], path: &[String]) -> bool
    ensures { IsTrue result ↔ (path_of a.now ≡ take (length a.now) (path_of path.now)) }
{
    if path.len() < a.len() {
        return false;
    }
    is_same_path(a, &path[..a.len()])
}

/// The key of the value at a path of a body's document, if one is there. Bytes that are no document have none.
pub(crate) fn key_at(
    alloc: Global,
    body: &[u8],
    path: &[String],
) -> Result<Option<Vec<u8>>, AllocError>
    ensures { (d : Members) → IsKept d → body.now ≡ encode d
        → IfOk result (λ o. MatchOption o (KeyAt d (path_of path.now) None)
        (λ k. KeyAt d (path_of path.now) (Some k.items))) }
{
    let Ok(document) = RawDocument::from_bytes(body) else {
        return Ok(None);
    };
    let Some(found) = look_up(document, path).0 else {
        return Ok(None);
    };
    let Ok(value) = found.to_bson(alloc) else {
        return Err(AllocError);
    };
    let key = key_of_id(alloc, &value);
    drop(value);
    match key {
        Ok(key) => Ok(Some(without_head(alloc, key.as_slice())?)),
        // The values of kept documents are plain, and short.
        Err(_) => Err(AllocError),
    }
}
