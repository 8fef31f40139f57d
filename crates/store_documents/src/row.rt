//! Rows that a store can have written.

ghost use Rattle.std.specs.Prelude.{◌≡◌, ◌≢◌, ◌↔◌, false, IfOk, Ok, IsTrue, IsUtf8, List, ℕ};
ghost use Rattle.std.specs.Cow.{cow_slice_items};
ghost use Rattle.bson_base.specs.Value.{Members};
ghost use Rattle.bson_bytes.specs.Encode.{encode};
ghost use Rattle.bson_meaning.specs.Before.{key as key_before};
ghost use Rattle.store_model.specs.State.{IsKept, IsName};
ghost use Rattle.store_model.specs.Table.{own_id};
ghost use Rattle.store_model.specs.declared.error.ErrorKind.TheVariants.{Memory};
ghost use Rattle.store_documents.specs.Bodies.{AnswersKept, IsRow, TellsKey};

use crate::ids::ID_KEY;
use crate::name::Name;
use crate::read::document_of;
use crate::stored::{key_as_it_stands, row_by_tree, row_of_bytes};
use crate::write::KeptRow;
use bson_meaning::{KeyError, meaning_key_before_of_element};
use std::alloc::{AllocError, Global};
use store_model::ErrorKind;

/// Whether the bytes are those of a name.
fn is_text_of_name(collection: &[u8]) -> bool
    ensures { IsTrue result ↔ (IsName collection.now × IsUtf8 collection.now) }
{
    match str::from_utf8(collection) {
        Ok(text) => Name::new(text).is_some(),
        Err(_) => false,
    }
}

/// Whether a document is written as these bytes, under this key.
fn is_written_so(written: &KeptRow<'_>, key: &[u8], body: &[u8]) -> bool
    ensures { IsTrue result ↔ ((written.now.key.items ≡ key.now)
        × (cow_slice_items written.now.body ≡ body.now)) }
{
    written.key.as_slice() == key && written.body.as_slice() == body
}

/// What a refusal says of a row: that no store can have written it, unless it is out of memory.
fn outcome_of_refusal(kind: ErrorKind) -> Result<bool, AllocError>
    ensures { IfOk result (λ b. (b ≡ false) × (kind ≢ Memory)) }
{
    match kind {
        ErrorKind::Memory => Err(AllocError),
        _ => Ok(false),
    }
}

/// Whether a store can have written a row: `collection` is the name of a collection, `body` the written form of a
/// document that is kept, and `key` the key of its `_id`. The error is a refused growth. A body that is seen to be a
/// written form is gone over without a tree, and not written again.
pub fn is_store_row(
    alloc: Global,
    collection: &[u8],
    key: &[u8],
    body: &[u8],
) -> Result<bool, AllocError>
    ensures { IfOk result (λ b. IsTrue b ↔ IsRow collection.now key.now body.now) }
{
    if !is_text_of_name(collection) {
        return Ok(false);
    }
    match key_as_it_stands(alloc, body) {
        Ok(Some(own)) => Ok(is_same(own.as_slice(), key)),
        Ok(None) => match row_by_tree(alloc, body) {
            Ok(written) => Ok(is_written_so(&written, key, body)),
            Err(kind) => outcome_of_refusal(kind),
        },
        Err(kind) => outcome_of_refusal(kind),
    }
}

/// The key of a row, held against the document in its body.
#[derive(Debug, Drop)]
pub enum RowKey {
    /// It is the key of the document's `_id`.
    Own,
    /// It is the key that the `_id` had before the two zeros of a double meant the same, and not the one that it has
    /// now, which this is.
    Before(Vec<u8>),
    /// It is neither, or the row has no name or no body that a store can have written.
    Neither,
}

/// The key that the `_id` of a document had before the two zeros of a double meant the same, from the document's
/// written form. The error is a refused growth.
fn key_before(alloc: Global, body: &[u8]) -> Result<Vec<u8>, AllocError>
    requires { (d : Members) × IsKept d × (body.now ≡ encode d) }
    ensures { (d : Members) → IsKept d → body.now ≡ encode d
        → IfOk result (λ k. k.items ≡ key_before (own_id d)) }
{
    let Ok(document) = document_of(alloc, body) else {
        return Err(AllocError);
    };
    let Some(id) = document.get(ID_KEY) else {
        unreachable!()
    };
    match meaning_key_before_of_element(alloc, ID_KEY, id) {
        Ok(key) => Ok(key),
        Err(KeyError::NotPlain) => unreachable!(),
        Err(KeyError::TooLong) => unreachable!(),
        Err(KeyError::Memory) => Err(AllocError),
    }
}

/// Whether the two are equal byte for byte, and equally long.
fn is_same(bytes: &[u8], others: &[u8]) -> bool
    ensures { IsTrue result ↔ (bytes.now ≡ others.now) }
{
    bytes == others
}

/// What is reported of the key of a row under a good name, whose body a document reads from that is written so.
fn key_against(
    alloc: Global,
    written: KeptRow<'_>,
    key: &[u8],
    body: &[u8],
) -> Result<RowKey, AllocError>
    requires { AnswersKept body.now (Ok written) }
    ensures { (collection : List ℕ) → IsName collection → IsUtf8 collection
        → IfOk result (TellsKey collection key.now body.now) }
{
    let KeptRow {
        key: now,
        body: own,
    } = written;
    if !is_same(own.as_slice(), body) {
        return Ok(RowKey::Neither);
    }
    let is_own = is_same(now.as_slice(), key);
    if is_own {
        return Ok(RowKey::Own);
    }
    let before = key_before(alloc, body)?;
    let is_old = is_same(before.as_slice(), key);
    if is_old {
        Ok(RowKey::Before(now))
    } else {
        Ok(RowKey::Neither)
    }
}

/// What a refusal says of a row's key: that no store can have written the row, unless it is out of memory.
fn keyless(kind: ErrorKind) -> Result<RowKey, AllocError>
    ensures { IfOk result (λ k. (k ≡ RowKey.Neither) × (kind ≢ Memory)) }
{
    match kind {
        ErrorKind::Memory => Err(AllocError),
        _ => Ok(RowKey::Neither),
    }
}

/// The key of a row, held against the document in its body: the key of that document's `_id`, or the one that the `_id`
/// had before the two zeros of a double meant the same. The error is a refused growth.
pub fn key_of_row(
    alloc: Global,
    collection: &[u8],
    key: &[u8],
    body: &[u8],
) -> Result<RowKey, AllocError>
    ensures { IfOk result (TellsKey collection.now key.now body.now) }
{
    if !is_text_of_name(collection) {
        return Ok(RowKey::Neither);
    }
    match row_of_bytes(alloc, body) {
        Ok(written) => key_against(alloc, written, key, body),
        Err(kind) => keyless(kind),
    }
}
