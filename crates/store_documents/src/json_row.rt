//! Documents as they are kept, from their JSON trees.

ghost use Rattle.std.specs.Prelude.{◌≡◌, ◌⊎◌, Err, MatchResult};
ghost use Rattle.serde_json.specs.Data.{object, Members as JsonMembers};
ghost use Rattle.serde_json.specs.View.{view as data_of};
ghost use Rattle.bson_base.specs.Kinds.{IsPlain};
ghost use Rattle.bson_base.specs.Value.{document as tree};
ghost use Rattle.bson_model.specs.View.{content};
ghost use Rattle.store_model.specs.Reading.{Keeps, ReadsTree};
ghost use Rattle.store_model.specs.declared.error.ErrorKind.TheVariants.{Memory, NoId, Nul};
ghost use Rattle.store_documents.specs.Bodies.{AnswersInput, IsOrderedBody, IsUnordered};

use crate::ids::{ID_KEY, key_of_id};
use crate::read::{json_refusal, object_of};
use crate::write::{KeptRow, key_refusal};
use bson_frame::{LEVEL_LIMIT, SIZE_LIMIT};
use bson_meaning::{depth_of_document, is_plain_document, meaning_key};
use bson_model::Document;
use serde_json::Value;
use std::alloc::Global;
use std::borrow::CowSlice;
use store_model::ErrorKind;

/// The bytes of the normal form of a document, with its keys in order. `Nul` if a 00 is in a key, a pattern or
/// options, else `TooLong` if they are over 16777216; `Memory` if a growth was refused. Of a document with such bytes
/// it is known that it is sound.
fn ordered_body(alloc: Global, document: &Document) -> Result<Vec<u8>, ErrorKind>
    ensures { MatchResult result (λ b. IsOrderedBody b.items (content document.now))
        (IsUnordered (content document.now)) }
{
    match meaning_key(alloc, document) {
        Ok(body) => {
            if body.len() > SIZE_LIMIT {
                return Err(ErrorKind::TooLong);
            }
            Ok(body)
        }
        Err(error) => Err(key_refusal(error)),
    }
}

/// Why a document without an `_id` isn't kept.
fn unidentified(document: &Document) -> ErrorKind
    ensures { ((result ≡ Nul) × (IsPlain (tree (content document.now)) → ⊥))
        ⊎ ((result ≡ NoId) × IsPlain (tree (content document.now))) }
{
    if is_plain_document(document) {
        ErrorKind::NoId
    } else {
        ErrorKind::Nul
    }
}

/// The row of the normal form of a document, with its keys in order, if that is kept. Neither is made as a tree.
pub(crate) fn row_in_order(
    alloc: Global,
    document: &Document,
) -> Result<KeptRow<'static>, ErrorKind>
    ensures { AnswersInput (Keeps (content document.now)) result }
{
    if depth_of_document(document) > LEVEL_LIMIT {
        return Err(ErrorKind::TooDeep);
    }
    let Some(id) = document.get(ID_KEY) else {
        return Err(unidentified(document));
    };
    let body = ordered_body(alloc, document)?;
    match key_of_id(alloc, id) {
        Ok(key) => Ok(KeptRow {
            key,
            body: CowSlice::Owned(body),
        }),
        Err(error) => Err(key_refusal(error)),
    }
}

/// The row of the document that a JSON tree stands for (MongoDB Extended JSON v2), which is kept in normal form with
/// its keys in order.
///
/// `NotAnObject` if the tree is no object; `JsonRefused` if it is no Extended JSON, or holds a finite double other than
/// the zeros; `TooDeep` if the document has over 100 levels; `Nul` if a 00 is in a key, a pattern or options of it;
/// `NoId` if it has no `_id`; `TooLong` if its bytes are over 16777216; each if none before it is reported. `Memory` if
/// a growth was refused, and never in the place of `NotAnObject`.
pub fn row_of_json(alloc: Global, json: Value) -> Result<KeptRow<'static>, ErrorKind>
    ensures row { AnswersInput (ReadsTree (data_of json)) result }
    ensures object { result ≡ Err Memory → (js : JsonMembers) × (data_of json ≡ object js) }
{
    let Some(map) = object_of(json) else {
        return Err(ErrorKind::NotAnObject);
    };
    match Document::try_from_map(alloc, map) {
        Ok(document) => row_in_order(alloc, &document),
        Err(error) => Err(json_refusal(error)),
    }
}
