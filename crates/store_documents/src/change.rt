//! Written documents with one member changed.

ghost use Rattle.std.specs.Prelude.{◌≡◌, IfErr, IfOk, OnOk, string_bytes};
ghost use Rattle.bson_base.specs.Kinds.{IsSound};
ghost use Rattle.bson_base.specs.Value.{Members, put};
ghost use Rattle.bson_bytes.specs.Encode.{encode};
ghost use Rattle.bson_meaning.specs.Meaning.{norm_in_order};
ghost use Rattle.bson_model.specs.Keyed.{has_key as has_pair, put as put_pair, without as without_pair};
ghost use Rattle.bson_model.specs.View.{view, pairs_of, content};
ghost use Rattle.store_model.specs.State.{IsKept};
ghost use Rattle.store_documents.specs.Answers.{IsOfStore};
ghost use Rattle.store_documents.specs.Bodies.{AnswersChanged, AnswersUnset};

use crate::read::document_of_body;
use crate::write::body_of;
use bson_frame::LEVEL_LIMIT;
use bson_meaning::{depth_of_document, normalize, sort_keys};
use bson_model::{Bson, Document};
use std::alloc::{AllocError, Global};
use store_model::ErrorKind;

/// The normal form of a value, with its keys in order.
fn kept_value(alloc: Global, value: Bson) -> Result<Bson, AllocError>
    ensures normal { IfOk result (λ v. view v ≡ norm_in_order (view value)) }
    ensures sound { IfOk result (λ _. IsSound (view value)) }
{
    let normal = normalize(alloc, value)?;
    sort_keys(alloc, normal)
}

/// Puts a value under a key: in the key's place if it is there, else last.
fn put_value(document: &mut Document, key: String, value: Bson) -> Result<(), AllocError>
    ensures { OnOk result (pairs_of document.new ≡ put_pair (string_bytes key) (view value)
        (pairs_of document.old)) }
{
    document.put(key, value)
}

/// Puts the normal form of a value, with its keys in order, under a key.
fn put_normal(
    alloc: Global,
    document: &mut Document,
    key: &str,
    value: Bson,
) -> Result<(), AllocError>
    ensures put { OnOk result (content document.new ≡ put key.now (norm_in_order (view value))
        (content document.old)) }
    ensures sound { OnOk result (IsSound (view value)) }
{
    let value = kept_value(alloc, value)?;
    let key = String::from_str(alloc, key)?;
    put_value(document, key, value)
}

/// The bytes of a changed document. `TooDeep`, `Nul` and `TooLong` if it can't be kept, in this order.
#[tactic(auto, using(crate::proofs::ChangeLemmas::changed))]
fn changed_body(alloc: Global, document: &Document) -> Result<Vec<u8>, ErrorKind>
    ensures { AnswersChanged (content document.now) result }
{
    if depth_of_document(document) > LEVEL_LIMIT {
        return Err(ErrorKind::TooDeep);
    }
    body_of(alloc, document)
}

/// What a kept document is written as once a value is under a key: in the key's place if it is there, else last.
/// The value is kept in normal form with its keys in order. `body` is the written form of the document.
///
/// `TooDeep` if the document then has over 100 levels, else `Nul` if a 00 is in a key, a pattern or options, else
/// `TooLong` if its bytes are over 16777216; `Memory` if a growth was refused. Bytes that aren't the written form of a
/// kept document may be refused as `Faulty`. If it isn't refused, the value is known to be
/// sound.
pub fn body_with(alloc: Global, body: &[u8], key: &str, value: Bson) -> Result<Vec<u8>, ErrorKind>
    ensures changed { (d : Members) → IsKept d → body.now ≡ encode d
        → AnswersChanged (put key.now (norm_in_order (view value)) d) result }
    ensures sound { IfOk result (λ _. IsSound (view value)) }
    ensures kind { IfErr result IsOfStore }
{
    let mut document = document_of_body(alloc, body)?;
    match put_normal(alloc, &mut document, key, value) {
        Ok(()) => changed_body(alloc, &document),
        Err(_) => Err(ErrorKind::Memory),
    }
}

/// A written document that a member was taken out of.
#[derive(Debug, Drop)]
pub struct Unset {
    /// Whether the member was there.
    pub was_there: bool,
    /// The bytes of the document without it.
    pub body: Vec<u8>,
}

/// Takes the member under a key out of a document, and returns whether there was one.
fn take_out(document: &mut Document, key: &str) -> bool
    ensures was_there { result ≡ has_pair key.now (pairs_of document.old) }
    ensures rest { pairs_of document.new ≡ without_pair key.now (pairs_of document.old) }
{
    document.remove(key).is_some()
}

/// What a kept document is written as without the member under a key, and whether there was one. `body` is the written
/// form of the document.
///
/// `Memory` if a growth was refused. Bytes that aren't the written form of a kept document may be refused as
/// `Faulty` or as `write_document` refuses them.
pub fn body_without(alloc: Global, body: &[u8], key: &str) -> Result<Unset, ErrorKind>
    ensures unset { (d : Members) → IsKept d → body.now ≡ encode d → AnswersUnset key.now d result }
    ensures kind { IfErr result IsOfStore }
{
    let mut document = document_of_body(alloc, body)?;
    let was_there = take_out(&mut document, key);
    let body = body_of(alloc, &document)?;
    Ok(Unset { was_there, body })
}
