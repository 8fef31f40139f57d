//! `$unwind`: documents taken apart.

ghost use Rattle.std.specs.Prelude.{◌≡◌, ◌≢◌, ◌||◌, ◌∷◌, IfOk, Ok, Some, map, not};
ghost use Rattle.std.specs.List.{flat_map};
ghost use Rattle.bson_base.specs.Value.{array, document as tree};
ghost use Rattle.bson_model.specs.View.{content, items_of, view};
ghost use Rattle.store_model.specs.Reading.{Documents};
ghost use Rattle.store_pipeline.specs.Bodies.{AreBodies, OfBody};
ghost use Rattle.store_update.specs.Answer.{lent};
ghost use Rattle.store_update.specs.Plan.{change_of, path_of};
ghost use Rattle.store_update.specs.Update.{altered as altered_members, found as found_at, made as made_by};
ghost use Rattle.store_update.specs.declared.error.UpdateError.TheVariants.{Memory};
ghost use Rattle.store_pipeline.specs.Faithful.{AnswersMade};
ghost use Rattle.store_pipeline.specs.Groups.{is_null as is_null_at};
ghost use Rattle.store_pipeline.specs.Unwound.{found_in, if_kept, opened as opened_at, opened_array as opened_items, or_same, unwound, with_at};

use crate::accumulating::is_null;
use crate::error::PipelineError;
use crate::stage::Unwinding;
use crate::writing::write_each;
use bson_model::{Bson, Document};
use bson_raw::RawDocument;
use std::alloc::{AllocError, Global};
use store_update::{Operation, UpdateError, altered, found};

/// The document that has this body.
fn document_of(alloc: Global, body: &[u8]) -> Result<Document, AllocError>
    ensures { OfBody body.now (λ d. IfOk result (λ e. content e ≡ d)) }
{
    let Ok(raw) = RawDocument::from_bytes(body) else {
        return Err(AllocError);
    };
    match raw.to_document(alloc) {
        Ok(document) => Ok(document),
        Err(_) => Err(AllocError),
    }
}

/// The document as it is, unless memory ran out as it was changed.
fn unchanged(document: &Document, error: UpdateError) -> Result<Document, AllocError>
    ensures { IfOk result (λ e. (content e ≡ content document.now) × (error ≢ Memory)) }
{
    match error {
        UpdateError::Memory => Err(AllocError),
        _ => document.try_clone(),
    }
}

/// The document in which the value at a path has become what an operation makes of it, or the same if that can't be.
fn changed(
    alloc: Global,
    document: &Document,
    path: &[String],
    operation: &Operation,
) -> Result<Document, AllocError>
    ensures { IfOk result (λ e. content e ≡ or_same (content document.now)
        (altered_members (made_by (change_of operation.now)) (path_of path.now) (content document.now))) }
{
    match altered(alloc, document.try_clone()?, path, operation) {
        Ok(document) => Ok(document),
        Err(error) => unchanged(document, error),
    }
}

/// The document with a value at a path.
fn with_value(
    alloc: Global,
    document: &Document,
    path: &[String],
    value: &Bson,
) -> Result<Document, AllocError>
    ensures { IfOk result (λ e. content e ≡ with_at (path_of path.now) (content document.now) (Some (view value.now))) }
{
    let operation = Operation::Set(value.try_clone(alloc)?);
    let made = changed(alloc, document, path, &operation);
    drop(operation);
    made
}

/// The document with each of these values in turn at a path.
fn with_each(
    alloc: Global,
    document: &Document,
    path: &[String],
    values: &[Bson],
) -> Result<Vec<Document>, AllocError>
    ensures { IfOk result (λ made. map content made.items
        ≡ map (λ v. with_at (path_of path.now) (content document.now) (Some v)) (map view values.now)) }
{
    let mut made = Vec::with_capacity(alloc, values.len())?;
    for value in values {
        made.push(with_value(alloc, document, path, value)?)?;
    }
    Ok(made)
}

/// The document alone, if it is kept.
fn if_any(alloc: Global, document: &Document, keeps: bool) -> Result<Vec<Document>, AllocError>
    ensures { IfOk result (λ made. map content made.items ≡ if_kept keeps (content document.now)) }
{
    let mut made = Vec::new(alloc);
    if keeps {
        made.push(document.try_clone()?)?;
    }
    Ok(made)
}

/// The documents in which each item is in the place of the array at the path; of none, if it is kept, the document
/// without the array.
fn opened_array(
    alloc: Global,
    document: &Document,
    unwinding: &Unwinding,
    items: &[Bson],
) -> Result<Vec<Document>, AllocError>
    ensures { found_at (path_of unwinding.now.path.items) (Some (tree (content document.now)))
        ≡ Ok (Some (array (items_of (map view items.now))))
        → IfOk result (λ made. map content made.items ≡ opened_items unwinding.now.keeps
        (path_of unwinding.now.path.items) (content document.now) (items_of (map view items.now))) }
{
    let path = unwinding.path.as_slice();
    if items.is_empty() {
        let without = changed(alloc, document, path, &Operation::Unset)?;
        return if_any(alloc, &without, unwinding.keeps);
    }
    // So the array isn't copied once for each item.
    let emptied = changed(alloc, document, path, &Operation::Set(Bson::Null))?;
    with_each(alloc, &emptied, path, items)
}

/// Whether a document stays as it is with a value at the path that is no array.
fn stays(value: &Bson, keeps: bool) -> bool
    ensures { result ≡ (not (is_null_at (view value.now)) || keeps) }
{
    !is_null(value) || keeps
}

/// The documents that a document is taken apart into by the value at the path.
fn opened(
    alloc: Global,
    document: &Document,
    unwinding: &Unwinding,
    value: &Bson,
) -> Result<Vec<Document>, AllocError>
    ensures { found_at (path_of unwinding.now.path.items) (Some (tree (content document.now)))
        ≡ Ok (Some (view value.now)) → IfOk result (λ made. map content made.items ≡ opened_at
        unwinding.now.keeps (path_of unwinding.now.path.items) (content document.now) (Some (view value.now))) }
{
    match value.as_array() {
        Some(items) => opened_array(alloc, document, unwinding, items.as_slice()),
        None => if_any(alloc, document, stays(value, unwinding.keeps)),
    }
}

/// What a path leads to below a document, through documents alone.
fn value_at<'a>(document: &'a Document, key: &str, rest: &[String]) -> Option<&'a Bson>
    ensures { lent result ≡ found_in (found_at (key.now ∷ path_of rest.now) (Some (tree (content document.now)))) }
{
    match found(document.get(key), rest) {
        Ok(value) => value,
        Err(_) => None,
    }
}

/// The documents that a document is taken apart into.
fn taken_apart(
    alloc: Global,
    document: &Document,
    unwinding: &Unwinding,
) -> Result<Vec<Document>, AllocError>
    ensures { IfOk result (λ made. map content made.items ≡ unwound unwinding.now (content document.now)) }
{
    let Some((key, rest)) = unwinding.path.as_slice().split_first() else {
        return if_any(alloc, document, true);
    };
    match value_at(document, key.as_str(), rest) {
        Some(value) => opened(alloc, document, unwinding, value),
        None => if_any(alloc, document, unwinding.keeps),
    }
}

/// The bodies of the documents that the one with this body is taken apart into.
fn unwind_body(
    alloc: Global,
    body: &[u8],
    unwinding: &Unwinding,
) -> Result<Vec<Vec<u8>>, PipelineError>
    ensures { OfBody body.now (λ d. AnswersMade (unwound unwinding.now d) result) }
{
    let document = document_of(alloc, body)?;
    let documents = taken_apart(alloc, &document, unwinding)?;
    write_each(alloc, documents.as_slice())
}

/// The bodies of all documents that those with these bodies are taken apart into.
pub(crate) fn unwind(
    alloc: Global,
    bodies: &[Vec<u8>],
    unwinding: &Unwinding,
) -> Result<Vec<Vec<u8>>, PipelineError>
    ensures { (ds : Documents) → AreBodies bodies.now ds → AnswersMade (flat_map (unwound unwinding.now) ds) result }
{
    let mut made = Vec::new(alloc);
    for body in bodies {
        let mut more = unwind_body(alloc, body.as_slice(), unwinding)?;
        made.append(&mut more)?;
    }
    Ok(made)
}
