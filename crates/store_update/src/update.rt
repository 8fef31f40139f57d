//! Updates: steps, one after the other.

ghost use Rattle.std.specs.Prelude.{◌≡◌, ◌||◌, IfOk, map, option_map};
ghost use Rattle.bson_base.specs.Answer.{result_map};
ghost use Rattle.bson_model.specs.View.{content, view};
ghost use Rattle.store_update.specs.Answer.{lent, viewed_document};
ghost use Rattle.store_update.specs.Plan.{change_of, path_of, plan_of};
ghost use Rattle.store_update.specs.Update.{Tells, altered, changed, found, is_left_out, is_of_id, made, moved, renamed, step_made, updated};

use crate::alter::altered;
use crate::error::UpdateError;
use crate::operation::{Operation, Step};
use bson_model::{Bson, Document};
use std::alloc::{AllocError, Global};

/// Whether a path begins at the `_id`, or has no key: what is there isn't changed.
pub fn is_of_id(path: &[String]) -> bool
    ensures { result ≡ is_of_id (path_of path.now) }
{
    match path.first() {
        Some(key) => key.as_str() == "_id",
        None => true,
    }
}

/// Whether one of two paths begins at the `_id`, or has no key.
fn are_of_id(path: &[String], to: &[String]) -> bool
    ensures { result ≡ (is_of_id (path_of path.now) || is_of_id (path_of to.now)) }
{
    is_of_id(path) || is_of_id(to)
}

/// Whether an operation is for a document that is inserted, and this one isn't.
fn is_left_out(inserts: bool, operation: &Operation) -> bool
    ensures { result ≡ is_left_out inserts (change_of operation.now) }
{
    match operation {
        Operation::SetOnInsert(_) => !inserts,
        Operation::Set(_) => false,
        Operation::Unset => false,
        Operation::Add(_) => false,
        Operation::Multiply(_) => false,
        Operation::Least(_) => false,
        Operation::Greatest(_) => false,
        Operation::Push(_) => false,
        Operation::Include(_) => false,
        Operation::Exclude(_) => false,
        Operation::Pop(_) => false,
    }
}

/// What an operation at a path makes of a document.
fn changed(
    alloc: Global,
    inserts: bool,
    document: Document,
    path: &[String],
    operation: &Operation,
) -> Result<Document, UpdateError>
    ensures { Tells (changed inserts (path_of path.now) (change_of operation.now) (content document)) (viewed_document result) }
{
    if is_of_id(path) {
        return Err(UpdateError::Id);
    }
    if is_left_out(inserts, operation) {
        return Ok(document);
    }
    altered(alloc, document, path, operation)
}

/// The value that the rest of a path leads to, through documents alone. Through is refused where it meets another value.
pub fn found<'a>(value: Option<&'a Bson>, path: &[String]) -> Result<Option<&'a Bson>, UpdateError>
    ensures { result_map lent result ≡ found (path_of path.now) (lent value.entry) }
{
    let Some((key, rest)) = path.split_first() else {
        return Ok(value);
    };
    let Some(value) = value else {
        return Ok(None);
    };
    match value.as_document() {
        Some(document) => found(document.get(key.as_str()), rest),
        None => Err(UpdateError::Through),
    }
}

/// The document in which an operation is done at a path. The operation is let go here, by a call.
fn done_at(
    alloc: Global,
    document: Document,
    path: &[String],
    operation: Operation,
) -> Result<Document, UpdateError>
    ensures { Tells (altered (made (change_of operation)) (path_of path.now) (content document)) (viewed_document result) }
{
    let made = altered(alloc, document, path, &operation);
    drop(operation);
    made
}

/// The value is taken out at the path and put at the other one, if there is any.
fn moved(
    alloc: Global,
    document: Document,
    path: &[String],
    to: &[String],
    value: Option<Bson>,
) -> Result<Document, UpdateError>
    ensures { Tells (moved (path_of path.now) (path_of to.now) (option_map view value) (content document)) (viewed_document result) }
{
    let Some(value) = value else {
        return Ok(document);
    };
    let put = Operation::Set(value);
    match done_at(alloc, document, path, Operation::Unset) {
        Ok(document) => done_at(alloc, document, to, put),
        Err(stop) => {
            drop(put);
            Err(stop)
        }
    }
}

/// A copy of a value.
fn copied(alloc: Global, value: Option<&Bson>) -> Result<Option<Bson>, AllocError>
    ensures { IfOk result (λ copy. option_map view copy ≡ lent value.entry) }
{
    match value {
        Some(value) => Ok(Some(value.try_clone(alloc)?)),
        None => Ok(None),
    }
}

/// The document in which the value at a path has gone to another one.
fn renamed(
    alloc: Global,
    document: Document,
    path: &[String],
    to: &[String],
) -> Result<Document, UpdateError>
    ensures { Tells (renamed (path_of path.now) (path_of to.now) (content document)) (viewed_document result) }
{
    let Some((key, rest)) = path.split_first() else {
        return Err(UpdateError::Id);
    };
    if are_of_id(path, to) {
        return Err(UpdateError::Id);
    }
    let value = copied(alloc, found(document.get(key.as_str()), rest)?)?;
    moved(alloc, document, path, to, value)
}

/// What one step makes of a document.
fn step_made(
    alloc: Global,
    inserts: bool,
    document: Document,
    step: &Step,
) -> Result<Document, UpdateError>
    ensures { Tells (step_made inserts (plan_of step.now) (content document)) (viewed_document result) }
{
    match step {
        Step::At(path, operation) => {
            changed(alloc, inserts, document, path.as_slice(), operation)
        }
        Step::Rename(path, to) => renamed(alloc, document, path.as_slice(), to.as_slice()),
    }
}

/// What an update makes of a document, which it inserts or finds there.
///
/// Refused by the first step that is refused: by Id, if it would change the `_id`; by Through, if its path leads
/// through a value that is no document; by NotANumber, Decimal and Overflow of a sum or a product; by NotAnArray; and by
/// Memory.
pub fn updated(
    alloc: Global,
    inserts: bool,
    document: Document,
    steps: &[Step],
) -> Result<Document, UpdateError>
    ensures { Tells (updated inserts (map plan_of steps.now) (content document)) (viewed_document result) }
{
    let mut document = document;
    for step in steps {
        document = step_made(alloc, inserts, document, step)?;
    }
    Ok(document)
}
