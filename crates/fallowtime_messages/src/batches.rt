//! What was found, told batch by batch.

ghost use Rattle.std.specs.Prelude.{◌≡◌, IfOk, OnOk, map};
ghost use Rattle.bson_model.specs.View.{content, view};
ghost use Rattle.bson_store.specs.Export.{bytes_of_each};
ghost use Rattle.fallowtime_messages.specs.Waiting.{waiting};
ghost use Rattle.fallowtime_messages.specs.Outcomes.{Closes, TellsBatch, TellsBy, TellsClosed, TellsDocuments, TellsFound, TellsMore, batch_key, with_number};

use crate::answers::{closed, first_batch, next_batch, refused};
use crate::batch::Batch;
use crate::cursors::Cursors;
use crate::telling::{items_of_each, tell};
use bson_model::{Array, Bson, Document};
use bson_store::StoreError;
use fallowtime_commands::{Answer, update_name};
use fallowtime_statements::plans::Way;
use fallowtime_statements::{Code, code_of, update_code};
use std::alloc::{AllocError, Global};
use std::mem::replace;

/// The document that tells a batch: the first one of a find, or a further one.
fn tell_batch(
    alloc: Global,
    is_first: bool,
    space: &str,
    told: &Batch,
) -> Result<Document, AllocError>
    ensures { IfOk result (λ d. TellsBatch (batch_key is_first) space.now told.now (content d)) }
{
    let name = String::from_str(alloc, space)?;
    let documents = items_of_each(alloc, told.bodies.as_slice())?;
    if is_first {
        first_batch(alloc, told.id, name, documents)
    } else {
        next_batch(alloc, told.id, name, documents)
    }
}

/// The document that tells the first batch of what was found.
fn tell_documents(
    alloc: Global,
    cursors: &mut Cursors,
    space: &str,
    size: u64,
    single: bool,
    bodies: Vec<Vec<u8>>,
) -> Result<Document, AllocError>
    ensures { IfOk result (λ d. TellsDocuments space.now size single (bytes_of_each bodies.items) (waiting cursors.old) (waiting cursors.new) (content d)) }
{
    let first = cursors.begin(alloc, space, bodies, size, single)?;
    tell_batch(alloc, true, space, &first)
}

/// The document that tells what a find returned. The documents are taken out of it.
fn tell_found(
    alloc: Global,
    cursors: &mut Cursors,
    space: &str,
    size: u64,
    single: bool,
    outcome: &mut Result<Answer, StoreError>,
) -> Result<Document, AllocError>
    ensures { IfOk result (λ d. TellsFound space.now size single outcome.old (waiting cursors.old) (waiting cursors.new) (content d)) }
{
    match outcome {
        Ok(Answer::Documents(bodies)) => {
            let bodies = replace(bodies, Vec::new(alloc));
            tell_documents(alloc, cursors, space, size, single, bodies)
        }
        Ok(Answer::NotCalculated(error)) => {
            let why = String::from_str(alloc, update_name(*error))?;
            refused(alloc, why, update_code(*error))
        }
        Ok(_) => Err(AllocError),
        Err(error) => {
            let why = String::from_str(alloc, error.kind.name())?;
            refused(alloc, why, code_of(error.kind))
        }
    }
}

/// The document that tells what the store returned.
pub(crate) fn tell_by(
    alloc: Global,
    cursors: &mut Cursors,
    way: &Way,
    outcome: &mut Result<Answer, StoreError>,
) -> Result<Document, AllocError>
    ensures { IfOk result (λ d. TellsBy way.now outcome.old (waiting cursors.old) (waiting cursors.new) (content d)) }
{
    match way {
        Way::Found(space, size, single) => {
            tell_found(alloc, cursors, space.as_str(), *size, *single, outcome)
        }
        _ => tell(alloc, way, outcome),
    }
}

/// The document that tells a further batch. What isn't told of it is let go.
pub(crate) fn tell_more(
    alloc: Global,
    cursors: &mut Cursors,
    space: &str,
    id: i64,
    size: u64,
) -> Result<Document, AllocError>
    ensures { IfOk result (λ d. TellsMore space.now id size (waiting cursors.old) (waiting cursors.new) (content d)) }
{
    match cursors.more(alloc, id, space, size)? {
        Some(further) => tell_batch(alloc, false, space, &further),
        None => {
            let why = String::from_str(alloc, "getMore")?;
            refused(alloc, why, Code::CursorNotFound)
        }
    }
}

/// Adds the number of a find to others, if that is so.
fn push_number(is: bool, numbers: &mut Array, id: i64) -> Result<(), AllocError>
    ensures { OnOk result (map view numbers.new.items ≡ with_number is (map view numbers.old.items) id) }
{
    if is {
        numbers.push(Bson::Int64(id))?;
    }
    Ok(())
}

/// Lets finds go, and tells which of them waited, and which didn't.
pub(crate) fn tell_closed(
    alloc: Global,
    cursors: &mut Cursors,
    space: &str,
    ids: &[i64],
) -> Result<Document, AllocError>
    ensures { IfOk result (λ d. TellsClosed space.now ids.now (waiting cursors.old) (waiting cursors.new) (content d)) }
{
    let mut killed = Vec::new(alloc);
    let mut missing = Vec::new(alloc);
    for id in ids {
        let is = cursors.close(*id, space);
        push_number(is, &mut killed, *id)?;
        push_number(!is, &mut missing, *id)?;
    }
    closed(alloc, killed, missing)
}
