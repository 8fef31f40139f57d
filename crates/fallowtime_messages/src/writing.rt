//! Statements, done one after the other.

ghost use Rattle.std.specs.Prelude.{◌≡◌, ◌++◌, ◌&&◌, [], IfOk, OnOk, Some, map};
ghost use Rattle.bson_model.specs.View.{view};
ghost use Rattle.bson_store.specs.Calls.{store_state};
ghost use Rattle.fallowtime_commands.specs.Performing.{IsAnswerTo};
ghost use Rattle.fallowtime_commands.specs.Deeds.{Did};
ghost use Rattle.fallowtime_messages.specs.Done.{DoesAll};
ghost use Rattle.fallowtime_messages.specs.Runs.{Adds, RunsTo, Sums, WritesOne, changed_of, count_of, deed_of, errors_of, ids_of, is_refused};

use crate::answers::{upserted, write_error};
use bson_model::Bson;
use bson_store::{Store, StoreError};
use fallowtime_commands::{Answer, perform, update_name};
use fallowtime_statements::{Statement, code_of, update_code};
use sqlite::Alter;
use std::alloc::{AllocError, Global};

/// What is kept of the outcomes of statements.
#[derive(Drop)]
pub(crate) struct Written {
    /// How many statements were done, those among them that are refused.
    pub(crate) place: u64,
    /// How many documents they were of.
    pub(crate) count: u64,
    /// How many of these are other ones now.
    pub(crate) changed: u64,
    /// The `_id`s of the documents that were put in, and which statements did it.
    pub(crate) ids: Vec<Bson>,
    /// Why statements are refused.
    pub(crate) errors: Vec<Bson>,
}

/// Does what a statement asks.
pub(crate) fn perform_statement<S: Alter + Drop>(
    alloc: Global,
    store: &mut Store<S>,
    statement: &mut Statement,
) -> Result<Answer, StoreError>
    ensures did { Did (Some (deed_of statement.old result)) (store_state S.Store store.old) (store_state S.Store store.new) }
    ensures shape { IfOk result (IsAnswerTo statement.old.request) }
{
    perform(
        alloc,
        store,
        statement.name.as_str(),
        &mut statement.request,
    )
}

/// Whether a change isn't made.
fn is_refused(outcome: &Result<Answer, StoreError>) -> bool
    ensures { result ≡ is_refused outcome.now }
{
    match outcome {
        Ok(Answer::NotUpdated(_, _)) | Ok(Answer::NotUpserted(_)) => true,
        Ok(_) => false,
        Err(_) => true,
    }
}

/// How many documents a change was of.
fn count_of(outcome: &Result<Answer, StoreError>) -> u64
    ensures { result ≡ count_of outcome.now }
{
    match outcome {
        Ok(Answer::Number(number)) => *number,
        Ok(Answer::Updated(matched, _)) => *matched,
        Ok(Answer::Upserted(_)) => 1,
        _ => 0,
    }
}

/// How many of them are other ones now.
fn changed_of(outcome: &Result<Answer, StoreError>) -> u64
    ensures { result ≡ changed_of outcome.now }
{
    match outcome {
        Ok(Answer::Updated(_, changed)) => *changed,
        _ => 0,
    }
}

/// Adds to the `_id`s that of the document that the statement at a place put in, if it did.
fn push_id(
    alloc: Global,
    place: u64,
    outcome: &Result<Answer, StoreError>,
    ids: &mut Vec<Bson>,
) -> Result<(), AllocError>
    ensures { OnOk result (map view ids.new.items ≡ map view ids.old.items ++ ids_of place outcome.now) }
{
    match outcome {
        Ok(Answer::Upserted(id)) => {
            let told = upserted(alloc, place, id)?;
            ids.push(told)?;
        }
        _ => {}
    }
    Ok(())
}

/// Adds to the errors why the statement at a place is refused, if it is.
fn push_error(
    alloc: Global,
    place: u64,
    outcome: &Result<Answer, StoreError>,
    errors: &mut Vec<Bson>,
) -> Result<(), AllocError>
    ensures { OnOk result (map view errors.new.items ≡ map view errors.old.items ++ errors_of place outcome.now) }
{
    match outcome {
        Ok(Answer::NotUpdated(_, error)) | Ok(Answer::NotUpserted(error)) => {
            let told = write_error(alloc, place, update_code(*error), update_name(*error))?;
            errors.push(told)?;
        }
        Err(error) => {
            let told = write_error(alloc, place, code_of(error.kind), error.kind.name())?;
            errors.push(told)?;
        }
        _ => {}
    }
    Ok(())
}

/// Adds an outcome to what is kept.
fn keep(
    alloc: Global,
    outcome: &Result<Answer, StoreError>,
    written: &mut Written,
) -> Result<(), AllocError>
    ensures { OnOk result (Adds outcome.now written.old written.new) }
{
    push_id(alloc, written.place, outcome, &mut written.ids)?;
    push_error(alloc, written.place, outcome, &mut written.errors)?;
    written.place = written.place.checked_add(1).ok_or(AllocError)?;
    written.count = written
        .count
        .checked_add(count_of(outcome))
        .ok_or(AllocError)?;
    written.changed = written
        .changed
        .checked_add(changed_of(outcome))
        .ok_or(AllocError)?;
    Ok(())
}

/// Whether the statements behind one with this outcome aren't done.
fn is_last(stops: bool, outcome: &Result<Answer, StoreError>) -> bool
    ensures { result ≡ (stops && is_refused outcome.now) }
{
    stops && is_refused(outcome)
}

/// Lets a statement go. What a function that is generic over the database lets go is far dearer to prove.
pub(crate) fn discard(statement: Statement) {
    drop(statement);
}

/// Does what a statement asks, and adds the outcome to what is kept: whether the statements behind it aren't done.
fn write_one<S: Alter + Drop>(
    alloc: Global,
    store: &mut Store<S>,
    statement: Statement,
    stops: bool,
    written: &mut Written,
) -> Result<bool, AllocError>
    ensures { WritesOne stops statement written.old written.new result (store_state S.Store store.old) (store_state S.Store store.new) }
{
    let mut statement = statement;
    let outcome = perform_statement(alloc, store, &mut statement);
    discard(statement);
    keep(alloc, &outcome, written)?;
    Ok(is_last(stops, &outcome))
}

/// Nothing kept yet.
fn begun(alloc: Global) -> Written
    ensures { Sums [] result }
{
    Written {
        place: 0,
        count: 0,
        changed: 0,
        ids: Vec::new(alloc),
        errors: Vec::new(alloc),
    }
}

/// Does what statements ask, one after the other; if a refusal stops them, none behind the first that is refused.
///
/// After an error memory ran out for what is kept, and some of them may have been done.
pub(crate) fn write_all<S: Alter + Drop>(
    alloc: Global,
    store: &mut Store<S>,
    statements: Vec<Statement>,
    stops: bool,
) -> Result<Written, AllocError>
    ensures { DoesAll (RunsTo stops statements.items result) (store_state S.Store store.old) (store_state S.Store store.new) }
{
    let mut written = begun(alloc);
    for statement in statements {
        let is_last = write_one(alloc, store, statement, stops, &mut written)?;
        if is_last {
            return Ok(written);
        }
    }
    Ok(written)
}
