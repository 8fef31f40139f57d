//! A document that is found and changed, or put in if there is none.

ghost use Rattle.std.specs.Prelude.{◌≡◌, IfOk, List};
ghost use Rattle.std.specs.Vec.Iter.{into_iter_items};
ghost use Rattle.bson_model.specs.View.{content, view};
ghost use Rattle.bson_store.specs.Calls.{store_state};
ghost use Rattle.bson_store.specs.Export.{bytes_of_each};
ghost use Rattle.fallowtime_messages.specs.Waiting.{Wait};
ghost use Rattle.fallowtime_messages.specs.Done.{DoesAll};
ghost use Rattle.fallowtime_messages.specs.Outcomes.{CarriesOrStarts, DidNext, GoesFound, GoesOrStarts, GoesPut, LeadsOrStarts, ShowsOrStarts, TellsFirst, TellsNotPut, TellsShown, is_none};
ghost use Rattle.fallowtime_statements.specs.declared.plans.asked.Plan.TheVariants as plans;

use crate::answers::{put_in, refused};
use crate::telling::{item_of, tell};
use crate::writing::{discard, perform_statement};
use bson_model::{Bson, Document};
use bson_store::{Store, StoreError};
use fallowtime_commands::{Answer, update_name};
use fallowtime_statements::plans::Way;
use fallowtime_statements::{Statement, code_of, update_code};
use sqlite::Alter;
use std::alloc::{AllocError, Global};
use std::vec::IntoIter;

/// Does the next statement, if there is one.
pub(crate) fn perform_next<S: Alter + Drop>(
    alloc: Global,
    store: &mut Store<S>,
    rest: &mut IntoIter<Statement>,
) -> Option<Result<Answer, StoreError>>
    ensures { DidNext (into_iter_items rest.old) (into_iter_items rest.new) result (store_state S.Store store.old) (store_state S.Store store.new) }
{
    let Some(statement) = rest.next() else {
        return None;
    };
    let mut statement = statement;
    let outcome = perform_statement(alloc, store, &mut statement);
    discard(statement);
    Some(outcome)
}

/// The document that tells the first of documents as the one that was put in.
fn tell_first(alloc: Global, id: &Bson, bodies: &[Vec<u8>]) -> Result<Document, AllocError>
    ensures { IfOk result (λ d. TellsFirst (view id.now) (bytes_of_each bodies.now) (content d)) }
{
    let [body, ..] = bodies else {
        return Err(AllocError);
    };
    let value = item_of(alloc, body.as_slice())?;
    put_in(alloc, id, value)
}

/// The document that tells which document was put in, as it was found then.
fn tell_shown(
    alloc: Global,
    id: &Bson,
    outcome: &Result<Answer, StoreError>,
) -> Result<Document, AllocError>
    ensures { IfOk result (λ d. TellsShown (view id.now) outcome.now (content d)) }
{
    match outcome {
        Ok(Answer::Documents(bodies)) => tell_first(alloc, id, bodies.as_slice()),
        Ok(_) => Err(AllocError),
        Err(error) => {
            let why = String::from_str(alloc, error.kind.name())?;
            refused(alloc, why, code_of(error.kind))
        }
    }
}

/// Tells which document was put in, as the next statement finds it, if there is one.
fn show<S: Alter + Drop>(
    alloc: Global,
    store: &mut Store<S>,
    rest: &mut IntoIter<Statement>,
    id: &Bson,
) -> Result<Document, AllocError>
    ensures { DoesAll (ShowsOrStarts (into_iter_items rest.old) (view id.now) result) (store_state S.Store store.old) (store_state S.Store store.new) }
{
    match perform_next(alloc, store, rest) {
        None => put_in(alloc, id, Bson::Null),
        Some(outcome) => tell_shown(alloc, id, &outcome),
    }
}

/// The document that tells why none was put in.
fn tell_not_put(alloc: Global, outcome: &Result<Answer, StoreError>) -> Result<Document, AllocError>
    ensures { IfOk result (λ d. TellsNotPut outcome.now (content d)) }
{
    match outcome {
        Ok(Answer::NotUpserted(error)) => {
            let why = String::from_str(alloc, update_name(*error))?;
            refused(alloc, why, update_code(*error))
        }
        Ok(_) => Err(AllocError),
        Err(error) => {
            let why = String::from_str(alloc, error.kind.name())?;
            refused(alloc, why, code_of(error.kind))
        }
    }
}

/// Goes on behind an upsert with this outcome.
fn behind_put<S: Alter + Drop>(
    alloc: Global,
    store: &mut Store<S>,
    rest: &mut IntoIter<Statement>,
    outcome: &Result<Answer, StoreError>,
) -> Result<Document, AllocError>
    ensures { DoesAll (GoesOrStarts GoesPut (into_iter_items rest.old) outcome.now result) (store_state S.Store store.old) (store_state S.Store store.new) }
{
    match outcome {
        Ok(Answer::Upserted(id)) => show(alloc, store, rest, id),
        _ => tell_not_put(alloc, outcome),
    }
}

/// Puts a document in, as the next statement says, and tells it.
fn put<S: Alter + Drop>(
    alloc: Global,
    store: &mut Store<S>,
    rest: &mut IntoIter<Statement>,
) -> Result<Document, AllocError>
    ensures { DoesAll (LeadsOrStarts GoesPut (into_iter_items rest.old) result) (store_state S.Store store.old) (store_state S.Store store.new) }
{
    match perform_next(alloc, store, rest) {
        None => Err(AllocError),
        Some(outcome) => behind_put(alloc, store, rest, &outcome),
    }
}

/// Whether no document was found.
fn is_none(outcome: &Result<Answer, StoreError>) -> bool
    ensures { result ≡ is_none outcome.now }
{
    match outcome {
        Ok(Answer::Found(found)) => found.is_none(),
        _ => false,
    }
}

/// Goes on behind a statement that finds and changes, with this outcome.
fn behind_found<S: Alter + Drop>(
    alloc: Global,
    store: &mut Store<S>,
    rest: &mut IntoIter<Statement>,
    outcome: &Result<Answer, StoreError>,
) -> Result<Document, AllocError>
    ensures { DoesAll (GoesOrStarts GoesFound (into_iter_items rest.old) outcome.now result) (store_state S.Store store.old) (store_state S.Store store.new) }
{
    if is_none(outcome) {
        put(alloc, store, rest)
    } else {
        tell(alloc, &Way::Modified(false), outcome)
    }
}

/// Finds a document and changes it, as the first statement says; puts one in if there is none, as the second says; and
/// finds that, as the third says, if there is one. Tells what came of it.
fn find_or_put<S: Alter + Drop>(
    alloc: Global,
    store: &mut Store<S>,
    rest: &mut IntoIter<Statement>,
) -> Result<Document, AllocError>
    ensures { DoesAll (LeadsOrStarts GoesFound (into_iter_items rest.old) result) (store_state S.Store store.old) (store_state S.Store store.new) }
{
    match perform_next(alloc, store, rest) {
        None => Err(AllocError),
        Some(outcome) => behind_found(alloc, store, rest, &outcome),
    }
}

/// The same of the statements of a plan.
pub(crate) fn carry_upsert<S: Alter + Drop>(
    alloc: Global,
    store: &mut Store<S>,
    statements: Vec<Statement>,
) -> Result<Document, AllocError>
    ensures { (xs : List Wait) → DoesAll (CarriesOrStarts (plans.Upserts statements) xs xs result) (store_state S.Store store.old) (store_state S.Store store.new) }
{
    let mut rest = statements.into_iter();
    find_or_put(alloc, store, &mut rest)
}
