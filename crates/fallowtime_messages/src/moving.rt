//! Documents that go to another collection.

ghost use Rattle.std.specs.Prelude.{◌≡◌, IfOk, List, string_bytes};
ghost use Rattle.std.specs.Vec.Iter.{into_iter_items};
ghost use Rattle.bson_model.specs.View.{content};
ghost use Rattle.bson_store.specs.Calls.{store_state};
ghost use Rattle.bson_store.specs.Export.{bytes_of_each};
ghost use Rattle.fallowtime_messages.specs.Waiting.{Wait};
ghost use Rattle.fallowtime_messages.specs.Done.{DoesAll};
ghost use Rattle.fallowtime_messages.specs.Outcomes.{CarriesOrStarts, GoesIn, GoesOut, GoesOr, LeadsOr, PutsOr, RenamesOrStarts, StartsIn, StartsOut, TellsBarred, TellsOut, TellsRenamed, TellsUnfound, WasRenamed, is_vacant};
ghost use Rattle.fallowtime_statements.specs.declared.plans.asked.Plan.TheVariants as plans;
ghost use Rattle.fallowtime_statements.specs.declared.statement.Statement.{Statement as Asked};

use crate::answers::{found, refused_as};
use crate::importing::import_all;
use crate::telling::copied;
use crate::upserting::perform_next;
use crate::writing::{discard, perform_statement};
use bson_model::Document;
use bson_store::{Store, StoreError};
use fallowtime_commands::{Answer, perform};
use fallowtime_requests::{Request, Transfer};
use fallowtime_statements::plans::done;
use fallowtime_statements::{Code, Statement, code_of, rename_code};
use sqlite::Alter;
use std::alloc::{AllocError, Global};
use std::vec::IntoIter;

/// Lets a request go. What a function that is generic over the database lets go is far dearer to prove.
fn let_go(request: Request<'_>) {
    drop(request);
}

/// Gives the documents of a collection to another one.
fn rename<S: Alter + Drop>(
    alloc: Global,
    store: &mut Store<S>,
    name: &str,
    new: &str,
) -> Result<Answer, StoreError>
    ensures { WasRenamed name.now new.now result (store_state S.Store store.old) (store_state S.Store store.new) }
{
    let mut request = Request::Transfer(Transfer::Rename(new, false));
    let outcome = perform(alloc, store, name, &mut request);
    let_go(request);
    outcome
}

/// The document that tells whether they were given.
fn tell_renamed(alloc: Global, outcome: &Result<Answer, StoreError>) -> Result<Document, AllocError>
    ensures { IfOk result (λ d. TellsRenamed outcome.now (content d)) }
{
    match outcome {
        Ok(_) => done(Document::new(alloc), alloc),
        Err(error) => refused_as(alloc, error.kind.name(), rename_code(error.kind)),
    }
}

/// Gives the documents of a collection to another one, and tells it.
pub(crate) fn carry_rename<S: Alter + Drop>(
    alloc: Global,
    store: &mut Store<S>,
    name: &str,
    new: &str,
) -> Result<Document, AllocError>
    ensures { DoesAll (RenamesOrStarts name.now new.now result) (store_state S.Store store.old) (store_state S.Store store.new) }
{
    let outcome = rename(alloc, store, name, new);
    tell_renamed(alloc, &outcome)
}

/// The document that tells that documents were put into a collection, or why not.
fn tell_out(
    alloc: Global,
    space: &String,
    outcome: &Result<Answer, StoreError>,
) -> Result<Document, AllocError>
    ensures { IfOk result (λ d. TellsOut (string_bytes space.now) outcome.now (content d)) }
{
    match outcome {
        Ok(Answer::Number(_)) => {
            let name = copied(alloc, space)?;
            found(alloc, name, Vec::new(alloc))
        }
        Ok(_) => Err(AllocError),
        Err(error) => refused_as(alloc, error.kind.name(), code_of(error.kind)),
    }
}

/// Puts documents into a collection, all or none, and tells it.
fn put_out<S: Alter + Drop>(
    alloc: Global,
    store: &mut Store<S>,
    target: &String,
    space: &String,
    bodies: &[Vec<u8>],
) -> Result<Document, AllocError>
    ensures { DoesAll (PutsOr (string_bytes target.now) (string_bytes space.now) (bytes_of_each bodies.now) result) (store_state S.Store store.old) (store_state S.Store store.new) }
{
    let mut all = import_all(alloc, target, bodies)?;
    let outcome = perform_statement(alloc, store, &mut all);
    discard(all);
    tell_out(alloc, space, &outcome)
}

/// The document that tells why nothing was found.
fn tell_unfound(alloc: Global, outcome: &Result<Answer, StoreError>) -> Result<Document, AllocError>
    ensures { IfOk result (λ d. TellsUnfound outcome.now (content d)) }
{
    match outcome {
        Ok(_) => Err(AllocError),
        Err(error) => refused_as(alloc, error.kind.name(), code_of(error.kind)),
    }
}

/// Goes on behind a find with this outcome.
fn behind_find<S: Alter + Drop>(
    alloc: Global,
    store: &mut Store<S>,
    target: &String,
    space: &String,
    outcome: &Result<Answer, StoreError>,
) -> Result<Document, AllocError>
    ensures { (ss : List Asked) → DoesAll (GoesOr (GoesOut (string_bytes target.now) (string_bytes space.now)) (StartsOut (string_bytes target.now)) ss outcome.now result) (store_state S.Store store.old) (store_state S.Store store.new) }
{
    match outcome {
        Ok(Answer::Documents(bodies)) => put_out(alloc, store, target, space, bodies.as_slice()),
        _ => tell_unfound(alloc, outcome),
    }
}

/// Finds documents, as the next statement says, and puts them into a collection.
fn find_out<S: Alter + Drop>(
    alloc: Global,
    store: &mut Store<S>,
    rest: &mut IntoIter<Statement>,
    target: &String,
    space: &String,
) -> Result<Document, AllocError>
    ensures { DoesAll (LeadsOr (GoesOut (string_bytes target.now) (string_bytes space.now)) (StartsOut (string_bytes target.now)) (into_iter_items rest.old) result) (store_state S.Store store.old) (store_state S.Store store.new) }
{
    match perform_next(alloc, store, rest) {
        None => Err(AllocError),
        Some(outcome) => behind_find(alloc, store, target, space, &outcome),
    }
}

/// Whether a collection has no documents.
fn is_vacant(outcome: &Result<Answer, StoreError>) -> bool
    ensures { result ≡ is_vacant outcome.now }
{
    match outcome {
        Ok(Answer::Number(number)) => *number == 0,
        _ => false,
    }
}

/// The document that tells why nothing is put into it.
fn tell_barred(alloc: Global, outcome: &Result<Answer, StoreError>) -> Result<Document, AllocError>
    ensures { IfOk result (λ d. TellsBarred outcome.now (content d)) }
{
    match outcome {
        Ok(_) => refused_as(alloc, "$out", Code::NamespaceExists),
        Err(error) => refused_as(alloc, error.kind.name(), code_of(error.kind)),
    }
}

/// Goes on behind a count with this outcome.
fn behind_count<S: Alter + Drop>(
    alloc: Global,
    store: &mut Store<S>,
    rest: &mut IntoIter<Statement>,
    target: &String,
    space: &String,
    outcome: &Result<Answer, StoreError>,
) -> Result<Document, AllocError>
    ensures { DoesAll (GoesOr (GoesIn (string_bytes target.now) (string_bytes space.now)) (StartsIn (string_bytes target.now)) (into_iter_items rest.old) outcome.now result) (store_state S.Store store.old) (store_state S.Store store.new) }
{
    if is_vacant(outcome) {
        find_out(alloc, store, rest, target, space)
    } else {
        tell_barred(alloc, outcome)
    }
}

/// Counts the documents of a collection, as the first statement says; if it has none, finds others, as the second says,
/// and puts them into it. Tells what came of it.
fn count_and_find<S: Alter + Drop>(
    alloc: Global,
    store: &mut Store<S>,
    rest: &mut IntoIter<Statement>,
    target: &String,
    space: &String,
) -> Result<Document, AllocError>
    ensures { DoesAll (LeadsOr (GoesIn (string_bytes target.now) (string_bytes space.now)) (StartsIn (string_bytes target.now)) (into_iter_items rest.old) result) (store_state S.Store store.old) (store_state S.Store store.new) }
{
    match perform_next(alloc, store, rest) {
        None => Err(AllocError),
        Some(outcome) => behind_count(alloc, store, rest, target, space, &outcome),
    }
}

/// The same of the statements of a plan.
pub(crate) fn carry_out<S: Alter + Drop>(
    alloc: Global,
    store: &mut Store<S>,
    statements: Vec<Statement>,
    target: &String,
    space: &String,
) -> Result<Document, AllocError>
    ensures { (xs : List Wait) → DoesAll (CarriesOrStarts (plans.Outs target.now space.now statements) xs xs result) (store_state S.Store store.old) (store_state S.Store store.new) }
{
    let mut rest = statements.into_iter();
    count_and_find(alloc, store, &mut rest, target, space)
}
