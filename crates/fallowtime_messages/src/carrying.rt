//! What a command asks, done on a store.

ghost use Rattle.std.specs.Prelude.{◌≡◌, List, string_bytes};
ghost use Rattle.bson_store.specs.Calls.{store_state};
ghost use Rattle.bson_store.specs.Export.{bytes_of_each};
ghost use Rattle.fallowtime_messages.specs.Waiting.{Wait, waiting};
ghost use Rattle.fallowtime_messages.specs.Done.{DoesAll};
ghost use Rattle.fallowtime_messages.specs.Outcomes.{CarriesOrStarts, InsertsOrStarts, PutsAll, number_of};
ghost use Rattle.fallowtime_statements.specs.declared.plans.asked.Plan.TheVariants as plans;

use crate::batches::{tell_by, tell_closed, tell_more};
use crate::cursors::Cursors;
use crate::importing::{import_all, imports};
use crate::moving::{carry_out, carry_rename};
use crate::telling::{tell_inserted, tell_written};
use crate::upserting::carry_upsert;
use crate::writing::{discard, perform_statement, write_all};
use bson_model::Document;
use bson_store::{Store, StoreError};
use fallowtime_commands::Answer;
use fallowtime_statements::Statement;
use fallowtime_statements::plans::{Plan, Way};
use sqlite::Alter;
use std::alloc::{AllocError, Global};

/// Does one thing, and tells it.
fn carry_one<S: Alter + Drop>(
    alloc: Global,
    store: &mut Store<S>,
    cursors: &mut Cursors,
    statement: Statement,
    way: &Way,
) -> Result<Document, AllocError>
    ensures { DoesAll (CarriesOrStarts (plans.One statement way.now) (waiting cursors.old) (waiting cursors.new) result) (store_state S.Store store.old) (store_state S.Store store.new) }
{
    let mut statement = statement;
    let mut outcome = perform_statement(alloc, store, &mut statement);
    discard(statement);
    tell_by(alloc, cursors, way, &mut outcome)
}

/// How many documents were put in, if they were.
fn number_put(outcome: &Result<Answer, StoreError>) -> Option<u64>
    ensures { result ≡ number_of outcome.now }
{
    match outcome {
        Ok(Answer::Number(number)) => Some(*number),
        _ => None,
    }
}

/// Puts all documents in at once: how many, or none if that is refused.
fn put_all<S: Alter + Drop>(
    alloc: Global,
    store: &mut Store<S>,
    statement: Statement,
) -> Option<u64>
    ensures { PutsAll statement result (store_state S.Store store.old) (store_state S.Store store.new) }
{
    let mut statement = statement;
    let outcome = perform_statement(alloc, store, &mut statement);
    discard(statement);
    number_put(&outcome)
}

/// Puts documents in: all at once; or, if that is refused, each by itself.
fn carry_inserts<S: Alter + Drop>(
    alloc: Global,
    store: &mut Store<S>,
    name: &String,
    documents: &[Vec<u8>],
    stops: bool,
) -> Result<Document, AllocError>
    ensures { DoesAll (InsertsOrStarts (string_bytes name.now) (bytes_of_each documents.now) stops result) (store_state S.Store store.old) (store_state S.Store store.new) }
{
    let all = import_all(alloc, name, documents)?;
    match put_all(alloc, store, all) {
        Some(number) => tell_inserted(alloc, number),
        None => {
            let each = imports(alloc, name, documents)?;
            let written = write_all(alloc, store, each, stops)?;
            tell_written(alloc, written, false)
        }
    }
}

/// Does changes, one after the other, and tells them.
fn carry_writes<S: Alter + Drop>(
    alloc: Global,
    store: &mut Store<S>,
    statements: Vec<Statement>,
    stops: bool,
    told_changed: bool,
) -> Result<Document, AllocError>
    ensures { (xs : List Wait) → DoesAll (CarriesOrStarts (plans.Writes statements stops told_changed) xs xs result) (store_state S.Store store.old) (store_state S.Store store.new) }
{
    let written = write_all(alloc, store, statements, stops)?;
    tell_written(alloc, written, told_changed)
}

/// Does what a command asks, and tells it.
///
/// After an error there is no room to tell it, and some of it may have been done.
pub(crate) fn carry<S: Alter + Drop>(
    alloc: Global,
    store: &mut Store<S>,
    cursors: &mut Cursors,
    plan: Plan,
) -> Result<Document, AllocError>
    ensures { DoesAll (CarriesOrStarts plan (waiting cursors.old) (waiting cursors.new) result) (store_state S.Store store.old) (store_state S.Store store.new) }
{
    match plan {
        Plan::Told(document) => Ok(document),
        Plan::One(statement, way) => carry_one(alloc, store, cursors, statement, &way),
        Plan::More(space, id, size) => tell_more(alloc, cursors, space.as_str(), id, size),
        Plan::Closes(space, ids) => { tell_closed(alloc, cursors, space.as_str(), ids.as_slice()) }
        Plan::Writes(statements, stops, told_changed) => {
            carry_writes(alloc, store, statements, stops, told_changed)
        }
        Plan::Upserts(statements) => carry_upsert(alloc, store, statements),
        Plan::Renames(name, new) => carry_rename(alloc, store, name.as_str(), new.as_str()),
        Plan::Outs(target, space, statements) => {
            carry_out(alloc, store, statements, &target, &space)
        }
        Plan::Inserts(name, documents, stops) => {
            carry_inserts(alloc, store, &name, documents.as_slice(), stops)
        }
    }
}
