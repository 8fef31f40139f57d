//! What a pipeline makes of the documents of a collection that answer a question.

ghost use Rattle.std.specs.Prelude.{◌≡◌, [], IfOk, None, Ok};
ghost use Rattle.store_table.specs.Crash.{AddsNothing};
ghost use Rattle.store_table.specs.Moves.{WasOpen};
ghost use Rattle.store_question.specs.Reads.{form_of};
ghost use Rattle.bson_store.specs.Calls.{KeepsIndexes, Relates, store_state};
ghost use Rattle.store_asked.specs.Asking.{AskedFrom};
ghost use Rattle.store_asked.specs.Reads.{Reads, Stays};
ghost use Rattle.fallowtime_commands.specs.Aggregating.{Aggregates, AreAll, Follows};
ghost use Rattle.fallowtime_commands.specs.Performing.{IsAggregate};

use crate::answer::{Answer, aggregate_of};
use bson_store::{Store, StoreError};
use sqlite::Alter;
use sqlite_pages::Pages;
use std::alloc::Global;
use store_asked::{ReadOnlyStore, find_arranged, look_up_arranged};
use store_pipeline::sorted::Arrangement;
use store_pipeline::{Stage, run};
use store_question::Question;

/// The arrangement that has all documents, as they come.
fn all_as_they_come(alloc: Global) -> Arrangement
    ensures keys { result.keys.items ≡ [] }
    ensures skip { result.skip ≡ 0 }
    ensures limit { result.limit ≡ None }
{
    Arrangement {
        keys: Vec::new(alloc),
        skip: 0,
        limit: None,
    }
}

/// The bodies of the documents of the collection `name` that answer a question, in the collection's order.
///
/// Refused by BadName, Memory and Database.
fn find_all<S: Alter + Drop>(
    alloc: Global,
    store: &mut Store<S>,
    name: &str,
    question: &Question,
) -> Result<Vec<Vec<u8>>, StoreError>
    ensures moves { Relates S.Store store.old store.new
        (AskedFrom AreAll name.now (form_of question.now) result) }
    ensures open { WasOpen (store_state S.Store store.old)
        (store_state S.Store store.new) result }
    ensures indexes { KeepsIndexes store.old store.new }
    ensures crash { AddsNothing (store_state S.Store store.old) (store_state S.Store store.new) }
{
    let arrangement = all_as_they_come(alloc);
    find_arranged(alloc, store, name, question, &arrangement)
}

/// As `find_all`, of a store that only reads.
fn look_up_all<P: Pages + Drop>(
    alloc: Global,
    store: &mut ReadOnlyStore<P>,
    name: &str,
    question: &Question,
) -> Result<Vec<Vec<u8>>, StoreError>
    ensures reads { Reads P.Pages store.old store.new
        (AskedFrom AreAll name.now (form_of question.now) result) }
    ensures stays { Stays P.Pages store.old store.new }
{
    let arrangement = all_as_they_come(alloc);
    look_up_arranged(alloc, store, name, question, &arrangement)
}

/// What a pipeline makes of the documents that have these bodies.
fn make(alloc: Global, stages: &[Stage], bodies: Vec<Vec<u8>>) -> Result<Answer, StoreError>
    ensures follows { Follows stages.now (Ok bodies) result }
    ensures shape { IfOk result IsAggregate }
{
    aggregate_of(run(alloc, stages, bodies))
}

/// The documents that a pipeline makes of those of the collection `name` that answer a question, in the collection's
/// order: each stage makes its own of those of the one before it. If a sum or an average isn't calculated, the answer
/// says why.
///
/// Refused by BadName, Memory and Database; and by TooDeep, Nul and TooLong of the first document that a stage makes and
/// that can't be written.
pub(crate) fn aggregate<S: Alter + Drop>(
    alloc: Global,
    store: &mut Store<S>,
    name: &str,
    question: &Question,
    stages: &[Stage],
) -> Result<Answer, StoreError>
    ensures moves { Relates S.Store store.old store.new
        (Aggregates name.now (form_of question.now) stages.now result) }
    ensures open { WasOpen (store_state S.Store store.old)
        (store_state S.Store store.new) result }
    ensures indexes { KeepsIndexes store.old store.new }
    ensures crash { AddsNothing (store_state S.Store store.old) (store_state S.Store store.new) }
    ensures shape { IfOk result IsAggregate }
{
    let bodies = find_all(alloc, store, name, question)?;
    make(alloc, stages, bodies)
}

/// As `aggregate`, of a store that only reads.
pub(crate) fn aggregate_in_pages<P: Pages + Drop>(
    alloc: Global,
    store: &mut ReadOnlyStore<P>,
    name: &str,
    question: &Question,
    stages: &[Stage],
) -> Result<Answer, StoreError>
    ensures reads { Reads P.Pages store.old store.new
        (Aggregates name.now (form_of question.now) stages.now result) }
    ensures stays { Stays P.Pages store.old store.new }
    ensures shape { IfOk result IsAggregate }
{
    let bodies = look_up_all(alloc, store, name, question)?;
    make(alloc, stages, bodies)
}
