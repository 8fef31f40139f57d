//! The different values at a path of the documents of a collection that answer a question.

ghost use Rattle.store_table.specs.Crash.{AddsNothing};
ghost use Rattle.store_table.specs.Moves.{WasOpen};
ghost use Rattle.store_question.specs.Filters.{path_of};
ghost use Rattle.store_question.specs.Reads.{form_of};
ghost use Rattle.bson_store.specs.Calls.{KeepsIndexes, Relates, store_state};
ghost use Rattle.store_asked.specs.Asking.{AskedFrom};
ghost use Rattle.store_asked.specs.Reads.{Reads, Stays};
ghost use Rattle.fallowtime_commands.specs.Asking.{AreCounted};

use bson_raw::RawDocument;
use bson_store::{Store, StoreError, Take};
use sqlite::Alter;
use sqlite_pages::Pages;
use std::alloc::Global;
use store_asked::{ReadOnlyStore, TakeRow, check_row, look_up_answers, take_answers};
use store_pipeline::sorted::{Counted, Distinct};
use store_question::Question;
use store_table::pages::RowRef;

/// Counts the different values of the documents that it takes.
#[derive(Drop)]
pub struct Differing<'a> {
    pub values: Distinct<'a>,
}

impl<'a> Take for Differing<'a> {
    ghost use Rattle.fallowtime_commands.specs.Asking.{TookValues};

    ghost took = { λ first t out. TookValues first.values t.values out };

    fn take(&mut self, document: RawDocument<'_>) -> Result<(), StoreError> {
        self.values.take(document)?;
        Ok(())
    }

    fn is_done(&self) -> bool {
        false
    }
}

impl<'a> TakeRow for Differing<'a> {
    fn take_row(
        &mut self,
        alloc: Global,
        row: &RowRef<'_>,
        document: RawDocument<'_>,
    ) -> Result<(), StoreError> {
        check_row(alloc, row.coll, row.idkey, row.body)?;
        self.take(document)
    }
}

/// The different values at a path of the documents of the collection `name` that answer a question, in the order of
/// values, with how many of these documents have each.
///
/// Refused by BadName, Memory and Database.
pub(crate) fn distinct<S: Alter + Drop>(
    alloc: Global,
    store: &mut Store<S>,
    name: &str,
    question: &Question,
    path: &[String],
) -> Result<Vec<Counted>, StoreError>
    ensures moves { Relates S.Store store.old store.new
        (AskedFrom (AreCounted (path_of path.now)) name.now (form_of question.now) result) }
    ensures open { WasOpen (store_state S.Store store.old)
        (store_state S.Store store.new) result }
    ensures indexes { KeepsIndexes store.old store.new }
    ensures crash { AddsNothing (store_state S.Store store.old) (store_state S.Store store.new) }
{
    let taker = Differing {
        values: Distinct::new(alloc, path),
    };
    let taken = take_answers(alloc, store, name, question, taker)?;
    Ok(taken.values.into_counted())
}

/// As `distinct`, of a store that only reads.
pub(crate) fn distinct_in_pages<P: Pages + Drop>(
    alloc: Global,
    store: &mut ReadOnlyStore<P>,
    name: &str,
    question: &Question,
    path: &[String],
) -> Result<Vec<Counted>, StoreError>
    ensures reads { Reads P.Pages store.old store.new
        (AskedFrom (AreCounted (path_of path.now)) name.now (form_of question.now) result) }
    ensures stays { Stays P.Pages store.old store.new }
{
    let taker = Differing {
        values: Distinct::new(alloc, path),
    };
    let taken = look_up_answers(alloc, store, name, question, taker)?;
    Ok(taken.values.into_counted())
}
