//! The documents of a collection that answer a question, handed to a taker while the rows come.

ghost use Rattle.std.specs.Prelude.{[]};
ghost use Rattle.bson_store.specs.Calls.{KeepsIndexes, Relates, store_state};
ghost use Rattle.store_asked.specs.Asking.{AskedFrom};
ghost use Rattle.store_asked.specs.Reads.{Reads as ReadsPages, Stays};
ghost use Rattle.store_question.specs.Reads.{form_of};
ghost use Rattle.store_table.specs.Crash.{AddsNothing};
ghost use Rattle.store_table.specs.Moves.{WasOpen};

use crate::answering::Answering;
use crate::front::{filter_in_front, ranges_in_front};
use crate::selecting::TakeRow;
use crate::store::ReadOnlyStore;
use bson_store::indexed::Front;
use bson_store::{Store, StoreError, Take, select_all};
use sqlite::Alter;
use sqlite_pages::Pages;
use std::alloc::Global;
use store_question::Question;

/// Hands the documents of the collection `name` that answer a question to a taker, in the collection's order, and gives
/// it back. One document is held at a time. An index on a path that the question asks about by equality, by the kind of
/// an array or a decimal, or by a range of numbers, texts or dates, has only the documents read that may answer.
///
/// Refused by BadName, Memory and Database, and as the taker refuses a document.
pub fn take_answers<S: Alter + Drop, T: Take + Drop>(
    alloc: Global,
    store: &mut Store<S>,
    name: &str,
    question: &Question,
    taker: T,
) -> Result<T, StoreError>
    requires { T.took taker taker [] }
    ensures moves { Relates S.Store store.old store.new
        (AskedFrom (T.took taker) name.now (form_of question.now) result) }
    ensures open { WasOpen (store_state S.Store store.old)
        (store_state S.Store store.new) result }
    ensures indexes { KeepsIndexes store.old store.new }
    ensures crash { AddsNothing (store_state S.Store store.old) (store_state S.Store store.new) }
{
    let filter = filter_in_front(alloc, store, name, question);
    let ranges = ranges_in_front(alloc, store, name, question);
    let front = Front {
        filter: &filter,
        ranges: ranges.as_slice(),
    };
    let answering = Answering {
        alloc,
        question,
        taker,
    };
    let outcome = store.take_passing(name, &front, answering);
    drop(ranges);
    drop(filter);
    let taken = outcome?;
    Ok(taken.taker)
}

/// The same of a store that only reads.
///
/// Refused also if what is looked at isn't framed as a document, and by Database, if the taker tests the row of a document
/// that answers and no store can have written it.
pub fn look_up_answers<P: Pages + Drop, T: TakeRow + Drop>(
    alloc: Global,
    store: &mut ReadOnlyStore<P>,
    name: &str,
    question: &Question,
    taker: T,
) -> Result<T, StoreError>
    requires { T.took taker taker [] }
    ensures reads { ReadsPages P.Pages store.old store.new
        (AskedFrom (T.took taker) name.now (form_of question.now) result) }
    ensures stays { Stays P.Pages store.old store.new }
{
    let everything = select_all(alloc);
    let answering = Answering {
        alloc,
        question,
        taker,
    };
    let taken = store.take_selected(name, &everything, answering)?;
    Ok(taken.taker)
}
