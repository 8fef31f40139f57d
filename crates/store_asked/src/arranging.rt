//! The documents of a collection that answer a question, in an order and of that a part.

ghost use Rattle.bson_store.specs.Calls.{KeepsIndexes, Relates, store_state};
ghost use Rattle.store_asked.specs.Arranged.{AreArranged};
ghost use Rattle.store_asked.specs.Asking.{AskedDrafted, AskedFrom};
ghost use Rattle.store_asked.specs.Reads.{Reads as ReadsPages, Stays};
ghost use Rattle.store_question.specs.Reads.{form_of};
ghost use Rattle.store_table.specs.Crash.{AddsNothing};
ghost use Rattle.store_table.specs.Moves.{WasOpen};

use crate::asking::{look_up_answers, take_answers};
use crate::drafted::take_drafted;
use crate::gathering::Gathering;
use crate::nearing::{find_near, near_end};
use crate::store::ReadOnlyStore;
use bson_store::{DraftedEdits, Store, StoreError};
use sqlite::Alter;
use sqlite_pages::Pages;
use std::alloc::Global;
use store_pipeline::sorted::Arrangement;
use store_question::Question;

/// What an arrangement has of the documents that answer a question, by a way through all of them.
fn gather<S: Alter + Drop>(
    alloc: Global,
    store: &mut Store<S>,
    name: &str,
    question: &Question,
    arrangement: &Arrangement,
) -> Result<Vec<Vec<u8>>, StoreError>
    ensures moves { Relates S.Store store.old store.new
        (AskedFrom (AreArranged arrangement.now) name.now (form_of question.now) result) }
    ensures open { WasOpen (store_state S.Store store.old)
        (store_state S.Store store.new) result }
    ensures indexes { KeepsIndexes store.old store.new }
    ensures crash { AddsNothing (store_state S.Store store.old) (store_state S.Store store.new) }
{
    let gathering = Gathering::new(alloc, arrangement);
    let gathered = take_answers(alloc, store, name, question, gathering)?;
    let bodies = gathered.into_bodies()?;
    Ok(bodies)
}

/// The written forms of the documents of the collection `name` that answer a question: in the order of keys, and those
/// that none tells apart in the collection's order; of these the ones behind the first `skip`, and at most `limit`. With
/// a limit no more documents are held than are skipped and taken, and without keys none is read behind them.
///
/// Refused by BadName, Memory and Database.
pub fn find_arranged<S: Alter + Drop>(
    alloc: Global,
    store: &mut Store<S>,
    name: &str,
    question: &Question,
    arrangement: &Arrangement,
) -> Result<Vec<Vec<u8>>, StoreError>
    ensures moves { Relates S.Store store.old store.new
        (AskedFrom (AreArranged arrangement.now) name.now (form_of question.now) result) }
    ensures open { WasOpen (store_state S.Store store.old)
        (store_state S.Store store.new) result }
    ensures indexes { KeepsIndexes store.old store.new }
    ensures crash { AddsNothing (store_state S.Store store.old) (store_state S.Store store.new) }
{
    if let Some(near) = near_end(alloc, store, name, question, arrangement) {
        let told = find_near(alloc, store, name, question, arrangement, &near)?;
        if let Some(bodies) = told {
            return Ok(bodies);
        }
    }
    gather(alloc, store, name, question, arrangement)
}

/// The same of the documents as they are after the changes of a draft. All bodies of the collection are held meanwhile.
///
/// Refused by BadName, Memory and Database.
pub fn find_drafted<S: Alter + Drop>(
    alloc: Global,
    store: &mut Store<S>,
    edits: &DraftedEdits,
    name: &str,
    question: &Question,
    arrangement: &Arrangement,
) -> Result<Vec<Vec<u8>>, StoreError>
    ensures moves { Relates S.Store store.old store.new
        (AskedDrafted edits.now.draft (AreArranged arrangement.now) name.now
        (form_of question.now) result) }
    ensures open { WasOpen (store_state S.Store store.old)
        (store_state S.Store store.new) result }
    ensures indexes { KeepsIndexes store.old store.new }
    ensures crash { AddsNothing (store_state S.Store store.old) (store_state S.Store store.new) }
{
    let gathering = Gathering::new(alloc, arrangement);
    let gathered = take_drafted(alloc, store, edits, name, question, gathering)?;
    let bodies = gathered.into_bodies()?;
    Ok(bodies)
}

/// The same of a store that only reads.
///
/// Refused also if what is looked at isn't framed as a document, and by Database if no store can have written the row of
/// a document that answers.
pub fn look_up_arranged<P: Pages + Drop>(
    alloc: Global,
    store: &mut ReadOnlyStore<P>,
    name: &str,
    question: &Question,
    arrangement: &Arrangement,
) -> Result<Vec<Vec<u8>>, StoreError>
    ensures reads { ReadsPages P.Pages store.old store.new
        (AskedFrom (AreArranged arrangement.now) name.now (form_of question.now) result) }
    ensures stays { Stays P.Pages store.old store.new }
{
    let gathering = Gathering::new(alloc, arrangement);
    let gathered = look_up_answers(alloc, store, name, question, gathering)?;
    gathered.check_rows(name)?;
    let bodies = gathered.into_bodies()?;
    Ok(bodies)
}
