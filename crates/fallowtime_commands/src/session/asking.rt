//! What a list does for a question: it is asked of the documents as they are in a draft.

ghost use Rattle.std.specs.Prelude.{IfOk};
ghost use Rattle.bson_store.specs.Calls.{store_state, KeepsIndexes, Relates};
ghost use Rattle.fallowtime_commands.specs.Asking.{AreChosen, AreCounted, AreWanted, HasPart};
ghost use Rattle.fallowtime_commands.specs.Finding.{AreFirst};
ghost use Rattle.fallowtime_commands.specs.Performing.{IsAnswerTo};
ghost use Rattle.fallowtime_requests.specs.declared.request.Request.TheVariants as requests;
ghost use Rattle.store_asked.specs.Asking.{AskedDrafted};
ghost use Rattle.store_question.specs.Filters.{path_of};
ghost use Rattle.store_question.specs.Reads.{form_of};
ghost use Rattle.store_table.specs.Crash.{AddsNothing};
ghost use Rattle.fallowtime_commands.specs.Drafting.{DraftsRequest};

use crate::answer::{documents, number, values};
use crate::{Answer, Differing, Meant, counted, left_by};
use bson_store::{Copies, Count, DraftedEdits, Store, StoreError};
use fallowtime_requests::{Part, Wanted};
use sqlite::Alter;
use std::alloc::Global;
use store_asked::{find_drafted, take_drafted};
use store_pipeline::sorted::{Arrangement, Counted, Distinct, into_window};
use store_question::Question;

/// The bodies of what is wanted of the documents of the collection `name` that answer a question.
fn find_wanted<S: Alter + Drop>(
    alloc: Global,
    store: &mut Store<S>,
    edits: &DraftedEdits,
    name: &str,
    question: &Question,
    wanted: &Wanted,
) -> Result<Vec<Vec<u8>>, StoreError>
    ensures moves { Relates S.Store store.old store.new (AskedDrafted edits.now.draft
        (AreWanted wanted.now) name.now (form_of question.now) result) }
    ensures indexes { KeepsIndexes store.old store.new }
    ensures crash { AddsNothing (store_state S.Store store.old) (store_state S.Store store.new) }
{
    let bodies = find_drafted(alloc, store, edits, name, question, &wanted.arrangement)?;
    let left = left_by(alloc, bodies, &wanted.fields)?;
    Ok(left)
}

/// The documents of the collection `name` that answer a question, as they are wanted.
pub(crate) fn find<S: Alter + Drop>(
    alloc: Global,
    store: &mut Store<S>,
    edits: &DraftedEdits,
    name: &str,
    question: &Question,
    wanted: &Wanted,
) -> Result<Answer, StoreError>
    ensures moves { Relates S.Store store.old store.new (DraftsRequest name.now
        (requests.Find question.now wanted.now) result edits.now.draft edits.now.draft) }
    ensures indexes { KeepsIndexes store.old store.new }
    ensures crash { AddsNothing (store_state S.Store store.old) (store_state S.Store store.new) }
    ensures shape { IfOk result (IsAnswerTo (requests.Find question.now wanted.now)) }
{
    documents(find_wanted(alloc, store, edits, name, question, wanted))
}

/// The bodies of the documents of the collection `name` that answer a question: of all of them, or of the first.
pub(crate) fn find_meant<S: Alter + Drop>(
    alloc: Global,
    store: &mut Store<S>,
    edits: &DraftedEdits,
    name: &str,
    question: &Question,
    many: bool,
) -> Result<Vec<Vec<u8>>, StoreError>
    ensures moves { Relates S.Store store.old store.new (AskedDrafted edits.now.draft
        (AreChosen many) name.now (form_of question.now) result) }
    ensures indexes { KeepsIndexes store.old store.new }
    ensures crash { AddsNothing (store_state S.Store store.old) (store_state S.Store store.new) }
{
    let bodies = Vec::new(alloc);
    let copies = Copies { bodies, alloc };
    let meant = take_drafted(alloc, store, edits, name, question, Meant { copies, many })?;
    Ok(meant.copies.bodies)
}

/// The body of the first of the documents of the collection `name` that answer a question, by an arrangement; or no body.
pub(crate) fn find_first<S: Alter + Drop>(
    alloc: Global,
    store: &mut Store<S>,
    edits: &DraftedEdits,
    name: &str,
    question: &Question,
    arrangement: &Arrangement,
) -> Result<Vec<Vec<u8>>, StoreError>
    ensures moves { Relates S.Store store.old store.new (AskedDrafted edits.now.draft
        (AreFirst arrangement.now) name.now (form_of question.now) result) }
    ensures indexes { KeepsIndexes store.old store.new }
    ensures crash { AddsNothing (store_state S.Store store.old) (store_state S.Store store.new) }
{
    let bodies = find_drafted(alloc, store, edits, name, question, arrangement)?;
    Ok(into_window(bodies, 0, Some(1)))
}

/// How many documents a part has of those of the collection `name` that answer a question.
fn count_part<S: Alter + Drop>(
    alloc: Global,
    store: &mut Store<S>,
    edits: &DraftedEdits,
    name: &str,
    question: &Question,
    part: &Part,
) -> Result<u64, StoreError>
    ensures moves { Relates S.Store store.old store.new (AskedDrafted edits.now.draft
        (HasPart part.now) name.now (form_of question.now) result) }
    ensures indexes { KeepsIndexes store.old store.new }
    ensures crash { AddsNothing (store_state S.Store store.old) (store_state S.Store store.new) }
{
    let count = take_drafted(alloc, store, edits, name, question, Count { number: 0 })?;
    Ok(counted(part, count.number))
}

/// How many these are.
pub(crate) fn count<S: Alter + Drop>(
    alloc: Global,
    store: &mut Store<S>,
    edits: &DraftedEdits,
    name: &str,
    question: &Question,
    part: &Part,
) -> Result<Answer, StoreError>
    ensures moves { Relates S.Store store.old store.new (DraftsRequest name.now
        (requests.Count question.now part.now) result edits.now.draft edits.now.draft) }
    ensures indexes { KeepsIndexes store.old store.new }
    ensures crash { AddsNothing (store_state S.Store store.old) (store_state S.Store store.new) }
    ensures shape { IfOk result (IsAnswerTo (requests.Count question.now part.now)) }
{
    number(count_part(alloc, store, edits, name, question, part))
}

/// The different values at a path of the documents of the collection `name` that answer a question, with how many of these
/// documents have each.
fn values_at<S: Alter + Drop>(
    alloc: Global,
    store: &mut Store<S>,
    edits: &DraftedEdits,
    name: &str,
    path: &[String],
    question: &Question,
) -> Result<Vec<Counted>, StoreError>
    ensures moves { Relates S.Store store.old store.new (AskedDrafted edits.now.draft
        (AreCounted (path_of path.now)) name.now (form_of question.now) result) }
    ensures indexes { KeepsIndexes store.old store.new }
    ensures crash { AddsNothing (store_state S.Store store.old) (store_state S.Store store.new) }
{
    let values = Distinct::new(alloc, path);
    let taken = take_drafted(alloc, store, edits, name, question, Differing { values })?;
    Ok(taken.values.into_counted())
}

/// These values, and whether they are counted.
pub(crate) fn distinct<S: Alter + Drop>(
    alloc: Global,
    store: &mut Store<S>,
    edits: &DraftedEdits,
    name: &str,
    path: &Vec<String>,
    question: &Question,
    counts: bool,
) -> Result<Answer, StoreError>
    ensures moves { Relates S.Store store.old store.new (DraftsRequest name.now
        (requests.Distinct path.now question.now counts) result edits.now.draft edits.now.draft) }
    ensures indexes { KeepsIndexes store.old store.new }
    ensures crash { AddsNothing (store_state S.Store store.old) (store_state S.Store store.new) }
    ensures shape { IfOk result (IsAnswerTo (requests.Distinct path.now question.now counts)) }
{
    let outcome = values_at(alloc, store, edits, name, path.as_slice(), question);
    values(outcome, counts)
}
