//! What a list does for a document that is found, changed and returned.

ghost use Rattle.std.specs.Prelude.{◌≡◌, IfOk, Some};
ghost use Rattle.bson_store.specs.Calls.{store_state, KeepsIndexes, Relates};
ghost use Rattle.fallowtime_commands.specs.Finding.{ChangesBody, IsFound};
ghost use Rattle.fallowtime_commands.specs.Performing.{IsAnswerTo};
ghost use Rattle.fallowtime_commands.specs.declared.answer.Answer.TheVariants.{Found};
ghost use Rattle.fallowtime_requests.specs.declared.request.Request.TheVariants as requests;
ghost use Rattle.store_table.specs.Crash.{AddsNothing};
ghost use Rattle.fallowtime_commands.specs.Drafting.{DraftsBy, PutsAll};
ghost use Rattle.fallowtime_commands.specs.Listing.{PerformsDrafted};

use crate::session::asking::find_first;
use crate::session::changing::{discard, put_all};
use crate::session::error::{Reason, reason_of};
use crate::{Answer, Drafted, draft, head_of};
use bson_store::{DraftedEdits, Store};
use fallowtime_requests::{Wanted, Work};
use sqlite::Alter;
use std::alloc::Global;
use store_question::Question;

/// Puts the change of a document behind the others, and returns what is to be returned then.
fn put_drafted<S: Alter + Drop>(
    store: &mut Store<S>,
    edits: &mut DraftedEdits,
    drafted: Drafted,
) -> Result<Answer, Reason>
    ensures moves { Relates S.Store store.old store.new (PutsAll drafted.edits.items
        (Found (Some drafted.returned)) result edits.old.draft edits.new.draft) }
    ensures indexes { KeepsIndexes store.old store.new }
    ensures crash { AddsNothing (store_state S.Store store.old) (store_state S.Store store.new) }
    ensures shape { IfOk result (λ a. a ≡ Found (Some drafted.returned)) }
{
    let Drafted {
        edits: changes,
        returned,
    } = drafted;
    let answer = Answer::Found(Some(returned));
    let outcome = put_all(store, edits, changes.as_slice(), answer);
    discard(changes);
    outcome
}

/// Changes the document of the collection `name` that has this body, and returns what is wanted of it.
fn change_body<S: Alter + Drop>(
    alloc: Global,
    store: &mut Store<S>,
    edits: &mut DraftedEdits,
    name: &str,
    body: &[u8],
    wanted: &Wanted,
    work: &Work,
) -> Result<Answer, Reason>
    ensures moves { Relates S.Store store.old store.new (DraftsBy
        (ChangesBody name.now wanted.now work.now body.now) result edits.old.draft edits.new.draft) }
    ensures indexes { KeepsIndexes store.old store.new }
    ensures crash { AddsNothing (store_state S.Store store.old) (store_state S.Store store.new) }
    ensures shape { IfOk result (IsFound work.now) }
{
    match draft(alloc, name, body, work, wanted.after, &wanted.fields) {
        Ok(drafted) => put_drafted(store, edits, drafted),
        Err(unmade) => Err(reason_of(unmade)),
    }
}

/// Changes the first of the documents of the collection `name` that are found by a question and by what is wanted, and
/// returns what is wanted of it. If there is none, nothing is changed or returned.
pub(crate) fn find_and_change<S: Alter + Drop>(
    alloc: Global,
    store: &mut Store<S>,
    edits: &mut DraftedEdits,
    name: &str,
    question: &Question,
    wanted: &Wanted,
    work: &Work,
) -> Result<Answer, Reason>
    ensures moves { Relates S.Store store.old store.new (PerformsDrafted name.now
        (requests.FindAndChange question.now wanted.now work.now) result edits.old.draft
        edits.new.draft) }
    ensures indexes { KeepsIndexes store.old store.new }
    ensures crash { AddsNothing (store_state S.Store store.old) (store_state S.Store store.new) }
    ensures shape { IfOk result (IsAnswerTo (requests.FindAndChange question.now wanted.now work.now)) }
{
    let bodies = match find_first(alloc, store, edits, name, question, &wanted.arrangement) {
        Ok(bodies) => bodies,
        Err(error) => return Err(Reason::Refused(error)),
    };
    match head_of(bodies.as_slice()) {
        Some(body) => change_body(alloc, store, edits, name, body, wanted, work),
        None => Ok(Answer::Found(None)),
    }
}
