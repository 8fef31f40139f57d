//! What a list does for changes by query: the documents that are meant are found in a draft, and what becomes of them is put
//! there.

ghost use Rattle.std.specs.Prelude.{◌≡◌, IfOk};
ghost use Rattle.bson_store.specs.Calls.{store_state, KeepsIndexes, Relates};
ghost use Rattle.fallowtime_commands.specs.Changing.{ChangesBodies};
ghost use Rattle.fallowtime_commands.specs.Performing.{IsAnswerTo, IsChange};
ghost use Rattle.fallowtime_requests.specs.declared.request.Request.TheVariants as requests;
ghost use Rattle.store_table.specs.Crash.{AddsNothing};
ghost use Rattle.fallowtime_commands.specs.Drafting.{DraftsBy, PutsAll, answered_by};
ghost use Rattle.fallowtime_commands.specs.Listing.{PerformsDrafted};

use crate::session::asking::find_meant;
use crate::session::error::{Reason, reason_of};
use crate::{Answer, answer_to, edits_of};
use bson_store::{DraftedEdits, Edit, ListRefusal, Store, draft_edits};
use fallowtime_requests::Work;
use sqlite::Alter;
use std::alloc::Global;
use store_question::Question;

/// Lets changes go. What a function that is generic over the database lets go is far dearer to prove.
pub(crate) fn discard(changes: Vec<Edit>) {
    drop(changes);
}

/// The answer to changes that were put behind the others.
fn answered(outcome: Result<(), ListRefusal>, answer: Answer) -> Result<Answer, Reason>
    ensures { result ≡ answered_by answer outcome }
{
    match outcome {
        Ok(()) => Ok(answer),
        Err(refusal) => Err(Reason::Refused(refusal.error)),
    }
}

/// Puts changes behind the others. The answer to them is the one that is given.
pub(crate) fn put_all<S: Alter + Drop>(
    store: &mut Store<S>,
    edits: &mut DraftedEdits,
    changes: &[Edit],
    answer: Answer,
) -> Result<Answer, Reason>
    ensures moves { Relates S.Store store.old store.new
        (PutsAll changes.now answer result edits.old.draft edits.new.draft) }
    ensures indexes { KeepsIndexes store.old store.new }
    ensures crash { AddsNothing (store_state S.Store store.old) (store_state S.Store store.new) }
    ensures shape { IfOk result (λ a. a ≡ answer) }
{
    let outcome = draft_edits(store, edits, changes);
    answered(outcome, answer)
}

/// Changes the documents of the collection `name` that have these bodies.
pub(crate) fn change_bodies<S: Alter + Drop>(
    alloc: Global,
    store: &mut Store<S>,
    edits: &mut DraftedEdits,
    name: &str,
    bodies: &Vec<Vec<u8>>,
    work: &Work,
) -> Result<Answer, Reason>
    ensures moves { Relates S.Store store.old store.new (DraftsBy
        (ChangesBodies name.now work.now bodies.now.items) result edits.old.draft edits.new.draft) }
    ensures indexes { KeepsIndexes store.old store.new }
    ensures crash { AddsNothing (store_state S.Store store.old) (store_state S.Store store.new) }
    ensures shape { IfOk result (IsChange work.now) }
{
    match edits_of(alloc, name, bodies.as_slice(), work) {
        Ok(changes) => {
            let answer = answer_to(work, bodies.len() as u64, changes.len() as u64);
            let outcome = put_all(store, edits, changes.as_slice(), answer);
            discard(changes);
            outcome
        }
        Err(unmade) => Err(reason_of(unmade)),
    }
}

/// Changes the documents of the collection `name` that answer a question: all if `many`, or else the first.
pub(crate) fn change<S: Alter + Drop>(
    alloc: Global,
    store: &mut Store<S>,
    edits: &mut DraftedEdits,
    name: &str,
    question: &Question,
    work: &Work,
    many: bool,
) -> Result<Answer, Reason>
    ensures moves { Relates S.Store store.old store.new (PerformsDrafted name.now
        (requests.Change question.now work.now many) result edits.old.draft edits.new.draft) }
    ensures indexes { KeepsIndexes store.old store.new }
    ensures crash { AddsNothing (store_state S.Store store.old) (store_state S.Store store.new) }
    ensures shape { IfOk result (IsAnswerTo (requests.Change question.now work.now many)) }
{
    let bodies = match find_meant(alloc, store, edits, name, question, many) {
        Ok(bodies) => bodies,
        Err(error) => return Err(Reason::Refused(error)),
    };
    change_bodies(alloc, store, edits, name, &bodies, work)
}
