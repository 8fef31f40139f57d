//! What a list does for a change by query that puts a document in if none answers.

ghost use Rattle.std.specs.Prelude.{IfOk, MatchResult};
ghost use Rattle.bson_model.specs.View.{view};
ghost use Rattle.bson_store.specs.Calls.{store_state, KeepsIndexes, Relates};
ghost use Rattle.fallowtime_commands.specs.Performing.{IsAnswerTo, IsEnd};
ghost use Rattle.fallowtime_requests.specs.declared.request.Otherwise.TheVariants as ends;
ghost use Rattle.fallowtime_requests.specs.declared.request.Request.TheVariants as requests;
ghost use Rattle.store_table.specs.Crash.{AddsNothing};
ghost use Rattle.fallowtime_commands.specs.Drafting.{DraftsBy, EndsBy, IsUpserted};
ghost use Rattle.fallowtime_commands.specs.Listing.{IsLacking, PerformsDrafted};

use crate::Answer;
use crate::session::asking::find_meant;
use crate::session::changing::change_bodies;
use crate::session::drafting::put_in;
use crate::session::error::Reason;
use bson_store::{Bson, Document, DraftedEdits, ErrorKind, Store, StoreError};
use fallowtime_requests::{Otherwise, Work};
use sqlite::Alter;
use std::alloc::Global;
use store_question::Question;

/// The answer to an insertion for want of a document, with this `_id`.
fn upserted(alloc: Global, id: &Bson) -> Result<Answer, Reason>
    ensures { MatchResult result (IsUpserted (view id.now)) IsLacking }
{
    match id.try_clone(alloc) {
        Ok(id) => Ok(Answer::Upserted(id)),
        Err(_) => Err(Reason::Refused(StoreError::from(ErrorKind::Memory))),
    }
}

/// Puts a document into the collection `name`, which has this `_id`, as none answers.
fn put_instead<S: Alter + Drop>(
    alloc: Global,
    store: &mut Store<S>,
    edits: &mut DraftedEdits,
    name: &str,
    id: &Bson,
    document: &Document,
) -> Result<Answer, Reason>
    ensures moves { Relates S.Store store.old store.new (DraftsBy
        (EndsBy name.now (ends.Insert id.now document.now)) result edits.old.draft edits.new.draft) }
    ensures indexes { KeepsIndexes store.old store.new }
    ensures crash { AddsNothing (store_state S.Store store.old) (store_state S.Store store.new) }
    ensures shape { IfOk result (IsEnd (ends.Insert id.now document.now)) }
{
    match put_in(alloc, store, edits, name, document) {
        Ok(()) => upserted(alloc, id),
        Err(error) => Err(Reason::Refused(error)),
    }
}

/// What is done if no document answers.
fn when_none<S: Alter + Drop>(
    alloc: Global,
    store: &mut Store<S>,
    edits: &mut DraftedEdits,
    name: &str,
    otherwise: &Otherwise,
) -> Result<Answer, Reason>
    ensures moves { Relates S.Store store.old store.new (DraftsBy
        (EndsBy name.now otherwise.now) result edits.old.draft edits.new.draft) }
    ensures indexes { KeepsIndexes store.old store.new }
    ensures crash { AddsNothing (store_state S.Store store.old) (store_state S.Store store.new) }
    ensures shape { IfOk result (IsEnd otherwise.now) }
{
    match otherwise {
        Otherwise::Insert(id, document) => put_instead(alloc, store, edits, name, id, document),
        Otherwise::Refuse(error) => Err(Reason::NotUpserted(*error)),
    }
}

/// Changes the documents of the collection `name` that answer a question, as `change` does; or, if none answers, does what
/// is to be done then.
pub(crate) fn upsert<S: Alter + Drop>(
    alloc: Global,
    store: &mut Store<S>,
    edits: &mut DraftedEdits,
    name: &str,
    question: &Question,
    work: &Work,
    many: bool,
    otherwise: &Otherwise,
) -> Result<Answer, Reason>
    ensures moves { Relates S.Store store.old store.new (PerformsDrafted name.now
        (requests.Upsert question.now work.now many otherwise.now) result edits.old.draft
        edits.new.draft) }
    ensures indexes { KeepsIndexes store.old store.new }
    ensures crash { AddsNothing (store_state S.Store store.old) (store_state S.Store store.new) }
    ensures shape { IfOk result (IsAnswerTo (requests.Upsert question.now work.now many otherwise.now)) }
{
    let bodies = match find_meant(alloc, store, edits, name, question, many) {
        Ok(bodies) => bodies,
        Err(error) => return Err(Reason::Refused(error)),
    };
    if bodies.is_empty() {
        return when_none(alloc, store, edits, name, otherwise);
    }
    change_bodies(alloc, store, edits, name, &bodies, work)
}
