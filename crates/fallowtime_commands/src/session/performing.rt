//! One request, done in a draft.

ghost use Rattle.std.specs.Prelude.{◌≡◌, IfOk};
ghost use Rattle.store_table.specs.Crash.{AddsNothing};
ghost use Rattle.bson_store.specs.Calls.{store_state, KeepsIndexes, Relates};
ghost use Rattle.fallowtime_commands.specs.Performing.{IsAnswerTo};
ghost use Rattle.fallowtime_commands.specs.Listing.{PerformsDrafted, as_reason as reason_of};

use crate::Answer;
use crate::session::altering::{alter, set, unset};
use crate::session::asking::{count, distinct, find};
use crate::session::changing::change;
use crate::session::drafting::{get, insert, put, remove, replace};
use crate::session::error::Reason;
use crate::session::finding::find_and_change;
use crate::session::upserting::upsert;
use bson_store::{DraftedEdits, Store, StoreError};
use fallowtime_requests::{Question, Request};
use sqlite::Alter;
use std::alloc::Global;

/// An outcome in which the store alone refuses.
fn as_reason(outcome: Result<Answer, StoreError>) -> Result<Answer, Reason>
    ensures { result ≡ reason_of outcome }
{
    match outcome {
        Ok(answer) => Ok(answer),
        Err(error) => Err(Reason::Refused(error)),
    }
}

/// Does a request in the state that the changes so far leave, and puts what it changes behind them.
pub(crate) fn perform_drafted<S: Alter + Drop>(
    alloc: Global,
    store: &mut Store<S>,
    edits: &mut DraftedEdits,
    question: &Question<'_>,
) -> Result<Answer, Reason>
    ensures moves { Relates S.Store store.old store.new
        (PerformsDrafted question.now.collection.now question.now.request result edits.old.draft
        edits.new.draft) }
    ensures indexes { KeepsIndexes store.old store.new }
    ensures crash { AddsNothing (store_state S.Store store.old) (store_state S.Store store.new) }
    ensures shape { IfOk result (IsAnswerTo question.now.request) }
{
    let name = question.collection;
    match &question.request {
        Request::Insert(id, document) => as_reason(insert(alloc, store, edits, name, id, document)),
        Request::Put(document) => as_reason(put(alloc, store, edits, name, document)),
        Request::Replace(document) => as_reason(replace(alloc, store, edits, name, document)),
        Request::Get(id) => as_reason(get(store, edits, name, id)),
        Request::Set(id, key, value) => as_reason(set(alloc, store, edits, name, id, key, value)),
        Request::Unset(id, key) => as_reason(unset(alloc, store, edits, name, id, key)),
        Request::Alter(id, steps, told) => alter(alloc, store, edits, name, id, steps, *told),
        Request::Change(question, work, many) => {
            change(alloc, store, edits, name, question, work, *many)
        }
        Request::Upsert(question, work, many, otherwise) => {
            upsert(alloc, store, edits, name, question, work, *many, otherwise)
        }
        Request::Remove(id) => as_reason(remove(alloc, store, edits, name, id)),
        Request::Find(question, wanted) => {
            as_reason(find(alloc, store, edits, name, question, wanted))
        }
        Request::FindAndChange(question, wanted, work) => {
            find_and_change(alloc, store, edits, name, question, wanted, work)
        }
        Request::Count(question, part) => {
            as_reason(count(alloc, store, edits, name, question, part))
        }
        Request::Distinct(path, question, counts) => {
            as_reason(distinct(alloc, store, edits, name, path, question, *counts))
        }
        Request::Aggregate(_, _)
        | Request::Import(_, _)
        | Request::Transfer(_)
        | Request::Index(_)
        | Request::DropIndex(_)
        | Request::Collections
        | Request::Check => Err(Reason::NotInLists),
    }
}
