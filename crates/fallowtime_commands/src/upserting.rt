//! Changes by query that put a document in if none answers.

ghost use Rattle.std.specs.Prelude.{IfOk, IsTrue};
ghost use Rattle.store_question.specs.Reads.{form_of};
ghost use Rattle.store_table.specs.Moves.{WasOpen};
ghost use Rattle.bson_store.specs.Calls.{store_state, Relates};
ghost use Rattle.fallowtime_commands.specs.Left.{LeavesEnd, LeavesUpsert};
ghost use Rattle.fallowtime_commands.specs.Performing.{IsEnd, IsUpsert, reply_of};
ghost use Rattle.fallowtime_commands.specs.Upserting.{Ends, UpsertsFound};

use crate::answer::{Answer, upserted};
use crate::changing::{apply, discard, edits_of, outcome_of};
use crate::meant::find_meant;
use crate::storing::insert;
use bson_store::{Store, StoreError};
use fallowtime_requests::{Otherwise, Work};
use sqlite::Alter;
use std::alloc::Global;
use store_question::Question;

/// What is done if no document answers: the one that is to go in is inserted, and its `_id` is the answer, which is
/// taken; or the answer says why none is made for that.
///
/// Refused as `insert` is.
fn when_none<S: Alter + Drop>(
    alloc: Global,
    store: &mut Store<S>,
    name: &str,
    otherwise: &mut Otherwise,
) -> Result<Answer, StoreError>
    ensures moves { Relates S.Store store.old store.new (Ends name.now otherwise.old result (reply_of result)) }
    ensures open { IsTrue (store_state S.Store store.old).is_open
        → WasOpen (store_state S.Store store.old) (store_state S.Store store.new) result }
    ensures crash { LeavesEnd name.now otherwise.old (reply_of result) (store_state S.Store store.old)
        (store_state S.Store store.new) }
    ensures shape { IfOk result (IsEnd otherwise.old) }
{
    match otherwise {
        Otherwise::Insert(id, document) => upserted(id, insert(alloc, store, name, document)),
        Otherwise::Refuse(error) => Ok(Answer::NotUpserted(*error)),
    }
}

/// Changes the documents of the collection `name` that answer a question, as `change` does. If none answers, a document
/// is put in, and its `_id` is the answer, which is taken; or if none is made for that, the answer says why. It is one
/// step: it is looked up, and then there is one change of the rows or none.
///
/// Refused as `change` is, and as `insert` is of the document that is put in: by DuplicateId if another document has
/// its `_id`, which didn't answer.
pub(crate) fn upsert<S: Alter + Drop>(
    alloc: Global,
    store: &mut Store<S>,
    name: &str,
    question: &Question,
    work: &Work,
    many: bool,
    otherwise: &mut Otherwise,
) -> Result<Answer, StoreError>
    ensures moves { Relates S.Store store.old store.new
        (UpsertsFound name.now (form_of question.now) work.now many otherwise.old result (reply_of result)) }
    ensures open { WasOpen (store_state S.Store store.old) (store_state S.Store store.new) result }
    ensures crash { LeavesUpsert name.now (form_of question.now) work.now many otherwise.old
        (reply_of result) (store_state S.Store store.old) (store_state S.Store store.new) }
    ensures shape { IfOk result (IsUpsert work.now otherwise.old) }
{
    let bodies = find_meant(alloc, store, name, question, many)?;
    if bodies.is_empty() {
        return when_none(alloc, store, name, otherwise);
    }
    match edits_of(alloc, name, bodies.as_slice(), work) {
        Ok(edits) => {
            let done = apply(store, edits.as_slice(), work, bodies.len() as u64);
            discard(edits);
            done
        }
        Err(unmade) => outcome_of(unmade),
    }
}
