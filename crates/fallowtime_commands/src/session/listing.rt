//! A list of requests, done whole or not at all.

ghost use Rattle.std.specs.Prelude.{◌≡◌, ◌++◌, ◌∷◌, [], List, IfOk, OnOk, MatchResult};
ghost use Rattle.store_table.specs.Crash.{AddsNothing};
ghost use Rattle.store_table.specs.Moves.{WasOpen};
ghost use Rattle.bson_store.specs.Calls.{store_state, KeepsIndexes, MayDropIndexes, Relates};
ghost use Rattle.fallowtime_commands.specs.Listing.{AreAnswersTo, IsLacking, LeavesAll, PerformsAll, PerformsEach, PerformsNext};
ghost use Rattle.fallowtime_requests.specs.declared.reading.Question.{Question as Asked};

use crate::Answer;
use crate::session::error::{ListError, Reason, refused_at};
use crate::session::performing::perform_drafted;
use bson_store::{DraftedEdits, ErrorKind, Store, StoreError, begin_draft, make_drafted};
use fallowtime_requests::Question;
use sqlite::Alter;
use std::alloc::Global;

/// Puts an answer behind the others.
fn push(answers: &mut Vec<Answer>, answer: Answer) -> Result<(), Reason>
    ensures { MatchResult result (λ _. answers.new.items ≡ answers.old.items ++ answer ∷ [])
        IsLacking }
{
    match answers.push(answer) {
        Ok(()) => Ok(()),
        Err(_) => Err(Reason::Refused(StoreError::from(ErrorKind::Memory))),
    }
}

/// Lets answers go. What a function that is generic over the database lets go is far dearer to prove.
fn discard(answers: Vec<Answer>) {
    drop(answers);
}

/// Does one more request, and puts its answer behind the others.
fn perform_next<S: Alter + Drop>(
    alloc: Global,
    store: &mut Store<S>,
    edits: &mut DraftedEdits,
    question: &Question<'_>,
    answers: &mut Vec<Answer>,
) -> Result<(), Reason>
    ensures moves { Relates S.Store store.old store.new (PerformsNext question.now answers.old.items
        answers.new.items result edits.old.draft edits.new.draft) }
    ensures indexes { KeepsIndexes store.old store.new }
    ensures crash { AddsNothing (store_state S.Store store.old) (store_state S.Store store.new) }
    ensures shape { (qs : List Asked) → AreAnswersTo qs answers.old.items
        → OnOk result (AreAnswersTo (qs ++ question.now ∷ []) answers.new.items) }
{
    let answer = perform_drafted(alloc, store, edits, question)?;
    push(answers, answer)
}

/// Does the requests in a draft without changes, and puts their answers behind each other.
fn perform_each<S: Alter + Drop>(
    alloc: Global,
    store: &mut Store<S>,
    edits: &mut DraftedEdits,
    questions: &[Question<'_>],
    answers: &mut Vec<Answer>,
) -> Result<(), ListError>
    requires { answers.old.items ≡ [] }
    ensures moves { Relates S.Store store.old store.new (PerformsEach questions.now
        answers.new.items result edits.old.draft edits.new.draft) }
    ensures indexes { KeepsIndexes store.old store.new }
    ensures crash { AddsNothing (store_state S.Store store.old) (store_state S.Store store.new) }
    ensures shape { OnOk result (AreAnswersTo questions.now answers.new.items) }
{
    for (at, question) in questions.iter().enumerate() {
        match perform_next(alloc, store, edits, question, answers) {
            Ok(()) => {}
            Err(reason) => return Err(refused_at(at as u64, reason)),
        }
    }
    Ok(())
}

/// Does the requests one after the other, each in the state that those before it leave, and commits them once. If one is
/// refused, none is done, and the error says which and why. A value that is set is copied.
///
/// A list may have insertions, puts, replacements and removals, and gets, sets, unsets and updates by an `_id`. Another
/// request is refused as `NotInLists`; each of these as by itself, but for a lack of memory or places, or by the
/// database, the list as a whole is.
pub fn perform_all<S: Alter + Drop>(
    alloc: Global,
    store: &mut Store<S>,
    questions: &[Question<'_>],
) -> Result<Vec<Answer>, ListError>
    ensures moves { Relates S.Store store.old store.new (PerformsAll questions.now result) }
    ensures open { WasOpen (store_state S.Store store.old) (store_state S.Store store.new) result }
    ensures indexes { MayDropIndexes store.old store.new }
    ensures crash { LeavesAll questions.now result (store_state S.Store store.old)
        (store_state S.Store store.new) }
    ensures shape { IfOk result (λ xs. AreAnswersTo questions.now xs.items) }
{
    let mut edits = match begin_draft(store) {
        Ok(edits) => edits,
        Err(error) => return Err(refused_at(0, Reason::Refused(error))),
    };
    let mut answers = Vec::new(alloc);
    match perform_each(alloc, store, &mut edits, questions, &mut answers) {
        Ok(()) => {}
        Err(error) => {
            discard(answers);
            return Err(error);
        }
    }
    match make_drafted(store, &edits) {
        Ok(()) => Ok(answers),
        Err(error) => {
            discard(answers);
            Err(refused_at(0, Reason::Refused(error)))
        }
    }
}
