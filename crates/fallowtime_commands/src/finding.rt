//! A document that is found, changed and returned.

ghost use Rattle.std.specs.Prelude.{◌≡◌, ◌∷◌, [], ℕ, IfErr, IfOk, List, MatchOption, MatchResult, Some, if◌then◌else◌};
ghost use Rattle.bson_base.specs.Value.{Members};
ghost use Rattle.bson_bytes.specs.Encode.{encode};
ghost use Rattle.store_model.specs.Refusal.{refusal};
ghost use Rattle.store_model.specs.State.{IsKept};
ghost use Rattle.store_model.specs.declared.error.ErrorKind.TheVariants.{Memory};
ghost use Rattle.store_asked.specs.Asking.{AskedFrom};
ghost use Rattle.store_question.specs.Reads.{form_of};
ghost use Rattle.store_table.specs.Crash.{AddsNothing};
ghost use Rattle.store_table.specs.Moves.{WasOpen};
ghost use Rattle.bson_store.specs.Calls.{store_state, Relates};
ghost use Rattle.bson_store.specs.Export.{bytes_of_each};
ghost use Rattle.fallowtime_commands.specs.Changing.{CanBe, IsUnmadeAt};
ghost use Rattle.fallowtime_commands.specs.Finding.{AppliesOne, AreFirst, DraftsOne, FindsAndChanges, IsFound, IsPartOf, bytes_after, first_limit, first_of};
ghost use Rattle.fallowtime_commands.specs.Left.{LeavesApplied, LeavesFound};
ghost use Rattle.fallowtime_commands.specs.Performing.{reply_of};
ghost use Rattle.fallowtime_commands.specs.declared.answer.Answer.TheVariants.{Found};
ghost use Rattle.fallowtime_commands.specs.declared.changing.Unmade.TheVariants.{Store as OfStore};

use crate::answer::Answer;
use crate::changing::{Unmade, discard, edit_of, outcome_of, push};
use bson_store::{Edit, ErrorKind, Store, StoreError, apply_all};
use fallowtime_requests::{Wanted, Work};
use sqlite::Alter;
use std::alloc::{AllocError, Global};
use std::mem::replace as take;
use store_asked::find_arranged;
use store_pipeline::left_of_body;
use store_pipeline::sorted::{Arrangement, Fields};
use store_question::Question;

/// How many documents there are at most, of those of a limit, if no more than the first is wanted.
fn first_limit(limit: Option<usize>) -> Option<usize>
    ensures { result ≡ first_limit limit }
{
    match limit {
        Some(0) => Some(0),
        _ => Some(1),
    }
}

/// The arrangement of the first of the documents that an arrangement has. The keys are taken.
fn first_of(alloc: Global, arrangement: &mut Arrangement) -> Arrangement
    ensures { result ≡ first_of arrangement.old }
{
    Arrangement {
        keys: take(&mut arrangement.keys, Vec::new(alloc)),
        skip: arrangement.skip,
        limit: first_limit(arrangement.limit),
    }
}

/// The written form of the first of the documents that `find_arranged` finds, by itself; or no body.
///
/// Refused by BadName, Memory and Database.
fn find_first<S: Alter + Drop>(
    alloc: Global,
    store: &mut Store<S>,
    name: &str,
    question: &Question,
    arrangement: &mut Arrangement,
) -> Result<Vec<Vec<u8>>, StoreError>
    ensures moves { Relates S.Store store.old store.new
        (AskedFrom (AreFirst arrangement.old) name.now (form_of question.now) result) }
    ensures open { WasOpen (store_state S.Store store.old) (store_state S.Store store.new) result }
    ensures crash { AddsNothing (store_state S.Store store.old) (store_state S.Store store.new) }
{
    let first = first_of(alloc, arrangement);
    find_arranged(alloc, store, name, question, &first)
}

/// The first of bodies, if there is one.
pub fn head_of(bodies: &[Vec<u8>]) -> Option<&[u8]>
    ensures { MatchOption result (bytes_of_each bodies.now ≡ [])
        (λ body. (rest : List (List ℕ)) × (bytes_of_each bodies.now ≡ body.now ∷ rest)) }
{
    match bodies {
        [] => None,
        [body, ..] => Some(body.as_slice()),
    }
}

/// The written form of a document after its change, of which these are the bytes before it.
fn bytes_after<'b>(edit: &'b Option<Edit>, body: &'b [u8]) -> &'b [u8]
    ensures { result.now ≡ bytes_after edit.now body.now }
{
    match edit {
        Some(Edit::ReplaceRaw { bytes, .. }) => bytes.as_slice(),
        _ => body,
    }
}

/// The written form of a document as it is afterwards, if so; else as it was before its change.
fn returned_of<'b>(after: bool, edit: &'b Option<Edit>, body: &'b [u8]) -> &'b [u8]
    ensures { result.now ≡ (if after then bytes_after edit.now body.now else body.now) }
{
    if after {
        return bytes_after(edit, body);
    }
    body
}

/// A copy of bytes.
fn copy_of(alloc: Global, bytes: &[u8]) -> Result<Vec<u8>, AllocError>
    ensures { IfOk result (λ copy. copy.items ≡ bytes.now) }
{
    let mut copy = Vec::new(alloc);
    copy.extend_from_slice(bytes)?;
    Ok(copy)
}

/// What is left of a document by the fields that are given, or all of it.
fn part_of(alloc: Global, bytes: &[u8], fields: &Option<Fields>) -> Result<Vec<u8>, AllocError>
    ensures { (e : Members) → bytes.now ≡ encode e → IfOk result (λ part. IsPartOf fields.now e part.items) }
{
    match fields {
        Some(fields) => left_of_body(alloc, bytes, fields),
        None => copy_of(alloc, bytes),
    }
}

/// What is returned of the document of a body, before it is changed.
fn answer_of(
    alloc: Global,
    after: bool,
    fields: &Option<Fields>,
    edit: &Option<Edit>,
    body: &[u8],
) -> Result<Vec<u8>, Unmade>
    ensures part { (e : Members) → (if after then bytes_after edit.now body.now else body.now) ≡ encode e
        → IfOk result (λ part. IsPartOf fields.now e part.items) }
    ensures refused { IfErr result (λ w. w ≡ OfStore (refusal Memory)) }
{
    match part_of(alloc, returned_of(after, edit, body), fields) {
        Ok(part) => Ok(part),
        Err(_) => Err(Unmade::Store(StoreError::from(ErrorKind::Memory))),
    }
}

/// A change that is to be made, and what is then returned. It is made before the change, which leaves nothing to do
/// that memory could be refused for.
#[derive(Drop)]
pub struct Drafted {
    /// The change of the document, if one is to be made.
    pub edits: Vec<Edit>,
    /// What is returned of the document.
    pub returned: Vec<u8>,
}

/// The change that is to be made of the document of a body, and what is returned of it: what is left of it by the fields,
/// as it is after the change, if so, or else as it was before.
pub fn draft(
    alloc: Global,
    name: &str,
    body: &[u8],
    work: &Work,
    after: bool,
    fields: &Option<Fields>,
) -> Result<Drafted, Unmade>
    ensures drafts { (d : Members) → IsKept d → body.now ≡ encode d → MatchResult result
        (λ x. DraftsOne name.now work.now after fields.now d x.edits.items x.returned)
        (IsUnmadeAt work.now d 0) }
    ensures shape { IfErr result (CanBe work.now) }
{
    let edit = edit_of(alloc, name, 0, body, work)?;
    let returned = answer_of(alloc, after, fields, &edit, body)?;
    let mut edits = Vec::new(alloc);
    push(edit, &mut edits)?;
    Ok(Drafted { edits, returned })
}

/// Makes the change, and returns what is to be returned then.
fn apply_one<S: Alter + Drop>(
    store: &mut Store<S>,
    edits: &[Edit],
    returned: Vec<u8>,
) -> Result<Answer, StoreError>
    ensures moves { Relates S.Store store.old store.new (AppliesOne edits.now returned result) }
    ensures open { WasOpen (store_state S.Store store.old) (store_state S.Store store.new) result }
    ensures crash { LeavesApplied edits.now result (store_state S.Store store.old)
        (store_state S.Store store.new) }
    ensures shape { IfOk result (λ a. a ≡ Found (Some returned)) }
{
    match apply_all(store, edits) {
        Ok(()) => Ok(Answer::Found(Some(returned))),
        Err(refusal) => Err(refusal.error),
    }
}

/// Makes the change of a document that was found, and returns what is wanted of the document.
fn apply_draft<S: Alter + Drop>(
    store: &mut Store<S>,
    drafted: Drafted,
) -> Result<Answer, StoreError>
    ensures moves { Relates S.Store store.old store.new (AppliesOne drafted.edits.items drafted.returned result) }
    ensures open { WasOpen (store_state S.Store store.old) (store_state S.Store store.new) result }
    ensures crash { LeavesApplied drafted.edits.items result (store_state S.Store store.old)
        (store_state S.Store store.new) }
    ensures shape { IfOk result (λ a. a ≡ Found (Some drafted.returned)) }
{
    let Drafted { edits, returned } = drafted;
    let done = apply_one(store, edits.as_slice(), returned);
    discard(edits);
    done
}

/// Changes the first of the documents of the collection `name` that `find` returns by a question and by what is wanted,
/// as `change` changes it, and returns what is wanted of it: as it was before, or as it is afterwards. One that is
/// removed is returned as it was. Found and changed is one step. If there is none, nothing is changed or returned.
///
/// Refused as `change`.
pub(crate) fn find_and_change<S: Alter + Drop>(
    alloc: Global,
    store: &mut Store<S>,
    name: &str,
    question: &Question,
    wanted: &mut Wanted,
    work: &Work,
) -> Result<Answer, StoreError>
    ensures moves { Relates S.Store store.old store.new
        (FindsAndChanges name.now (form_of question.now) wanted.old work.now result) }
    ensures open { WasOpen (store_state S.Store store.old) (store_state S.Store store.new) result }
    ensures crash { LeavesFound name.now (form_of question.now) wanted.old work.now
        (reply_of result) (store_state S.Store store.old) (store_state S.Store store.new) }
    ensures shape { IfOk result (IsFound work.now) }
{
    let bodies = find_first(alloc, store, name, question, &mut wanted.arrangement)?;
    let Some(body) = head_of(bodies.as_slice()) else {
        return Ok(Answer::Found(None));
    };
    match draft(alloc, name, body, work, wanted.after, &wanted.fields) {
        Ok(drafted) => apply_draft(store, drafted),
        Err(unmade) => outcome_of(unmade),
    }
}
