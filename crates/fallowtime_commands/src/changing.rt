//! Changes of the documents that answer a question, whole or not at all.

ghost use Rattle.std.specs.Prelude.{◌≡◌, ◌↔◌, ◌++◌, ◌∷◌, [], Ok, Some, IfErr, IfOk, IsTrue, List, MatchResult, map, option_map};
ghost use Rattle.bson_base.specs.Value.{Members, look_up};
ghost use Rattle.bson_bytes.specs.Encode.{encode};
ghost use Rattle.bson_model.specs.View.{content, view};
ghost use Rattle.store_model.specs.Reading.{Documents};
ghost use Rattle.store_model.specs.Refusal.{refusal};
ghost use Rattle.store_model.specs.State.{AreKept, IsKept, id_key};
ghost use Rattle.store_model.specs.declared.error.ErrorKind.TheVariants.{Memory};
ghost use Rattle.store_question.specs.Reads.{form_of};
ghost use Rattle.store_table.specs.Moves.{WasOpen};
ghost use Rattle.store_update.specs.Plan.{plan_of};
ghost use Rattle.bson_store.specs.Calls.{store_state, Relates};
ghost use Rattle.bson_store.specs.Export.{bytes_of_each};
ghost use Rattle.bson_store.specs.declared.edit.Edit.{Edit as Change};
ghost use Rattle.fallowtime_commands.specs.Left.{LeavesApplied, LeavesChange};
ghost use Rattle.fallowtime_commands.specs.Performing.{IsChange, reply_of};
ghost use Rattle.fallowtime_commands.specs.Storing.{IsFit};
ghost use Rattle.fallowtime_commands.specs.Changing.{Applies, AreEdits, Becomes, CanBe, ChangesFound, Exchanges, IsRemoval, IsReplacement, IsUnkeptAt, IsUnmadeAt, IsUnrenewedAt, Renews, Replaces, StopsAt, Updates, done_by, listed, outcome_of as outcome_by};
ghost use Rattle.fallowtime_commands.specs.declared.changing.Unmade.TheVariants.{Store as OfStore};

use crate::answer::Answer;
use crate::meant::find_meant;
use crate::replacing::copy_with_id;
use crate::storing::kept_bytes;
use bson_store::{Bson, Document, Edit, ErrorKind, Store, StoreError, apply_all};
use fallowtime_requests::{Work, has_other_id};
use sqlite::Alter;
use std::alloc::{AllocError, Global};
use store_documents::{ID_KEY, document_of_body};
use store_question::Question;
use store_update::{Step, UpdateError, updated};

/// Why nothing becomes of a document.
#[derive(Drop)]
pub enum Unmade {
    /// It is refused for the document at this place among those that are meant, counted from 0.
    Update(u64, UpdateError),
    /// What becomes of a document can't be kept, or memory ran out.
    Store(StoreError),
}

/// The document of a body.
fn document_of(alloc: Global, body: &[u8]) -> Result<Document, Unmade>
    ensures { (d : Members) → IsKept d → body.now ≡ encode d
        → MatchResult result (λ e. content e ≡ d) (λ w. w ≡ OfStore (refusal Memory)) }
{
    match document_of_body(alloc, body) {
        Ok(document) => Ok(document),
        Err(kind) => Err(Unmade::Store(StoreError::from(kind))),
    }
}

/// What the steps make of the document at the place `at`.
fn updated_at(
    alloc: Global,
    at: u64,
    document: Document,
    steps: &[Step],
) -> Result<Document, Unmade>
    ensures { MatchResult result
        (λ e. Updates (map plan_of steps.now) (content document) (Ok (content e)))
        (IsUnrenewedAt (Updates (map plan_of steps.now) (content document)) at) }
{
    match updated(alloc, false, document, steps) {
        Ok(document) => Ok(document),
        Err(error) => match error {
            UpdateError::Memory => Err(Unmade::Store(StoreError::from(ErrorKind::Memory))),
            _ => Err(Unmade::Update(at, error)),
        },
    }
}

/// The `_id` of a document, which is taken out.
fn taken_id(document: &mut Document) -> Option<Bson>
    ensures { option_map view result ≡ look_up id_key (content document.old) }
{
    document.remove(ID_KEY)
}

/// The `_id` of the document of a body.
fn kept_id(alloc: Global, body: &[u8]) -> Result<Bson, StoreError>
    ensures { (d : Members) → IsKept d → body.now ≡ encode d
        → MatchResult result (λ id. look_up id_key d ≡ Some (view id)) (λ e. e ≡ refusal Memory) }
{
    let mut document = document_of_body(alloc, body)?;
    // (a kept document has an `_id`)
    let Some(id) = taken_id(&mut document) else {
        return Err(StoreError::from(ErrorKind::NoId));
    };
    Ok(id)
}

/// The document `by` in the place of the one with this `_id`, which is at the place `at`.
fn placed_at(alloc: Global, at: u64, id: Bson, by: &Document) -> Result<Document, Unmade>
    ensures { (d : Members) → look_up id_key d ≡ Some (view id) → MatchResult result
        (λ m. Replaces (content by.now) d (Ok (content m)))
        (IsUnrenewedAt (Replaces (content by.now) d) at) }
{
    if has_other_id(by, &id) {
        return Err(Unmade::Update(at, UpdateError::Id));
    }
    match copy_with_id(alloc, by, id) {
        Ok(document) => Ok(document),
        Err(_) => Err(Unmade::Store(StoreError::from(ErrorKind::Memory))),
    }
}

/// The document `by` in the place of that of a body, which is at the place `at`.
fn replaced_at(alloc: Global, at: u64, body: &[u8], by: &Document) -> Result<Document, Unmade>
    ensures { (d : Members) → IsKept d → body.now ≡ encode d → MatchResult result
        (λ m. Replaces (content by.now) d (Ok (content m)))
        (IsUnrenewedAt (Replaces (content by.now) d) at) }
{
    match kept_id(alloc, body) {
        Ok(id) => placed_at(alloc, at, id, by),
        Err(error) => Err(Unmade::Store(error)),
    }
}

/// The bytes of a document that is to be in the place `at`.
fn kept_at(alloc: Global, at: u64, document: &Document) -> Result<Vec<u8>, Unmade>
    ensures { MatchResult result
        (λ bytes. (bytes.items ≡ encode (content document.now)) × IsFit (content document.now))
        (IsUnkeptAt (content document.now) at) }
{
    match kept_bytes(alloc, document) {
        Ok(bytes) => Ok(bytes),
        Err(kind) => Err(Unmade::Store(StoreError::at(kind, at))),
    }
}

/// The change that puts a document in the place of the one with its `_id`.
fn replacement(alloc: Global, name: &str, bytes: Vec<u8>) -> Result<Edit, AllocError>
    ensures { (e : Members) → bytes.items ≡ encode e → IfOk result (IsReplacement name.now e) }
{
    let name = String::from_str(alloc, name)?;
    Ok(Edit::ReplaceRaw { name, bytes })
}

/// The change that takes away the document with this `_id`.
fn removal(alloc: Global, name: &str, id: Bson) -> Result<Edit, AllocError>
    ensures { (d : Members) → look_up id_key d ≡ Some (view id) → IfOk result (IsRemoval name.now d) }
{
    let name = String::from_str(alloc, name)?;
    Ok(Edit::Remove { name, id })
}

/// The change that takes away the document of a body.
pub(crate) fn removal_of_body(alloc: Global, name: &str, body: &[u8]) -> Result<Edit, StoreError>
    ensures { (d : Members) → IsKept d → body.now ≡ encode d
        → MatchResult result (IsRemoval name.now d) (λ e. e ≡ refusal Memory) }
{
    let id = kept_id(alloc, body)?;
    Ok(removal(alloc, name, id)?)
}

/// Whether these are the same bytes.
fn are_same(bytes: &[u8], others: &[u8]) -> bool
    ensures { IsTrue result ↔ (bytes.now ≡ others.now) }
{
    bytes == others
}

/// The change that puts a document in the place of that of a body, which is at the place `at`; none if they are the same.
fn exchange(
    alloc: Global,
    name: &str,
    at: u64,
    body: &[u8],
    document: &Document,
) -> Result<Option<Edit>, Unmade>
    ensures { (d : Members) → body.now ≡ encode d → MatchResult result
        (λ change. IsFit (content document.now) × Exchanges name.now d (content document.now) change)
        (IsUnkeptAt (content document.now) at) }
{
    let bytes = kept_at(alloc, at, document)?;
    if are_same(bytes.as_slice(), body) {
        return Ok(None);
    }
    match replacement(alloc, name, bytes) {
        Ok(edit) => Ok(Some(edit)),
        Err(_) => Err(Unmade::Store(StoreError::from(ErrorKind::Memory))),
    }
}

/// The change of the document of a body, which is at the place `at`, to what the steps make of it.
pub(crate) fn update_of_body(
    alloc: Global,
    name: &str,
    at: u64,
    body: &[u8],
    steps: &[Step],
) -> Result<Option<Edit>, Unmade>
    ensures { (d : Members) → IsKept d → body.now ≡ encode d → MatchResult result
        (Renews name.now (Updates (map plan_of steps.now) d) d)
        (IsUnrenewedAt (Updates (map plan_of steps.now) d) at) }
{
    let stored = document_of(alloc, body)?;
    let document = updated_at(alloc, at, stored, steps)?;
    exchange(alloc, name, at, body, &document)
}

/// The change of the document of a body, which is at the place `at`, to the document `by` in its place.
fn replacement_of_body(
    alloc: Global,
    name: &str,
    at: u64,
    body: &[u8],
    by: &Document,
) -> Result<Option<Edit>, Unmade>
    ensures { (d : Members) → IsKept d → body.now ≡ encode d → MatchResult result
        (Renews name.now (Replaces (content by.now) d) d)
        (IsUnrenewedAt (Replaces (content by.now) d) at) }
{
    let document = replaced_at(alloc, at, body, by)?;
    exchange(alloc, name, at, body, &document)
}

/// The change that is to be made of the document of a body, which is at the place `at`; none if it stays as it is.
pub(crate) fn edit_of(
    alloc: Global,
    name: &str,
    at: u64,
    body: &[u8],
    work: &Work,
) -> Result<Option<Edit>, Unmade>
    ensures becomes { (d : Members) → IsKept d → body.now ≡ encode d → MatchResult result
        (Becomes name.now work.now d) (IsUnmadeAt work.now d at) }
    ensures shape { IfErr result (CanBe work.now) }
{
    match work {
        Work::Update(steps) => update_of_body(alloc, name, at, body, steps.as_slice()),
        Work::Replace(document) => replacement_of_body(alloc, name, at, body, document),
        Work::Remove => match removal_of_body(alloc, name, body) {
            Ok(edit) => Ok(Some(edit)),
            Err(error) => Err(Unmade::Store(error)),
        },
    }
}

/// Puts a change behind the others, if there is one.
pub(crate) fn push(edit: Option<Edit>, edits: &mut Vec<Edit>) -> Result<(), Unmade>
    ensures { MatchResult result (λ _. edits.new.items ≡ edits.old.items ++ listed edit)
        (λ w. w ≡ OfStore (refusal Memory)) }
{
    let Some(edit) = edit else {
        return Ok(());
    };
    match edits.push(edit) {
        Ok(()) => Ok(()),
        Err(_) => Err(Unmade::Store(StoreError::from(ErrorKind::Memory))),
    }
}

/// The changes that are to be made of the documents of these bodies, in their order.
pub fn edits_of(
    alloc: Global,
    name: &str,
    bodies: &[Vec<u8>],
    work: &Work,
) -> Result<Vec<Edit>, Unmade>
    ensures edits { (ds : Documents) → AreKept ds → bytes_of_each bodies.now ≡ map encode ds
        → MatchResult result (λ edits. AreEdits name.now work.now ds edits.items)
        (StopsAt name.now work.now ds) }
    ensures shape { IfErr result (CanBe work.now) }
{
    let mut edits = Vec::new(alloc);
    for (at, body) in bodies.iter().enumerate() {
        let edit = edit_of(alloc, name, at as u64, body.as_slice(), work)?;
        push(edit, &mut edits)?;
    }
    Ok(edits)
}

/// What is returned if nothing becomes of a document.
pub(crate) fn outcome_of(unmade: Unmade) -> Result<Answer, StoreError>
    ensures { result ≡ outcome_by unmade }
{
    match unmade {
        Unmade::Update(at, error) => Ok(Answer::NotUpdated(at, error)),
        Unmade::Store(error) => Err(error),
    }
}

/// What is returned if so many documents are meant and so many of them changed.
pub fn answer_to(work: &Work, matched: u64, changed: u64) -> Answer
    ensures { result ≡ done_by work.now matched changed }
{
    match work {
        Work::Update(_) | Work::Replace(_) => Answer::Updated(matched, changed),
        Work::Remove => Answer::Number(matched),
    }
}

/// Makes the changes of `matched` documents in one step.
pub(crate) fn apply<S: Alter + Drop>(
    store: &mut Store<S>,
    edits: &[Edit],
    work: &Work,
    matched: u64,
) -> Result<Answer, StoreError>
    ensures moves { Relates S.Store store.old store.new (Applies work.now edits.now matched result) }
    ensures open { WasOpen (store_state S.Store store.old) (store_state S.Store store.new) result }
    ensures crash { LeavesApplied edits.now result (store_state S.Store store.old)
        (store_state S.Store store.new) }
    ensures shape { IfOk result (IsChange work.now) }
{
    match apply_all(store, edits) {
        Ok(()) => Ok(answer_to(work, matched, edits.len() as u64)),
        Err(refusal) => Err(refusal.error),
    }
}

/// Lets changes go. What a function that is generic over the database lets go is far dearer to prove.
pub(crate) fn discard(edits: Vec<Edit>) {
    drop(edits);
}

/// Changes the documents of the collection `name` that answer a question: all if `many`, or else the first. It is one
/// step: all of them are changed, or none.
///
/// - An update makes of each what its steps say. The document keeps its `_id`, its place, and what is under keys that
///   the steps don't name, to the bit. If the steps can't be made on a document, the answer says why.
/// - A replacement makes of each the document that it has, with the `_id` of the one that was there. If it has an `_id`
///   of another meaning, the answer says so.
/// - A removal takes each away. The answer is how many.
///
/// Refused by BadName; TooDeep, Nul and TooLong of what becomes of a document, whose number among those that answer the
/// refusal has; and by Memory and Database.
pub(crate) fn change<S: Alter + Drop>(
    alloc: Global,
    store: &mut Store<S>,
    name: &str,
    question: &Question,
    work: &Work,
    many: bool,
) -> Result<Answer, StoreError>
    ensures moves { Relates S.Store store.old store.new
        (ChangesFound name.now (form_of question.now) work.now many result) }
    ensures open { WasOpen (store_state S.Store store.old) (store_state S.Store store.new) result }
    ensures crash { LeavesChange name.now (form_of question.now) work.now many
        (reply_of result) (store_state S.Store store.old) (store_state S.Store store.new) }
    ensures shape { IfOk result (IsChange work.now) }
{
    let bodies = find_meant(alloc, store, name, question, many)?;
    match edits_of(alloc, name, bodies.as_slice(), work) {
        Ok(edits) => {
            let done = apply(store, edits.as_slice(), work, bodies.len() as u64);
            discard(edits);
            done
        }
        Err(unmade) => outcome_of(unmade),
    }
}
