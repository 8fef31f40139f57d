//! What a list does for a request of each kind: a look-up in a draft, and a change that is put into it.

ghost use Rattle.std.specs.Prelude.{◌≡◌, IfOk, MatchResult};
ghost use Rattle.bson_model.specs.View.{content, view};
ghost use Rattle.store_model.specs.Refusal.{refusal};
ghost use Rattle.store_model.specs.declared.error.ErrorKind.TheVariants.{Memory};
ghost use Rattle.store_table.specs.Crash.{AddsNothing};
ghost use Rattle.bson_store.specs.Calls.{store_state, KeepsIndexes, Relates};
ghost use Rattle.bson_store.specs.Whole.{EditsOne};
ghost use Rattle.fallowtime_commands.specs.Changing.{IsReplacement};
ghost use Rattle.fallowtime_commands.specs.Performing.{IsAnswerTo};
ghost use Rattle.fallowtime_commands.specs.Storing.{IsFit};
ghost use Rattle.fallowtime_commands.specs.Transferring.{IsInsertion};
ghost use Rattle.fallowtime_requests.specs.declared.request.Request.TheVariants as requests;
ghost use Rattle.fallowtime_commands.specs.Drafting.{DraftsBy, DraftsRequest, Inserts, IsId, IsPut, IsRemovalOf, IsUnmade, nothing_by};

use crate::answer::document;
use crate::{Answer, written};
use bson_store::{Bson, Document, DraftedEdits, Edit, Store, StoreError, draft_edit, get_drafted};
use sqlite::Alter;
use std::alloc::{AllocError, Global};

/// Lets a change go. What a function that is generic over the database lets go is far dearer to prove.
fn discard(edit: Edit) {
    drop(edit);
}

/// Puts a change behind the others.
pub(crate) fn put_edit<S: Alter + Drop>(
    store: &mut Store<S>,
    edits: &mut DraftedEdits,
    edit: Edit,
) -> Result<(), StoreError>
    ensures moves { Relates S.Store store.old store.new
        (EditsOne edit result edits.old.draft edits.new.draft) }
    ensures indexes { KeepsIndexes store.old store.new }
    ensures crash { AddsNothing (store_state S.Store store.old) (store_state S.Store store.new) }
{
    let outcome = draft_edit(store, edits, &edit);
    discard(edit);
    outcome
}

/// The change that puts a document into the collection `name`.
fn insertion(alloc: Global, name: &str, document: &Document) -> Result<Edit, StoreError>
    ensures { MatchResult result (λ x. IsFit (content document.now)
        × IsInsertion name.now x (content document.now)) (IsUnmade name.now (content document.now)) }
{
    let bytes = written(alloc, name, document)?;
    let name = String::from_str(alloc, name)?;
    Ok(Edit::InsertRaw { name, bytes })
}

/// The change that puts a document in the place of that of the collection `name` with its `_id`.
pub(crate) fn replacement(
    alloc: Global,
    name: &str,
    document: &Document,
) -> Result<Edit, StoreError>
    ensures { MatchResult result (λ x. IsFit (content document.now)
        × IsReplacement name.now (content document.now) x)
        (IsUnmade name.now (content document.now)) }
{
    let bytes = written(alloc, name, document)?;
    let name = String::from_str(alloc, name)?;
    Ok(Edit::ReplaceRaw { name, bytes })
}

/// The change that puts a document in the place of that of the collection `name` with its `_id`, or, if there is none,
/// into the collection.
fn putting(alloc: Global, name: &str, document: &Document) -> Result<Edit, StoreError>
    ensures { MatchResult result (λ x. IsFit (content document.now)
        × IsPut name.now x (content document.now)) (IsUnmade name.now (content document.now)) }
{
    let bytes = written(alloc, name, document)?;
    let name = String::from_str(alloc, name)?;
    Ok(Edit::PutRaw { name, bytes })
}

/// The change that takes the document of the collection `name` with an `_id` away.
fn removal(alloc: Global, name: &str, id: &Bson) -> Result<Edit, AllocError>
    ensures { IfOk result (λ x. IsRemovalOf name.now x (view id.now)) }
{
    let name = String::from_str(alloc, name)?;
    let id = id.try_clone(alloc)?;
    Ok(Edit::Remove { name, id })
}

/// The answer to an insertion, with this `_id`.
fn inserted(alloc: Global, id: &Bson) -> Result<Answer, StoreError>
    ensures { MatchResult result (IsId (view id.now)) (λ e. e ≡ refusal Memory) }
{
    Ok(Answer::Id(id.try_clone(alloc)?))
}

/// Puts a document into the collection `name`.
pub(crate) fn put_in<S: Alter + Drop>(
    alloc: Global,
    store: &mut Store<S>,
    edits: &mut DraftedEdits,
    name: &str,
    document: &Document,
) -> Result<(), StoreError>
    ensures moves { Relates S.Store store.old store.new (DraftsBy
        (Inserts name.now (content document.now)) (nothing_by result) edits.old.draft edits.new.draft) }
    ensures indexes { KeepsIndexes store.old store.new }
    ensures crash { AddsNothing (store_state S.Store store.old) (store_state S.Store store.new) }
{
    let edit = insertion(alloc, name, document)?;
    put_edit(store, edits, edit)
}

/// Puts a document into the collection `name`, which has this `_id`.
pub(crate) fn insert<S: Alter + Drop>(
    alloc: Global,
    store: &mut Store<S>,
    edits: &mut DraftedEdits,
    name: &str,
    id: &Bson,
    document: &Document,
) -> Result<Answer, StoreError>
    ensures moves { Relates S.Store store.old store.new (DraftsRequest name.now
        (requests.Insert id.now document.now) result edits.old.draft edits.new.draft) }
    ensures indexes { KeepsIndexes store.old store.new }
    ensures crash { AddsNothing (store_state S.Store store.old) (store_state S.Store store.new) }
    ensures shape { IfOk result (IsAnswerTo (requests.Insert id.now document.now)) }
{
    match put_in(alloc, store, edits, name, document) {
        Ok(()) => inserted(alloc, id),
        Err(error) => Err(error),
    }
}

/// Puts a document in the place of that of the collection `name` with its `_id`.
pub(crate) fn replace<S: Alter + Drop>(
    alloc: Global,
    store: &mut Store<S>,
    edits: &mut DraftedEdits,
    name: &str,
    document: &Document,
) -> Result<Answer, StoreError>
    ensures moves { Relates S.Store store.old store.new (DraftsRequest name.now
        (requests.Replace document.now) result edits.old.draft edits.new.draft) }
    ensures indexes { KeepsIndexes store.old store.new }
    ensures crash { AddsNothing (store_state S.Store store.old) (store_state S.Store store.new) }
    ensures shape { IfOk result (IsAnswerTo (requests.Replace document.now)) }
{
    let edit = replacement(alloc, name, document)?;
    put_edit(store, edits, edit)?;
    Ok(Answer::Nothing)
}

/// Puts a document in the place of that of the collection `name` with its `_id`, or into the collection.
pub(crate) fn put<S: Alter + Drop>(
    alloc: Global,
    store: &mut Store<S>,
    edits: &mut DraftedEdits,
    name: &str,
    document: &Document,
) -> Result<Answer, StoreError>
    ensures moves { Relates S.Store store.old store.new (DraftsRequest name.now
        (requests.Put document.now) result edits.old.draft edits.new.draft) }
    ensures indexes { KeepsIndexes store.old store.new }
    ensures crash { AddsNothing (store_state S.Store store.old) (store_state S.Store store.new) }
    ensures shape { IfOk result (IsAnswerTo (requests.Put document.now)) }
{
    let edit = putting(alloc, name, document)?;
    put_edit(store, edits, edit)?;
    Ok(Answer::Nothing)
}

/// Takes the document of the collection `name` with an `_id` away.
pub(crate) fn remove<S: Alter + Drop>(
    alloc: Global,
    store: &mut Store<S>,
    edits: &mut DraftedEdits,
    name: &str,
    id: &Bson,
) -> Result<Answer, StoreError>
    ensures moves { Relates S.Store store.old store.new (DraftsRequest name.now
        (requests.Remove id.now) result edits.old.draft edits.new.draft) }
    ensures indexes { KeepsIndexes store.old store.new }
    ensures crash { AddsNothing (store_state S.Store store.old) (store_state S.Store store.new) }
    ensures shape { IfOk result (IsAnswerTo (requests.Remove id.now)) }
{
    let edit = removal(alloc, name, id)?;
    put_edit(store, edits, edit)?;
    Ok(Answer::Nothing)
}

/// The document of the collection `name` with an `_id`.
pub(crate) fn get<S: Alter + Drop>(
    store: &mut Store<S>,
    edits: &DraftedEdits,
    name: &str,
    id: &Bson,
) -> Result<Answer, StoreError>
    ensures moves { Relates S.Store store.old store.new (DraftsRequest name.now
        (requests.Get id.now) result edits.now.draft edits.now.draft) }
    ensures indexes { KeepsIndexes store.old store.new }
    ensures crash { AddsNothing (store_state S.Store store.old) (store_state S.Store store.new) }
    ensures shape { IfOk result (IsAnswerTo (requests.Get id.now)) }
{
    document(get_drafted(store, edits, name, id))
}
