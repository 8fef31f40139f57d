//! Documents that go into a store as they are.

ghost use Rattle.std.specs.Prelude.{◌≡◌, ◌⊎◌, MatchResult};
ghost use Rattle.bson_base.specs.Kinds.{IsPlain};
ghost use Rattle.bson_base.specs.Value.{document as tree};
ghost use Rattle.bson_bytes.specs.Encode.{encode};
ghost use Rattle.bson_model.specs.View.{content};
ghost use Rattle.store_model.specs.State.{in_bytes, insert as inserts, replace as replaces};
ghost use Rattle.store_model.specs.declared.error.ErrorKind.TheVariants.{Memory, NoId, Nul};
ghost use Rattle.store_table.specs.Moves.{WasOpen};
ghost use Rattle.bson_store.specs.Calls.{store_state, Relates};
ghost use Rattle.bson_store.specs.Refusals.{as_done, reply_by};
ghost use Rattle.fallowtime_commands.specs.Left.{LeavesPut, LeavesStored};
ghost use Rattle.fallowtime_commands.specs.Storing.{IsFit, IsUnasked, IsUnkept, Puts, Stores};

use bson_frame::LEVEL_LIMIT;
use bson_meaning::{depth_of_document, is_plain_document};
use bson_store::{Document, ErrorKind, Store, StoreError};
use sqlite::Alter;
use std::alloc::Global;
use store_documents::{ID_KEY, Name, body_of};

/// Why a document without an `_id` isn't kept.
fn unidentified(document: &Document) -> ErrorKind
    ensures { ((result ≡ Nul) × (IsPlain (tree (content document.now)) → ⊥))
        ⊎ ((result ≡ NoId) × IsPlain (tree (content document.now))) }
{
    if is_plain_document(document) {
        ErrorKind::NoId
    } else {
        ErrorKind::Nul
    }
}

/// The bytes of a document that a store can keep.
pub fn kept_bytes(alloc: Global, document: &Document) -> Result<Vec<u8>, ErrorKind>
    ensures { MatchResult result (λ bytes. (bytes.items ≡ encode (content document.now))
        × IsFit (content document.now)) (λ k. IsUnkept (content document.now) k ⊎ (k ≡ Memory)) }
{
    if depth_of_document(document) > LEVEL_LIMIT {
        return Err(ErrorKind::TooDeep);
    }
    let Some(_) = document.get(ID_KEY) else {
        return Err(unidentified(document));
    };
    body_of(alloc, document)
}

/// The bytes of a document that is to go into the collection `name`.
pub fn written(alloc: Global, name: &str, document: &Document) -> Result<Vec<u8>, ErrorKind>
    ensures { MatchResult result (λ bytes. (bytes.items ≡ encode (content document.now))
        × IsFit (content document.now)) (IsUnasked name.now (content document.now)) }
{
    if Name::new(name).is_none() {
        return Err(ErrorKind::BadName);
    }
    kept_bytes(alloc, document)
}

/// Puts a document last in the collection `name`.
pub(crate) fn insert<S: Alter + Drop>(
    alloc: Global,
    store: &mut Store<S>,
    name: &str,
    document: &Document,
) -> Result<(), StoreError>
    ensures moves { Relates S.Store store.old store.new
        (Stores name.now (inserts in_bytes) (content document.now) (reply_by as_done result)) }
    ensures open { WasOpen (store_state S.Store store.old) (store_state S.Store store.new) result }
    ensures crash { LeavesStored name.now (inserts in_bytes) (content document.now)
        (reply_by as_done result) (store_state S.Store store.old) (store_state S.Store store.new) }
{
    let bytes = written(alloc, name, document)?;
    store.insert_raw(name, bytes.as_slice())
}

/// Replaces the document of the collection `name` with the `_id` of this one.
pub(crate) fn replace<S: Alter + Drop>(
    alloc: Global,
    store: &mut Store<S>,
    name: &str,
    document: &Document,
) -> Result<(), StoreError>
    ensures moves { Relates S.Store store.old store.new
        (Stores name.now (replaces in_bytes) (content document.now) (reply_by as_done result)) }
    ensures open { WasOpen (store_state S.Store store.old) (store_state S.Store store.new) result }
    ensures crash { LeavesStored name.now (replaces in_bytes) (content document.now)
        (reply_by as_done result) (store_state S.Store store.old) (store_state S.Store store.new) }
{
    let bytes = written(alloc, name, document)?;
    store.replace_raw(name, bytes.as_slice())
}

/// Replaces the document of the collection `name` with the `_id` of this one, or, if there is none, puts this one last.
pub(crate) fn put<S: Alter + Drop>(
    alloc: Global,
    store: &mut Store<S>,
    name: &str,
    document: &Document,
) -> Result<(), StoreError>
    ensures moves { Relates S.Store store.old store.new
        (Puts name.now (content document.now) (reply_by as_done result)) }
    ensures open { WasOpen (store_state S.Store store.old) (store_state S.Store store.new) result }
    ensures crash { LeavesPut name.now (content document.now) (reply_by as_done result)
        (store_state S.Store store.old) (store_state S.Store store.new) }
{
    let kept = written(alloc, name, document)?;
    let bytes = kept.as_slice();
    match store.replace_raw(name, bytes) {
        Ok(()) => Ok(()),
        Err(error) => match error.kind {
            ErrorKind::NotFound => store.insert_raw(name, bytes),
            _ => Err(error),
        },
    }
}
