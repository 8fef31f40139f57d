//! One change, which is put into a draft, and one document of the rows that it would make.

ghost use Rattle.std.specs.Prelude.{Ok};
ghost use Rattle.bson_base.specs.Value.{Members};
ghost use Rattle.bson_model.specs.View.{view};
ghost use Rattle.store_documents.specs.Bodies.{AnswersWritten};
ghost use Rattle.store_documents.specs.Names.{name_bytes};
ghost use Rattle.store_model.specs.Reading.{IsRead};
ghost use Rattle.store_model.specs.Reading.{readable};
ghost use Rattle.store_model.specs.State.{in_bytes, insert, on, remove, replace};
ghost use Rattle.store_table.specs.Crash.{AddsNothing};
ghost use Rattle.bson_store.specs.Calls.{store_state, KeepsIndexes, Relates};
ghost use Rattle.bson_store.specs.Drafting.{EditsBy, EditsBytes, EditsKept, EditsPut, EditsRead, FindsDrafted, GetsDrafted, LooksDrafted};

use crate::draft::Draft;
use crate::edit::DraftedEdits;
use crate::error::fault_refusal;
use crate::store::{Store, good_name};
use bson_meaning::KeyError;
use bson_model::Bson;
use sqlite::Alter;
use store_documents::{KeptRow, Name, key_of_id, row_of_bytes};
use store_model::{ErrorKind, StoreError};
use store_table::{Fault, Found};

/// The first row of a collection under a key, after the changes of the draft.
fn find_row<S: Alter + Drop>(
    store: &mut Store<S>,
    draft: &Draft,
    collection: &str,
    key: &[u8],
) -> Result<Option<Found>, Fault>
    ensures moves { Relates S.Store store.old store.new
        (FindsDrafted collection.now key.now draft.now result) }
    ensures indexes { KeepsIndexes store.old store.new }
    ensures crash { AddsNothing (store_state S.Store store.old) (store_state S.Store store.new) }
{
    let found = store.table.named(collection, key)?;
    match draft.find(found, collection, key) {
        Ok(found) => Ok(found),
        Err(_) => Err(Fault::Memory),
    }
}

/// Puts a document last in a collection, whose row this is.
fn insert_row<S: Alter + Drop>(
    store: &mut Store<S>,
    draft: &mut Draft,
    name: Name<'_>,
    row: &KeptRow<'_>,
) -> Result<(), StoreError>
    ensures moves { (d : Members) → IsRead d → AnswersWritten d (Ok row.now)
        → Relates S.Store store.old store.new (EditsRead (name_bytes name.entry) insert d result
        draft.old draft.new) }
    ensures indexes { KeepsIndexes store.old store.new }
    ensures crash { AddsNothing (store_state S.Store store.old) (store_state S.Store store.new) }
{
    let collection = name.as_str();
    let key = row.key.as_slice();
    let found = match find_row(store, draft, collection, key) {
        Ok(found) => found,
        Err(fault) => return Err(fault_refusal(fault)),
    };
    if let Some(_) = found {
        return Err(StoreError::from(ErrorKind::DuplicateId));
    }
    let body = row.body.as_slice();
    match draft.add(collection, key, body) {
        Ok(()) => Ok(()),
        Err(fault) => Err(fault_refusal(fault)),
    }
}

/// Puts a document, whose row this is, in the place of that of a collection with its `_id`.
fn replace_row<S: Alter + Drop>(
    store: &mut Store<S>,
    draft: &mut Draft,
    name: Name<'_>,
    row: &KeptRow<'_>,
) -> Result<(), StoreError>
    ensures moves { (d : Members) → IsRead d → AnswersWritten d (Ok row.now)
        → Relates S.Store store.old store.new (EditsRead (name_bytes name.entry) replace d result
        draft.old draft.new) }
    ensures indexes { KeepsIndexes store.old store.new }
    ensures crash { AddsNothing (store_state S.Store store.old) (store_state S.Store store.new) }
{
    let collection = name.as_str();
    let key = row.key.as_slice();
    let found = match find_row(store, draft, collection, key) {
        Ok(found) => found,
        Err(fault) => return Err(fault_refusal(fault)),
    };
    let Some(found) = found else {
        return Err(StoreError::from(ErrorKind::NotFound));
    };
    let body = row.body.as_slice();
    match draft.rewrite(collection, key, found, body) {
        Ok(()) => Ok(()),
        Err(_) => Err(fault_refusal(Fault::Memory)),
    }
}

/// Puts a document, whose row this is, in the place of that of a collection with its `_id`, or, if there is none, last.
fn put_row<S: Alter + Drop>(
    store: &mut Store<S>,
    draft: &mut Draft,
    name: Name<'_>,
    row: &KeptRow<'_>,
) -> Result<(), StoreError>
    ensures moves { (d : Members) → IsRead d → AnswersWritten d (Ok row.now)
        → Relates S.Store store.old store.new (EditsPut (name_bytes name.entry) (readable d) result
        draft.old draft.new) }
    ensures indexes { KeepsIndexes store.old store.new }
    ensures crash { AddsNothing (store_state S.Store store.old) (store_state S.Store store.new) }
{
    let collection = name.as_str();
    let key = row.key.as_slice();
    let found = match find_row(store, draft, collection, key) {
        Ok(found) => found,
        Err(fault) => return Err(fault_refusal(fault)),
    };
    let body = row.body.as_slice();
    let Some(found) = found else {
        return match draft.add(collection, key, body) {
            Ok(()) => Ok(()),
            Err(fault) => Err(fault_refusal(fault)),
        };
    };
    match draft.rewrite(collection, key, found, body) {
        Ok(()) => Ok(()),
        Err(_) => Err(fault_refusal(Fault::Memory)),
    }
}

/// Puts a document, whose row this is, last in a collection, if that has none with its `_id`.
fn keep_row<S: Alter + Drop>(
    store: &mut Store<S>,
    draft: &mut Draft,
    name: Name<'_>,
    row: &KeptRow<'_>,
) -> Result<(), StoreError>
    ensures moves { (d : Members) → IsRead d → AnswersWritten d (Ok row.now)
        → Relates S.Store store.old store.new (EditsKept (name_bytes name.entry) (readable d) result
        draft.old draft.new) }
    ensures indexes { KeepsIndexes store.old store.new }
    ensures crash { AddsNothing (store_state S.Store store.old) (store_state S.Store store.new) }
{
    let collection = name.as_str();
    let key = row.key.as_slice();
    let found = match find_row(store, draft, collection, key) {
        Ok(found) => found,
        Err(fault) => return Err(fault_refusal(fault)),
    };
    if let Some(_) = found {
        return Ok(());
    }
    match draft.add(collection, key, row.body.as_slice()) {
        Ok(()) => Ok(()),
        Err(fault) => Err(fault_refusal(fault)),
    }
}

/// Puts the document that bytes mean last in a collection.
pub(crate) fn insert_raw<S: Alter + Drop>(
    store: &mut Store<S>,
    draft: &mut Draft,
    name: &str,
    bytes: &[u8],
) -> Result<(), StoreError>
    ensures moves { Relates S.Store store.old store.new
        (EditsBytes (λ x. EditsBy (on name.now (insert in_bytes x))) bytes.now result draft.old
        draft.new) }
    ensures indexes { KeepsIndexes store.old store.new }
    ensures crash { AddsNothing (store_state S.Store store.old) (store_state S.Store store.new) }
{
    let name = good_name(name)?;
    let row = row_of_bytes(store.alloc, bytes)?;
    insert_row(store, draft, name, &row)
}

/// Puts the document that bytes mean in the place of that with its `_id`.
pub(crate) fn replace_raw<S: Alter + Drop>(
    store: &mut Store<S>,
    draft: &mut Draft,
    name: &str,
    bytes: &[u8],
) -> Result<(), StoreError>
    ensures moves { Relates S.Store store.old store.new
        (EditsBytes (λ x. EditsBy (on name.now (replace in_bytes x))) bytes.now result draft.old
        draft.new) }
    ensures indexes { KeepsIndexes store.old store.new }
    ensures crash { AddsNothing (store_state S.Store store.old) (store_state S.Store store.new) }
{
    let name = good_name(name)?;
    let row = row_of_bytes(store.alloc, bytes)?;
    replace_row(store, draft, name, &row)
}

/// Puts the document that bytes mean in the place of that with its `_id`, or, if there is none, last.
pub(crate) fn put_raw<S: Alter + Drop>(
    store: &mut Store<S>,
    draft: &mut Draft,
    name: &str,
    bytes: &[u8],
) -> Result<(), StoreError>
    ensures moves { Relates S.Store store.old store.new
        (EditsBytes (EditsPut name.now) bytes.now result draft.old draft.new) }
    ensures indexes { KeepsIndexes store.old store.new }
    ensures crash { AddsNothing (store_state S.Store store.old) (store_state S.Store store.new) }
{
    let name = good_name(name)?;
    let row = row_of_bytes(store.alloc, bytes)?;
    put_row(store, draft, name, &row)
}

/// Puts the document that bytes mean last, if there is none with its `_id`.
pub(crate) fn keep_raw<S: Alter + Drop>(
    store: &mut Store<S>,
    draft: &mut Draft,
    name: &str,
    bytes: &[u8],
) -> Result<(), StoreError>
    ensures moves { Relates S.Store store.old store.new
        (EditsBytes (EditsKept name.now) bytes.now result draft.old draft.new) }
    ensures indexes { KeepsIndexes store.old store.new }
    ensures crash { AddsNothing (store_state S.Store store.old) (store_state S.Store store.new) }
{
    let name = good_name(name)?;
    let row = row_of_bytes(store.alloc, bytes)?;
    keep_row(store, draft, name, &row)
}

/// Takes the document whose `_id` means the same as `id` away.
pub(crate) fn remove<S: Alter + Drop>(
    store: &mut Store<S>,
    draft: &mut Draft,
    name: &str,
    id: &Bson,
) -> Result<(), StoreError>
    ensures moves { Relates S.Store store.old store.new
        (EditsBy (on name.now (remove (view id.now))) result draft.old draft.new) }
    ensures indexes { KeepsIndexes store.old store.new }
    ensures crash { AddsNothing (store_state S.Store store.old) (store_state S.Store store.new) }
{
    let name = good_name(name)?;
    let key = match key_of_id(store.alloc, id) {
        Ok(key) => key,
        // No document has an id that can't be written.
        Err(KeyError::NotPlain) => return Err(StoreError::from(ErrorKind::NotFound)),
        Err(KeyError::TooLong) => return Err(StoreError::from(ErrorKind::NotFound)),
        Err(KeyError::Memory) => return Err(StoreError::from(ErrorKind::Memory)),
    };
    let collection = name.as_str();
    let found = match find_row(store, draft, collection, key.as_slice()) {
        Ok(found) => found,
        Err(fault) => return Err(fault_refusal(fault)),
    };
    let Some(found) = found else {
        return Err(StoreError::from(ErrorKind::NotFound));
    };
    match draft.remove(collection, key.as_slice(), found) {
        Ok(()) => Ok(()),
        Err(_) => Err(fault_refusal(Fault::Memory)),
    }
}

/// The row of the document of a collection whose `_id` means the same as `id`, after the changes of the draft.
fn row_of<S: Alter + Drop>(
    store: &mut Store<S>,
    draft: &Draft,
    name: Name<'_>,
    id: &Bson,
) -> Result<Option<Found>, StoreError>
    ensures moves { Relates S.Store store.old store.new
        (LooksDrafted (name_bytes name.entry) (view id.now) draft.now result) }
    ensures indexes { KeepsIndexes store.old store.new }
    ensures crash { AddsNothing (store_state S.Store store.old) (store_state S.Store store.new) }
{
    let key = match key_of_id(store.alloc, id) {
        Ok(key) => key,
        // No document has an id that can't be written.
        Err(KeyError::NotPlain) => return Ok(None),
        Err(KeyError::TooLong) => return Ok(None),
        Err(KeyError::Memory) => return Err(StoreError::from(ErrorKind::Memory)),
    };
    let collection = name.as_str();
    match find_row(store, draft, collection, key.as_slice()) {
        Ok(found) => Ok(found),
        Err(fault) => Err(fault_refusal(fault)),
    }
}

/// The written form of the document of the collection `name` whose `_id` means the same as `id`, after these changes.
///
/// Refused as `Store::get_raw`: by BadName, NotFound, Memory and Database.
pub fn get_drafted<S: Alter + Drop>(
    store: &mut Store<S>,
    edits: &DraftedEdits,
    name: &str,
    id: &Bson,
) -> Result<Vec<u8>, StoreError>
    ensures moves { Relates S.Store store.old store.new
        (GetsDrafted name.now (view id.now) edits.now.draft result) }
    ensures indexes { KeepsIndexes store.old store.new }
    ensures crash { AddsNothing (store_state S.Store store.old) (store_state S.Store store.new) }
{
    let name = good_name(name)?;
    let Some(found) = row_of(store, &edits.draft, name, id)? else {
        return Err(StoreError::from(ErrorKind::NotFound));
    };
    Ok(found.body)
}
