//! Documents that are imported where some of their `_id`s may be there.

ghost use Rattle.std.specs.Prelude.{◌≡◌, ◌↔◌, ◌++◌, ◌∷◌, [], IfOk, IsTrue, MatchResult};
ghost use Rattle.std.specs.Cow.{cow_slice_items};
ghost use Rattle.bson_base.specs.Value.{Members};
ghost use Rattle.bson_bytes.specs.Encode.{encode};
ghost use Rattle.store_documents.specs.Judging.{AreWrittenRows};
ghost use Rattle.store_model.specs.Reading.{Documents};
ghost use Rattle.store_model.specs.Refusal.{refusal};
ghost use Rattle.store_model.specs.State.{IsName};
ghost use Rattle.store_model.specs.declared.error.ErrorKind.TheVariants.{Memory};
ghost use Rattle.store_table.specs.Moves.{WasOpen};
ghost use Rattle.bson_store.specs.Calls.{Relates, store_state};
ghost use Rattle.bson_store.specs.declared.edit.Edit.{Edit as Change};
ghost use Rattle.fallowtime_commands.specs.Importing.{AreEntries, EntriesOf, Imports, ImportsOver, IsEntry};
ghost use Rattle.fallowtime_commands.specs.Left.{LeavesImport, LeavesOver};
ghost use Rattle.fallowtime_commands.specs.Performing.{IsNumber, reply_of};

use crate::answer::{Answer, number};
use crate::changing::discard;
use crate::transferring::make;
use bson_store::{Edit, ErrorKind, Store, StoreError};
use fallowtime_requests::Existing;
use sqlite::Alter;
use std::alloc::{AllocError, Global};
use store_documents::{KeptRow, Name, judge_stream};

/// The change that puts a document into the collection `name`: in the place of the one with its `_id`, or, if that stays,
/// only if there is none.
fn entry(alloc: Global, name: &str, row: &KeptRow<'_>, stays: bool) -> Result<Edit, AllocError>
    ensures { (d : Members) → cow_slice_items row.now.body ≡ encode d → IfOk result (λ x. IsEntry stays name.now x d) }
{
    let name = String::from_str(alloc, name)?;
    let bytes = Vec::from_slice(alloc, row.body.as_slice())?;
    if stays {
        Ok(Edit::KeepRaw { name, bytes })
    } else {
        Ok(Edit::PutRaw { name, bytes })
    }
}

/// Puts one more such change behind the others.
fn push_entry(
    alloc: Global,
    name: &str,
    row: &KeptRow<'_>,
    stays: bool,
    edits: &mut Vec<Edit>,
) -> Result<(), StoreError>
    ensures { MatchResult result (λ _. (x : Change) × (edits.new.items ≡ edits.old.items ++ x ∷ [])
        × ((d : Members) → cow_slice_items row.now.body ≡ encode d → IsEntry stays name.now x d)) (λ e. e ≡ refusal Memory) }
{
    let edit = entry(alloc, name, row, stays)?;
    edits.push(edit)?;
    Ok(())
}

/// The changes that put the documents of these rows into the collection `name`.
fn entries(
    alloc: Global,
    name: &str,
    rows: &[KeptRow<'_>],
    stays: bool,
) -> Result<Vec<Edit>, StoreError>
    ensures { (ds : Documents) → AreWrittenRows rows.now ds → MatchResult result
        (λ edits. AreEntries stays name.now edits.items ds) (λ e. e ≡ refusal Memory) }
{
    let mut edits = Vec::new(alloc);
    for row in rows {
        push_entry(alloc, name, row, stays, &mut edits)?;
    }
    Ok(edits)
}

/// The changes that put the documents of a stream into the collection `name`. Refused as `judge_stream` is.
fn entries_of(
    alloc: Global,
    name: &str,
    stream: &[u8],
    stays: bool,
) -> Result<Vec<Edit>, StoreError>
    ensures { EntriesOf stays name.now stream.now result }
{
    let rows = judge_stream(alloc, stream)?;
    entries(alloc, name, rows.as_slice(), stays)
}

/// Whether a text is the name of a collection.
fn is_name(name: &str) -> bool
    ensures { IsTrue result ↔ (IsName name.now) }
{
    Name::new(name).is_some()
}

/// What `import_over` does under a name.
fn import_named<S: Alter + Drop>(
    alloc: Global,
    store: &mut Store<S>,
    name: &str,
    stream: &[u8],
    stays: bool,
) -> Result<Answer, StoreError>
    requires { IsName name.now }
    ensures moves { Relates S.Store store.old store.new (ImportsOver stays name.now stream.now result) }
    ensures open { WasOpen (store_state S.Store store.old) (store_state S.Store store.new) result }
    ensures crash { LeavesOver stays name.now stream.now (reply_of result)
        (store_state S.Store store.old) (store_state S.Store store.new) }
    ensures shape { IfOk result IsNumber }
{
    match entries_of(alloc, name, stream, stays) {
        Ok(edits) => {
            let done = make(store, edits.as_slice(), edits.len() as u64);
            discard(edits);
            done
        }
        Err(error) => Err(error),
    }
}

/// Puts the documents of a stream into the collection `name`, in their order, in one step: each in the place of the one with
/// its `_id`, if there is one, or, if that stays, only if there is none. The answer is how many documents the stream has.
///
/// Refused as `import_bytes`, but never by DuplicateId.
fn import_over<S: Alter + Drop>(
    alloc: Global,
    store: &mut Store<S>,
    name: &str,
    stream: &[u8],
    stays: bool,
) -> Result<Answer, StoreError>
    ensures moves { Relates S.Store store.old store.new (ImportsOver stays name.now stream.now result) }
    ensures open { WasOpen (store_state S.Store store.old) (store_state S.Store store.new) result }
    ensures crash { LeavesOver stays name.now stream.now (reply_of result)
        (store_state S.Store store.old) (store_state S.Store store.new) }
    ensures shape { IfOk result IsNumber }
{
    if is_name(name) {
        import_named(alloc, store, name, stream, stays)
    } else {
        Err(StoreError::from(ErrorKind::BadName))
    }
}

/// Puts the documents of a stream into the collection `name`, all or none, in one step, and does with those whose `_id` is
/// there, in the collection or in an earlier document of the stream, as `existing` says. The answer is how many documents
/// the stream has.
///
/// Refused as `import_bytes`, and by DuplicateId only if `existing` says so.
pub(crate) fn import<S: Alter + Drop>(
    alloc: Global,
    store: &mut Store<S>,
    name: &str,
    stream: &[u8],
    existing: Existing,
) -> Result<Answer, StoreError>
    ensures moves { Relates S.Store store.old store.new (Imports existing name.now stream.now result (reply_of result)) }
    ensures open { WasOpen (store_state S.Store store.old) (store_state S.Store store.new) result }
    ensures crash { LeavesImport existing name.now stream.now (reply_of result)
        (store_state S.Store store.old) (store_state S.Store store.new) }
    ensures shape { IfOk result IsNumber }
{
    match existing {
        Existing::Refuse => number(store.import_bytes(name, stream)),
        Existing::Replace => import_over(alloc, store, name, stream, false),
        Existing::Skip => import_over(alloc, store, name, stream, true),
    }
}
