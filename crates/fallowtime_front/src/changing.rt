//! A request that changes one document, done over a writer.

ghost use Rattle.std.specs.Prelude.{◌≡◌, IfOk, IfSome, None};
ghost use Rattle.bson_model.specs.View.{content, view};
ghost use Rattle.sqlite_wal.specs.State.{StaysOrFails};
ghost use Rattle.sqlite_pool.specs.Stored.{Keeps};
ghost use Rattle.store_model.specs.State.{in_bytes, insert as inserts, on, replace as replaces, unset as model_unset};
ghost use Rattle.bson_store.specs.Calls.{Does};
ghost use Rattle.bson_store.specs.Refusals.{as_done, as_flag, reply_by};
ghost use Rattle.store_table.specs.Writer.{state_of};
ghost use Rattle.fallowtime_front.specs.Changes.{LeavesCall, Turns};
ghost use Rattle.fallowtime_commands.specs.Performing.{IsAnswerTo, Performs, reply_of};
ghost use Rattle.fallowtime_commands.specs.Setting.{Sets};
ghost use Rattle.fallowtime_commands.specs.Storing.{Puts, Stores};
ghost use Rattle.fallowtime_front.specs.Left.{LeavesPut, LeavesRequest, LeavesSet, LeavesStored};
ghost use Rattle.fallowtime_front.specs.Single.{is_of_one};

use crate::calls::{get_raw, insert_raw, remove, replace_raw, unset};
use bson_model::{Bson, Document};
use fallowtime_commands::answer::{flag, inserted, nothing};
use fallowtime_commands::{Answer, can_be_set, kept_bytes, with_value};
use fallowtime_requests::Request;
use sqlite_disk::Disk;
use std::alloc::Global;
use store_model::{ErrorKind, StoreError};
use store_table::pages::Writer;

/// Whether a request changes one document that it names by its `_id`.
pub fn is_of_one(request: &Request<'_>) -> bool
    ensures { result ≡ is_of_one request.now }
{
    matches!(
        request,
        Request::Insert(_, _)
            | Request::Put(_)
            | Request::Replace(_)
            | Request::Set(_, _, _)
            | Request::Unset(_, _)
            | Request::Remove(_)
    )
}

/// Puts a document last in the collection `name`.
#[tactic(auto, using(crate::proofs::WayLemmas::untouched, crate::proofs::WayLemmas::stays_so))]
fn insert<D: Disk + Drop>(
    alloc: Global,
    writer: &mut Writer<D>,
    name: &str,
    document: &Document,
) -> Option<Result<(), StoreError>>
    ensures turns { IfSome result (λ r. Turns writer.old writer.new r
        (Stores name.now (inserts in_bytes) (content document.now) (reply_by as_done r))) }
    ensures crash { IfSome result (λ r. LeavesStored writer.old writer.new
        name.now (inserts in_bytes) (content document.now) (reply_by as_done r)) }
    ensures untold { result ≡ None → Keeps (state_of writer.old) (state_of writer.new) }
{
    let Ok(bytes) = kept_bytes(alloc, document) else {
        return None;
    };
    insert_raw(alloc, writer, name, bytes.as_slice())
}

/// Replaces the document of the collection `name` with the `_id` of this one.
#[tactic(auto, using(crate::proofs::WayLemmas::untouched, crate::proofs::WayLemmas::stays_so))]
fn replace<D: Disk + Drop>(
    alloc: Global,
    writer: &mut Writer<D>,
    name: &str,
    document: &Document,
) -> Option<Result<(), StoreError>>
    ensures turns { IfSome result (λ r. Turns writer.old writer.new r
        (Stores name.now (replaces in_bytes) (content document.now) (reply_by as_done r))) }
    ensures crash { IfSome result (λ r. LeavesStored writer.old writer.new
        name.now (replaces in_bytes) (content document.now) (reply_by as_done r)) }
    ensures stays { StaysOrFails (state_of writer.old) (state_of writer.new) }
    ensures untold { result ≡ None → Keeps (state_of writer.old) (state_of writer.new) }
{
    let Ok(bytes) = kept_bytes(alloc, document) else {
        return None;
    };
    replace_raw(alloc, writer, name, bytes.as_slice())
}

/// Replaces the document of the collection `name` with the `_id` of this one, or, if there is none, puts this one last.
#[tactic(auto, using(crate::proofs::WayLemmas::untouched, crate::proofs::WayLemmas::stays_so))]
fn put<D: Disk + Drop>(
    alloc: Global,
    writer: &mut Writer<D>,
    name: &str,
    document: &Document,
) -> Option<Result<(), StoreError>>
    ensures turns { IfSome result (λ r. Turns writer.old writer.new r
        (Puts name.now (content document.now) (reply_by as_done r))) }
    ensures crash { IfSome result (λ r. LeavesPut writer.old writer.new
        name.now (content document.now) (reply_by as_done r)) }
    ensures untold { result ≡ None → Keeps (state_of writer.old) (state_of writer.new) }
{
    let Ok(kept) = kept_bytes(alloc, document) else {
        return None;
    };
    let bytes = kept.as_slice();
    let replaced = replace_raw(alloc, writer, name, bytes)?;
    match replaced {
        Ok(()) => Some(Ok(())),
        Err(error) => match error.kind {
            ErrorKind::NotFound => insert_raw(alloc, writer, name, bytes),
            _ => Some(Err(error)),
        },
    }
}

/// Puts a value under a top key of the document of the collection `name` whose `_id` means the same as `id`: in the
/// key's place, or last if the key isn't there. What the value holds keeps the order of its keys.
#[tactic(auto, using(crate::proofs::WayLemmas::untouched, crate::proofs::WayLemmas::stays_so))]
fn set<D: Disk + Drop>(
    alloc: Global,
    writer: &mut Writer<D>,
    name: &str,
    id: &Bson,
    key: &str,
    value: &Bson,
) -> Option<Result<(), StoreError>>
    ensures turns { IfSome result (λ r. Turns writer.old writer.new r
        (Sets name.now (view id.now) key.now (view value.now) (reply_by as_done r))) }
    ensures crash { IfSome result (λ r. LeavesSet writer.old writer.new
        name.now (view id.now) key.now (view value.now) (reply_by as_done r)) }
    ensures untold { result ≡ None → Keeps (state_of writer.old) (state_of writer.new) }
{
    if !can_be_set(key) {
        return None;
    }
    let got = get_raw(alloc, writer, name, id)?;
    let body = match got {
        Ok(body) => body,
        Err(error) => return Some(Err(error)),
    };
    let Ok(value) = value.try_clone(alloc) else {
        return None;
    };
    let Ok(document) = with_value(alloc, body.as_slice(), key, value) else {
        return None;
    };
    replace(alloc, writer, name, &document)
}

/// Takes a top key out of the document of the collection `name` whose `_id` means the same as `id`, and says whether it
/// was there. None if it is no key that can be set.
#[tactic(auto, using(crate::proofs::WayLemmas::untouched, crate::proofs::WayLemmas::stays_so))]
fn unset_free<D: Disk + Drop>(
    alloc: Global,
    writer: &mut Writer<D>,
    name: &str,
    id: &Bson,
    key: &str,
) -> Option<Result<bool, StoreError>>
    ensures turns { IfSome result (λ r. Turns writer.old writer.new r
        (Does (on name.now (model_unset (view id.now) key.now)) (reply_by as_flag r))) }
    ensures crash { IfSome result (λ r. LeavesCall writer.old writer.new
        name.now (model_unset (view id.now) key.now) (reply_by as_flag r)) }
    ensures untold { result ≡ None → Keeps (state_of writer.old) (state_of writer.new) }
{
    if !can_be_set(key) {
        return None;
    }
    unset(alloc, writer, name, id, key)
}

/// Does what is requested of the collection `name`, if it is a change of one document that is named by its `_id`. None
/// of another request, and of one that the pages don't tell: then nothing of it is durable, and the request is as it
/// was.
///
/// Refused by DuplicateId, NotFound and Places, as `perform` is; and by Memory and Database if it is done and can't be
/// made durable.
#[tactic(auto, using(crate::proofs::WayLemmas::untouched, crate::proofs::WayLemmas::stays_so))]
pub fn change<D: Disk + Drop>(
    alloc: Global,
    writer: &mut Writer<D>,
    name: &str,
    request: &mut Request<'_>,
) -> Option<Result<Answer, StoreError>>
    ensures turns { IfSome result (λ o. Turns writer.old writer.new o
        (Performs name.now request.old o)) }
    ensures crash { IfSome result (λ o. LeavesRequest writer.old writer.new
        name.now request.old (reply_of o)) }
    ensures shape { IfSome result (λ o. IfOk o (IsAnswerTo request.old)) }
    ensures untold { result ≡ None → Keeps (state_of writer.old) (state_of writer.new) }
    ensures kept { result ≡ None → request.new ≡ request.old }
{
    match request {
        Request::Insert(id, given) => Some(inserted(id, insert(alloc, writer, name, given)?)),
        Request::Put(given) => Some(nothing(put(alloc, writer, name, given)?)),
        Request::Replace(given) => Some(nothing(replace(alloc, writer, name, given)?)),
        Request::Set(id, key, value) => Some(nothing(set(alloc, writer, name, id, key, value)?)),
        Request::Unset(id, key) => Some(flag(unset_free(alloc, writer, name, id, key)?)),
        Request::Remove(id) => Some(nothing(remove(alloc, writer, name, id)?)),
        _ => None,
    }
}
