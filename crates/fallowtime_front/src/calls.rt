//! Calls on one document, as the store has them.
//!
//! Each tells nothing, and leaves no more behind than there was, of what is refused by its name, its bytes or its key;
//! of an id that a store may have under an older key; of pages in which something can't be read or written; and of a
//! row that is met and that no store can have written. Who calls opens the store then.

ghost use Rattle.std.specs.Prelude.{◌≡◌, IfSome, IsTrue, None};
ghost use Rattle.bson_model.specs.View.{view};
ghost use Rattle.sqlite_wal.specs.State.{StaysOrFails};
ghost use Rattle.sqlite_pool.specs.Stored.{Keeps};
ghost use Rattle.store_model.specs.State.{IsFreeKey, get_raw, in_bytes, insert, on, remove, replace, unset};
ghost use Rattle.bson_store.specs.Calls.{Does, DoesBytes};
ghost use Rattle.bson_store.specs.Refusals.{as_bytes, as_done, as_flag, reply_by};
ghost use Rattle.store_table.specs.Writer.{state_of};
ghost use Rattle.fallowtime_front.specs.Changes.{IsUnfound, LeavesBytes, LeavesCall, Reads, Stays, Turns, outcome};

use crate::rows::{find_row, may_have_older, only_key};
use crate::writes::{add, rewrite, take_away};
use bson_model::Bson;
use sqlite_disk::Disk;
use std::alloc::Global;
use store_documents::{Name, body_without, row_of_bytes};
use store_model::{ErrorKind, StoreError};
use store_table::Fault;
use store_table::pages::Writer;

/// The outcome of a change of one row, as the store tells it.
fn told(changed: Result<(), Fault>) -> Result<(), StoreError>
    ensures { result ≡ outcome changed }
{
    match changed {
        Ok(()) => Ok(()),
        Err(Fault::Memory) => Err(StoreError::from(ErrorKind::Memory)),
        Err(Fault::Database) => Err(StoreError::from(ErrorKind::Database)),
        Err(Fault::Places) => Err(StoreError::from(ErrorKind::Places)),
    }
}

/// The written form of the document of the collection `name` whose `_id` means the same as `id`.
///
/// Refused by NotFound.
#[tactic(auto, using(crate::proofs::WriteLemmas::kept_itself, crate::proofs::WriteLemmas::stays_itself))]
pub fn get_raw<D: Disk + Drop>(
    alloc: Global,
    writer: &mut Writer<D>,
    name: &str,
    id: &Bson,
) -> Option<Result<Vec<u8>, StoreError>>
    ensures reads { IfSome result (λ r. Reads writer.old writer.new
        (Does (on name.now (get_raw (view id.now))) (reply_by as_bytes r))) }
    ensures keeps { Keeps (state_of writer.old) (state_of writer.new) }
{
    let name = Name::new(name)?;
    let key = only_key(alloc, id)?;
    let coll = name.as_str().as_bytes();
    match find_row(alloc, writer, coll, key.as_slice())? {
        Some(found) => Some(Ok(found.body)),
        None => Some(Err(StoreError::from(ErrorKind::NotFound))),
    }
}

/// Puts the document that `bytes` mean last in the collection `name`, as the store does.
///
/// Refused by DuplicateId and Places, and by Memory and Database if it is put in and that can't be made durable.
#[tactic(auto, using(crate::proofs::WriteLemmas::kept_itself, crate::proofs::WriteLemmas::stays_itself))]
pub fn insert_raw<D: Disk + Drop>(
    alloc: Global,
    writer: &mut Writer<D>,
    name: &str,
    bytes: &[u8],
) -> Option<Result<(), StoreError>>
    ensures turns { IfSome result (λ r. Turns writer.old writer.new r
        (DoesBytes name.now (insert in_bytes) bytes.now (reply_by as_done r))) }
    ensures crash { IfSome result (λ r. LeavesBytes writer.old writer.new
        name.now (insert in_bytes) bytes.now (reply_by as_done r)) }
    ensures stays { StaysOrFails (state_of writer.old) (state_of writer.new) }
    ensures untold { result ≡ None → Keeps (state_of writer.old) (state_of writer.new) }
{
    let name = Name::new(name)?;
    let Ok(row) = row_of_bytes(alloc, bytes) else {
        return None;
    };
    let coll = name.as_str().as_bytes();
    let key = row.key.as_slice();
    if may_have_older(key) {
        return None;
    }
    let Ok(found) = writer.place_of(coll, key) else {
        return None;
    };
    if let Some(_) = found {
        return Some(Err(StoreError::from(ErrorKind::DuplicateId)));
    }
    let added = add(writer, coll, key, row.body.as_slice())?;
    Some(told(added))
}

/// Puts the document that `bytes` mean in the place of that of the collection `name` whose `_id` means the same.
///
/// Refused by NotFound, and by Memory and Database if it is put there and that can't be made durable.
#[tactic(auto, using(crate::proofs::WriteLemmas::kept_itself, crate::proofs::WriteLemmas::stays_itself))]
pub fn replace_raw<D: Disk + Drop>(
    alloc: Global,
    writer: &mut Writer<D>,
    name: &str,
    bytes: &[u8],
) -> Option<Result<(), StoreError>>
    ensures turns { IfSome result (λ r. Turns writer.old writer.new r
        (DoesBytes name.now (replace in_bytes) bytes.now (reply_by as_done r))) }
    ensures crash { IfSome result (λ r. LeavesBytes writer.old writer.new
        name.now (replace in_bytes) bytes.now (reply_by as_done r)) }
    // If there is none, the rows stay.
    ensures unfound { IfSome result (λ r. IsUnfound r → Stays writer.old writer.new) }
    ensures stays { StaysOrFails (state_of writer.old) (state_of writer.new) }
    ensures untold { result ≡ None → Keeps (state_of writer.old) (state_of writer.new) }
{
    let name = Name::new(name)?;
    let Ok(row) = row_of_bytes(alloc, bytes) else {
        return None;
    };
    let coll = name.as_str().as_bytes();
    let key = row.key.as_slice();
    if may_have_older(key) {
        return None;
    }
    let Some(found) = find_row(alloc, writer, coll, key)? else {
        return Some(Err(StoreError::from(ErrorKind::NotFound)));
    };
    let changed = rewrite(writer, found.place, coll, key, row.body.as_slice())?;
    Some(told(changed))
}

/// Takes a top key out of the document of the collection `name` whose `_id` means the same as `id`, and says whether it
/// was there. The key is one that can be set.
///
/// Refused by NotFound, and by Memory and Database if it is taken out and that can't be made durable.
#[tactic(auto, using(crate::proofs::WriteLemmas::kept_itself, crate::proofs::WriteLemmas::stays_itself))]
pub fn unset<D: Disk + Drop>(
    alloc: Global,
    writer: &mut Writer<D>,
    name: &str,
    id: &Bson,
    key: &str,
) -> Option<Result<bool, StoreError>>
    ensures turns { IfSome result (λ r. IsFreeKey key.now → Turns writer.old writer.new r
        (Does (on name.now (unset (view id.now) key.now)) (reply_by as_flag r))) }
    ensures crash { IfSome result (λ r. IsFreeKey key.now → LeavesCall writer.old writer.new
        name.now (unset (view id.now) key.now) (reply_by as_flag r)) }
    ensures untold { result ≡ None → Keeps (state_of writer.old) (state_of writer.new) }
{
    let name = Name::new(name)?;
    let held = only_key(alloc, id)?;
    let coll = name.as_str().as_bytes();
    let idkey = held.as_slice();
    let Some(found) = find_row(alloc, writer, coll, idkey)? else {
        return Some(Err(StoreError::from(ErrorKind::NotFound)));
    };
    let Ok(unset) = body_without(alloc, found.body.as_slice(), key) else {
        return None;
    };
    if !unset.was_there {
        return Some(Ok(false));
    }
    let changed = rewrite(writer, found.place, coll, idkey, unset.body.as_slice())?;
    match told(changed) {
        Ok(()) => Some(Ok(true)),
        Err(error) => Some(Err(error)),
    }
}

/// Takes the document of the collection `name` whose `_id` means the same as `id` away.
///
/// Refused by NotFound, and by Memory and Database if it is taken away and that can't be made durable.
#[tactic(auto, using(crate::proofs::WriteLemmas::kept_itself, crate::proofs::WriteLemmas::stays_itself))]
pub fn remove<D: Disk + Drop>(
    alloc: Global,
    writer: &mut Writer<D>,
    name: &str,
    id: &Bson,
) -> Option<Result<(), StoreError>>
    ensures turns { IfSome result (λ r. Turns writer.old writer.new r
        (Does (on name.now (remove (view id.now))) (reply_by as_done r))) }
    ensures crash { IfSome result (λ r. LeavesCall writer.old writer.new
        name.now (remove (view id.now)) (reply_by as_done r)) }
    ensures untold { result ≡ None → Keeps (state_of writer.old) (state_of writer.new) }
{
    let name = Name::new(name)?;
    let held = only_key(alloc, id)?;
    let coll = name.as_str().as_bytes();
    let key = held.as_slice();
    let Some(found) = find_row(alloc, writer, coll, key)? else {
        return Some(Err(StoreError::from(ErrorKind::NotFound)));
    };
    let removed = take_away(writer, found.place, coll, key)?;
    Some(told(removed))
}
