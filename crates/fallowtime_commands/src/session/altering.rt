//! What a list does for a set and for an update: a document is got in a draft, and what becomes of it is put there.

ghost use Rattle.std.specs.Prelude.{◌≡◌, ◌⊎◌, IfOk, MatchResult};
ghost use Rattle.bson_base.specs.Value.{Members, put};
ghost use Rattle.bson_bytes.specs.Encode.{encode};
ghost use Rattle.bson_model.specs.View.{view};
ghost use Rattle.store_model.specs.Refusal.{refusal};
ghost use Rattle.store_model.specs.State.{IsKept, IsName};
ghost use Rattle.store_model.specs.declared.error.ErrorKind.TheVariants.{BadKey, BadName, Memory};
ghost use Rattle.store_table.specs.Crash.{AddsNothing};
ghost use Rattle.bson_store.specs.Calls.{store_state, KeepsIndexes, Relates};
ghost use Rattle.fallowtime_commands.specs.Changing.{IsReplacement};
ghost use Rattle.fallowtime_commands.specs.Performing.{IsAnswerTo};
ghost use Rattle.fallowtime_commands.specs.Storing.{IsFit};
ghost use Rattle.fallowtime_requests.specs.declared.request.Request.TheVariants as requests;
ghost use Rattle.fallowtime_commands.specs.Drafting.{DraftsRequest, IsUnmade, IsUnsetting};
ghost use Rattle.fallowtime_commands.specs.Listing.{PerformsDrafted};

use crate::session::changing::{discard, put_all};
use crate::session::drafting::{put_edit, replacement};
use crate::session::error::{Reason, reason_of};
use crate::{Answer, alteration, altered, can_be_set, with_value};
use bson_store::{Bson, DraftedEdits, Edit, ErrorKind, Store, StoreError, get_drafted};
use sqlite::Alter;
use std::alloc::Global;
use store_documents::{Name, body_without};
use store_update::Step;

/// Why nothing is set under a key that can't be set.
fn unsettable(name: &str) -> StoreError
    ensures { ((IsName name.now → ⊥) × (result ≡ refusal BadName))
        ⊎ (IsName name.now × (result ≡ refusal BadKey)) }
{
    if Name::new(name).is_none() {
        return StoreError::from(ErrorKind::BadName);
    }
    StoreError::from(ErrorKind::BadKey)
}

/// The change that puts a value under a key of the document of a body.
fn setting(
    alloc: Global,
    name: &str,
    body: &[u8],
    key: &str,
    value: &Bson,
) -> Result<Edit, StoreError>
    ensures { (d : Members) → IsKept d → body.now ≡ encode d → MatchResult result
        (λ x. IsFit (put key.now (view value.now) d)
        × IsReplacement name.now (put key.now (view value.now) d) x)
        (IsUnmade name.now (put key.now (view value.now) d)) }
{
    let value = value.try_clone(alloc)?;
    let document = with_value(alloc, body, key, value)?;
    replacement(alloc, name, &document)
}

/// Puts a value under a key of the document of the collection `name` with an `_id`.
pub(crate) fn set<S: Alter + Drop>(
    alloc: Global,
    store: &mut Store<S>,
    edits: &mut DraftedEdits,
    name: &str,
    id: &Bson,
    key: &str,
    value: &Bson,
) -> Result<Answer, StoreError>
    ensures moves { Relates S.Store store.old store.new (DraftsRequest name.now
        (requests.Set id.now key.entry value.now) result edits.old.draft edits.new.draft) }
    ensures indexes { KeepsIndexes store.old store.new }
    ensures crash { AddsNothing (store_state S.Store store.old) (store_state S.Store store.new) }
    ensures shape { IfOk result (IsAnswerTo (requests.Set id.now key.entry value.now)) }
{
    if !can_be_set(key) {
        return Err(unsettable(name));
    }
    let body = get_drafted(store, edits, name, id)?;
    let edit = setting(alloc, name, body.as_slice(), key, value)?;
    put_edit(store, edits, edit)?;
    Ok(Answer::Nothing)
}

/// The change that takes a key out of the document of a body; none if it hasn't the key.
fn unsetting(alloc: Global, name: &str, body: &[u8], key: &str) -> Result<Option<Edit>, StoreError>
    ensures { (d : Members) → IsKept d → body.now ≡ encode d → MatchResult result
        (IsUnsetting name.now key.now d) (λ e. e ≡ refusal Memory) }
{
    let unset = body_without(alloc, body, key)?;
    if !unset.was_there {
        return Ok(None);
    }
    let name = String::from_str(alloc, name)?;
    Ok(Some(Edit::ReplaceRaw {
        name,
        bytes: unset.body,
    }))
}

/// Takes a key out of the document of the collection `name` with an `_id`.
pub(crate) fn unset<S: Alter + Drop>(
    alloc: Global,
    store: &mut Store<S>,
    edits: &mut DraftedEdits,
    name: &str,
    id: &Bson,
    key: &str,
) -> Result<Answer, StoreError>
    ensures moves { Relates S.Store store.old store.new (DraftsRequest name.now
        (requests.Unset id.now key.entry) result edits.old.draft edits.new.draft) }
    ensures indexes { KeepsIndexes store.old store.new }
    ensures crash { AddsNothing (store_state S.Store store.old) (store_state S.Store store.new) }
    ensures shape { IfOk result (IsAnswerTo (requests.Unset id.now key.entry)) }
{
    if !can_be_set(key) {
        return Err(unsettable(name));
    }
    let body = get_drafted(store, edits, name, id)?;
    let found = unsetting(alloc, name, body.as_slice(), key)?;
    let Some(edit) = found else {
        return Ok(Answer::Flag(false));
    };
    put_edit(store, edits, edit)?;
    Ok(Answer::Flag(true))
}

/// Makes an update of the document of the collection `name` with an `_id`; if `told`, the answer is whether it is another
/// one then.
pub(crate) fn alter<S: Alter + Drop>(
    alloc: Global,
    store: &mut Store<S>,
    edits: &mut DraftedEdits,
    name: &str,
    id: &Bson,
    steps: &Vec<Step>,
    told: bool,
) -> Result<Answer, Reason>
    ensures moves { Relates S.Store store.old store.new (PerformsDrafted name.now
        (requests.Alter id.now steps.now told) result edits.old.draft edits.new.draft) }
    ensures indexes { KeepsIndexes store.old store.new }
    ensures crash { AddsNothing (store_state S.Store store.old) (store_state S.Store store.new) }
    ensures shape { IfOk result (IsAnswerTo (requests.Alter id.now steps.now told)) }
{
    let body = match get_drafted(store, edits, name, id) {
        Ok(body) => body,
        Err(error) => return Err(Reason::Refused(error)),
    };
    match alteration(alloc, name, body.as_slice(), steps.as_slice()) {
        Ok(changes) => {
            let answer = altered(told, changes.as_slice());
            let outcome = put_all(store, edits, changes.as_slice(), answer);
            discard(changes);
            outcome
        }
        Err(unmade) => Err(reason_of(unmade)),
    }
}
