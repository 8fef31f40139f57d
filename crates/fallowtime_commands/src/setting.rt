//! A value under a key of a stored document, which keeps the order of its own keys.

ghost use Rattle.std.specs.Prelude.{◌≡◌, ◌↔◌, IsTrue, MatchResult, OnOk, string_bytes};
ghost use Rattle.bson_base.specs.Value.{Members, put};
ghost use Rattle.bson_bytes.specs.Encode.{encode};
ghost use Rattle.bson_model.specs.Keyed.{put as put_pair};
ghost use Rattle.bson_model.specs.View.{content, pairs_of, view};
ghost use Rattle.store_model.specs.State.{IsFreeKey, IsKept};
ghost use Rattle.store_model.specs.declared.error.ErrorKind.TheVariants.{Memory};
ghost use Rattle.store_table.specs.Moves.{WasOpen};
ghost use Rattle.bson_store.specs.Calls.{store_state, Relates};
ghost use Rattle.bson_store.specs.Refusals.{as_done, reply_by};
ghost use Rattle.fallowtime_commands.specs.Left.{LeavesSet};
ghost use Rattle.fallowtime_commands.specs.Setting.{Sets};

use crate::storing::replace;
use bson_bytes::put::has_no_zero;
use bson_store::{Bson, Document, ErrorKind, Store, StoreError};
use sqlite::Alter;
use std::alloc::{AllocError, Global};
use store_documents::{ID_KEY, document_of_body};

/// Whether a key can be set: it isn't `_id` and holds no 00.
pub fn can_be_set(key: &str) -> bool
    ensures { IsTrue result ↔ IsFreeKey key.now }
{
    key != ID_KEY && has_no_zero(key.as_bytes())
}

/// Puts a value under a key: in the key's place if it is there, else last.
fn put_owned(document: &mut Document, key: String, value: Bson) -> Result<(), AllocError>
    ensures { OnOk result (pairs_of document.new ≡ put_pair (string_bytes key) (view value)
        (pairs_of document.old)) }
{
    document.put(key, value)
}

/// Puts a value under a key: in the key's place if it is there, else last.
pub(crate) fn put_value(
    alloc: Global,
    document: &mut Document,
    key: &str,
    value: Bson,
) -> Result<(), AllocError>
    ensures { OnOk result (content document.new ≡ put key.now (view value) (content document.old)) }
{
    let key = String::from_str(alloc, key)?;
    put_owned(document, key, value)
}

/// The document of a body, with a value under a key.
pub fn with_value(alloc: Global, body: &[u8], key: &str, value: Bson) -> Result<Document, ErrorKind>
    ensures { (d : Members) → IsKept d → body.now ≡ encode d
        → MatchResult result (λ e. content e ≡ put key.now (view value) d) (λ k. k ≡ Memory) }
{
    let mut document = document_of_body(alloc, body)?;
    match put_value(alloc, &mut document, key, value) {
        Ok(()) => Ok(document),
        Err(_) => Err(ErrorKind::Memory),
    }
}

/// Puts a value under a top key of the document of the collection `name` whose `_id` means the same as `id`: in the
/// key's place, or last if the key isn't there. What the value holds keeps the order of its keys.
///
/// Refused, in this order, by BadName; BadKey, if the key is `_id` or holds a 00; NotFound; TooDeep, Nul and TooLong of
/// the changed document; and by Memory and Database, but never instead of BadName or BadKey.
pub(crate) fn set<S: Alter + Drop>(
    alloc: Global,
    store: &mut Store<S>,
    name: &str,
    id: &Bson,
    key: &str,
    value: Bson,
) -> Result<(), StoreError>
    ensures moves { Relates S.Store store.old store.new
        (Sets name.now (view id.now) key.now (view value) (reply_by as_done result)) }
    ensures open { WasOpen (store_state S.Store store.old) (store_state S.Store store.new) result }
    ensures crash { LeavesSet name.now (view id.now) key.now (view value) (reply_by as_done result)
        (store_state S.Store store.old) (store_state S.Store store.new) }
{
    if !can_be_set(key) {
        return store.set_value(name, id, key, value);
    }
    let body = store.get_raw(name, id)?;
    let document = with_value(alloc, body.as_slice(), key, value)?;
    replace(alloc, store, name, &document)
}
