//! Rows of documents, looked up by their keys.

ghost use Rattle.std.specs.Prelude.{◌≡◌, IfSome, None, Ok};
ghost use Rattle.bson_model.specs.View.{view};
ghost use Rattle.sqlite_pool.specs.Stored.{Keeps};
ghost use Rattle.store_documents.specs.Bodies.{IsKeyOf};
ghost use Rattle.store_table.specs.Moves.{FindsRow};
ghost use Rattle.store_table.specs.Writer.{state_of};
ghost use Rattle.fallowtime_front.specs.Changes.{Reads};

use bson_model::Bson;
use sqlite_disk::Disk;
use std::alloc::Global;
use store_documents::{is_store_row, key_of_id};
use store_table::Found;
use store_table::pages::Writer;

/// Where the kind of an `_id` stands in its key.
const KIND_AT: usize = 4;

/// Where the bytes of its value stand, behind the kind and the name.
const VALUE_AT: usize = 9;

/// The kinds that may hold a double: double, document, array, code with a scope.
const MAY_HOLD_DOUBLES: &[u8] = &[0x01, 0x03, 0x04, 0x0f];

/// How many bytes a double has, which are all zero in a key if the double is.
const DOUBLE: u32 = 8;

/// Whether so many bytes as a double has are zero, one behind the other.
fn may_hold_zero(bytes: &[u8]) -> bool {
    let mut zeros = 0u32;
    for byte in bytes {
        zeros = if *byte == 0 {
            zeros.saturating_add(1)
        } else {
            0
        };
        if zeros >= DOUBLE {
            return true;
        }
    }
    false
}

/// Whether a store may have the document under another key than this: one from before the two zeros of a double meant
/// the same. Some keys of values that hold no zero double look as if they did.
pub(crate) fn may_have_older(key: &[u8]) -> bool {
    match key.get(KIND_AT) {
        Some(kind) => MAY_HOLD_DOUBLES.contains(kind)
            && may_hold_zero(&key[VALUE_AT.min(key.len())..]),
        None => true,
    }
}

/// The key of an id. None if it has none, or if a store may have the document under another one.
pub(crate) fn only_key(alloc: Global, id: &Bson) -> Option<Vec<u8>>
    ensures { IfSome result (λ k. IsKeyOf k.items (view id.now)) }
{
    let Ok(key) = key_of_id(alloc, id) else {
        return None;
    };
    if may_have_older(key.as_slice()) {
        return None;
    }
    Some(key)
}

/// Whether a store can have written a row. Not without memory to tell.
fn is_sound(alloc: Global, coll: &[u8], key: &[u8], body: &[u8]) -> bool {
    matches!(is_store_row(alloc, coll, key, body), Ok(true))
}

/// The first row of a collection and a key, if there is one. None if the pages don't tell, and of a row that no store
/// can have written.
pub(crate) fn find_row<D: Disk + Drop>(
    alloc: Global,
    writer: &mut Writer<D>,
    coll: &[u8],
    key: &[u8],
) -> Option<Option<Found>>
    ensures reads { IfSome result (λ f. Reads writer.old writer.new (FindsRow coll.now key.now (Ok f))) }
    ensures keeps { Keeps (state_of writer.old) (state_of writer.new) }
{
    let place = match writer.place_of(coll, key) {
        Ok(Some(place)) => place,
        Ok(None) => return Some(None),
        Err(_) => return None,
    };
    let body = match writer.body_of(coll, key) {
        Ok(Some(body)) => body,
        _ => return None,
    };
    if !is_sound(alloc, coll, key, body.as_slice()) {
        return None;
    }
    Some(Some(Found { place, body }))
}
