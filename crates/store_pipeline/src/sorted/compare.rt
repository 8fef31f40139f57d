//! The order of documents.

ghost use Rattle.std.specs.Prelude.{◌≡◌};
ghost use Rattle.bson_raw.specs.View.{bytes_of};
ghost use Rattle.store_question.specs.Filters.{path_of};
ghost use Rattle.store_pipeline.specs.Bodies.{key_of, keys_of, OfBody};
ghost use Rattle.store_pipeline.specs.Order.{goes_before, order_by, sorted_by, turned};
ghost use Rattle.bson_order.specs.Order.{order};

use crate::sorted::keys::SortKey;
use crate::sorted::values::{compare_turned, sort_value};
use bson_raw::RawDocument;
use std::cmp::Ordering;

/// How a document lies to another: by the first key that tells them apart. Takes no memory.
pub fn compare_documents(
    document: RawDocument<'_>,
    other: RawDocument<'_>,
    keys: &[SortKey],
) -> Ordering
    ensures { OfBody (bytes_of document.entry) (λ d. OfBody (bytes_of other.entry)
        (λ e. result ≡ order_by (keys_of keys.now) d e)) }
{
    for key in keys {
        match compare_under(document, other, key) {
            Ordering::Less => return Ordering::Less,
            Ordering::Equal => {}
            Ordering::Greater => return Ordering::Greater,
        }
    }
    Ordering::Equal
}

/// How a document lies to another by one key, turned if the key descends: by the best value of each at the path.
fn compare_under(document: RawDocument<'_>, other: RawDocument<'_>, key: &SortKey) -> Ordering
    ensures { OfBody (bytes_of document.entry) (λ d. OfBody (bytes_of other.entry)
        (λ e. result ≡ turned key.now.descending (order (sorted_by (path_of key.now.path.items) key.now.descending d)
        (sorted_by (path_of key.now.path.items) key.now.descending e)))) }
{
    let value = sort_value(document, key.path.as_slice(), key.descending);
    let second = sort_value(other, key.path.as_slice(), key.descending);
    compare_turned(value, second, key.descending)
}

/// The same of two bodies.
pub(crate) fn compare_bodies(body: &[u8], other: &[u8], keys: &[SortKey]) -> Ordering
    ensures { OfBody body.now (λ d. OfBody other.now (λ e. result ≡ order_by (keys_of keys.now) d e)) }
{
    let Ok(document) = RawDocument::from_bytes(body) else {
        return Ordering::Equal;
    };
    let Ok(second) = RawDocument::from_bytes(other) else {
        return Ordering::Equal;
    };
    compare_documents(document, second, keys)
}

/// Whether a body goes before another one.
pub(crate) fn is_before(body: &[u8], other: &[u8], keys: &[SortKey]) -> bool
    ensures { OfBody body.now (λ d. OfBody other.now (λ e. result ≡ goes_before (keys_of keys.now) d e)) }
{
    compare_bodies(body, other, keys).is_lt()
}
