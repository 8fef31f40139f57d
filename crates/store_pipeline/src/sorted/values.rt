//! What a document is sorted by.

ghost use Rattle.std.specs.Prelude.{◌≡◌, ◌↔◌, IsTrue, if◌then◌else◌, true, false, Option as Maybe};
ghost use Rattle.bson_base.specs.Value.{Value, Members, no_members, look_up};
ghost use Rattle.bson_order.specs.Order.{order};
ghost use Rattle.bson_raw.specs.View.{bytes_of, parts_of};
ghost use Rattle.store_question.specs.Filters.{path_of};
ghost use Rattle.store_model.specs.Filter.{pairs};
ghost use Rattle.store_question.specs.Reads.{Found, OfElement, OfMembers, Shows};
ghost use Rattle.store_pipeline.specs.Bodies.{OfBody};
ghost use Rattle.store_pipeline.specs.Order.{best, each_of, into_item as item_leads, itself, led_to as leads, opened, or_undefined, place_or_all, sorted_by, turned, under as under_key};

use bson_order::compare;
use bson_raw::{RawBsonRef, RawDocument, RawElement};
use std::cmp::Ordering;
use store_question::{items_in, look_in, value_of};

/// The value that a document is sorted by: the least of those that the path leads to, or the greatest if the greatest
/// comes first. A path goes into each document of an array, or into the item whose place is the key. An array at its
/// end stands for its items, an empty one for undefined, and what is absent for null. Takes no memory.
pub fn sort_value<'a>(
    document: RawDocument<'a>,
    path: &[String],
    descending: bool,
) -> RawBsonRef<'a>
    ensures { OfBody (bytes_of document.entry) (λ d. Found result (sorted_by (path_of path.now) descending d)) }
{
    match led_to(RawBsonRef::Document(document), path, true, descending, None) {
        Some(value) => value,
        None => RawBsonRef::Null,
    }
}

/// How a value lies to another, the other way round if the greatest comes first.
pub(crate) fn compare_turned(
    value: RawBsonRef<'_>,
    other: RawBsonRef<'_>,
    descending: bool,
) -> Ordering
    ensures { (v w : Value) → Found value.entry v → Found other.entry w → result ≡ turned descending (order v w) }
{
    let order = compare(value, other);
    if descending { order.reverse() } else { order }
}

/// A value, if it goes before what was met.
fn better<'a>(
    met: Option<RawBsonRef<'a>>,
    value: RawBsonRef<'a>,
    descending: bool,
) -> Option<RawBsonRef<'a>>
    ensures { (o : Maybe Value) → Shows met.entry o → (v : Value) → Found value.entry v
        → Shows result (best descending o (itself v)) }
{
    match met {
        None => Some(value),
        Some(other) => {
            if compare_turned(value, other, descending).is_lt() {
                Some(value)
            } else {
                met
            }
        }
    }
}

/// The best of what was met and of what a path leads to from a value.
#[cycle(leading)]
fn led_to<'a>(
    value: RawBsonRef<'a>,
    path: &[String],
    opens: bool,
    descending: bool,
    met: Option<RawBsonRef<'a>>,
) -> Option<RawBsonRef<'a>>
    ensures { (v : Value) → Found value.entry v → (o : Maybe Value) → Shows met.entry o
        → Shows result (best descending o (leads opens (path_of path.now) v)) }
{
    let Some((key, rest)) = path.split_first() else {
        return at_end(value, opens, descending, met);
    };
    if value.as_document().is_some() {
        return under(value, key.as_str(), rest, descending, met);
    }
    match items_in(Some(value)) {
        Some(items) => into_array(value, items, key.as_str(), rest, descending, met),
        None => better(met, RawBsonRef::Null, descending),
    }
}

/// What is under a key of a document.
#[cycle(leading)]
fn under<'a>(
    value: RawBsonRef<'a>,
    key: &str,
    rest: &[String],
    descending: bool,
    met: Option<RawBsonRef<'a>>,
) -> Option<RawBsonRef<'a>>
    ensures { (v : Value) → Found value.entry v → (o : Maybe Value) → Shows met.entry o
        → Shows result (best descending o (under_key (leads true (path_of rest.now)) (look_up key.now (pairs v)))) }
{
    match look_in(value, key) {
        Some(found) => led_to(found, rest, true, descending, met),
        None => better(met, RawBsonRef::Null, descending),
    }
}

/// The item of an array whose place is the key, or else all of its items.
#[cycle(leading)]
fn into_array<'a>(
    value: RawBsonRef<'a>,
    items: RawDocument<'a>,
    key: &str,
    rest: &[String],
    descending: bool,
    met: Option<RawBsonRef<'a>>,
) -> Option<RawBsonRef<'a>>
    ensures { (v : Value) → Found value.entry v → (o : Maybe Value) → Shows met.entry o
        → OfMembers (bytes_of items.entry) (λ ms. Shows result (best descending o
        (place_or_all (leads false (path_of rest.now)) (each_of (item_leads key.now (leads true (path_of rest.now))) ms) (look_up key.now (pairs v))))) }
{
    match look_in(value, key) {
        Some(found) => led_to(found, rest, false, descending, met),
        None => into_items(items, key, rest, descending, met),
    }
}

/// Each item of an array that is a document is looked into under the key; any other item counts as null. The items
/// after a fault in the bytes count for nothing.
#[cycle(leading)]
fn into_items<'a>(
    items: RawDocument<'a>,
    key: &str,
    rest: &[String],
    descending: bool,
    met: Option<RawBsonRef<'a>>,
) -> Option<RawBsonRef<'a>>
    ensures { (o : Maybe Value) → Shows met.entry o → OfMembers (bytes_of items.entry)
        (λ ms. Shows result (best descending o (each_of (item_leads key.now (leads true (path_of rest.now))) ms))) }
{
    let mut so_far = met;
    for item in items.iter_elements() {
        let Ok(element) = item else {
            return so_far;
        };
        so_far = into_item(&element, key, rest, descending, so_far);
    }
    so_far
}

/// The same of one item. One whose payload has a fault counts for nothing.
#[cycle(leading)]
fn into_item<'a>(
    element: &RawElement<'a>,
    key: &str,
    rest: &[String],
    descending: bool,
    met: Option<RawBsonRef<'a>>,
) -> Option<RawBsonRef<'a>>
    ensures { (o : Maybe Value) → Shows met.entry o → OfElement (parts_of element.now)
        (λ k v. Shows result (best descending o (item_leads key.now (leads true (path_of rest.now)) v))) }
{
    let Some(found) = value_of(element) else {
        return met;
    };
    if found.as_document().is_some() {
        under(found, key, rest, descending, met)
    } else {
        better(met, RawBsonRef::Null, descending)
    }
}

/// The value at the end of a path, or the items of an array there.
fn at_end<'a>(
    value: RawBsonRef<'a>,
    opens: bool,
    descending: bool,
    met: Option<RawBsonRef<'a>>,
) -> Option<RawBsonRef<'a>>
    ensures { (v : Value) → Found value.entry v → (o : Maybe Value) → Shows met.entry o
        → Shows result (best descending o (if opens then opened v else itself v)) }
{
    if !opens {
        return better(met, value, descending);
    }
    match items_in(Some(value)) {
        Some(items) => best_item(items, descending, met),
        None => better(met, value, descending),
    }
}

/// The best of what was met and of the items of an array, as they stand. An empty array counts as undefined.
fn best_item<'a>(
    items: RawDocument<'a>,
    descending: bool,
    met: Option<RawBsonRef<'a>>,
) -> Option<RawBsonRef<'a>>
    ensures { (o : Maybe Value) → Shows met.entry o → OfMembers (bytes_of items.entry)
        (λ ms. Shows result (best descending o (or_undefined (each_of itself ms)))) }
{
    if has_no_items(items) {
        return better(met, RawBsonRef::Undefined, descending);
    }
    let mut so_far = met;
    for item in items.iter_elements() {
        let Ok(element) = item else {
            return so_far;
        };
        so_far = with_item(&element, descending, so_far);
    }
    so_far
}

/// Whether there is nothing between the length and the final 00.
fn has_no_items(items: RawDocument<'_>) -> bool
    ensures { OfMembers (bytes_of items.entry) (λ ms. IsTrue result ↔ (ms ≡ no_members)) }
{
    items.as_bytes().len() == 5
}

/// The better of what was met and an item as it stands. One whose payload has a fault counts for nothing.
fn with_item<'a>(
    element: &RawElement<'a>,
    descending: bool,
    met: Option<RawBsonRef<'a>>,
) -> Option<RawBsonRef<'a>>
    ensures { (o : Maybe Value) → Shows met.entry o → OfElement (parts_of element.now)
        (λ k v. Shows result (best descending o (itself v))) }
{
    match value_of(element) {
        Some(found) => better(met, found, descending),
        None => met,
    }
}
