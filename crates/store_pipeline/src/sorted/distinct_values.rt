//! The values at a path of a document.

ghost use Rattle.std.specs.Prelude.{◌≡◌, ◌∷◌, [], IfOk, OnOk, Some, map};
ghost use Rattle.bson_base.specs.Value.{Value, look_up};
ghost use Rattle.bson_model.specs.View.{view};
ghost use Rattle.bson_raw.specs.View.{bytes_of, parts_of};
ghost use Rattle.store_pipeline.specs.Counted.{Adds};
ghost use Rattle.store_pipeline.specs.Distinct.{at_end as given_at_end, each_of, into_document as document_leads, itself, led_to as leads, through as goes_through, under as under_key, values_at};
ghost use Rattle.store_question.specs.Filters.{path_of};
ghost use Rattle.store_model.specs.Filter.{pairs};
ghost use Rattle.store_question.specs.Reads.{Found, HoldsItems, OfElement, OfMembers};
ghost use Rattle.store_pipeline.specs.Bodies.{OfBody};

use bson_model::Bson;
use bson_raw::{RawBsonRef, RawDocument, RawElement};
use std::alloc::{AllocError, Global};
use store_question::{items_in, look_in, value_of};

/// The trees of the values that a path leads to, in order. A path goes into each document of an array, and into the item
/// whose place is the key. An array at its end gives its items; where nothing is, there is no value. The error is a
/// refused growth.
pub(crate) fn values_of(
    alloc: Global,
    document: RawDocument<'_>,
    path: &[String],
) -> Result<Vec<Bson>, AllocError>
    ensures { OfBody (bytes_of document.entry)
        (λ d. IfOk result (λ values. map view values.items ≡ values_at (path_of path.now) d)) }
{
    let mut values = Vec::new(alloc);
    led_to(alloc, RawBsonRef::Document(document), path, &mut values)?;
    Ok(values)
}

/// Adds what a path leads to from a value.
#[cycle(leading)]
fn led_to(
    alloc: Global,
    value: RawBsonRef<'_>,
    path: &[String],
    values: &mut Vec<Bson>,
) -> Result<(), AllocError>
    ensures { (v : Value) → Found value.entry v
        → OnOk result (Adds values.old.items values.new.items (leads (path_of path.now) v)) }
{
    let Some((key, rest)) = path.split_first() else {
        return add_opened(alloc, value, values);
    };
    if value.as_document().is_some() {
        return under(alloc, value, key.as_str(), rest, values);
    }
    match items_of(value) {
        Some(items) => into_items(alloc, items, key.as_str(), rest, values),
        None => Ok(()),
    }
}

/// Adds what a path leads to from what is under a key of a document.
#[cycle(leading)]
fn under(
    alloc: Global,
    value: RawBsonRef<'_>,
    key: &str,
    rest: &[String],
    values: &mut Vec<Bson>,
) -> Result<(), AllocError>
    ensures { (v : Value) → Found value.entry v
        → OnOk result (Adds values.old.items values.new.items (under_key (leads (path_of rest.now)) (look_up key.now (pairs v)))) }
{
    match look_in(value, key) {
        Some(found) => led_to(alloc, found, rest, values),
        None => Ok(()),
    }
}

/// The same through the items of an array.
#[cycle(leading)]
fn into_items(
    alloc: Global,
    items: RawDocument<'_>,
    key: &str,
    rest: &[String],
    values: &mut Vec<Bson>,
) -> Result<(), AllocError>
    ensures { OfMembers (bytes_of items.entry) (λ ms. OnOk result (Adds values.old.items values.new.items
        (each_of (goes_through key.now (leads (path_of rest.now))) ms))) }
{
    for item in items.iter_elements() {
        let Ok(element) = item else {
            return Ok(());
        };
        through(alloc, &element, key, rest, values)?;
    }
    Ok(())
}

/// Into a document, and into the item whose place is the key.
#[cycle(leading)]
fn through(
    alloc: Global,
    element: &RawElement<'_>,
    key: &str,
    rest: &[String],
    values: &mut Vec<Bson>,
) -> Result<(), AllocError>
    ensures { OfElement (parts_of element.now) (λ k v. OnOk result (Adds values.old.items values.new.items
        (goes_through key.now (leads (path_of rest.now)) k v))) }
{
    let Some(found) = value_of(element) else {
        return Ok(());
    };
    into_document(alloc, found, key, rest, values)?;
    if element.key() == key {
        return led_to(alloc, found, rest, values);
    }
    Ok(())
}

/// Into a value that is a document.
#[cycle(leading)]
fn into_document(
    alloc: Global,
    value: RawBsonRef<'_>,
    key: &str,
    rest: &[String],
    values: &mut Vec<Bson>,
) -> Result<(), AllocError>
    ensures { (v : Value) → Found value.entry v → OnOk result (Adds values.old.items values.new.items
        (document_leads key.now (leads (path_of rest.now)) v)) }
{
    if value.as_document().is_some() {
        under(alloc, value, key, rest, values)
    } else {
        Ok(())
    }
}

/// The items of an array.
fn items_of(value: RawBsonRef<'_>) -> Option<RawDocument<'_>>
    ensures { (v : Value) → Found value.entry v → HoldsItems result (Some v) }
{
    items_in(Some(value))
}

/// Adds the value at the end of a path, or the items of an array there.
fn add_opened(
    alloc: Global,
    value: RawBsonRef<'_>,
    values: &mut Vec<Bson>,
) -> Result<(), AllocError>
    ensures { (v : Value) → Found value.entry v
        → OnOk result (Adds values.old.items values.new.items (given_at_end v)) }
{
    match items_of(value) {
        Some(items) => add_items(alloc, items, values),
        None => add(alloc, value, values),
    }
}

/// Adds the items of an array as they stand: an array among them is added whole. Those after a fault in the bytes are
/// left out. Errors as of `add`.
fn add_items(
    alloc: Global,
    items: RawDocument<'_>,
    values: &mut Vec<Bson>,
) -> Result<(), AllocError>
    ensures { OfMembers (bytes_of items.entry) (λ ms. OnOk result (Adds values.old.items values.new.items (each_of itself ms))) }
{
    for item in items.iter_elements() {
        let Ok(element) = item else {
            return Ok(());
        };
        add_item(alloc, &element, values)?;
    }
    Ok(())
}

/// Adds the value of one item, unless its payload has a fault. Errors as of `add`.
fn add_item(
    alloc: Global,
    element: &RawElement<'_>,
    values: &mut Vec<Bson>,
) -> Result<(), AllocError>
    ensures { OfElement (parts_of element.now) (λ k v. OnOk result (Adds values.old.items values.new.items (itself k v))) }
{
    match value_of(element) {
        Some(found) => add(alloc, found, values),
        None => Ok(()),
    }
}

/// Adds the tree of a value. The error is a refused growth, or a fault in the bytes.
fn add(alloc: Global, value: RawBsonRef<'_>, values: &mut Vec<Bson>) -> Result<(), AllocError>
    ensures { (v : Value) → Found value.entry v
        → OnOk result (Adds values.old.items values.new.items (v ∷ [])) }
{
    let Ok(tree) = value.to_bson(alloc) else {
        return Err(AllocError);
    };
    values.push(tree)?;
    Ok(())
}
