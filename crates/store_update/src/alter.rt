//! One step of an update: what becomes of the value at a path.

ghost use Rattle.std.specs.Prelude.{◌≡◌, ◌+ℤ◌, ◌*ℤ◌, ◌∷◌, ◌&&◌, [], Ok, IfOk, OnOk, is_none, map, not, option_map};
ghost use Rattle.std.specs.Float.{binary64};
ghost use Rattle.std.specs.Float.Ieee.{add, mul};
ghost use Rattle.bson_base.specs.Value.{look_up, put, without};
ghost use Rattle.bson_model.specs.View.{view, content, items_of};
ghost use Rattle.store_update.specs.Answer.{lent, viewed, viewed_document, viewed_option};
ghost use Rattle.store_update.specs.Number.{computed};
ghost use Rattle.store_update.specs.Plan.{change_of, path_of};
ghost use Rattle.store_update.specs.Update.{Tells, altered, filled, has_members, inside, made, or_zero, settled, settled_inside, thinned, with_included, with_pushed, without_end, without_excluded};

use crate::arrays::{copied, cut, popped, put_at};
use crate::error::UpdateError;
use crate::numbers::{product, sum};
use crate::operation::{End, Operation, Push};
use crate::sets::{greater, lesser, with_each, without_each};
use bson_model::{Bson, Document};
use std::alloc::{AllocError, Global};

/// The sum of a number and that which is there, or 0.
fn sum_with(old: Option<&Bson>, number: &Bson) -> Result<Bson, UpdateError>
    ensures { viewed result ≡ computed (λ x y. x +ℤ y) (add binary64) (or_zero (lent old.entry)) (view number.now) }
{
    match old {
        Some(old) => sum(old, number),
        None => sum(&Bson::Int32(0), number),
    }
}

/// The product of a number and that which is there, or 0.
fn product_with(old: Option<&Bson>, number: &Bson) -> Result<Bson, UpdateError>
    ensures { viewed result ≡ computed (λ x y. x *ℤ y) (mul binary64) (or_zero (lent old.entry)) (view number.now) }
{
    match old {
        Some(old) => product(old, number),
        None => product(&Bson::Int32(0), number),
    }
}

/// The items that an array has after a push.
fn with_pushed(alloc: Global, push: &Push, items: &[Bson]) -> Result<Vec<Bson>, AllocError>
    ensures { IfOk result (λ new. items_of (map view new.items)
        ≡ with_pushed (map view push.now.items.items) push.now.place push.now.slice (items_of (map view items.now))) }
{
    let all = put_at(alloc, push.place, push.items.as_slice(), items)?;
    let left = cut(alloc, push.slice, all)?;
    Ok(left)
}

/// The array that is there, or an empty one, after a push.
fn pushed(alloc: Global, old: Option<&Bson>, push: &Push) -> Result<Bson, UpdateError>
    ensures { Tells (filled (with_pushed (map view push.now.items.items) push.now.place push.now.slice) (lent old.entry)) (viewed result) }
{
    let Some(old) = old else {
        return Ok(Bson::Array(with_pushed(alloc, push, &[])?));
    };
    let Some(items) = old.as_array() else {
        return Err(UpdateError::NotAnArray);
    };
    Ok(Bson::Array(with_pushed(alloc, push, items.as_slice())?))
}

/// The items that an array has after others came into it.
fn with_included(alloc: Global, new: &[Bson], items: &[Bson]) -> Result<Vec<Bson>, AllocError>
    ensures { IfOk result (λ all. items_of (map view all.items)
        ≡ with_included (map view new.now) (items_of (map view items.now))) }
{
    let old = copied(alloc, items)?;
    let all = with_each(alloc, new, old)?;
    Ok(all)
}

/// The array that is there, or an empty one, after items came into it.
fn included(alloc: Global, old: Option<&Bson>, new: &[Bson]) -> Result<Bson, UpdateError>
    ensures { Tells (filled (with_included (map view new.now)) (lent old.entry)) (viewed result) }
{
    let Some(old) = old else {
        return Ok(Bson::Array(with_included(alloc, new, &[])?));
    };
    let Some(items) = old.as_array() else {
        return Err(UpdateError::NotAnArray);
    };
    Ok(Bson::Array(with_included(alloc, new, items.as_slice())?))
}

/// The items that an array has after those that are equal to one of the values went out.
fn without_excluded(alloc: Global, values: &[Bson], items: &[Bson]) -> Result<Vec<Bson>, AllocError>
    ensures { IfOk result (λ left. items_of (map view left.items)
        ≡ without_excluded (map view values.now) (items_of (map view items.now))) }
{
    let left = without_each(alloc, values, items)?;
    Ok(left)
}

/// The array that is there after items went out, if one is there.
fn excluded_if_any(
    alloc: Global,
    old: Option<&Bson>,
    values: &[Bson],
) -> Result<Option<Bson>, UpdateError>
    ensures { Tells (thinned (without_excluded (map view values.now)) (lent old.entry)) (viewed_option result) }
{
    let Some(old) = old else {
        return Ok(None);
    };
    let Some(items) = old.as_array() else {
        return Err(UpdateError::NotAnArray);
    };
    Ok(Some(Bson::Array(without_excluded(alloc, values, items.as_slice())?)))
}

/// The items that an array has after a pop.
fn without_end(alloc: Global, end: End, items: &[Bson]) -> Result<Vec<Bson>, AllocError>
    ensures { IfOk result (λ new. items_of (map view new.items)
        ≡ without_end end (items_of (map view items.now))) }
{
    let left = popped(alloc, end, items)?;
    Ok(left)
}

/// The array that is there after a pop, if one is there.
fn popped_if_any(alloc: Global, old: Option<&Bson>, end: End) -> Result<Option<Bson>, UpdateError>
    ensures { Tells (thinned (without_end end) (lent old.entry)) (viewed_option result) }
{
    let Some(old) = old else {
        return Ok(None);
    };
    let Some(items) = old.as_array() else {
        return Err(UpdateError::NotAnArray);
    };
    Ok(Some(Bson::Array(without_end(alloc, end, items.as_slice())?)))
}

/// What becomes of a value, or of none.
fn made(
    alloc: Global,
    operation: &Operation,
    old: Option<&Bson>,
) -> Result<Option<Bson>, UpdateError>
    ensures { Tells (made (change_of operation.now) (lent old.entry)) (viewed_option result) }
{
    match operation {
        Operation::Set(value) => Ok(Some(value.try_clone(alloc)?)),
        Operation::SetOnInsert(value) => Ok(Some(value.try_clone(alloc)?)),
        Operation::Unset => Ok(None),
        Operation::Add(number) => Ok(Some(sum_with(old, number)?)),
        Operation::Multiply(number) => Ok(Some(product_with(old, number)?)),
        Operation::Least(value) => Ok(Some(lesser(value, old).try_clone(alloc)?)),
        Operation::Greatest(value) => Ok(Some(greater(value, old).try_clone(alloc)?)),
        Operation::Push(push) => Ok(Some(pushed(alloc, old, push)?)),
        Operation::Include(new) => Ok(Some(included(alloc, old, new.as_slice())?)),
        Operation::Exclude(values) => excluded_if_any(alloc, old, values.as_slice()),
        Operation::Pop(end) => popped_if_any(alloc, old, *end),
    }
}

/// Puts a value under a key: in the key's place, or last. The error is a refused growth.
pub fn put_value(
    alloc: Global,
    document: &mut Document,
    key: &str,
    value: Bson,
) -> Result<(), AllocError>
    ensures { OnOk result (content document.new ≡ put key.now (view value) (content document.old)) }
{
    let key = String::from_str(alloc, key)?;
    document.put(key, value)
}

/// Takes the value under a key out.
fn take_value(document: &mut Document, key: &str)
    ensures { content document.new ≡ without key.now (content document.old) }
{
    bson_model::laws::distinct_keys_of_document(document);
    drop(document.remove(key));
}

/// A value is under a key, or none.
fn settled_with(
    alloc: Global,
    document: Document,
    key: &str,
    value: Option<Bson>,
) -> Result<Document, UpdateError>
    ensures { Tells (Ok (settled key.now (option_map view value) (content document)))
        (viewed_document result) }
{
    let mut document = document;
    match value {
        Some(value) => {
            put_value(alloc, &mut document, key, value)?;
            Ok(document)
        }
        None => {
            take_value(&mut document, key);
            Ok(document)
        }
    }
}

/// The value under a key has become what the operation makes of it.
fn settle(
    alloc: Global,
    document: Document,
    key: &str,
    operation: &Operation,
) -> Result<Document, UpdateError>
    ensures { Tells (altered (made (change_of operation.now)) (key.now ∷ []) (content document))
        (viewed_document result) }
{
    let value = made(alloc, operation, document.get(key))?;
    settled_with(alloc, document, key, value)
}

/// What is in a member, as a document of its own.
fn inside(alloc: Global, value: Option<&Bson>) -> Result<Document, UpdateError>
    ensures { Tells (inside (lent value.entry)) (viewed_document result) }
{
    let Some(value) = value else {
        return Ok(Document::new(alloc));
    };
    match value.as_document() {
        Some(document) => Ok(document.try_clone()?),
        None => Err(UpdateError::Through),
    }
}

/// Whether both are true.
fn are_both(one: bool, other: bool) -> bool
    ensures { result ≡ (one && other) }
{
    one && other
}

/// Whether a document is empty, and its key not there.
fn is_nothing(document: &Document, key: &str, inner: &Document) -> bool
    ensures { result ≡ (is_none (look_up key.now (content document.now)) && not (has_members (content inner.now))) }
{
    are_both(!document.contains_key(key), inner.is_empty())
}

/// A document is put under a key, unless it is empty and none was there.
fn settle_inside(
    alloc: Global,
    document: Document,
    key: &str,
    inner: Document,
) -> Result<Document, UpdateError>
    ensures { Tells (Ok (settled_inside key.now (look_up key.now (content document)) (content inner) (content document))) (viewed_document result) }
{
    let mut document = document;
    if is_nothing(&document, key, &inner) {
        return Ok(document);
    }
    put_value(alloc, &mut document, key, Bson::Document(inner))?;
    Ok(document)
}

/// The document in which the value at the path has become what the operation makes of it.
pub fn altered(
    alloc: Global,
    document: Document,
    path: &[String],
    operation: &Operation,
) -> Result<Document, UpdateError>
    ensures { Tells (altered (made (change_of operation.now)) (path_of path.now) (content document)) (viewed_document result) }
{
    let Some((key, rest)) = path.split_first() else {
        return Err(UpdateError::Id);
    };
    if rest.is_empty() {
        return settle(alloc, document, key.as_str(), operation);
    }
    let inner = inside(alloc, document.get(key.as_str()))?;
    let inner = altered(alloc, inner, rest, operation)?;
    settle_inside(alloc, document, key.as_str(), inner)
}
