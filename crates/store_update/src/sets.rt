//! Arrays as sets: items that come in or go out by what they are equal to.

ghost use Rattle.std.specs.Prelude.{◌≡◌, ◌++◌, ◌∷◌, [], map, IfOk, OnOk};
ghost use Rattle.bson_model.specs.View.{view};
ghost use Rattle.store_update.specs.Answer.{lent};
ghost use Rattle.store_update.specs.Arrays.{has, with_each, with_one, without_each};
ghost use Rattle.store_update.specs.Update.{greater, lesser};

use bson_model::Bson;
use bson_order::compare_trees;
use std::alloc::{AllocError, Global};

/// The value, or the one that is there, if it isn't greater.
pub(crate) fn lesser<'a>(value: &'a Bson, old: Option<&'a Bson>) -> &'a Bson
    ensures { view result.now ≡ lesser (view value.now) (lent old.entry) }
{
    let Some(old) = old else {
        return value;
    };
    if compare_trees(value, old).is_lt() {
        value
    } else {
        old
    }
}

/// The value, or the one that is there, if it isn't less.
pub(crate) fn greater<'a>(value: &'a Bson, old: Option<&'a Bson>) -> &'a Bson
    ensures { view result.now ≡ greater (view value.now) (lent old.entry) }
{
    let Some(old) = old else {
        return value;
    };
    if compare_trees(value, old).is_gt() {
        value
    } else {
        old
    }
}

/// Whether one of the items is equal to a value.
fn has(items: &[Bson], value: &Bson) -> bool
    ensures { result ≡ has (map view items.now) (view value.now) }
{
    for item in items {
        if compare_trees(item, value).is_eq() {
            return true;
        }
    }
    false
}

/// Puts a copy of a value behind the items, unless one of them is equal to it.
fn include_one(alloc: Global, value: &Bson, items: &mut Vec<Bson>) -> Result<(), AllocError>
    ensures { OnOk result (map view items.new.items ≡ with_one (view value.now) (map view items.old.items)) }
{
    if has(items.as_slice(), value) {
        return Ok(());
    }
    items.push(value.try_clone(alloc)?)?;
    Ok(())
}

/// The items, with each of the new ones that isn't among them yet. The error is a refused growth.
pub fn with_each(alloc: Global, new: &[Bson], items: Vec<Bson>) -> Result<Vec<Bson>, AllocError>
    ensures { IfOk result (λ all. map view all.items ≡ with_each (map view new.now) (map view items.items)) }
{
    let mut all = items;
    for value in new {
        include_one(alloc, value, &mut all)?;
    }
    Ok(all)
}

/// Puts a copy of an item behind those that stay, unless it is equal to one of the values.
fn keep_one(
    alloc: Global,
    values: &[Bson],
    item: &Bson,
    left: &mut Vec<Bson>,
) -> Result<(), AllocError>
    ensures { OnOk result (map view left.new.items
        ≡ map view left.old.items ++ without_each (map view values.now) (view item.now ∷ [])) }
{
    if has(values, item) {
        return Ok(());
    }
    left.push(item.try_clone(alloc)?)?;
    Ok(())
}

/// Copies of the items that are equal to none of the values.
pub(crate) fn without_each(
    alloc: Global,
    values: &[Bson],
    items: &[Bson],
) -> Result<Vec<Bson>, AllocError>
    ensures { IfOk result (λ left. map view left.items ≡ without_each (map view values.now) (map view items.now)) }
{
    let mut left = Vec::new(alloc);
    for item in items {
        keep_one(alloc, values, item, &mut left)?;
    }
    Ok(left)
}
