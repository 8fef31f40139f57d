//! Arrays that get items and lose them.

ghost use Rattle.std.specs.Prelude.{◌≡◌, ◌++◌, ◌≤◌, length, map, IfOk, OnOk};
ghost use Rattle.bson_model.specs.View.{view};
ghost use Rattle.store_update.specs.Arrays.{cut, part, place_in, popped, put_at};

use crate::operation::{End, Place};
use bson_model::Bson;
use std::alloc::{AllocError, Global};

/// How many items are before a place.
fn place_in(place: Place, count: usize) -> usize
    ensures value { result ≡ place_in place count }
    ensures within { result ≤ count }
{
    match place {
        Place::FromFirst(before) => { if before < count { before } else { count } }
        Place::FromLast(after) => count.saturating_sub(after),
    }
}

/// Puts copies of items behind others.
fn copy_behind(alloc: Global, items: &[Bson], all: &mut Vec<Bson>) -> Result<(), AllocError>
    ensures { OnOk result (map view all.new.items ≡ map view all.old.items ++ map view items.now) }
{
    for item in items {
        all.push(item.try_clone(alloc)?)?;
    }
    Ok(())
}

/// Copies of items.
pub(crate) fn copied(alloc: Global, items: &[Bson]) -> Result<Vec<Bson>, AllocError>
    ensures { IfOk result (λ new. map view new.items ≡ map view items.now) }
{
    let mut all = Vec::new(alloc);
    copy_behind(alloc, items, &mut all)?;
    Ok(all)
}

/// The items, with new ones at a place.
pub(crate) fn put_at(
    alloc: Global,
    place: Place,
    new: &[Bson],
    old: &[Bson],
) -> Result<Vec<Bson>, AllocError>
    ensures { IfOk result (λ all. map view all.items
        ≡ put_at place (map view new.now) (map view old.now)) }
{
    let (front, back) = old.split_at(place_in(place, old.len()));
    let mut all = copied(alloc, front)?;
    copy_behind(alloc, new, &mut all)?;
    copy_behind(alloc, back, &mut all)?;
    Ok(all)
}

/// All items, or the first or the last ones alone.
pub(crate) fn cut(
    alloc: Global,
    slice: Option<Place>,
    items: Vec<Bson>,
) -> Result<Vec<Bson>, AllocError>
    ensures { IfOk result (λ left. map view left.items ≡ cut slice (map view items.items)) }
{
    match slice {
        None => Ok(items),
        Some(place) => part(alloc, place, items),
    }
}

/// The first or the last items.
fn part(alloc: Global, place: Place, items: Vec<Bson>) -> Result<Vec<Bson>, AllocError>
    ensures { IfOk result (λ left. map view left.items ≡ part place (map view items.items)) }
{
    let mut items = items;
    match place {
        Place::FromFirst(count) => {
            items.truncate(count);
            Ok(items)
        }
        Place::FromLast(_) => {
            let (_, last) = items.as_slice().split_at(place_in(place, items.len()));
            copied(alloc, last)
        }
    }
}

/// The items without the one at an end.
pub(crate) fn popped(alloc: Global, end: End, items: &[Bson]) -> Result<Vec<Bson>, AllocError>
    ensures { IfOk result (λ left. map view left.items ≡ popped end (map view items.now)) }
{
    match end {
        End::First => match items.split_first() {
            Some((_, rest)) => copied(alloc, rest),
            None => Ok(Vec::new(alloc)),
        },
        End::Last => {
            let (rest, _) = items.split_at(items.len().saturating_sub(1));
            copied(alloc, rest)
        }
    }
}
