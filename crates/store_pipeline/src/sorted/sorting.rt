//! Bodies in the order of keys.

ghost use Rattle.std.specs.Prelude.{◌≡◌, IfOk, List, length, map};
ghost use Rattle.store_pipeline.specs.Bodies.{AreBodies, AreLent, document_at, IsBody, keys_of};
ghost use Rattle.bson_base.specs.Value.{Members};
ghost use Rattle.store_pipeline.specs.Order.{order_by, Sorts};

use crate::sorted::compare::compare_bodies;
use crate::sorted::keys::SortKey;
use std::alloc::{AllocError, Global};
use std::cmp::Ordering;

/// The bodies in the order of the keys, lent. Those that no key tells apart stay in their order. The error is a refused
/// growth.
pub fn sort<'a>(
    alloc: Global,
    bodies: &'a [Vec<u8>],
    keys: &[SortKey],
) -> Result<Vec<&'a [u8]>, AllocError>
    ensures { (ds : List Members) → AreBodies bodies.now ds
        → IfOk result (λ out. (es : List Members) × Sorts (keys_of keys.now) ds es × AreLent out.items es) }
{
    let places = sorted_places(alloc, bodies, keys)?;
    let mut sorted = Vec::with_capacity(alloc, bodies.len())?;
    for place in &places {
        sorted.push(body_at(bodies, *place))?;
    }
    Ok(sorted)
}

/// The places of the bodies in the order of the keys.
fn sorted_places(
    alloc: Global,
    bodies: &[Vec<u8>],
    keys: &[SortKey],
) -> Result<Vec<usize>, AllocError>
    ensures { (ds : List Members) → AreBodies bodies.now ds
        → IfOk result (λ places. Sorts (keys_of keys.now) ds (map (document_at ds) places.items)) }
{
    let mut places = all_places(alloc, bodies.len())?;
    places.sort_by(
        |first, second|
            ensures { (ds : List Members) → AreBodies bodies.entry.now ds
                → result ≡ order_by (keys_of keys.entry.now) (document_at ds first.now) (document_at ds second.now) }
        { compare_at(bodies, *first, *second, keys) },
    )?;
    Ok(places)
}

/// The places 0, 1 and so on of so many bodies, in the order before sorting. The error is a refused growth.
fn all_places(alloc: Global, count: usize) -> Result<Vec<usize>, AllocError>
    ensures { (ds : List Members) → length ds ≡ count → IfOk result (λ places. map (document_at ds) places.items ≡ ds) }
{
    let mut places = Vec::with_capacity(alloc, count)?;
    for place in 0..count {
        places.push(place)?;
    }
    Ok(places)
}

/// How the body at one place lies to that at another by the keys. Where no body is, an empty document is compared.
fn compare_at(bodies: &[Vec<u8>], first: usize, second: usize, keys: &[SortKey]) -> Ordering
    ensures { (ds : List Members) → AreBodies bodies.now ds
        → result ≡ order_by (keys_of keys.now) (document_at ds first) (document_at ds second) }
{
    compare_bodies(body_at(bodies, first), body_at(bodies, second), keys)
}

/// A body, or that of a document without elements where there is none.
fn body_at(bodies: &[Vec<u8>], place: usize) -> &[u8]
    ensures { (ds : List Members) → AreBodies bodies.now ds → IsBody result.now (document_at ds place) }
{
    if place < bodies.len() {
        bodies[place].as_slice()
    } else {
        &[5, 0, 0, 0, 0]
    }
}
