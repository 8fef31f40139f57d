//! The places under one key.

ghost use Rattle.std.specs.Prelude.{◌≢◌, ℤ, Some, IfOk, IsTrue};
ghost use Rattle.bson_store.specs.Lists.{is_among};
ghost use Rattle.bson_store.specs.Under.{places_of};

use crate::indexed::ascending::Ascending;
use std::alloc::{AllocError, Global};

/// Places, ascending. One alone has no list of its own.
#[derive(Drop)]
pub enum PlaceList {
    One(i64),
    Many(Ascending),
}

/// The places with another one.
pub(crate) fn more(alloc: Global, list: PlaceList, place: i64) -> Result<PlaceList, AllocError>
    ensures there { IfOk result (λ l. IsTrue (is_among place (places_of (Some l)))) }
    ensures kept { (p : ℤ) → IsTrue (is_among p (places_of (Some list)))
        → IfOk result (λ l. IsTrue (is_among p (places_of (Some l)))) }
    ensures only { (p : ℤ) → p ≢ place
        → IfOk result (λ l. IsTrue (is_among p (places_of (Some l)))
        → IsTrue (is_among p (places_of (Some list)))) }
{
    match list {
        PlaceList::One(first) => {
            if first == place {
                return Ok(PlaceList::One(first));
            }
            Ok(PlaceList::Many(Ascending::two(alloc, first, place)?))
        }
        PlaceList::Many(mut places) => {
            places.put(place)?;
            Ok(PlaceList::Many(places))
        }
    }
}

/// The places without one of them. None: there is no other.
fn fewer(list: PlaceList, place: i64) -> Option<PlaceList>
    ensures gone { IsTrue (is_among place (places_of result)) → ⊥ }
    ensures kept { (p : ℤ) → p ≢ place → IsTrue (is_among p (places_of (Some list)))
        → IsTrue (is_among p (places_of result)) }
    ensures only { (p : ℤ) → IsTrue (is_among p (places_of result))
        → IsTrue (is_among p (places_of (Some list))) }
{
    match list {
        PlaceList::One(first) => {
            if first == place {
                return None;
            }
            Some(PlaceList::One(first))
        }
        PlaceList::Many(mut places) => {
            places.take(place);
            if places.is_empty() {
                return None;
            }
            Some(PlaceList::Many(places))
        }
    }
}

/// The places without one of them, if there are any.
pub(crate) fn without_place(list: Option<PlaceList>, place: i64) -> Option<PlaceList>
    ensures gone { IsTrue (is_among place (places_of result)) → ⊥ }
    ensures kept { (p : ℤ) → p ≢ place → IsTrue (is_among p (places_of list))
        → IsTrue (is_among p (places_of result)) }
    ensures only { (p : ℤ) → IsTrue (is_among p (places_of result))
        → IsTrue (is_among p (places_of list)) }
{
    match list {
        None => None,
        Some(list) => fewer(list, place),
    }
}
