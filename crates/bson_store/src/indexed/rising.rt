//! Places once each, ascending.

ghost use Rattle.std.specs.List.{AllByRecursion};
ghost use Rattle.std.specs.Prelude.{◌≡◌, ◌<ℤ◌, ◌++◌, ◌∷◌, [], ℕ, ℤ, List, IfOk, IfSome, IsTrue, OnOk};
ghost use Rattle.bson_store.specs.Lists.{Ascends, is_among};

use std::alloc::{AllocError, Global};

/// The places once each, if they ascend.
pub(crate) fn once_each(alloc: Global, places: &[i64]) -> Result<Option<Vec<i64>>, AllocError>
    ensures ascending { IfOk result (λ o. IfSome o (λ v. Ascends v.items)) }
    ensures all { (p : ℤ) → IsTrue (is_among p places.now)
        → IfOk result (λ o. IfSome o (λ v. IsTrue (is_among p v.items))) }
{
    let mut out = Vec::with_capacity(alloc, places.len())?;
    for place in places {
        if !put_behind(&mut out, place)? {
            return Ok(None);
        }
    }
    Ok(Some(out))
}

/// Whether a place is below another.
fn is_below(a: &i64, b: &i64) -> bool
    ensures { IsTrue result → a.now <ℤ b.now }
{
    let first = *a;
    let second = *b;
    first < second
}

/// Whether all of some ascending places are below a place.
fn is_behind(places: &[i64], place: &i64) -> bool
    ensures { IsTrue result → Ascends places.now → AllByRecursion (λ q. q <ℤ place.now) places.now }
{
    match places.last() {
        None => true,
        Some(last) => is_below(last, place),
    }
}

/// Whether a place is found among some ascending ones.
fn has(places: &[i64], place: &i64) -> bool
    ensures { IsTrue result → IsTrue (is_among place.now places.now) }
{
    match places.binary_search(place) {
        Ok(_) => true,
        Err(_) => false,
    }
}

/// Puts a place last.
fn push_place(out: &mut Vec<i64>, place: &i64) -> Result<(), AllocError>
    ensures { OnOk result (out.new.items ≡ out.old.items ++ place.now ∷ []) }
{
    let value = *place;
    out.push(value)?;
    Ok(())
}

/// Puts a place after those that are below it, if it isn't the last of them. False: it is neither.
fn put_behind(out: &mut Vec<i64>, place: &i64) -> Result<bool, AllocError>
    ensures ascending { Ascends out.old.items → OnOk result (Ascends out.new.items) }
    ensures there { IfOk result (λ put. IsTrue put → IsTrue (is_among place.now out.new.items)) }
    ensures kept { (p : ℤ) → IsTrue (is_among p out.old.items)
        → OnOk result (IsTrue (is_among p out.new.items)) }
{
    if !is_behind(out.as_slice(), place) {
        return Ok(has(out.as_slice(), place));
    }
    push_place(out, place)?;
    Ok(true)
}
