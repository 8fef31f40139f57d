//! Places in a sorted list.

ghost use Rattle.std.specs.Prelude.{◌≡◌, ◌≤◌, length, List, IsTrue};
ghost use Rattle.std.specs.List.Sorted.{IsSortedBy};
ghost use Rattle.store_pipeline.specs.Bodies.{AreBodies, GoesFirst, GoesLast, IsPlaceFor, keys_of, OfBody};
ghost use Rattle.bson_base.specs.Value.{Members};
ghost use Rattle.store_pipeline.specs.Order.{goes_before};

use crate::sorted::compare::is_before;
use crate::sorted::keys::SortKey;

/// The place behind the bodies that this one doesn't go before.
pub(crate) fn place_for(bodies: &[Vec<u8>], body: &[u8], keys: &[SortKey]) -> usize
    ensures within { result ≤ length bodies.now }
    ensures place { (es : List Members) → AreBodies bodies.now es → IsSortedBy (goes_before (keys_of keys.now)) es
        → OfBody body.now (λ d. IsPlaceFor (keys_of keys.now) d es result) }
{
    if goes_last(bodies, body, keys) {
        return bodies.len();
    }
    if goes_first(bodies, body, keys) {
        return 0;
    }
    let mut low = 0;
    let mut high = bodies.len();
    while low < high {
        let middle = low + (high - low) / 2;
        if is_before(body, bodies[middle].as_slice(), keys) {
            high = middle;
        } else {
            low = middle + 1;
        }
    }
    low
}

/// Whether it doesn't go before the last one, which is so of most documents if few are held.
fn goes_last(bodies: &[Vec<u8>], body: &[u8], keys: &[SortKey]) -> bool
    ensures { (es : List Members) → AreBodies bodies.now es → OfBody body.now
        (λ d. IsTrue result → GoesLast (keys_of keys.now) d es) }
{
    if bodies.is_empty() {
        return true;
    }
    let last = bodies[bodies.len() - 1].as_slice();
    !is_before(body, last, keys)
}

/// Whether it goes before the first one, which is so of each document if they come in the opposite of the order.
fn goes_first(bodies: &[Vec<u8>], body: &[u8], keys: &[SortKey]) -> bool
    ensures { (es : List Members) → AreBodies bodies.now es → OfBody body.now
        (λ d. IsTrue result → GoesFirst (keys_of keys.now) d es) }
{
    if bodies.is_empty() {
        return true;
    }
    is_before(body, bodies[0].as_slice(), keys)
}
