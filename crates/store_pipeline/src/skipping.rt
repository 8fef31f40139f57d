//! `$skip` and `$limit`: a part of the documents.

ghost use Rattle.std.specs.Prelude.{◌≡◌, drop, take};

use crate::sorted::into_window;

/// The bodies behind the first ones, of this number.
pub(crate) fn skip(bodies: Vec<Vec<u8>>, number: usize) -> Vec<Vec<u8>>
    ensures { result.items ≡ drop number bodies.items }
{
    into_window(bodies, number, None)
}

/// The first bodies, at most of this number.
pub(crate) fn limit(bodies: Vec<Vec<u8>>, number: usize) -> Vec<Vec<u8>>
    ensures { result.items ≡ take number bodies.items }
{
    let mut bodies = bodies;
    bodies.truncate(number);
    bodies
}
