//! `$sort`: the documents in the order of keys.

ghost use Rattle.std.specs.Prelude.{IfOk};
ghost use Rattle.store_model.specs.Reading.{Documents};
ghost use Rattle.store_pipeline.specs.Bodies.{AreBodies, AreLent, keys_of};
ghost use Rattle.store_pipeline.specs.Order.{Sorts};
ghost use Rattle.store_pipeline.specs.Faithful.{BodiesOf};

use crate::sorted::{SortKey, sort};
use std::alloc::{AllocError, Global};

/// Copies of bodies.
fn copies_of(alloc: Global, bodies: &[&[u8]]) -> Result<Vec<Vec<u8>>, AllocError>
    ensures { (ds : Documents) → AreLent bodies.now ds → IfOk result (λ copies. AreBodies copies.items ds) }
{
    let mut copies = Vec::with_capacity(alloc, bodies.len())?;
    for body in bodies {
        copies.push(Vec::from_slice(alloc, body)?)?;
    }
    Ok(copies)
}

/// The bodies in the order of keys.
pub(crate) fn put_in_order(
    alloc: Global,
    bodies: &[Vec<u8>],
    keys: &[SortKey],
) -> Result<Vec<Vec<u8>>, AllocError>
    ensures { (ds : Documents) → AreBodies bodies.now ds
        → IfOk result (BodiesOf (Sorts (keys_of keys.now) ds)) }
{
    let sorted = sort(alloc, bodies, keys)?;
    copies_of(alloc, sorted.as_slice())
}
