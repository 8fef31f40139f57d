//! `$project`: what is left of documents.

ghost use Rattle.std.specs.Prelude.{IfOk, map};
ghost use Rattle.store_pipeline.specs.Views.{left_of};
ghost use Rattle.store_model.specs.Reading.{Documents};
ghost use Rattle.store_pipeline.specs.Bodies.{AreBodies, IsBody, OfBody};

use crate::sorted::{Fields, project};
use bson_raw::RawDocument;
use std::alloc::{AllocError, Global};

/// The body of what is left of the document that has this body. The error is a refused growth.
pub fn left_of_body(alloc: Global, body: &[u8], fields: &Fields) -> Result<Vec<u8>, AllocError>
    ensures { OfBody body.now (λ d. IfOk result (λ left. IsBody left.items (left_of fields.now d))) }
{
    let Ok(document) = RawDocument::from_bytes(body) else {
        return Ok(Vec::new(alloc));
    };
    project(alloc, document, fields)
}

/// The bodies of what is left of each document. The error is a refused growth.
pub fn left_of_each(
    alloc: Global,
    bodies: &[Vec<u8>],
    fields: &Fields,
) -> Result<Vec<Vec<u8>>, AllocError>
    ensures { (ds : Documents) → AreBodies bodies.now ds
        → IfOk result (λ left. AreBodies left.items (map (left_of fields.now) ds)) }
{
    let mut left = Vec::with_capacity(alloc, bodies.len())?;
    for body in bodies {
        left.push(left_of_body(alloc, body.as_slice(), fields)?)?;
    }
    Ok(left)
}
