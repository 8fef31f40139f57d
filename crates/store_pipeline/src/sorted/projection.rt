//! What is left of a document.

ghost use Rattle.std.specs.Prelude.{◌≤◌, IfOk, length};
ghost use Rattle.bson_raw.specs.View.{bytes_of};
ghost use Rattle.store_pipeline.specs.Views.{left_of};
ghost use Rattle.store_pipeline.specs.Bodies.{IsBody, OfBody};

use crate::sorted::copying::copy_framed;
use crate::sorted::fields::Fields;
use crate::sorted::paths::lent;
use bson_base::ElementType;
use bson_order::LEVEL_LIMIT;
use bson_raw::RawDocument;
use std::alloc::{AllocError, Global};

/// The bytes of what is left of a document, never more than it has. The error is a refused growth.
///
/// In bytes that are no document's written form, the elements before the first fault count, and so it is inside of them.
/// What lies 200 levels deep isn't gone into.
pub fn project(
    alloc: Global,
    document: RawDocument<'_>,
    fields: &Fields,
) -> Result<Vec<u8>, AllocError>
    ensures left { OfBody (bytes_of document.entry) (λ d. IfOk result (λ out. IsBody out.items (left_of fields.now d))) }
    ensures few { IfOk result (λ out. length out.items ≤ length (bytes_of document.entry)) }
{
    let paths = lent(alloc, fields.paths.as_slice())?;
    let bytes = document.as_bytes();
    let elements = &bytes[4..bytes.len() - 1];
    let mut out = Vec::new(alloc);
    let kept = fields.kept;
    copy_framed(
        alloc,
        ElementType::EmbeddedDocument,
        elements,
        &paths,
        kept,
        LEVEL_LIMIT - 1,
        &mut out,
    )?;
    Ok(out)
}
