//! A document that takes the place of another one, whose `_id` it keeps.

ghost use Rattle.std.specs.Prelude.{◌≡◌, IfOk};
ghost use Rattle.bson_base.specs.Value.{put};
ghost use Rattle.bson_model.specs.View.{content, view};
ghost use Rattle.store_model.specs.State.{id_key};
ghost use Rattle.fallowtime_commands.specs.Changing.{identified_by};

use crate::setting::put_value;
use bson_store::{Bson, Document};
use cli_convert::with_front_id;
use std::alloc::{AllocError, Global};
use store_documents::ID_KEY;

/// A document with this value under `_id`: in the place of the one that is there, or last.
fn with_value_of_id(alloc: Global, document: Document, id: Bson) -> Result<Document, AllocError>
    ensures { IfOk result (λ m. content m ≡ put id_key (view id) (content document)) }
{
    let mut document = document;
    put_value(alloc, &mut document, ID_KEY, id)?;
    Ok(document)
}

/// The document with this `_id`: in the place of its own one, or in front.
fn identified_by(alloc: Global, document: Document, id: Bson) -> Result<Document, AllocError>
    ensures { IfOk result (λ m. content m ≡ identified_by (view id) (content document)) }
{
    if document.contains_key(ID_KEY) {
        return with_value_of_id(alloc, document, id);
    }
    with_front_id(alloc, id, document)
}

/// A copy of a document, with this `_id`.
pub(crate) fn copy_with_id(
    alloc: Global,
    document: &Document,
    id: Bson,
) -> Result<Document, AllocError>
    ensures { IfOk result (λ m. content m ≡ identified_by (view id) (content document.now)) }
{
    let copy = document.try_clone()?;
    identified_by(alloc, copy, id)
}
