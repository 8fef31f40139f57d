//! Documents that stages make, as bodies.

ghost use Rattle.std.specs.Prelude.{◌≡◌, ◌++◌, ◌∷◌, [], OnOk, map};
ghost use Rattle.bson_model.specs.View.{content};
ghost use Rattle.store_pipeline.specs.Faithful.{AnswersMade, AnswersWritten, AreFaithful};

use crate::error::PipelineError;
use bson_frame::LEVEL_LIMIT;
use bson_meaning::depth_of_document;
use bson_model::Document;
use std::alloc::{AllocError, Global};
use store_documents::body_of;
use store_model::ErrorKind;

/// The body of a document that a stage makes.
///
/// `Document`: `TooDeep` if it has over 100 levels, else `Nul` if a 00 is in a key, a pattern or options, else `TooLong`
/// if its bytes are over 16777216; or `Memory`.
pub(crate) fn written(alloc: Global, document: &Document) -> Result<Vec<u8>, PipelineError>
    ensures { AnswersWritten (content document.now) result }
{
    if depth_of_document(document) > LEVEL_LIMIT {
        return Err(PipelineError::Document(ErrorKind::TooDeep));
    }
    match body_of(alloc, document) {
        Ok(body) => Ok(body),
        Err(kind) => Err(PipelineError::Document(kind)),
    }
}

/// Puts a body last.
fn add(bodies: &mut Vec<Vec<u8>>, body: Vec<u8>) -> Result<(), AllocError>
    ensures { OnOk result (bodies.new.items ≡ bodies.old.items ++ body ∷ []) }
{
    bodies.push(body)?;
    Ok(())
}

/// The bodies of documents that a stage makes, one for each. The error is that of the first one that can't be written.
pub(crate) fn write_each(
    alloc: Global,
    documents: &[Document],
) -> Result<Vec<Vec<u8>>, PipelineError>
    ensures { AreFaithful (map content documents.now) → AnswersMade (map content documents.now) result }
{
    let mut bodies = Vec::with_capacity(alloc, documents.len())?;
    for document in documents {
        add(&mut bodies, written(alloc, document)?)?;
    }
    Ok(bodies)
}
