//! Written documents as JSON.

ghost use Rattle.std.specs.Prelude.{◌≡◌, IfErr};
ghost use Rattle.bson_base.specs.Value.{Members, document as tree};
ghost use Rattle.bson_bytes.specs.Encode.{encode};
ghost use Rattle.bson_model.specs.JsonWrite.{write};
ghost use Rattle.bson_model.specs.View.{content};
ghost use Rattle.store_model.specs.State.{IsKept, or_finite, json_of};
ghost use Rattle.store_documents.specs.Answers.{AnswersJson, IsOfStore};

use crate::read::document_of_body;
use bson_meaning::has_reserved_below;
use bson_model::extjson::Mode;
use bson_model::{Bson, Document, extjson};
use serde_json::Value;
use std::alloc::Global;
use store_model::ErrorKind;

/// The JSON tree of a document. `FiniteDouble` if a finite double other than the zeros is in it, or `Memory`.
fn json_written(alloc: Global, document: Document, mode: Mode) -> Result<Value, ErrorKind>
    ensures { AnswersJson (or_finite (write mode (tree (content document)))) result }
{
    let value = Bson::Document(document);
    let written = match mode {
        Mode::Canonical => value.into_canonical_extjson(alloc),
        Mode::Relaxed => value.into_relaxed_extjson(alloc),
    };
    match written {
        Ok(json) => Ok(json),
        Err(extjson::de::Error::FiniteDouble) => Err(ErrorKind::FiniteDouble),
        Err(extjson::de::Error::Memory) => Err(ErrorKind::Memory),
        Err(_) => unreachable!(),
    }
}

/// The JSON tree of a document. `ReservedKey` if it has a reserved key below its top, else `FiniteDouble`, or `Memory`.
fn json_of_document(alloc: Global, document: Document, mode: Mode) -> Result<Value, ErrorKind>
    ensures { AnswersJson (json_of mode (content document)) result }
{
    if has_reserved_below(&document) {
        return Err(ErrorKind::ReservedKey);
    }
    json_written(alloc, document, mode)
}

/// The JSON tree of a kept document (MongoDB Extended JSON v2), of which `body` is the written form.
///
/// `ReservedKey` if a document below the top has a reserved key (`$oid` or another that marks a typed value), which
/// would be read as another value; the keys of a code's scope are free. Else `FiniteDouble` if a finite double other
/// than the zeros is in the document. `Memory` if a growth was refused. Bytes that aren't the written form of a
/// kept document may be refused as `Faulty`.
pub fn json_of_body(alloc: Global, body: &[u8], mode: Mode) -> Result<Value, ErrorKind>
    ensures tree { (d : Members) → IsKept d → body.now ≡ encode d
        → AnswersJson (json_of mode d) result }
    ensures kind { IfErr result IsOfStore }
{
    let document = document_of_body(alloc, body)?;
    json_of_document(alloc, document, mode)
}
