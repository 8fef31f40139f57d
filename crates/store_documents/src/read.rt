//! Documents and values as they come in.

ghost use Rattle.std.specs.Prelude.{◌≡◌, ◌⊎◌, ◌≢◌, IfErr, IfOk, MatchOption, MatchResult};
ghost use Rattle.serde_json.specs.Data.{object};
ghost use Rattle.serde_json.specs.View.{view as data_of, members_view};
ghost use Rattle.bson_base.specs.Value.{Members};
ghost use Rattle.bson_bytes.specs.Encode.{encode};
ghost use Rattle.bson_bytes.specs.Spells.{Means};
ghost use Rattle.bson_model.specs.View.{content};
ghost use Rattle.bson_model.specs.declared.extjson.de.Error.TheVariants as json_faults;
ghost use Rattle.store_model.specs.Reading.{IsRead, ReadsTree, kind_of_gate_error, unreadable};
ghost use Rattle.store_model.specs.State.{IsKept};
ghost use Rattle.store_model.specs.declared.error.ErrorKind.TheVariants.{JsonRefused, Memory, NotAnObject};
ghost use Rattle.store_documents.specs.Answers.{AnswersBytes, AnswersValue, IsOfStore};

use bson_frame as frames;
use bson_meaning::{GateError, gate};
use bson_model::{Bson, Document, extjson};
use bson_raw::RawDocument;
use serde_json::{Map, Value};
use std::alloc::Global;
use store_model::ErrorKind;

/// The refusal for a test of the gate.
pub(crate) fn gate_refusal(error: GateError) -> ErrorKind
    ensures { result ≡ kind_of_gate_error error }
{
    match error {
        GateError::EndInside => ErrorKind::EndInside,
        GateError::BadLength => ErrorKind::BadLength,
        GateError::NotTerminated => ErrorKind::NotTerminated,
        GateError::Faulty => ErrorKind::Faulty,
        GateError::TooDeep => ErrorKind::TooDeep,
    }
}

/// The refusal for a fault of the JSON reader.
pub(crate) fn json_refusal(error: extjson::de::Error) -> ErrorKind
    ensures { ((error ≡ json_faults.Memory) × (result ≡ Memory))
        ⊎ ((error ≢ json_faults.Memory) × (result ≡ JsonRefused)) }
{
    match error {
        extjson::de::Error::Memory => ErrorKind::Memory,
        extjson::de::Error::InvalidObjectId(_) => ErrorKind::JsonRefused,
        extjson::de::Error::DeserializationError => ErrorKind::JsonRefused,
        extjson::de::Error::FiniteDouble => ErrorKind::JsonRefused,
    }
}

/// The document that bytes mean, if they mean one; others may be refused, or not. `Memory` if a growth was refused.
fn document_if_any(alloc: Global, bytes: &[u8]) -> Result<Document, ErrorKind>
    ensures read { (d : Members) → Means bytes.now d
        → MatchResult result (λ d. Means bytes.now (content d)) (λ k. k ≡ Memory) }
    ensures kind { IfErr result IsOfStore }
{
    let Ok(raw) = RawDocument::from_bytes(bytes) else {
        return Err(ErrorKind::Faulty);
    };
    match raw.to_document(alloc) {
        Ok(document) => Ok(document),
        Err(error) => match error.kind {
            frames::ErrorKind::OutOfMemory => Err(ErrorKind::Memory),
            _ => Err(ErrorKind::Faulty),
        },
    }
}

/// The document that bytes mean. `Memory` if a growth was refused.
pub(crate) fn document_of(alloc: Global, bytes: &[u8]) -> Result<Document, ErrorKind>
    requires { (d : Members) × Means bytes.now d }
    ensures { MatchResult result (λ d. Means bytes.now (content d)) (λ k. k ≡ Memory) }
{
    document_if_any(alloc, bytes)
}

/// The kept document of which `body` is the written form. Other bytes are refused, or are some document. `Memory` if a
/// growth was refused. No refusal, of whatever bytes, is `Reader` or `Writer`; so it is of each call here.
pub fn document_of_body(alloc: Global, body: &[u8]) -> Result<Document, ErrorKind>
    ensures read { (d : Members) → IsKept d → body.now ≡ encode d
        → MatchResult result (λ e. content e ≡ d) (λ k. k ≡ Memory) }
    ensures kind { IfErr result IsOfStore }
{
    document_if_any(alloc, body)
}

/// The document that bytes mean (bsonspec.org 1.1, "document"): of a repeated key the last value, in the place of the
/// first.
///
/// `EndInside`, `BadLength`, `NotTerminated`, `Faulty` and `TooDeep` are those of the gate, the first whose test fails.
/// `Memory` is returned only if a growth was refused, and never in place of a refusal by the gate.
pub fn document_of_bytes(alloc: Global, bytes: &[u8]) -> Result<Document, ErrorKind>
    ensures answer { AnswersBytes bytes.now result }
    ensures read { IfOk result (λ d. IsRead (content d)) }
{
    if let Err(error) = gate(bytes) {
        return Err(gate_refusal(error));
    }
    document_of(alloc, bytes)
}

/// The members of an object.
pub(crate) fn object_of(json: Value) -> Option<Map<String, Value>>
    ensures { MatchOption result (ReadsTree (data_of json) (unreadable NotAnObject))
        (λ m. data_of json ≡ object (members_view m.entries)) }
{
    match json {
        Value::Object(map) => Some(map),
        _ => None,
    }
}

/// The value that a JSON tree stands for, as it is set under a key. `JsonRefused` if it is no Extended JSON, or holds a
/// finite double other than the zeros; `Memory` if a growth was refused.
pub fn value_of_json(alloc: Global, json: Value) -> Result<Bson, ErrorKind>
    ensures { AnswersValue (data_of json) result }
{
    Bson::try_from_value(alloc, json).map_err(json_refusal)
}
