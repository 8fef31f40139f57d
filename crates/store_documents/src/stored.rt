//! Documents as they are kept, from their bytes.

ghost use Rattle.std.specs.Prelude.{◌≡◌, ◌+◌, ◌<◌, ◌^◌, ◌++◌, ◌∷◌, length, IfOk, IfSome, IsTrue, MatchResult, Ok};
ghost use Rattle.bson_base.specs.Tags.{tag_byte};
ghost use Rattle.bson_base.specs.Value.{Members};
ghost use Rattle.bson_bytes.specs.Encode.{cstring_of, frame_of};
ghost use Rattle.bson_frame.specs.Payload.{IsEnvelope};
ghost use Rattle.bson_frame.specs.View.{element_of};
ghost use Rattle.bson_meaning.specs.Gate.{IsCounted, Passes};
ghost use Rattle.bson_meaning.specs.Meaning.{key};
ghost use Rattle.bson_bytes.specs.Written.{IsWrittenUnder};
ghost use Rattle.store_model.specs.State.{id_key, IsKept};
ghost use Rattle.store_model.specs.Table.{own_id};
ghost use Rattle.store_model.specs.declared.error.ErrorKind.TheVariants.{Memory};
ghost use Rattle.store_documents.specs.Bodies.{AnswersKept, MeansItself, StandUnder};

use crate::ids::ID_KEY;
use crate::read::{document_of, gate_refusal};
use crate::write::{KeptRow, key_refusal, row_of_document};
use bson_base::ElementType;
use bson_bytes::{is_written_form, written_element};
use bson_frame::{Frame, SIZE_LIMIT, is_envelope};
use bson_meaning::{gate, meaning_key};
use std::alloc::{AllocError, Global};
use std::borrow::CowSlice;
use store_model::ErrorKind;

/// The bytes of a document around its one element, beside the payload: a length, a tag, `_id` with its 00, a 00.
const AROUND: usize = 10;

/// The document whose one element has the key `_id`, this kind and this payload.
fn alone(alloc: Global, id: &Frame<'_>) -> Result<Vec<u8>, AllocError>
    requires { length id.now.payload.now + 10 < 2 ^ 32 }
    ensures { IfOk result (λ b. b.items ≡ frame_of
        (tag_byte id.now.tag ∷ (cstring_of id_key ++ id.now.payload.now))) }
{
    let size = id.payload.len() + AROUND;
    let mut bytes = Vec::with_capacity(alloc, size)?;
    bytes.extend_from_slice(&(size as u32).to_le_bytes())?;
    bytes.push(id.tag.tag())?;
    bytes.extend_from_slice(ID_KEY.as_bytes())?;
    bytes.push(0)?;
    bytes.extend_from_slice(id.payload)?;
    bytes.push(0)?;
    Ok(bytes)
}

/// Whether a value of the kind is its own normal form, so that its bytes are those of what it means.
fn means_itself(tag: ElementType) -> bool
    ensures { IsTrue result → MeansItself tag }
{
    !matches!(
        tag,
        ElementType::Double
            | ElementType::EmbeddedDocument
            | ElementType::Array
            | ElementType::Binary
            | ElementType::RegularExpression
            | ElementType::JavaScriptCodeWithScope
            | ElementType::Decimal128
    )
}

/// The key of an `_id` from its element, as it is written. `Memory` if a growth was refused.
fn key_of_element(alloc: Global, id: &Frame<'_>) -> Result<Vec<u8>, ErrorKind>
    requires { (d : Members) × IsKept d × IsWrittenUnder id_key d (element_of id.now) }
    ensures { (d : Members) → IsKept d → IsWrittenUnder id_key d (element_of id.now)
        → MatchResult result (λ k. k.items ≡ key (own_id d)) (λ e. e ≡ Memory) }
{
    let Ok(bytes) = alone(alloc, id) else {
        return Err(ErrorKind::Memory);
    };
    if means_itself(id.tag) {
        return Ok(bytes);
    }
    let document = document_of(alloc, bytes.as_slice())?;
    match meaning_key(alloc, &document) {
        Ok(key) => Ok(key),
        Err(error) => Err(key_refusal(error)),
    }
}

/// Whether the bytes have the length that they begin with, of at most 16777216, and end in 00.
fn is_whole(bytes: &[u8]) -> bool
    ensures { IsTrue result → IsCounted bytes.now × IsEnvelope bytes.now }
{
    bytes.len() <= SIZE_LIMIT && is_envelope(bytes)
}

/// The key of the document that bytes mean, if they pass the gate and are its written form, and both are seen
/// without its tree. `Memory` if a growth was refused; the bytes pass the gate then, too.
pub(crate) fn key_as_it_stands(alloc: Global, bytes: &[u8]) -> Result<Option<Vec<u8>>, ErrorKind>
    ensures { MatchResult result (λ k. IfSome k (λ k. StandUnder k.items bytes.now))
        (λ e. (e ≡ Memory) × Passes bytes.now) }
{
    if !is_whole(bytes) || !is_written_form(bytes) {
        return Ok(None);
    }
    let Some(id) = written_element(ID_KEY, bytes) else {
        return Ok(None);
    };
    let key = key_of_element(alloc, &id)?;
    Ok(Some(key))
}

/// The row of the document that bytes mean, by its tree. The gate's refusals come first.
pub(crate) fn row_by_tree(alloc: Global, bytes: &[u8]) -> Result<KeptRow<'static>, ErrorKind>
    ensures { AnswersKept bytes.now result }
{
    if let Err(error) = gate(bytes) {
        return Err(gate_refusal(error));
    }
    let document = document_of(alloc, bytes)?;
    row_of_document(alloc, &document)
}

/// The row of the document that bytes mean, which is kept as it means: of a repeated key the last value, in the place
/// of the first. Bytes that are the written form already are lent, and no tree is made of them.
///
/// `EndInside`, `BadLength`, `NotTerminated`, `Faulty` and `TooDeep` are those of the gate, the first whose test fails;
/// then `NoId` if it has no `_id`, and `TooLong` if its bytes are over 16777216. `Memory` is returned only if a
/// growth was refused, and never in place of a refusal by the gate.
pub fn row_of_bytes(alloc: Global, bytes: &[u8]) -> Result<KeptRow<'_>, ErrorKind>
    ensures { AnswersKept bytes.now result }
{
    if let Some(key) = key_as_it_stands(alloc, bytes)? {
        return Ok(KeptRow {
            key,
            body: CowSlice::Borrowed(bytes),
        });
    }
    row_by_tree(alloc, bytes)
}
