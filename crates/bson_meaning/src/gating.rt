//! The gate for bytes.

ghost use Rattle.std.specs.Prelude.{◌≡◌, ◌≤◌, ℕ, List, length, MatchOption, MatchResult};
ghost use Rattle.bson_frame.specs.Payload.{IsPayload, IsFaultless, scope_in};
ghost use Rattle.bson_base.specs.declared.spec.ElementType.TheVariants.{JavaScriptCodeWithScope};
ghost use Rattle.bson_meaning.specs.Gate.{HoldsDocument, IsCounted, IsRefused, Passes, ReadsElements, ReadsPayload};

use bson_frame::{Frame, LEVEL_LIMIT, SIZE_LIMIT, is_end, payload_fault, sized_frame, text_at};
use bson_model::ElementType;
use thiserror::Error;

/// Why bytes are no document.
#[derive(Clone, Copy, Debug, PartialEq, Eq, Error)]
pub enum GateError {
    /// There are fewer bytes than four, or than the first four declare.
    #[error("the end stands inside a document")]
    EndInside,
    /// The declared length is under 5 or over 16777216, or there are more bytes.
    #[error("the declared length is wrong")]
    BadLength,
    /// The last byte isn't 00.
    #[error("the last byte is not 00")]
    NotTerminated,
    /// There is a fault at some level.
    #[error("the bytes have a fault")]
    Faulty,
    /// More than 100 documents, arrays and scopes are nested in each other.
    #[error("more than 100 levels")]
    TooDeep,
}

/// Tests whether bytes are a document (bsonspec.org 1.1, "document") of at most 16777216 bytes and 100 levels, without
/// a fault at any level. The error is that of the first test that fails, in the order of `GateError`; if there is a
/// fault and too many levels, either is reported. Takes no memory, and goes no deeper than 100 levels.
pub fn gate(bytes: &[u8]) -> Result<(), GateError>
    ensures { MatchResult result (λ _. Passes bytes.now) (IsRefused bytes.now) }
{
    test_length(bytes)?;
    if bytes[bytes.len() - 1] != 0 {
        return Err(GateError::NotTerminated);
    }
    let (_, elements) = bytes.split_at(4);
    test_elements(elements, LEVEL_LIMIT - 1)
}

/// Tests the declared length, in the first four bytes, little endian (BSON specification 1.1, "document"). `BadLength`
/// if it is under 5 or over 16777216, or if there are more bytes than declared; `EndInside` if there are fewer than
/// declared, or fewer than four.
fn test_length(bytes: &[u8]) -> Result<(), GateError>
    ensures { MatchResult result (λ _. IsCounted bytes.now) (IsRefused bytes.now) }
{
    let [a, b, c, d, ..] = bytes else {
        return Err(GateError::EndInside);
    };
    let declared = u32::from_le_bytes([*a, *b, *c, *d]) as usize;
    // A document without an element has five bytes.
    if declared < 5 || declared > SIZE_LIMIT || bytes.len() > declared {
        return Err(GateError::BadLength);
    }
    if bytes.len() < declared {
        return Err(GateError::EndInside);
    }
    Ok(())
}

/// Tests the elements of a document, down to its last byte, among which `inner` levels may be.
#[cycle(elements)]
fn test_elements(elements: &[u8], inner: usize) -> Result<(), GateError>
    ensures { ReadsElements elements.now inner result }
{
    let mut rest = elements;
    while !is_end(rest) {
        let Some(frame) = sized_frame(rest) else {
            return Err(GateError::Faulty);
        };
        if let Err(error) = test_payload(&frame, inner) {
            return Err(error);
        }
        rest = frame.rest;
    }
    Ok(())
}

/// Tests a payload, and the document, array or scope in it if there is one. `inner` is how many levels may be nested in
/// each other from there on. `Faulty` for a fault at any level, `TooDeep` for a level too many, whichever is met first.
#[cycle(elements)]
fn test_payload(frame: &Frame<'_>, inner: usize) -> Result<(), GateError>
    requires { IsPayload frame.now.tag frame.now.payload.now }
    ensures { ReadsPayload frame.now.tag frame.now.payload.now inner result }
{
    if payload_fault(frame).is_some() {
        return Err(GateError::Faulty);
    }
    let Some(document) = document_in(frame) else {
        return Ok(());
    };
    if inner == 0 {
        return Err(GateError::TooDeep);
    }
    let (_, elements) = document.split_at(4);
    test_elements(elements, inner - 1)
}

/// The document, array or scope that a payload holds.
fn document_in<'a>(frame: &Frame<'a>) -> Option<&'a [u8]>
    requires payload { IsPayload frame.now.tag frame.now.payload.now }
    requires faultless { IsFaultless frame.now.tag frame.now.payload.now }
    ensures { MatchOption result ((held : List ℕ) → HoldsDocument frame.now.tag frame.now.payload.now held → ⊥)
        (λ held. HoldsDocument frame.now.tag frame.now.payload.now held.now × (4 ≤ length held.now)) }
{
    match frame.tag {
        ElementType::EmbeddedDocument | ElementType::Array => Some(frame.payload),
        ElementType::JavaScriptCodeWithScope => scope_of(frame.payload),
        _ => None,
    }
}

/// The scope of a code with scope.
fn scope_of(payload: &[u8]) -> Option<&[u8]>
    requires { IsFaultless JavaScriptCodeWithScope payload.now }
    ensures { MatchOption result ⊥ (λ scope. (scope.now ≡ scope_in payload.now) × (5 ≤ length scope.now)) }
{
    // Its length, a text without a byte and a document without an element: 4, 5 and 5 bytes.
    if payload.len() < 14 {
        return None;
    }
    let (_, code) = payload.split_at(4);
    match text_at(code) {
        Ok((_, scope)) => Some(scope),
        Err(_) => None,
    }
}
