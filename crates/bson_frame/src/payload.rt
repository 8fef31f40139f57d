//! What is wrong inside a payload whose extent is right.

ghost use Rattle.std.specs.Prelude.{◌≡◌, ◌↔◌, ◌+◌, length, drop, IsTrue, IsUtf8, MatchOption, MatchResult};
ghost use Rattle.bson_frame.specs.declared.error.ErrorKind.{ErrorKind as Kind};
ghost use Rattle.bson_frame.specs.Frame.{number, IsBinarySize};
ghost use Rattle.bson_frame.specs.Payload.{IsPayload, text_in, IsTextAt, TextFault, IsEnvelope, IsNoText, IsOldMisfit, CodeFault, IsPayloadFault, IsFaultless};

use crate::error::ErrorKind;
use crate::extent::{document_size, length_at, text_size};
use crate::parts::Frame;
use bson_base::ElementType;
use simdutf8::basic::from_utf8;

/// The text at the front, and what follows it (bsonspec.org 1.1, "string"). If there is none, `MalformedValue` if
/// its extent doesn't lie within the bytes, and `Utf8EncodingError` if it isn't UTF-8.
pub fn text_at(bytes: &[u8]) -> Result<(&str, &[u8]), ErrorKind>
    ensures { MatchResult result
        (λ r. IsTextAt bytes.now × (r.0.now ≡ text_in bytes.now) × IsUtf8 r.0.now
        × (r.1.now ≡ drop (number bytes.now + 4) bytes.now)) (TextFault bytes.now) }
{
    let size = text_size(bytes)?;
    let (_, rest) = bytes.split_at(size);
    match from_utf8(&bytes[4..size - 1]) {
        Ok(text) => Ok((text, rest)),
        Err(_) => Err(ErrorKind::Utf8EncodingError),
    }
}

/// Whether a text isn't UTF-8.
fn text_fault(bytes: &[u8]) -> Option<ErrorKind>
    ensures { IsTextAt bytes.now → MatchOption result (IsUtf8 (text_in bytes.now)) (IsNoText (text_in bytes.now)) }
{
    match text_at(bytes) {
        Ok(_) => None,
        Err(kind) => Some(kind),
    }
}

/// Whether bytes have the envelope of a document: at least 5 bytes, their number in the first four, and 00 as the last.
pub fn is_envelope(bytes: &[u8]) -> bool
    ensures { IsTrue result ↔ (IsEnvelope bytes.now) }
{
    match document_size(bytes) {
        Ok(size) => size == bytes.len(),
        Err(_) => false,
    }
}

/// What is wrong inside a code with scope.
fn code_fault(payload: &[u8]) -> Option<ErrorKind>
    ensures { MatchOption result ((kind : Kind) → CodeFault payload.now kind → ⊥)
        (CodeFault payload.now) }
{
    // Its length, a text without a byte and a document without an element: 4, 5 and 5 bytes.
    if payload.len() < 14 {
        return Some(ErrorKind::MalformedValue);
    }
    let (_, code) = payload.split_at(4);
    match text_at(code) {
        Ok((_, scope)) => {
            if is_envelope(scope) {
                None
            } else {
                Some(ErrorKind::MalformedValue)
            }
        }
        Err(kind) => Some(kind),
    }
}

/// What is wrong inside a binary value: an old one has an inner length, which is the outer one less 4.
fn old_fault(payload: &[u8]) -> Option<ErrorKind>
    ensures { IsBinarySize payload.now (length payload.now) → MatchOption result
        ((kind : Kind) → IsOldMisfit payload.now kind → ⊥) (IsOldMisfit payload.now) }
{
    if payload.len() < 5 {
        return Some(ErrorKind::MalformedValue);
    }
    let (front, bytes) = payload.split_at(5);
    if front[4] != 2 {
        return None;
    }
    match length_at(bytes) {
        Ok(inner) => {
            if inner + 4 == bytes.len() {
                None
            } else {
                Some(ErrorKind::MalformedValue)
            }
        }
        Err(_) => Some(ErrorKind::MalformedValue),
    }
}

/// What is wrong inside the payload of a frame, if anything is: `Utf8EncodingError` if a text isn't UTF-8, else
/// `MalformedValue`, for a boolean other than 0 and 1, an old binary whose inner length doesn't fit, and a code with
/// scope whose parts don't. Documents and arrays inside aren't looked into.
pub fn payload_fault(frame: &Frame<'_>) -> Option<ErrorKind>
    ensures { IsPayload frame.now.tag frame.now.payload.now → MatchOption result
        (IsFaultless frame.now.tag frame.now.payload.now)
        (IsPayloadFault frame.now.tag frame.now.payload.now) }
{
    match frame.tag {
        ElementType::String
        | ElementType::JavaScriptCode
        | ElementType::Symbol
        | ElementType::DbPointer => text_fault(frame.payload),
        ElementType::Boolean => match frame.payload {
            [0 | 1] => None,
            _ => Some(ErrorKind::MalformedValue),
        },
        ElementType::Binary => old_fault(frame.payload),
        ElementType::JavaScriptCodeWithScope => code_fault(frame.payload),
        _ => None,
    }
}
